// Looking ahead: the pairs of terms that may be, and a bit for each left term and each set of paired right terms. Closed terms that differ
// and different symbols are struck out first; where that leaves no choice, nothing is unified.
ghost use Rattle.std.specs.Prelude.{◌≡◌, false, List, ℕ, ◌<◌, cond, eqb, length, replicate};
ghost use Rattle.table.specs.Layout.{node_count};
ghost use Rattle.nodes.specs.Code.Trail.{Trailed};
ghost use Rattle.nodes.specs.Code.Formed.{Formed};
ghost use Rattle.branches.specs.Code.Known.{left_labels, KnownOf, KeepsKnown};
ghost use Rattle.branches.specs.Code.Walk.{Standing, LooksAhead};
ghost use Rattle.ahead.specs.Code.Whole.{NotFit, WholeRows};

use crate::pairs::{strike, try_pairs};
use crate::plan::plan;
use branches::known;
use branches::known::{EVERY, LEFT_COUNT, LEFT_LABELS, RIGHT_COUNT, RIGHT_LABELS, ROWS};

// How many words of bits there are.
pub const SETS: usize = 32;

// Every set.
pub const ALL: u64 = 18446744073709551615;

// With fewer pairs that are to be joined none is tried before the walk.
pub const FEW: usize = 5;

// Whether the two sides can be paired by their numbers: a side with more terms needs labels of the other.
fn fits(nodes: &[u32], arguments: &[u32], known: &[u8]) -> bool
    requires { KnownOf nodes.now arguments.now known.now }
    ensures { result ≡ false → NotFit known.now }
{
    let n = known[LEFT_COUNT];
    let m = known[RIGHT_COUNT];
    if (known[RIGHT_LABELS] == 0) & (m < n) {
        return false;
    }
    if (known[LEFT_LABELS] == 0) & (n < m) {
        return false;
    }
    true
}

// Leaves every pair.
pub fn leave(nodes: &[u32], arguments: &[u32], known: &mut [u8])
    requires { KnownOf nodes.now arguments.now known.old }
    ensures { WholeRows known.old known.new }
{
    let n = known::at(known, LEFT_COUNT);
    let every = known[EVERY];
    known[ROWS..ROWS + n].fill(every);
}

// The first left term whose pairs are tried: where there are left labels, the second.
pub fn first_tried(known: &[u8]) -> usize
    requires { 580 < length known.now }
    ensures { result ≡ cond (eqb (left_labels known.now) 0) 0 1 }
{
    if known[LEFT_LABELS] == 0 { 0 } else { 1 }
}

// Looks ahead: whether there may be a choice.
pub fn look_ahead(
    nodes: &[u32],
    arguments: &[u32],
    heads: &mut [u8],
    next: &mut [u8],
    known: &mut [u8],
    can: &mut [u64],
) -> bool
    requires known_of { KnownOf nodes.now arguments.now known.old }
    requires formed { Formed nodes.now arguments.now known.old heads.old × Trailed (node_count nodes.now) heads.old next.old }
    requires by_index { (ps : List (ℕ × ℕ)) × Standing nodes.now arguments.now heads.old ps }
    requires can_value { can.old ≡ replicate 32 18446744073709551615 }
    ensures heads_unchanged { (heads.new ≡ heads.old) × (next.new ≡ next.old) }
    ensures keeps_known { KeepsKnown known.old known.new }
    ensures looks_ahead { LooksAhead nodes.now arguments.now heads.old known.old known.new can.new result }
{
    if !fits(nodes, arguments, known) {
        return false;
    }
    if (known[LEFT_COUNT] < 2) | (known[RIGHT_COUNT] < 2) {
        leave(nodes, arguments, known);
        return true;
    }
    let joins = strike(nodes, arguments, heads, known);
    if !plan(known, can) {
        return false;
    }
    if joins < FEW {
        return true;
    }
    if try_pairs(nodes, arguments, heads, next, known, first_tried(known)) {
        return plan(known, can);
    }
    true
}
