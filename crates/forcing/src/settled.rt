// Looking ahead: the pairs of terms that may be, a bit for each left term and each set of paired right terms, and the pairs that every choice has.
// Closed terms that differ and different symbols are struck out first; where that leaves no choice, nothing is unified.
ghost use Rattle.std.specs.Prelude.{◌≡◌, [], ◌≤◌, ◌<◌, replicate, IfSome};
ghost use Rattle.table.specs.Layout.{node_count};
ghost use Rattle.nodes.specs.Code.Trail.{Trailed};
ghost use Rattle.nodes.specs.Code.Formed.{Formed};
ghost use Rattle.branches.specs.Code.Known.{left_count, KnownOf};
ghost use Rattle.branches.specs.Code.Walk.{Standing, Based, BasesAhead};
ghost use Rattle.ahead.specs.Code.Plan.{Sized, Plans};
ghost use Rattle.forcing.specs.Code.Forced.{Planned, Settles};

use crate::forced::{force, force_left};
pub use ahead::ahead::{ALL, SETS};
use ahead::ahead::{FEW, first_tried, leave};
use ahead::pairs::{strike, try_row};
use ahead::plan::plan;
use branches::known;
use branches::known::{EVERY, LEFT_COUNT, RIGHT_COUNT, RIGHT_LABELS, ROWS};
use classes::trail::GONE;

// Each round but the last strikes out a pair, and there are 64 at most.
const ROUNDS: usize = 64;

// Tries the pairs of left term i on top of the classes, and strikes out those that fail; how many rows have fewer pairs then, or None: there is no
// choice. Where one is left that the term must be paired with, the two are unified.
fn settle_row(
    nodes: &[u32],
    arguments: &[u32],
    heads: &mut [u8],
    next: &mut [u8],
    known: &mut [u8],
    i: usize,
) -> Option<usize>
    requires known_of { KnownOf nodes.now arguments.now known.old }
    requires based { Based nodes.now arguments.now known.old heads.old next.old }
    requires i_bound { i < left_count known.old }
    ensures settles { Settles nodes.now arguments.now known.old known.new heads.new next.new result }
    ensures upper_bound { IfSome result (λ n. n ≤ 1) }
{
    let row = known::at(known, ROWS + i);
    let may = try_row(nodes, arguments, known, heads, next, i);
    if may == row {
        return Some(0);
    }
    known[ROWS + i] = may as u8;
    if known[RIGHT_LABELS] != 0 {
        return Some(1);
    }
    if may == 0 {
        return None;
    }
    if !force_left(nodes, arguments, known, heads, next, i) {
        return None;
    }
    Some(1)
}

// The same of the left terms from `first` on; how many rows have fewer pairs.
fn settle_rows(
    nodes: &[u32],
    arguments: &[u32],
    heads: &mut [u8],
    next: &mut [u8],
    known: &mut [u8],
    first: usize,
) -> Option<usize>
    requires known_of { KnownOf nodes.now arguments.now known.old }
    requires based { Based nodes.now arguments.now known.old heads.old next.old }
    ensures { Settles nodes.now arguments.now known.old known.new heads.new next.new result }
{
    let n = known::at(known, LEFT_COUNT);
    let mut fewer = 0;
    for i in first..n {
        fewer += settle_row(nodes, arguments, heads, next, known, i)?;
    }
    Some(fewer)
}

// One round: unifies the pairs that every choice has, and tries the others on top of them, unless that was done and nothing was unified since.
fn settle_round(
    nodes: &[u32],
    arguments: &[u32],
    heads: &mut [u8],
    next: &mut [u8],
    known: &mut [u8],
    again: bool,
) -> Option<usize>
    requires known_of { KnownOf nodes.now arguments.now known.old }
    requires based { Based nodes.now arguments.now known.old heads.old next.old }
    ensures { Settles nodes.now arguments.now known.old known.new heads.new next.new result }
{
    let before = next[GONE];
    if !force(nodes, arguments, known, heads, next) {
        return None;
    }
    if again & (next[GONE] == before) {
        return Some(0);
    }
    settle_rows(nodes, arguments, heads, next, known, first_tried(known))
}

// Such rounds, until nothing changes: whether there may be a choice.
fn settle(
    nodes: &[u32],
    arguments: &[u32],
    heads: &mut [u8],
    next: &mut [u8],
    known: &mut [u8],
    can: &mut [u64],
) -> bool
    requires known_of { KnownOf nodes.now arguments.now known.old }
    requires based { Based nodes.now arguments.now known.old heads.old next.old × Planned known.old can.old }
    ensures { BasesAhead nodes.now arguments.now known.old known.new can.new heads.new next.new result }
{
    for rounds in 0..ROUNDS {
        let Some(fewer) = settle_round(nodes, arguments, heads, next, known, 0 < rounds) else {
            return false;
        };
        if fewer == 0 {
            return true;
        }
        if !plan(known, can) {
            return false;
        }
    }
    true
}

// Whether no pair is struck out.
fn is_whole(known: &[u8]) -> bool
    requires { Sized known.now }
{
    let n = known::at(known, LEFT_COUNT);
    let every = known[EVERY];
    known[ROWS..ROWS + n].iter().all(|row| *row == every)
}

// Fills the bits for the first time: whether there may be a choice. Where no pair is struck out and there are no right labels, every beginning
// can be completed, and the bits stay as they are.
fn plan_first(known: &[u8], can: &mut [u64]) -> bool
    requires { Sized known.now × (can.old ≡ replicate 32 18446744073709551615) }
    ensures { Plans known.now can.old can.new result }
{
    if (known[RIGHT_LABELS] == 0) & is_whole(known) {
        return true;
    }
    plan(known, can)
}

// Looks ahead: whether there may be a choice.
pub fn look_ahead(
    nodes: &[u32],
    arguments: &[u32],
    heads: &mut [u8],
    next: &mut [u8],
    known: &mut [u8],
    can: &mut [u64],
) -> bool
    requires known_of { KnownOf nodes.now arguments.now known.old }
    requires formed { Formed nodes.now arguments.now known.old heads.old × Trailed (node_count nodes.now) heads.old next.old }
    requires standing { Standing nodes.now arguments.now heads.old [] }
    requires can_value { can.old ≡ replicate 32 18446744073709551615 }
    ensures { BasesAhead nodes.now arguments.now known.old known.new can.new heads.new next.new result }
{
    if (known[LEFT_COUNT] < 2) | (known[RIGHT_COUNT] < 2) {
        leave(nodes, arguments, known);
        return true;
    }
    let joins = strike(nodes, arguments, heads, known);
    if !plan_first(known, can) {
        return false;
    }
    if joins < FEW {
        return true;
    }
    settle(nodes, arguments, heads, next, known, can)
}
