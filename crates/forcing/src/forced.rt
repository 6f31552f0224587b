// Pairs that every choice has: a left term with one partner left, where there are no right labels to put it in, and a right term that one left
// term only may take, where there are no left labels. They are unified on top of the classes.
ghost use Rattle.std.specs.Prelude.{◌≡◌, ◌^◌, ◌≤◌, ◌<◌, length, IfSome, MatchOption};
ghost use Rattle.table.specs.Limits.{max_terms};
ghost use Rattle.branches.specs.Code.Known.{known_bytes, left_count, right_count, left_labels, right_labels, KnownOf};
ghost use Rattle.branches.specs.Code.Walk.{Based};
ghost use Rattle.forcing.specs.Code.Forced.{Contested, NoTaker, FirstTaker, Forces};

use branches::known::{LEFT_COUNT, LEFT_LABELS, RIGHT_COUNT, RIGHT_LABELS, ROWS};
use branches::{branch, known};

// The only right term of a set, if there is one only.
fn only(row: usize) -> Option<usize>
    ensures { IfSome result (λ j. row ≡ 2 ^ j) }
{
    match row {
        1 => Some(0),
        2 => Some(1),
        4 => Some(2),
        8 => Some(3),
        16 => Some(4),
        32 => Some(5),
        64 => Some(6),
        128 => Some(7),
        _ => None,
    }
}

// Unifies left term i with its partner, if it has one only; false where that cannot be.
pub fn force_left(
    nodes: &[u32],
    arguments: &[u32],
    known: &[u8],
    heads: &mut [u8],
    next: &mut [u8],
    i: usize,
) -> bool
    requires known_of { KnownOf nodes.now arguments.now known.now }
    requires based { Based nodes.now arguments.now known.now heads.old next.old }
    requires known_value { (right_labels known.now ≡ 0) × (i < left_count known.now) }
    ensures { Forces nodes.now arguments.now known.now result heads.new next.new }
{
    let Some(j) = only(known::at(known, ROWS + i)) else {
        return true;
    };
    if known::at(known, RIGHT_COUNT) <= j {
        return true;
    }
    branch::join_pair(nodes, arguments, known, heads, next, i, j + 1)
}

// Unifies the left terms that have one partner with it, where there are no right labels; false where one cannot be.
fn force_lefts(
    nodes: &[u32],
    arguments: &[u32],
    known: &[u8],
    heads: &mut [u8],
    next: &mut [u8],
) -> bool
    requires known_of { KnownOf nodes.now arguments.now known.now }
    requires based { Based nodes.now arguments.now known.now heads.old next.old }
    ensures { Forces nodes.now arguments.now known.now result heads.new next.new }
{
    if known[RIGHT_LABELS] != 0 {
        return true;
    }
    let n = known::at(known, LEFT_COUNT);
    for i in 0..n {
        if !force_left(nodes, arguments, known, heads, next, i) {
            return false;
        }
    }
    true
}

// The right terms that more than one left term may take.
fn contested(known: &[u8]) -> usize
    requires { (length known.now ≡ known_bytes) × (left_count known.now ≤ max_terms) }
    ensures { Contested known.now result }
{
    let n = known::at(known, LEFT_COUNT);
    let mut once = 0;
    let mut twice = 0;
    for i in 0..n {
        let row = known::at(known, ROWS + i);
        twice |= once & row;
        once |= row;
    }
    twice
}

// The first left term that may take right term j, if one may.
fn taker(known: &[u8], j: usize) -> Option<usize>
    requires { (length known.now ≡ known_bytes) × (left_count known.now ≤ max_terms) × (j < max_terms) }
    ensures { MatchOption result (NoTaker known.now j) (FirstTaker known.now j) }
{
    let n = known::at(known, LEFT_COUNT);
    known[ROWS..ROWS + n]
        .iter()
        .position(|row| (*row >> j) % 2 == 1)
}

// Unifies right term j, unless it is in the set `twice`, with the only left term that may take it; false where that cannot be.
fn force_right(
    nodes: &[u32],
    arguments: &[u32],
    known: &[u8],
    heads: &mut [u8],
    next: &mut [u8],
    twice: usize,
    j: usize,
) -> bool
    requires known_of { KnownOf nodes.now arguments.now known.now }
    requires based { Based nodes.now arguments.now known.now heads.old next.old }
    requires known_value { (left_labels known.now ≡ 0) × (j < right_count known.now) × Contested known.now twice }
    ensures { Forces nodes.now arguments.now known.now result heads.new next.new }
{
    if (twice >> j) % 2 == 1 {
        return true;
    }
    let Some(i) = taker(known, j) else {
        return false;
    };
    branch::join_pair(nodes, arguments, known, heads, next, i, j + 1)
}

// Unifies the right terms that one left term only may take with it, where there are no left labels; false where one cannot be.
fn force_rights(
    nodes: &[u32],
    arguments: &[u32],
    known: &[u8],
    heads: &mut [u8],
    next: &mut [u8],
) -> bool
    requires known_of { KnownOf nodes.now arguments.now known.now }
    requires based { Based nodes.now arguments.now known.now heads.old next.old }
    ensures { Forces nodes.now arguments.now known.now result heads.new next.new }
{
    if known[LEFT_LABELS] != 0 {
        return true;
    }
    let m = known::at(known, RIGHT_COUNT);
    let twice = contested(known);
    for j in 0..m {
        if !force_right(nodes, arguments, known, heads, next, twice, j) {
            return false;
        }
    }
    true
}

// Unifies the pairs that every choice has; false where one cannot be.
pub fn force(
    nodes: &[u32],
    arguments: &[u32],
    known: &[u8],
    heads: &mut [u8],
    next: &mut [u8],
) -> bool
    requires known_of { KnownOf nodes.now arguments.now known.now }
    requires based { Based nodes.now arguments.now known.now heads.old next.old }
    ensures { Forces nodes.now arguments.now known.now result heads.new next.new }
{
    if !force_lefts(nodes, arguments, known, heads, next) {
        return false;
    }
    force_rights(nodes, arguments, known, heads, next)
}
