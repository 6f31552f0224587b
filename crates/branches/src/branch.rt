// A branch as it stands in an entry: what the walk reads and stores there where it takes a digit more.
ghost use Rattle.std.specs.Prelude.{◌≡◌, ◌+◌, ◌-◌, ◌^◌, ◌<◌, ◌≤◌, length, set};
ghost use Rattle.table.specs.Layout.{word, node_count};
ghost use Rattle.nodes.specs.Code.Trail.{Trailed};
ghost use Rattle.nodes.specs.Code.Formed.{Formed};
ghost use Rattle.branches.specs.Code.Ahead.{bit_at};
ghost use Rattle.branches.specs.Code.Branch.{JoinsPair, IsOpen};
ghost use Rattle.branches.specs.Code.Known.{known_bytes, left_count, right_count, KnownOf};

use crate::known;
use crate::known::{LEFT, LEFT_COUNT, RIGHT, ROWS};
use classes::settle::extend;
use nodes::lists;
use unification::Unification;

// Puts the digit of left term i.
pub fn put_digit(entry: &mut [u32], i: usize, d: usize)
    requires { (i < length entry.old) × (d < 4294967296) }
    ensures { entry.new ≡ set entry.old i d }
{
    entry[i] = d as u32;
}

// Puts the digit of left term i, which counts to a right term, and marks that one as paired.
pub fn put_pair(known: &[u8], entry: &mut [u32], i: usize, d: usize)
    requires { (length known.now ≡ known_bytes) × (i < length entry.old) × (0 < d) × (d < 4294967296) × (left_count known.now + d ≤ length entry.old) }
    ensures { entry.new ≡ set (set entry.old i d) (left_count known.now + d - 1) 0 }
{
    let p = known::at(known, LEFT_COUNT) + d - 1;
    put_digit(entry, i, d);
    entry[p] = 0;
}

// Puts the mark of a right term back.
pub fn put_back(known: &[u8], entry: &mut [u32], d: usize)
    requires { (length known.now ≡ known_bytes) × (0 < d) × (left_count known.now + d ≤ length entry.old) }
    ensures { entry.new ≡ set entry.old (left_count known.now + d - 1) 1 }
{
    let p = known::at(known, LEFT_COUNT) + d - 1;
    entry[p] = 1;
}

// Joins left term i and the right term that digit d counts to, if they have a common value on top of the pairs so far; says whether they have.
pub fn join_pair(
    nodes: &[u32],
    arguments: &[u32],
    known: &[u8],
    heads: &mut [u8],
    next: &mut [u8],
    i: usize,
    d: usize,
) -> bool
    requires known_of { KnownOf nodes.now arguments.now known.now }
    requires formed { Formed nodes.now arguments.now known.now heads.old × Trailed (node_count nodes.now) heads.old next.old }
    requires i_bound { (i < left_count known.now) × (0 < d) × (d ≤ right_count known.now) }
    ensures { JoinsPair nodes.now arguments.now known.now heads.old next.old (word known.now (584 + i)) (word known.now (592 + (d - 1))) result heads.new next.new }
{
    let a = lists::node_in(known, LEFT + i);
    let b = lists::node_in(known, RIGHT + (d - 1));
    if heads[a.0 as usize] == heads[b.0 as usize] {
        return true;
    }
    extend(nodes, arguments, known, heads, next, a, b) == Unification::Unified
}

// The set with the right term that digit d counts to.
fn bit(d: usize) -> usize
    requires { (0 < d) × (d ≤ 8) }
    ensures { (result ≡ 2 ^ (d - 1)) × (result ≤ 128) }
{
    1 << (d - 1)
}

// The set of paired right terms with the one that digit d counts to.
pub fn with_pair(paired: usize, d: usize) -> usize
    requires { (0 < d) × (d ≤ 8) × (paired < 256) }
    ensures { result ≡ paired + 2 ^ (d - 1) }
{
    paired + bit(d)
}

// Whether the left terms after term i can still be placed, where the right terms of a set are paired.
pub fn can_complete(can: &[u64], i: usize, paired: usize) -> bool
    requires { (length can.now ≡ 32) × (i < 8) × (paired < 256) }
    ensures { result ≡ bit_at can.now i paired }
{
    (can[4 * i + paired / 64] >> (paired % 64)) % 2 == 1
}

// Whether left term i may take the right term that digit d counts to: the pair is not struck out, the right term is free, and what is left can
// still be completed.
pub fn is_open(known: &[u8], can: &[u64], i: usize, d: usize, paired: usize) -> bool
    requires known_len { (length known.now ≡ known_bytes) × (length can.now ≡ 32) }
    requires i_bound { (i < 8) × (0 < d) × (d ≤ 8) × (paired < 256) }
    ensures { IsOpen known.now can.now i d paired result }
{
    let row = known::at(known, ROWS + i);
    if (row >> (d - 1)) % 2 == 0 {
        return false;
    }
    if (paired >> (d - 1)) % 2 == 1 {
        return false;
    }
    can_complete(can, i, with_pair(paired, d))
}
