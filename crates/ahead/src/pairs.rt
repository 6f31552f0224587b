// The pairs of terms that may be: those of terms that differ are struck out, at once or when they are tried.
ghost use Rattle.std.specs.Prelude.{◌≡◌, true, false, ◌+◌, ◌≤◌, ◌<◌};
ghost use Rattle.table.specs.Layout.{word, node_count};
ghost use Rattle.nodes.specs.Code.Trail.{Trailed};
ghost use Rattle.nodes.specs.Code.Formed.{Formed};
ghost use Rattle.branches.specs.Code.Known.{left_count, right_count, KnownOf, KeepsKnown};
ghost use Rattle.ahead.specs.Code.Struck.{NeverJoins, RowTo, RowsTo};
ghost use Rattle.ahead.specs.declared.pairs.Seen.TheVariants.{Different};

use branches::known;
use branches::known::{EVERY, LEFT, LEFT_COUNT, RIGHT, RIGHT_COUNT, ROWS};
use classes::settle::extend;
use classes::trail::{GONE, undo};
use nodes::{lists, sections};
use table::Node;
use unification::Unification;

// What is seen of two terms at once.
#[derive(Clone, Copy, PartialEq, Eq)]
enum Seen {
    // They differ, by their symbols or as closed terms.
    Different,
    // They are of one class.
    Same,
    // They are to be joined.
    Open,
}

// Looks at two terms, by the heads of their classes.
fn see(nodes: &[u32], arguments: &[u32], known: &[u8], heads: &[u8], a: Node, b: Node) -> Seen
    requires known_of { KnownOf nodes.now arguments.now known.now × Formed nodes.now arguments.now known.now heads.now }
    requires a_bound { (a.0 < node_count nodes.now) × (b.0 < node_count nodes.now) }
    ensures { result ≡ Different → NeverJoins nodes.now arguments.now heads.now a.0 b.0 }
{
    let g = lists::node_in(heads, a.0 as usize);
    let h = lists::node_in(heads, b.0 as usize);
    if g == h {
        return Seen::Same;
    }
    if sections::differ(nodes, g, h) {
        return Seen::Different;
    }
    if sections::both_closed(nodes, known, g, h) {
        return Seen::Different;
    }
    Seen::Open
}

// The right terms that a left term may be paired with, and how many of them are to be joined with it.
#[derive(Clone, Copy)]
pub struct Row {
    pub may: usize,
    pub joins: usize,
}

// The row of left term i.
fn strike_row(nodes: &[u32], arguments: &[u32], known: &[u8], heads: &[u8], i: usize) -> Row
    requires known_of { KnownOf nodes.now arguments.now known.now × Formed nodes.now arguments.now known.now heads.now }
    requires i_bound { i < left_count known.now }
    ensures row_to { RowTo nodes.now arguments.now known.now heads.now i (right_count known.now) result.may }
    ensures joins_bound { result.joins ≤ 8 }
{
    let m = known::at(known, RIGHT_COUNT);
    let a = lists::node_in(known, LEFT + i);
    let mut may = 0;
    let mut joins = 0;
    for j in 0..m {
        let b = lists::node_in(known, RIGHT + j);
        match see(nodes, arguments, known, heads, a, b) {
            Seen::Different => {}
            Seen::Same => may += 1 << j,
            Seen::Open => {
                may += 1 << j;
                joins += 1;
            }
        }
    }
    Row { may, joins }
}

// The same; that of a variable has every right term.
fn first_row(nodes: &[u32], arguments: &[u32], known: &[u8], heads: &[u8], i: usize) -> Row
    requires known_of { KnownOf nodes.now arguments.now known.now × Formed nodes.now arguments.now known.now heads.now }
    requires i_bound { i < left_count known.now }
    ensures row_to { RowTo nodes.now arguments.now known.now heads.now i (right_count known.now) result.may }
    ensures joins_bound { result.joins ≤ 8 }
{
    let a = lists::node_in(known, LEFT + i);
    let h = lists::node_in(heads, a.0 as usize);
    if sections::is_variable(nodes, h) {
        return Row {
            may: known::at(known, EVERY),
            joins: known::at(known, RIGHT_COUNT),
        };
    }
    strike_row(nodes, arguments, known, heads, i)
}

// Strikes out pairs that differ at once; how many pairs are left that are to be joined.
pub fn strike(nodes: &[u32], arguments: &[u32], heads: &[u8], known: &mut [u8]) -> usize
    requires { KnownOf nodes.now arguments.now known.old × Formed nodes.now arguments.now known.old heads.now }
    ensures keeps_known { KeepsKnown known.old known.new }
    ensures rows_to { RowsTo nodes.now arguments.now known.new heads.now (left_count known.old) }
{
    let n = known::at(known, LEFT_COUNT);
    let mut joins = 0;
    for i in 0..n {
        let row = first_row(nodes, arguments, known, heads, i);
        known[ROWS + i] = row.may as u8;
        joins += row.joins;
    }
    joins
}

// Whether head h may hold the variable of head g: an argument is of its class, or open itself.
fn may_hold(nodes: &[u32], arguments: &[u32], known: &[u8], heads: &[u8], h: Node, g: Node) -> bool
    requires known_of { KnownOf nodes.now arguments.now known.now × Formed nodes.now arguments.now known.now heads.now }
    requires h_bound { h.0 < node_count nodes.now }
{
    let n = usize::from(known[h.0 as usize]);
    for j in 0..n {
        let a = sections::argument(nodes, arguments, h, j);
        let x = lists::node_in(heads, a.0 as usize);
        if (x == g) | (known[x.0 as usize] != 0) {
            return true;
        }
    }
    false
}

// Whether two heads are known to join: one is a variable, and the other does not hold it.
fn joins(nodes: &[u32], arguments: &[u32], known: &[u8], heads: &[u8], g: Node, h: Node) -> bool
    requires known_of { KnownOf nodes.now arguments.now known.now × Formed nodes.now arguments.now known.now heads.now }
    requires g_bound { (g.0 < node_count nodes.now) × (h.0 < node_count nodes.now) }
{
    if sections::is_variable(nodes, g) {
        return !may_hold(nodes, arguments, known, heads, h, g);
    }
    if sections::is_variable(nodes, h) {
        return !may_hold(nodes, arguments, known, heads, g, h);
    }
    false
}

// Whether two terms may be joined: they are tried, and the classes are as before.
fn try_pair(
    nodes: &[u32],
    arguments: &[u32],
    known: &[u8],
    heads: &mut [u8],
    next: &mut [u8],
    a: Node,
    b: Node,
) -> bool
    requires known_of { KnownOf nodes.now arguments.now known.now }
    requires formed { Formed nodes.now arguments.now known.now heads.old × Trailed (node_count nodes.now) heads.old next.old }
    requires a_bound { (a.0 < node_count nodes.now) × (b.0 < node_count nodes.now) }
    ensures never_joins { result ≡ false → NeverJoins nodes.now arguments.now heads.old a.0 b.0 }
    ensures heads_unchanged { (heads.new ≡ heads.old) × (next.new ≡ next.old) }
{
    let g = lists::node_in(heads, a.0 as usize);
    let h = lists::node_in(heads, b.0 as usize);
    if g == h {
        return true;
    }
    if joins(nodes, arguments, known, heads, g, h) {
        return true;
    }
    let mark = next[GONE];
    if extend(nodes, arguments, known, heads, next, a, b) != Unification::Unified {
        return false;
    }
    undo(heads, next, mark);
    true
}

// The row of left term i, with those of its pairs that may be joined, each by itself.
pub fn try_row(
    nodes: &[u32],
    arguments: &[u32],
    known: &[u8],
    heads: &mut [u8],
    next: &mut [u8],
    i: usize,
) -> usize
    requires known_of { KnownOf nodes.now arguments.now known.now }
    requires formed { Formed nodes.now arguments.now known.now heads.old × Trailed (node_count nodes.now) heads.old next.old }
    requires rows_to { RowsTo nodes.now arguments.now known.now heads.old (left_count known.now) × (i < left_count known.now) }
    ensures row_to { RowTo nodes.now arguments.now known.now heads.old i (right_count known.now) result }
    ensures heads_unchanged { (heads.new ≡ heads.old) × (next.new ≡ next.old) }
{
    let m = known::at(known, RIGHT_COUNT);
    let a = lists::node_in(known, LEFT + i);
    let row = known::at(known, ROWS + i);
    let mut may = 0;
    for j in 0..m {
        if (row >> j) % 2 == 0 {
            continue;
        }
        let b = lists::node_in(known, RIGHT + j);
        if try_pair(nodes, arguments, known, heads, next, a, b) {
            may += 1 << j;
        }
    }
    may
}

// Strikes out pairs of left terms from `first` on that cannot be joined by themselves; whether there were any.
pub fn try_pairs(
    nodes: &[u32],
    arguments: &[u32],
    heads: &mut [u8],
    next: &mut [u8],
    known: &mut [u8],
    first: usize,
) -> bool
    requires known_of { KnownOf nodes.now arguments.now known.old }
    requires formed { Formed nodes.now arguments.now known.old heads.old × Trailed (node_count nodes.now) heads.old next.old }
    requires rows_to { RowsTo nodes.now arguments.now known.old heads.old (left_count known.old) }
    ensures keeps_known { KeepsKnown known.old known.new }
    ensures rows_to_2 { RowsTo nodes.now arguments.now known.new heads.old (left_count known.old) }
    ensures known_unchanged { result ≡ false → known.new ≡ known.old }
    ensures heads_unchanged { (heads.new ≡ heads.old) × (next.new ≡ next.old) }
{
    let n = known::at(known, LEFT_COUNT);
    let mut fewer = false;
    for i in first..n {
        let row = known::at(known, ROWS + i);
        let may = try_row(nodes, arguments, known, heads, next, i);
        known[ROWS + i] = may as u8;
        fewer |= may != row;
    }
    fewer
}
