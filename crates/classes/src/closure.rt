// The closure of a list of pairs of nodes, with one pair more.
ghost use Rattle.std.specs.Prelude.{◌≡◌, true, false, ◌⊎◌, ℕ, ◌<◌, ◌≤◌, length};
ghost use Rattle.table.specs.Layout.{node_count};
ghost use Rattle.classes.specs.Code.Closure.{level, Joinable, Joins, JoinsAtOnce};
ghost use Rattle.nodes.specs.Code.Uniting.{strength_of, Circling, TwoHeads};
ghost use Rattle.nodes.specs.Code.Trail.{Trailed, Goes};

use crate::trail::merge;
use nodes::{lists, sections};
use table::Node;

// Whether the circle of node g is no longer than that of node h. Either answer would do: it is a matter of speed.
fn is_shorter(next: &[u8], g: u8, h: u8) -> bool
    requires { (n : ℕ) × Circling n next.now g × (h < n) }
{
    let mut i = next[g as usize];
    let mut j = next[h as usize];
    while (i != g) & (j != h) {
        i = next[i as usize];
        j = next[j as usize];
    }
    i == g
}

// How strong a head is: an application stays before a variable, a closed one before an open one.
#[derive(Clone, Copy, PartialEq, Eq, PartialOrd, Ord)]
enum Strength {
    Variable,
    Open,
    Closed,
}

// The strength of a head.
fn strength_of(nodes: &[u32], counts: &[u8], h: Node) -> Strength
    requires { (h.0 < node_count nodes.now) × (node_count nodes.now ≤ length counts.now) }
    ensures { level result ≡ strength_of nodes.now counts.now h.0 }
{
    if sections::is_variable(nodes, h) {
        return Strength::Variable;
    }
    let i = h.0 as usize;
    if counts[i] != 0 {
        return Strength::Open;
    }
    Strength::Closed
}

// Whether head g goes before head h: the weaker does, and of two that are as strong that of the smaller class.
fn goes_first(nodes: &[u32], counts: &[u8], next: &[u8], g: u8, h: u8) -> bool
    requires g_bound { (g < node_count nodes.now) × (h < node_count nodes.now) × (node_count nodes.now ≤ length counts.now) }
    requires circling { Circling (node_count nodes.now) next.now g }
    ensures { (result ≡ true → strength_of nodes.now counts.now g ≤ strength_of nodes.now counts.now h) × (result ≡ false → strength_of nodes.now counts.now h ≤ strength_of nodes.now counts.now g) }
{
    let x = strength_of(nodes, counts, lists::node(g));
    let y = strength_of(nodes, counts, lists::node(h));
    if x == y {
        return is_shorter(next, g, h);
    }
    x < y
}

// Makes one class of two, whose heads are given.
fn unite(nodes: &[u32], counts: &[u8], heads: &mut [u8], next: &mut [u8], g: u8, h: u8)
    requires heads_len { (length heads.old ≡ node_count nodes.now) × (node_count nodes.now ≤ length counts.now) }
    requires two_heads { TwoHeads (length heads.old) heads.old next.old g h × Trailed (length heads.old) heads.old next.old }
    ensures { Goes nodes.now counts.now heads.old next.old g h heads.new next.new ⊎ Goes nodes.now counts.now heads.old next.old h g heads.new next.new }
{
    if goes_first(nodes, counts, next, g, h) {
        merge(heads, next, g, h);
        return;
    }
    merge(heads, next, h, g);
}

// Joins two nodes if nothing is to be joined after them: they are of one class, or the head of one is a variable. Says whether it has; if not,
// the classes are as before.
fn join_at_once(
    nodes: &[u32],
    arguments: &[u32],
    counts: &[u8],
    heads: &mut [u8],
    next: &mut [u8],
    a: Node,
    b: Node,
) -> bool
    requires joinable { Joinable nodes.now arguments.now counts.now heads.old next.old }
    requires a_bound { (a.0 < node_count nodes.now) × (b.0 < node_count nodes.now) }
    ensures { JoinsAtOnce nodes.now arguments.now counts.now heads.old next.old a.0 b.0 result heads.new next.new }
{
    let i = a.0 as usize;
    let j = b.0 as usize;
    let g = heads[i];
    let h = heads[j];
    if g == h {
        return true;
    }
    let first = lists::node(g);
    let second = lists::node(h);
    if sections::is_variable(nodes, first) | sections::is_variable(nodes, second) {
        unite(nodes, counts, heads, next, g, h);
        return true;
    }
    false
}

// Joins two nodes, and whatever the closure then joins. Says whether there is no clash.
pub fn join(
    nodes: &[u32],
    arguments: &[u32],
    counts: &[u8],
    heads: &mut [u8],
    next: &mut [u8],
    a: Node,
    b: Node,
) -> bool
    requires joinable { Joinable nodes.now arguments.now counts.now heads.old next.old }
    requires a_bound { (a.0 < node_count nodes.now) × (b.0 < node_count nodes.now) }
    ensures { Joins nodes.now arguments.now counts.now heads.old next.old a.0 b.0 result heads.new next.new }
{
    let i = a.0 as usize;
    let j = b.0 as usize;
    let g = heads[i];
    let h = heads[j];
    if g == h {
        return true;
    }
    let first = lists::node(g);
    let second = lists::node(h);
    if sections::is_variable(nodes, first) | sections::is_variable(nodes, second) {
        unite(nodes, counts, heads, next, g, h);
        return true;
    }
    if !sections::one_symbol(nodes, first, second)
        | sections::both_closed(nodes, counts, first, second)
    {
        return false;
    }
    unite(nodes, counts, heads, next, g, h);
    let count = sections::arity(nodes, arguments, first);
    for k in 0..count {
        let x = sections::argument(nodes, arguments, first, k);
        let y = sections::argument(nodes, arguments, second, k);
        if !join_at_once(nodes, arguments, counts, heads, next, x, y) {
            if !join(nodes, arguments, counts, heads, next, x, y) {
                return false;
            }
        }
    }
    true
}
