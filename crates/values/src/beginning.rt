// What is begun with, in one pass over the nodes: each node's head, which is the least node with its term; the members of each class in a
// circle; how many arguments of a node are looked at, and the open applications; the variables present.
ghost use Rattle.std.specs.Prelude.{◌≡◌, true, ℕ, ◌+◌, ◌≤◌, ◌<◌, eqb, length, replicate, take, drop};
ghost use Rattle.table.specs.Limits.{max_nodes};
ghost use Rattle.table.specs.Layout.{word, kind_of, node_count};
ghost use Rattle.unification.specs.Code.Sections.{Sections};
ghost use Rattle.nodes.specs.Code.Circle.{CirclesBefore};
ghost use Rattle.nodes.specs.Code.Open.{Counts, CountedAt, OpenListed};
ghost use Rattle.nodes.specs.Code.Trail.{links, Trailed};
ghost use Rattle.values.specs.Code.Applications.{keys};
ghost use Rattle.values.specs.Code.Naming.{key_of, Compared};
ghost use Rattle.values.specs.Code.Present.{LeastBefore};
ghost use Rattle.values.specs.Code.Prepared.{OpenBefore};
ghost use Rattle.values.specs.Code.Start.{HeadsBefore, Sharing, PutHead};
ghost use Rattle.values.specs.Code.Begins.{BeginsShared};
ghost use Rattle.unification.specs.Node.{nodes_from};
ghost use Rattle.unification.specs.Computed.Variables.{variables_of};

use crate::applications::Applications;
use crate::names::{compare, longer_key, symbol_key};
use crate::prepared::{LIST, note_count};
use crate::present;
use crate::present::VARIABLE_NAMES;
use nodes::{lists, sections};
use table::Node;

// Gives node i a head, which is not after it, and puts it into the circle of that; the nodes before it have such heads and are in circles.
fn put_head(heads: &mut [u8], next: &mut [u8], i: usize, h: usize)
    requires i_in_bounds { (i < length heads.old) × (length heads.old ≤ max_nodes) × (h ≤ i) × (h < i → word heads.old h ≡ h) }
    requires by_index { ((k : ℕ) → k < i → word heads.old k ≤ k) × CirclesBefore heads.old next.old i }
    ensures { PutHead heads.old next.old i h heads.new next.new }
{
    heads[i] = h as u8;
    if h == i {
        next[i] = i as u8;
        return;
    }
    next[i] = next[h];
    next[h] = i as u8;
}

// Gives node i, a variable, its head. Answers a number past the variable's and not below `end`.
fn share_variable(
    nodes: &[u32],
    arguments: &[u32],
    least: &mut [u16],
    heads: &mut [u8],
    next: &mut [u8],
    i: usize,
    end: usize,
) -> usize
    requires heads_before { HeadsBefore nodes.now arguments.now heads.old i × (i < node_count nodes.now) × (kind_of nodes.now i ≡ 0) }
    requires least_before { LeastBefore nodes.now least.old i end × CirclesBefore heads.old next.old i }
    ensures heads_before_2 { HeadsBefore nodes.now arguments.now heads.new (i + 1) × CirclesBefore heads.new next.new (i + 1) }
    ensures least_before_2 { LeastBefore nodes.now least.new (i + 1) result }
    ensures by_index { (k : ℕ) → k < i → word heads.new k ≡ word heads.old k }
{
    let n = sections::node_count(nodes, arguments);
    let variable = sections::variable(nodes, Node(i as u32));
    let x = variable.0 as usize;
    let h = present::least_node(least, x, i, n);
    put_head(heads, next, i, h);
    present::past(end, x)
}

// The key of an application in the table, and how many of its arguments are looked at.
#[derive(Clone, Copy)]
pub struct Looked {
    pub key: usize,
    pub count: u8,
}

// Looks at the arguments of an application: makes its key of their heads, and counts them, if one of them is not a closed application.
fn look(nodes: &[u32], arguments: &[u32], heads: &[u8], counts: &[u8], node: Node) -> Looked
    requires heads_before { HeadsBefore nodes.now arguments.now heads.now node.0 × (node.0 < node_count nodes.now) }
    requires counts { Counts nodes.now arguments.now counts.now node.0 }
    ensures key_value { (result.key ≡ key_of nodes.now arguments.now heads.now heads.now node.0) × (result.key < keys) }
    ensures counted_at { CountedAt nodes.now arguments.now counts.now node.0 result.count }
{
    let n = sections::arity(nodes, arguments, node);
    let mut key = symbol_key(nodes, arguments, node);
    let mut closed = true;
    for j in 0..n {
        let a = sections::argument(nodes, arguments, node, j);
        let h = lists::node_in(heads, a.0 as usize);
        key = longer_key(key, h);
        closed = closed & sections::is_closed(nodes, counts, a);
    }
    if closed {
        return Looked { key, count: 0 };
    }
    Looked {
        key,
        count: n as u8,
    }
}

// Whether application g, before application h, has the symbol of h and arguments with the same heads.
fn alike(nodes: &[u32], arguments: &[u32], heads: &[u8], g: Node, h: Node) -> bool
    requires { HeadsBefore nodes.now arguments.now heads.now h.0 × (g.0 < h.0) × (h.0 < node_count nodes.now) }
    ensures { Compared nodes.now arguments.now heads.now heads.now g.0 h.0 result }
{
    compare(
        nodes,
        arguments,
        g,
        h,
        |a| lists::node_in(heads, a.0 as usize),
    )
}

// Gives node i, an application whose key is k, its head: one of the table that is alike, or itself, which is then put into the table.
fn share_application(
    nodes: &[u32],
    arguments: &[u32],
    table: &mut Applications,
    heads: &mut [u8],
    next: &mut [u8],
    i: usize,
    k: usize,
)
    requires sharing { Sharing nodes.now arguments.now heads.old table.old i × (i < node_count nodes.now) × (kind_of nodes.now i ≡ 0 → ⊥) }
    requires k_value { (k ≡ key_of nodes.now arguments.now heads.old heads.old i) × (k < keys) × CirclesBefore heads.old next.old i }
    ensures sharing_2 { Sharing nodes.now arguments.now heads.new table.new (i + 1) }
    ensures circles_before { CirclesBefore heads.new next.new (i + 1) }
{
    let node = Node(i as u32);
    let found = table.find(k, |g| alike(nodes, arguments, heads, Node(g as u32), node));
    if let Some(h) = found {
        put_head(heads, next, i, h);
        return;
    }
    put_head(heads, next, i, i);
    table.put(i, k);
}

// How many open applications there are, and a number past every variable.
#[derive(Clone, Copy)]
pub struct Counted {
    pub opens: usize,
    pub end: usize,
}

// Gives node i its head, and counts its arguments.
fn share_node(
    nodes: &[u32],
    arguments: &[u32],
    least: &mut [u16],
    table: &mut Applications,
    heads: &mut [u8],
    next: &mut [u8],
    counts: &mut [u8],
    i: usize,
    counted: Counted,
) -> Counted
    requires sharing { Sharing nodes.now arguments.now heads.old table.old i × (i < node_count nodes.now) }
    requires least_before { LeastBefore nodes.now least.old i counted.end × CirclesBefore heads.old next.old i }
    requires open_before { OpenBefore nodes.now arguments.now counts.old counts.old counted.opens i × (512 ≤ length counts.old) }
    ensures sharing_2 { Sharing nodes.now arguments.now heads.new table.new (i + 1) }
    ensures least_before_2 { LeastBefore nodes.now least.new (i + 1) result.end × CirclesBefore heads.new next.new (i + 1) }
    ensures open_before_2 { OpenBefore nodes.now arguments.now counts.old counts.new result.opens (i + 1) }
{
    let node = Node(i as u32);
    let before = counted.opens;
    let past = counted.end;
    if sections::is_variable(nodes, node) {
        let end = share_variable(nodes, arguments, least, heads, next, i, past);
        let opens = note_count(counts, i, 0, before);
        return Counted { opens, end };
    }
    let looked = look(nodes, arguments, heads, counts, node);
    let k = looked.key;
    let count = looked.count;
    share_application(nodes, arguments, table, heads, next, i, k);
    let opens = note_count(counts, i, count, before);
    Counted { opens, end: past }
}

// Goes over the nodes: gives each its head, and counts how many of its arguments are looked at.
fn share_nodes(
    nodes: &[u32],
    arguments: &[u32],
    least: &mut [u16],
    table: &mut Applications,
    heads: &mut [u8],
    next: &mut [u8],
    counts: &mut [u8],
) -> Counted
    requires sharing { Sharing nodes.now arguments.now heads.old table.old 0 × LeastBefore nodes.now least.old 0 0 }
    requires circles_before { CirclesBefore heads.old next.old 0 × (512 ≤ length counts.old) }
    ensures heads_before { HeadsBefore nodes.now arguments.now heads.new (node_count nodes.now) }
    ensures least_before { LeastBefore nodes.now least.new (node_count nodes.now) result.end × CirclesBefore heads.new next.new (node_count nodes.now) }
    ensures open_before { OpenBefore nodes.now arguments.now counts.old counts.new result.opens (node_count nodes.now) }
{
    let n = sections::node_count(nodes, arguments);
    let mut counted = Counted { opens: 0, end: 0 };
    for i in 0..n {
        counted = share_node(
            nodes, arguments, least, table, heads, next, counts, i, counted,
        );
    }
    counted
}

// How many open applications and variables there are.
#[derive(Clone, Copy)]
pub struct Begun {
    pub opens: usize,
    pub variables: usize,
}

// The heads of the nodes, the members of each class in circles, the counts, behind them the open applications, and behind these the least
// nodes of the variables present, in rising order of variable number.
pub fn begin_shared(
    nodes: &[u32],
    arguments: &[u32],
    heads: &mut [u8],
    next: &mut [u8],
    counts: &mut [u8],
) -> Begun
    requires sections { Sections nodes.now arguments.now }
    requires heads_len { (length heads.old ≡ node_count nodes.now) × (next.old ≡ replicate links 0) × (576 ≤ length counts.old) }
    ensures begins_shared { BeginsShared nodes.now arguments.now result.variables (drop 512 counts.new) heads.new }
    ensures trailed { Trailed (node_count nodes.now) heads.new next.new }
    ensures counts { Counts nodes.now arguments.now counts.new (node_count nodes.now) }
    ensures opens_lt_max_nodes { result.opens < max_nodes }
    ensures open_listed { OpenListed nodes.now counts.new (take result.opens (drop 256 counts.new)) }
    ensures by_index { ((k : ℕ) → 576 ≤ k → word counts.new k ≡ word counts.old k) × (length counts.new ≡ length counts.old) }
{
    let n = sections::node_count(nodes, arguments);
    let mut least = [n as u16; VARIABLE_NAMES];
    let mut table = Applications::new();
    let counted = share_nodes(
        nodes, arguments, &mut least, &mut table, heads, next, counts,
    );
    let variables = present::list_variables(&least, n, counted.end, counts);
    Begun {
        opens: counted.opens,
        variables,
    }
}

// How many variables are present.
pub fn count_variables(nodes: &[u32], arguments: &[u32]) -> usize
    requires { Sections nodes.now arguments.now }
    ensures { result ≡ length (variables_of (nodes_from nodes.now arguments.now)) }
{
    let n = sections::node_count(nodes, arguments);
    let mut least = [n as u16; VARIABLE_NAMES];
    let end = present::note_variables(nodes, arguments, &mut least);
    let mut counts = [0u8; LIST + VARIABLE_NAMES];
    present::list_variables(&least, n, end, &mut counts)
}
