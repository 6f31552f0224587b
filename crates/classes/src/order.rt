// The heads with arguments that are looked at, in an order in which those of arguments come first, by depth-first search.
ghost use Rattle.std.specs.Prelude.{◌≡◌, not, ◌&&◌, ◌<◌, ◌≤◌, eqb, length, take, IfOk};
ghost use Rattle.table.specs.Layout.{word, count_of, node_count, argument_of};
ghost use Rattle.unification.specs.Computed.Classes.{class_of};
ghost use Rattle.unification.specs.Code.Sections.{Sections};
ghost use Rattle.unification.specs.Code.Heads.{Partition};
ghost use Rattle.nodes.specs.Code.Open.{Counts, OpenListed};
ghost use Rattle.nodes.specs.Code.Order.{Ordered, Searched};
ghost use Rattle.classes.specs.Code.Ordering.{is_done, Visiting, Visited, Starting, Led, Onward};
ghost use Rattle.nodes.specs.Code.Formed.{Formed};

use nodes::{lists, sections};
use table::Node;
use table::limits::MAX_NODES;

// The mark of a node: it is not visited yet, its arguments are being visited, or it stands in the order.
#[derive(Clone, Copy, PartialEq, Eq)]
pub enum Mark {
    New,
    Open,
    Done,
}

// Some head leads to itself.
#[derive(Clone, Copy)]
struct Cycle;

// The head of argument j of a node.
fn argument_head(nodes: &[u32], arguments: &[u32], heads: &[u8], node: Node, j: usize) -> Node
    requires sections { Sections nodes.now arguments.now }
    requires partition { Partition (node_count nodes.now) heads.now }
    requires node_bound { (node.0 < node_count nodes.now) × (j < count_of nodes.now node.0) }
    ensures { (result.0 ≡ class_of heads.now (argument_of nodes.now arguments.now node.0 j)) × (result.0 < node_count nodes.now) }
{
    let a = sections::argument(nodes, arguments, node, j);
    lists::node_in(heads, a.0 as usize)
}

// Whether arguments of node g are looked at and it does not stand in the order.
fn is_due(counts: &[u8], marks: &[Mark], g: Node) -> bool
    requires { (g.0 < length counts.now) × (g.0 < length marks.now) }
    ensures { result ≡ not (is_done marks.now g.0) && not (eqb (word counts.now g.0) 0) }
{
    let i = g.0 as usize;
    (marks[i] != Mark::Done) & (counts[i] != 0)
}

// Puts head h, with arguments that are looked at, into the order, after those of its arguments. Answers how many heads stand there then.
fn visit(
    nodes: &[u32],
    arguments: &[u32],
    counts: &[u8],
    heads: &[u8],
    marks: &mut [Mark],
    order: &mut [u8],
    placed: usize,
    h: Node,
) -> Result<usize, Cycle>
    requires { Visiting nodes.now arguments.now counts.now heads.now marks.old order.old placed h.0 }
    ensures { Visited nodes.now arguments.now (word counts.now) heads.now marks.old h.0 result marks.new order.new }
{
    let i = h.0 as usize;
    match marks[i] {
        Mark::Done => return Ok(placed),
        Mark::Open => return Err(Cycle),
        Mark::New => {}
    }
    marks[i] = Mark::Open;
    let mut count = placed;
    for j in 0..counts[i] as usize {
        let g = argument_head(nodes, arguments, heads, h, j);
        if is_due(counts, marks, g) {
            count = visit(nodes, arguments, counts, heads, marks, order, count, g)?;
        }
    }
    order[count] = h.0 as u8;
    marks[i] = Mark::Done;
    Ok(count + 1)
}

// Arguments lead on to several heads.
#[derive(Clone, Copy)]
struct Several;

// What is found of the arguments after one more, whose head is g.
fn found_with(counts: &[u8], found: Option<Node>, g: Node) -> Result<Option<Node>, Several>
    requires { g.0 < length counts.now }
    ensures { IfOk result (Led (word counts.now) found g) }
{
    if counts[g.0 as usize] == 0 {
        return Ok(found);
    }
    match found {
        None => Ok(Some(g)),
        Some(f) if f == g => Ok(found),
        Some(_) => Err(Several),
    }
}

// The head that the arguments of head h lead on to, if any does. There is an answer where they do not lead on to several.
fn only_open(
    nodes: &[u32],
    arguments: &[u32],
    counts: &[u8],
    heads: &[u8],
    h: Node,
) -> Result<Option<Node>, Several>
    requires sections { Sections nodes.now arguments.now × Counts nodes.now arguments.now counts.now (node_count nodes.now) }
    requires partition { Partition (node_count nodes.now) heads.now }
    requires h_bound { h.0 < node_count nodes.now }
    ensures { IfOk result (Onward nodes.now arguments.now (word counts.now) heads.now h.0 (word counts.now h.0)) }
{
    let mut found = None;
    for j in 0..counts[h.0 as usize] as usize {
        let g = argument_head(nodes, arguments, heads, h, j);
        found = found_with(counts, found, g)?;
    }
    Ok(found)
}

// Whether head h leads to itself, or another head does that it leads to, by depth-first search.
fn search(nodes: &[u32], arguments: &[u32], counts: &[u8], heads: &[u8], h: Node) -> bool
    requires sections { Sections nodes.now arguments.now × Counts nodes.now arguments.now counts.now (node_count nodes.now) }
    requires partition { Partition (node_count nodes.now) heads.now }
    requires h_bound { (h.0 < node_count nodes.now) × (h.0 ≡ class_of heads.now h.0) × (0 < word counts.now h.0) }
    ensures { Searched nodes.now arguments.now (word counts.now) heads.now h.0 result }
{
    let n = sections::node_count(nodes, arguments);
    let mut marks = [Mark::New; MAX_NODES];
    let mut order = [0u8; MAX_NODES];
    visit(
        nodes,
        arguments,
        counts,
        heads,
        &mut marks[0..n],
        &mut order[0..n],
        0,
        h,
    )
    .is_err()
}

// Whether the class of node a leads to itself, or another class does that it leads to. The only argument that leads on is followed from head
// to head, and a search is made only where several do. A circle is found by a head that is noted after 1, 2, 4, .. steps.
pub fn leads_back(nodes: &[u32], arguments: &[u32], counts: &[u8], heads: &[u8], a: Node) -> bool
    requires sections { Sections nodes.now arguments.now × Counts nodes.now arguments.now counts.now (node_count nodes.now) }
    requires partition { Partition (node_count nodes.now) heads.now }
    requires a_bound { a.0 < node_count nodes.now }
    ensures { Searched nodes.now arguments.now (word counts.now) heads.now a.0 result }
{
    let h = lists::node_in(heads, a.0 as usize);
    if counts[h.0 as usize] == 0 {
        return false;
    }
    let mut g = h;
    let mut noted = h;
    for steps in 0..MAX_NODES {
        let Ok(found) = only_open(nodes, arguments, counts, heads, g) else {
            return search(nodes, arguments, counts, heads, h);
        };
        let Some(next) = found else {
            return false;
        };
        if next == noted {
            return true;
        }
        if (steps + 1).is_power_of_two() {
            noted = next;
        }
        g = next;
    }
    search(nodes, arguments, counts, heads, h)
}

// Puts all heads with arguments that are looked at into the order, and answers how many there are. No class leads to itself.
pub fn put_in_order(
    nodes: &[u32],
    arguments: &[u32],
    counts: &[u8],
    heads: &[u8],
    opens: &[u8],
    marks: &mut [Mark],
    order: &mut [u8],
) -> usize
    requires sections { Sections nodes.now arguments.now × Counts nodes.now arguments.now counts.now (node_count nodes.now) }
    requires formed { Formed nodes.now arguments.now counts.now heads.now }
    requires open_listed { OpenListed nodes.now counts.now opens.now }
    requires starting { Starting (node_count nodes.now) marks.old order.old }
    ensures { (result ≤ node_count nodes.now) × Ordered nodes.now arguments.now (word counts.now) heads.now (take result order.new) }
{
    let mut count = 0;
    for g in opens {
        let h = lists::node_in(heads, *g as usize);
        if is_due(counts, marks, h) {
            count = visit(nodes, arguments, counts, heads, marks, order, count, h).unwrap();
        }
    }
    count
}
