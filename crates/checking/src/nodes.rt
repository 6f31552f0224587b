// The tests of the nodes section and the arguments section, for refusals 4 and 5.
ghost use Rattle.std.specs.Prelude.{◌≡◌, ◌+◌, ◌*◌, ◌≤◌, ◌<◌, length};
ghost use Rattle.table.specs.Limits.{node_words, max_nodes};
ghost use Rattle.table.specs.Layout.{node_count, first_of, count_of};
ghost use Rattle.table.specs.Conditions.{right_node, start_of, wrong_node, run_is_wrong, wrong_argument};
ghost use Rattle.table.specs.Code.Reading.{RunsInside};

use table::limits::{MAX_COUNT, MAX_NAME, MAX_VARIABLE};
use table::{Node, Variable, layout};

// Where the arguments of an application start, after nodes whose counts add up to `earlier`: 0 for a constant.
fn start(count: u32, earlier: u32) -> u32
    ensures { result ≡ start_of count earlier }
{
    if count == 0 {
        return 0;
    }
    earlier
}

// Whether a node with these words, after nodes whose counts add up to `earlier`, is right.
fn right_node(kind: u32, name: u32, first: u32, count: u32, earlier: u32) -> bool
    ensures { result ≡ right_node kind name first count earlier }
{
    let start = start(count, earlier);
    match kind {
        0 => {
            let variable = Variable(name);
            (variable.0 <= MAX_VARIABLE) & (first == 0) & (count == 0)
        }
        1 => (name <= MAX_NAME) & (count <= MAX_COUNT) & (first == start),
        _ => false,
    }
}

// A node has a wrong kind, name, first or count, or the counts do not add up to the arguments section.
pub fn wrong_nodes(nodes: &[u32], arguments: &[u32]) -> bool
    requires { length nodes.now ≤ node_words * max_nodes }
    ensures { result ≡ wrong_node nodes.now arguments.now }
{
    let n = layout::node_count(nodes);
    let mut earlier: u32 = 0;
    for i in 0..n {
        let node = Node(i);
        let count = layout::count(nodes, node);
        if !right_node(
            layout::kind(nodes, node),
            layout::name(nodes, node),
            layout::first(nodes, node),
            count,
            earlier,
        ) {
            return true;
        }
        earlier += count;
    }
    earlier as usize != arguments.len()
}

// Some argument of a node is not smaller than it.
fn wrong_run(nodes: &[u32], arguments: &[u32], node: Node) -> bool
    requires node_bound { node.0 < node_count nodes.now }
    requires node_in_bounds { first_of nodes.now node.0 + count_of nodes.now node.0 ≤ length arguments.now }
    ensures { result ≡ run_is_wrong nodes.now arguments.now node.0 }
{
    let first = layout::first(nodes, node) as usize;
    let count = layout::count(nodes, node) as usize;
    for argument in &arguments[first..first + count] {
        if *argument >= node.0 {
            return true;
        }
    }
    false
}

// An argument is not smaller than its node.
pub fn wrong_arguments(nodes: &[u32], arguments: &[u32]) -> bool
    requires nodes_len_bound { length nodes.now ≤ node_words * max_nodes }
    requires runs_inside { RunsInside nodes.now arguments.now }
    ensures { result ≡ wrong_argument nodes.now arguments.now }
{
    let n = layout::node_count(nodes);
    for i in 0..n {
        if wrong_run(nodes, arguments, Node(i)) {
            return true;
        }
    }
    false
}
