// The nodes of a checked table, read from its two sections.
ghost use Rattle.std.specs.Prelude.{◌≡◌, ◌≤◌, ◌<◌, length, eqb, ◌&&◌};
ghost use Rattle.table.specs.Limits.{max_nodes, max_count};
ghost use Rattle.table.specs.Layout.{kind_of, name_of, count_of, node_count, argument_of};
ghost use Rattle.unification.specs.Code.Sections.{Sections, symbol_test, differ_test};
ghost use Rattle.nodes.specs.Code.Open.{closed_test};

use table::layout::index;
use table::{Node, Variable, layout};

// How many nodes there are.
pub fn node_count(nodes: &[u32], arguments: &[u32]) -> usize
    requires { Sections nodes.now arguments.now }
    ensures { (result ≡ node_count nodes.now) × (result ≤ max_nodes) }
{
    index(layout::node_count(nodes))
}

// Whether a node is a variable.
pub fn is_variable(nodes: &[u32], node: Node) -> bool
    requires { node.0 < node_count nodes.now }
    ensures { result ≡ eqb (kind_of nodes.now node.0) 0 }
{
    layout::kind(nodes, node) == 0
}

// The number of a variable, by a node of it.
pub fn variable(nodes: &[u32], node: Node) -> Variable
    requires { node.0 < node_count nodes.now }
    ensures { result.0 ≡ name_of nodes.now node.0 }
{
    Variable(layout::name(nodes, node))
}

// How many arguments a node has.
pub fn arity(nodes: &[u32], arguments: &[u32], node: Node) -> usize
    requires sections { Sections nodes.now arguments.now }
    requires node_bound { node.0 < node_count nodes.now }
    ensures { (result ≡ count_of nodes.now node.0) × (result ≤ max_count) }
{
    index(layout::count(nodes, node))
}

// Argument j of a node.
pub fn argument(nodes: &[u32], arguments: &[u32], node: Node, j: usize) -> Node
    requires sections { Sections nodes.now arguments.now }
    requires node_bound { (node.0 < node_count nodes.now) × (j < count_of nodes.now node.0) }
    ensures { (result.0 ≡ argument_of nodes.now arguments.now node.0 j) × (result.0 < node.0) }
{
    let first = index(layout::first(nodes, node));
    layout::node_at(arguments, first + j)
}

// Whether two applications have one symbol.
pub fn one_symbol(nodes: &[u32], g: Node, h: Node) -> bool
    requires { (g.0 < node_count nodes.now) × (h.0 < node_count nodes.now) }
    ensures { result ≡ symbol_test nodes.now g.0 h.0 }
{
    (layout::name(nodes, g) == layout::name(nodes, h))
        & (layout::count(nodes, g) == layout::count(nodes, h))
}

// Whether two nodes are applications of different symbols.
pub fn differ(nodes: &[u32], g: Node, h: Node) -> bool
    requires { (g.0 < node_count nodes.now) × (h.0 < node_count nodes.now) }
    ensures { result ≡ differ_test nodes.now g.0 h.0 }
{
    !is_variable(nodes, g) & !is_variable(nodes, h) & !one_symbol(nodes, g, h)
}

// Whether a node is a closed application: no variable is below it.
pub fn is_closed(nodes: &[u32], counts: &[u8], node: Node) -> bool
    requires { (node.0 < node_count nodes.now) × (node_count nodes.now ≤ length counts.now) }
    ensures { result ≡ closed_test nodes.now counts.now node.0 }
{
    let i = node.0 as usize;
    !is_variable(nodes, node) & (counts[i] == 0)
}

// Whether two nodes are closed applications.
pub fn both_closed(nodes: &[u32], counts: &[u8], g: Node, h: Node) -> bool
    requires { (g.0 < node_count nodes.now) × (h.0 < node_count nodes.now) × (node_count nodes.now ≤ length counts.now) }
    ensures { result ≡ closed_test nodes.now counts.now g.0 && closed_test nodes.now counts.now h.0 }
{
    is_closed(nodes, counts, g) & is_closed(nodes, counts, h)
}
