// Lists of nodes: bytes and half words that name nodes.
ghost use Rattle.std.specs.Prelude.{◌≡◌, ◌<◌, length};
ghost use Rattle.table.specs.Limits.{max_nodes};
ghost use Rattle.table.specs.Layout.{word};
ghost use Rattle.nodes.specs.Code.Named.{value_name};

use table::Node;

// The node that a byte names.
pub fn node(x: u8) -> Node
    ensures { (result.0 ≡ x) × (result.0 < max_nodes) }
{
    Node(u32::from(x))
}

// The node at a place of a list of nodes.
pub fn node_in(list: &[u8], i: usize) -> Node
    requires { i < length list.now }
    ensures { (result.0 ≡ word list.now i) × (result.0 < max_nodes) }
{
    node(list[i])
}

// The number at a place of a list of half words.
pub fn entry(list: &[u16], i: usize) -> usize
    requires { i < length list.now }
    ensures { result ≡ word list.now i }
{
    usize::from(list[i])
}

// The name of the value of a node, given the heads of the nodes and the names of heads.
pub fn value_name(heads: &[u8], names: &[u8], node: Node) -> Node
    requires { (node.0 < length heads.now) × (word heads.now node.0 < length names.now) }
    ensures { (result.0 ≡ value_name heads.now names.now node.0) × (result.0 < max_nodes) }
{
    node_in(names, usize::from(heads[node.0 as usize]))
}
