// How a table's sections, and the nodes, arguments, terms and labels in them, are read.
// Each function asks for what checking a table has shown.
ghost use Rattle.std.specs.Prelude.{◌≡◌, ◌++◌, ◌+◌, ◌*◌, ◌≤◌, ◌<◌, ◌^◌, length};
ghost use Rattle.table.specs.Limits.{node_words, max_nodes};
ghost use Rattle.table.specs.Layout.{word, offset as offset_of, size as size_of, section as section_of, kind_of, name_of, first_of, count_of, node_count};
ghost use Rattle.table.specs.Code.Reading.{HasPair, HasSection};

use crate::limits::NODE_WORDS;
use crate::{Label, Node};

// The sections, by their place in document 01's order.
pub const NODES: usize = 0;

pub const ARGUMENTS: usize = 1;

pub const LEFT_TERMS: usize = 2;

pub const LEFT_LABELS: usize = 3;

pub const RIGHT_TERMS: usize = 4;

pub const RIGHT_LABELS: usize = 5;

// A word as a number of words or an index.
pub fn index(x: u32) -> usize
    ensures { (result ≡ x) × (result < 2 ^ 32) }
{
    x as usize
}

// Where section k starts.
pub fn offset(table: &[u32], k: usize) -> usize
    requires { HasPair table.now k }
    ensures { (result ≡ offset_of table.now k) × (result < 2 ^ 32) }
{
    index(table[2 * k])
}

// How many words section k has.
pub fn size(table: &[u32], k: usize) -> usize
    requires { HasPair table.now k }
    ensures { (result ≡ size_of table.now k) × (result < 2 ^ 32) }
{
    index(table[2 * k + 1])
}

// The words of section k.
pub fn section(table: &[u32], k: usize) -> &[u32]
    requires { HasSection table.now k }
    ensures { result.now ≡ section_of table.now k }
{
    let at = offset(table, k);
    let end = at + size(table, k);
    &table[at..end]
}

// How many nodes a nodes section holds.
pub fn node_count(nodes: &[u32]) -> u32
    requires { length nodes.now ≤ node_words * max_nodes }
    ensures { result ≡ node_count nodes.now }
{
    (nodes.len() / NODE_WORDS) as u32
}

// The four words of a node.
pub fn kind(nodes: &[u32], node: Node) -> u32
    requires { node.0 < node_count nodes.now }
    ensures { result ≡ kind_of nodes.now node.0 }
{
    let i = node.0 as usize;
    nodes[NODE_WORDS * i]
}

pub fn name(nodes: &[u32], node: Node) -> u32
    requires { node.0 < node_count nodes.now }
    ensures { result ≡ name_of nodes.now node.0 }
{
    let i = node.0 as usize;
    nodes[NODE_WORDS * i + 1]
}

pub fn first(nodes: &[u32], node: Node) -> u32
    requires { node.0 < node_count nodes.now }
    ensures { result ≡ first_of nodes.now node.0 }
{
    let i = node.0 as usize;
    nodes[NODE_WORDS * i + 2]
}

pub fn count(nodes: &[u32], node: Node) -> u32
    requires { node.0 < node_count nodes.now }
    ensures { result ≡ count_of nodes.now node.0 }
{
    let i = node.0 as usize;
    nodes[NODE_WORDS * i + 3]
}

// The node at a place of the arguments section, or of a section of terms.
pub fn node_at(words: &[u32], i: usize) -> Node
    requires { i < length words.now }
    ensures { result.0 ≡ word words.now i }
{
    Node(words[i])
}

// Label i of the table: the left ones, then the right ones.
pub fn label(left: &[u32], right: &[u32], i: usize) -> Label
    requires { i < length left.now + length right.now }
    ensures { result.0 ≡ word (left.now ++ right.now) i }
{
    if i < left.len() {
        return Label(left[i]);
    }
    let j = i - left.len();
    Label(right[j])
}
