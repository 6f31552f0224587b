// Names for the values of classes. A class is named by a node with its value.
ghost use Rattle.std.specs.Prelude.{◌≡◌, ℕ, ◌+◌, ◌≤◌, ◌<◌, length, set};
ghost use Rattle.table.specs.Limits.{max_nodes};
ghost use Rattle.table.specs.Layout.{word, count_of, node_count, argument_of};
ghost use Rattle.unification.specs.Code.Sections.{Sections};
ghost use Rattle.nodes.specs.Code.Named.{value_name, Readable, Themselves};
ghost use Rattle.values.specs.Code.Applications.{keys};
ghost use Rattle.values.specs.Code.Naming.{symbol_key, longer_key, key_of, ComparedBy, Compared, Naming, NamedAlong};

use crate::applications::Applications;
pub use crate::applications::KEYS;
use nodes::{lists, sections};
use table::layout::index;
use table::{Node, layout};

// 2^16 over the golden ratio: the upper eight of the 16 bits of a name's product with it spread names that lie at equal distances.
pub const NAME_FACTOR: usize = 40503;

// 2^8 over the golden ratio, about: the place of an argument counts in the key. One more than it is not a multiple of 4, so that terms
// with the same argument twice have many keys.
pub const ARGUMENT_FACTOR: usize = 157;

// The name of the value of argument j of a node.
fn argument_name(
    nodes: &[u32],
    arguments: &[u32],
    heads: &[u8],
    names: &[u8],
    h: Node,
    j: usize,
) -> Node
    requires readable { Readable nodes.now arguments.now heads.now names.now }
    requires h_bound { (h.0 < node_count nodes.now) × (j < count_of nodes.now h.0) }
    ensures { (result.0 ≡ value_name heads.now names.now (argument_of nodes.now arguments.now h.0 j)) × (result.0 < max_nodes) }
{
    lists::value_name(heads, names, sections::argument(nodes, arguments, h, j))
}

// The key of a node's symbol, to which its arguments are added.
pub fn symbol_key(nodes: &[u32], arguments: &[u32], h: Node) -> usize
    requires sections { Sections nodes.now arguments.now }
    requires h_bound { h.0 < node_count nodes.now }
    ensures { (result ≡ symbol_key nodes.now h.0) × (result < keys) }
{
    let n = sections::arity(nodes, arguments, h);
    (index(layout::name(nodes, h)) * NAME_FACTOR % 65536 / 256 + n) % KEYS
}

// A key with one argument more, by the name of its value.
pub fn longer_key(key: usize, name: Node) -> usize
    requires { (key < keys) × (name.0 < max_nodes) }
    ensures { (result ≡ longer_key key name.0) × (result < keys) }
{
    (key * ARGUMENT_FACTOR + index(name.0) + 1) % KEYS
}

// The key of a node in the table of applications.
pub fn key(nodes: &[u32], arguments: &[u32], heads: &[u8], names: &[u8], h: Node) -> usize
    requires readable { Readable nodes.now arguments.now heads.now names.now }
    requires h_bound { h.0 < node_count nodes.now }
    ensures { (result ≡ key_of nodes.now arguments.now heads.now names.now h.0) × (result < keys) }
{
    let n = sections::arity(nodes, arguments, h);
    let mut x = symbol_key(nodes, arguments, h);
    for j in 0..n {
        x = longer_key(x, argument_name(nodes, arguments, heads, names, h, j));
    }
    x
}

// Whether two applications have one symbol and arguments of the same values, each of which has a name.
pub fn compare<F: Fn(Node) -> Node>(
    nodes: &[u32],
    arguments: &[u32],
    g: Node,
    h: Node,
    name: F,
) -> bool
    requires sections { Sections nodes.now arguments.now }
    requires g_bound { (g.0 < node_count nodes.now) × (h.0 < node_count nodes.now) }
    requires callable { (a : _) → a.0 < node_count nodes.now → F.pre name a }
    ensures { (value : ℕ → ℕ) → ((a : _) (r : _) → F.post name a r → r.0 ≡ value a.0) → ComparedBy nodes.now arguments.now value g.0 h.0 result }
{
    if !sections::one_symbol(nodes, g, h) {
        return false;
    }
    let n = sections::arity(nodes, arguments, g);
    for j in 0..n {
        let x = name(sections::argument(nodes, arguments, g, j));
        let y = name(sections::argument(nodes, arguments, h, j));
        if x != y {
            return false;
        }
    }
    true
}

// Whether two applications have one symbol and arguments with the same names.
fn alike(nodes: &[u32], arguments: &[u32], heads: &[u8], names: &[u8], g: Node, h: Node) -> bool
    requires readable { Readable nodes.now arguments.now heads.now names.now }
    requires g_bound { (g.0 < node_count nodes.now) × (h.0 < node_count nodes.now) }
    ensures { Compared nodes.now arguments.now heads.now names.now g.0 h.0 result }
{
    compare(
        nodes,
        arguments,
        g,
        h,
        |a| lists::value_name(heads, names, a),
    )
}

// Names each node by itself.
pub fn name_themselves(names: &mut [u8])
    requires { length names.old ≤ max_nodes }
    ensures { Themselves names.new }
{
    for (i, name) in names.iter_mut().enumerate() {
        *name = i as u8;
    }
}

// Puts a name for node h.
fn put(names: &mut [u8], h: Node, name: Node)
    requires { (h.0 < length names.old) × (name.0 < max_nodes) }
    ensures { names.new ≡ set names.old h.0 name.0 }
{
    let i = h.0 as usize;
    names[i] = name.0 as u8;
}

// Names the node at place p.
fn name_node(
    nodes: &[u32],
    arguments: &[u32],
    heads: &[u8],
    order: &[u8],
    names: &mut [u8],
    table: &mut Applications,
    p: usize,
)
    requires naming { Naming nodes.now arguments.now heads.now order.now names.old table.old p }
    requires p_in_bounds { p < length order.now }
    ensures { Naming nodes.now arguments.now heads.now order.now names.new table.new (p + 1) }
{
    let h = lists::node_in(order, p);
    if sections::is_variable(nodes, h) {
        put(names, h, h);
        return;
    }
    let k = key(nodes, arguments, heads, names, h);
    let found = table.find(
        k,
        |q| alike(nodes, arguments, heads, names, lists::node_in(order, q), h),
    );
    if let Some(q) = found {
        put(names, h, lists::node_in(order, q));
        return;
    }
    put(names, h, h);
    table.put(p, k);
}

// Names the nodes of an order from place `start` on; those before it are named, and stand in the table.
pub fn name_all(
    nodes: &[u32],
    arguments: &[u32],
    heads: &[u8],
    order: &[u8],
    start: usize,
    names: &mut [u8],
    table: &mut Applications,
)
    requires naming { Naming nodes.now arguments.now heads.now order.now names.old table.old start }
    requires start_in_bounds { start ≤ length order.now }
    ensures { NamedAlong nodes.now arguments.now heads.now order.now names.new }
{
    for p in start..order.len() {
        name_node(nodes, arguments, heads, order, names, table, p);
    }
}
