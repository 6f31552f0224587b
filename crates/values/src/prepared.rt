// What no pair changes: how many arguments of each node are looked at, the open applications, and a table of the closed ones.
ghost use Rattle.std.specs.Prelude.{◌≡◌, ◌≤◌, ◌<◌, length};
ghost use Rattle.table.specs.Limits.{max_nodes};
ghost use Rattle.table.specs.Layout.{node_count};
ghost use Rattle.unification.specs.Code.Sections.{Sections};
ghost use Rattle.nodes.specs.Code.Open.{Counts, closed_head_test};
ghost use Rattle.nodes.specs.Code.Named.{Readable, Themselves};
ghost use Rattle.values.specs.Code.Applications.{IsEmpty};
ghost use Rattle.values.specs.Code.Prepared.{CountNoted, ClosedNoted, ListsClosed};
ghost use Rattle.nodes.specs.Code.Formed.{Formed};

use crate::applications::Applications;
use crate::names;
use nodes::sections;
use table::Node;

// Where the open applications begin, behind the counts.
pub const OPENS: usize = 256;

// Where the least nodes of the variables begin, behind the open applications.
pub const LIST: usize = 512;

// Notes how many arguments of a node are looked at, and the node behind the other open applications if there are any.
pub fn note_count(counts: &mut [u8], i: usize, count: u8, opens: usize) -> usize
    requires { (i < max_nodes) × (opens < max_nodes) × (512 ≤ length counts.old) }
    ensures { CountNoted counts.old i count opens result counts.new }
{
    counts[i] = count;
    if count == 0 {
        return opens;
    }
    counts[OPENS + opens] = i as u8;
    opens + 1
}

// Whether a node is a closed application with arguments and the head of its class.
fn is_closed_head(nodes: &[u32], arguments: &[u32], counts: &[u8], heads: &[u8], i: usize) -> bool
    requires sections { Sections nodes.now arguments.now }
    requires i_bound { (i < node_count nodes.now) × (node_count nodes.now ≤ length counts.now) × (node_count nodes.now ≤ length heads.now) }
    ensures { result ≡ closed_head_test nodes.now counts.now heads.now i }
{
    let node = Node(i as u32);
    let head = heads[i] as usize;
    sections::is_closed(nodes, counts, node)
        & (sections::arity(nodes, arguments, node) != 0)
        & (head == i)
}

// Puts a closed application at a place of an order, and into the table.
fn note_closed(
    nodes: &[u32],
    arguments: &[u32],
    heads: &[u8],
    names: &[u8],
    order: &mut [u8],
    table: &mut Applications,
    place: usize,
    i: usize,
)
    requires readable { Readable nodes.now arguments.now heads.now names.now }
    requires i_bound { (i < node_count nodes.now) × (place < max_nodes) }
    requires order_len { length order.old ≡ max_nodes }
    ensures { ClosedNoted nodes.now arguments.now heads.now names.now order.old table.old place i order.new table.new }
{
    let k = names::key(nodes, arguments, heads, names, Node(i as u32));
    order[place] = i as u8;
    table.put(place, k);
}

// Puts the closed applications that are heads and have arguments in front of an order, with a table of them. Each node is named by itself.
pub fn list_closed(
    nodes: &[u32],
    arguments: &[u32],
    counts: &[u8],
    heads: &[u8],
    names: &[u8],
    order: &mut [u8],
    table: &mut Applications,
) -> usize
    requires sections { Sections nodes.now arguments.now × Counts nodes.now arguments.now counts.now (node_count nodes.now) }
    requires formed { Formed nodes.now arguments.now counts.now heads.now }
    requires names_len { (length names.now ≡ node_count nodes.now) × Themselves names.now }
    requires order_len { (length order.old ≡ max_nodes) × IsEmpty table.old }
    ensures { ListsClosed nodes.now arguments.now counts.now heads.now result order.new table.new }
{
    let n = sections::node_count(nodes, arguments);
    let mut count: usize = 0;
    for i in 0..n {
        if is_closed_head(nodes, arguments, counts, heads, i) {
            note_closed(nodes, arguments, heads, names, order, table, count, i);
            count += 1;
        }
    }
    count
}
