// The binding words of classes, by the names of their values.
ghost use Rattle.std.specs.Prelude.{◌≡◌, true, false, ◌++◌, ◌≤◌, ◌<◌, length, drop};
ghost use Rattle.table.specs.Limits.{max_nodes};
ghost use Rattle.table.specs.Layout.{word, node_count};
ghost use Rattle.unification.specs.Node.{nodes_from};
ghost use Rattle.unification.specs.Code.Sections.{Sections};
ghost use Rattle.nodes.specs.Code.Open.{Counts, OpenListed};
ghost use Rattle.nodes.specs.Code.Order.{Ordered};
ghost use Rattle.values.specs.Code.Present.{least_nodes};
ghost use Rattle.nodes.specs.Code.Named.{value_name, Named, Themselves};
ghost use Rattle.binding.specs.Code.Binding.{HeadNames, NamesLeast, AreApplied, application_noted, OpenNoted, free_noted, FreeFrom, read_at, AreNodes, AllBelow, WordsFound, NoneLeads, AreBare, HeadsFrom, plain_word, plain_at, PlainFound};
ghost use Rattle.values.specs.Code.Applications.{IsEmpty};
ghost use Rattle.nodes.specs.Code.Formed.{Formed};
ghost use Rattle.values.specs.Code.Begins.{Leaves};

use classes::order::{self, Mark};
use nodes::{lists, sections};
use table::Node;
use table::limits::MAX_NODES;
use values::applications::Applications;
use values::bytes::put_bytes;
use values::names;
use values::prepared::list_closed;

// Notes an application at its name, if no smaller node stands there.
fn note_application(
    nodes: &[u32],
    arguments: &[u32],
    heads: &[u8],
    names: &[u8],
    by: &mut [u8],
    i: usize,
)
    requires head_names { HeadNames nodes.now arguments.now heads.now names.now }
    requires i_bound { (i < node_count nodes.now) × (length by.old ≡ node_count nodes.now) }
    ensures { by.new ≡ application_noted heads.now names.now by.old i }
{
    let name = lists::value_name(heads, names, Node(i as u32));
    let least = lists::node_in(by, name.0 as usize);
    if i < least.0 as usize {
        by[name.0 as usize] = i as u8;
    }
}

// The least application of each name, where each node stands at its own number: the open ones are noted.
fn note_applications(
    nodes: &[u32],
    arguments: &[u32],
    opens: &[u8],
    heads: &[u8],
    names: &[u8],
    by: &mut [u8],
)
    requires head_names { HeadNames nodes.now arguments.now heads.now names.now }
    requires are_applied { AreApplied nodes.now opens.now }
    requires by_len { (length by.old ≡ node_count nodes.now) × Themselves by.old }
    ensures { OpenNoted nodes.now heads.now names.now opens.now by.new (length opens.now) }
{
    for i in opens {
        note_application(nodes, arguments, heads, names, by, usize::from(*i));
    }
}

// Notes the node at place k of a list at its name, if its head is a variable.
fn note_free_variable(
    nodes: &[u32],
    arguments: &[u32],
    heads: &[u8],
    names: &[u8],
    by: &mut [u8],
    list: &[u8],
    k: usize,
)
    requires head_names { HeadNames nodes.now arguments.now heads.now names.now }
    requires k_in_bounds { (k < length list.now) × AreNodes nodes.now list.now × (length by.old ≡ node_count nodes.now) }
    ensures { by.new ≡ free_noted nodes.now heads.now names.now list.now by.old k }
{
    let v = lists::node_in(list, k);
    let head = lists::node_in(heads, v.0 as usize);
    if sections::is_variable(nodes, head) {
        let name = lists::value_name(heads, names, v);
        by[name.0 as usize] = v.0 as u8;
    }
}

// The first node of each name in a list, where its head is a variable: the nodes are noted from the last place down.
fn note_free_variables(
    nodes: &[u32],
    arguments: &[u32],
    heads: &[u8],
    names: &[u8],
    by: &mut [u8],
    list: &[u8],
)
    requires head_names { HeadNames nodes.now arguments.now heads.now names.now }
    requires are_nodes { AreNodes nodes.now list.now × (length by.old ≡ node_count nodes.now) }
    ensures { FreeFrom nodes.now heads.now names.now list.now by.old by.new 0 }
{
    for k in (0..list.len()).rev() {
        note_free_variable(nodes, arguments, heads, names, by, list, k);
    }
}

// The word at the name of the node at place k of a list.
fn binding_word(
    nodes: &[u32],
    arguments: &[u32],
    heads: &[u8],
    names: &[u8],
    by: &[u8],
    list: &[u8],
    k: usize,
) -> u32
    requires head_names { HeadNames nodes.now arguments.now heads.now names.now }
    requires k_in_bounds { (k < length list.now) × AreNodes nodes.now list.now × (length by.now ≡ node_count nodes.now) }
    ensures { result ≡ word by.now (value_name heads.now names.now (word list.now k)) }
{
    let v = lists::node_in(list, k);
    let name = lists::value_name(heads, names, v);
    lists::node_in(by, name.0 as usize).0
}

// Writes the words of a list of nodes, by their names.
fn write_words(
    nodes: &[u32],
    arguments: &[u32],
    heads: &[u8],
    names: &[u8],
    by: &[u8],
    list: &[u8],
    out: &mut [u32],
)
    requires head_names { HeadNames nodes.now arguments.now heads.now names.now }
    requires are_nodes { AreNodes nodes.now list.now × (length by.now ≡ node_count nodes.now) × (length list.now ≤ length out.old) }
    ensures { out.new ≡ read_at heads.now names.now by.now list.now ++ drop (length list.now) out.old }
{
    for k in 0..list.len() {
        out[k] = binding_word(nodes, arguments, heads, names, by, list, k);
    }
}

// Finds the words of a list of nodes by names: notes applications, then free variables, and reads what stands at each name.
fn find_words(
    nodes: &[u32],
    arguments: &[u32],
    opens: &[u8],
    heads: &[u8],
    names: &[u8],
    by: &mut [u8],
    list: &[u8],
    out: &mut [u32],
)
    requires head_names { HeadNames nodes.now arguments.now heads.now names.now }
    requires are_applied { AreApplied nodes.now opens.now }
    requires are_nodes { AreNodes nodes.now list.now × (length by.old ≡ node_count nodes.now) × (length list.now ≤ length out.old) }
    ensures { WordsFound nodes.now heads.now names.now opens.now list.now out.old out.new }
{
    names::name_themselves(by);
    note_applications(nodes, arguments, opens, heads, names, by);
    note_free_variables(nodes, arguments, heads, names, by, list);
    write_words(nodes, arguments, heads, names, by, list, out);
}

// Names the values of open applications that are heads, behind the closed ones, with room for an order and a table of both.
fn name_open(
    nodes: &[u32],
    arguments: &[u32],
    counts: &[u8],
    heads: &[u8],
    placed: &[u8],
    order: &mut [u8],
    table: &mut Applications,
    names: &mut [u8],
)
    requires sections { Sections nodes.now arguments.now × Counts nodes.now arguments.now counts.now (node_count nodes.now) }
    requires formed { Formed nodes.now arguments.now counts.now heads.now }
    requires ordered { Ordered nodes.now arguments.now (word counts.now) heads.now placed.now }
    requires names_len { (length names.old ≡ node_count nodes.now) × Themselves names.old }
    requires order_len { (length order.old ≡ max_nodes) × IsEmpty table.old }
    ensures { Named nodes.now arguments.now heads.now names.new × NamesLeast nodes.now arguments.now counts.now heads.now names.new }
{
    let start = list_closed(nodes, arguments, counts, heads, names, order, table);
    let end = start + placed.len();
    put_bytes(placed, order, start);
    names::name_all(nodes, arguments, heads, &order[0..end], start, names, table);
}

// Whether the head of an open application is one.
fn some_leads(counts: &[u8], opens: &[u8], heads: &[u8]) -> bool
    requires { AllBelow (length heads.now) opens.now × AllBelow (length counts.now) heads.now }
    ensures { result ≡ false → NoneLeads counts.now opens.now heads.now (length opens.now) }
{
    opens.iter().any(|o| {
        let h = lists::node_in(heads, usize::from(*o));
        counts[h.0 as usize] != 0
    })
}

// Whether the heads of a list of nodes have no arguments: each is free, or bound to a constant.
fn all_plain(nodes: &[u32], arguments: &[u32], list: &[u8], heads: &[u8]) -> bool
    requires sections { Sections nodes.now arguments.now }
    requires all_below { AllBelow (length heads.now) list.now × AllBelow (node_count nodes.now) heads.now }
    ensures { result ≡ true → AreBare nodes.now heads.now list.now (length list.now) }
{
    list.iter().all(|v| {
        let h = lists::node_in(heads, usize::from(*v));
        sections::arity(nodes, arguments, h) == 0
    })
}

// The first node of a list with each head, by the head: the nodes are noted from the last place down.
fn note_heads(list: &[u8], heads: &[u8], by: &mut [u8])
    requires { AllBelow (length heads.now) list.now × (length by.old ≡ max_nodes) }
    ensures { HeadsFrom heads.now list.now by.new 0 }
{
    for z in list.iter().rev() {
        let h = usize::from(heads[usize::from(*z)]);
        by[h] = *z;
    }
}

// The word of the node at place k of a list by its head: an application, or the node that is noted at a variable.
fn plain_word(nodes: &[u32], list: &[u8], heads: &[u8], by: &[u8], k: usize) -> u32
    requires all_below { AllBelow (length heads.now) list.now × AllBelow (node_count nodes.now) heads.now }
    requires k_in_bounds { (k < length list.now) × (length by.now ≡ max_nodes) }
    ensures { result ≡ plain_word nodes.now heads.now by.now (word list.now k) }
{
    let v = lists::node_in(list, k);
    let h = lists::node_in(heads, v.0 as usize);
    if sections::is_variable(nodes, h) {
        return lists::node_in(by, h.0 as usize).0;
    }
    h.0
}

// Writes the words of a list of nodes, by their heads.
fn write_plain(nodes: &[u32], list: &[u8], heads: &[u8], by: &[u8], out: &mut [u32])
    requires all_below { AllBelow (length heads.now) list.now × AllBelow (node_count nodes.now) heads.now }
    requires by_len { (length by.now ≡ max_nodes) × (length list.now ≤ length out.old) }
    ensures { out.new ≡ plain_at nodes.now heads.now by.now list.now ++ drop (length list.now) out.old }
{
    for p in 0..list.len() {
        out[p] = plain_word(nodes, list, heads, by, p);
    }
}

// Finds the words of a list of nodes by heads alone.
fn bind_plain(nodes: &[u32], list: &[u8], heads: &[u8], out: &mut [u32])
    requires all_below { AllBelow (length heads.now) list.now × AllBelow (node_count nodes.now) heads.now }
    requires list_in_bounds { length list.now ≤ length out.old }
    ensures { PlainFound nodes.now heads.now list.now out.old out.new }
{
    let mut by = [0u8; MAX_NODES];
    note_heads(list, heads, &mut by);
    write_plain(nodes, list, heads, &by, out);
}

// Writes the binding words of classes where open applications are heads: these are named behind the closed ones. Each node is named by itself.
fn bind_named(
    nodes: &[u32],
    arguments: &[u32],
    counts: &[u8],
    opens: &[u8],
    list: &[u8],
    heads: &[u8],
    names: &mut [u8],
    by: &mut [u8],
    out: &mut [u32],
)
    requires sections { Sections nodes.now arguments.now × Counts nodes.now arguments.now counts.now (node_count nodes.now) }
    requires formed { Formed nodes.now arguments.now counts.now heads.now × OpenListed nodes.now counts.now opens.now }
    requires list_value { (list.now ≡ least_nodes (nodes_from nodes.now arguments.now)) × (length list.now ≤ length out.old) }
    requires names_len { (length names.old ≡ node_count nodes.now) × Themselves names.old × (length by.old ≡ node_count nodes.now) }
    ensures { Leaves nodes.now arguments.now heads.now out.old out.new }
{
    let n = sections::node_count(nodes, arguments);
    let mut marks = [Mark::New; MAX_NODES];
    let mut placed = [0u8; MAX_NODES];
    let count = order::put_in_order(
        nodes,
        arguments,
        counts,
        heads,
        opens,
        &mut marks[0..n],
        &mut placed[0..n],
    );
    let mut order = [0u8; MAX_NODES];
    let mut table = Applications::new();
    name_open(
        nodes,
        arguments,
        counts,
        heads,
        &placed[0..count],
        &mut order,
        &mut table,
        names,
    );
    find_words(nodes, arguments, opens, heads, names, by, list, out);
}

// The same where open applications need not be heads, with room for the names of heads and for nodes by name.
fn bind_with_room(
    nodes: &[u32],
    arguments: &[u32],
    counts: &[u8],
    opens: &[u8],
    list: &[u8],
    heads: &[u8],
    names: &mut [u8],
    by: &mut [u8],
    out: &mut [u32],
)
    requires sections { Sections nodes.now arguments.now × Counts nodes.now arguments.now counts.now (node_count nodes.now) }
    requires formed { Formed nodes.now arguments.now counts.now heads.now × OpenListed nodes.now counts.now opens.now }
    requires list_value { (list.now ≡ least_nodes (nodes_from nodes.now arguments.now)) × (length list.now ≤ length out.old) }
    requires names_len { (length names.old ≡ node_count nodes.now) × (length by.old ≡ node_count nodes.now) }
    ensures { Leaves nodes.now arguments.now heads.now out.old out.new }
{
    names::name_themselves(names);
    if some_leads(counts, opens, heads) {
        bind_named(nodes, arguments, counts, opens, list, heads, names, by, out);
        return;
    }
    find_words(nodes, arguments, opens, heads, names, by, list, out);
}

// Writes the binding words of the classes of a list of pairs, given the open applications and the least nodes of the variables present,
// in rising order of variable number.
pub fn bind(
    nodes: &[u32],
    arguments: &[u32],
    counts: &[u8],
    opens: &[u8],
    list: &[u8],
    heads: &[u8],
    out: &mut [u32],
)
    requires sections { Sections nodes.now arguments.now × Counts nodes.now arguments.now counts.now (node_count nodes.now) }
    requires formed { Formed nodes.now arguments.now counts.now heads.now × OpenListed nodes.now counts.now opens.now }
    requires list_value { (list.now ≡ least_nodes (nodes_from nodes.now arguments.now)) × (length list.now ≤ length out.old) }
    ensures { Leaves nodes.now arguments.now heads.now out.old out.new }
{
    if (opens.len() == 0) | all_plain(nodes, arguments, list, heads) {
        bind_plain(nodes, list, heads, out);
        return;
    }
    let n = sections::node_count(nodes, arguments);
    let mut names = [0u8; MAX_NODES];
    let mut by = [0u8; MAX_NODES];
    bind_with_room(
        nodes,
        arguments,
        counts,
        opens,
        list,
        heads,
        &mut names[0..n],
        &mut by[0..n],
        out,
    );
}
