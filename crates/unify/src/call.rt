// Unifying two nodes of an accepted table: refusals 8 and 9, and what the two nodes come to.
ghost use Rattle.std.specs.Prelude.{◌≤◌, ◌<◌, ◌≡◌, length, replicate};
ghost use Rattle.table.specs.Layout.{node_count};
ghost use Rattle.table.specs.Code.Accepted.{Accepted};
ghost use Rattle.unification.specs.Node.{nodes_in, nodes_from};
ghost use Rattle.unification.specs.Code.Sections.{Sections};
ghost use Rattle.nodes.specs.Code.Trail.{links};
ghost use Rattle.unify.specs.Code.Calling.{AnswersByNodes};

use binding::words::bind;
use classes::settle::extend;
use classes::trail::LINKS;
use table::limits::MAX_NODES;
use table::{Node, Refusal, layout};
use unification::Unification;
use values::beginning::begin_shared;
use values::prepared::{LIST, OPENS};

// How many bytes what is known of the nodes takes: the counts, the open applications, and the least nodes of at most 64 variables.
const COUNTS: usize = 576;

// Unifies two nodes of the sections of an accepted table, with room for what is known of the nodes, and words that are all 0.
fn unify_with_room(
    nodes: &[u32],
    arguments: &[u32],
    a: Node,
    b: Node,
    heads: &mut [u8],
    next: &mut [u8],
    counts: &mut [u8],
    out: &mut [u32],
) -> Result<Unification, Refusal>
    requires sections { Sections nodes.now arguments.now }
    requires a_bound { (a.0 < node_count nodes.now) × (b.0 < node_count nodes.now) }
    requires heads_len { (length heads.old ≡ node_count nodes.now) × (next.old ≡ replicate links 0) × (576 ≤ length counts.old) }
    ensures { AnswersByNodes (nodes_from nodes.now arguments.now) a.0 b.0 out.old result out.new }
{
    let begun = begin_shared(nodes, arguments, heads, next, counts);
    let v = begun.variables;
    if out.len() < v {
        return Err(Refusal::TooFewLent);
    }
    let opens_end = OPENS + begun.opens;
    let list_end = LIST + v;
    let unification = extend(nodes, arguments, counts, heads, next, a, b);
    if unification != Unification::Unified {
        return Ok(unification);
    }
    let known = &counts[..];
    bind(
        nodes,
        arguments,
        known,
        &known[OPENS..opens_end],
        &known[LIST..list_end],
        heads,
        out,
    );
    Ok(Unification::Unified)
}

// Unifies two nodes of the sections of an accepted table.
pub fn unify_nodes(
    nodes: &[u32],
    arguments: &[u32],
    a: Node,
    b: Node,
    out: &mut [u32],
) -> Result<Unification, Refusal>
    requires { Sections nodes.now arguments.now }
    ensures { AnswersByNodes (nodes_from nodes.now arguments.now) a.0 b.0 out.old result out.new }
{
    let n = layout::node_count(nodes);
    if (a.0 >= n) | (b.0 >= n) {
        return Err(Refusal::NotANode);
    }
    let count = layout::index(n);
    let mut heads = [0u8; MAX_NODES];
    let mut next = [0u8; LINKS];
    let mut counts = [0u8; COUNTS];
    unify_with_room(
        nodes,
        arguments,
        a,
        b,
        &mut heads[0..count],
        &mut next,
        &mut counts,
        out,
    )
}

// Unifies two nodes of an accepted table.
pub fn unify_accepted(
    table: &[u32],
    a: Node,
    b: Node,
    out: &mut [u32],
) -> Result<Unification, Refusal>
    requires { Accepted table.now }
    ensures { AnswersByNodes (nodes_in table.now) a.0 b.0 out.old result out.new }
{
    let nodes = layout::section(table, layout::NODES);
    let arguments = layout::section(table, layout::ARGUMENTS);
    unify_nodes(nodes, arguments, a, b, out)
}
