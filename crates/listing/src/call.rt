// Listing an accepted table.
ghost use Rattle.std.specs.Prelude.{◌≡◌, [], length, replicate};
ghost use Rattle.table.specs.Layout.{node_count};
ghost use Rattle.table.specs.Code.Accepted.{Accepted};
ghost use Rattle.unification.specs.Node.{nodes_from};
ghost use Rattle.nodes.specs.Code.Trail.{links};
ghost use Rattle.multiset_unification.specs.Problem.{problem_of};
ghost use Rattle.multiset_unification.specs.Answer.{told_listing};
ghost use Rattle.multiset_unification.specs.Computed.Listing.{complete_listing};
ghost use Rattle.multiset_unification.specs.Code.LeavesEntries.{LeavesEntries};
ghost use Rattle.branches.specs.Code.Known.{known_bytes, Listable};
ghost use Rattle.branches.specs.Code.Walk.{below, Begun};

use crate::single::{is_single, list_single};
use branches::known::{KNOWN, OPEN_COUNT, put_sides};
use classes::trail::LINKS;
use entries::writing::Full;
use forcing::settled::{ALL, SETS, look_ahead};
use multiset_unification::Listing;
use symbols::symbols::sides_may;
use table::layout;
use table::layout::index;
use table::limits::MAX_NODES;
use values::beginning::begin_shared;
use walking::walk::{Position, walk};

// Room for an entry: n + m digits and V binding words.
const ENTRY_WORDS: usize = 80;

// Begins a listing, with k left and l right labels: puts what is known, and the classes of no pair. Answers how many words an entry has.
fn begin(
    nodes: &[u32],
    arguments: &[u32],
    left: &[u32],
    right: &[u32],
    k: usize,
    l: usize,
    heads: &mut [u8],
    next: &mut [u8],
    known: &mut [u8],
) -> usize
    requires listable { Listable nodes.now arguments.now left.now right.now k l }
    requires heads_len { (length heads.old ≡ node_count nodes.now) × (next.old ≡ replicate links 0) × (length known.old ≡ known_bytes) }
    ensures { Begun nodes.now arguments.now left.now right.now k l heads.new next.new known.new result }
{
    let begun = begin_shared(nodes, arguments, heads, next, known);
    known[OPEN_COUNT] = begun.opens as u8;
    let v = begun.variables;
    put_sides(left, right, k, l, v, known);
    left.len() + right.len() + v
}

// Lists the sides of an accepted table, with room for the classes and for what is known.
fn list_with_room(
    nodes: &[u32],
    arguments: &[u32],
    left: &[u32],
    right: &[u32],
    k: usize,
    l: usize,
    heads: &mut [u8],
    next: &mut [u8],
    known: &mut [u8],
    out: &mut [u32],
) -> Listing
    requires listable { Listable nodes.now arguments.now left.now right.now k l }
    requires heads_len { (length heads.old ≡ node_count nodes.now) × (next.old ≡ replicate links 0) × (length known.old ≡ known_bytes) }
    ensures { LeavesEntries (below (nodes_from nodes.now arguments.now) right.now k l left.now [] [] (replicate (length right.now) 1)) out.old (told_listing result) out.new }
{
    let width = begin(nodes, arguments, left, right, k, l, heads, next, known);
    if width == 0 {
        return Listing::Finished(1);
    }
    let mut can = [ALL; SETS];
    if !look_ahead(nodes, arguments, heads, next, known, &mut can) {
        return Listing::Finished(0);
    }
    let mut entry = [1u32; ENTRY_WORDS];
    let first = Position {
        term: 0,
        least: 1,
        paired: 0,
    };
    match walk(
        nodes,
        arguments,
        known,
        &can,
        heads,
        next,
        &mut entry[0..width],
        out,
        first,
        0,
    ) {
        Ok(used) => Listing::Finished(used / width),
        Err(Full) => Listing::Full(out.len() / width),
    }
}

// Lists the sides of an accepted table, by its sections and the numbers of labels.
fn list_sides(
    nodes: &[u32],
    arguments: &[u32],
    left: &[u32],
    right: &[u32],
    k: usize,
    l: usize,
    out: &mut [u32],
) -> Listing
    requires { Listable nodes.now arguments.now left.now right.now k l }
    ensures { LeavesEntries (below (nodes_from nodes.now arguments.now) right.now k l left.now [] [] (replicate (length right.now) 1)) out.old (told_listing result) out.new }
{
    let n = index(layout::node_count(nodes));
    let mut heads = [0u8; MAX_NODES];
    let mut next = [0u8; LINKS];
    let mut known = [0u8; KNOWN];
    list_with_room(
        nodes,
        arguments,
        left,
        right,
        k,
        l,
        &mut heads[0..n],
        &mut next,
        &mut known,
        out,
    )
}

// Lists an accepted table. Where its words show that no choice is admissible, nothing is set up.
pub fn list_accepted(table: &[u32], out: &mut [u32]) -> Listing
    requires { Accepted table.now }
    ensures { LeavesEntries (complete_listing (problem_of table.now)) out.old (told_listing result) out.new }
{
    let nodes = layout::section(table, layout::NODES);
    let arguments = layout::section(table, layout::ARGUMENTS);
    let left = layout::section(table, layout::LEFT_TERMS);
    let right = layout::section(table, layout::RIGHT_TERMS);
    let k = layout::section(table, layout::LEFT_LABELS).len();
    let l = layout::section(table, layout::RIGHT_LABELS).len();
    if !sides_may(nodes, arguments, left, right, k, l) {
        return Listing::Finished(0);
    }
    if is_single(left, right, k, l, out.len()) {
        return list_single(
            nodes,
            arguments,
            layout::node_at(left, 0),
            layout::node_at(right, 0),
            out,
        );
    }
    list_sides(nodes, arguments, left, right, k, l, out)
}
