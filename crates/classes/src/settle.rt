// The classes of a list of pairs, extended by one pair more: two nodes are joined, and a cycle is looked for.
ghost use Rattle.std.specs.Prelude.{◌<◌};
ghost use Rattle.table.specs.Layout.{node_count};
ghost use Rattle.unification.specs.Code.Sections.{Sections};
ghost use Rattle.nodes.specs.Code.Open.{Counts};
ghost use Rattle.nodes.specs.Code.Trail.{Trailed};
ghost use Rattle.nodes.specs.Code.Formed.{Formed};
ghost use Rattle.classes.specs.Code.Stands.{Extends};

use crate::trail::{GONE, undo};
use crate::{closure, order};
use table::Node;
use unification::Unification;

// Extends the classes of a list of pairs by the pair of a and b, which can be undone, and answers what unifying the longer list comes to. Where
// that is not unified they are as before.
pub fn extend(
    nodes: &[u32],
    arguments: &[u32],
    counts: &[u8],
    heads: &mut [u8],
    next: &mut [u8],
    a: Node,
    b: Node,
) -> Unification
    requires sections { Sections nodes.now arguments.now × Counts nodes.now arguments.now counts.now (node_count nodes.now) }
    requires formed { Formed nodes.now arguments.now counts.now heads.old × Trailed (node_count nodes.now) heads.old next.old }
    requires a_bound { (a.0 < node_count nodes.now) × (b.0 < node_count nodes.now) }
    ensures { Extends nodes.now arguments.now counts.now heads.old next.old a.0 b.0 result heads.new next.new }
{
    let mark = next[GONE];
    if !closure::join(nodes, arguments, counts, heads, next, a, b) {
        undo(heads, next, mark);
        return Unification::Clash;
    }
    if order::leads_back(nodes, arguments, counts, heads, a) {
        undo(heads, next, mark);
        return Unification::Occurs;
    }
    Unification::Unified
}
