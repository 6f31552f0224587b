// One term against one, without labels: the two are paired in the only choice, so that they are unified, and nothing is walked.
ghost use Rattle.std.specs.Prelude.{◌≡◌, true, [], ◌∷◌, ◌≤◌, ◌<◌, length};
ghost use Rattle.table.specs.Layout.{node_count};
ghost use Rattle.unification.specs.Node.{nodes_from};
ghost use Rattle.unification.specs.Computed.Variables.{variables_of};
ghost use Rattle.unification.specs.Code.Sections.{Sections};
ghost use Rattle.multiset_unification.specs.Answer.{told_listing};
ghost use Rattle.multiset_unification.specs.Code.LeavesEntries.{LeavesEntries};
ghost use Rattle.branches.specs.Code.Walk.{below};

use multiset_unification::Listing;
use table::Node;
use unification::Unification;
use unify::call::unify_nodes;

// Room for an entry of two digits and as many words as there may be variables.
pub const SINGLE_WORDS: usize = 66;

// Whether the sides are two single terms without labels, and there is room for an entry.
pub fn is_single(left: &[u32], right: &[u32], k: usize, l: usize, lent: usize) -> bool
    ensures { result ≡ true → (length left.now ≡ 1) × (length right.now ≡ 1) × (k ≡ 0) × (l ≡ 0) × (66 ≤ lent) }
{
    left.len() == 1 && right.len() == 1 && k == 0 && l == 0 && SINGLE_WORDS <= lent
}

// Lists two single terms, with room for an entry.
pub fn list_single(nodes: &[u32], arguments: &[u32], a: Node, b: Node, out: &mut [u32]) -> Listing
    requires sections { Sections nodes.now arguments.now }
    requires a_bound { (a.0 < node_count nodes.now) × (b.0 < node_count nodes.now) × (66 ≤ length out.old) }
    requires arguments_len_bound { length (variables_of (nodes_from nodes.now arguments.now)) ≤ 64 }
    ensures { LeavesEntries (below (nodes_from nodes.now arguments.now) (b.0 ∷ []) 0 0 (a.0 ∷ []) [] [] (1 ∷ [])) out.old (told_listing result) out.new }
{
    match unify_nodes(nodes, arguments, a, b, &mut out[2..]) {
        Ok(Unification::Unified) => {
            out[0] = 1;
            out[1] = 0;
            Listing::Finished(1)
        }
        _ => Listing::Finished(0),
    }
}
