// Whether two sides can be equal by their numbers of terms and by symbols: those of the terms that must be paired, and of their arguments.
ghost use Rattle.std.specs.Prelude.{◌≡◌, false, ◌<◌, length, IfSome, IsNone};
ghost use Rattle.table.specs.Layout.{node_count, name_of, count_of};
ghost use Rattle.unification.specs.Node.{nodes_from};
ghost use Rattle.unification.specs.Code.Sections.{Sections};
ghost use Rattle.multiset_unification.specs.Code.InEvery.{NoneAdmissible};
ghost use Rattle.symbols.specs.Code.Symbols.{NeverEqual, NoneEqual, SideOf, Unpaired};

use nodes::sections;
use table::Node;

// Whether the arguments of two nodes of one symbol can be equal, each by its own symbol.
fn arguments_may(nodes: &[u32], arguments: &[u32], a: Node, b: Node) -> bool
    requires sections { Sections nodes.now arguments.now }
    requires a_bound { (a.0 < node_count nodes.now) × (b.0 < node_count nodes.now) }
    requires a_value { (name_of nodes.now a.0 ≡ name_of nodes.now b.0) × (count_of nodes.now a.0 ≡ count_of nodes.now b.0) }
    ensures { result ≡ false → NeverEqual nodes.now arguments.now a.0 b.0 }
{
    let count = sections::arity(nodes, arguments, a);
    for j in 0..count {
        let x = sections::argument(nodes, arguments, a, j);
        let y = sections::argument(nodes, arguments, b, j);
        if sections::differ(nodes, x, y) {
            return false;
        }
    }
    true
}

// Whether two terms can be equal by their symbols and those of their arguments.
fn may(nodes: &[u32], arguments: &[u32], a: Node, b: Node) -> bool
    requires sections { Sections nodes.now arguments.now }
    requires a_bound { (a.0 < node_count nodes.now) × (b.0 < node_count nodes.now) }
    ensures { result ≡ false → NeverEqual nodes.now arguments.now a.0 b.0 }
{
    if sections::one_symbol(nodes, a, b) {
        return arguments_may(nodes, arguments, a, b);
    }
    sections::is_variable(nodes, a) | sections::is_variable(nodes, b)
}

// The place of the first term of a side that can be equal to this one.
fn first_may(nodes: &[u32], arguments: &[u32], a: Node, others: &[u32]) -> Option<usize>
    requires sections { Sections nodes.now arguments.now × SideOf nodes.now others.now }
    requires a_bound { a.0 < node_count nodes.now }
    ensures none { IsNone result → NoneEqual nodes.now arguments.now a.0 others.now (length others.now) }
    ensures some { IfSome result (λ j. j < length others.now × NoneEqual nodes.now arguments.now a.0 others.now j) }
{
    others
        .iter()
        .position(|&other| may(nodes, arguments, a, Node(other)))
}

// Whether each left term can be paired: a set of right terms that can be equal to one of them, or none.
fn lefts_may(nodes: &[u32], arguments: &[u32], left: &[u32], right: &[u32]) -> Option<usize>
    requires { Sections nodes.now arguments.now × SideOf nodes.now left.now × SideOf nodes.now right.now }
    ensures { IsNone result → Unpaired nodes.now arguments.now left.now right.now }
{
    if right.len() < left.len() {
        return None;
    }
    let mut met = 0;
    for &term in left {
        met |= 1 << first_may(nodes, arguments, Node(term), right)?;
    }
    Some(met)
}

// Whether each right term can be paired. Those of a set can.
fn rights_may(nodes: &[u32], arguments: &[u32], left: &[u32], right: &[u32], met: usize) -> bool
    requires { Sections nodes.now arguments.now × SideOf nodes.now left.now × SideOf nodes.now right.now }
    ensures { result ≡ false → Unpaired nodes.now arguments.now right.now left.now }
{
    if left.len() < right.len() {
        return false;
    }
    for (j, &term) in right.iter().enumerate() {
        if (met >> j) % 2 == 0 && first_may(nodes, arguments, Node(term), left).is_none() {
            return false;
        }
    }
    true
}

// Whether two sides with k and l labels can be equal: a term must be paired where the other side has no label to put it in.
pub fn sides_may(
    nodes: &[u32],
    arguments: &[u32],
    left: &[u32],
    right: &[u32],
    k: usize,
    l: usize,
) -> bool
    requires { Sections nodes.now arguments.now × SideOf nodes.now left.now × SideOf nodes.now right.now }
    ensures { result ≡ false → NoneAdmissible (nodes_from nodes.now arguments.now) left.now right.now k l }
{
    let mut met = 0;
    if l == 0 {
        let Some(set) = lefts_may(nodes, arguments, left, right) else {
            return false;
        };
        met = set;
    }
    if k == 0 {
        return rights_may(nodes, arguments, left, right, met);
    }
    true
}
