// The words of an entry.
ghost use Rattle.std.specs.Prelude.{◌≡◌};
ghost use Rattle.table.specs.Code.Accepted.{Accepted};
ghost use Rattle.multiset_unification.specs.Problem.{problem_of};
ghost use Rattle.multiset_unification.specs.Answer.{entry_words};

use table::layout;
use values::beginning::count_variables;

// How many words an entry of an accepted table has.
pub fn accepted_words(table: &[u32]) -> usize
    requires { Accepted table.now }
    ensures { result ≡ entry_words (problem_of table.now) }
{
    let nodes = layout::section(table, layout::NODES);
    let arguments = layout::section(table, layout::ARGUMENTS);
    let left = layout::section(table, layout::LEFT_TERMS);
    let right = layout::section(table, layout::RIGHT_TERMS);
    left.len() + right.len() + count_variables(nodes, arguments)
}
