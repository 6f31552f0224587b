// Unifying two terms of a table.
#![tactic(auto)]

ghost use Rattle.std.specs.Prelude.{◌≡◌, length};
ghost use Rattle.unification.specs.Answer.{told, unification, lent_after};
ghost use Rattle.unification.specs.Decided.{Decided};

use table::{Node, Refusal};
use unification::Unification;

// Unifying two nodes of an accepted table.
pub mod call;

// Unifies two nodes of a table. Unified leaves the binding words in the first of the lent words, one for each variable present.
pub fn unify(table: &[u32], a: Node, b: Node, out: &mut [u32]) -> Result<Unification, Refusal>
    ensures result_value { told result ≡ unification table.now a.0 b.0 (length out.old) }
    ensures out_after { out.new ≡ lent_after table.now a.0 b.0 out.old }
    ensures decided { Decided table.now a.0 b.0 (told result) out.new }
{
    checking::check(table)?;
    call::unify_accepted(table, a, b, out)
}
