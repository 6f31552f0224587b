// Listing the unifiers of a table's two sides.
#![tactic(auto)]

ghost use Rattle.std.specs.Prelude.{◌≡◌, cond, eqb, length};
ghost use Rattle.table.specs.Refusal.{conditions, refusal};
ghost use Rattle.multiset_unification.specs.Problem.{problem_of};
ghost use Rattle.multiset_unification.specs.Answer.{told, listed, lent_after, entry_words};
ghost use Rattle.multiset_unification.specs.Page14.{Page14};
ghost use Rattle.multiset_unification.specs.Computed.Listing.{complete_listing};

use multiset_unification::Listing;
use table::Refusal;

// Listing an accepted table.
mod call;

// One term against one.
mod single;

// The words of an entry: `entry_words`.
mod width;

// Lists the unifiers of a table's two sides, each as an entry in the lent words.
pub fn list(table: &[u32], out: &mut [u32]) -> Result<Listing, Refusal>
    ensures result_value { told result ≡ listed (conditions table.now) (complete_listing (problem_of table.now)) (length out.old) }
    ensures out_after { out.new ≡ lent_after (conditions table.now) (complete_listing (problem_of table.now)) out.old }
    ensures page14 { (told result).answer ≡ 0 → Page14 (problem_of table.now) (told result).entries out.new }
{
    checking::check(table)?;
    Ok(call::list_accepted(table, out))
}

// How many words an entry of a table has: "With V variables present an entry is n + m + V words." Where the table is refused, 0.
pub fn entry_words(table: &[u32]) -> usize
    ensures { result ≡ cond (eqb (refusal table.now) 0) (entry_words (problem_of table.now)) 0 }
{
    match checking::check(table) {
        Ok(()) => width::accepted_words(table),
        Err(_) => 0,
    }
}
