// An example for callers in Rattle: a prover's question to `list`, answered from its contract alone.
//
// A prover that holds two multisets to be equal can give up a branch where no assignment makes them equal. It needs no unifier for
// that, so it lends no words. A listing is then finished with 0 entries where there is none. Where there is an entry it is full, as
// the entry needs words, or finished with the entry, if that has no words: no terms, no variables.
#![tactic(auto)]

ghost use Rattle.std.specs.Prelude.{◌≡◌, true, false};
ghost use Rattle.table.specs.Refusal.{refusal};
ghost use Rattle.multiset_unification.specs.Problem.{problem_of};
ghost use Rattle.multiset_unification.specs.Assignment.{Assignment, EqualSides};

use multiset_unification::Listing;

// Whether a table closes a branch. Where it is refused, nothing is known of its sides, and the branch stays open.
pub fn closes(table: &[u32]) -> bool
    ensures none_equal { result ≡ true → (A : Assignment) → EqualSides (problem_of table.now) A → ⊥ }
    ensures some_equal { result ≡ false → refusal table.now ≡ 0 → (A : Assignment) × EqualSides (problem_of table.now) A }
{
    let mut none = [0u32; 1];
    match listing::list(table, &mut none[0..0]) {
        Ok(Listing::Finished(entries)) => entries == 0,
        Ok(Listing::Full(_)) => false,
        Err(_) => false,
    }
}
