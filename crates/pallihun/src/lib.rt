// The library for callers in other languages: the functions that include/pallihun.h declares.
#![tactic(auto)]

ghost use Rattle.std.specs.Prelude.{◌≡◌, cond, eqb, length};
ghost use Rattle.table.specs.Refusal.{conditions, refusal};
ghost use Rattle.unification.specs.Answer.{Answer, unification, lent_after};
ghost use Rattle.unification.specs.Decided.{Decided};
ghost use Rattle.multiset_unification.specs.Problem.{problem_of};
ghost use Rattle.multiset_unification.specs.Answer.{listed, entry_words, lent_after as listing_after};
ghost use Rattle.multiset_unification.specs.Page14.{Page14};
ghost use Rattle.multiset_unification.specs.Computed.Listing.{complete_listing};
ghost use Rattle.pallihun.specs.Numbers.{number_of, numbers_of};

use table::Node;

// The numbers of the answers.
mod numbers;

// What listing a table answers, in numbers: 0 for finished, 10 for full, or the refusal; and the number of entries left in the
// lent words.
#[repr(C)]
#[derive(Clone, Copy)]
pub struct PallihunListing {
    pub answer: u32,
    pub entries: u64,
}

// Checks a table: 0 for accepted, or the number of the first refusal whose condition holds.
#[unsafe(no_mangle)]
pub extern "C" fn pallihun_check(table: &[u32]) -> u32
    ensures { result ≡ refusal table.now }
{
    numbers::of_checked(checking::check(table))
}

// Unifies two nodes of a table: 0 for unified, 1000 for a clash, 1001 for occurs, or the number of the refusal. Unified leaves the
// binding words in the first of the lent words, one for each variable present.
#[unsafe(no_mangle)]
pub extern "C" fn pallihun_unify(table: &[u32], a: u32, b: u32, out: &mut [u32]) -> u32
    ensures value { result ≡ number_of (unification table.now a b (length out.old)) }
    ensures out_after { out.new ≡ lent_after table.now a b out.old }
    ensures decided { (o : Answer) → result ≡ number_of o → Decided table.now a b o out.new }
{
    numbers::of_unification(unify::unify(table, Node(a), Node(b), out))
}

// Lists the unifiers of a table's two sides, each as an entry in the lent words.
#[unsafe(no_mangle)]
pub extern "C" fn pallihun_list(table: &[u32], out: &mut [u32]) -> PallihunListing
    ensures result_value { numbers_of result ≡ listed (conditions table.now) (complete_listing (problem_of table.now)) (length out.old) }
    ensures out_after { out.new ≡ listing_after (conditions table.now) (complete_listing (problem_of table.now)) out.old }
    ensures page14 { result.answer ≡ 0 → Page14 (problem_of table.now) result.entries out.new }
{
    numbers::of_listing(listing::list(table, out))
}

// How many words an entry of a table has: "With V variables present an entry is n + m + V words." Where the table is refused, 0.
#[unsafe(no_mangle)]
pub extern "C" fn pallihun_entry_words(table: &[u32]) -> usize
    ensures { result ≡ cond (eqb (refusal table.now) 0) (entry_words (problem_of table.now)) 0 }
{
    listing::entry_words(table)
}
