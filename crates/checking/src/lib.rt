// Checking a problem table.
#![tactic(auto)]

ghost use Rattle.std.specs.Prelude.{◌≡◌};
ghost use Rattle.table.specs.Refusal.{refusal};
ghost use Rattle.table.specs.Answer.{told};

use table::Refusal;
use table::limits::{HEADER_WORDS, SECTIONS};

// The conditions of the refusals, each over the whole table.
mod conditions;

// The tests of the nodes section and the arguments section.
mod nodes;

// The tests of the sections of terms and of labels.
mod sides;

// Checks a table: accepted, or the first refusal whose condition holds.
pub fn check(table: &[u32]) -> Result<(), Refusal>
    ensures { told result ≡ refusal table.now }
{
    if table.len() < HEADER_WORDS {
        return Err(Refusal::TooFewWords);
    }
    if conditions::broken_pair(table, SECTIONS) {
        return Err(Refusal::BrokenPair);
    }
    if conditions::over_limit(table) {
        return Err(Refusal::OverLimit);
    }
    if conditions::wrong_node(table) {
        return Err(Refusal::WrongNode);
    }
    if conditions::wrong_argument(table) {
        return Err(Refusal::WrongArgument);
    }
    if conditions::wrong_term(table) {
        return Err(Refusal::WrongTerm);
    }
    if conditions::wrong_label(table) {
        return Err(Refusal::WrongLabel);
    }
    Ok(())
}
