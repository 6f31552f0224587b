// The numbers of the answers. Refusals have document 01's; so has full.
ghost use Rattle.std.specs.Prelude.{◌≡◌};
ghost use Rattle.table.specs.Answer.{told as checked_told};
ghost use Rattle.unification.specs.Answer.{told as unification_told};
ghost use Rattle.multiset_unification.specs.Answer.{told as listing_told};
ghost use Rattle.pallihun.specs.Numbers.{number_of, numbers_of};

use crate::PallihunListing;
use multiset_unification::Listing;
use table::Refusal;
use unification::Unification;

// The work is done: a table is accepted, two nodes are unified, a listing is finished.
const DONE: u32 = 0;

// A listing is full.
const FULL: u32 = 10;

// Two nodes clash. Document 01 has a word for this and the next, and no number.
const CLASH: u32 = 1000;

// Two nodes do not clash, and a class reaches itself: occurs.
const OCCURS: u32 = 1001;

// The number of what checking a table answers.
pub fn of_checked(answer: Result<(), Refusal>) -> u32
    ensures { result ≡ checked_told answer }
{
    answer.map_or_else(Refusal::number, |()| DONE)
}

// The number of what unifying two nodes answers.
pub fn of_unification(answer: Result<Unification, Refusal>) -> u32
    ensures { result ≡ number_of (unification_told answer) }
{
    match answer {
        Ok(Unification::Unified) => DONE,
        Ok(Unification::Clash) => CLASH,
        Ok(Unification::Occurs) => OCCURS,
        Err(refusal) => refusal.number(),
    }
}

// The numbers of what listing a table answers.
pub fn of_listing(answer: Result<Listing, Refusal>) -> PallihunListing
    ensures { numbers_of result ≡ listing_told answer }
{
    match answer {
        Ok(Listing::Finished(k)) => PallihunListing {
            answer: DONE,
            entries: k as u64,
        },
        Ok(Listing::Full(k)) => PallihunListing {
            answer: FULL,
            entries: k as u64,
        },
        Err(refusal) => PallihunListing {
            answer: refusal.number(),
            entries: 0,
        },
    }
}
