// What listing the unifiers of two sides means: definitions and laws, and the answer that they speak of. There is no code to run.
#![tactic(auto)]

// What listing a table comes to, with the number of entries left in the lent words.
#[derive(Clone, Copy, Debug, PartialEq, Eq)]
pub enum Listing {
    Finished(usize),
    Full(usize),
}
