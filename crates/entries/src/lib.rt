// Entries in the lent words.
#![tactic(auto)]

// Entries written one behind the other, and repeated with other digits: `write_rights`, `repeat`.
pub mod writing;
