// Symbols first: what the words of an accepted table show before anything is set up.
#![tactic(auto)]

// Terms that must be paired, and no term of the other side can be equal to them.
pub mod symbols;
