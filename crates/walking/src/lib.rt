// The walk over the choices.
#![tactic(auto)]

// The walk, and the entries that it writes.
pub mod walk;
