// Looking ahead, before the walk: pairs that every choice has, and what is left once they are unified.
#![tactic(auto)]

// The pairs that every choice has.
pub mod forced;

// All of it: `look_ahead`.
pub mod settled;
