// Branches of the walk over the choices: what is known before it, and what is read and stored on the way.
#![tactic(auto)]

// What the walk does not change, in bytes.
pub mod known;

// A branch as it stands in an entry, and its next pair.
pub mod branch;
