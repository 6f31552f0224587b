// What is looked at before the walk.
#![tactic(auto)]

// What can still be completed: a bit for each left term and each set of paired right terms.
pub mod plan;

// The pairs of terms that may be.
pub mod pairs;

// Both together: `look_ahead`.
pub mod ahead;
