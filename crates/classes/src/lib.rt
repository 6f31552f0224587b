// Classes of nodes, as slices of heads and circles, extended by one pair more.
#![tactic(auto)]

// Joins that can be undone: `undo`.
pub mod trail;

// The closure of a list of pairs, with one pair more.
mod closure;

// An order of the classes, and cycles.
pub mod order;

// The classes of a list of pairs, extended by one pair more: `extend`.
pub mod settle;
