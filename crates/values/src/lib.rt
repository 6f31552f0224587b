// Names for the values of classes.
// Bytes put into others.
#![tactic(auto)]

pub mod bytes;

// A table of applications by key.
pub mod applications;

// The variables present.
mod present;

// What is begun with: the variables present, and the classes in which nodes of one term are together.
pub mod beginning;

// What no pair changes: open and closed applications.
pub mod prepared;

// Names for the values of classes.
pub mod names;
