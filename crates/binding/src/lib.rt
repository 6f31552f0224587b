// The binding words of classes: for each variable present the least node that has its value.
#![tactic(auto)]

// The words: `bind`.
pub mod words;
