// Nodes, as the code of unification reads them.
#![tactic(auto)]

// The nodes of a checked table, their arguments and symbols.
pub mod sections;

// Lists of nodes, and names for the values of nodes.
pub mod lists;
