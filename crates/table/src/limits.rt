// The numbers that document 01 fixes for a table.

// "Words 0 to 11 are six pairs of offset and length"
pub const HEADER_WORDS: usize = 12;

pub const SECTIONS: usize = 6;

// "A node is four words"
pub const NODE_WORDS: usize = 4;

// "At most 256 nodes, 512 arguments, 8 terms a side, 4 labels a side."
pub const MAX_NODES: usize = 256;

pub const MAX_ARGUMENTS: usize = 512;

pub const MAX_TERMS: usize = 8;

pub const MAX_LABELS: usize = 4;

// "Kind 0 is a variable. Its name is 0 to 63"
pub const MAX_VARIABLE: u32 = 63;

// "Kind 1 is an application. Its name is 0 to 65535 and its count 0 to 8."
pub const MAX_NAME: u32 = 65535;

pub const MAX_COUNT: u32 = 8;

// "A label is 1 to 65535"
pub const MAX_LABEL: u32 = 65535;
