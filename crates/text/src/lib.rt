// Numbers and lines as bytes, and words as four bytes each: what a program reads and writes.
#![tactic(auto)]

// Bytes, as a reader gives them: `read_full`.
pub mod reading;

// Bytes, and the words that they stand for: `read_words`.
pub mod input;

// Numbers in decimal, titles and lines, written as bytes: `write_title`, `write_lines`.
pub mod lines;
