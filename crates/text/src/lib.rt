// Text: lines that are read in pieces, words, numbers, a buffer for what is written, files by name.
#![tactic(auto)]

pub mod answers;
pub mod files;
pub mod lines;
pub mod numbers;
pub mod words;
