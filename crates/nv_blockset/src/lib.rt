//! Sets of blocks as words: block `b` is bit `b % 64` of word `b / 64`. It relies on nothing else of the project.
#![tactic(auto)]

mod bits;
mod listed;
mod rows;
mod words;

pub use bits::{first_clear, first_set, remove, word_run};
pub use listed::BlockList;
pub use rows::{empty_words, insert_row};
pub use words::{contains, insert, words_for};
