//! A region over plain words, its own or lent ones, all of which take stores at once.
#![tactic(auto)]

mod words;

pub use words::WordRegion;
