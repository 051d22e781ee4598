//! The rows of the inodes in use, each found by its number in constant time; one is added or taken out with no other moved.
#![tactic(auto)]

mod laws;
mod rows;
mod stat;
mod used;

pub use laws::grown_tables_have_an_unused_number;
pub use rows::Rows;
pub use stat::stat_of;
