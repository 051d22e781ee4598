//! What is wrong between inodes, and the blocks that have more than one owner.
//!
//! An inode's own faults are found when it is scanned. What is told here needs all rows, or all claims: names that lead
//! nowhere, directories and files with a wrong number of names, inodes that no path reaches, and doubled blocks.
#![tactic(auto)]

mod counts;
mod cross;
mod listing;
mod owners;
mod places;
mod tables;
mod walk;

pub use cross::cross_faults;
pub use owners::doubled;
