//! A recovery as JSON: the numbers of the superblock, the inodes in use, the free runs and the faults.
//!
//! `report` has the whole object and its text, `inodes` and `faults` make what stands in it, and `lists` the lists of numbers.
//! docs/JSON.md names the fields.
#![tactic(auto)]

mod faults;
mod inodes;
mod lists;
mod report;

pub use report::report_json;
