//! The outcome of a region: the definition that every recovery is measured by, and the laws that put it together.
//!
//! There is no code here but the names of laws and the type of a recovery's answer. What a region's bytes say of rows,
//! free blocks, doubled blocks and faults is defined as relations, without any worker, map, ticket or merge; the laws lead
//! from the parts that a recovery makes, on one thread or on many, to the whole.
#![tactic(auto)]

mod laws;
mod recovered;

pub use laws::{
    cross_faults_are, each_block_once, each_region_has_an_outcome, one_outcome,
    outcome_reads_metadata_alone, parts_make_the_outcome, recovered_again, rolled_back_outcome,
};
pub use nv_cross_check::{cross_faults, doubled};
pub use nv_rows::Rows;
pub use recovered::Recovered;
