//! Laws about regions, recoveries and calls. Each is a function that does nothing, and its clauses are the law: a caller
//! who needs it in a proof calls it first.

pub use nv_calls::{
    alike_regions, calls_are_decided, calls_keep_regions_alike, stopped_format,
    stopped_recoveries_change_nothing,
};
pub use nv_outcome::{
    each_block_once, each_region_has_an_outcome, one_outcome, outcome_reads_metadata_alone,
    recovered_again, rolled_back_outcome,
};
