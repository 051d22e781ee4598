//! The free blocks of a region, by pools: made from the set of the blocks in use, taken by CPU, and given back.
#![tactic(auto)]

mod allocators;
mod cutting;
mod laws;
mod marks;
mod pool;
mod runs;

pub use allocators::{AllocRefusal, Allocators};
pub use laws::{
    a_take_exists, a_take_is_one, sets_determine_lists, single_takes_are_one, single_takes_leave,
    single_takes_split, take_then_give_restores, taken_blocks_are_data_blocks, taken_can_join,
};
pub use runs::FreeRuns;
