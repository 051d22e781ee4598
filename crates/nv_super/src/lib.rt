//! The superblock, the areas that its numbers lay out, and the types that several crates name:
//! runs of blocks, the owners of blocks, the kinds of inodes, and the faults of a region with their order.
#![tactic(auto)]

mod classes;
mod faults;
mod kind;
mod laws;
mod order;
mod owners;
mod sorting;
mod superblock;

pub use classes::{FAULT_CLASS_COUNT, FAULT_CLASSES, FaultClass, class_name};
pub use faults::Fault;
pub use kind::Kind;
pub use laws::{pools_cover_the_data_blocks, slots_stand_apart, version_1_names_are_numbers};
pub use nv_region::{MOST_BLOCKS, Pmem, Stopped, store_word};
pub use owners::{Owner, Run};
pub use sorting::{sort_claims, sort_faults};
pub use superblock::{
    BLOCK_SIZE, EXTRA_SLOTS, LEAST_BLOCKS, MAGIC, MOST_CPUS, MOST_FILE_BYTES, MOST_FILE_PAGES,
    MOST_LINKS, MOST_TABLE_BLOCKS, SLOT_SIZE, Super, SuperFault, WITH_CHAINS, read_super,
    write_super,
};
