//! The metadata of an image alone: superblock, journals, tables and log pages are read, and nothing else.
//!
//! The outcome of a region is read from these words alone. So the region of the image in which every other word is 0 has the
//! same outcome as the whole image. In version 2 slots may stand in each block, and the whole image is read.
#![tactic(auto)]

mod blocks;
mod errors;
mod front;
mod gathering;
mod halved;
mod laws;
mod logs;
mod memory;
mod parts;
mod places;
mod walking;

pub use blocks::{Blocks, HeldBytes};
pub use errors::GatherError;
pub use gathering::{Gathered, gather, gather_on};
pub use laws::{a_gathered_region_has_the_metadata, a_gathered_region_has_the_same_outcome};
pub use memory::MetadataRegion;
