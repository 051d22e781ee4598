//! The file index: a map from the pages of one file to blocks, and the set of
//! the pages that are ready, which can be mapped without memory. And the map of
//! extents that it is made of where the last of many words on each page counts.
//! Both rely on nothing else and hand on the map alone, so that bodies can change.
#![tactic(auto)]

mod extent;
mod extent_map;
mod extents;
mod front;
mod index;
mod leaf;
mod node;
mod places;
mod row;
mod run_map;
mod runs;

pub use extent::Extent;
pub use extent_map::ExtentMap;
pub use index::FileIndex;

/// The number of pages that a file may have: page numbers are below it.
pub const MAX_FILE_PAGES: u64 = 262_144;
