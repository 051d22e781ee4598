//! A region of byte-addressable memory: its words, its fence, and what a stop may leave of it.
//!
//! A store of an aligned 8-byte word is atomic. After a stop each word, by itself, has its value at the last fence
//! or one that was stored to it since.
#![tactic(auto)]

mod image;
mod keeping;
mod memory;
mod pieces;
mod pmem;
mod recent;
mod stored;
mod words;

pub use image::ImageRegion;
pub use memory::{Fuse, Keep, MOST_BLOCKS, MOST_BYTES, MemRegion, RegionRefusal};
pub use pieces::RegionBytes;
pub use pmem::{Pmem, Stopped};
pub use words::{commit_word, store_word};
