//! The pages of files, read from the blocks that a reader of an image gives.
//!
//! It knows nothing of inodes, logs or paths: a file is an index from pages to blocks.
#![tactic(auto)]

mod pages;

pub use pages::bytes_of_pages;
