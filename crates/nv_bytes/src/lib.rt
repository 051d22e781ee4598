//! The bytes of files: read from the blocks of their pages, and stored anew into fresh ones.
//!
//! It knows nothing of inodes, logs or paths: a file is an index from pages to blocks, and a size.
#![tactic(auto)]

mod change;
mod contents;
mod filling;
mod reading;
mod storing;

pub use change::NewBytes;
pub use contents::Data;
pub use filling::fill_bytes;
pub use reading::read_bytes;
pub use storing::{store_page, store_pages};
