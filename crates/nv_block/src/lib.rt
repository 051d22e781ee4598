//! What a block of a region is: a part of the areas in front, or its owners by the outcome; and its bytes, in rows.
//!
//! `owners` finds the owners among rows, `text` has the lines that tell of them, and `hex` the rows of bytes.
#![tactic(auto)]

mod hex;
mod owners;
mod text;

pub use hex::{block_bytes, push_hex_rows};
pub use owners::owners_of;
pub use text::push_block;
