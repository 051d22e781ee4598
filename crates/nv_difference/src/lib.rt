//! What differs between two trees, as text: which paths lead to an inode in one of them alone, and of the others the kinds, the
//! numbers and the bytes.
//!
//! `contents` has what is compared, `pair` two directories of one path. `below` and `walk` find the pairs, `merging` makes one list
//! of the names of two directories, `lines`, `bytes` and `inodes` tell of two inodes, and `names` and `telling` of all.
#![tactic(auto)]

mod below;
mod bytes;
mod contents;
mod inodes;
mod lines;
mod merging;
mod names;
mod pair;
mod telling;
mod walk;

pub use contents::{Contents, Numbers};
pub use telling::difference_text;
