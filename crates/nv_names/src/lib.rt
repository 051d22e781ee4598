//! The names of a directory, as a map from a name's bytes to its inode and the place of its entry.
#![tactic(auto)]

mod bucket;
mod buckets;
mod fresh;
mod held;
mod index;
mod iter;
mod key;
mod many;
mod name;
mod named;
mod spreading;
mod table;
mod target;

pub use index::NameIndex;
pub use iter::Iter;
pub use named::Named;
pub use target::Target;
