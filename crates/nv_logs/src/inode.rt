//! An inode that is asked for.

/// An inode of an image: the one that a path leads to, or the one of a number.
#[derive(Drop)]
pub enum Inode {
    Path(Vec<u8>),
    Number(u64),
}
