//! A directory by its path.

/// A directory, and the path by which it is reached first.
#[derive(Drop)]
pub struct Folder {
    /// What leads to the first directory, and then each name on the way behind a `/`.
    pub path: Vec<u8>,
    pub inode: u64,
}
