//! What a name stands for.

/// The inode that a name stands for, and the place of its entry in the directory's log.
#[derive(Clone, Copy, PartialEq, Eq)]
pub struct Target {
    /// The inode's number.
    pub inode: u64,
    /// The place of the entry that gives the name, in bytes from the start of the region.
    pub place: u64,
}
