//! A line of a listing.

/// A name of a directory, with the inode that it stands for and the place of its entry.
#[derive(Clone, Copy, PartialEq, Eq, Debug)]
pub struct Named<'a> {
    /// The name's bytes, which lie in the index.
    pub name: &'a [u8],
    /// The inode's number.
    pub inode: u64,
    /// The place of the entry, in bytes from the start of the region.
    pub place: u64,
}
