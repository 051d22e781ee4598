//! The changes of a tree that a user asks for by one command.

/// A change, by paths in the region. Where it isn't said, what a path names stays as it is.
#[derive(Clone, Copy, Debug)]
pub enum Change<'a> {
    /// Make a directory.
    MakeDirectory {
        path: &'a [u8],
    },
    /// Take a name of a file away, and with the last one the file.
    Remove {
        path: &'a [u8],
    },
    /// Take a directory without names away.
    RemoveDirectory {
        path: &'a [u8],
    },
    /// Give an inode another name in place of one.
    Rename {
        old: &'a [u8],
        new: &'a [u8],
    },
    /// Give a file one more name.
    Link {
        old: &'a [u8],
        new: &'a [u8],
    },
    /// Cut a file to a size in bytes, or lengthen it to one by zeros.
    SetSize {
        path: &'a [u8],
        size: u64,
    },
    /// Set a mode, the permissions as a number. Owner and group stay.
    SetMode {
        path: &'a [u8],
        mode: u32,
    },
    /// Set an owner by its number, and a group where one is given. The mode stays.
    SetOwner {
        path: &'a [u8],
        owner: u32,
        group: Option<u32>,
    },
    /// Write the bytes of a whole file: of one that is there, whose own bytes go, or else of a new one.
    Put {
        path: &'a [u8],
        bytes: &'a [u8],
    },
}
