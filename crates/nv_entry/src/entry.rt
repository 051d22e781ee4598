//! What a log says, entry by entry.

ghost use Rattle.std.specs.Prelude.{◌≡◌, ◌<◌, ◌≤◌, length};
ghost use Rattle.nv_entry.specs.declared.entry.Entry.TheVariants.{Name};

use crate::name::FileName;
use arrayvec::ArrayVec;

/// What a name entry does with its name.
#[derive(Clone, Copy, PartialEq, Eq)]
pub enum Operation {
    Add,
    Remove,
}

/// Pages of a file were written to blocks in a row.
#[derive(Clone, Copy, PartialEq, Eq)]
pub struct WriteEntry {
    /// How many pages.
    pub count: u32,
    /// The first page, counted from the start of the file.
    pub offset: u64,
    /// The block of the first page.
    pub block: u64,
    /// The file's bytes after the write.
    pub size: u64,
    pub time: u64,
}

/// The bytes that a write entry takes.
pub const WRITE_LENGTH: u64 = 40;

/// New attributes of an inode.
#[derive(Clone, Copy, PartialEq, Eq)]
pub struct AttrEntry {
    pub mode: u32,
    /// The file's bytes; 0 in a directory.
    pub size: u64,
    pub time: u64,
    pub owner: u32,
    pub group: u32,
}

/// A name was added to a directory, or removed from it.
#[derive(Drop, PartialEq, Eq)]
pub struct NameEntry {
    pub operation: Operation,
    pub inode: u64,
    pub time: u64,
    pub name: FileName,
}

/// A new link count of a file.
#[derive(Clone, Copy, PartialEq, Eq)]
pub struct LinksEntry {
    pub count: u32,
    pub time: u64,
}

/// An entry of a log.
#[derive(Drop, PartialEq, Eq)]
pub enum Entry {
    /// The log goes on at the next page.
    NextPage,
    Write(WriteEntry),
    Attr(AttrEntry),
    Name(NameEntry),
    Links(LinksEntry),
}

/// The entry that adds a name of 1 to 255 bytes to a directory for an inode at a time, or removes it.
pub fn name_entry(operation: Operation, inode: u64, name: &[u8], time: u64) -> Entry
    requires some { 0 < length name.now }
    requires fits { length name.now ≤ 255 }
    ensures { result ≡ Name (record { operation = operation; inode = inode; time = time; name = name.now }) }
{
    // So many bytes always fit.
    let mut bytes: ArrayVec<u8, 255> = ArrayVec::new();
    let _fits = bytes.try_extend_from_slice(name);
    Entry::Name(NameEntry {
        operation,
        inode,
        time,
        name: FileName::from_bytes(bytes),
    })
}
