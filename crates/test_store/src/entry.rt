//! The spellings byte by byte, the ways to depart from them, and the bounds of what an entry can say.

ghost use Rattle.std.specs.Prelude.{◌≤◌};
ghost use Rattle.nv_entry.specs.Spelling.{entry_length};

use crate::checks::{check, check_at};
use crate::small::{SMALL, region_of};
use nv_entry::{
    AttrEntry, ContentFault, Entry, FileName, LinksEntry, NameEntry, Operation, WriteEntry,
    check_content, length, read_entry, write_entry,
};
use nv_super::Kind;
use std::alloc::{AllocError, Global};
use std::process::Abort;

fn name(operation: Operation, bytes: &[u8], inode: u64) -> Option<Entry> {
    let name = FileName::new(bytes)?;
    Some(Entry::Name(NameEntry {
        operation,
        inode,
        time: 0,
        name,
    }))
}

/// The entry is as long as its spelling, is written as it, and is read from it.
fn is_spelled(rt: &impl Abort, alloc: Global, entry: &Entry, spelling: &[u8]) {
    check(rt, length(entry) == spelling.len() as u64, "the length");
    stands_alone(rt, &written(rt, alloc, entry), spelling);
    let is_read = is_read_as(rt, alloc, spelling, Some(entry));
    check(rt, is_read, "the entry that is read");
}

fn name_is_spelled(
    rt: &impl Abort,
    alloc: Global,
    operation: Operation,
    bytes: &[u8],
    inode: u64,
    spelling: &[u8],
) {
    match name(operation, bytes, inode) {
        Some(entry) => is_spelled(rt, alloc, &entry, spelling),
        None => rt.panic("no name"),
    }
}

/// The bytes of a region of 512 that were all 255, once the entry is written at 64.
fn written(rt: &impl Abort, alloc: Global, entry: &Entry) -> Vec<u8>
    requires { entry_length entry.now ≤ 280 }
{
    let mut memory = region_of(rt, alloc, &[255; 512]);
    check(rt, write_entry(&mut memory, 64, entry).is_ok(), "a write");
    match memory.to_bytes() {
        Ok(bytes) => bytes,
        Err(_) => rt.panic("memory for the bytes"),
    }
}

/// The bytes from 64 on are the spelling, and all others of the 512 are still 255.
fn stands_alone(rt: &impl Abort, bytes: &[u8], spelling: &[u8]) {
    check(rt, bytes.len() == 512, "the number of bytes");
    for (i, byte) in bytes.iter().enumerate() {
        let want = if i < 64 {
            255
        } else {
            spelling.get(i - 64).copied().unwrap_or(255)
        };
        check_at(rt, *byte == want, "a byte", i as u64);
    }
}

/// Whether these bytes, which are a region, are read as this entry, or are refused.
fn is_read_as(rt: &impl Abort, alloc: Global, bytes: &[u8], entry: Option<&Entry>) -> bool {
    let alone = region_of(rt, alloc, bytes);
    let read = read_entry(&alone, 0, bytes.len() as u64);
    read.ok().as_ref() == entry
}

/// These bytes with zeros behind.
fn padded(alloc: Global, front: &[u8], length: usize) -> Result<Vec<u8>, AllocError> {
    let mut bytes = front.to_vec(alloc)?;
    bytes.resize(length, 0)?;
    Ok(bytes)
}

/// These bytes with zeros behind, which depart from every spelling, are refused.
fn departs(rt: &impl Abort, alloc: Global, front: &[u8], length: usize, how: &str) {
    let bytes = padded(alloc, front, length).expect(rt, "memory");
    check(rt, is_read_as(rt, alloc, &bytes, None), how);
}

const WRITE: Entry = Entry::Write(WriteEntry {
    count: 2,
    offset: 3,
    block: 4,
    size: 20480,
    time: 5,
});

/// Entries with no name, and their bytes.
const SPELLINGS: [(Entry, &[u8]); 4] = [
    (Entry::NextPage, b"\x00\x00\x08\x00\x00\x00\x00\x00"),
    (
        WRITE,
        b"\x01\x00\x28\x00\x02\x00\x00\x00\x03\0\0\0\0\0\0\0\x04\0\0\0\0\0\0\0\0\x50\0\0\0\0\0\0\x05\0\0\0\0\0\0\0",
    ),
    (
        Entry::Attr(AttrEntry {
            mode: 0o644,
            size: 258,
            time: 9,
            owner: 1000,
            group: 100,
        }),
        b"\x02\x00\x20\x00\xa4\x01\x00\x00\x02\x01\0\0\0\0\0\0\x09\0\0\0\0\0\0\0\xe8\x03\0\0\x64\0\0\0",
    ),
    (
        Entry::Links(LinksEntry { count: 3, time: 7 }),
        b"\x04\x00\x18\x00\x03\x00\x00\x00\x07\0\0\0\0\0\0\0\0\0\0\0\0\0\0\0",
    ),
];

#[test]
fn entries_have_their_worked_spellings(rt: HostRuntime) {
    for (entry, spelling) in SPELLINGS.iter() {
        is_spelled(&rt, rt.alloc(), entry, spelling);
    }
}

/// Operations on names, with their inodes and the entries' bytes.
const NAME_SPELLINGS: [(Operation, &[u8], u64, &[u8]); 4] = [
    (
        Operation::Add,
        b"a",
        2,
        b"\x03\x01\x20\x00\x01\x00\x00\x00\x02\0\0\0\0\0\0\0\0\0\0\0\0\0\0\0a\0\0\0\0\0\0\0",
    ),
    (
        Operation::Remove,
        b"a",
        2,
        b"\x03\x02\x20\x00\x01\x00\x00\x00\x02\0\0\0\0\0\0\0\0\0\0\0\0\0\0\0a\0\0\0\0\0\0\0",
    ),
    (
        Operation::Add,
        b"eight by",
        1,
        b"\x03\x01\x20\x00\x08\x00\x00\x00\x01\0\0\0\0\0\0\0\0\0\0\0\0\0\0\0eight by",
    ),
    (
        Operation::Add,
        b"nine byte",
        1,
        b"\x03\x01\x28\x00\x09\x00\x00\x00\x01\0\0\0\0\0\0\0\0\0\0\0\0\0\0\0nine byte\0\0\0\0\0\0\0",
    ),
];

#[test]
fn names_fill_whole_words(rt: HostRuntime) {
    for &(operation, bytes, inode, spelling) in NAME_SPELLINGS.iter() {
        name_is_spelled(&rt, rt.alloc(), operation, bytes, inode, spelling);
    }
}

#[test]
fn the_largest_name_has_255_bytes(rt: HostRuntime) {
    let mut largest = [b'n'; 280];
    let front = b"\x03\x01\x18\x01\xff\x00\x00\x00\x01\0\0\0\0\0\0\0\0\0\0\0\0\0\0\0";
    largest[..24].copy_from_slice(front);
    largest[279] = 0;
    name_is_spelled(&rt, rt.alloc(), Operation::Add, &[b'n'; 255], 1, &largest);
}

/// Bytes that depart from every spelling: the first of them, how many there are with the zeros behind, and how.
const DEPARTURES: [(&[u8], usize, &str); 22] = [
    (b"", 0, "no room for a word"),
    (b"\x05\0\x08", 8, "a type past the last"),
    (b"\0\x01\x08", 8, "a next-page entry's operation"),
    (b"\0\0\x10", 16, "a next-page entry's length"),
    (b"\0\0\x08\0\x01", 8, "a next-page entry's number"),
    (b"", 8, "a word of zeros"),
    (b"\x01\x01\x28\0\x01", 40, "a write entry's operation"),
    (b"\x01\0\x20\0\x01", 40, "a write entry's length"),
    (b"\x01\0\x28\0\x01", 32, "a write entry past the room"),
    (b"\x02\x02\x20", 32, "an attributes entry's operation"),
    (b"\x02\0\x18", 32, "an attributes entry's length"),
    (b"\x04\x01\x18\0\x01", 24, "a links entry's operation"),
    (b"\x04\0\x10\0\x01", 24, "a links entry's length"),
    (
        b"\x04\0\x18\0\x01\0\0\0\0\0\0\0\0\0\0\0\x01",
        24,
        "a links entry's zero word",
    ),
    // names
    (
        b"\x03\0\x20\0\x01\0\0\0\0\0\0\0\0\0\0\0\0\0\0\0\0\0\0\0a",
        288,
        "operation 0",
    ),
    (
        b"\x03\x03\x20\0\x01\0\0\0\0\0\0\0\0\0\0\0\0\0\0\0\0\0\0\0a",
        288,
        "operation 3",
    ),
    (
        b"\x03\x01\x28\0\x01\0\0\0\0\0\0\0\0\0\0\0\0\0\0\0\0\0\0\0a",
        288,
        "a word more than the name fills",
    ),
    (
        b"\x03\x01\x20\0\x09\0\0\0\0\0\0\0\0\0\0\0\0\0\0\0\0\0\0\0a",
        288,
        "a word less than the name fills",
    ),
    (
        b"\x03\x01\x18\0\0\0\0\0\0\0\0\0\0\0\0\0\0\0\0\0\0\0\0\0a",
        288,
        "no byte",
    ),
    (
        b"\x03\x01\x18\x01\0\x01\0\0\0\0\0\0\0\0\0\0\0\0\0\0\0\0\0\0a",
        288,
        "256 bytes",
    ),
    (b"\x03\x01\x20\0\x01", 24, "a name past the room"),
    (
        b"\x03\x01\x20\0\x01\0\0\0\0\0\0\0\0\0\0\0\0\0\0\0\0\0\0\0a\0\0\0\0\0\0\x01",
        32,
        "a bit behind the name",
    ),
];

#[test]
fn departures_are_wrong_framing(rt: HostRuntime) {
    for &(front, length, how) in DEPARTURES.iter() {
        departs(&rt, rt.alloc(), front, length, how);
    }
}

const RANGE: Option<ContentFault> = Some(ContentFault::OutOfRange);

const KIND: Option<ContentFault> = Some(ContentFault::WrongKind);

const GIB: u64 = 1 << 30;

/// Counts, offsets, blocks and sizes of writes, what is told of them in a file, and what they are.
const WRITES: [(u32, u64, u64, u64, Option<ContentFault>, &str); 17] = [
    (1, 0, 3, 4096, None, "one page of the first data block"),
    (0, 0, 3, 4096, RANGE, "no page"),
    (13, 0, 3, 65536, None, "all data blocks"),
    (14, 0, 3, 65536, RANGE, "a block behind the last"),
    (1, 0, 2, 4096, RANGE, "a block before the first"),
    (1, 0, 15, 1, None, "the last block"),
    (1, 0, 16, 1, RANGE, "the block behind the last"),
    (1, 0, u64::MAX, 4096, RANGE, "blocks whose sum would wrap"),
    (u32::MAX, 0, 3, 4096, RANGE, "the most pages of a word"),
    (1, 262143, 3, GIB, None, "the last page of a file"),
    (2, 262143, 3, GIB, RANGE, "a page behind it"),
    (1, u64::MAX, 3, 4096, RANGE, "pages whose sum would wrap"),
    (1, 0, 3, GIB, None, "the greatest size"),
    (1, 0, 3, GIB + 1, RANGE, "a greater size"),
    (2, 0, 3, 4097, None, "a last page of one byte"),
    (2, 0, 3, 4096, RANGE, "a last page that begins at the size"),
    (1, 0, 3, 0, RANGE, "a page of an empty file"),
];

#[test]
fn writes_stay_in_range(rt: HostRuntime) {
    for &(count, offset, block, size, fault, what) in WRITES.iter() {
        let entry = Entry::Write(WriteEntry {
            count,
            offset,
            block,
            size,
            time: 5,
        });
        let told = check_content(&SMALL, Kind::File, &entry);
        check(&rt, told == fault, what);
    }
}

/// Kinds of inodes, modes and sizes that are set there, and what is told of them.
const ATTRIBUTES: [(Kind, u32, u64, Option<ContentFault>); 10] = [
    (Kind::File, 4095, GIB, None),
    (Kind::Directory, 4095, GIB, RANGE),
    (Kind::File, 4096, 0, RANGE),
    (Kind::Directory, 4096, 0, RANGE),
    (Kind::File, 0, GIB + 1, RANGE),
    (Kind::Directory, 0, GIB + 1, RANGE),
    (Kind::File, 0o755, 0, None),
    (Kind::Directory, 0o755, 0, None),
    (Kind::File, 0, 1, None),
    (Kind::Directory, 0, 1, RANGE),
];

#[test]
fn attributes_stay_in_range(rt: HostRuntime) {
    for &(kind, mode, size, fault) in ATTRIBUTES.iter() {
        let entry = Entry::Attr(AttrEntry {
            mode,
            size,
            time: 9,
            owner: 1000,
            group: 100,
        });
        let told = check_content(&SMALL, kind, &entry);
        check_at(&rt, told == fault, "a size", size);
    }
}

const NO_LINK: Entry = Entry::Links(LinksEntry { count: 0, time: 7 });

/// Kinds of inodes, entries of their logs, and what is told of them. The wrong kind is found first.
const OTHERS: [(Kind, Entry, Option<ContentFault>); 8] = [
    (Kind::File, NO_LINK, RANGE),
    (
        Kind::File,
        Entry::Links(LinksEntry { count: 1, time: 7 }),
        None,
    ),
    (
        Kind::File,
        Entry::Links(LinksEntry {
            count: 1000,
            time: 7,
        }),
        None,
    ),
    (
        Kind::File,
        Entry::Links(LinksEntry {
            count: 1001,
            time: 7,
        }),
        RANGE,
    ),
    (Kind::Directory, NO_LINK, KIND),
    (Kind::File, Entry::NextPage, None),
    (Kind::Directory, Entry::NextPage, None),
    (Kind::Directory, WRITE, KIND),
];

#[test]
fn links_stay_in_range_and_the_wrong_kind_is_found_first(rt: HostRuntime) {
    for (kind, entry, fault) in OTHERS.iter() {
        let told = check_content(&SMALL, *kind, entry);
        check(&rt, told == *fault, "an entry");
    }
}

/// What is told of an entry that adds this name for an inode to a directory.
fn of_name(bytes: &[u8], inode: u64) -> Option<ContentFault> {
    let entry = name(Operation::Add, bytes, inode)?;
    check_content(&SMALL, Kind::Directory, &entry)
}

/// Names, the inodes that they name, and what is told of adding them to a directory.
const NAMES: [(&[u8], u64, Option<ContentFault>); 11] = [
    (b"a", 1, None),
    (b"a", 31, None),
    (b"a", 0, RANGE),
    (b"a", 32, RANGE),
    (b".", 1, RANGE),
    (b"..", 1, RANGE),
    (b"...", 1, None),
    (b".a", 1, None),
    (b"a/b", 1, RANGE),
    (b"a\0", 1, RANGE),
    (b"\xff", 1, None),
];

#[test]
fn names_stay_in_range(rt: HostRuntime) {
    for &(bytes, inode, fault) in NAMES.iter() {
        let told = of_name(bytes, inode);
        check_at(&rt, told == fault, "a name of an inode", inode);
    }
}
