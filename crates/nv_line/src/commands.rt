//! What a line of a script asks for.

use nv_region::{Fuse, Keep};

/// A command of a script.
#[derive(Drop)]
pub enum Command<'a> {
    /// Make a region of `blocks` blocks, with `cpus` CPUs and `table_blocks` table blocks for each.
    Format {
        cpus: u64,
        blocks: u64,
        table_blocks: u64,
    },
    /// Set the current time.
    Time {
        time: u64,
    },
    /// Store a word at an address, in bytes. Nothing is mounted any more.
    Poke {
        at: u64,
        value: u64,
    },
    /// Keep the region's first `length` bytes. Nothing is mounted any more.
    Cut {
        length: u64,
    },
    /// Recover the region on this number of workers, and mount it.
    Recover {
        workers: u64,
    },
    /// Recover the region on one thread, with the claims of this number of workers made in the
    /// schedule's order, and mount it. A number of the schedule that names no worker is read too.
    Replay {
        workers: u64,
        schedule: Vec<u64>,
    },
    /// Print the names of a directory.
    ListNames {
        path: &'a [u8],
    },
    /// Print the numbers of an inode.
    Stat {
        path: &'a [u8],
    },
    /// Print the bytes of a file from an offset on, at most so many.
    Read {
        path: &'a [u8],
        offset: u64,
        count: u64,
    },
    /// Make a file, with blocks of this CPU's pool first.
    Create {
        cpu: u64,
        path: &'a [u8],
    },
    /// Make a directory.
    MakeDirectory {
        cpu: u64,
        path: &'a [u8],
    },
    /// Write so many copies of a byte into a file, from an offset on.
    Write {
        cpu: u64,
        path: &'a [u8],
        offset: u64,
        count: u64,
        byte: u8,
    },
    /// Cut a file, or lengthen it by zeros.
    SetSize {
        cpu: u64,
        path: &'a [u8],
        size: u64,
    },
    /// Set the mode, owner and group of an inode.
    SetAttributes {
        cpu: u64,
        path: &'a [u8],
        mode: u32,
        owner: u32,
        group: u32,
    },
    /// Give a file one more name.
    Link {
        cpu: u64,
        old: &'a [u8],
        new: &'a [u8],
    },
    /// Take a name of a file away, and with the last one the file.
    Unlink {
        cpu: u64,
        path: &'a [u8],
    },
    /// Take a directory without names away.
    RemoveDirectory {
        cpu: u64,
        path: &'a [u8],
    },
    /// Give an inode another name in place of one.
    Rename {
        cpu: u64,
        old: &'a [u8],
        new: &'a [u8],
    },
    /// Take the first page out of an inode's log that it can do without.
    Clean {
        path: &'a [u8],
    },
    /// Make the region one of version 2.
    Upgrade,
    /// Print the inodes in use.
    Tree,
    /// Print the free blocks of each CPU.
    Free,
    /// Print the faults.
    Faults,
    /// Print the superblock's numbers, and all that the three above print.
    Report,
    /// Print the word at an address, in bytes.
    Peek {
        at: u64,
    },
    /// Let this fuse stop the next command, which then leaves what is to be kept.
    Stop {
        fuse: Fuse,
        keep: Keep,
    },
}

/// What a line is to a script.
#[derive(Drop)]
pub enum Line<'a> {
    /// Empty, or a comment.
    Skipped,
    /// A command.
    Command(Command<'a>),
    /// Neither, or longer than a line may be.
    Bad,
}
