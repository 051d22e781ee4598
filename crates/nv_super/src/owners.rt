//! Runs of blocks, and the owners of blocks.

ghost use Rattle.std.specs.Prelude.{◌≡◌, ◌==◌, ◌<◌, ◌^◌};
ghost use Rattle.nv_super.specs.Owners.{raised, page_end};

use std::fmt;

/// Blocks side by side: `count` blocks from block `start` on.
#[derive(Clone, Copy, Debug, PartialEq, Eq)]
pub struct Run {
    pub start: u64,
    pub count: u64,
}

/// What holds a block: the table of a CPU, as a place of its chain, or an inode, as a page of its log or the block of a
/// page of its file. Places and pages count from 0. Tables come first, by CPU and then by place; inodes rise by number,
/// then the log before the data, then by page.
#[derive(Clone, Copy, Debug)]
pub enum Owner {
    Table { cpu: u64, place: u64 },
    Log { inode: u64, page: u64 },
    Data { inode: u64, page: u64 },
}

impl Run {
    /// Whether it has no block.
    pub fn is_empty(&self) -> bool
        ensures { result ≡ (self.now.count == 0) }
    {
        self.count == 0
    }
}

impl Owner {
    /// The owner of the block that stands `by` places on in a run: a file's page is raised by so much, and a log's
    /// page and a table's place stay.
    pub fn raised(self, by: u64) -> Owner
        requires { page_end self by < 2 ^ 64 }
        ensures { result ≡ raised self by }
    {
        match self {
            Owner::Table { cpu, place } => Owner::Table { cpu, place },
            Owner::Log { inode, page } => Owner::Log { inode, page },
            Owner::Data { inode, page } => Owner::Data {
                inode,
                page: page + by,
            },
        }
    }
}

impl fmt::Display for Owner {
    ghost use Rattle.std.specs.Prelude.{Some};
    ghost use Rattle.nv_super.specs.FaultText.{owner_text};

    ghost output = { λ owner. Some (owner_text owner) };

    fn fmt<W: fmt::Write>(&self, f: &mut fmt::Formatter<W>) -> fmt::Result {
        match *self {
            Owner::Table { cpu, place } => write!(f, "table {cpu} {place}"),
            Owner::Log { inode, page } => write!(f, "log {inode} {page}"),
            Owner::Data { inode, page } => write!(f, "data {inode} {page}"),
        }
    }
}
