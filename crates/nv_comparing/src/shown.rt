//! The rows of a region over its memory, as what is compared.

ghost use Rattle.std.specs.Prelude.{◌≡◌};
ghost use Rattle.nv_paths.specs.Seen.{tree_of};
ghost use Rattle.nv_comparing.specs.Shown.{AreHeld};

use nv_archive::inode_numbers;
use nv_bytes::fill_bytes;
use nv_difference::{Contents, Numbers};
use nv_members::Inodes;
use nv_names::Named;
use nv_region::Pmem;
use nv_rows::Rows;
use nv_super::Kind;
use std::alloc::{AllocError, Global};

/// Rows, and the memory where the blocks of their files lie.
#[derive(Drop)]
pub(crate) struct HeldRows<'a, P: Pmem> {
    memory: &'a P,
    rows: &'a Rows,
    ghost held: { AreHeld (P.region memory.now) rows.now.items },
}

/// The rows of a region as what is compared.
pub(crate) fn shown<'a, P: Pmem>(memory: &'a P, rows: &'a Rows) -> HeldRows<'a, P>
    requires { AreHeld (P.region memory.now) rows.now.items }
    ensures memory { result.memory.now ≡ memory.entry.now }
    ensures rows { result.rows.now ≡ rows.entry.now }
{
    HeldRows { memory, rows }
}

impl<P: Pmem> Inodes for HeldRows<'_, P> {
    ghost tree = { λ s. tree_of (P.region s.memory.now) s.rows.now.items };

    fn numbers(&self, alloc: Global) -> Result<Vec<u64>, AllocError> {
        inode_numbers(alloc, self.rows)
    }

    fn kind_of(&self, inode: u64) -> Option<Kind> {
        match self.rows.get(inode) {
            Some(row) => Some(row.kind),
            None => None,
        }
    }

    fn names_of(&self, inode: u64) -> Result<Vec<Named<'_>>, AllocError> {
        self.rows.row(inode).names.list()
    }
}

impl<P: Pmem> Contents for HeldRows<'_, P> {
    fn numbers_of(&self, inode: u64) -> Option<Numbers> {
        match self.rows.get(inode) {
            Some(row) => Some(Numbers {
                kind: row.kind,
                mode: row.numbers.mode,
                owner: row.numbers.owner,
                group: row.numbers.group,
                size: row.numbers.size,
                links: row.numbers.links,
                time: row.numbers.time,
            }),
            None => None,
        }
    }

    fn named(&self, directory: u64, name: &[u8]) -> Option<u64> {
        match self.rows.get(directory)?.names.get(name) {
            Some(target) => Some(target.inode),
            None => None,
        }
    }

    fn read(&self, inode: u64, at: u64, buffer: &mut [u8]) {
        fill_bytes(self.memory, &self.rows.row(inode).index, at, buffer);
    }
}
