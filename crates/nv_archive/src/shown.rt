//! Rows, and a reader of the blocks of their files, as what an archive is made of.

ghost use Rattle.std.specs.Prelude.{◌≡◌, IfOk};
ghost use Rattle.nv_rows.specs.Rows.{inodes_of};
ghost use Rattle.nv_archive.specs.Shown.{AreKnown, AreSmallRows, shown_tree};

use nv_members::Inodes;
use nv_metadata::{Blocks, GatherError};
use nv_names::Named;
use nv_pages::bytes_of_pages;
use nv_rows::Rows;
use nv_stream::ScriptError;
use nv_super::Kind;
use nv_tar::{Numbers, Source, TarError};
use std::alloc::{AllocError, Global};

/// Rows, and a reader of the blocks of their files.
#[derive(Drop)]
pub(crate) struct Shown<'a, B: Blocks> {
    pub(crate) alloc: Global,
    pub(crate) source: &'a B,
    pub(crate) rows: &'a Rows,
    ghost small: { AreSmallRows rows.now.items },
}

/// The numbers of all rows, rising.
pub fn inode_numbers(alloc: Global, rows: &Rows) -> Result<Vec<u64>, AllocError>
    ensures { IfOk result (λ numbers. numbers.items ≡ inodes_of rows.now.items) }
{
    let mut numbers = Vec::new(alloc);
    for (inode, _) in rows.iter() {
        numbers.push(inode)?;
    }
    Ok(numbers)
}

impl<B: Blocks> Inodes for Shown<'_, B> {
    ghost tree = { λ s. shown_tree (B.bytes s.source.now) s.rows.now.items };

    fn numbers(&self, alloc: Global) -> Result<Vec<u64>, AllocError> {
        inode_numbers(alloc, self.rows)
    }

    fn kind_of(&self, inode: u64) -> Option<Kind> {
        match self.rows.get(inode) {
            Some(row) => Some(row.kind),
            None => None,
        }
    }

    fn names_of(&self, inode: u64) -> Result<Vec<Named<'_>>, AllocError> {
        self.rows.row(inode).names.list()
    }
}

impl<B: Blocks> Source for Shown<'_, B> {
    ghost known = { λ s. AreKnown (B.bytes s.source.now) s.rows.now.items };

    fn numbers_of(&self, inode: u64) -> Option<Numbers> {
        match self.rows.get(inode) {
            Some(row) => Some(Numbers {
                mode: row.numbers.mode,
                owner: row.numbers.owner,
                group: row.numbers.group,
                size: row.numbers.size,
                time: row.numbers.time,
            }),
            None => None,
        }
    }

    fn read(&self, inode: u64, at: u64, count: u64) -> Result<Vec<u8>, TarError> {
        let row = self.rows.row(inode);
        match bytes_of_pages(self.alloc, self.source, &row.index, at, count) {
            Ok(bytes) => Ok(bytes),
            Err(GatherError::Read(error)) => Err(TarError::Read(error)),
            Err(GatherError::Memory) => Err(TarError::Answer(ScriptError::Memory)),
        }
    }
}
