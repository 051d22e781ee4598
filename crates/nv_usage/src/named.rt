//! Rows as inodes with names.

ghost use Rattle.std.specs.Prelude.{◌≡◌};
ghost use Rattle.nv_usage.specs.Named.{names_tree};

use nv_archive::inode_numbers;
use nv_members::Inodes;
use nv_names::Named;
use nv_rows::Rows;
use nv_super::Kind;
use std::alloc::{AllocError, Global};

/// Rows, without the bytes of their files.
#[derive(Drop)]
pub struct NamedRows<'a> {
    pub rows: &'a Rows,
}

/// The inodes of rows.
pub fn named_rows<'a>(rows: &'a Rows) -> NamedRows<'a>
    ensures { result.rows.now ≡ rows.entry.now }
{
    NamedRows { rows }
}

impl Inodes for NamedRows<'_> {
    ghost tree = { λ s. names_tree s.rows.now.items };

    fn numbers(&self, alloc: Global) -> Result<Vec<u64>, AllocError> {
        inode_numbers(alloc, self.rows)
    }

    fn kind_of(&self, inode: u64) -> Option<Kind> {
        match self.rows.get(inode) {
            Some(row) => Some(row.kind),
            None => None,
        }
    }

    fn names_of(&self, inode: u64) -> Result<Vec<Named<'_>>, AllocError> {
        self.rows.row(inode).names.list()
    }
}
