//! Pages that a log can't do without, as far as that can be told without reading it once for each of them.

ghost use Rattle.std.specs.Prelude.{◌≡◌, ◌+◌, ◌<◌, ℕ, true, length, get_or, IfOk, OnOk, IsTrue};
ghost use Rattle.std.specs.List.{Contains};
ghost use Rattle.nv_region.specs.Region.{HasBlocks};
ghost use Rattle.nv_super.specs.Layout.{HasAreas};
ghost use Rattle.nv_inode.specs.Slot.{is_right_log};
ghost use Rattle.nv_deadpages.specs.Needed.{AreNeeded};

use crate::changes::add_changes;
use crate::marks::{add_block, has_block};
use crate::pairs::add_unpaired;
use nv_blockset::BlockList;
use nv_region::Pmem;
use nv_scan::Row;
use nv_super::{BLOCK_SIZE, Kind, Super};
use std::alloc::{AllocError, Global};

/// Pages that the log of a row can't do without: all those that are needed for a name or for a page of the file, where nothing is
/// wrong with an entry. No contract says so: of the others nothing is said.
///
/// Errors: `AllocError` where a growth was refused.
pub(crate) fn needed_pages<P: Pmem>(
    alloc: Global,
    memory: &P,
    sup: &Super,
    row: &Row,
    created: u64,
) -> Result<BlockList, AllocError>
    requires areas { HasAreas sup.now }
    requires blocks { HasBlocks (P.region memory.now) sup.now.blocks }
    requires right { is_right_log sup.now row.now.head row.now.tail ≡ true }
    ensures bound { IfOk result (λ needed. needed.bound ≡ sup.now.blocks) }
    ensures needed { IfOk result (λ needed. AreNeeded (P.region memory.now) sup.now created row.now needed.blocks) }
{
    let mut needed = BlockList::new(alloc, sup.blocks)?;
    match row.kind {
        Kind::File => add_changes(alloc, memory, sup, row, created, &mut needed)?,
        Kind::Directory => {
            add_named(memory, sup, row, created, &mut needed)?;
            if !has_all_before_the_last(&needed, sup, row.pages.as_slice()) {
                add_unpaired(alloc, memory, sup, row, created, &mut needed)?;
            }
        }
    }
    Ok(needed)
}

/// Whether all pages but the last are known to be needed.
fn has_all_before_the_last(needed: &BlockList, sup: &Super, pages: &[u64]) -> bool
    requires { needed.now.bound ≡ sup.now.blocks }
    ensures { IsTrue result → (k : ℕ) → k + 1 < length pages.now → Contains needed.now.blocks (get_or pages.now k 0) }
{
    for behind in 1..pages.len() {
        if !has_block(needed, sup, pages[behind - 1]) {
            return false;
        }
    }
    true
}

/// Adds the pages in which the add of a name stands that the directory has.
fn add_named<P: Pmem>(
    _memory: &P,
    sup: &Super,
    row: &Row,
    _created: u64,
    needed: &mut BlockList,
) -> Result<(), AllocError>
    requires { needed.old.bound ≡ sup.now.blocks }
    ensures bound { needed.new.bound ≡ sup.now.blocks }
    ensures needed { OnOk result (AreNeeded (P.region _memory.now) sup.now _created row.now needed.old.blocks → AreNeeded (P.region _memory.now) sup.now _created row.now needed.new.blocks) }
{
    let listed = row.names.walk()?;
    for k in 0..listed.len() {
        let named = listed[k];
        add_block(needed, sup, named.place / BLOCK_SIZE)?;
    }
    Ok(())
}
