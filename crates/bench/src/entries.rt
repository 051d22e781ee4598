//! How many entries the logs of a region hold.

ghost use Rattle.std.specs.Prelude.{IsTrue};
ghost use Rattle.nv_region.specs.Region.{HasBlocks};
ghost use Rattle.nv_super.specs.Layout.{HasAreas, is_page_start};

use nv_inode::{SlotState, Tables, read_slot, read_tables};
use nv_logpage::{Finding, LogReader};
use nv_recover::RecoverError;
use nv_region::Pmem;
use nv_super::{Super, read_super};
use std::alloc::{AllocError, Global};

/// The entries in the logs of all inodes in use, as far as each log can be read.
pub(crate) fn count_entries<P: Pmem>(alloc: Global, memory: &P) -> Result<u64, RecoverError> {
    let sup = read_super(memory)?;
    let tables = read_tables(alloc, memory, &sup)?;
    let mut entries = 0u64;
    for inode in 0..tables.number_end() {
        entries = entries.saturating_add(entries_of(alloc, memory, &tables, inode)?);
    }
    Ok(entries)
}

fn entries_of<P: Pmem>(
    alloc: Global,
    memory: &P,
    tables: &Tables,
    inode: u64,
) -> Result<u64, AllocError>
    requires { HasBlocks (P.region memory.now) tables.now.layout.sup.blocks }
{
    tables.are_laid();
    let Some(slot) = read_slot(memory, tables, inode) else {
        return Ok(0);
    };
    match slot.state() {
        SlotState::InUse(_) if slot.has_right_log(tables.sup()) => {
            entries_of_log(alloc, memory, tables.sup(), slot.head, slot.tail)
        }
        _ => Ok(0),
    }
}

fn entries_of_log<P: Pmem>(
    alloc: Global,
    memory: &P,
    sup: &Super,
    head: u64,
    tail: u64,
) -> Result<u64, AllocError>
    requires areas { HasAreas sup.now }
    requires blocks { HasBlocks (P.region memory.now) sup.now.blocks }
    requires head { IsTrue (is_page_start sup.now head) }
{
    let mut reader = LogReader::new(alloc, sup, head, tail)?;
    let mut entries = 0u64;
    'reading: loop {
        match reader.next(memory)? {
            Finding::Entry(_) => entries = entries.saturating_add(1),
            Finding::Page(_) => {}
            Finding::End(_) => return Ok(entries),
        }
    }
}
