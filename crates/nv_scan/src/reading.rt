//! Reading the log of an inode to its end, entry by entry.

ghost use Rattle.std.specs.Prelude.{◌≡◌, ◌≤◌, ℕ, [], IfOk, OnOk};
ghost use Rattle.nv_region.specs.Region.{HasBlocks};
ghost use Rattle.nv_super.specs.Layout.{HasAreas};
ghost use Rattle.nv_logpage.specs.Progress.{at_head, remaining};
ghost use Rattle.nv_scan.specs.Fold.{Holds};
ghost use Rattle.nv_scan.specs.Reading.{IsRead, IsReadSoFar};

use crate::fold::{Fold, NameRoom};
use crate::in_a_row::take_more;
use crate::in_use::InUse;
use nv_entry::WRITE_LENGTH;
use nv_logpage::{LightFinding, LogEnd, LogReader};
use nv_region::Pmem;
use nv_super::{Kind, Super};
use std::alloc::AllocError;

/// Reads the log of an inode in use by a reader at its head, which has its pages then, and answers the fault that ended it,
/// unless it ended at its tail. Its entries are taken by the fold, and none is kept; names are read in `name`.
pub(crate) fn read_log<P: Pmem>(
    memory: &P,
    sup: &Super,
    reader: &mut LogReader,
    used: &InUse,
    fold: &mut Fold,
    name: &mut NameRoom,
) -> Result<Option<LogEnd>, AllocError>
    requires areas { HasAreas sup.now }
    requires blocks { HasBlocks (P.region memory.now) sup.now.blocks }
    requires start { reader.old ≡ at_head sup.now used.now.slot.head used.now.slot.tail }
    requires none { Holds sup.now used.now.kind used.now.inode used.now.slot.created [] fold.old }
    ensures reader { reader.new.sup ≡ sup.now }
    ensures read { IfOk result (IsRead (P.region memory.now) sup.now used.now.inode used.now.kind used.now.slot fold.new reader.new.pages) }
{
    'reading: loop {
        take_writes(memory, sup, reader, used, fold)?;
        match reader.next_light(memory)? {
            LightFinding::Entry(placed) => {
                fold.take(memory, sup, used.kind, used.inode, &placed, name)?;
            }
            LightFinding::Page(_) => {}
            LightFinding::End(fault) => return Ok(fault),
        }
    }
}

/// Takes the write entries that stand at the reader's place one behind another, which is quicker than a finding at a time.
fn take_writes<P: Pmem>(
    memory: &P,
    sup: &Super,
    reader: &mut LogReader,
    used: &InUse,
    fold: &mut Fold,
) -> Result<(), AllocError>
    requires areas { HasAreas sup.now }
    requires blocks { HasBlocks (P.region memory.now) sup.now.blocks }
    requires sup { reader.old.sup ≡ sup.now }
    ensures read { (head created : ℕ) → IsReadSoFar (P.region memory.now) head used.now.kind used.now.inode created reader.old fold.old
        → OnOk result (IsReadSoFar (P.region memory.now) head used.now.kind used.now.inode created reader.new fold.new) }
    ensures same_log { (reader.new.sup ≡ reader.old.sup) × (reader.new.tail ≡ reader.old.tail) }
    ensures less { remaining reader.new ≤ remaining reader.old }
{
    // A write in a directory is a fault, which is told where all entries are looked at.
    match used.kind {
        Kind::Directory => return Ok(()),
        Kind::File => {}
    }
    // No store can change a copy, so its numbers are loaded once.
    let sup = *sup;
    let end = reader.end();
    let mut at = reader.place();
    while let Some(e) = reader.write_at(memory, at, end) {
        fold.take_write(&sup, Kind::File, used.inode, at, &e)?;
        at = take_more(memory, &sup, reader, fold, at + WRITE_LENGTH, end)?;
    }
    reader.go_to(at);
    Ok(())
}
