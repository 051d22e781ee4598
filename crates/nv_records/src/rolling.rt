//! The journals of a region of any bytes: what they would roll back is told, and then rolled back.

ghost use Rattle.std.specs.Prelude.{IfOk, IsErrOf, OnOk, IsTrue};
ghost use Rattle.nv_region.specs.RegionState.{fenced_or_last};
ghost use Rattle.nv_region.specs.Stops.{NothingPending};
ghost use Rattle.nv_records.specs.Rolling.{RollsBack, TellsJournals};

use crate::records::{PendingRecord, pending_records};
use nv_journal::{UndoError, undo};
use nv_region::{Keep, MemRegion, Pmem};
use nv_super::{Super, SuperFault, read_super};
use std::alloc::{AllocError, Global};

/// What the journals of a region hold.
#[derive(Drop)]
pub enum Journals {
    /// The pending records, by the numbers of the superblock.
    Pending {
        sup: Super,
        records: Vec<PendingRecord>,
    },
    /// The superblock isn't accepted.
    Refused(SuperFault),
}

/// The pending records of any region, or the first fault of its superblock. Nothing is stored.
///
/// Errors: `AllocError` where a growth was refused.
pub fn find_pending<P: Pmem>(alloc: Global, memory: &P) -> Result<Journals, AllocError>
    ensures { IfOk result (TellsJournals (P.region memory.now)) }
{
    match read_super(memory) {
        Ok(sup) => Ok(Journals::Pending {
            sup,
            records: pending_records(alloc, memory, &sup)?,
        }),
        Err(fault) => Ok(Journals::Refused(fault)),
    }
}

/// A region whose journals are rolled back, and what they held.
#[derive(Drop)]
pub struct RolledBack {
    pub region: MemRegion,
    pub journals: Journals,
}

/// Tells the pending records of the region that a memory holds, and rolls its journals back; or tells the first fault of its
/// superblock, and changes nothing. What is pending in the memory is kept first, and its fuse is taken out.
///
/// Errors: `AllocError` where a growth was refused.
pub fn recover_journals(alloc: Global, memory: MemRegion) -> Result<RolledBack, AllocError>
    ensures told { IfOk result (λ back. TellsJournals memory.region back.journals) }
    ensures done { IfOk result (λ back. RollsBack memory.region back.journals back.region.region) }
    ensures settled { IfOk result (λ back. NothingPending back.region.region (fenced_or_last back.region)) }
{
    let mut region = memory.after_stop(Keep::All);
    match roll_back(alloc, &mut region) {
        Ok(journals) => Ok(RolledBack { region, journals }),
        Err(UndoError::Memory) => Err(AllocError),
        // A memory without a fuse doesn't stop.
        Err(UndoError::Stopped) => unreachable!(),
    }
}

// Tells the pending records of any region, and rolls its journals back.
fn roll_back<P: Pmem>(alloc: Global, memory: &mut P) -> Result<Journals, UndoError>
    ensures told { IfOk result (TellsJournals (P.region memory.old)) }
    ensures done { IfOk result (λ journals. RollsBack (P.region memory.old) journals (P.region memory.new)) }
    ensures stopped { IsErrOf result UndoError.Stopped → IsTrue (P.fuse memory.new).has_burnt }
    ensures keeps_steady { IsTrue (P.fuse memory.old).is_steady → IsTrue (P.fuse memory.new).is_steady }
    ensures settled { NothingPending (P.region memory.old) (P.may_hold memory.old) → OnOk result (NothingPending (P.region memory.new) (P.may_hold memory.new)) }
{
    match read_super(memory) {
        Ok(sup) => {
            let records = pending_records(alloc, memory, &sup)?;
            undo(alloc, memory, &sup)?;
            Ok(Journals::Pending { sup, records })
        }
        Err(fault) => Ok(Journals::Refused(fault)),
    }
}
