//! How each recovery ends: what was scanned becomes the answer.

ghost use Rattle.std.specs.Prelude.{◌≡◌, ◌++◌, IfOk, OnOk, map};
ghost use Rattle.nv_region.specs.Region.{Region};
ghost use Rattle.nv_super.specs.Layout.{IsLayout};
ghost use Rattle.nv_super.specs.Order.{fault_key, SortedOf};
ghost use Rattle.nv_outcome.specs.Parts.{double_fault};
ghost use Rattle.nv_outcome.specs.Answer.{IsAnswer};
ghost use Rattle.nv_recover.specs.Started.{IsStarted};
ghost use Rattle.nv_recover.specs.Scanned.{IsScanned, all_told};

use crate::scanned::Scanned;
use crate::starting::Started;
use nv_alloc::Allocators;
use nv_outcome::{Recovered, Rows};
use nv_super::{Fault, Owner, sort_faults};
use std::alloc::{AllocError, Global};

/// The answer: the rows get places by their numbers, the free lists are made of the blocks that nobody owns, and all
/// faults are put in order.
pub(crate) fn finish(
    alloc: Global,
    started: Started,
    scanned: Scanned,
) -> Result<Recovered, AllocError>
    requires layout { IsLayout started.sup }
    requires tables { started.tables.layout.sup ≡ started.sup }
    requires scanned { (R : Region) × IsScanned R started.tables.layout scanned }
    ensures { IfOk result (λ r. (old new : Region) → IsStarted old new started → IsScanned new started.tables.layout scanned → IsAnswer old new r) }
{
    started.tables.are_laid();
    let Scanned {
        inodes,
        owned,
        cross,
    } = scanned;
    let free = Allocators::from_words(alloc, &owned.blocks, &started.sup)?;
    let faults = all_faults(
        started.journal,
        started.tables.faults(),
        &inodes.faults,
        &cross,
        &owned.doubled,
    )?;
    let rows = Rows::from_rows(alloc, inodes.rows, &started.tables)?;
    Ok(Recovered {
        sup: started.sup,
        rows,
        free,
        doubled: owned.doubled,
        faults,
        tables: started.tables,
    })
}

// All faults in order: of the journals, of the chains of the tables, of the inodes by themselves, between them, and of doubled
// blocks.
fn all_faults(
    journal: Vec<Fault>,
    chained: &[Fault],
    own: &[Fault],
    cross: &[Fault],
    doubled: &[(u64, Owner)],
) -> Result<Vec<Fault>, AllocError>
    ensures { IfOk result (λ faults. SortedOf fault_key (all_told journal.items chained.now own.now cross.now doubled.now) faults.items) }
{
    let mut faults = journal;
    faults.extend_from_slice(chained)?;
    faults.extend_from_slice(own)?;
    faults.extend_from_slice(cross)?;
    push_doubled(&mut faults, doubled)?;
    sort_faults(&mut faults);
    Ok(faults)
}

fn push_doubled(faults: &mut Vec<Fault>, doubled: &[(u64, Owner)]) -> Result<(), AllocError>
    ensures { OnOk result (faults.new.items ≡ faults.old.items ++ map double_fault doubled.now) }
{
    for claim in doubled {
        faults.push(double_fault(claim))?;
    }
    Ok(())
}

fn double_fault(claim: &(u64, Owner)) -> Fault
    ensures { result ≡ double_fault claim.now }
{
    Fault::B1 {
        block: claim.0,
        owner: claim.1,
    }
}
