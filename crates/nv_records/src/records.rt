//! The pending records of the journals, CPU after CPU and the oldest first, each with the word that it names.

ghost use Rattle.std.specs.Prelude.{◌≡◌, ◌≤◌, ◌<◌, ◌++◌, ℕ, List, IfOk, OnOk};
ghost use Rattle.nv_region.specs.Region.{HasBlocks};
ghost use Rattle.nv_super.specs.Layout.{IsLayout};
ghost use Rattle.nv_inode.specs.Chains.{IsLaid};
ghost use Rattle.nv_records.specs.Records.{AreTold, ArePending, TellsRecord, all_places, places_in};

use crate::naming::{NamedWord, word_at};
use nv_inode::{Tables, read_tables};
use nv_region::Pmem;
use nv_super::{BLOCK_SIZE, Super};
use std::alloc::{AllocError, Global};

/// How many records a journal has room for.
const PLACES: u64 = 252;

/// Where the enqueue number stands, in bytes from the journal's start.
const ENQUEUE: u64 = 8;

/// Where the records begin, in bytes from the journal's start.
const FIRST_RECORD: u64 = 64;

const RECORD_SIZE: u64 = 16;

/// A pending record: the CPU of its journal, its number there, the byte address that it names, which word of a slot stands
/// there, and the value that stood there before.
#[derive(Clone, Copy, Debug, PartialEq, Eq)]
pub struct PendingRecord {
    pub cpu: u64,
    pub number: u64,
    pub address: u64,
    /// None where the address is no word that a journal may name: such a record is not rolled back.
    pub word: Option<NamedWord>,
    pub before: u64,
}

/// The pending records of all sound journals: CPU after CPU, and in a journal the oldest first.
///
/// Errors: `AllocError` where a growth was refused.
pub fn pending_records<P: Pmem>(
    alloc: Global,
    memory: &P,
    sup: &Super,
) -> Result<Vec<PendingRecord>, AllocError>
    requires layout { IsLayout sup.now }
    requires blocks { HasBlocks (P.region memory.now) sup.now.blocks }
    ensures { IfOk result (λ records. ArePending sup.now (P.region memory.now) records.items) }
{
    let tables = read_tables(alloc, memory, sup)?;
    records_by(alloc, memory, &tables)
}

// Those of a region with these tables.
fn records_by<P: Pmem>(
    alloc: Global,
    memory: &P,
    tables: &Tables,
) -> Result<Vec<PendingRecord>, AllocError>
    requires { HasBlocks (P.region memory.now) tables.now.layout.sup.blocks }
    ensures { IfOk result (λ records. AreTold tables.now.layout (P.region memory.now) (all_places (P.region memory.now) tables.now.layout.sup.cpus) records.items) }
{
    tables.are_laid();
    let mut records = Vec::new(alloc);
    for cpu in 0..tables.cpus() {
        add_records(&mut records, memory, tables, cpu)?;
    }
    Ok(records)
}

// Adds the pending records of one journal, if it is sound.
fn add_records<P: Pmem>(
    records: &mut Vec<PendingRecord>,
    memory: &P,
    tables: &Tables,
    cpu: u64,
) -> Result<(), AllocError>
    requires layout { IsLaid tables.now.layout }
    requires blocks { HasBlocks (P.region memory.now) tables.now.layout.sup.blocks }
    requires cpu { cpu < tables.now.layout.sup.cpus }
    ensures { (places : List (ℕ × ℕ)) → AreTold tables.now.layout (P.region memory.now) places records.old.items
        → OnOk result (AreTold tables.now.layout (P.region memory.now) (places ++ places_in (P.region memory.now) cpu) records.new.items) }
{
    let journal = BLOCK_SIZE * (1 + cpu);
    let dequeue = memory.load(journal);
    let enqueue = memory.load(journal + ENQUEUE);
    if dequeue >= PLACES || enqueue >= PLACES {
        return Ok(());
    }
    for behind in 0..(enqueue + PLACES - dequeue) % PLACES {
        let record = record_at(memory, tables, cpu, (dequeue + behind) % PLACES);
        records.push(record)?;
    }
    Ok(())
}

// The record of this number.
fn record_at<P: Pmem>(memory: &P, tables: &Tables, cpu: u64, number: u64) -> PendingRecord
    requires layout { IsLaid tables.now.layout }
    requires blocks { HasBlocks (P.region memory.now) tables.now.layout.sup.blocks }
    requires cpu { cpu < tables.now.layout.sup.cpus }
    requires number { number < 252 }
    ensures { TellsRecord tables.now.layout (P.region memory.now) cpu number result }
{
    let place = BLOCK_SIZE * (1 + cpu) + FIRST_RECORD + RECORD_SIZE * number;
    let address = memory.load(place);
    PendingRecord {
        cpu,
        number,
        address,
        word: word_at(memory, tables, address),
        before: memory.load(place + 8),
    }
}
