//! The text of the log of an inode in use.

ghost use Rattle.std.specs.Prelude.{◌≡◌, ◌++◌, List, ℕ, Option, true, length, get_or, ◌<◌, OnOk, string_bytes};
ghost use Rattle.nv_region.specs.Region.{HasBlocks};
ghost use Rattle.nv_super.specs.Layout.{HasAreas};
ghost use Rattle.nv_inode.specs.Slot.{is_right_log};
ghost use Rattle.nv_logpage.specs.declared.found.LogEnd.{LogEnd as LogEndValue};
ghost use Rattle.nv_logpage.specs.declared.found.Placed.{Placed as PlacedValue};
ghost use Rattle.nv_logpage.specs.Reads.{Reads};
ghost use Rattle.nv_inspect.specs.declared.fate.Fate.{Fate as FateValue};
ghost use Rattle.nv_inspect.specs.declared.fate.Fate.TheVariants.{Stands};
ghost use Rattle.nv_inspect.specs.Dead.{AreFates};
ghost use Rattle.nv_inspect.specs.Log.{IsLogText, created_at, lines_of, end_line, head_line, log_fault_word, read_text};

use crate::entries::push_entry;
use crate::fate::Fate;
use crate::fates::fates_of;
use crate::fields::push_place;
use crate::links::{push_links, push_links_to};
use nv_inode::{Slot, Tables};
use nv_logpage::{LogEnd, LogFault, Placed, Walk, walk};
use nv_region::Pmem;
use nv_scan::Row;
use nv_super::{BLOCK_SIZE, Super};
use nv_text::push_log_line;
use std::alloc::{AllocError, Global};
use std::fmt::Write;

/// Where the creation time stands in a slot.
const CREATED: u64 = 32;

/// Puts the log of the inode of a row to a text: a line with its number and kind, one with the blocks of the log's pages and
/// its tail, a line for each entry in the order of reading, one for each link that was followed, and one that says where the
/// reading ended, and by which fault.
///
/// A line of an entry has its place, why it doesn't count or what became of it, and its fields. An entry stands where the inode's
/// state would be another without it; a write says how many of its pages lie where it put them then. Else it is dead: since a later
/// entry, whose place is told, or it changes nothing. A log whose head or tail isn't right has no entries.
///
/// The entries are held until the text is made. Errors: `AllocError` where a growth was refused; of the text nothing is said then.
pub fn push_log<P: Pmem>(
    out: &mut String,
    alloc: Global,
    memory: &P,
    tables: &Tables,
    row: &Row,
) -> Result<(), AllocError>
    requires blocks { HasBlocks (P.region memory.now) tables.now.layout.sup.blocks }
    ensures { OnOk result ((text : List ℕ) × IsLogText (P.region memory.now) tables.now.layout row.now text × (string_bytes out.new ≡ string_bytes out.old ++ text)) }
{
    tables.are_laid();
    push_head(out, row)?;
    if !has_right_log(tables.sup(), row) {
        return out.push_str("  no log, by I3\n");
    }
    push_read(out, alloc, memory, tables, row)
}

// What is read of a log whose head and tail are right.
fn push_read<P: Pmem>(
    out: &mut String,
    alloc: Global,
    memory: &P,
    tables: &Tables,
    row: &Row,
) -> Result<(), AllocError>
    requires areas { HasAreas tables.now.layout.sup }
    requires blocks { HasBlocks (P.region memory.now) tables.now.layout.sup.blocks }
    requires right { is_right_log tables.now.layout.sup row.now.head row.now.tail ≡ true }
    ensures { OnOk result ((es : List PlacedValue) × (pages : List ℕ) × (end : Option LogEndValue) × (fates : List FateValue)
        × Reads (P.region memory.now) tables.now.layout.sup row.now.head row.now.tail es pages end
        × AreFates tables.now.layout.sup row.now.kind (created_at (P.region memory.now) tables.now.layout row.now.inode) es fates
        × (string_bytes out.new ≡ string_bytes out.old ++ read_text tables.now.layout.sup row.now es fates pages end)) }
{
    let sup = tables.sup();
    let log = walk(alloc, memory, sup, row.head, row.tail)?;
    let created = created_at(memory, tables, row.inode);
    let fates = fates_of(alloc, sup, row.kind, created, &log.entries)?;
    push_walk(out, sup, row, &log, &fates)
}

// The creation time of an inode.
fn created_at<P: Pmem>(memory: &P, tables: &Tables, inode: u64) -> u64
    requires { HasBlocks (P.region memory.now) tables.now.layout.sup.blocks }
    ensures { result ≡ created_at (P.region memory.now) tables.now.layout inode }
{
    // The region's length is a u64, and so is each address up to it.
    let _end = memory.len();
    match tables.slot_address(inode) {
        Some(slot) => memory.load(slot + CREATED),
        None => 0,
    }
}

// `inode I KIND`.
fn push_head(out: &mut String, row: &Row) -> Result<(), AllocError>
    ensures { OnOk result (string_bytes out.new ≡ string_bytes out.old ++ head_line row.now) }
{
    let (inode, kind) = (row.inode, row.kind);
    writeln!(out, "inode {inode} {kind}")
}

// Whether head and tail of a row's log are right.
fn has_right_log(sup: &Super, row: &Row) -> bool
    requires { HasAreas sup.now }
    ensures { result ≡ is_right_log sup.now row.now.head row.now.tail }
{
    // Only head and tail are looked at.
    let slot = Slot {
        valid: 1,
        kind: 1,
        head: row.head,
        tail: row.tail,
        created: 0,
    };
    slot.has_right_log(sup)
}

// What was read of a log.
fn push_walk(
    out: &mut String,
    sup: &Super,
    row: &Row,
    log: &Walk,
    fates: &[Fate],
) -> Result<(), AllocError>
    requires areas { HasAreas sup.now }
    requires fates { length fates.now ≡ length log.now.entries.items }
    ensures { OnOk result (string_bytes out.new ≡ string_bytes out.old ++ read_text sup.now row.now log.now.entries.items fates.now log.now.pages.items log.now.fault) }
{
    push_log_line(out, &log.pages, row.tail)?;
    push_lines(out, sup, row, fates, &log.pages, &log.entries)?;
    push_end(out, log.fault)
}

// The entries in these pages, and the links that lead from one page to the next.
fn push_lines(
    out: &mut String,
    sup: &Super,
    row: &Row,
    fates: &[Fate],
    pages: &[u64],
    entries: &[Placed],
) -> Result<(), AllocError>
    requires areas { HasAreas sup.now }
    requires fates { length fates.now ≡ length entries.now }
    ensures { OnOk result (string_bytes out.new ≡ string_bytes out.old ++ lines_of sup.now row.now fates.now pages.now entries.now) }
{
    let mut left = pages;
    for (place, placed) in entries.iter().enumerate() {
        left = push_links_to(out, left, placed.at / BLOCK_SIZE)?;
        push_entry(out, sup, row, fate_at(fates, place), placed)?;
    }
    push_links(out, left)
}

// What became of the entry at a place.
fn fate_at(fates: &[Fate], place: usize) -> Fate
    requires { place < length fates.now }
    ensures { result ≡ get_or fates.now place Stands }
{
    fates[place]
}

// Where the reading ended.
fn push_end(out: &mut String, end: Option<LogEnd>) -> Result<(), AllocError>
    ensures { OnOk result (string_bytes out.new ≡ string_bytes out.old ++ end_line end) }
{
    let Some(LogEnd { fault, at }) = end else {
        return out.push_str("  ends at its tail\n");
    };
    out.push_str("  ends by ")?;
    out.push_str(fault_word(fault))?;
    out.push_str(" at ")?;
    push_place(out, at)?;
    out.push_str("\n")
}

fn fault_word(fault: LogFault) -> &'static str
    ensures { result.now ≡ log_fault_word fault }
{
    match fault {
        LogFault::L1 => "L1",
        LogFault::L2 => "L2",
        LogFault::L3 => "L3",
        LogFault::L4 => "L4",
    }
}
