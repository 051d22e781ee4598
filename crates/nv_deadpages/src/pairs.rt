//! The pages of a directory's log in which the entries of a name don't go in pairs.
//!
//! In a log without a fault adds and removals of a name take turns. So they do without the entries of a page only where each
//! name has an even number of them.

ghost use Rattle.std.specs.Prelude.{◌≡◌, ◌⊎◌, ℕ, [], true, not, false, is_some, if◌then◌else◌, nat_eq, List, length, None, IfOk, OnOk, IsTrue};
ghost use Rattle.std.specs.List.{Contains};
ghost use Rattle.std.specs.Cmp.Lexicographic.{pointwise};
ghost use Rattle.nv_region.specs.Region.{HasBlocks};
ghost use Rattle.nv_super.specs.Layout.{HasAreas};
ghost use Rattle.nv_inode.specs.Slot.{is_right_log};
ghost use Rattle.nv_entry.specs.Light.{CanBeRead};
ghost use Rattle.nv_logpage.specs.Light.{placed_in};
ghost use Rattle.nv_logpage.specs.Progress.{at_head};
ghost use Rattle.nv_names.specs.Names.{name_at, IsName};
ghost use Rattle.nv_scan.specs.Fold.{Holds};
ghost use Rattle.nv_deadpages.specs.Needed.{AreNeeded};
ghost use Rattle.nv_deadpages.specs.Pairs.{AreUnpaired, Toggles};

use crate::marks::{add_block, add_blocks, has_block};
use nv_blockset::BlockList;
use nv_entry::{LightEntry, check_name};
use nv_logpage::{LightFinding, LightPlaced, LogEnd, LogReader};
use nv_names::NameIndex;
use nv_region::Pmem;
use nv_scan::{Fold, NameRoom, Row};
use nv_super::{BLOCK_SIZE, Kind, Super};
use std::alloc::{AllocError, Global};

/// Adds the pages of a log in which the entries of a name don't go in pairs. Pages that are there already aren't looked at.
/// Where something is wrong with an entry of the log, none is added.
///
/// Errors: `AllocError` where a growth was refused.
pub(crate) fn add_unpaired<P: Pmem>(
    alloc: Global,
    memory: &P,
    sup: &Super,
    row: &Row,
    created: u64,
    needed: &mut BlockList,
) -> Result<(), AllocError>
    requires areas { HasAreas sup.now }
    requires blocks { HasBlocks (P.region memory.now) sup.now.blocks }
    requires right { is_right_log sup.now row.now.head row.now.tail ≡ true }
    requires bound { needed.old.bound ≡ sup.now.blocks }
    ensures bound { needed.new.bound ≡ sup.now.blocks }
    ensures needed { OnOk result (AreNeeded (P.region memory.now) sup.now created row.now needed.old.blocks → AreNeeded (P.region memory.now) sup.now created row.now needed.new.blocks) }
{
    let mut reader = LogReader::new(alloc, sup, row.head, row.tail)?;
    let mut fold = Fold::new(alloc, created);
    let mut found = BlockList::new(alloc, sup.blocks)?;
    let _fault = find_unpaired(
        alloc,
        memory,
        sup,
        &mut reader,
        row,
        created,
        needed,
        &mut fold,
        &mut found,
    )?;
    if !is_right(&fold) {
        return Ok(());
    }
    add_blocks(needed, sup, found.as_slice())
}

/// Whether nothing is wrong with an entry.
fn is_right(fold: &Fold) -> bool
    ensures { IsTrue result → length fold.now.faults.items ≡ 0 }
{
    fold.faults.is_empty()
}

/// Reads the log of a row by a reader at its head, takes its entries, and adds the pages but for the last in which the entries
/// of a name don't go in pairs, where these aren't known.
fn find_unpaired<P: Pmem>(
    alloc: Global,
    memory: &P,
    sup: &Super,
    reader: &mut LogReader,
    row: &Row,
    _created: u64,
    known: &BlockList,
    fold: &mut Fold,
    found: &mut BlockList,
) -> Result<Option<LogEnd>, AllocError>
    requires areas { HasAreas sup.now }
    requires blocks { HasBlocks (P.region memory.now) sup.now.blocks }
    requires start { reader.old ≡ at_head sup.now row.now.head row.now.tail }
    requires bound { known.now.bound ≡ sup.now.blocks }
    requires none { Holds sup.now row.now.kind row.now.inode _created [] fold.old }
    requires empty { found.old ≡ record { bound = sup.now.blocks; blocks = [] } }
    ensures bound { found.new.bound ≡ sup.now.blocks }
    ensures unpaired { IfOk result (AreUnpaired (P.region memory.now) sup.now row.now _created fold.new found.new.blocks reader.new.pages) }
{
    let mut name = NameRoom::new();
    // The names of which this page had an odd number of entries so far, if it is looked at.
    let mut odd = NameIndex::new(alloc);
    let mut looks = !has_block(known, sup, row.head / BLOCK_SIZE);
    'reading: loop {
        let page = reader.place() / BLOCK_SIZE;
        match reader.next_light(memory)? {
            LightFinding::Entry(placed) => {
                fold.take(memory, sup, row.kind, row.inode, &placed, &mut name)?;
                toggle_by(memory, sup, row.kind, looks, &placed, &mut name, &mut odd)?;
            }
            LightFinding::Page(start) => {
                add_open(sup, looks, &odd, page, found)?;
                odd = NameIndex::new(alloc);
                looks = !has_block(known, sup, start / BLOCK_SIZE);
            }
            LightFinding::End(fault) => return Ok(fault),
        }
    }
}

/// Adds a page that was looked at, if a name is open in it.
fn add_open(
    sup: &Super,
    looks: bool,
    odd: &NameIndex,
    page: u64,
    found: &mut BlockList,
) -> Result<(), AllocError>
    requires { found.old.bound ≡ sup.now.blocks }
    ensures bound { found.new.bound ≡ sup.now.blocks }
    ensures only { OnOk result ((b : ℕ) → Contains found.new.blocks b → ((b ≡ page) × IsTrue looks × (((q : List ℕ) → name_at odd.now q ≡ None) → ⊥)) ⊎ Contains found.old.blocks b) }
{
    if !looks || odd.is_empty() {
        return Ok(());
    }
    add_block(found, sup, page)
}

/// Opens the name of a good entry, or closes it where it is open, if the entry's page is looked at.
fn toggle_by<P: Pmem>(
    memory: &P,
    sup: &Super,
    kind: Kind,
    looks: bool,
    placed: &LightPlaced,
    name: &mut NameRoom,
    odd: &mut NameIndex,
) -> Result<(), AllocError>
    requires areas { HasAreas sup.now }
    requires name { CanBeRead (P.region memory.now) placed.now.entry }
    ensures { OnOk result (IsTrue looks → Toggles sup.now kind (placed_in (P.region memory.now) placed.now) odd.old odd.new) }
{
    if !looks {
        return Ok(());
    }
    match &placed.entry {
        LightEntry::Name(e) => {
            e.read_name(memory, name);
            match check_name(sup, kind, e, name) {
                Some(_) => Ok(()),
                None => toggle(odd, name),
            }
        }
        LightEntry::NextPage | LightEntry::Write(_) | LightEntry::Attr(_) | LightEntry::Links(_) =>
            { Ok(()) }
    }
}

/// Puts a name into an index, or takes it out where the index has it.
fn toggle(odd: &mut NameIndex, name: &[u8]) -> Result<(), AllocError>
    requires { IsName name.now }
    ensures { OnOk result ((q : List ℕ) → is_some (name_at odd.new q) ≡ (if pointwise nat_eq q name.now then not (is_some (name_at odd.old q)) else is_some (name_at odd.old q))) }
{
    match odd.get(name) {
        Some(_) => {
            odd.remove(name);
            Ok(())
        }
        None => odd.insert(name, 0, 0),
    }
}
