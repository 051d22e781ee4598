//! One inode: its slot and its log become its row, the blocks that it claims and its faults.

ghost use Rattle.std.specs.Prelude.{◌≡◌, ◌≢◌, ◌⊎◌, ◌≤◌, ◌+◌, ◌*◌, ◌%◌, ◌++◌, [], ℕ, IfOk, IfSome, IsSome, IsTrue, None, OnErr, OnOk, Some, false, true};
ghost use Rattle.nv_region.specs.Region.{Region, HasBlocks, size, word};
ghost use Rattle.nv_super.specs.declared.faults.Fault.TheVariants as faults;
ghost use Rattle.nv_super.specs.Layout.{Layout, IsLayout, HasAreas, slot_of};
ghost use Rattle.nv_inode.specs.Slot.{kind_of, is_right_log};
ghost use Rattle.nv_radix.specs.Pages.{block_at};
ghost use Rattle.nv_radix.specs.Runs.{block_by};
ghost use Rattle.nv_logpage.specs.Progress.{at_head};
ghost use Rattle.nv_scan.specs.Claims.{AreSmall};
ghost use Rattle.nv_scan.specs.Rows.{IsPiece};
ghost use Rattle.nv_scan.specs.Scanned.{IsFilled, IsPieceOf, IsEmptyPiece, IsRowOf, fault_of_end};
ghost use Rattle.nv_inode.specs.Chains.{IsLaid};
ghost use Rattle.nv_inode.specs.SlotBlocks.{IsSmallBlock};
ghost use Rattle.nv_scan.specs.Kept.{IsSlotOf, Keeps, KeepsFound, IsPieceBy, SameInodes};

use crate::chain_block::{ChainBlock, chain_block_at};
use crate::claims::Claims;
use crate::fold::{Fold, NameRoom, push_fault};
use crate::in_use::InUse;
use crate::inodes::Inodes;
use crate::piece::{LogPages, Piece, Row, extend_pages};
use crate::reading::read_log;
use crate::touching::touch_block;
use nv_inode::{Slot, SlotBlock, SlotState, Tables, read_slot_at};
use nv_logpage::{LogEnd, LogFault, LogReader};
use nv_names::NameIndex;
use nv_radix::{ExtentMap, FileIndex};
use nv_region::Pmem;
use nv_super::{Fault, Super};
use std::alloc::{AllocError, Global};
use std::marker::Model;
use std::mem;

/// Scans inodes one after another, with one reader for all their logs. It has a bit for each block of the region, made
/// at the first log that is read; each later log costs what its own pages do.
#[derive(Drop)]
pub struct Scanner {
    alloc: Global,
    sup: Super,
    reader: Option<LogReader>,
    name: NameRoom,
    // What was touched last, which says nothing: it stands here so that it is loaded.
    touched: u64,
}

impl Model for Scanner {
    ghost use Rattle.nv_super.specs.declared.superblock.Super.{Super as SuperValue};

    ghost Value = { SuperValue };

    ghost view = { λ s. s.sup };

    ghost use Rattle.nv_scan.specs.Scanner.{IsScanner};

    ghost invariant = { IsScanner };
}

impl Scanner {
    /// A scanner of the region with this superblock. It takes no memory.
    pub fn new(alloc: Global, sup: &Super) -> Scanner
        requires layout { IsLayout sup.now }
        ensures { result ≡ sup.now }
    {
        Scanner {
            alloc,
            sup: *sup,
            reader: None,
            name: NameRoom::new(),
            touched: 0,
        }
    }

    /// Touches the slots of a block and the logs of their inodes, which are quicker to scan then. It changes nothing.
    // A caller that doesn't see into it can't leave the touching out.
    #[inline(never)]
    pub(crate) fn touch<P: Pmem>(&mut self, memory: &P, block: &SlotBlock)
        requires blocks { HasBlocks (P.region memory.now) self.old.blocks }
        requires block { IsSmallBlock self.old block.now }
        ensures { self.new ≡ self.old }
    {
        self.touched = touch_block(memory, &self.sup, block);
    }

    /// Scans the inode of this number, whose slot stands at this address: the words of its slot, and each page of its log
    /// once. Its row, if it is in use, and its faults are put behind those that are kept. What it claims takes the place of
    /// what is in `claims`, and its memory. More is taken for the pages, the indexes and the faults, and not for the entries;
    /// and, at the first log, for the reader.
    ///
    /// It answers false where nothing is to be told of it: at number 0, and where the valid word is 0, which is all that is
    /// read of it then. With the inode of the first slot of a chain's block that block is told, whatever the slot holds.
    ///
    /// Errors: `AllocError` where a growth was refused. What is kept stays as it was, of the claims nothing is said, and the
    /// scanner can be used on.
    pub fn scan_at<P: Pmem>(
        &mut self,
        memory: &P,
        inode: u64,
        at: u64,
        inodes: &mut Inodes,
        claims: &mut Claims,
    ) -> Result<bool, AllocError>
        requires blocks { HasBlocks (P.region memory.now) self.old.blocks }
        requires whole { at % 128 ≡ 0 }
        requires inside { at + 128 ≤ 4096 * self.old.blocks }
        ensures same { self.new ≡ self.old }
        // By each layout of the superblock whose slot of the number stands there.
        ensures kept { IfOk result (λ found. (l : Layout) → IsLaid l → l.sup ≡ self.old → (inode ≢ 0 → slot_of l inode ≡ Some at)
            → KeepsFound (P.region memory.now) l inode inodes.old inodes.new claims.new found) }
        ensures refused { OnErr result (SameInodes inodes.old inodes.new) }
    {
        let table = chain_block_at(&self.sup, inode, at);
        if is_blank(memory, inode, at, table) {
            return Ok(false);
        }
        let slot = read_slot_at(memory, at);
        self.scan_one(memory, inode, table, &slot, inodes, claims)?;
        Ok(true)
    }

    /// Scans the inode of this number, whose slot was read. The block of a chain is told with it, if there is one.
    fn scan_one<P: Pmem>(
        &mut self,
        memory: &P,
        inode: u64,
        table: Option<ChainBlock>,
        slot: &Slot,
        inodes: &mut Inodes,
        claims: &mut Claims,
    ) -> Result<(), AllocError>
        requires blocks { HasBlocks (P.region memory.now) self.old.blocks }
        ensures same { self.new ≡ self.old }
        ensures kept { (l : Layout) → IsSlotOf (P.region memory.now) self.old l inode table slot.now → OnOk result (Keeps (IsPieceBy (P.region memory.now) l inode) inodes.old inodes.new claims.new) }
        ensures refused { OnErr result (SameInodes inodes.old inodes.new) }
    {
        let alloc = self.alloc;
        match slot.state() {
            SlotState::Unused => keep_unused(inode, table, inodes, claims),
            SlotState::BadValid => keep_bad_valid(inode, table, inodes, claims),
            SlotState::BadKind => keep_bad_kind(inode, table, inodes, claims),
            SlotState::InUse(kind) => scan_log(
                alloc,
                memory,
                &self.sup,
                &mut self.reader,
                &mut self.name,
                &InUse {
                    inode,
                    table,
                    kind,
                    slot: *slot,
                },
                inodes,
                claims,
            ),
        }
    }
}

/// Whether nothing is to be told of the inode of this number, whose slot stands at this address, nor of a block of a chain
/// with it.
fn is_blank<P: Pmem>(memory: &P, inode: u64, at: u64, table: Option<ChainBlock>) -> bool
    requires first { inode ≡ 0 → table ≡ None }
    requires whole { at % 128 ≡ 0 }
    requires inside { at + 128 ≤ size (P.region memory.now) }
    ensures blank { IsTrue result → (table ≡ None) × ((inode ≡ 0) ⊎ (word (P.region memory.now) at ≡ 0)) }
    ensures told { result ≡ false → (inode ≢ 0) × (IsSome table ⊎ (word (P.region memory.now) at ≢ 0)) }
{
    match table {
        Some(_) => false,
        None => match inode {
            0 => true,
            _ => memory.load(at) == 0,
        },
    }
}

/// Scans one inode: the words of its slot, and each page of its log once. Memory is taken for the pages, the indexes,
/// the claims and the faults, and not for the entries; and, where there is a log to read, for a bit for each block of
/// the region. A `Scanner` makes these bits once for many inodes. With the inode of the first slot of a chain's block that
/// block is told, whatever the slot holds.
///
/// Errors: `AllocError` where a growth was refused.
pub fn scan_slot<P: Pmem>(
    alloc: Global,
    memory: &P,
    tables: &Tables,
    inode: u64,
) -> Result<Piece, AllocError>
    requires blocks { HasBlocks (P.region memory.now) tables.now.layout.sup.blocks }
    requires number { IsSome (slot_of tables.now.layout inode) }
    ensures number { IfOk result (λ piece. piece.inode ≡ inode) }
    ensures piece { IfOk result (λ piece. IsPiece (P.region memory.now) tables.now.layout piece) }
{
    tables.are_laid();
    let mut inodes = Inodes::new(alloc);
    let mut claims = Claims::new(alloc);
    let Some(at) = tables.slot_address(inode) else {
        unreachable!()
    };
    let table = chain_block_at(tables.sup(), inode, at);
    let slot = read_slot_at(memory, at);
    let mut scanner = Scanner::new(alloc, tables.sup());
    scanner.scan_one(memory, inode, table, &slot, &mut inodes, &mut claims)?;
    let Inodes { mut rows, faults } = inodes;
    Ok(Piece {
        inode,
        row: rows.pop(),
        claims,
        faults,
    })
}

/// Scans an inode in use, by the reader of the last log, if there is one. Where its head or tail isn't right, no log is
/// read.
fn scan_log<P: Pmem>(
    alloc: Global,
    memory: &P,
    sup: &Super,
    reader: &mut Option<LogReader>,
    name: &mut NameRoom,
    used: &InUse,
    inodes: &mut Inodes,
    claims: &mut Claims,
) -> Result<(), AllocError>
    requires layout { IsLayout sup.now }
    requires blocks { HasBlocks (P.region memory.now) sup.now.blocks }
    requires kind { kind_of used.now.slot ≡ Some used.now.kind }
    requires reader { IfSome reader.old (λ r. r.sup ≡ sup.now) }
    ensures reader { IfSome reader.new (λ r. r.sup ≡ sup.now) }
    ensures kept { (l : Layout) → IsSlotOf (P.region memory.now) sup.now l used.now.inode used.now.table used.now.slot
        → OnOk result (Keeps (IsPieceBy (P.region memory.now) l used.now.inode) inodes.old inodes.new claims.new) }
    ensures refused { OnErr result (SameInodes inodes.old inodes.new) }
{
    if used.slot.has_right_log(sup) {
        go_to_head(alloc, sup, reader, &used.slot)?;
        let Some(at_head) = reader else {
            unreachable!()
        };
        scan_from_head(alloc, memory, sup, at_head, name, used, inodes, claims)
    } else {
        keep_without_log(alloc, sup, used, inodes, claims)
    }
}

/// Keeps an inode in use whose head or tail isn't right.
// What few inodes need stands apart, so that no scan clears room for it.
#[inline(never)]
fn keep_without_log(
    alloc: Global,
    _sup: &Super,
    used: &InUse,
    inodes: &mut Inodes,
    claims: &mut Claims,
) -> Result<(), AllocError>
    requires kind { kind_of used.now.slot ≡ Some used.now.kind }
    requires wrong { is_right_log _sup.now used.now.slot.head used.now.slot.tail ≡ false }
    ensures kept { (R : Region) (l : Layout) → IsSlotOf R _sup.now l used.now.inode used.now.table used.now.slot
        → OnOk result (Keeps (IsPieceBy R l used.now.inode) inodes.old inodes.new claims.new) }
    ensures refused { OnErr result (SameInodes inodes.old inodes.new) }
{
    let mut fold = Fold::new(alloc, used.slot.created);
    let fault = Fault::I3 { inode: used.inode };
    keep(alloc, used, &[], &mut fold, Some(fault), inodes, claims)
}

/// Scans an inode in use by a reader at the head of its log.
fn scan_from_head<P: Pmem>(
    alloc: Global,
    memory: &P,
    sup: &Super,
    reader: &mut LogReader,
    name: &mut NameRoom,
    used: &InUse,
    inodes: &mut Inodes,
    claims: &mut Claims,
) -> Result<(), AllocError>
    requires layout { IsLayout sup.now }
    requires blocks { HasBlocks (P.region memory.now) sup.now.blocks }
    requires kind { kind_of used.now.slot ≡ Some used.now.kind }
    requires right { is_right_log sup.now used.now.slot.head used.now.slot.tail ≡ true }
    requires head { reader.old ≡ at_head sup.now used.now.slot.head used.now.slot.tail }
    ensures reader { reader.new.sup ≡ sup.now }
    ensures kept { (l : Layout) → IsSlotOf (P.region memory.now) sup.now l used.now.inode used.now.table used.now.slot
        → OnOk result (Keeps (IsPieceBy (P.region memory.now) l used.now.inode) inodes.old inodes.new claims.new) }
    ensures refused { OnErr result (SameInodes inodes.old inodes.new) }
{
    let mut fold = Fold::new(alloc, used.slot.created);
    let end = read_log(memory, sup, reader, used, &mut fold, name)?;
    let fault = fault_of_end(used.inode, end);
    keep(
        alloc,
        used,
        reader.pages(),
        &mut fold,
        fault,
        inodes,
        claims,
    )
}

/// Brings the reader to the head of a slot's log, whose head and tail are right. A new one is made where there is none.
fn go_to_head(
    alloc: Global,
    sup: &Super,
    reader: &mut Option<LogReader>,
    slot: &Slot,
) -> Result<(), AllocError>
    requires areas { HasAreas sup.now }
    requires reader { IfSome reader.old (λ r. r.sup ≡ sup.now) }
    requires right { is_right_log sup.now slot.now.head slot.now.tail ≡ true }
    ensures head { OnOk result (reader.new ≡ Some (at_head sup.now slot.now.head slot.now.tail)) }
    ensures refused { OnErr result (reader.new ≡ reader.old) }
{
    match reader {
        Some(last) => last.restart(slot.head, slot.tail),
        None => return make_reader(alloc, sup, reader, slot),
    }
    Ok(())
}

/// Makes a reader at the head of a slot's log.
#[inline(never)]
fn make_reader(
    alloc: Global,
    sup: &Super,
    reader: &mut Option<LogReader>,
    slot: &Slot,
) -> Result<(), AllocError>
    requires areas { HasAreas sup.now }
    requires right { is_right_log sup.now slot.now.head slot.now.tail ≡ true }
    ensures head { OnOk result (reader.new ≡ Some (at_head sup.now slot.now.head slot.now.tail)) }
    ensures refused { OnErr result (reader.new ≡ reader.old) }
{
    *reader = Some(LogReader::new(alloc, sup, slot.head, slot.tail)?);
    Ok(())
}

/// The fault of an inode whose log ends so.
fn fault_of_end(inode: u64, end: Option<LogEnd>) -> Option<Fault>
    ensures { result ≡ fault_of_end inode end }
{
    let LogEnd { fault, at } = end?;
    Some(match fault {
        LogFault::L1 => Fault::L1 { inode, at },
        LogFault::L2 => Fault::L2 { inode, at },
        LogFault::L3 => Fault::L3 { inode, at },
        LogFault::L4 => Fault::L4 { inode, at },
    })
}

/// Keeps an inode in use, with one fault more than its log told, if there is one, and what it claims.
fn keep(
    alloc: Global,
    used: &InUse,
    pages: &[u64],
    fold: &mut Fold,
    fault: Option<Fault>,
    inodes: &mut Inodes,
    claims: &mut Claims,
) -> Result<(), AllocError>
    requires { AreSmall (block_by fold.old.extents) }
    ensures kept { OnOk result (Keeps (IsPieceOf used.now.inode used.now.table used.now.kind used.now.slot pages.now fold.old fault) inodes.old inodes.new claims.new) }
    ensures refused { OnErr result (SameInodes inodes.old inodes.new) }
{
    push_fault(&mut fold.faults, fault)?;
    let (rows, faults) = (inodes.rows.len(), inodes.faults.len());
    inodes.push(row_without_pages(alloc, used, fold), &fold.faults)?;
    match fill_row(
        used.table,
        pages,
        &fold.extents,
        inodes.rows.at_mut(rows),
        claims,
    ) {
        Ok(()) => Ok(()),
        Err(AllocError) => {
            let _row = inodes.rows.pop();
            inodes.faults.truncate(faults);
            Err(AllocError)
        }
    }
}

/// The row of an inode in use, but for the pages of its log and of its file, of which it has none. The names are taken out of
/// what its log said.
// A call would copy the row once more.
#[inline(always)]
fn row_without_pages(alloc: Global, used: &InUse, fold: &mut Fold) -> Row
    ensures row { IsRowOf used.now fold.old result }
    ensures pages { result.pages.items ≡ [] }
    ensures index { (p : ℕ) → block_at result.index p ≡ None }
    ensures others { (fold.new.extents ≡ fold.old.extents) × (fold.new.faults ≡ fold.old.faults) }
{
    Row {
        inode: used.inode,
        numbers: fold.numbers,
        names: mem::replace(&mut fold.names, NameIndex::new(alloc)),
        kind: used.kind,
        head: used.slot.head,
        tail: used.slot.tail,
        pages: LogPages::new(alloc),
        index: FileIndex::new(alloc),
    }
}

/// Puts the pages of a log and of a file into their row. What the row's inode claims takes the place of the claims.
// The index is made in the row, so that it is never copied.
fn fill_row(
    table: Option<ChainBlock>,
    pages: &[u64],
    extents: &ExtentMap,
    row: &mut Row,
    claims: &mut Claims,
) -> Result<(), AllocError>
    requires small { AreSmall (block_by extents.now) }
    requires no_pages { row.old.pages.items ≡ [] }
    requires no_index { (p : ℕ) → block_at row.old.index p ≡ None }
    ensures { OnOk result (IsFilled table pages.now (block_by extents.now) row.old row.new claims.new) }
{
    extend_pages(&mut row.pages, pages)?;
    claims.set(row.inode, table, pages, extents, &mut row.index)
}

/// Keeps an inode of which nothing is told.
#[inline(never)]
fn keep_unused(
    inode: u64,
    table: Option<ChainBlock>,
    inodes: &mut Inodes,
    claims: &mut Claims,
) -> Result<(), AllocError>
    ensures kept { OnOk result (Keeps (IsEmptyPiece inode table None) inodes.old inodes.new claims.new) }
    ensures refused { OnErr result (SameInodes inodes.old inodes.new) }
{
    keep_fault(inode, table, None, inodes, claims)
}

/// Keeps the fault of an inode whose valid word is wrong.
#[inline(never)]
fn keep_bad_valid(
    inode: u64,
    table: Option<ChainBlock>,
    inodes: &mut Inodes,
    claims: &mut Claims,
) -> Result<(), AllocError>
    ensures kept { OnOk result (Keeps (IsEmptyPiece inode table (Some (faults.I1 inode))) inodes.old inodes.new claims.new) }
    ensures refused { OnErr result (SameInodes inodes.old inodes.new) }
{
    keep_fault(inode, table, Some(Fault::I1 { inode }), inodes, claims)
}

/// Keeps the fault of an inode whose kind is wrong.
#[inline(never)]
fn keep_bad_kind(
    inode: u64,
    table: Option<ChainBlock>,
    inodes: &mut Inodes,
    claims: &mut Claims,
) -> Result<(), AllocError>
    ensures kept { OnOk result (Keeps (IsEmptyPiece inode table (Some (faults.I2 inode))) inodes.old inodes.new claims.new) }
    ensures refused { OnErr result (SameInodes inodes.old inodes.new) }
{
    keep_fault(inode, table, Some(Fault::I2 { inode }), inodes, claims)
}

/// Keeps the fault of an inode that isn't in use, if it has one. It claims nothing but the block of a chain that is told with
/// it.
fn keep_fault(
    _inode: u64,
    table: Option<ChainBlock>,
    fault: Option<Fault>,
    inodes: &mut Inodes,
    claims: &mut Claims,
) -> Result<(), AllocError>
    ensures kept { OnOk result (Keeps (IsEmptyPiece _inode table fault) inodes.old inodes.new claims.new) }
    ensures refused { OnErr result (SameInodes inodes.old inodes.new) }
{
    claims.begin(table);
    push_fault(&mut inodes.faults, fault)
}
