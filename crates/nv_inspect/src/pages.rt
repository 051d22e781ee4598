//! The pages of a file as its log is read: the block of each, and the entry that holds it, which is the one without which the page
//! would map elsewhere.
//!
//! Pages of which one entry says the same stand together in a piece, however many they are. So an entry costs the logarithm of
//! the number of pieces, and that for each piece of which it says something, few of which it leaves.

ghost use Rattle.std.specs.Prelude.{◌≡◌, ℕ, if◌then◌else◌, Some, false, IsTrue, OnOk};
ghost use Rattle.nv_super.specs.Layout.{HasAreas};
ghost use Rattle.nv_entry.specs.Content.{is_write_out_of_range};
ghost use Rattle.nv_scan.specs.State.{block_in, cuts};
ghost use Rattle.nv_inspect.specs.Held.{block_held, is_among, page_holder, piece_at, said_piece, same_shift, Loses, Marks, Says};

use crate::pieces::{Piece, Pieces, earlier, is_before, set, stretch_at};
use crate::word::mark;
use nv_entry::{Entry, WriteEntry};
use nv_radix::MAX_FILE_PAGES;
use nv_scan::first_page_past;
use nv_super::Super;
use std::alloc::AllocError;

/// Marks the entries that hold a page from `first` on and before the end, if there is one.
pub(crate) fn mark_pages(
    pieces: &Pieces,
    first: u64,
    end: Option<u64>,
    by: u64,
    takers: &mut [Option<u64>],
)
    ensures { Marks by (λ (k : ℕ). (p : ℕ) × IsTrue (is_among first end p) × (page_holder pieces.now.entries p ≡ Some k)) takers.old takers.new }
{
    let mut page = first;
    while is_before(end, page) {
        let here = stretch_at(pieces, page);
        mark(takers, here.piece.holder, by);
        match here.end {
            Some(next) => page = next,
            None => return,
        }
    }
}

/// Takes what the entry at place `by` says of the pages from `first` on and before the end, if there is one: their blocks are
/// shifted so far, or they have none. It holds those that were mapped elsewhere.
///
/// Errors: `AllocError` where a growth was refused; of the pages nothing is said then.
fn say(
    pieces: &mut Pieces,
    first: u64,
    end: Option<u64>,
    shift: Option<u64>,
    by: u64,
) -> Result<(), AllocError>
    ensures { OnOk result ((p : ℕ) → piece_at pieces.new.entries p ≡ (if is_among first end p then said_piece by shift (piece_at pieces.old.entries p) else piece_at pieces.old.entries p)) }
{
    let mut page = first;
    while is_before(end, page) {
        let here = stretch_at(pieces, page);
        let to = earlier(here.end, end);
        set(pieces, page, to, said(here.piece, shift, by))?;
        match to {
            Some(next) => page = next,
            None => return Ok(()),
        }
    }
    Ok(())
}

/// The same, and marks the entries that held one of these pages.
fn take(
    pieces: &mut Pieces,
    first: u64,
    end: Option<u64>,
    shift: Option<u64>,
    by: u64,
    takers: &mut [Option<u64>],
) -> Result<(), AllocError>
    ensures pages { OnOk result ((p : ℕ) → piece_at pieces.new.entries p ≡ (if is_among first end p then said_piece by shift (piece_at pieces.old.entries p) else piece_at pieces.old.entries p)) }
    ensures marks { Marks by (λ (k : ℕ). (p : ℕ) × IsTrue (is_among first end p) × (page_holder pieces.old.entries p ≡ Some k)) takers.old takers.new }
{
    mark_pages(pieces, first, end, by, takers);
    say(pieces, first, end, shift, by)?;
    Ok(())
}

/// Takes what an entry at place `by` that gives a file this size says of the pages from there on: they have no block.
///
/// Errors: `AllocError` where a growth was refused; of the pages nothing is said then.
pub(crate) fn cut_pages(
    pieces: &mut Pieces,
    size: u64,
    by: u64,
    takers: &mut [Option<u64>],
) -> Result<(), AllocError>
    ensures pages { OnOk result ((p : ℕ) → Says by (cuts size p) (block_held pieces.old.entries p) (page_holder pieces.old.entries p)
        (block_held pieces.new.entries p) (page_holder pieces.new.entries p)) }
    ensures marks { Marks by (λ (k : ℕ). (p : ℕ) × Loses (cuts size p) (page_holder pieces.old.entries p) k) takers.old takers.new }
{
    take(pieces, first_page_past(size), None, None, by, takers)?;
    Ok(())
}

/// Takes what a good write entry at place `by` says of pages.
///
/// Errors: `AllocError` where a growth was refused; of the pages nothing is said then.
pub(crate) fn write_pages(
    pieces: &mut Pieces,
    _sup: &Super,
    e: &WriteEntry,
    by: u64,
    takers: &mut [Option<u64>],
) -> Result<(), AllocError>
    requires areas { HasAreas _sup.now }
    requires good { is_write_out_of_range _sup.now e.now ≡ false }
    ensures pages { OnOk result ((p : ℕ) → Says by (block_in p (Entry.Write e.now)) (block_held pieces.old.entries p) (page_holder pieces.old.entries p)
        (block_held pieces.new.entries p) (page_holder pieces.new.entries p)) }
    ensures marks { OnOk result (Marks by (λ (k : ℕ). (p : ℕ) × Loses (block_in p (Entry.Write e.now)) (page_holder pieces.old.entries p) k) takers.old takers.new) }
{
    let end = e.offset + e.count as u64;
    let shift = e.block + (MAX_FILE_PAGES - e.offset);
    take(pieces, e.offset, Some(end), Some(shift), by, takers)?;
    cut_pages(pieces, e.size, by, takers)?;
    Ok(())
}

/// What the entry at place `by` makes of a piece of whose pages it says this.
fn said(piece: Piece, shift: Option<u64>, by: u64) -> Piece
    ensures { result ≡ said_piece by shift piece }
{
    Piece {
        shift,
        holder: if is_same(piece.shift, shift) {
            None
        } else {
            Some(by)
        },
    }
}

fn is_same(one: Option<u64>, other: Option<u64>) -> bool
    ensures { result ≡ same_shift one other }
{
    match (one, other) {
        (Some(one), Some(other)) => one == other,
        (None, None) => true,
        _ => false,
    }
}
