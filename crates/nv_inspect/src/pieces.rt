//! Pieces of pages of which the same is known, each by the page where it begins: it goes on to where the next one does.

ghost use Rattle.std.specs.Prelude.{◌≡◌, ◌≢◌, ◌<◌, ◌≤◌, ℕ, true, ◌&&◌, if◌then◌else◌, None, Some, IfSome, IfNone, IsTrue, OnOk};
ghost use Rattle.nv_inspect.specs.Held.{is_among, is_before, key_at, no_piece, piece_at};

use std::alloc::AllocError;
use std::collections::BTreeMap;
use std::ops::Bound;

/// What is known of the pages of a piece.
#[derive(Clone, Copy, PartialEq, Eq)]
pub(crate) struct Piece {
    /// How far the pages' blocks lie from their numbers, with `MAX_FILE_PAGES` added so that it is never below 0; none where the
    /// pages have no block.
    pub shift: Option<u64>,
    /// The place of the entry that holds these pages.
    pub holder: Option<u64>,
}

/// Each piece, by the page where it begins. Of the pages before the first one nothing is known.
pub(crate) type Pieces = BTreeMap<u64, Piece>;

/// A piece from some page on, and the page where another begins, if one does.
#[derive(Clone, Copy)]
pub(crate) struct Stretch {
    pub piece: Piece,
    pub end: Option<u64>,
}

/// The piece that a page stands in, and how far it goes on.
pub(crate) fn stretch_at(pieces: &Pieces, page: u64) -> Stretch
    ensures piece { result.piece ≡ piece_at pieces.now.entries page }
    ensures ahead { IfSome result.end (λ end. page < end) }
    ensures same { (p : ℕ) → IsTrue (is_among page result.end p) → piece_at pieces.now.entries p ≡ piece_at pieces.now.entries page }
{
    Stretch {
        piece: piece_of(pieces, page),
        end: next(pieces, page),
    }
}

/// The piece that a page stands in.
fn piece_of(pieces: &Pieces, page: u64) -> Piece
    ensures { result ≡ piece_at pieces.now.entries page }
{
    match last_up_to(pieces, page) {
        Some(piece) => piece,
        None => Piece {
            shift: None,
            holder: None,
        },
    }
}

/// The last piece that begins no later than at a page.
fn last_up_to(pieces: &Pieces, page: u64) -> Option<Piece>
    ensures some { IfSome result (λ piece. piece_at pieces.now.entries page ≡ piece) }
    ensures none { IfNone result (piece_at pieces.now.entries page ≡ no_piece) }
{
    let (_start, piece) = pieces.range(..=page).next_back()?;
    Some(*piece)
}

/// The first page behind this one where a piece begins.
fn next(pieces: &Pieces, page: u64) -> Option<u64>
    ensures some { IfSome result (λ next. (page < next) × ((q : ℕ) → page < q → q < next → key_at pieces.now.entries q ≡ None)) }
    ensures none { IfNone result ((q : ℕ) → page < q → key_at pieces.now.entries q ≡ None) }
{
    let behind = (Bound::Excluded(page), Bound::Unbounded);
    let (next, _) = pieces.range(behind).next()?;
    Some(*next)
}

/// Makes this the piece of all pages from `first` on and before the end, if there is one.
///
/// Errors: `AllocError` where a growth was refused; of the pieces nothing is said then.
pub(crate) fn set(
    pieces: &mut Pieces,
    first: u64,
    end: Option<u64>,
    new: Piece,
) -> Result<(), AllocError>
    requires { IsTrue (is_before end first) }
    ensures { OnOk result ((p : ℕ) → piece_at pieces.new.entries p ≡ (if is_among first end p then new else piece_at pieces.old.entries p)) }
{
    match end {
        Some(end) => set_before(pieces, first, end, new),
        None => set_behind(pieces, first, new),
    }
}

fn set_behind(pieces: &mut Pieces, first: u64, new: Piece) -> Result<(), AllocError>
    ensures { OnOk result ((p : ℕ) → piece_at pieces.new.entries p ≡ (if is_among first None p then new else piece_at pieces.old.entries p)) }
{
    clear(pieces, first, None);
    put(pieces, first, new)?;
    Ok(())
}

fn set_before(pieces: &mut Pieces, first: u64, end: u64, new: Piece) -> Result<(), AllocError>
    requires { first < end }
    ensures { OnOk result ((p : ℕ) → piece_at pieces.new.entries p ≡ (if is_among first (Some end) p then new else piece_at pieces.old.entries p)) }
{
    let behind = piece_of(pieces, end);
    clear(pieces, first, Some(end));
    put(pieces, first, new)?;
    put(pieces, end, behind)?;
    Ok(())
}

/// Makes this the piece of a page and of those behind it, up to where another begins.
fn put(pieces: &mut Pieces, page: u64, new: Piece) -> Result<(), AllocError>
    ensures here { OnOk result (piece_at pieces.new.entries page ≡ new) }
    ensures others { OnOk result ((q : ℕ) → q ≢ page → key_at pieces.new.entries q ≡ key_at pieces.old.entries q) }
{
    if piece_of(pieces, page) != new {
        let _had = pieces.insert(page, new)?;
    }
    Ok(())
}

/// Lets no piece begin from `first` on and before the end, if there is one.
fn clear(pieces: &mut Pieces, first: u64, end: Option<u64>)
    ensures none { (q : ℕ) → IsTrue (is_among first end q) → key_at pieces.new.entries q ≡ None }
    ensures others { (q : ℕ) → is_among first end q ≢ true → key_at pieces.new.entries q ≡ key_at pieces.old.entries q }
{
    while let Some(page) = first_from(pieces, first) {
        if !is_before(end, page) {
            return;
        }
        let _had = pieces.remove(&page);
    }
}

/// The first page from this one on where a piece begins.
fn first_from(pieces: &Pieces, page: u64) -> Option<u64>
    ensures some { IfSome result (λ next. (page ≤ next) × (key_at pieces.now.entries next ≢ None) × ((q : ℕ) → page ≤ q → q < next → key_at pieces.now.entries q ≡ None)) }
    ensures none { IfNone result ((q : ℕ) → page ≤ q → key_at pieces.now.entries q ≡ None) }
{
    let (next, _) = pieces.range(page..).next()?;
    Some(*next)
}

/// Whether a page lies before an end, if there is one.
pub(crate) fn is_before(end: Option<u64>, page: u64) -> bool
    ensures { result ≡ is_before end page }
{
    match end {
        Some(end) => page < end,
        None => true,
    }
}

/// The earlier of two ends.
pub(crate) fn earlier(one: Option<u64>, other: Option<u64>) -> Option<u64>
    ensures { (p : ℕ) → is_before result p ≡ (is_before one p && is_before other p) }
{
    match (one, other) {
        (Some(one), Some(other)) => Some(one.min(other)),
        (None, other) => other,
        (one, None) => one,
    }
}
