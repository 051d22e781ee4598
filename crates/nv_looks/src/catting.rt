//! Writing the bytes of a file in a region of which the metadata were gathered: its blocks are read as its bytes are written.

ghost use Rattle.std.specs.Prelude.{◌≡◌, ◌≤◌, ℕ, List, Some, None, Option, OnOk, IfOk, IfErr};
ghost use Rattle.std.specs.Io.KnownBytes.{Keeps};
ghost use Rattle.nv_region.specs.Region.{Region, region_of};
ghost use Rattle.nv_rows.specs.Rows.{row_of};
ghost use Rattle.nv_metadata.specs.Gathered.{AreGathered, IsOpen};
ghost use Rattle.nv_metadata.specs.declared.gathering.Gathered.{Gathered as GatheredValue};
ghost use Rattle.nv_tree.specs.Path.{IsPath, Says};
ghost use Rattle.nv_tree.specs.Tree.{Tree};
ghost use Rattle.nv_tree.specs.Refusals.{Path, first_refusal, read_tests};
ghost use Rattle.nv_paths.specs.Seen.{node_of, tree_of, LeadsTo};
ghost use Rattle.nv_looks.specs.Sent.{written};
ghost use Rattle.nv_looks.specs.Looking.{GivesBytes, WritesLook, WritesFile, WritesCall};
ghost use Rattle.nv_looks.specs.Gathered.{FailsBlocksCat, IsOpenedOf, is_whole};
ghost use Rattle.nv_archive.specs.Shown.{AreSmallRows, IsSmallRow};
ghost use Rattle.nv_looks.specs.Catting.{IsFileOf, AreReadFrom, AreShownAs, FailsBlocksCall, FailsBlocksFile};

use crate::gathered::{OpenedMetadata, close_metadata, is_whole, open_gathered};
use crate::looking::{refused_look, status_of, write_refusal};
use nv_image_check::{Answered, BlocksError};
use nv_metadata::{Blocks, Gathered, HeldBytes, MetadataRegion, gather};
use nv_pages::bytes_of_pages;
use nv_paths::row_at;
use nv_rows::Rows;
use nv_scan::Row;
use nv_session::{CallRefusal, Fs};
use nv_stream::write_text;
use nv_super::Kind;
use std::alloc::Global;
use std::io::Write;

/// How many bytes of a file are read at a time.
const PIECE: u64 = 1 << 18;

/// Writes the bytes of the file in the region that a reader gives piece by piece, as `cat_image` writes those of all its bytes: its
/// metadata are read, and then the blocks of the file.
///
/// It holds the metadata, and a piece of the file at a time. Errors: `Read` where the length isn't told or bytes can't be read,
/// which doesn't happen where they are known; `Answer` as of `cat_image`.
pub fn cat_blocks<B: Blocks, W: Write, E: Write>(
    alloc: Global,
    source: &B,
    path: &[u8],
    writer: &mut W,
    errors: &mut E,
) -> Result<Answered, BlocksError>
    ensures ok { (bytes : List ℕ) → B.bytes source.now ≡ Some bytes
        → IfOk result (λ answered. WritesLook (GivesBytes path.now) bytes (written (W.contents writer.old) (E.contents errors.old))
        (written (W.contents writer.new) (E.contents errors.new)) answered) }
    ensures err { (bytes : List ℕ) → B.bytes source.now ≡ Some bytes
        → IfErr result (λ e. FailsBlocksCat (GivesBytes path.now) bytes e (written (W.contents writer.old) (E.contents errors.old)) (written (W.contents writer.new) (E.contents errors.new))) }
{
    let gathered = gather(alloc, source)?;
    cat_gathered(alloc, source, gathered, path, writer, errors)
}

/// The same of the region of which this was gathered, by the reader from which it was.
pub fn cat_gathered<B: Blocks, W: Write, E: Write>(
    alloc: Global,
    source: &B,
    gathered: Gathered,
    path: &[u8],
    writer: &mut W,
    errors: &mut E,
) -> Result<Answered, BlocksError>
    requires { IsOpen gathered }
    ensures ok { (bytes : List ℕ) → B.bytes source.now ≡ Some bytes → AreGathered (region_of bytes) gathered
        → IfOk result (λ answered. WritesLook (GivesBytes path.now) bytes (written (W.contents writer.old) (E.contents errors.old))
        (written (W.contents writer.new) (E.contents errors.new)) answered) }
    ensures err { (bytes : List ℕ) → B.bytes source.now ≡ Some bytes → AreGathered (region_of bytes) gathered
        → IfErr result (λ e. FailsBlocksCat (GivesBytes path.now) bytes e (written (W.contents writer.old) (E.contents errors.old)) (written (W.contents writer.new) (E.contents errors.new))) }
{
    let whole = is_whole(&gathered);
    let opened = open_gathered(alloc, gathered)?;
    let answered = cat_opened(alloc, source, &opened, whole, path, writer, errors);
    close_metadata(opened);
    answered
}

fn cat_opened<B: Blocks, W: Write, E: Write>(
    alloc: Global,
    source: &B,
    opened: &OpenedMetadata,
    whole: bool,
    path: &[u8],
    writer: &mut W,
    errors: &mut E,
) -> Result<Answered, BlocksError>
    requires { (of : GatheredValue) × IsOpenedOf of opened.now }
    ensures ok { (of : GatheredValue) (bytes : List ℕ) → IsOpenedOf of opened.now → whole ≡ is_whole of → B.bytes source.now ≡ Some bytes → AreGathered (region_of bytes) of
        → IfOk result (λ answered. WritesLook (GivesBytes path.now) bytes (written (W.contents writer.old) (E.contents errors.old))
        (written (W.contents writer.new) (E.contents errors.new)) answered) }
    ensures err { (of : GatheredValue) (bytes : List ℕ) → IsOpenedOf of opened.now → whole ≡ is_whole of → B.bytes source.now ≡ Some bytes → AreGathered (region_of bytes) of
        → IfErr result (λ e. FailsBlocksCat (GivesBytes path.now) bytes e (written (W.contents writer.old) (E.contents errors.old))
        (written (W.contents writer.new) (E.contents errors.new))) }
{
    match opened {
        OpenedMetadata::Mounted(mount) => {
            let status = cat_mounted(alloc, source, mount, whole, path, writer, errors)?;
            Ok(Answered {
                status,
                faults: mount.faults().len(),
            })
        }
        OpenedMetadata::Refused(refusal) => {
            let look = refused_look(alloc, *refusal)?;
            write_text(errors, look.text.as_bytes())?;
            Ok(look.answered)
        }
    }
}

// Writes the bytes of the file that a path leads to in a mount, or why they aren't read. They are read from the memory where it
// holds all bytes, with its journals rolled back, and else from the reader. Answers the exit status.
fn cat_mounted<B: Blocks, W: Write, E: Write>(
    alloc: Global,
    source: &B,
    mount: &Fs<MetadataRegion>,
    whole: bool,
    path: &[u8],
    writer: &mut W,
    errors: &mut E,
) -> Result<u8, BlocksError>
    requires { AreSmallRows mount.now.rows }
    ensures ok { (R : Region) → AreReadFrom whole (B.bytes source.now) mount.now.memory R mount.now.rows → (p : Path) → Says path.now p
        → IfOk result (λ status. WritesCall (tree_of R mount.now.rows) p (written (W.contents writer.old) (E.contents errors.old)) (written (W.contents writer.new) (E.contents errors.new)) status) }
    ensures err { (R : Region) → AreReadFrom whole (B.bytes source.now) mount.now.memory R mount.now.rows → (p : Path) → Says path.now p
        → IfErr result (λ e. FailsBlocksCall (tree_of R mount.now.rows) p e (written (W.contents writer.old) (E.contents errors.old)) (written (W.contents writer.new) (E.contents errors.new))) }
{
    let rows = mount.rows();
    if whole {
        let held = HeldBytes::new(mount.memory().front());
        return cat_file(alloc, &held, rows, path, writer, errors);
    }
    cat_file(alloc, source, rows, path, writer, errors)
}

// Writes the bytes of the file that a path leads to among these rows, or why they aren't read. Answers the exit status.
fn cat_file<B: Blocks, W: Write, E: Write>(
    alloc: Global,
    source: &B,
    rows: &Rows,
    path: &[u8],
    writer: &mut W,
    errors: &mut E,
) -> Result<u8, BlocksError>
    requires { AreSmallRows rows.now.items }
    ensures ok { (image : List ℕ) → B.bytes source.now ≡ Some image → (R : Region) → AreShownAs R (region_of image) rows.now.items → (p : Path) → Says path.now p
        → IfOk result (λ status. WritesCall (tree_of R rows.now.items) p (written (W.contents writer.old) (E.contents errors.old)) (written (W.contents writer.new) (E.contents errors.new)) status) }
    ensures err { (image : List ℕ) → B.bytes source.now ≡ Some image → (R : Region) → AreShownAs R (region_of image) rows.now.items → (p : Path) → Says path.now p
        → IfErr result (λ e. FailsBlocksCall (tree_of R rows.now.items) p e (written (W.contents writer.old) (E.contents errors.old)) (written (W.contents writer.new) (E.contents errors.new))) }
{
    match file_at(rows, path) {
        Ok(row) => write_row(alloc, source, row, writer),
        Err(refusal) => {
            let status = write_refusal(alloc, refusal, errors)?;
            Ok(status)
        }
    }
}

// The row of the file that a path leads to, or the refusal that `read` has.
fn file_at<'a>(rows: &'a Rows, path: &[u8]) -> Result<&'a Row, CallRefusal>
    ensures row { (R : Region) (names : List (List ℕ)) → IsPath path.now names → IfOk result (λ r. LeadsTo (tree_of R rows.now.items) names r.now.inode (node_of R r.now)) }
    ensures held { IfOk result (λ r. row_of rows.now.items r.now.inode ≡ Some r.now) }
    ensures allowed { (R : Region) (p : Path) → Says path.now p → OnOk result (first_refusal (read_tests (tree_of R rows.now.items) p) ≡ None) }
    ensures refused { (R : Region) (p : Path) → Says path.now p → IfErr result (λ e. first_refusal (read_tests (tree_of R rows.now.items) p) ≡ Some e) }
{
    let row = row_at(rows, path)?;
    match row.kind {
        Kind::File => Ok(row),
        Kind::Directory => Err(CallRefusal::IsDirectory),
    }
}

// Writes the bytes of a row's file, a piece after another. Answers the exit status.
fn write_row<B: Blocks, W: Write>(
    alloc: Global,
    source: &B,
    row: &Row,
    writer: &mut W,
) -> Result<u8, BlocksError>
    requires { IsSmallRow row.now }
    ensures status { IfOk result (λ status. status ≡ 0) }
    ensures ok { (image : List ℕ) → B.bytes source.now ≡ Some image → (t : Tree) (names : List (List ℕ)) → IsFileOf (region_of image) row.now t names
        → OnOk result (WritesFile t names (W.contents writer.old) (W.contents writer.new)) }
    ensures err { (image : List ℕ) → B.bytes source.now ≡ Some image → (t : Tree) (names : List (List ℕ)) → IsFileOf (region_of image) row.now t names
        → IfErr result (λ e. FailsBlocksFile t names e (W.contents writer.old) (W.contents writer.new)) }
{
    let size = row.numbers.size;
    let mut at = 0;
    while at < size {
        let count = PIECE.min(size - at);
        let piece = bytes_of_pages(alloc, source, &row.index, at, count)?;
        write_text(writer, &piece)?;
        at += count;
    }
    Ok(status_of(false))
}
