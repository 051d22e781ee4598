//! Writing what a region holds as a tar archive, of which the metadata were gathered: the blocks of files are read as their bytes
//! are written.

ghost use Rattle.std.specs.Prelude.{◌≡◌, ℕ, List, Some, IfOk, IfErr};
ghost use Rattle.nv_region.specs.Region.{Region, region_of};
ghost use Rattle.nv_metadata.specs.Gathered.{AreGathered, IsOpen};
ghost use Rattle.nv_metadata.specs.declared.gathering.Gathered.{Gathered as GatheredValue};
ghost use Rattle.nv_archive.specs.Shown.{AreKnown, AreSmallRows, shown_tree};
ghost use Rattle.nv_looks.specs.Sent.{written};
ghost use Rattle.nv_looks.specs.Looking.{WritesLook};
ghost use Rattle.nv_looks.specs.Gathered.{FailsBlocksCat, IsOpenedOf, is_whole};
ghost use Rattle.nv_looks.specs.Archiving.{FailsTold, GivesArchive, WritesTold, archive_status};
ghost use Rattle.nv_looks.specs.Catting.{AreReadFrom};
ghost use Rattle.nv_paths.specs.Seen.{tree_of};

use crate::gathered::{OpenedMetadata, close_metadata, is_whole, open_gathered};
use crate::looking::{refused_look, write_refusal};
use nv_archive::{Chosen, inode_of, write_archive};
use nv_image_check::{Answered, BlocksError};
use nv_metadata::{Blocks, Gathered, HeldBytes, MetadataRegion, gather};
use nv_rows::Rows;
use nv_session::Fs;
use nv_stream::write_text;
use nv_tar::TarError;
use std::alloc::Global;
use std::io::Write;

/// Writes the archive of what is chosen in the region that a reader gives piece by piece, with all that it holds, and with `all` of
/// all else that is in use; or `refused NAME` to the errors, as `stat` is refused.
///
/// It holds the metadata, and a piece of a file at a time. Errors: `Read` where the length isn't told or bytes can't be read,
/// which doesn't happen where they are known; `Answer` as of `cat_image`.
pub fn tar_blocks<B: Blocks, W: Write, E: Write>(
    alloc: Global,
    source: &B,
    chosen: Chosen<'_>,
    all: bool,
    writer: &mut W,
    errors: &mut E,
) -> Result<Answered, BlocksError>
    ensures ok { (bytes : List ℕ) → B.bytes source.now ≡ Some bytes
        → IfOk result (λ answered. WritesLook (GivesArchive chosen.entry all) bytes (written (W.contents writer.old) (E.contents errors.old))
        (written (W.contents writer.new) (E.contents errors.new)) answered) }
    ensures err { (bytes : List ℕ) → B.bytes source.now ≡ Some bytes
        → IfErr result (λ e. FailsBlocksCat (GivesArchive chosen.entry all) bytes e (written (W.contents writer.old) (E.contents errors.old))
        (written (W.contents writer.new) (E.contents errors.new))) }
{
    let gathered = gather(alloc, source)?;
    tar_gathered(alloc, source, gathered, chosen, all, writer, errors)
}

/// The same of the region of which this was gathered, by the reader from which it was.
pub fn tar_gathered<B: Blocks, W: Write, E: Write>(
    alloc: Global,
    source: &B,
    gathered: Gathered,
    chosen: Chosen<'_>,
    all: bool,
    writer: &mut W,
    errors: &mut E,
) -> Result<Answered, BlocksError>
    requires { IsOpen gathered }
    ensures ok { (bytes : List ℕ) → B.bytes source.now ≡ Some bytes → AreGathered (region_of bytes) gathered
        → IfOk result (λ answered. WritesLook (GivesArchive chosen.entry all) bytes (written (W.contents writer.old) (E.contents errors.old))
        (written (W.contents writer.new) (E.contents errors.new)) answered) }
    ensures err { (bytes : List ℕ) → B.bytes source.now ≡ Some bytes → AreGathered (region_of bytes) gathered
        → IfErr result (λ e. FailsBlocksCat (GivesArchive chosen.entry all) bytes e (written (W.contents writer.old) (E.contents errors.old))
        (written (W.contents writer.new) (E.contents errors.new))) }
{
    let whole = is_whole(&gathered);
    let opened = open_gathered(alloc, gathered)?;
    let answered = tar_opened(alloc, source, &opened, whole, chosen, all, writer, errors);
    close_metadata(opened);
    answered
}

fn tar_opened<B: Blocks, W: Write, E: Write>(
    alloc: Global,
    source: &B,
    opened: &OpenedMetadata,
    whole: bool,
    chosen: Chosen<'_>,
    all: bool,
    writer: &mut W,
    errors: &mut E,
) -> Result<Answered, BlocksError>
    requires { (of : GatheredValue) × IsOpenedOf of opened.now }
    ensures ok { (of : GatheredValue) (bytes : List ℕ) → IsOpenedOf of opened.now → whole ≡ is_whole of → B.bytes source.now ≡ Some bytes → AreGathered (region_of bytes) of
        → IfOk result (λ answered. WritesLook (GivesArchive chosen.entry all) bytes (written (W.contents writer.old) (E.contents errors.old))
        (written (W.contents writer.new) (E.contents errors.new)) answered) }
    ensures err { (of : GatheredValue) (bytes : List ℕ) → IsOpenedOf of opened.now → whole ≡ is_whole of → B.bytes source.now ≡ Some bytes → AreGathered (region_of bytes) of
        → IfErr result (λ e. FailsBlocksCat (GivesArchive chosen.entry all) bytes e (written (W.contents writer.old) (E.contents errors.old))
        (written (W.contents writer.new) (E.contents errors.new))) }
{
    match opened {
        OpenedMetadata::Mounted(mount) => {
            let status = tar_mounted(alloc, source, mount, whole, chosen, all, writer, errors)?;
            Ok(Answered {
                status,
                faults: mount.faults().len(),
            })
        }
        OpenedMetadata::Refused(refusal) => {
            let look = refused_look(alloc, *refusal)?;
            write_text(errors, look.text.as_bytes())?;
            Ok(look.answered)
        }
    }
}

// Writes the archive of what is chosen in a mount, or why there is none. The bytes of files are read from the memory where it
// holds all bytes, with its journals rolled back, and else from the reader. Answers the exit status.
fn tar_mounted<B: Blocks, W: Write, E: Write>(
    alloc: Global,
    source: &B,
    mount: &Fs<MetadataRegion>,
    whole: bool,
    chosen: Chosen<'_>,
    all: bool,
    writer: &mut W,
    errors: &mut E,
) -> Result<u8, BlocksError>
    requires { AreSmallRows mount.now.rows }
    ensures ok { (R : Region) → AreReadFrom whole (B.bytes source.now) mount.now.memory R mount.now.rows
        → IfOk result (λ status. WritesTold (GivesArchive chosen.entry all) (tree_of R mount.now.rows) (written (W.contents writer.old) (E.contents errors.old))
        (written (W.contents writer.new) (E.contents errors.new)) status) }
    ensures err { (R : Region) → AreReadFrom whole (B.bytes source.now) mount.now.memory R mount.now.rows
        → IfErr result (λ e. FailsTold (GivesArchive chosen.entry all) (tree_of R mount.now.rows) e (written (W.contents writer.old) (E.contents errors.old))
        (written (W.contents writer.new) (E.contents errors.new))) }
{
    let rows = mount.rows();
    if whole {
        let held = HeldBytes::new(mount.memory().front());
        return tar_rows(alloc, &held, rows, chosen, all, writer, errors);
    }
    tar_rows(alloc, source, rows, chosen, all, writer, errors)
}

// Writes the archive of what is chosen among these rows, or why there is none. Answers the exit status.
fn tar_rows<B: Blocks, W: Write, E: Write>(
    alloc: Global,
    source: &B,
    rows: &Rows,
    chosen: Chosen<'_>,
    all: bool,
    writer: &mut W,
    errors: &mut E,
) -> Result<u8, BlocksError>
    requires { AreSmallRows rows.now.items }
    ensures ok { AreKnown (B.bytes source.now) rows.now.items
        → IfOk result (λ status. WritesTold (GivesArchive chosen.entry all) (shown_tree (B.bytes source.now) rows.now.items) (written (W.contents writer.old) (E.contents errors.old))
        (written (W.contents writer.new) (E.contents errors.new)) status) }
    ensures err { AreKnown (B.bytes source.now) rows.now.items
        → IfErr result (λ e. FailsTold (GivesArchive chosen.entry all) (shown_tree (B.bytes source.now) rows.now.items) e (written (W.contents writer.old) (E.contents errors.old))
        (written (W.contents writer.new) (E.contents errors.new))) }
{
    match inode_of(rows, chosen) {
        Ok(inode) => told(write_archive(alloc, source, rows, inode, chosen, all, writer)),
        Err(refusal) => {
            let status = write_refusal(alloc, refusal, errors)?;
            Ok(status)
        }
    }
}

// The exit status of an archive that was written, or why it wasn't.
fn told(written: Result<(), TarError>) -> Result<u8, BlocksError>
    ensures { result ≡ archive_status written }
{
    match written {
        Ok(()) => Ok(0),
        Err(TarError::Read(error)) => Err(BlocksError::Read(error)),
        Err(TarError::Answer(error)) => Err(BlocksError::Answer(error)),
    }
}
