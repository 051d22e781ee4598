//! Looking into a region by its metadata alone, which a reader of its bytes gathers.
//!
//! What is written is that of a look into all its bytes.

ghost use Rattle.std.specs.Prelude.{◌≡◌, ◌≢◌, ℕ, List, Some, IfOk, IfErr, string_bytes};
ghost use Rattle.nv_region.specs.Region.{Region, region_of};
ghost use Rattle.nv_metadata.specs.Gathered.{AreGathered, IsOpen};
ghost use Rattle.nv_metadata.specs.declared.gathering.Gathered.{Gathered as GatheredValue};
ghost use Rattle.nv_looks.specs.Sent.{written};
ghost use Rattle.nv_looks.specs.Looking.{IsLook, ListsNames, TellsNumbers, WritesLook, FailsLook};
ghost use Rattle.nv_looks.specs.Gathered.{IsOpenedOf, FailsBlocksLook, KeepsBothUnread, is_whole};

use crate::looking::{Look, refused_look, told_look, write_look};
use nv_image_check::{Answered, BlocksError, GatheredImage, recover_gathered};
use nv_metadata::{Blocks, Gathered, MetadataRegion, gather};
use nv_session::{Fs, list_text, stat_text};
use nv_stream::ScriptError;
use nv_super::WITH_CHAINS;
use nv_text::Refusal;
use std::alloc::{AllocError, Global};
use std::io::Write;

// The metadata of a region, mounted with what was found in it, or why it isn't.
#[derive(Drop)]
pub(crate) enum OpenedMetadata {
    Mounted(Fs<MetadataRegion>),
    Refused(Refusal),
}

/// Writes the names of the directory in the region that a reader gives piece by piece, as `list_image` writes those of all its
/// bytes: its metadata are read, and nothing else.
///
/// Errors: `Read` where the length isn't told or bytes can't be read, which doesn't happen where they are known, and nothing was
/// written then; `Answer` as of `list_image`.
pub fn list_blocks<B: Blocks, W: Write, E: Write>(
    alloc: Global,
    source: &B,
    path: &[u8],
    writer: &mut W,
    errors: &mut E,
) -> Result<Answered, BlocksError>
    ensures ok { (bytes : List ℕ) → B.bytes source.now ≡ Some bytes
        → IfOk result (λ answered. WritesLook (ListsNames path.now) bytes (written (W.contents writer.old) (E.contents errors.old))
        (written (W.contents writer.new) (E.contents errors.new)) answered) }
    ensures err { (bytes : List ℕ) → B.bytes source.now ≡ Some bytes
        → IfErr result (λ e. FailsBlocksLook (ListsNames path.now) bytes e (written (W.contents writer.old) (E.contents errors.old)) (written (W.contents writer.new) (E.contents errors.new))) }
    ensures unread { IfErr result (λ e. KeepsBothUnread e (written (W.contents writer.old) (E.contents errors.old)) (written (W.contents writer.new) (E.contents errors.new))) }
{
    let gathered = gather(alloc, source)?;
    let answered = list_gathered(alloc, gathered, path, writer, errors)?;
    Ok(answered)
}

/// Writes the names of the directory in the region of which this was gathered. Its text, its status and its errors are those of
/// `list_image`.
pub fn list_gathered<W: Write, E: Write>(
    alloc: Global,
    gathered: Gathered,
    path: &[u8],
    writer: &mut W,
    errors: &mut E,
) -> Result<Answered, ScriptError>
    requires { IsOpen gathered }
    ensures ok { (bytes : List ℕ) → AreGathered (region_of bytes) gathered
        → IfOk result (λ answered. WritesLook (ListsNames path.now) bytes (written (W.contents writer.old) (E.contents errors.old))
        (written (W.contents writer.new) (E.contents errors.new)) answered) }
    ensures err { (bytes : List ℕ) → AreGathered (region_of bytes) gathered
        → IfErr result (λ e. FailsLook (ListsNames path.now) bytes e (written (W.contents writer.old) (E.contents errors.old)) (written (W.contents writer.new) (E.contents errors.new))) }
    ensures unread { IfErr result (λ e. e ≢ ScriptError.Read) }
{
    let look = look_at_names(alloc, gathered, path)?;
    write_look(&look, writer, errors)?;
    Ok(look.answered)
}

/// Writes the numbers of the inode in the region that a reader gives piece by piece, as `stat_image` writes those of all its
/// bytes. Errors as of `list_blocks`.
pub fn stat_blocks<B: Blocks, W: Write, E: Write>(
    alloc: Global,
    source: &B,
    path: &[u8],
    writer: &mut W,
    errors: &mut E,
) -> Result<Answered, BlocksError>
    ensures ok { (bytes : List ℕ) → B.bytes source.now ≡ Some bytes
        → IfOk result (λ answered. WritesLook (TellsNumbers path.now) bytes (written (W.contents writer.old) (E.contents errors.old))
        (written (W.contents writer.new) (E.contents errors.new)) answered) }
    ensures err { (bytes : List ℕ) → B.bytes source.now ≡ Some bytes
        → IfErr result (λ e. FailsBlocksLook (TellsNumbers path.now) bytes e (written (W.contents writer.old) (E.contents errors.old)) (written (W.contents writer.new) (E.contents errors.new))) }
    ensures unread { IfErr result (λ e. KeepsBothUnread e (written (W.contents writer.old) (E.contents errors.old)) (written (W.contents writer.new) (E.contents errors.new))) }
{
    let gathered = gather(alloc, source)?;
    let answered = stat_gathered(alloc, gathered, path, writer, errors)?;
    Ok(answered)
}

/// Writes the numbers of the inode in the region of which this was gathered. Its text, its status and its errors are those of
/// `stat_image`.
pub fn stat_gathered<W: Write, E: Write>(
    alloc: Global,
    gathered: Gathered,
    path: &[u8],
    writer: &mut W,
    errors: &mut E,
) -> Result<Answered, ScriptError>
    requires { IsOpen gathered }
    ensures ok { (bytes : List ℕ) → AreGathered (region_of bytes) gathered
        → IfOk result (λ answered. WritesLook (TellsNumbers path.now) bytes (written (W.contents writer.old) (E.contents errors.old))
        (written (W.contents writer.new) (E.contents errors.new)) answered) }
    ensures err { (bytes : List ℕ) → AreGathered (region_of bytes) gathered
        → IfErr result (λ e. FailsLook (TellsNumbers path.now) bytes e (written (W.contents writer.old) (E.contents errors.old)) (written (W.contents writer.new) (E.contents errors.new))) }
    ensures unread { IfErr result (λ e. e ≢ ScriptError.Read) }
{
    let look = look_at_numbers(alloc, gathered, path)?;
    write_look(&look, writer, errors)?;
    Ok(look.answered)
}

fn look_at_names(alloc: Global, gathered: Gathered, path: &[u8]) -> Result<Look, AllocError>
    requires { IsOpen gathered }
    ensures { (R : Region) → AreGathered R gathered → IfOk result (λ look. IsLook (ListsNames path.now) R (string_bytes look.text) look.answered) }
{
    let opened = open_gathered(alloc, gathered)?;
    let look = names_in(alloc, &opened, path);
    close_metadata(opened);
    look
}

fn names_in(alloc: Global, opened: &OpenedMetadata, path: &[u8]) -> Result<Look, AllocError>
    ensures { (of : GatheredValue) (R : Region) → IsOpenedOf of opened.now → AreGathered R of → IfOk result (λ look. IsLook (ListsNames path.now) R (string_bytes look.text) look.answered) }
{
    match opened {
        OpenedMetadata::Mounted(mount) => {
            let told = list_text(alloc, mount, path)?;
            Ok(told_look(told, mount.faults().len()))
        }
        OpenedMetadata::Refused(refusal) => refused_look(alloc, *refusal),
    }
}

fn look_at_numbers(alloc: Global, gathered: Gathered, path: &[u8]) -> Result<Look, AllocError>
    requires { IsOpen gathered }
    ensures { (R : Region) → AreGathered R gathered → IfOk result (λ look. IsLook (TellsNumbers path.now) R (string_bytes look.text) look.answered) }
{
    let opened = open_gathered(alloc, gathered)?;
    let look = numbers_in(alloc, &opened, path);
    close_metadata(opened);
    look
}

fn numbers_in(alloc: Global, opened: &OpenedMetadata, path: &[u8]) -> Result<Look, AllocError>
    ensures { (of : GatheredValue) (R : Region) → IsOpenedOf of opened.now → AreGathered R of → IfOk result (λ look. IsLook (TellsNumbers path.now) R (string_bytes look.text) look.answered) }
{
    match opened {
        OpenedMetadata::Mounted(mount) => {
            let told = stat_text(alloc, mount, path)?;
            Ok(told_look(told, mount.faults().len()))
        }
        OpenedMetadata::Refused(refusal) => refused_look(alloc, *refusal),
    }
}

// Lets go of what was opened. A mount drops what it holds where it gives its memory back.
pub(crate) fn close_metadata(opened: OpenedMetadata) {
    match opened {
        OpenedMetadata::Mounted(mount) => {
            let _memory = mount.into_memory();
        }
        OpenedMetadata::Refused(_) => {}
    }
}

// Whether all bytes of the region are held: so they are in version 2.
pub(crate) fn is_whole(gathered: &Gathered) -> bool
    ensures { result ≡ is_whole gathered.now }
{
    match gathered {
        Gathered::Metadata(sup, _) => sup.version == WITH_CHAINS,
        Gathered::Refused(_) => false,
    }
}

// Recovers the region of which this was gathered on this thread, and mounts its metadata.
pub(crate) fn open_gathered(alloc: Global, gathered: Gathered) -> Result<OpenedMetadata, AllocError>
    requires { IsOpen gathered }
    ensures { IfOk result (IsOpenedOf gathered) }
{
    let image = recover_gathered(alloc, gathered)?;
    match image {
        GatheredImage::Recovered(memory, recovered) => Ok(OpenedMetadata::Mounted(Fs::open(
            alloc, memory, recovered,
        ))),
        GatheredImage::Refused(refusal) => Ok(OpenedMetadata::Refused(refusal)),
    }
}
