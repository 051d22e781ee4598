//! The metadata of the image in a plain file, which are read where they stand.

ghost use Rattle.std.specs.Prelude.{◌≡◌, ℕ, List, Some, IfOk, IfErr, IfSome};
ghost use Rattle.nv_region.specs.Region.{region_of};
ghost use Rattle.nv_super.specs.Super.{IsRefused};
ghost use Rattle.nv_image_files.specs.Images.{IsUnread};
ghost use Rattle.nv_image_files.specs.Superblocks.{said_of, known_content};
ghost use Rattle.nv_metadata.specs.Gathered.{AreGathered, IsOpen};
ghost use Rattle.nv_image_check.specs.Gathered.{TellsWhy};

use nv_image_files::{Failure, ImageFile, Reason, Unaccepted, why_file_refused};
use nv_metadata::{Blocks, GatherError, Gathered, gather_on};
use nv_stream::{Opened, ScriptError, Stamp};
use nv_super::SuperFault;
use std::alloc::Global;
use std::fs::OpenFile;
use std::io;
use std::io::{Error, ErrorKind};
use std::thread::Threads;

/// How many threads read the pages of logs where nobody says how many.
pub const READERS: u64 = 4;

// The bytes of the first block.
const FIRST_BLOCK: usize = 4096;

/// Gathers the metadata of the image in an open file, where it is a plain file that tells its length, or the fault for which its
/// superblock is refused. Any other file has to be read whole: of it nothing is answered, and it is read from its first byte on as
/// before. As many threads as asked for read the pages of logs.
///
/// Errors: a file that can't be read, that ends early, or that was changed meanwhile; want of memory.
pub fn gather_plain<'a, H: Threads + Sync, F: Blocks + OpenFile + Sync + Drop>(
    rt: &H,
    alloc: Global,
    file: &ImageFile<'a, F>,
    threads: u64,
) -> Result<Option<Gathered>, Failure<'a>>
    ensures open { IfOk result (λ found. IfSome found IsOpen) }
    ensures gathered { (image : List ℕ) → F.bytes file.now.opened.file ≡ Some image → IfOk result (λ found. IfSome found (AreGathered (region_of image))) }
    ensures error { IfErr result (IsUnread file.now.path) }
{
    match gather_unchanged(rt, alloc, &file.opened, threads) {
        Ok(found) => Ok(found),
        Err(GatherError::Read(error)) => Err(cannot_read(file.path, error)),
        Err(GatherError::Memory) => Err(Failure::Answer(ScriptError::Memory)),
    }
}

/// Why the image in an open plain file isn't accepted, of which this was gathered; nothing where it is. Its length and its first
/// block are read for that.
///
/// Errors: a file that can't be read, or that was changed meanwhile.
pub fn why_plain_refused<'a, F: Blocks + OpenFile + Drop>(
    file: &ImageFile<'a, F>,
    gathered: &Gathered,
) -> Result<Option<Unaccepted>, Failure<'a>>
    ensures told { (image : List ℕ) → F.bytes file.now.opened.file ≡ Some image → AreGathered (region_of image) gathered.now → IfOk result (TellsWhy image gathered.now) }
    ensures error { IfErr result (IsUnread file.now.path) }
{
    match gathered {
        Gathered::Metadata(_, _) => Ok(None),
        Gathered::Refused(fault) => match why_unchanged(&file.opened, *fault) {
            Ok(why) => Ok(Some(why)),
            Err(error) => Err(cannot_read(file.path, error)),
        },
    }
}

/// Sees that an image's file is as it was when it was opened. Errors: a file that was changed since, and one of which that isn't
/// told.
pub fn see_unchanged<'a, F: OpenFile + Drop>(file: &ImageFile<'a, F>) -> Result<(), Failure<'a>>
    ensures { IfErr result (IsUnread file.now.path) }
{
    match keeps_stamp(&file.opened) {
        Ok(()) => Ok(()),
        Err(error) => Err(cannot_read(file.path, error)),
    }
}

// That the image in the file at a path can't be read.
fn cannot_read<'a>(path: &'a str, error: Error) -> Failure<'a>
    ensures { IsUnread path.entry result }
{
    Failure::CannotRead(path, Reason::System(error))
}

// Why the image in a plain file isn't accepted, unless the file was changed meanwhile.
fn why_unchanged<F: Blocks + OpenFile + Drop>(
    opened: &Opened<F>,
    fault: SuperFault,
) -> io::Result<Unaccepted>
    ensures words { (image : List ℕ) → F.bytes opened.now.file ≡ Some image → IsRefused (region_of image) fault → IfOk result (λ why. why.words ≡ said_of (region_of image) fault) }
    ensures content { (image : List ℕ) → F.bytes opened.now.file ≡ Some image → IfOk result (λ why. why.content ≡ known_content image) }
{
    let count = opened.file.len()?;
    let mut block = [0; FIRST_BLOCK];
    let first = &mut block[..FIRST_BLOCK.min(count as usize)];
    opened.file.read(0, first)?;
    keeps_stamp(opened)?;
    Ok(why_file_refused(fault, count, first))
}

// The metadata of the image in a plain file that tells its length, or the fault of its superblock, unless the file was changed
// meanwhile.
fn gather_unchanged<H: Threads + Sync, F: Blocks + OpenFile + Sync + Drop>(
    rt: &H,
    alloc: Global,
    opened: &Opened<F>,
    threads: u64,
) -> Result<Option<Gathered>, GatherError>
    ensures open { IfOk result (λ found. IfSome found IsOpen) }
    ensures gathered { (image : List ℕ) → F.bytes opened.now.file ≡ Some image → IfOk result (λ found. IfSome found (AreGathered (region_of image))) }
{
    if !opened.file.metadata()?.is_file() || opened.stamp.length == 0 {
        return Ok(None);
    }
    let gathered = gather_on(rt, alloc, &opened.file, threads)?;
    keeps_stamp(opened)?;
    Ok(Some(gathered))
}

// Fails where a file isn't as it was when it was opened.
fn keeps_stamp<F: OpenFile + Drop>(opened: &Opened<F>) -> io::Result<()> {
    if Stamp::of(&opened.file.metadata()?) == opened.stamp {
        return Ok(());
    }
    Err(Error::new(ErrorKind::Other, "it was changed while it was read"))
}
