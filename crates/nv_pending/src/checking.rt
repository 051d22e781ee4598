//! Checks that tell above the report what the journals would roll back.

ghost use Rattle.std.specs.Prelude.{◌≡◌, IfOk, string_bytes};
ghost use Rattle.nv_region.specs.Region.{region_of};
ghost use Rattle.nv_pending.specs.Above.{IsJournalsText, WritesAbove, WritesImageAbove, journals_text};

use nv_image_check::check_region;
use nv_image_files::{
    Failure, Image, image_at, refuse_length, tell_explain, tell_length, tell_refused,
};
use nv_records::{Journals, find_pending, records_text};
use nv_region::{ImageRegion, RegionRefusal};
use nv_stream::{ScriptError, write_text};
use std::alloc::{AllocError, Global};
use std::io;
use std::io::Write;
use std::rt::Files;
use std::thread::Threads;

// The status of a check that shows faults.
const FAULTY: u8 = 1;

/// Checks the image in the file at a path as `check_file` of nv_image_check does, and prints above the whole report the pending
/// records of its journals. For this the image is read whole.
///
/// Errors: a file that can't be read, and want of memory or of a place to write to.
pub(crate) fn check_journals<'a, H: Files + AllocGlobal + Print + Eprint + Threads + Sync>(
    rt: &H,
    path: &'a str,
    workers: u32,
) -> Result<u8, Failure<'a>> {
    let image = image_at(rt, path)?;
    let status = check_image(rt, &image, u64::from(workers), &mut io::writer(rt))?;
    match &image {
        Image::Bytes(bytes) => tell_refused(rt, status, bytes),
        Image::TooLong(length) => tell_length(rt, *length),
    }
    if status == FAULTY {
        tell_explain(rt);
    }
    Ok(status)
}

// An image that is longer than a region can be is refused as `S1`.
fn check_image<H: AllocGlobal + Threads + Sync, W: Write>(
    rt: &H,
    image: &Image,
    workers: u64,
    writer: &mut W,
) -> Result<u8, ScriptError>
    ensures { IfOk result (WritesImageAbove image.now workers (W.contents writer.old) (W.contents writer.new)) }
{
    match image {
        Image::Bytes(bytes) => {
            check_region_with_journals(rt, rt.alloc(), bytes, workers, writer)
        }
        Image::TooLong(_) => refuse_length(writer),
    }
}

/// `check_region` of nv_image_check, which writes above the report the pending records of the journals, and how many they are.
/// Where the superblock isn't accepted, nothing is written above.
///
/// Errors: `Memory` where a growth was refused; `Write` where the writer failed.
pub fn check_region_with_journals<H: Threads + Sync, W: Write>(
    rt: &H,
    alloc: Global,
    bytes: &[u8],
    workers: u64,
    writer: &mut W,
) -> Result<u8, ScriptError>
    ensures { IfOk result (WritesAbove bytes.now workers (W.contents writer.old) (W.contents writer.new)) }
{
    let text = journals_text(alloc, bytes)?;
    write_text(writer, text.as_bytes())?;
    check_region(rt, alloc, bytes, workers, writer)
}

// The pending records of the region of these bytes.
fn journals_text(alloc: Global, bytes: &[u8]) -> Result<String, AllocError>
    ensures { IfOk result (λ text. IsJournalsText (region_of bytes.now) (string_bytes text)) }
{
    match ImageRegion::from_bytes(alloc, bytes) {
        Ok(image) => pending_text(alloc, &find_pending(alloc, &image)?),
        Err(RegionRefusal::Length) => Ok(String::new(alloc)),
        Err(RegionRefusal::Memory) => Err(AllocError),
    }
}

fn pending_text(alloc: Global, journals: &Journals) -> Result<String, AllocError>
    ensures { IfOk result (λ text. string_bytes text ≡ journals_text journals.now) }
{
    match journals {
        Journals::Pending { records, .. } => records_text(alloc, records),
        Journals::Refused(_) => Ok(String::new(alloc)),
    }
}
