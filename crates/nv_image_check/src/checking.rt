//! Checking a region that is given as bytes: it is recovered over them, and its report is written.
//!
//! A recovery stores words in blocks in which slots can stand alone, and only where it rolls journals back. In version 1 those
//! are the blocks in front of the data blocks. So the bytes are copied up to the last of these words, and else not at all.

ghost use Rattle.std.specs.Prelude.{◌≡◌, false, IfOk, IfErr, OnOk, string_bytes};
ghost use Rattle.nv_region.specs.Region.{region_of};
ghost use Rattle.nv_region.specs.ImageState.{is_open_to};
ghost use Rattle.nv_text.specs.Refusals.{refusal_name};
ghost use Rattle.nv_image_check.specs.Answering.{IsOpenInFront};
ghost use Rattle.nv_report.specs.Last.{how_it_went, status_of};
ghost use Rattle.nv_image_check.specs.Workers.{is_worker_count};
ghost use Rattle.nv_image_check.specs.Checking.{IsCheckAs, IsRefusal, WritesCheck, EndsCheck, FailsCheck, WritesCheckAs, EndsCheckAs, FailsCheckAs};

use crate::gone::let_found_go;
use crate::output::output_text;
use crate::recovering::recover_region;
use crate::recovery::Answer;
use nv_recover::{MOST_WORKERS, slots_end};
use nv_region::{ImageRegion, Pmem, RegionRefusal};
use nv_report::{Last, how_it_went, refused_text};
use nv_stream::{ScriptError, write_text};
use nv_super::{Fault, SuperFault, read_super};
use nv_text::{Output, Refusal};
use std::alloc::{AllocError, Global};
use std::io::Write;
use std::thread::Threads;

/// What a check prints, and its exit status.
#[derive(Drop)]
pub(crate) struct Checked {
    pub text: String,
    pub status: u8,
}

/// Recovers the region of these bytes in memory by 1 to 64 workers on threads of their own, and writes its report, or
/// `refused NAME`. Answers the exit status: 0 without faults, 1 with faults, and 2 where it was refused.
///
/// It is refused as `Workers`, which is tested first, or by the first fault of its superblock, which is `S1` for a length
/// that no region has.
///
/// Errors: `Memory` where a growth was refused, and nothing was written then; `Write` where the writer failed, and a
/// front of the text was written then.
pub fn check_region<H: Threads + Sync, W: Write>(
    rt: &H,
    alloc: Global,
    bytes: &[u8],
    workers: u64,
    writer: &mut W,
) -> Result<u8, ScriptError>
    ensures text { IfOk result (λ _. WritesCheck bytes.now workers (W.contents writer.old) (W.contents writer.new)) }
    ensures status { IfOk result (λ status. EndsCheck bytes.now workers (W.contents writer.old) (W.contents writer.new) status) }
    ensures err { IfErr result (λ e. FailsCheck bytes.now workers e (W.contents writer.old) (W.contents writer.new)) }
{
    check_region_as(rt, alloc, bytes, workers, Output::Report, writer)
}

/// `check_region`, which writes this of a region that isn't refused: the whole report, one line of sums, or the faults
/// alone. The exit status and the errors are the same.
pub fn check_region_as<H: Threads + Sync, W: Write>(
    rt: &H,
    alloc: Global,
    bytes: &[u8],
    workers: u64,
    output: Output,
    writer: &mut W,
) -> Result<u8, ScriptError>
    ensures text { IfOk result (λ _. WritesCheckAs output bytes.now workers (W.contents writer.old) (W.contents writer.new)) }
    ensures status { IfOk result (λ status. EndsCheckAs output bytes.now workers (W.contents writer.old) (W.contents writer.new) status) }
    ensures err { IfErr result (λ e. FailsCheckAs output bytes.now workers e (W.contents writer.old) (W.contents writer.new)) }
{
    let checked = check_bytes(rt, alloc, bytes, workers, output)?;
    write_text(writer, checked.text.as_bytes())?;
    Ok(checked.status)
}

pub(crate) fn check_bytes<H: Threads + Sync>(
    rt: &H,
    alloc: Global,
    bytes: &[u8],
    workers: u64,
    output: Output,
) -> Result<Checked, AllocError>
    ensures { IfOk result (λ checked. IsCheckAs output (region_of bytes.now) workers (string_bytes checked.text) checked.status) }
{
    if !is_worker_count(workers) {
        return refused(alloc, Refusal::Workers);
    }
    match ImageRegion::from_bytes(alloc, bytes) {
        Ok(mut image) => {
            open_system(&mut image)?;
            check_memory(rt, alloc, &mut image, workers, output)
        }
        Err(RegionRefusal::Length) => refused(alloc, Refusal::Super(SuperFault::Length)),
        Err(RegionRefusal::Memory) => Err(AllocError),
    }
}

// Opens all blocks in which slots can stand, where the superblock is accepted: in version 1 those in front of the data blocks.
pub(crate) fn open_system(image: &mut ImageRegion) -> Result<(), AllocError>
    requires { image.old.burnt ≡ false }
    ensures same { image.new.region ≡ image.old.region }
    ensures open { OnOk result (IsOpenInFront image.new.region (is_open_to image.new)) }
{
    match read_super(image) {
        Ok(sup) => image.open_front(slots_end(&sup)),
        Err(_) => Ok(()),
    }
}

/// Checks the region that a memory holds whose blocks in which slots can stand take stores.
pub(crate) fn check_memory<P: Pmem + Sync, H: Threads + Sync>(
    rt: &H,
    alloc: Global,
    memory: &mut P,
    workers: u64,
    output: Output,
) -> Result<Checked, AllocError>
    requires { IsOpenInFront (P.region memory.old) (P.fuse memory.old).is_open }
    ensures { IfOk result (λ checked. IsCheckAs output (P.region memory.old) workers (string_bytes checked.text) checked.status) }
{
    let answer = recover_region(rt, alloc, memory, workers)?;
    match answer {
        Answer::Recovered(recovered) => {
            let made = output_text(rt, alloc, &recovered, output, workers);
            let status = status_of(&recovered.faults);
            let_found_go(recovered);
            let text = made?;
            Ok(Checked { text, status })
        }
        Answer::Refused(refusal) => refused(alloc, refusal),
    }
}

/// The exit status of a check whose report has these faults.
pub(crate) fn status_of(faults: &[Fault]) -> u8
    ensures { result ≡ status_of (how_it_went faults.now) }
{
    how_it_went(faults).status()
}

/// That a check is refused.
pub(crate) fn refused(alloc: Global, refusal: Refusal) -> Result<Checked, AllocError>
    ensures { IfOk result (λ checked. IsRefusal (refusal_name refusal) (string_bytes checked.text) checked.status) }
{
    Ok(Checked {
        text: refused_text(alloc, refusal)?,
        status: Last::Refused.status(),
    })
}

/// Whether there can be so many workers.
pub(crate) fn is_worker_count(workers: u64) -> bool
    ensures { result ≡ is_worker_count workers }
{
    1 <= workers && workers <= MOST_WORKERS
}
