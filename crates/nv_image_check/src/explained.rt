//! Checking a region that is given as bytes, where of each fault a sentence below the report says what is wrong.

ghost use Rattle.std.specs.Prelude.{◌≡◌, IfOk, IfErr, string_bytes};
ghost use Rattle.nv_region.specs.Region.{region_of};
ghost use Rattle.nv_outcome.specs.Answer.{outcome_of};
ghost use Rattle.nv_journal.specs.Undo.{undone};
ghost use Rattle.nv_image_check.specs.Answering.{IsOpenInFront};
ghost use Rattle.nv_image_check.specs.Explained.{IsExplained, IsExplainedText, WritesExplained, FailsExplained};

use crate::checking::{Checked, is_worker_count, open_system, refused, status_of};
use crate::gathered::write_checked;
use crate::gone::let_found_go;
use crate::recovering::recover_region;
use crate::recovery::Answer;
use crate::sentences::push_sentences;
use nv_region::{ImageRegion, Pmem, RegionRefusal};
use nv_report::{Part, Recovered, part_text};
use nv_stream::ScriptError;
use nv_super::SuperFault;
use nv_text::Refusal;
use std::alloc::{AllocError, Global};
use std::io::Write;
use std::thread::Threads;

/// `check_region`, which writes below the report of each fault in a sentence where it is, which word stands there once the
/// journals are rolled back, and what holds in a sound region. The exit status and the errors are the same.
pub fn explain_region<H: Threads + Sync, W: Write>(
    rt: &H,
    alloc: Global,
    bytes: &[u8],
    workers: u64,
    writer: &mut W,
) -> Result<u8, ScriptError>
    ensures ok { IfOk result (λ status. WritesExplained bytes.now workers (W.contents writer.old) (W.contents writer.new) status) }
    ensures err { IfErr result (λ e. FailsExplained bytes.now workers e (W.contents writer.old) (W.contents writer.new)) }
{
    let checked = explain_bytes(rt, alloc, bytes, workers)?;
    write_checked(&checked, writer)
}

fn explain_bytes<H: Threads + Sync>(
    rt: &H,
    alloc: Global,
    bytes: &[u8],
    workers: u64,
) -> Result<Checked, AllocError>
    ensures { IfOk result (λ checked. IsExplained (region_of bytes.now) workers (string_bytes checked.text) checked.status) }
{
    if !is_worker_count(workers) {
        return refused(alloc, Refusal::Workers);
    }
    match ImageRegion::from_bytes(alloc, bytes) {
        Ok(mut image) => {
            open_system(&mut image)?;
            explain_memory(rt, alloc, &mut image, workers)
        }
        Err(RegionRefusal::Length) => refused(alloc, Refusal::Super(SuperFault::Length)),
        Err(RegionRefusal::Memory) => Err(AllocError),
    }
}

// Checks the region that a memory holds whose blocks in which slots can stand take stores.
fn explain_memory<P: Pmem + Sync, H: Threads + Sync>(
    rt: &H,
    alloc: Global,
    memory: &mut P,
    workers: u64,
) -> Result<Checked, AllocError>
    requires { IsOpenInFront (P.region memory.old) (P.fuse memory.old).is_open }
    ensures { IfOk result (λ checked. IsExplained (P.region memory.old) workers (string_bytes checked.text) checked.status) }
{
    let answer = recover_region(rt, alloc, memory, workers)?;
    match answer {
        Answer::Recovered(recovered) => {
            let made = explained_text(alloc, memory, &recovered);
            let status = status_of(&recovered.faults);
            let_found_go(recovered);
            let text = made?;
            Ok(Checked { text, status })
        }
        Answer::Refused(refusal) => refused(alloc, refusal),
    }
}

// The report of a recovery, and the sentences of its faults by the words of the memory.
fn explained_text<P: Pmem>(
    alloc: Global,
    memory: &P,
    recovered: &Recovered,
) -> Result<String, AllocError>
    requires { recovered.now.tables.layout.sup ≡ recovered.now.sup }
    ensures { IfOk result (λ text. IsExplainedText (P.region memory.now) (outcome_of recovered.now) (string_bytes text)) }
{
    let mut text = part_text(alloc, recovered, Part::Report)?;
    push_sentences(&mut text, memory, &recovered.tables, &recovered.faults)?;
    Ok(text)
}
