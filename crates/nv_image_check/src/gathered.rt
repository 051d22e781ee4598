//! Checking a region by its metadata alone, which a reader of its bytes gathers.
//!
//! What is written is that of a check of all bytes.

ghost use Rattle.std.specs.Prelude.{◌≡◌, ◌≢◌, ◌≤◌, ℕ, List, Some, IfOk, IfErr, string_bytes};
ghost use Rattle.std.specs.Io.KnownBytes.{Appends};
ghost use Rattle.nv_stream.specs.Streams.{AppendsFront};
ghost use Rattle.nv_region.specs.Region.{Region, region_of};
ghost use Rattle.nv_super.specs.Super.{IsRefused};
ghost use Rattle.nv_metadata.specs.Gathered.{AreGathered, IsOpen};
ghost use Rattle.nv_image_check.specs.Checking.{IsCheckAs, WritesCheckAs, EndsCheckAs, FailsCheckAs};
ghost use Rattle.nv_image_check.specs.Gathered.{FailsBlocksCheck, KeepsUnread};
ghost use Rattle.nv_text.specs.declared.output.Output.{Output as OutputValue};

use crate::checking::{Checked, check_memory, is_worker_count, refused};
use nv_metadata::{Blocks, GatherError, Gathered, gather_on};
use nv_stream::{ScriptError, write_text};
use nv_super::SuperFault;
use nv_text::{Output, Refusal};
use std::alloc::{AllocError, Global};
use std::io;
use std::io::Write;
use std::thread::Threads;
use thiserror::Error;

/// Why an image that is read piece by piece was not checked.
#[derive(Clone, Copy, Debug, Error)]
pub enum BlocksError {
    /// Its length could not be told, or some of its bytes not be read, as the system's error says.
    #[error("{0}")]
    Read(io::Error),
    /// The answer can't be held in memory, or not be written.
    #[error("{0}")]
    Answer(ScriptError),
}

impl From<GatherError> for BlocksError {
    ghost use Rattle.nv_image_check.specs.Gathered.{ungathered};

    ghost from_gives = { λ error e. e ≡ ungathered error };

    fn from(error: GatherError) -> Self {
        match error {
            GatherError::Read(error) => BlocksError::Read(error),
            GatherError::Memory => BlocksError::Answer(ScriptError::Memory),
        }
    }
}

impl From<ScriptError> for BlocksError {
    ghost use Rattle.nv_image_check.specs.declared.gathered.BlocksError.TheVariants.{Answer};

    ghost from_gives = { λ error e. e ≡ Answer error };

    fn from(error: ScriptError) -> Self {
        BlocksError::Answer(error)
    }
}

impl From<AllocError> for BlocksError {
    ghost use Rattle.nv_image_check.specs.declared.gathered.BlocksError.TheVariants.{Answer};
    ghost use Rattle.nv_stream.specs.declared.fault.ScriptError.TheVariants as errors;

    ghost from_gives = { λ _ e. e ≡ Answer errors.Memory };

    fn from(_: AllocError) -> Self {
        BlocksError::Answer(ScriptError::Memory)
    }
}

/// Checks the image that a reader gives piece by piece: its metadata are read, and nothing else. What is written, and the exit
/// status, are those of `check_region_as` for all its bytes.
///
/// Errors: `Read` where the length isn't told or bytes can't be read, which doesn't happen where they are known, and nothing was
/// written then; `Answer` as of `check_region_as`.
pub fn check_blocks<B: Blocks + Sync, H: Threads + Sync, W: Write>(
    rt: &H,
    alloc: Global,
    source: &B,
    workers: u64,
    output: Output,
    writer: &mut W,
) -> Result<u8, BlocksError>
    ensures text { (bytes : List ℕ) → B.bytes source.now ≡ Some bytes → IfOk result (λ _. WritesCheckAs output bytes workers (W.contents writer.old) (W.contents writer.new)) }
    ensures status { (bytes : List ℕ) → B.bytes source.now ≡ Some bytes → IfOk result (λ status. EndsCheckAs output bytes workers (W.contents writer.old) (W.contents writer.new) status) }
    ensures err { (bytes : List ℕ) → B.bytes source.now ≡ Some bytes → IfErr result (λ e. FailsBlocksCheck output bytes workers e (W.contents writer.old) (W.contents writer.new)) }
    ensures unread { IfErr result (λ e. KeepsUnread e (W.contents writer.old) (W.contents writer.new)) }
{
    let gathered = gather_on(rt, alloc, source, workers)?;
    let status = check_gathered(rt, alloc, gathered, workers, output, writer)?;
    Ok(status)
}

/// Checks the region of which this was gathered. Its text, its status and its errors are those of `check_region_as`.
pub fn check_gathered<H: Threads + Sync, W: Write>(
    rt: &H,
    alloc: Global,
    gathered: Gathered,
    workers: u64,
    output: Output,
    writer: &mut W,
) -> Result<u8, ScriptError>
    requires { IsOpen gathered }
    ensures text { (bytes : List ℕ) → AreGathered (region_of bytes) gathered → IfOk result (λ _. WritesCheckAs output bytes workers (W.contents writer.old) (W.contents writer.new)) }
    ensures status { (bytes : List ℕ) → AreGathered (region_of bytes) gathered → IfOk result (λ status. EndsCheckAs output bytes workers (W.contents writer.old) (W.contents writer.new) status) }
    ensures err { (bytes : List ℕ) → AreGathered (region_of bytes) gathered → IfErr result (λ e. FailsCheckAs output bytes workers e (W.contents writer.old) (W.contents writer.new)) }
    ensures small { IfOk result (λ status. status ≤ 2) }
    ensures unread { IfErr result (λ e. e ≢ ScriptError.Read) }
{
    let checked = check_metadata(rt, alloc, gathered, workers, output)?;
    write_checked(&checked, writer)
}

/// Writes what a check prints, and answers its status.
pub(crate) fn write_checked<W: Write>(checked: &Checked, writer: &mut W) -> Result<u8, ScriptError>
    ensures ok { IfOk result (λ status. (status ≡ checked.now.status) × Appends (W.contents writer.old) (W.contents writer.new) (string_bytes checked.now.text)) }
    ensures err { IfErr result (λ e. (e ≡ ScriptError.Write) × AppendsFront (W.contents writer.old) (W.contents writer.new) (string_bytes checked.now.text)) }
{
    write_text(writer, checked.text.as_bytes())?;
    Ok(checked.status)
}

/// What a check of the region prints of which this was gathered, and its exit status.
pub(crate) fn check_metadata<H: Threads + Sync>(
    rt: &H,
    alloc: Global,
    gathered: Gathered,
    workers: u64,
    output: Output,
) -> Result<Checked, AllocError>
    requires { IsOpen gathered }
    ensures checked { (R : Region) → AreGathered R gathered → IfOk result (λ checked. IsCheckAs output R workers (string_bytes checked.text) checked.status) }
    ensures small { IfOk result (λ checked. checked.status ≤ 2) }
{
    match gathered {
        Gathered::Metadata(_, mut memory) => {
            check_memory(rt, alloc, &mut memory, workers, output)
        }
        Gathered::Refused(fault) => refuse_super(alloc, workers, fault),
    }
}

// What a check by so many workers says of a region whose superblock has this fault first.
fn refuse_super(alloc: Global, workers: u64, fault: SuperFault) -> Result<Checked, AllocError>
    ensures checked { (R : Region) (output : OutputValue) → IsRefused R fault → IfOk result (λ checked. IsCheckAs output R workers (string_bytes checked.text) checked.status) }
    ensures small { IfOk result (λ checked. checked.status ≤ 2) }
{
    if !is_worker_count(workers) {
        return refused(alloc, Refusal::Workers);
    }
    refused(alloc, Refusal::Super(fault))
}
