//! The map of a region that is given as bytes, or by a reader of them: it is recovered, and what its blocks are used for is told.

ghost use Rattle.std.specs.Prelude.{◌≡◌, ℕ, List, Some, IfOk, IfErr, string_bytes};
ghost use Rattle.nv_region.specs.Region.{Region, region_of};
ghost use Rattle.nv_metadata.specs.Gathered.{AreGathered, IsOpen};
ghost use Rattle.nv_image_check.specs.Mapping.{IsMapped, mapped_text, mapped_answer, WritesMap, FailsMap};

use crate::answered::Answered;
use crate::gathered_image::{GatheredImage, recover_gathered};
use crate::gone::let_go;
use crate::imaging::{Image, recover_image};
use nv_map::{Cells, cells_of, cells_text};
use nv_metadata::{Blocks, GatherError, Gathered, gather};
use nv_report::Last;
use nv_stream::{ScriptError, write_text};
use nv_text::Refusal;
use std::alloc::{AllocError, Global};
use std::io::Write;

/// What the blocks of a region are used for, or why it is refused.
#[derive(Drop)]
pub enum Mapped {
    /// The cells, and how many faults the region has.
    Cells { cells: Cells, faults: usize },
    /// The first fault of its superblock.
    Refused(Refusal),
}

/// Maps the region of these bytes in at most `most` cells (one, if that is 0) of as few blocks as can be.
///
/// Errors: `AllocError` where a growth was refused.
pub fn map_cells(alloc: Global, bytes: &[u8], most: u64) -> Result<Mapped, AllocError>
    ensures { IfOk result (IsMapped (region_of bytes.now) most) }
{
    let image = recover_image(alloc, bytes)?;
    match image {
        Image::Recovered(memory, recovered) => {
            let made = cells_of(alloc, &recovered, most);
            let faults = recovered.faults.len();
            let_go(memory, recovered);
            let cells = made?;
            Ok(Mapped::Cells { cells, faults })
        }
        Image::Refused(refusal) => Ok(Mapped::Refused(refusal)),
    }
}

/// Maps the region that a reader gives piece by piece, as `map_cells` does of all its bytes: its metadata are read, and nothing
/// else.
///
/// Errors: `Read` where the length isn't told or bytes can't be read, which doesn't happen where they are known; `Memory` where
/// a growth was refused.
pub fn map_blocks<B: Blocks>(alloc: Global, source: &B, most: u64) -> Result<Mapped, GatherError>
    ensures map { (bytes : List ℕ) → B.bytes source.now ≡ Some bytes → IfOk result (IsMapped (region_of bytes) most) }
    ensures known { (bytes : List ℕ) → B.bytes source.now ≡ Some bytes → IfErr result (λ e. e ≡ GatherError.Memory) }
{
    let gathered = gather(alloc, source)?;
    Ok(map_gathered(alloc, gathered, most)?)
}

/// Maps the region of which this was gathered, as `map_cells` does of all its bytes. Errors: `AllocError` where a growth was
/// refused.
pub fn map_gathered(alloc: Global, gathered: Gathered, most: u64) -> Result<Mapped, AllocError>
    requires { IsOpen gathered }
    ensures { (R : Region) → AreGathered R gathered → IfOk result (IsMapped R most) }
{
    let image = recover_gathered(alloc, gathered)?;
    match image {
        GatheredImage::Recovered(memory, found) => {
            let made = cells_of(alloc, &found, most);
            let faults = found.faults.len();
            let_go(memory, found);
            let cells = made?;
            Ok(Mapped::Cells { cells, faults })
        }
        GatheredImage::Refused(refusal) => Ok(Mapped::Refused(refusal)),
    }
}

/// Writes the text of a map, and nothing of a region that is refused.
///
/// Errors: `Memory` where a growth was refused, and nothing was written then; `Write` where the writer failed, and a front
/// of the text was written then.
pub fn write_map<W: Write>(
    alloc: Global,
    mapped: &Mapped,
    writer: &mut W,
) -> Result<Answered, ScriptError>
    ensures ok { IfOk result (λ answered. WritesMap mapped.now (W.contents writer.old) (W.contents writer.new) answered) }
    ensures err { IfErr result (λ e. FailsMap mapped.now e (W.contents writer.old) (W.contents writer.new)) }
{
    let text = mapped_text(alloc, mapped)?;
    write_text(writer, text.as_bytes())?;
    Ok(answered(mapped))
}

fn mapped_text(alloc: Global, mapped: &Mapped) -> Result<String, AllocError>
    ensures { IfOk result (λ text. string_bytes text ≡ mapped_text mapped.now) }
{
    match mapped {
        Mapped::Cells { cells, .. } => cells_text(alloc, cells),
        Mapped::Refused(_) => Ok(String::new(alloc)),
    }
}

/// What comes of a map.
pub(crate) fn answered(mapped: &Mapped) -> Answered
    ensures { result ≡ mapped_answer mapped.now }
{
    match mapped {
        Mapped::Cells { faults, .. } => Answered {
            status: Last::Sound.status(),
            faults: *faults,
        },
        Mapped::Refused(_) => Answered {
            status: Last::Refused.status(),
            faults: 0,
        },
    }
}
