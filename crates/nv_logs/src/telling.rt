//! Looks that tell of the rows of a region's outcome: a region is recovered, and what is told is written.

ghost use Rattle.std.specs.Prelude.{◌≡◌, ◌≢◌, IfOk, IfErr, length, string_bytes};
ghost use Rattle.nv_region.specs.Region.{Region, region_of};
ghost use Rattle.nv_paths.specs.Seen.{tree_of};
ghost use Rattle.nv_metadata.specs.Gathered.{AreGathered, IsOpen};
ghost use Rattle.nv_logs.specs.Rows.{IsRowLook, TellsRows};
ghost use Rattle.nv_logs.specs.Writing.{WritesTold, FailsTold};

use crate::looking::{Look, unaccepted_look};
use crate::writing::write_look;
use nv_image_check::{Answered, GatheredImage, Image, let_go, recover_gathered, recover_image};
use nv_metadata::Gathered;
use nv_report::Recovered;
use nv_stream::ScriptError;
use std::alloc::{AllocError, Global};
use std::io::Write;

/// Who tells of rows.
pub(crate) trait Teller {
    /// What is told.
    ghost tells: { Self → TellsRows };

    /// What is told by what was found, or why it isn't.
    fn look(&self, alloc: Global, found: &Recovered) -> Result<Look, AllocError>
        ensures told { (R : Region) → IfOk result (λ look. tells self.now (tree_of R found.now.rows.items) found.now.rows.items (string_bytes look.text) look.answered.status) }
        ensures faults { IfOk result (λ look. look.answered.faults ≡ length found.now.faults.items) };
}

/// Writes what is told of the region of these bytes.
pub(crate) fn tell_image<T: Teller, W: Write, E: Write>(
    alloc: Global,
    bytes: &[u8],
    teller: &T,
    writer: &mut W,
    errors: &mut E,
) -> Result<Answered, ScriptError>
    ensures ok { IfOk result (λ answered. WritesTold (IsRowLook (T.tells teller.now) (region_of bytes.now)) (W.contents writer.old) (W.contents writer.new) (E.contents errors.old)
        (E.contents errors.new) answered) }
    ensures err { IfErr result (λ e. FailsTold (IsRowLook (T.tells teller.now) (region_of bytes.now)) (W.contents writer.old) (W.contents writer.new) (E.contents errors.old)
        (E.contents errors.new) e) }
{
    let look = look_at_image(alloc, bytes, teller)?;
    write_look(&look, writer, errors)?;
    Ok(look.answered)
}

/// The same of the region of which this was gathered.
pub(crate) fn tell_gathered<T: Teller, W: Write, E: Write>(
    alloc: Global,
    gathered: Gathered,
    teller: &T,
    writer: &mut W,
    errors: &mut E,
) -> Result<Answered, ScriptError>
    requires { IsOpen gathered }
    ensures ok { (R : Region) → AreGathered R gathered
        → IfOk result (λ answered. WritesTold (IsRowLook (T.tells teller.now) R) (W.contents writer.old) (W.contents writer.new) (E.contents errors.old) (E.contents errors.new) answered) }
    ensures err { (R : Region) → AreGathered R gathered → IfErr result (λ e. FailsTold (IsRowLook (T.tells teller.now) R) (W.contents writer.old) (W.contents writer.new)
        (E.contents errors.old) (E.contents errors.new) e) }
    ensures unread { IfErr result (λ e. e ≢ ScriptError.Read) }
{
    let look = look_at_gathered(alloc, gathered, teller)?;
    write_look(&look, writer, errors)?;
    Ok(look.answered)
}

fn look_at_image<T: Teller>(alloc: Global, bytes: &[u8], teller: &T) -> Result<Look, AllocError>
    ensures { IfOk result (λ look. IsRowLook (T.tells teller.now) (region_of bytes.now) (string_bytes look.text) look.answered) }
{
    let image = recover_image(alloc, bytes)?;
    match image {
        Image::Recovered(memory, found) => {
            let look = teller.look(alloc, &found);
            let_go(memory, found);
            look
        }
        Image::Refused(refusal) => unaccepted_look(alloc, refusal),
    }
}

fn look_at_gathered<T: Teller>(
    alloc: Global,
    gathered: Gathered,
    teller: &T,
) -> Result<Look, AllocError>
    requires { IsOpen gathered }
    ensures { (R : Region) → AreGathered R gathered → IfOk result (λ look. IsRowLook (T.tells teller.now) R (string_bytes look.text) look.answered) }
{
    let image = recover_gathered(alloc, gathered)?;
    match image {
        GatheredImage::Recovered(memory, found) => {
            let look = teller.look(alloc, &found);
            let_go(memory, found);
            look
        }
        GatheredImage::Refused(refusal) => unaccepted_look(alloc, refusal),
    }
}
