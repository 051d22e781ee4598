//! Writing the log of an inode, or why it isn't shown.

ghost use Rattle.std.specs.Prelude.{◌≡◌, ◌≢◌, IfOk, IfErr, OnOk, OnErr, string_bytes};
ghost use Rattle.nv_region.specs.Region.{Region, region_of};
ghost use Rattle.nv_metadata.specs.Gathered.{AreGathered, IsOpen};
ghost use Rattle.nv_logs.specs.Writing.{Sends, SendsFront, WritesLog, FailsLog};

use crate::inode::Inode;
use crate::looking::{Look, look_at_gathered, look_at_image};
use nv_image_check::Answered;
use nv_metadata::Gathered;
use nv_report::Last;
use nv_stream::{ScriptError, write_text};
use std::alloc::Global;
use std::io::Write;

/// Writes the log of an inode in the region of these bytes entry by entry, or `refused NAME` to the errors. The region is recovered
/// over the bytes, and its journals are rolled back in memory.
///
/// Errors: `Memory` where a growth was refused, and nothing was written then; `Write` where the writer failed, and a front of the
/// text was written then.
pub fn log_image<W: Write, E: Write>(
    alloc: Global,
    bytes: &[u8],
    inode: &Inode,
    writer: &mut W,
    errors: &mut E,
) -> Result<Answered, ScriptError>
    ensures ok { IfOk result (λ answered. WritesLog inode.now (region_of bytes.now) (W.contents writer.old) (W.contents writer.new) (E.contents errors.old) (E.contents errors.new) answered) }
    ensures err { IfErr result (λ e. FailsLog inode.now (region_of bytes.now) (W.contents writer.old) (W.contents writer.new) (E.contents errors.old) (E.contents errors.new) e) }
{
    let look = look_at_image(alloc, bytes, inode)?;
    write_look(&look, writer, errors)?;
    Ok(look.answered)
}

/// The same of the region of which this was gathered. Its text, its status and its errors are those of `log_image` for all its
/// bytes.
pub fn log_gathered<W: Write, E: Write>(
    alloc: Global,
    gathered: Gathered,
    inode: &Inode,
    writer: &mut W,
    errors: &mut E,
) -> Result<Answered, ScriptError>
    requires { IsOpen gathered }
    ensures ok { (R : Region) → AreGathered R gathered
        → IfOk result (λ answered. WritesLog inode.now R (W.contents writer.old) (W.contents writer.new) (E.contents errors.old) (E.contents errors.new) answered) }
    ensures err { (R : Region) → AreGathered R gathered → IfErr result (λ e. FailsLog inode.now R (W.contents writer.old) (W.contents writer.new) (E.contents errors.old) (E.contents errors.new) e) }
    ensures unread { IfErr result (λ e. e ≢ ScriptError.Read) }
{
    let look = look_at_gathered(alloc, gathered, inode)?;
    write_look(&look, writer, errors)?;
    Ok(look.answered)
}

/// Writes what is told: a refusal to the errors, and all else to the writer.
pub(crate) fn write_look<W: Write, E: Write>(
    look: &Look,
    writer: &mut W,
    errors: &mut E,
) -> Result<(), ScriptError>
    ensures ok { OnOk result (Sends (string_bytes look.now.text) look.now.answered.status (W.contents writer.old) (W.contents writer.new) (E.contents errors.old) (E.contents errors.new)) }
    ensures err { OnErr result (SendsFront (string_bytes look.now.text) look.now.answered.status (W.contents writer.old) (W.contents writer.new) (E.contents errors.old) (E.contents errors.new)) }
    ensures kind { IfErr result (λ e. e ≡ ScriptError.Write) }
{
    if look.answered.status == Last::Sound.status() {
        write_text(writer, look.text.as_bytes())
    } else {
        write_text(errors, look.text.as_bytes())
    }
}
