//! Writing what differs between two images.

ghost use Rattle.std.specs.Prelude.{◌≡◌, IfOk, IfErr, OnOk, OnErr, string_bytes};
ghost use Rattle.nv_comparing.specs.Writing.{FailsDifference, Sends, SendsFront, WritesDifference};

use crate::comparing::{Compared, Look, look_at_images};
use nv_stream::{ScriptError, write_text};
use std::alloc::Global;
use std::io::Write;

const REFUSED_STATUS: u8 = 2;

/// Writes what differs between the regions of these bytes, A and B, as `difference_text` tells it of their trees; or to the errors
/// `A: refused NAME` or `B: refused NAME`, where the superblock of one isn't accepted.
///
/// The regions are recovered in memory, and faults don't keep them from being compared. If both are refused, A is named. Errors:
/// `Write` where the output failed, of which a front was written, and `Memory`, where nothing is.
pub fn compare_images<W: Write, E: Write>(
    alloc: Global,
    a: &[u8],
    b: &[u8],
    writer: &mut W,
    errors: &mut E,
) -> Result<Compared, ScriptError>
    ensures ok { IfOk result (WritesDifference a.now b.now (W.contents writer.old) (W.contents writer.new) (E.contents errors.old) (E.contents errors.new)) }
    ensures err { IfErr result (FailsDifference a.now b.now (W.contents writer.old) (W.contents writer.new) (E.contents errors.old) (E.contents errors.new)) }
{
    let look = look_at_images(alloc, a, b)?;
    write_look(&look, writer, errors)?;
    Ok(look.compared)
}

// Writes what is told: a refusal to the errors, and all else to the writer.
fn write_look<W: Write, E: Write>(
    look: &Look,
    writer: &mut W,
    errors: &mut E,
) -> Result<(), ScriptError>
    ensures ok { OnOk result (Sends (string_bytes look.now.text) look.now.compared.status (W.contents writer.old) (W.contents writer.new) (E.contents errors.old) (E.contents errors.new)) }
    ensures err { OnErr result (SendsFront (string_bytes look.now.text) look.now.compared.status (W.contents writer.old) (W.contents writer.new) (E.contents errors.old) (E.contents errors.new)) }
    ensures kind { IfErr result (λ e. e ≡ ScriptError.Write) }
{
    if look.compared.status == REFUSED_STATUS {
        write_text(errors, look.text.as_bytes())
    } else {
        write_text(writer, look.text.as_bytes())
    }
}
