//! Texts to a writer, such that after a refused write a front of the text was written and nothing else.

ghost use Rattle.std.specs.Prelude.{◌≡◌, ◌≤◌, length, take, OnOk, OnErr, IfOk, IfErr};
ghost use Rattle.std.specs.Io.KnownBytes.{Appends, Keeps};
ghost use Rattle.nv_stream.specs.Streams.{AppendsFront, AppendsShort};

use crate::fault::ScriptError;
use std::io::{ErrorKind, Write};

// How many bytes of the text one call wrote, which is 0 where it was interrupted.
fn write_some<W: Write>(writer: &mut W, text: &[u8]) -> Result<usize, ScriptError>
    ensures bound { IfOk result (λ count. count ≤ length text.now) }
    ensures ok { IfOk result (λ count. Appends (W.contents writer.old) (W.contents writer.new) (take count text.now)) }
    ensures err { OnErr result (Keeps (W.contents writer.old) (W.contents writer.new)) }
    ensures kind { IfErr result (λ e. e ≡ ScriptError.Write) }
{
    match writer.write(text) {
        Ok(0) => Err(ScriptError::Write),
        Ok(count) => Ok(count),
        Err(error) if error.kind() == ErrorKind::Interrupted => Ok(0),
        Err(_) => Err(ScriptError::Write),
    }
}

/// Writes a text. After an `Err`, which is `Write`, a front of it was written, and not all of it.
pub fn write_text<W: Write>(writer: &mut W, text: &[u8]) -> Result<(), ScriptError>
    ensures ok { OnOk result (Appends (W.contents writer.old) (W.contents writer.new) text.now) }
    ensures err { OnErr result (AppendsFront (W.contents writer.old) (W.contents writer.new) text.now) }
    ensures short { OnErr result (AppendsShort (W.contents writer.old) (W.contents writer.new) text.now) }
    ensures kind { IfErr result (λ e. e ≡ ScriptError.Write) }
{
    let mut written = 0;
    'turns: for _ in 0..u64::MAX {
        if written == text.len() {
            return Ok(());
        }
        written += write_some(writer, &text[written..])?;
    }
    if written == text.len() {
        Ok(())
    } else {
        Err(ScriptError::Write)
    }
}
