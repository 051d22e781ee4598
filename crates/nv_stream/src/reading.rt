//! Lines from a reader, one byte after another: give it a reader with a buffer.
//!
//! A line ends with byte 10, which the last may lack. It has at most `LINE_LIMIT` bytes, not counting byte 10,
//! so no input makes a reader of lines hold more than one byte past that.

ghost use Rattle.std.specs.Prelude.{◌≡◌, ◌≢◌, ◌≤◌, IfOk, IfErr, IsErrOf};
ghost use Rattle.std.specs.Vec.{vec_capacity};
ghost use Rattle.nv_stream.specs.Lines.{line_limit};
ghost use Rattle.nv_stream.specs.Streams.{GivesByte, TakesKnownLine};

use crate::fault::ScriptError;
use std::io::{ErrorKind, Read};

/// The most bytes that a line may have. The byte 10 that ends it is not counted.
pub const LINE_LIMIT: usize = 4096;

/// What came next from a reader.
#[derive(Clone, Copy, PartialEq, Eq)]
pub enum Next {
    /// A line, without the byte that ends it.
    Line,
    /// A line with more bytes than the limit: its first `LINE_LIMIT + 1` bytes were read, and no more of it.
    TooLong,
    /// No line: the input is at its end.
    End,
}

// An interrupted read is tried again.
fn next_byte<R: Read>(reader: &mut R) -> Result<Option<u8>, ScriptError>
    ensures ok { IfOk result (λ next. GivesByte (R.remaining reader.old) (R.remaining reader.new) next) }
    ensures kind { IfErr result (λ e. e ≡ ScriptError.Read) }
{
    let mut byte = [0u8];
    'turns: for _ in 0..u64::MAX {
        match reader.read(&mut byte) {
            Ok(0) => return Ok(None),
            Ok(_) => return Ok(Some(byte[0])),
            Err(error) => {
                if error.kind() != ErrorKind::Interrupted {
                    return Err(ScriptError::Read);
                }
            }
        }
    }
    Err(ScriptError::Read)
}

/// Reads the next line into `line`, in place of what it held.
/// After an `Err` the line is lost: `Read` where the reader failed, `Memory` where `line` couldn't grow,
/// which it never has to if it has room for `LINE_LIMIT + 1` bytes.
pub fn read_line<R: Read>(reader: &mut R, line: &mut Vec<u8>) -> Result<Next, ScriptError>
    ensures ok { IfOk result (λ next. TakesKnownLine (R.remaining reader.old) (R.remaining reader.new) next line.new.items) }
    ensures kind { IfErr result (λ e. e ≢ ScriptError.Write) }
    ensures memory { IsErrOf result ScriptError.Memory → vec_capacity line.old ≤ line_limit }
{
    line.clear();
    'bytes: while line.len() <= LINE_LIMIT {
        match next_byte(reader)? {
            Some(b'\n') => return Ok(Next::Line),
            Some(byte) => line.push(byte)?,
            None if line.is_empty() => return Ok(Next::End),
            None => return Ok(Next::Line),
        }
    }
    Ok(Next::TooLong)
}
