//! The bytes of a file, where it isn't longer than a limit.

ghost use Rattle.std.specs.Prelude.{◌≡◌, ◌<◌, ◌≤◌, ◌^◌, IfOk, IfSome};
ghost use Rattle.nv_stream.specs.Contents.{AreRead, AreCopied, CopiesWithin, KeepsLimit, system_path};

use crate::place::Stamp;
use std::alloc::{AllocError, Global};
use std::fs::OpenFile;
use std::io::{ErrorKind, Read, Write};
use std::rt::Files;
use std::{fs, io};
use thiserror::Error;

/// What a file holds.
#[derive(Drop)]
pub enum Contents {
    /// These bytes.
    Whole(Vec<u8>),
    /// More than the limit. So many, where the file says so.
    Longer(Option<u64>),
}

/// Why a file's bytes are not there.
#[derive(Clone, Copy, Debug, Error)]
pub enum Unread {
    /// The file is missing, isn't a file, or can't be read, as the system's error says.
    #[error("not read: {0}")]
    Unreadable(io::Error),
    /// Memory was refused.
    #[error("out of memory")]
    Memory,
}

impl From<io::Error> for Unread {
    ghost use Rattle.std.specs.Prelude.{◌≡◌};
    ghost use Rattle.nv_stream.specs.Contents.{unread_of};

    ghost from_gives = { λ error e. e ≡ unread_of error };

    fn from(error: io::Error) -> Unread {
        match error.kind() {
            ErrorKind::OutOfMemory => Unread::Memory,
            _ => Unread::Unreadable(error),
        }
    }
}

impl From<AllocError> for Unread {
    ghost use Rattle.std.specs.Prelude.{◌≡◌};
    ghost use Rattle.nv_stream.specs.declared.contents.Unread.TheVariants.{Memory};

    ghost from_gives = { λ _ e. e ≡ Memory };

    fn from(_error: AllocError) -> Unread {
        Unread::Memory
    }
}

/// The bytes that a reader gives up to its end, or that there are more than `limit`. About `length` of them are
/// expected: with so many no growth is needed. Of longer input one byte more than the limit is read.
///
/// Answers `Unreadable` where the reader fails, and `Memory` where a growth is refused.
pub fn read_whole<R: Read + Drop>(
    alloc: Global,
    reader: R,
    length: usize,
    limit: usize,
) -> Result<Contents, Unread>
    requires within { length ≤ limit }
    requires small { limit < 2 ^ 62 }
    ensures bytes { IfOk result (λ contents. IfSome (R.remaining reader) (λ bytes. AreRead limit bytes contents)) }
    ensures within { IfOk result (KeepsLimit limit) }
{
    // Room for one more byte, so that the end is met before a growth.
    let mut bytes = Vec::with_capacity(alloc, length + 1)?;
    let mut reader = reader.take(limit as u64 + 1);
    let count = reader.read_to_end(&mut bytes)?;
    if count <= limit {
        Ok(Contents::Whole(bytes))
    } else {
        Ok(Contents::Longer(None))
    }
}

/// Copies the bytes that a reader gives up to its end to a writer, in pieces, where there are no more than `limit`. Answers
/// whether that is so. Of longer input one byte more than the limit is copied.
///
/// Errors: `Unreadable` where the reader or the writer fails, and `Memory` where one of them is refused it.
pub fn copy_whole<R: Read + Drop, W: Write>(
    reader: R,
    limit: usize,
    writer: &mut W,
) -> Result<bool, Unread>
    requires small { limit < 2 ^ 62 }
    ensures bytes { IfOk result (λ whole. IfSome (R.remaining reader) (λ bytes. AreCopied limit bytes whole (W.contents writer.old) (W.contents writer.new))) }
    ensures within { IfOk result (λ whole. CopiesWithin limit whole (W.contents writer.old) (W.contents writer.new)) }
{
    let mut front = reader.take(limit as u64 + 1);
    let count = io::copy(&mut front, writer)?;
    Ok(count <= limit as u64)
}

/// A file that is open, and not read yet.
#[derive(Drop)]
pub struct Opened<F: Drop> {
    pub file: F,
    /// Of the file when it was opened.
    pub stamp: Stamp,
}

// The path by which the system opens a file.
fn system_path(path: &str) -> &str
    ensures { result.now ≡ system_path path.now }
{
    if path == "-" { "/dev/stdin" } else { path }
}

/// Opens the file at a path for reading, which is standard input for `-`. Errors: the system's.
pub fn open_at<H: Files>(rt: &H, path: &str) -> Result<Opened<H::File>, io::Error> {
    let file = fs::open(rt, system_path(path))?;
    let stamp = Stamp::of(&file.metadata()?);
    Ok(Opened { file, stamp })
}

/// What an open file holds, where that are no more than `limit` bytes. A file that says that it is longer isn't read.
/// Errors as of `read_whole`.
pub fn contents_of<F: Read + Drop>(
    alloc: Global,
    opened: Opened<F>,
    limit: usize,
) -> Result<Contents, Unread>
    requires { limit < 2 ^ 62 }
    ensures { IfOk result (KeepsLimit limit) }
{
    let Opened { file, stamp } = opened;
    let told = stamp.length;
    match usize::try_from(told) {
        Ok(length) if length <= limit => read_whole(alloc, file, length, limit),
        _ => Ok(Contents::Longer(Some(told))),
    }
}
