//! Long parts of files: read a piece at a time, and written as the line that `read` prints.

ghost use Rattle.std.specs.Prelude.{◌≡◌, ◌<◌, ◌≤◌, ◌+◌, ◌*◌, length, flat_map, IfOk, IfErr, IfSome, OnOk, OnErr};
ghost use Rattle.std.specs.Io.KnownBytes.{Appends};
ghost use Rattle.nv_stream.specs.Streams.{AppendsShort};
ghost use Rattle.nv_text.specs.Names.{hex_byte};
ghost use Rattle.nv_session.specs.Printed.{IsReadable, IsLongPart, bytes_from, digits_of, part_line};

use crate::printed::{FilePart, PIECE};
use nv_calls::Fs;
use nv_region::MemRegion;
use nv_stream::{ScriptError, write_text};
use nv_text::put_digits;
use std::alloc::{AllocError, Global};
use std::io::Write;

/// The part of the file that a path leads to from an offset on, at most so many bytes, where it is longer than a piece. None
/// where it isn't, or where a read is refused.
///
/// Errors: `AllocError` where the room for it was refused.
pub(crate) fn long_part(
    alloc: Global,
    mount: &Fs<MemRegion>,
    path: &[u8],
    offset: u64,
    count: u64,
) -> Result<Option<FilePart>, AllocError>
    ensures { IfOk result (λ found. IfSome found (λ part. IsLongPart mount.now path.now offset count part)) }
{
    let Some(size) = readable_size(mount, path) else {
        return Ok(None);
    };
    let shown = count.min(size.saturating_sub(offset));
    if shown <= PIECE as u64 {
        return Ok(None);
    }
    let end = offset + shown;
    let mut own = Vec::new(alloc);
    own.extend_from_slice(path)?;
    Ok(Some(FilePart {
        path: own,
        offset,
        end,
        bytes: vec![in alloc; 0; PIECE]?,
        digits: vec![in alloc; 0; 2 * PIECE]?,
    }))
}

// How many bytes the file has that a path leads to, where a read of it isn't refused.
fn readable_size(mount: &Fs<MemRegion>, path: &[u8]) -> Option<u64>
    ensures { IfSome result (λ size. (file : IsReadable mount.now path.now) × (size ≡ file.node.size)) }
{
    // No bytes: the same tests.
    match mount.read(path, 0, 0) {
        Ok(_no_bytes) => {}
        Err(_) => return None,
    }
    match mount.stat(path) {
        Ok(stat) => Some(stat.size),
        Err(_) => None,
    }
}

/// Writes the line of a part of a file. After an `Err`, which is `Write`, a front of it was written, and not all of it.
pub(crate) fn write_part<W: Write>(
    mount: &Fs<MemRegion>,
    part: FilePart,
    writer: &mut W,
) -> Result<(), ScriptError>
    requires { (file : IsReadable mount.now part.path.items) × (part.end ≤ file.node.size) }
    ensures ok { (file : IsReadable mount.now part.path.items) → part.end ≤ file.node.size
        → OnOk result (Appends (W.contents writer.old) (W.contents writer.new) (part_line file.node part.offset part.end)) }
    ensures short { (file : IsReadable mount.now part.path.items) → part.end ≤ file.node.size
        → OnErr result (AppendsShort (W.contents writer.old) (W.contents writer.new) (part_line file.node part.offset part.end)) }
    ensures kind { IfErr result (λ e. e ≡ ScriptError.Write) }
{
    let FilePart {
        path,
        offset,
        end,
        mut bytes,
        mut digits,
    } = part;
    write_text(writer, b"data ")?;
    let mut at = offset;
    while at < end {
        let count = (PIECE as u64).min(end - at) as usize;
        let piece = &mut bytes[..count];
        let shown = &mut digits[..2 * count];
        write_piece(mount, &path, at, piece, shown, writer)?;
        at += count as u64;
    }
    write_text(writer, b"\n")
}

// Writes the digits of the bytes of a file from an offset on, as many as there is room for.
fn write_piece<W: Write>(
    mount: &Fs<MemRegion>,
    path: &[u8],
    at: u64,
    bytes: &mut [u8],
    digits: &mut [u8],
    writer: &mut W,
) -> Result<(), ScriptError>
    requires room { length digits.old ≡ 2 * length bytes.old }
    requires there { (file : IsReadable mount.now path.now) × (at + length bytes.old ≤ file.node.size) }
    ensures ok { (file : IsReadable mount.now path.now) → at + length bytes.old ≤ file.node.size
        → OnOk result (Appends (W.contents writer.old) (W.contents writer.new) (digits_of (bytes_from file.node at (length bytes.old)))) }
    ensures short { (file : IsReadable mount.now path.now) → at + length bytes.old ≤ file.node.size
        → OnErr result (AppendsShort (W.contents writer.old) (W.contents writer.new) (digits_of (bytes_from file.node at (length bytes.old)))) }
    ensures kind { IfErr result (λ e. e ≡ ScriptError.Write) }
    ensures room { length digits.new ≡ length digits.old }
    ensures bytes { length bytes.new ≡ length bytes.old }
{
    match mount.read_into(path, at, bytes) {
        Ok(_count) => {}
        // It was read when the room for it was taken, and nothing has changed.
        Err(_) => unreachable!(),
    }
    put_digits(bytes, digits);
    write_text(writer, digits)
}
