//! Bytes in rows of 16, each with its address, as hexadecimal digits.

ghost use Rattle.std.specs.Prelude.{◌≡◌, ◌≤◌, ◌+◌, ◌^◌, ◌++◌, OnOk, flat_map, length, string_bytes};
ghost use Rattle.nv_text.specs.Answers.{line};
ghost use Rattle.nv_text.specs.Names.{hex_byte};
ghost use Rattle.nv_block.specs.Hex.{address_text, block_bytes, hex_text, row_text, spaced_byte};

use nv_super::BLOCK_SIZE;
use std::alloc::AllocError;
use std::fmt::Write;

/// How many bytes stand in a row.
const BYTES_IN_ROW: usize = 16;

/// The bytes of a block of an image, as far as the image has them.
pub fn block_bytes(bytes: &[u8], block: u64) -> &[u8]
    requires { block ≤ 2 ^ 32 }
    ensures { result.now ≡ block_bytes bytes.now block }
{
    let start = bytes.len().min((block * BLOCK_SIZE) as usize);
    let rest = &bytes[start..];
    let end = rest.len().min(BLOCK_SIZE as usize);
    &rest[..end]
}

/// Puts bytes to a text, in rows: the address of the first of the row, and two digits for each. The first byte of all has this
/// address, in bytes; addresses are shown from 2^32 on by their low 32 bits.
///
/// Errors: `AllocError` where a growth was refused; of the text nothing is said then.
pub fn push_hex_rows(out: &mut String, start: u64, bytes: &[u8]) -> Result<(), AllocError>
    requires start { start ≤ 2 ^ 62 }
    requires few { length bytes.now ≤ 2 ^ 62 }
    ensures { OnOk result (string_bytes out.new ≡ string_bytes out.old ++ hex_text start bytes.now) }
{
    let mut at = start;
    for row in bytes.chunks(BYTES_IN_ROW) {
        push_row(out, at, row)?;
        at += BYTES_IN_ROW as u64;
    }
    Ok(())
}

fn push_row(out: &mut String, at: u64, row: &[u8]) -> Result<(), AllocError>
    ensures { OnOk result (string_bytes out.new ≡ string_bytes out.old ++ row_text at row.now) }
{
    push_address(out, at)?;
    out.push_str(" ")?;
    push_line(out, row)
}

// Bytes, to the end of the line.
fn push_line(out: &mut String, row: &[u8]) -> Result<(), AllocError>
    ensures { OnOk result (string_bytes out.new ≡ string_bytes out.old ++ line (flat_map spaced_byte row.now)) }
{
    push_bytes(out, row)?;
    out.push_str("\n")
}

// An address in eight digits.
fn push_address(out: &mut String, at: u64) -> Result<(), AllocError>
    ensures { OnOk result (string_bytes out.new ≡ string_bytes out.old ++ address_text at) }
{
    push_byte(out, (at / (1 << 24) % 256) as u8)?;
    push_byte(out, (at / (1 << 16) % 256) as u8)?;
    push_byte(out, (at / (1 << 8) % 256) as u8)?;
    push_byte(out, (at % 256) as u8)
}

fn push_bytes(out: &mut String, row: &[u8]) -> Result<(), AllocError>
    ensures { OnOk result (string_bytes out.new ≡ string_bytes out.old ++ flat_map spaced_byte row.now) }
{
    for byte in row {
        push_spaced(out, *byte)?;
    }
    Ok(())
}

fn push_spaced(out: &mut String, byte: u8) -> Result<(), AllocError>
    ensures { OnOk result (string_bytes out.new ≡ string_bytes out.old ++ spaced_byte byte) }
{
    out.push_str(" ")?;
    push_byte(out, byte)
}

// Two lower-case digits.
fn push_byte(out: &mut String, byte: u8) -> Result<(), AllocError>
    ensures { OnOk result (string_bytes out.new ≡ string_bytes out.old ++ hex_byte byte) }
{
    let high = byte / 16;
    let low = byte % 16;
    write!(out, "{high:x}{low:x}")
}
