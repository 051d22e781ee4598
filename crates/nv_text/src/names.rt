//! Bytes as text: names with their escapes, and the content of files in hexadecimal digits.

ghost use Rattle.std.specs.Prelude.{◌≡◌, ◌++◌, IfSome, OnOk, string_bytes, flat_map};
ghost use Rattle.nv_text.specs.Names.{hex_byte, is_plain, escaped_byte, escaped, list_line, name_line, data_text, data_line};

use crate::fields::push_field;
use std::alloc::AllocError;
use std::fmt::Write;

/// Two lower-case hexadecimal digits.
fn push_hex_byte(out: &mut String, byte: u8) -> Result<(), AllocError>
    ensures { OnOk result (string_bytes out.new ≡ string_bytes out.old ++ hex_byte byte) }
{
    let high = byte / 16;
    let low = byte % 16;
    write!(out, "{high:x}{low:x}")
}

#[tactic(auto, unfolding(crate::specs::Names::escaped_byte))]
fn push_escaped_byte(out: &mut String, byte: u8) -> Result<(), AllocError>
    ensures { OnOk result (string_bytes out.new ≡ string_bytes out.old ++ escaped_byte byte) }
{
    if is_plain(byte) {
        out.push(char::from(byte))
    } else {
        out.push_str("\\x")?;
        push_hex_byte(out, byte)
    }
}

fn push_escapes(out: &mut String, name: &[u8]) -> Result<(), AllocError>
    ensures { OnOk result (string_bytes out.new ≡ string_bytes out.old ++ escaped name.now) }
{
    for byte in name {
        push_escaped_byte(out, *byte)?;
    }
    Ok(())
}

/// Whether a byte of a name is printed as it is.
fn is_plain(byte: u8) -> bool
    ensures { result ≡ is_plain byte }
{
    byte.is_ascii_graphic() && byte != b'\\'
}

/// A name as text, where each of its bytes is printed as it is.
#[tactic(auto, unfolding(crate::specs::Names::escaped_byte))]
fn plain_text(name: &[u8]) -> Option<&str>
    ensures { IfSome result (λ text. text.now ≡ escaped name.now) }
{
    for byte in name {
        if !is_plain(*byte) {
            return None;
        }
    }
    std::str::from_utf8(name).ok()
}

/// A name with its escapes. Most names need none, and then go out at once.
pub fn push_escaped(out: &mut String, name: &[u8]) -> Result<(), AllocError>
    ensures { OnOk result (string_bytes out.new ≡ string_bytes out.old ++ escaped name.now) }
{
    match plain_text(name) {
        Some(text) => out.push_str(text),
        None => push_escapes(out, name),
    }
}

/// A name and its inode, as a directory's list shows them.
pub fn push_list_line(out: &mut String, name: &[u8], inode: u64) -> Result<(), AllocError>
    ensures { OnOk result (string_bytes out.new ≡ string_bytes out.old ++ list_line name.now inode) }
{
    push_escaped(out, name)?;
    push_field(out, " ", inode)?;
    out.push_str("\n")
}

/// `  name NAME INODE`.
pub fn push_name_line(out: &mut String, name: &[u8], inode: u64) -> Result<(), AllocError>
    ensures { OnOk result (string_bytes out.new ≡ string_bytes out.old ++ name_line name.now inode) }
{
    out.push_str("  name ")?;
    push_list_line(out, name, inode)
}

fn push_hex(out: &mut String, bytes: &[u8]) -> Result<(), AllocError>
    ensures { OnOk result (string_bytes out.new ≡ string_bytes out.old ++ flat_map hex_byte bytes.now) }
{
    for byte in bytes {
        push_hex_byte(out, *byte)?;
    }
    Ok(())
}

fn push_data(out: &mut String, bytes: &[u8]) -> Result<(), AllocError>
    ensures { OnOk result (string_bytes out.new ≡ string_bytes out.old ++ data_text bytes.now) }
{
    if bytes.is_empty() {
        return Ok(());
    }
    out.push(' ')?;
    push_hex(out, bytes)
}

/// `data`, and where there are bytes a space and their hexadecimal digits.
pub fn push_data_line(out: &mut String, bytes: &[u8]) -> Result<(), AllocError>
    ensures { OnOk result (string_bytes out.new ≡ string_bytes out.old ++ data_line bytes.now) }
{
    out.push_str("data")?;
    push_data(out, bytes)?;
    out.push('\n')
}
