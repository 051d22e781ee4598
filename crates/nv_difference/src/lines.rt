//! The lines of what differs. Each begins with a word for what it is, and the path comes next.

ghost use Rattle.std.specs.Prelude.{◌≡◌, ◌++◌, OnOk, string_bytes};
ghost use Rattle.nv_difference.specs.Lines.{bytes_line, differ_text, head_text, kinds_line, number_text, numbers_text, only_a_line, only_b_line, passed_line, path_text, size_text, whose_text};

use crate::contents::Numbers;
use nv_super::Kind;
use nv_text::push_escaped;
use std::alloc::AllocError;
use std::fmt::Write;

/// The numbers that differ, a line each.
pub(crate) fn push_numbers(
    out: &mut String,
    path: &[u8],
    a: &Numbers,
    b: &Numbers,
) -> Result<(), AllocError>
    ensures { OnOk result (string_bytes out.new ≡ string_bytes out.old ++ numbers_text path.now a.now b.now) }
{
    push_whose(out, path, a, b)?;
    push_size(out, path, a, b)
}

fn push_whose(out: &mut String, path: &[u8], a: &Numbers, b: &Numbers) -> Result<(), AllocError>
    ensures { OnOk result (string_bytes out.new ≡ string_bytes out.old ++ whose_text path.now a.now b.now) }
{
    push_number(out, "mode", path, u64::from(a.mode), u64::from(b.mode))?;
    push_number(out, "owner", path, u64::from(a.owner), u64::from(b.owner))?;
    push_number(out, "group", path, u64::from(a.group), u64::from(b.group))
}

fn push_size(out: &mut String, path: &[u8], a: &Numbers, b: &Numbers) -> Result<(), AllocError>
    ensures { OnOk result (string_bytes out.new ≡ string_bytes out.old ++ size_text path.now a.now b.now) }
{
    push_number(out, "size", path, a.size, b.size)?;
    push_number(out, "links", path, u64::from(a.links), u64::from(b.links))?;
    push_number(out, "time", path, a.time, b.time)
}

fn push_number(out: &mut String, word: &str, path: &[u8], a: u64, b: u64) -> Result<(), AllocError>
    ensures { OnOk result (string_bytes out.new ≡ string_bytes out.old ++ number_text word.now path.now a b) }
{
    if a == b {
        return Ok(());
    }
    push_head(out, word, path)?;
    writeln!(out, "{a}, {b}")
}

// A word, and the path with a colon.
fn push_head(out: &mut String, word: &str, path: &[u8]) -> Result<(), AllocError>
    ensures { OnOk result (string_bytes out.new ≡ string_bytes out.old ++ head_text word.now path.now) }
{
    out.push_str(word)?;
    out.push_str(" ")?;
    push_path(out, path)?;
    out.push_str(": ")
}

// A path with its escapes. That of the root is empty.
fn push_path(out: &mut String, path: &[u8]) -> Result<(), AllocError>
    ensures { OnOk result (string_bytes out.new ≡ string_bytes out.old ++ path_text path.now) }
{
    if path.is_empty() {
        out.push_str("/")
    } else {
        push_escaped(out, path)
    }
}

/// Two kinds.
pub(crate) fn push_kinds(out: &mut String, path: &[u8], a: Kind, b: Kind) -> Result<(), AllocError>
    ensures { OnOk result (string_bytes out.new ≡ string_bytes out.old ++ kinds_line path.now a b) }
{
    push_head(out, "kind", path)?;
    writeln!(out, "{a}, {b}")
}

/// The first place where the bytes differ.
pub(crate) fn push_place(out: &mut String, path: &[u8], place: u64) -> Result<(), AllocError>
    ensures { OnOk result (string_bytes out.new ≡ string_bytes out.old ++ bytes_line path.now place) }
{
    push_head(out, "bytes", path)?;
    push_differ(out, place)
}

fn push_differ(out: &mut String, place: u64) -> Result<(), AllocError>
    ensures { OnOk result (string_bytes out.new ≡ string_bytes out.old ++ differ_text place) }
{
    writeln!(out, "differ from byte {place}")
}

/// There is an inode in A alone.
pub(crate) fn push_only_a(out: &mut String, path: &[u8]) -> Result<(), AllocError>
    ensures { OnOk result (string_bytes out.new ≡ string_bytes out.old ++ only_a_line path.now) }
{
    out.push_str("only in A: ")?;
    push_path(out, path)?;
    out.push_str("\n")
}

/// There is one in B alone.
pub(crate) fn push_only_b(out: &mut String, path: &[u8]) -> Result<(), AllocError>
    ensures { OnOk result (string_bytes out.new ≡ string_bytes out.old ++ only_b_line path.now) }
{
    out.push_str("only in B: ")?;
    push_path(out, path)?;
    out.push_str("\n")
}

/// The names of two directories aren't compared.
pub(crate) fn push_passed(out: &mut String, path: &[u8]) -> Result<(), AllocError>
    ensures { OnOk result (string_bytes out.new ≡ string_bytes out.old ++ passed_line path.now) }
{
    push_head(out, "names", path)?;
    out.push_str("not compared, one directory has an earlier path\n")
}
