//! The line of an entry in a log, with what became of it.

ghost use Rattle.std.specs.Prelude.{◌≡◌, ◌+◌, ◌^◌, ◌≤◌, ◌++◌, OnOk, codes, string_bytes};
ghost use Rattle.nv_super.specs.Layout.{HasAreas};
ghost use Rattle.nv_inspect.specs.Entry.{lies_in, pages_standing, pages_text, stands_text, fate_text, place_text, verdict_text, entry_line, IsSmallEntry};
ghost use Rattle.nv_entry.specs.Content.{content_fault};

use crate::fate::Fate;
use crate::fields::{push_fields, push_place};
use nv_entry::{ContentFault, Entry, WriteEntry, check_content};
use nv_logpage::Placed;
use nv_radix::FileIndex;
use nv_scan::Row;
use nv_super::Super;
use std::alloc::AllocError;
use std::fmt::Write;

/// The place of an entry in the log of a row, whether it counts or what became of it, and its fields, in a line.
pub(crate) fn push_entry(
    out: &mut String,
    sup: &Super,
    row: &Row,
    fate: Fate,
    placed: &Placed,
) -> Result<(), AllocError>
    requires { HasAreas sup.now }
    ensures { OnOk result (string_bytes out.new ≡ string_bytes out.old ++ entry_line sup.now row.now fate placed.now) }
{
    out.push_str("  ")?;
    push_place(out, placed.at)?;
    out.push_str(" ")?;
    push_verdict(out, sup, row, fate, &placed.entry)?;
    push_fields(out, &placed.entry)
}

// Why an entry doesn't count, or what became of it.
fn push_verdict(
    out: &mut String,
    sup: &Super,
    row: &Row,
    fate: Fate,
    entry: &Entry,
) -> Result<(), AllocError>
    requires { HasAreas sup.now }
    ensures { OnOk result (string_bytes out.new ≡ string_bytes out.old ++ verdict_text row.now fate entry.now (content_fault sup.now row.now.kind entry.now)) }
{
    match check_content(sup, row.kind, entry) {
        Some(ContentFault::OutOfRange) => out.push_str("fault E1 "),
        Some(ContentFault::WrongKind) => out.push_str("fault E2 "),
        None => push_fate(out, row, entry, fate),
    }
}

// What became of an entry.
fn push_fate(out: &mut String, row: &Row, entry: &Entry, fate: Fate) -> Result<(), AllocError>
    requires { IsSmallEntry entry.now }
    ensures { OnOk result (string_bytes out.new ≡ string_bytes out.old ++ fate_text row.now entry.now fate) }
{
    match fate {
        Fate::Stands => push_stands(out, &row.index, entry),
        Fate::ChangesNothing => out.push_str("changes nothing "),
        Fate::DeadBy(at) => push_killer(out, at),
    }
}

// An entry stands.
fn push_stands(out: &mut String, index: &FileIndex, entry: &Entry) -> Result<(), AllocError>
    requires { IsSmallEntry entry.now }
    ensures { OnOk result (string_bytes out.new ≡ string_bytes out.old ++ stands_text index.now entry.now) }
{
    match entry {
        Entry::Write(e) => push_pages(out, index, e),
        Entry::NextPage | Entry::Attr(_) | Entry::Name(_) | Entry::Links(_) => out.push_str(
            "stands ",
        ),
    }
}

// By which entry it is dead.
fn push_killer(out: &mut String, at: u64) -> Result<(), AllocError>
    ensures { OnOk result (string_bytes out.new ≡ string_bytes out.old ++ codes "dead by " ++ place_text at ++ codes " ") }
{
    out.push_str("dead by ")?;
    push_place(out, at)?;
    out.push_str(" ")
}

// How many of the pages of a write lie where it wrote them.
fn push_pages(out: &mut String, index: &FileIndex, e: &WriteEntry) -> Result<(), AllocError>
    requires pages { e.now.offset + e.now.count ≤ 2 ^ 32 }
    requires blocks { e.now.block + e.now.count ≤ 2 ^ 32 }
    ensures { OnOk result (string_bytes out.new ≡ string_bytes out.old ++ pages_text index.now e.now) }
{
    let (stands, count) = (pages_standing(index, e), e.count);
    write!(out, "stands {stands} of {count} ")
}

fn pages_standing(index: &FileIndex, e: &WriteEntry) -> u64
    requires pages { e.now.offset + e.now.count ≤ 2 ^ 32 }
    requires blocks { e.now.block + e.now.count ≤ 2 ^ 32 }
    ensures { result ≡ pages_standing index.now e.now }
{
    let mut stands = 0;
    for k in 0..u64::from(e.count) {
        if lies_in(index.get(e.offset + k), e.block + k) {
            stands += 1;
        }
    }
    stands
}

// Whether what was looked up lies there.
fn lies_in(found: Option<u64>, place: u64) -> bool
    ensures { result ≡ lies_in found place }
{
    match found {
        Some(lies) => lies == place,
        None => false,
    }
}
