//! What an entry says, in a line.

ghost use Rattle.std.specs.Prelude.{◌≡◌, ◌++◌, OnOk, string_bytes};
ghost use Rattle.nv_inspect.specs.Entry.{place_text, run_text, size_text, mode_text, whose_text, write_text, attr_text, name_text, links_text, entry_text, operation_word};

use nv_entry::{AttrEntry, Entry, LinksEntry, NameEntry, Operation, WriteEntry};
use nv_super::BLOCK_SIZE;
use nv_text::push_list_line;
use std::alloc::AllocError;
use std::fmt::Write;

/// `block B offset O`.
pub(crate) fn push_place(out: &mut String, at: u64) -> Result<(), AllocError>
    ensures { OnOk result (string_bytes out.new ≡ string_bytes out.old ++ place_text at) }
{
    let (block, offset) = (at / BLOCK_SIZE, at % BLOCK_SIZE);
    write!(out, "block {block} offset {offset}")
}

/// All fields of an entry, to the end of the line.
pub(crate) fn push_fields(out: &mut String, entry: &Entry) -> Result<(), AllocError>
    ensures { OnOk result (string_bytes out.new ≡ string_bytes out.old ++ entry_text entry.now) }
{
    match entry {
        Entry::NextPage => out.push_str("next page\n"),
        Entry::Write(e) => push_write(out, e),
        Entry::Attr(e) => push_attributes(out, e),
        Entry::Name(e) => push_name(out, e),
        Entry::Links(e) => push_links(out, e),
    }
}

fn push_write(out: &mut String, e: &WriteEntry) -> Result<(), AllocError>
    ensures { OnOk result (string_bytes out.new ≡ string_bytes out.old ++ write_text e.now) }
{
    push_run(out, e)?;
    push_size(out, e.size, e.time)
}

fn push_run(out: &mut String, e: &WriteEntry) -> Result<(), AllocError>
    ensures { OnOk result (string_bytes out.new ≡ string_bytes out.old ++ run_text e.now) }
{
    let WriteEntry {
        count,
        offset,
        block,
        ..
    } = *e;
    write!(out, "write page {offset} count {count} block {block}")
}

fn push_size(out: &mut String, size: u64, time: u64) -> Result<(), AllocError>
    ensures { OnOk result (string_bytes out.new ≡ string_bytes out.old ++ size_text size time) }
{
    writeln!(out, " size {size} time {time}")
}

fn push_attributes(out: &mut String, e: &AttrEntry) -> Result<(), AllocError>
    ensures { OnOk result (string_bytes out.new ≡ string_bytes out.old ++ attr_text e.now) }
{
    push_mode(out, e.mode)?;
    push_whose(out, e.owner, e.group)?;
    push_size(out, e.size, e.time)
}

fn push_mode(out: &mut String, mode: u32) -> Result<(), AllocError>
    ensures { OnOk result (string_bytes out.new ≡ string_bytes out.old ++ mode_text mode) }
{
    write!(out, "attributes mode {mode}")
}

fn push_whose(out: &mut String, owner: u32, group: u32) -> Result<(), AllocError>
    ensures { OnOk result (string_bytes out.new ≡ string_bytes out.old ++ whose_text owner group) }
{
    write!(out, " owner {owner} group {group}")
}

fn push_name(out: &mut String, e: &NameEntry) -> Result<(), AllocError>
    ensures { OnOk result (string_bytes out.new ≡ string_bytes out.old ++ name_text e.now) }
{
    out.push_str(operation_word(e.operation))?;
    let time = e.time;
    write!(out, " time {time} name ")?;
    push_list_line(out, e.name.as_slice(), e.inode)
}

fn operation_word(operation: Operation) -> &'static str
    ensures { result.now ≡ operation_word operation }
{
    match operation {
        Operation::Add => "add",
        Operation::Remove => "remove",
    }
}

fn push_links(out: &mut String, e: &LinksEntry) -> Result<(), AllocError>
    ensures { OnOk result (string_bytes out.new ≡ string_bytes out.old ++ links_text e.now) }
{
    let LinksEntry { count, time } = *e;
    writeln!(out, "links {count} time {time}")
}
