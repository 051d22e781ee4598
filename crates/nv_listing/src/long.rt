//! The lines of names, each behind the numbers of its inode.

ghost use Rattle.std.specs.Prelude.{◌≡◌, ◌++◌, OnOk, map, string_bytes};
ghost use Rattle.nv_names.specs.Names.{line_of};
ghost use Rattle.nv_report.specs.Texts.{AddsText};
ghost use Rattle.nv_rows.specs.Rows.{row_of};
ghost use Rattle.nv_listing.specs.Long.{IsLongText, kind_text, long_head, long_line, long_lines, size_text, whose_text};

use nv_names::Named;
use nv_rows::Rows;
use nv_scan::Row;
use nv_text::push_list_line;
use std::alloc::AllocError;
use std::fmt::Write;

/// Puts the names of the directory of a row to a text, a line each and rising by bytes: the kind, the mode, the links, the owner, the
/// group, the size and the time of its inode, then the name and the inode's number. Where none of the rows is the inode's, `unused`
/// stands in place of its numbers.
///
/// Errors: `AllocError` where a growth was refused; of the text nothing is said then.
pub fn push_long_list(out: &mut String, rows: &Rows, row: &Row) -> Result<(), AllocError>
    ensures { OnOk result (AddsText (IsLongText rows.now.items row.now) (string_bytes out.old) (string_bytes out.new)) }
{
    let listed = row.names.list()?;
    push_names(out, rows, &listed)
}

pub(crate) fn push_names(
    out: &mut String,
    rows: &Rows,
    listed: &[Named<'_>],
) -> Result<(), AllocError>
    ensures { OnOk result (string_bytes out.new ≡ string_bytes out.old ++ long_lines rows.now.items (map line_of listed.now)) }
{
    for named in listed {
        push_long_line(out, rows, named)?;
    }
    Ok(())
}

fn push_long_line(out: &mut String, rows: &Rows, named: &Named<'_>) -> Result<(), AllocError>
    ensures { OnOk result (string_bytes out.new ≡ string_bytes out.old ++ long_line rows.now.items named.now.name.now named.now.inode) }
{
    push_head(out, rows, named.inode)?;
    push_list_line(out, named.name, named.inode)
}

// The numbers of an inode, if it is in use.
fn push_head(out: &mut String, rows: &Rows, inode: u64) -> Result<(), AllocError>
    ensures { OnOk result (string_bytes out.new ≡ string_bytes out.old ++ long_head (row_of rows.now.items inode)) }
{
    match rows.get(inode) {
        Some(row) => push_numbers(out, row),
        None => out.push_str("unused "),
    }
}

fn push_numbers(out: &mut String, row: &Row) -> Result<(), AllocError>
    ensures { OnOk result (string_bytes out.new ≡ string_bytes out.old ++ (kind_text row.now ++ whose_text row.now ++ size_text row.now)) }
{
    push_kind(out, row)?;
    push_whose(out, row)?;
    push_size(out, row)
}

fn push_kind(out: &mut String, row: &Row) -> Result<(), AllocError>
    ensures { OnOk result (string_bytes out.new ≡ string_bytes out.old ++ kind_text row.now) }
{
    let (kind, mode, links) = (row.kind, row.numbers.mode, row.numbers.links);
    write!(out, "{kind} {mode} {links} ")
}

fn push_whose(out: &mut String, row: &Row) -> Result<(), AllocError>
    ensures { OnOk result (string_bytes out.new ≡ string_bytes out.old ++ whose_text row.now) }
{
    let (owner, group) = (row.numbers.owner, row.numbers.group);
    write!(out, "{owner} {group} ")
}

fn push_size(out: &mut String, row: &Row) -> Result<(), AllocError>
    ensures { OnOk result (string_bytes out.new ≡ string_bytes out.old ++ size_text row.now) }
{
    let (size, time) = (row.numbers.size, row.numbers.time);
    write!(out, "{size} {time} ")
}
