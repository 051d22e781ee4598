//! The texts of the inodes in use: for each its numbers, its log, and its names or the extents of its pages.

ghost use Rattle.std.specs.Prelude.{◌≡◌, ◌++◌, OnOk, map, string_bytes};
ghost use Rattle.nv_names.specs.Names.{line_of};
ghost use Rattle.nv_super.specs.declared.kind.Kind.TheVariants as kinds;
ghost use Rattle.nv_report.specs.Texts.{row_head, names_text, extents_text, IsContentText, IsRowText, IsTreeText, AddsText};

use nv_names::Named;
use nv_outcome::Rows;
use nv_radix::Extent;
use nv_rows::stat_of;
use nv_scan::Row;
use nv_super::Kind;
use nv_text::{push_inode_line, push_log_line, push_name_line, push_page_line};
use std::alloc::AllocError;

/// The texts of the inodes, one after another.
pub fn push_rows(out: &mut String, rows: &Rows) -> Result<(), AllocError>
    ensures { OnOk result (AddsText (IsTreeText rows.now.items) (string_bytes out.old) (string_bytes out.new)) }
{
    for (_, row) in rows.iter() {
        push_row(out, row)?;
    }
    Ok(())
}

pub(crate) fn push_row(out: &mut String, row: &Row) -> Result<(), AllocError>
    ensures { OnOk result (AddsText (IsRowText row.now) (string_bytes out.old) (string_bytes out.new)) }
{
    push_row_head(out, row)?;
    push_content(out, row)
}

fn push_row_head(out: &mut String, row: &Row) -> Result<(), AllocError>
    ensures { OnOk result (string_bytes out.new ≡ string_bytes out.old ++ row_head row.now) }
{
    push_inode_line(out, &stat_of(row))?;
    push_log_line(out, &row.pages, row.tail)
}

fn push_content(out: &mut String, row: &Row) -> Result<(), AllocError>
    ensures { OnOk result (AddsText (IsContentText row.now.kind row.now.index row.now.names) (string_bytes out.old) (string_bytes out.new)) }
{
    match row.kind {
        Kind::Directory => {
            let listed = row.names.list()?;
            push_names(out, &listed)
        }
        Kind::File => {
            let extents = row.index.runs()?;
            push_extents(out, &extents)
        }
    }
}

fn push_names(out: &mut String, listed: &[Named<'_>]) -> Result<(), AllocError>
    ensures { OnOk result (string_bytes out.new ≡ string_bytes out.old ++ names_text (map line_of listed.now)) }
{
    for named in listed {
        push_name_line(out, named.name, named.inode)?;
    }
    Ok(())
}

fn push_extents(out: &mut String, extents: &[Extent]) -> Result<(), AllocError>
    ensures { OnOk result (string_bytes out.new ≡ string_bytes out.old ++ extents_text extents.now) }
{
    for extent in extents {
        push_page_line(out, extent.page, extent.count, extent.block)?;
    }
    Ok(())
}
