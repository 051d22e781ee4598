//! The report of a recovery, whose inodes are written by several threads: the first writes behind the line of the region, and what the
//! others wrote is put behind that.

ghost use Rattle.std.specs.Prelude.{◌≡◌, ◌++◌, IfOk, OnOk, map, string_bytes};
ghost use denote.Param.Send.{IsSync};
ghost use Rattle.nv_outcome.specs.Answer.{outcome_of};
ghost use Rattle.nv_report.specs.Texts.{IsReportText, IsTreeText, AddsText};

use crate::rows::push_row;
use crate::shown::Shown;
use crate::texts::push_free;
use nv_outcome::{Recovered, Rows};
use nv_scan::Row;
use nv_text::{push_faults, push_region_line};
use std::alloc::{AllocError, Global};
use std::thread::{Threads, join};

// For fewer inodes than these another thread isn't worth its start.
const FEW_ROWS: usize = 512;

/// The whole report of a recovery: `part_text` of `Part::Report`, for which so many threads write the inodes.
///
/// Errors: `AllocError` where a growth was refused.
pub fn report_text<H: Threads + Sync>(
    rt: &H,
    alloc: Global,
    recovered: &Recovered,
    threads: u64,
) -> Result<String, AllocError>
    ensures { IfOk result (λ text. IsReportText (outcome_of recovered.now) (string_bytes text)) }
{
    let shown = Shown::of(recovered);
    let rows = listed(alloc, shown.rows)?;
    let mut first = String::new(alloc);
    push_region_line(&mut first, shown.sup)?;
    let mut text = with_tree(rt, alloc, first, &rows, threads)?;
    push_free(&mut text, shown.free)?;
    push_faults(&mut text, shown.faults)?;
    Ok(text)
}

// The rows one after another.
fn listed<'a>(alloc: Global, rows: &'a Rows) -> Result<Vec<&'a Row>, AllocError>
    ensures { IfOk result (λ list. map (λ row. row.now) list.items ≡ rows.now.items) }
{
    let mut list = Vec::with_capacity(alloc, rows.len())?;
    for (_, row) in rows.iter() {
        list.push(row)?;
    }
    Ok(list)
}

// A text with those of these inodes behind it, written by so many threads, or by fewer where there are few. The first thread
// writes behind the text itself, and only what others wrote is copied.
fn with_tree<H: Threads + Sync>(
    rt: &H,
    alloc: Global,
    text: String,
    rows: &[&Row],
    threads: u64,
) -> Result<String, AllocError>
    ensures { IfOk result (λ all. AddsText (IsTreeText (map (λ row. row.now) rows.now)) (string_bytes text) (string_bytes all)) }
{
    if threads < 2 || rows.len() < FEW_ROWS {
        return with_rows(text, rows);
    }
    let (first, second) = rows.split_at(rows.len() / 2);
    let none = String::new(alloc);
    let (left, right) = join(
        rt,
        || -> Result<String, AllocError>
            requires { IsSync H.row }
            ensures { IfOk result (λ all. AddsText (IsTreeText (map (λ row. row.now) first.entry.now)) (string_bytes text) (string_bytes all)) }
        { with_tree(rt, alloc, text, first, threads / 2) },
        || -> Result<String, AllocError>
            requires { IsSync H.row }
            ensures { IfOk result (λ all. AddsText (IsTreeText (map (λ row. row.now) second.entry.now)) (string_bytes none) (string_bytes all)) }
        { with_tree(rt, alloc, none, second, threads - threads / 2) },
    );
    let mut all = left?;
    all.push_str(&right?)?;
    Ok(all)
}

// The same, written by this thread.
fn with_rows(text: String, rows: &[&Row]) -> Result<String, AllocError>
    ensures { IfOk result (λ all. AddsText (IsTreeText (map (λ row. row.now) rows.now)) (string_bytes text) (string_bytes all)) }
{
    let mut all = text;
    for row in rows {
        push_row(&mut all, row)?;
    }
    Ok(all)
}
