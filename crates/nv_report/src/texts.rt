//! The texts of a recovery's answer, each whole before any byte of it is written.

ghost use Rattle.std.specs.Prelude.{◌≡◌, ◌++◌, IfOk, OnOk, string_bytes};
ghost use Rattle.nv_text.specs.Answers.{refused_line};
ghost use Rattle.nv_text.specs.Refusals.{refusal_name};
ghost use Rattle.nv_text.specs.Free.{free_lines};
ghost use Rattle.nv_outcome.specs.Answer.{outcome_of};
ghost use Rattle.nv_report.specs.Shown.{shown_of};
ghost use Rattle.nv_report.specs.Texts.{recovered_text, IsPartText, IsReportText, AddsText};

use crate::part::Part;
use crate::rows::push_rows;
use crate::shown::Shown;
use nv_alloc::Allocators;
use nv_outcome::Recovered;
use nv_text::{
    Refusal, push_faults, push_free_lines, push_recovered, push_refused, push_region_line,
};
use std::alloc::{AllocError, Global};

/// The line of a command that is refused. Errors: `AllocError` where a growth was refused.
pub fn refused_text(alloc: Global, refusal: Refusal) -> Result<String, AllocError>
    ensures { IfOk result (λ text. string_bytes text ≡ refused_line (refusal_name refusal)) }
{
    let mut text = String::new(alloc);
    push_refused(&mut text, refusal)?;
    Ok(text)
}

/// The line that tells of a recovery: how many inodes are in use, how many data blocks are free, and how many faults
/// there are. Errors: `AllocError` where a growth was refused.
pub fn recovered_text(alloc: Global, recovered: &Recovered) -> Result<String, AllocError>
    ensures { IfOk result (λ text. string_bytes text ≡ recovered_text (outcome_of recovered.now)) }
{
    let inodes = recovered.rows.len() as u64;
    let free = recovered.free.free_blocks();
    let faults = recovered.faults.len() as u64;
    let mut text = String::new(alloc);
    push_recovered(&mut text, inodes, free, faults)?;
    Ok(text)
}

/// A part of what a recovery found, or all of it. Errors: `AllocError` where a growth was refused.
pub fn part_text(alloc: Global, recovered: &Recovered, part: Part) -> Result<String, AllocError>
    ensures { IfOk result (λ text. IsPartText part (outcome_of recovered.now) (string_bytes text)) }
{
    shown_text(alloc, &Shown::of(recovered), part)
}

/// A part of what is told of a region, or all of it. Errors: `AllocError` where a growth was refused.
pub fn shown_text(alloc: Global, shown: &Shown<'_>, part: Part) -> Result<String, AllocError>
    ensures { IfOk result (λ text. IsPartText part (shown_of shown.now) (string_bytes text)) }
{
    let mut text = String::new(alloc);
    push_part(&mut text, shown, part)?;
    Ok(text)
}

fn push_part(out: &mut String, shown: &Shown<'_>, part: Part) -> Result<(), AllocError>
    ensures { OnOk result (AddsText (IsPartText part (shown_of shown.now)) (string_bytes out.old) (string_bytes out.new)) }
{
    match part {
        Part::Tree => push_rows(out, shown.rows),
        Part::Free => push_free(out, shown.free),
        Part::Faults => push_faults(out, shown.faults),
        Part::Report => push_report(out, shown),
    }
}

fn push_report(out: &mut String, shown: &Shown<'_>) -> Result<(), AllocError>
    ensures { OnOk result (AddsText (IsReportText (shown_of shown.now)) (string_bytes out.old) (string_bytes out.new)) }
{
    push_region_line(out, shown.sup)?;
    push_rows(out, shown.rows)?;
    push_free(out, shown.free)?;
    push_faults(out, shown.faults)
}

pub(crate) fn push_free(out: &mut String, free: &Allocators) -> Result<(), AllocError>
    ensures { OnOk result (string_bytes out.new ≡ string_bytes out.old ++ free_lines free.now.pools) }
{
    let lists = free.lists()?;
    push_free_lines(out, &lists)
}
