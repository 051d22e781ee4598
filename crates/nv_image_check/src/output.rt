//! What a check writes of a region that it recovered.

ghost use Rattle.std.specs.Prelude.{IfOk, string_bytes};
ghost use Rattle.nv_super.specs.Layout.{HasAreas};
ghost use Rattle.nv_outcome.specs.Answer.{outcome_of};
ghost use Rattle.nv_image_check.specs.Checking.{IsOutputText};
ghost use Rattle.nv_text.specs.declared.output.Output.TheVariants as outputs;

use nv_json::report_json;
use nv_report::{Part, Recovered, Shown, part_text, report_text, summary_text};
use nv_text::Output;
use std::alloc::{AllocError, Global};
use std::thread::Threads;

/// The text of a recovery for such an output. As many threads as asked for write a report.
///
/// Errors: `AllocError` where a growth was refused.
pub fn output_text<H: Threads + Sync>(
    rt: &H,
    alloc: Global,
    recovered: &Recovered,
    output: Output,
    threads: u64,
) -> Result<String, AllocError>
    requires areas { HasAreas recovered.now.sup }
    ensures { IfOk result (λ text. IsOutputText output (outcome_of recovered.now) (string_bytes text)) }
{
    match output {
        Output::Report => report_text(rt, alloc, recovered, threads),
        Output::Summary => summary_text(alloc, recovered),
        Output::OnlyFaults => part_text(alloc, recovered, Part::Faults),
        Output::Json => json_text(alloc, recovered),
    }
}

// The report as a JSON object on a line.
fn json_text(alloc: Global, recovered: &Recovered) -> Result<String, AllocError>
    ensures { IfOk result (λ text. IsOutputText outputs.Json (outcome_of recovered.now) (string_bytes text)) }
{
    let mut text = report_json(alloc, &Shown::of(recovered))?;
    text.push_str("\n")?;
    Ok(text)
}
