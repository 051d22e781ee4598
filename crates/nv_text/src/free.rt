//! The lines of the free blocks: for each CPU's pool its runs.

ghost use Rattle.std.specs.Prelude.{◌≡◌, ◌++◌, OnOk, string_bytes, map, flat_map, codes};
ghost use Rattle.nv_text.specs.Free.{run_text, free_line, free_lines};

use nv_super::Run;
use std::alloc::AllocError;
use std::fmt::Write;

#[tactic(auto, unfolding(crate::specs::Free::run_text))]
fn push_run(out: &mut String, run: &Run) -> Result<(), AllocError>
    ensures { OnOk result (string_bytes out.new ≡ string_bytes out.old ++ run_text run.now) }
{
    let Run { start, count } = *run;
    if count == 1 {
        write!(out, "{start}")
    } else {
        // In 128 bits no sum is too large, whatever the run.
        let last = (u128::from(start) + u128::from(count)).saturating_sub(1);
        write!(out, "{start}-{last}")
    }
}

fn push_spaced_run(out: &mut String, run: &Run) -> Result<(), AllocError>
    ensures { OnOk result (string_bytes out.new ≡ string_bytes out.old ++ (codes " " ++ run_text run.now)) }
{
    out.push(' ')?;
    push_run(out, run)
}

fn push_runs(out: &mut String, runs: &[Run]) -> Result<(), AllocError>
    ensures { OnOk result (string_bytes out.new ≡ string_bytes out.old ++ flat_map (λ r. codes " " ++ run_text r) runs.now) }
{
    for run in runs {
        push_spaced_run(out, run)?;
    }
    Ok(())
}

/// `free C` and the runs of that CPU's pool: a space and `a-b`, or `a` for one block.
pub fn push_free_line(out: &mut String, cpu: u64, runs: &[Run]) -> Result<(), AllocError>
    ensures { OnOk result (string_bytes out.new ≡ string_bytes out.old ++ free_line cpu runs.now) }
{
    write!(out, "free {cpu}")?;
    push_runs(out, runs)?;
    out.push('\n')
}

/// The line of each CPU, from CPU 0 on.
pub fn push_free_lines(out: &mut String, pools: &[Vec<Run>]) -> Result<(), AllocError>
    ensures { OnOk result (string_bytes out.new ≡ string_bytes out.old ++ free_lines (map (λ runs. runs.items) pools.now)) }
{
    for (cpu, runs) in pools.iter().enumerate() {
        push_free_line(out, cpu as u64, runs)?;
    }
    Ok(())
}
