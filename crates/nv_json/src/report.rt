//! The whole object, and its text.

ghost use Rattle.std.specs.Prelude.{◌≡◌, IfOk, map, string_bytes};
ghost use Rattle.nv_report.specs.Shown.{shown_of};
ghost use Rattle.serde_json.specs.View.{view};
ghost use Rattle.nv_json.specs.Json.{array_of, pool_data, region_data, IsReport, TellsReport};

use crate::faults::faults_value;
use crate::inodes::rows_value;
use crate::lists::pools_value;
use nv_report::Shown;
use nv_super::Super;
use serde_json::{Value, json};
use std::alloc::{AllocError, Global};

/// A recovery as the text of one JSON object. Errors: `AllocError` where a growth was refused.
pub fn report_json(alloc: Global, shown: &Shown<'_>) -> Result<String, AllocError>
    ensures { IfOk result (λ text. TellsReport (shown_of shown.now) (string_bytes text)) }
{
    let report = report_value(alloc, shown)?;
    report.to_string(alloc)
}

fn report_value(alloc: Global, shown: &Shown<'_>) -> Result<Value, AllocError>
    ensures { IfOk result (λ v. IsReport (shown_of shown.now) (view v)) }
{
    json!(in alloc; {
        "region": region_value(alloc, shown.sup)?,
        "inodes": rows_value(alloc, shown.rows)?,
        "free": free_value(alloc, shown)?,
        "faults": faults_value(alloc, shown.faults)?
    })
}

// The free runs of each CPU's pool.
fn free_value(alloc: Global, shown: &Shown<'_>) -> Result<Value, AllocError>
    ensures { IfOk result (λ v. view v ≡ array_of (map pool_data (shown_of shown.now).free)) }
{
    let lists = shown.free.lists()?;
    pools_value(alloc, &lists)
}

fn region_value(alloc: Global, sup: &Super) -> Result<Value, AllocError>
    ensures { IfOk result (λ v. view v ≡ region_data sup.now) }
{
    let Super {
        version,
        cpus,
        blocks,
        table_blocks,
        state,
    } = *sup;
    json!(in alloc; {
        "version": version,
        "tables": table_blocks,
        "state": state,
        "cpus": cpus,
        "blocks": blocks
    })
}
