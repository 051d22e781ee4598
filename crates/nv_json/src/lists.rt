//! Lists of blocks, of extents and of free runs.

ghost use Rattle.std.specs.Prelude.{◌≡◌, IfOk, map};
ghost use Rattle.serde_json.specs.View.{view};
ghost use Rattle.nv_json.specs.Json.{num, extent_data, run_data, array_of, pool_data};

use nv_radix::Extent;
use nv_super::Run;
use serde_json::{Value, json};
use std::alloc::{AllocError, Global};

/// A list of these.
pub(crate) fn list_value(items: Vec<Value>) -> Value
    ensures { view result ≡ array_of (map view items.items) }
{
    Value::Array(items)
}

/// The numbers of blocks.
pub(crate) fn blocks_value(alloc: Global, blocks: &[u64]) -> Result<Value, AllocError>
    ensures { IfOk result (λ v. view v ≡ array_of (map num blocks.now)) }
{
    let mut items = Vec::new(alloc);
    for block in blocks {
        items.push(Value::from(*block))?;
    }
    Ok(list_value(items))
}

/// The extents of a file.
pub(crate) fn extents_value(alloc: Global, extents: &[Extent]) -> Result<Value, AllocError>
    ensures { IfOk result (λ v. view v ≡ array_of (map extent_data extents.now)) }
{
    let mut items = Vec::new(alloc);
    for extent in extents {
        items.push(extent_value(alloc, extent)?)?;
    }
    Ok(list_value(items))
}

fn extent_value(alloc: Global, extent: &Extent) -> Result<Value, AllocError>
    ensures { IfOk result (λ v. view v ≡ extent_data extent.now) }
{
    let Extent { page, count, block } = *extent;
    json!(in alloc; {"page": page, "count": count, "block": block})
}

/// The free runs of each CPU's pool.
pub(crate) fn pools_value(alloc: Global, pools: &[Vec<Run>]) -> Result<Value, AllocError>
    ensures { IfOk result (λ v. view v ≡ array_of (map pool_data (map (λ runs. runs.items) pools.now))) }
{
    let mut items = Vec::new(alloc);
    for runs in pools {
        items.push(runs_value(alloc, runs)?)?;
    }
    Ok(list_value(items))
}

fn runs_value(alloc: Global, runs: &[Run]) -> Result<Value, AllocError>
    ensures { IfOk result (λ v. view v ≡ pool_data runs.now) }
{
    let mut items = Vec::new(alloc);
    for run in runs {
        items.push(run_value(alloc, run)?)?;
    }
    Ok(list_value(items))
}

fn run_value(alloc: Global, run: &Run) -> Result<Value, AllocError>
    ensures { IfOk result (λ v. view v ≡ run_data run.now) }
{
    let Run { start, count } = *run;
    json!(in alloc; {"start": start, "count": count})
}
