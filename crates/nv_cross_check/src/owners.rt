//! Blocks with two owners or more.

ghost use Rattle.std.specs.Prelude.{◌≡◌, ◌<◌, ◌*◌, ◌++◌, ℕ, length, slice_index, EachIndex, IfOk, OnOk, IsTrue};
ghost use Rattle.std.specs.List.{All};
ghost use Rattle.nv_super.specs.declared.owners.Owner.{Owner as OwnerValue};
ghost use Rattle.nv_claimmap.specs.ClaimedRuns.{FitsWords, run_pairs, all_pairs};
ghost use Rattle.nv_cross_check.specs.Doubled.{AreDoubled, AreCovered, claims_in_set};

use nv_blockset::contains;
use nv_claimmap::{ClaimedRuns, OwnedRun};
use nv_super::{Owner, sort_claims};
use std::alloc::{AllocError, Global};

/// All claims of the blocks in the second set, each once, rising by block and owner: also the one that came first.
///
/// Block b is bit `b % 64` of word `b / 64` of the set, which has a word for each claim's block.
///
/// Errors: `AllocError` where a growth was refused.
pub fn doubled(
    alloc: Global,
    claims: &ClaimedRuns,
    second: &[u64],
) -> Result<Vec<(u64, Owner)>, AllocError>
    requires covers { All (λ (x : ℕ × OwnerValue). x.0 < 64 * length second.now) claims.now.items }
    ensures { IfOk result (λ found. AreDoubled claims.now.items second.now found.items) }
{
    let mut found = Vec::new(alloc);
    // Most regions have no such block, and many claims.
    if is_empty(second) {
        return Ok(found);
    }
    for runs in claims.lists() {
        find_in_runs(&mut found, runs, second)?;
    }
    sort_claims(&mut found);
    Ok(found)
}

// Puts the claims of these runs whose blocks are in the set to those found.
fn find_in_runs(
    found: &mut Vec<(u64, Owner)>,
    runs: &[OwnedRun],
    second: &[u64],
) -> Result<(), AllocError>
    requires fit { All FitsWords runs.now }
    requires covers { AreCovered second.now (all_pairs runs.now) }
    ensures { OnOk result (found.new.items ≡ found.old.items ++ claims_in_set second.now (all_pairs runs.now)) }
{
    for run in runs {
        find_in_run(found, run, second)?;
    }
    Ok(())
}

// Puts the claims of this run whose blocks are in the set to those found.
fn find_in_run(
    found: &mut Vec<(u64, Owner)>,
    run: &OwnedRun,
    second: &[u64],
) -> Result<(), AllocError>
    requires fits { FitsWords run.now }
    requires covers { AreCovered second.now (run_pairs run.now) }
    ensures { OnOk result (found.new.items ≡ found.old.items ++ claims_in_set second.now (run_pairs run.now)) }
{
    let OwnedRun { run, owner } = *run;
    for by in 0..run.count {
        let block = run.start + by;
        if contains(second, block) {
            found.push((block, owner.raised(by)))?;
        }
    }
    Ok(())
}

/// Whether no block is in the set.
fn is_empty(words: &[u64]) -> bool
    ensures { IsTrue result → EachIndex words.now (λ k. slice_index words.now k ≡ 0) }
{
    words.iter().all(|word| *word == 0)
}
