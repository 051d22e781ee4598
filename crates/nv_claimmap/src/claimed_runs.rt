//! Claims as the runs that were claimed.

ghost use Rattle.std.specs.Prelude.{◌≡◌, ◌+◌, ◌^◌, ◌≤◌, ◌<◌, ◌++◌, [], IfOk, OnOk, OnErr, length};
ghost use Rattle.std.specs.List.{All};
ghost use Rattle.nv_super.specs.Owners.{page_end, pairs};
ghost use Rattle.nv_claimmap.specs.ClaimedRuns.{FitsWords, AllFit, run_pairs, all_pairs, lists_pairs};

use nv_super::{Owner, Run};
use std::alloc::{AllocError, Global};
use std::marker::Model;

/// A run that was claimed, and the owner of its first block. The owner's page is raised by one from block to block.
#[derive(Clone, Copy)]
pub struct OwnedRun {
    pub run: Run,
    pub owner: Owner,
}

/// Claims as the runs that were claimed, each with the owner of its first block. Contracts see each block with its owner.
#[derive(Drop)]
pub struct ClaimedRuns {
    lists: Vec<Vec<OwnedRun>>,
}

impl Model for ClaimedRuns {
    ghost use Rattle.nv_claimmap.specs.ClaimList.{ClaimList};
    ghost use Rattle.nv_claimmap.specs.ClaimedRuns.{lists_pairs, AllFit};

    ghost Value = { ClaimList };

    ghost view = { λ c. record { items = lists_pairs c.lists.items } };

    ghost invariant = { λ c. AllFit c.lists.items };
}

impl ClaimedRuns {
    /// No claims. It takes no memory.
    pub fn new(alloc: Global) -> ClaimedRuns
        ensures { result.items ≡ [] }
    {
        ClaimedRuns {
            lists: Vec::new(alloc),
        }
    }

    /// Puts the blocks of a run to the end. What the run and the owner's pages end before is at most 2^64.
    ///
    /// Errors: `AllocError` where a growth was refused; the claims are what they were.
    pub fn push(&mut self, run: Run, owner: Owner) -> Result<(), AllocError>
        requires { (run.start + run.count ≤ 2 ^ 64) × (page_end owner run.count ≤ 2 ^ 64) }
        ensures ok { OnOk result (self.new.items ≡ self.old.items ++ pairs run.start owner run.count) }
        ensures err { OnErr result (self.new.items ≡ self.old.items) }
    {
        open_first(&mut self.lists)?;
        push_last(&mut self.lists, OwnedRun { run, owner })
    }

    /// Moves the claims of the other to the end, list by list, so that none of them is copied.
    ///
    /// Errors: `AllocError` where a growth was refused; both are what they were.
    pub fn append(&mut self, other: &mut ClaimedRuns) -> Result<(), AllocError>
        ensures ok { OnOk result (self.new.items ≡ self.old.items ++ other.old.items) }
        ensures other_ok { OnOk result (other.new.items ≡ []) }
        ensures err { OnErr result (self.new.items ≡ self.old.items) }
        ensures other_err { OnErr result (other.new.items ≡ other.old.items) }
    {
        self.lists.append(&mut other.lists)
    }

    /// The runs in their order, as lists one after the other.
    pub fn lists(&self) -> &[Vec<OwnedRun>]
        ensures items { self.now.items ≡ lists_pairs result.now }
        ensures fit { AllFit result.now }
    {
        &self.lists
    }

    /// Each block with its owner.
    ///
    /// Errors: `AllocError` where the list's memory was refused.
    pub fn to_list(&self, alloc: Global) -> Result<Vec<(u64, Owner)>, AllocError>
        ensures { IfOk result (λ list. list.items ≡ self.now.items) }
    {
        let mut list = Vec::new(alloc);
        for runs in self.lists() {
            list_runs(&mut list, runs)?;
        }
        Ok(list)
    }
}

// Makes a first list where there is none.
fn open_first(lists: &mut Vec<Vec<OwnedRun>>) -> Result<(), AllocError>
    ensures pairs { lists_pairs lists.new.items ≡ lists_pairs lists.old.items }
    ensures fit { AllFit lists.old.items → AllFit lists.new.items }
    ensures some { OnOk result (0 < length lists.new.items) }
{
    if lists.is_empty() {
        let alloc = *lists.allocator();
        lists.push(Vec::new(alloc))?;
    }
    Ok(())
}

// Puts a run to the end of the last list.
fn push_last(lists: &mut Vec<Vec<OwnedRun>>, run: OwnedRun) -> Result<(), AllocError>
    requires { 0 < length lists.old.items }
    ensures ok { OnOk result (lists_pairs lists.new.items ≡ lists_pairs lists.old.items ++ run_pairs run) }
    ensures err { OnErr result (lists_pairs lists.new.items ≡ lists_pairs lists.old.items) }
    ensures fit { AllFit lists.old.items → FitsWords run → AllFit lists.new.items }
{
    let last = lists.len() - 1;
    lists[last].push(run)?;
    Ok(())
}

// Lists the blocks of some runs, each with its owner.
fn list_runs(list: &mut Vec<(u64, Owner)>, runs: &[OwnedRun]) -> Result<(), AllocError>
    requires { All FitsWords runs.now }
    ensures { OnOk result (list.new.items ≡ list.old.items ++ all_pairs runs.now) }
{
    for run in runs {
        list_run(list, run)?;
    }
    Ok(())
}

// Lists the blocks of a run.
fn list_run(list: &mut Vec<(u64, Owner)>, run: &OwnedRun) -> Result<(), AllocError>
    requires { FitsWords run.now }
    ensures { OnOk result (list.new.items ≡ list.old.items ++ run_pairs run.now) }
{
    let OwnedRun { run, owner } = *run;
    for by in 0..run.count {
        list.push((run.start + by, owner.raised(by)))?;
    }
    Ok(())
}
