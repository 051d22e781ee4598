//! Which pages of a file get new blocks by a write, the entries that say so, and the blocks that these pages have.

ghost use Rattle.std.specs.Prelude.{◌≡◌, ◌+◌, ◌<◌, ◌≤◌, ◌^◌, ◌++◌, length, IfOk, IfSome, vec_len, vec_capacity};
ghost use Rattle.std.specs.List.{Contains};
ghost use Rattle.nv_super.specs.declared.owners.Run.{Run as RunValue};
ghost use Rattle.nv_alloc.specs.Taking.{blocks_in, left, taken};
ghost use Rattle.nv_radix.specs.Pages.{block_at};
ghost use Rattle.nv_steps.specs.Writes.{data_blocks, data_entries, page_blocks, plan_of, replaced_blocks, run_entries};

use nv_entry::{Entry, WriteEntry};
use nv_radix::FileIndex;
use nv_super::{BLOCK_SIZE, Run};
use std::alloc::{AllocError, Global};

/// Which pages of a file get new blocks by a write.
#[derive(Clone, Copy)]
pub struct Plan {
    /// The file's bytes after the write.
    pub size: u64,
    pub time: u64,
    /// The first page with new bytes.
    pub first: u64,
    /// How many pages have new bytes.
    pub pages: u64,
    /// The page where the file ended, where it is copied: it has a block, and the new bytes come behind it.
    pub ending: Option<u64>,
}

impl Plan {
    /// What a write of so many bytes, of which there are some, does to a file of these pages and this size.
    pub fn new(index: &FileIndex, size: u64, offset: u64, count: u64, time: u64) -> Plan
        requires some { 0 < count }
        requires small { offset + count ≤ 2 ^ 62 }
        ensures { result ≡ plan_of (block_at index.now) size offset count time }
    {
        let first = offset / BLOCK_SIZE;
        let page = size / BLOCK_SIZE;
        let ends_before = size % BLOCK_SIZE != 0 && page < first;
        Plan {
            size: size.max(offset + count),
            time,
            first,
            pages: (offset + count - 1) / BLOCK_SIZE + 1 - first,
            ending: if ends_before && index.get(page).is_some() {
                Some(page)
            } else {
                None
            },
        }
    }

    /// How many blocks of data it takes.
    pub(crate) fn blocks(&self) -> u64
        requires { self.now.pages < 2 ^ 62 }
        ensures { result ≡ data_blocks self.now }
    {
        self.pages + u64::from(self.ending.is_some())
    }
}

/// The entries over the blocks that were taken, in runs of which none is empty.
pub(crate) fn data_entries(
    alloc: Global,
    plan: &Plan,
    runs: &[Run],
) -> Result<Vec<Entry>, AllocError>
    requires some { 0 < length runs.now }
    requires blocks { (r : RunValue) → Contains runs.now r → (0 < r.count) × (r.start < 2 ^ 62) }
    requires ending { IfSome plan.now.ending (λ p. p < 2 ^ 31) }
    requires pages { plan.now.first + blocks_in runs.now < 2 ^ 31 }
    ensures { IfOk result (λ entries. entries.items ≡ data_entries plan.now runs.now) }
{
    let mut entries = Vec::with_capacity(alloc, runs.len() + 1)?;
    match plan.ending {
        Some(page) => push_apart(&mut entries, plan, page, runs),
        None => push_entries(&mut entries, plan, plan.first, runs),
    }
    Ok(entries)
}

/// Adds the entry of one page over the first block, and those of the pages with new bytes over the others.
fn push_apart(entries: &mut Vec<Entry>, plan: &Plan, page: u64, runs: &[Run])
    requires some { 0 < length runs.now }
    requires blocks { (r : RunValue) → Contains runs.now r → (0 < r.count) × (r.start < 2 ^ 62) }
    requires page { page < 2 ^ 31 }
    requires pages { plan.now.first + blocks_in runs.now < 2 ^ 31 }
    requires room { vec_len entries.old + length runs.now + 1 ≤ vec_capacity entries.old }
    ensures { entries.new.items ≡ entries.old.items ++ run_entries plan.now page (taken 1 runs.now) ++ run_entries plan.now plan.now.first (left 1 runs.now) }
{
    let Run { start, count } = runs[0];
    push_entries(entries, plan, page, &[Run { start, count: 1 }]);
    if count > 1 {
        let rest = Run {
            start: start + 1,
            count: count - 1,
        };
        push_entries(entries, plan, plan.first, &[rest]);
    }
    push_entries(entries, plan, plan.first + count - 1, &runs[1..]);
}

/// Adds an entry for each run, for the pages from one on.
fn push_entries(entries: &mut Vec<Entry>, plan: &Plan, first: u64, runs: &[Run])
    requires pages { first + blocks_in runs.now < 2 ^ 32 }
    requires room { vec_len entries.old + length runs.now ≤ vec_capacity entries.old }
    ensures items { entries.new.items ≡ entries.old.items ++ run_entries plan.now first runs.now }
    ensures room { vec_capacity entries.new ≡ vec_capacity entries.old }
{
    let mut page = first;
    for run in runs {
        entries.push_reserved(Entry::Write(WriteEntry {
            count: run.count as u32,
            offset: page,
            block: run.start,
            size: plan.size,
            time: plan.time,
        }));
        page += run.count;
    }
}

/// The blocks that the pages of a write have, each as a run.
pub(crate) fn replaced_blocks(
    alloc: Global,
    index: &FileIndex,
    plan: &Plan,
) -> Result<Vec<Run>, AllocError>
    requires pages { plan.now.first + plan.now.pages < 2 ^ 31 }
    requires ending { IfSome plan.now.ending (λ p. p < 2 ^ 31) }
    ensures blocks { IfOk result (λ runs. runs.items ≡ replaced_blocks index.now plan.now) }
    ensures count { IfOk result (λ runs. length runs.items ≤ data_blocks plan.now) }
{
    let mut runs = Vec::with_capacity(alloc, plan.blocks() as usize)?;
    if let Some(page) = plan.ending {
        push_blocks(&mut runs, index, page, 1);
    }
    push_blocks(&mut runs, index, plan.first, plan.pages);
    Ok(runs)
}

/// Adds the blocks of pages from one on, each as a run.
fn push_blocks(runs: &mut Vec<Run>, index: &FileIndex, first: u64, count: u64)
    requires pages { first + count < 2 ^ 32 }
    requires room { vec_len runs.old + count ≤ vec_capacity runs.old }
    ensures blocks { runs.new.items ≡ runs.old.items ++ page_blocks index.now first count }
    ensures room { vec_capacity runs.new ≡ vec_capacity runs.old }
    ensures count { vec_len runs.new ≤ vec_len runs.old + count }
{
    for page in first..first + count {
        if let Some(block) = index.get(page) {
            runs.push_reserved(Run {
                start: block,
                count: 1,
            });
        }
    }
}
