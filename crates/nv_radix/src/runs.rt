//! Runs of pages in the order of their first pages, of which no two have a page in common.

ghost use Rattle.std.specs.Prelude.{◌≡◌, ℕ, ◌+◌, ◌-◌, ◌^◌, ◌<◌, ◌≤◌, ◌&&◌, ◌∷◌, if◌then◌else◌, nat_le, nat_lt, Some, None, IfSome, IfNone, IsTrue, false, OnOk, OnErr};
ghost use Rattle.nv_radix.specs.Pages.{in_run};
ghost use Rattle.nv_radix.specs.Runs.{block_by, run_at, front_of, AreRuns, HasRunOf, IsRun, IsLastBefore, Puts};

use std::alloc::AllocError;
use std::collections::BTreeMap;

/// The blocks of a run of pages, which follow one another as the pages do.
#[derive(Clone, Copy)]
pub struct Blocks {
    /// The block of the first page.
    pub start: u64,
    /// The number of pages, and of blocks.
    pub count: u64,
}

/// The blocks of each run, by its first page.
pub(crate) type Runs = BTreeMap<u64, Blocks>;

/// Maps the pages of a run to its blocks. Where a run of the very same pages stands, it is replaced at its place. An error
/// may leave some of the pages unmapped, and some behind them.
pub(crate) fn set(runs: &mut Runs, page: u64, blocks: Blocks) -> Result<(), AllocError>
    requires runs { AreRuns runs.old.entries }
    requires run { IsRun page blocks }
    ensures runs { AreRuns runs.new.entries }
    ensures fewer { OnErr result ((p : ℕ) → block_by runs.old.entries p ≡ None → block_by runs.new.entries p ≡ None) }
    ensures ok { OnOk result ((p : ℕ) → block_by runs.new.entries p ≡ (if in_run page blocks.count p then Some (blocks.start + (p - page)) else block_by runs.old.entries p)) }
{
    if replace(runs, page, blocks) {
        return Ok(());
    }
    clear(runs, page, page + blocks.count)?;
    put(runs, page, blocks)
}

/// Gives a run of the very same pages these blocks. Where there is none, nothing changes.
fn replace(runs: &mut Runs, page: u64, blocks: Blocks) -> bool
    ensures was { IsTrue result → HasRunOf runs.old.entries page blocks.count }
    ensures puts { IsTrue result → Puts runs.old.entries runs.new.entries page (Some blocks) }
    ensures same { result ≡ false → runs.new.entries ≡ runs.old.entries }
{
    match runs.get_mut(&page) {
        Some(had) if had.count == blocks.count => {
            *had = blocks;
            true
        }
        _ => false,
    }
}

/// Puts the last run, if it has pages, to the others, which all stand before it. An error changes nothing.
pub(crate) fn settle(runs: &mut Runs, page: u64, last: &mut Blocks) -> Result<(), AllocError>
    requires runs { AreRuns runs.old.entries }
    requires run { 0 < last.old.count → IsRun page last.old }
    requires behind { 0 < last.old.count → (p : ℕ) → page ≤ p → block_by runs.old.entries p ≡ None }
    ensures runs { AreRuns runs.new.entries }
    ensures err { OnErr result ((runs.new.entries ≡ runs.old.entries) × (last.new ≡ last.old)) }
    ensures none { OnOk result (last.new.count ≡ 0) }
    ensures ok { OnOk result ((p : ℕ) → block_by runs.new.entries p ≡ block_by ((page, last.old) ∷ runs.old.entries) p) }
{
    if last.count > 0 {
        append(runs, page, *last)?;
        last.count = 0;
    }
    Ok(())
}

/// Maps the pages of a run behind all others to its blocks. Where the last run goes on with it, that one becomes longer.
fn append(runs: &mut Runs, page: u64, blocks: Blocks) -> Result<(), AllocError>
    requires runs { AreRuns runs.old.entries }
    requires run { IsRun page blocks }
    requires end { (p : ℕ) → page ≤ p → block_by runs.old.entries p ≡ None }
    ensures runs { AreRuns runs.new.entries }
    ensures err { OnErr result (runs.new.entries ≡ runs.old.entries) }
    ensures ok { OnOk result ((p : ℕ) → block_by runs.new.entries p ≡ (if in_run page blocks.count p then Some (blocks.start + (p - page)) else block_by runs.old.entries p)) }
{
    match last_before(runs, page) {
        Some((first, front)) if goes_on(first, front, page, blocks.start) => {
            let count = front.count + blocks.count;
            put(runs, first, Blocks { count, ..front })
        }
        _ => put(runs, page, blocks),
    }
}

/// Whether a run goes on with this page and this block.
pub(crate) fn goes_on(first: u64, blocks: Blocks, page: u64, start: u64) -> bool
    ensures page { IsTrue result → first + blocks.count ≡ page }
    ensures block { IsTrue result → blocks.start + blocks.count ≡ start }
{
    page.checked_sub(first) == Some(blocks.count)
        && start.checked_sub(blocks.start) == Some(blocks.count)
}

/// Unmaps the pages from `first` up to `end`. An error may leave some of them unmapped, and some behind them.
pub(crate) fn clear(runs: &mut Runs, first: u64, end: u64) -> Result<(), AllocError>
    requires { AreRuns runs.old.entries }
    ensures runs { AreRuns runs.new.entries }
    ensures fewer { (p : ℕ) → block_by runs.old.entries p ≡ None → block_by runs.new.entries p ≡ None }
    ensures ok { OnOk result ((p : ℕ) → block_by runs.new.entries p ≡ (if nat_le first p && nat_lt p end then None else block_by runs.old.entries p)) }
{
    let mut rest = end;
    while first < rest {
        match last_before(runs, rest) {
            Some((page, blocks)) if first < page + blocks.count => {
                cut_out(runs, page, blocks, first, end)?;
                rest = page;
            }
            _ => return Ok(()),
        }
    }
    Ok(())
}

/// Unmaps those pages of a run that lie from `first` up to `end`: the pages before them, if there are any, stay at its
/// place, and those behind them begin a run of their own.
fn cut_out(
    runs: &mut Runs,
    page: u64,
    blocks: Blocks,
    first: u64,
    end: u64,
) -> Result<(), AllocError>
    requires runs { AreRuns runs.old.entries }
    requires is { run_at runs.old.entries page ≡ Some blocks }
    requires begins { page < end }
    requires ends { first < page + blocks.count }
    requires some { first < end }
    ensures runs { AreRuns runs.new.entries }
    ensures fewer { (p : ℕ) → block_by runs.old.entries p ≡ None → block_by runs.new.entries p ≡ None }
    ensures ok { OnOk result ((p : ℕ) → block_by runs.new.entries p ≡ (if in_run page blocks.count p && (nat_le first p && nat_lt p end) then None else block_by runs.old.entries p)) }
{
    keep_front(runs, page, blocks, first.saturating_sub(page))?;
    let behind = page + blocks.count;
    if end < behind {
        let start = blocks.start + (end - page);
        let count = behind - end;
        put(runs, end, Blocks { start, count })?;
    }
    Ok(())
}

/// Leaves the first `count` pages of a run.
fn keep_front(runs: &mut Runs, page: u64, blocks: Blocks, count: u64) -> Result<(), AllocError>
    ensures ok { OnOk result (Puts runs.old.entries runs.new.entries page (front_of blocks count)) }
    ensures err { OnErr result (runs.new.entries ≡ runs.old.entries) }
{
    if count == 0 {
        take_out(runs, page);
        return Ok(());
    }
    put(runs, page, Blocks { count, ..blocks })
}

/// The last run that begins before a page.
fn last_before(runs: &Runs, page: u64) -> Option<(u64, Blocks)>
    ensures some { IfSome result (IsLastBefore runs.now.entries page) }
    ensures none { IfNone result ((q : ℕ) → q < page → run_at runs.now.entries q ≡ None) }
{
    let (first, blocks) = runs.range(..page).next_back()?;
    Some((*first, *blocks))
}

/// The block that a page maps to, if it maps to one.
pub(crate) fn block_of(runs: &Runs, page: u64) -> Option<u64>
    requires runs { AreRuns runs.now.entries }
    requires number { page + 1 < 2 ^ 64 }
    ensures { result ≡ block_by runs.now.entries page }
{
    let (first, blocks) = last_before(runs, page + 1)?;
    if page - first < blocks.count {
        return Some(blocks.start + (page - first));
    }
    None
}

/// Gives the run that begins at a page these blocks, in place of those that it had.
fn put(runs: &mut Runs, page: u64, blocks: Blocks) -> Result<(), AllocError>
    ensures ok { OnOk result (Puts runs.old.entries runs.new.entries page (Some blocks)) }
    ensures err { OnErr result (runs.new.entries ≡ runs.old.entries) }
{
    let _had = runs.insert(page, blocks)?;
    Ok(())
}

/// Takes the run out that begins at a page.
fn take_out(runs: &mut Runs, page: u64)
    ensures { Puts runs.old.entries runs.new.entries page None }
{
    let _had = runs.remove(&page);
}
