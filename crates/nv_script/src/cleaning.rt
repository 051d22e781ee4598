//! Cleaning the logs of a region: it is recovered on this thread, and pages go out of the log of one inode, or of each, until
//! no log has one that it can do without.
//!
//! If something is wrong with the region, or if the path leads to nothing, nothing is cleaned.

ghost use Rattle.std.specs.Prelude.{◌≡◌, ◌<◌, ℕ, suc, false, is_none, length, slice_index, IfOk, OnOk, IsTrue, Some, option_map, string_bytes};
ghost use Rattle.std.specs.Result.{result_err};
ghost use Rattle.nv_region.specs.Region.{Region};
ghost use Rattle.nv_region.specs.RegionState.{is_steady};
ghost use Rattle.nv_outcome.specs.Outcome.{Outcome};
ghost use Rattle.nv_rows.specs.Rows.{inodes_of};
ghost use Rattle.nv_tree.specs.Path.{Says};
ghost use Rattle.nv_tree.specs.Refusals.{Path, Tests, first_refusal, stat_tests};
ghost use Rattle.nv_paths.specs.Seen.{tree_of};
ghost use Rattle.nv_calls.specs.CleanCall.{IsKnown};
ghost use Rattle.nv_script.specs.Cleaning.{AreAsked, AreShort, AsksCleaning, CanClean, HasDeadPages, HasFewer, HasTurns, IsCleaned, IsOneOf, IsOpenedAs, LosesPages, NeedsPages, pages_line};
ghost use Rattle.nv_script.specs.declared.cleaning.Logs.TheVariants as which;

use nv_deadpages::DeadPages;
use nv_image_check::{Answer, recover_alone};
use nv_region::MemRegion;
use nv_report::refused_text;
use nv_rows::Rows;
use nv_session::{CallRefusal, Fs, keep_all, refused_call_text};
use nv_text::Refusal;
use std::alloc::{AllocError, Global};
use std::fmt::Write;

const REFUSED_STATUS: u8 = 2;

/// What came of cleaning a region.
#[derive(Drop)]
pub enum Cleaned {
    /// The region that is left, and how many pages went.
    Region { region: MemRegion, pages: u64 },
    /// Its superblock isn't accepted.
    Unrecovered(Refusal),
    /// Something is wrong with it, or the path leads to nothing.
    Refused(CallRefusal),
}

// Whose logs are to be cleaned.
#[derive(Clone, Copy)]
enum Logs {
    Of(u64),
    All,
}

impl Cleaned {
    ghost use Rattle.nv_script.specs.Cleaning.{cleaned_status, cleaned_text};

    /// What is printed of it: how many pages went, or the refusal. Errors: `AllocError` where a growth was refused.
    pub fn text(&self, alloc: Global) -> Result<String, AllocError>
        ensures { IfOk result (λ text. string_bytes text ≡ cleaned_text self.now) }
    {
        match self {
            Cleaned::Region { pages, .. } => pages_text(alloc, *pages),
            Cleaned::Unrecovered(refusal) => refused_text(alloc, *refusal),
            Cleaned::Refused(refusal) => refused_call_text(alloc, *refusal),
        }
    }

    /// The exit status: 0 where a region is left, and 2 where it is refused.
    pub fn status(&self) -> u8
        ensures { result ≡ cleaned_status self.now }
    {
        match self {
            Cleaned::Region { .. } => 0,
            Cleaned::Unrecovered(_) | Cleaned::Refused(_) => REFUSED_STATUS,
        }
    }
}

fn pages_text(alloc: Global, pages: u64) -> Result<String, AllocError>
    ensures { IfOk result (λ text. string_bytes text ≡ pages_line pages) }
{
    let mut text = String::new(alloc);
    writeln!(text, "cleaned pages {pages}")?;
    Ok(text)
}

/// Takes the pages out of the log of the inode that a path leads to, or, without a path, of all inodes in use, that their logs
/// can do without. What is pending in the memory is kept first, and its fuse is taken out.
///
/// Errors: `AllocError` where a growth was refused.
pub fn clean_image(
    alloc: Global,
    memory: MemRegion,
    path: Option<&[u8]>,
) -> Result<Cleaned, AllocError>
    ensures { IfOk result (IsCleaned memory.region (option_map (λ text. text.now) path.entry)) }
{
    let mut memory = keep_all(memory);
    let answer = recover_alone(alloc, &mut memory)?;
    match answer {
        Answer::Recovered(recovered) => {
            clean_mount(alloc, Fs::open(alloc, memory, recovered), path)
        }
        Answer::Refused(refusal) => Ok(Cleaned::Unrecovered(refusal)),
    }
}

fn clean_mount(
    alloc: Global,
    mut mount: Fs<MemRegion>,
    path: Option<&[u8]>,
) -> Result<Cleaned, AllocError>
    requires runs { mount.stopped ≡ false }
    requires steady { IsTrue (is_steady mount.memory) }
    ensures { (R : Region) (o : Outcome) → IsOpenedAs R o mount → IfOk result (IsCleaned R (option_map (λ text. text.now) path.entry)) }
{
    match logs_at(&mount, path) {
        Ok(logs) => {
            let gone = clean_logs(alloc, &mut mount, logs);
            // What it keeps is asked for below.
            mount.keeps();
            mount.nothing_is_pending();
            let region = mount.into_memory();
            let pages = gone?;
            Ok(Cleaned::Region { region, pages })
        }
        Err(refusal) => {
            let _region = mount.into_memory();
            Ok(Cleaned::Refused(refusal))
        }
    }
}

// Whose logs are to be cleaned, or why none are.
fn logs_at(mount: &Fs<MemRegion>, path: Option<&[u8]>) -> Result<Logs, CallRefusal>
    requires { mount.now.stopped ≡ false }
    ensures asked { IfOk result (AreAsked (tree_of mount.now.memory.region mount.now.rows) (option_map (λ text. text.now) path.entry)) }
    ensures tests { (tests : Tests) → AsksCleaning mount.now.read_only (tree_of mount.now.memory.region mount.now.rows) (option_map (λ text. text.now) path.entry) tests
        → first_refusal tests ≡ result_err result }
{
    // Whether it may be written is told by its faults.
    mount.keeps();
    if mount.faults().is_empty() {
        logs_of(mount, path)
    } else {
        Err(CallRefusal::ReadOnly)
    }
}

// The same of a mount without faults.
fn logs_of(mount: &Fs<MemRegion>, path: Option<&[u8]>) -> Result<Logs, CallRefusal>
    requires { mount.now.stopped ≡ false }
    ensures asked { IfOk result (AreAsked (tree_of mount.now.memory.region mount.now.rows) (option_map (λ text. text.now) path.entry)) }
    ensures tests { (tests : Tests) → AsksCleaning false (tree_of mount.now.memory.region mount.now.rows) (option_map (λ text. text.now) path.entry) tests → first_refusal tests ≡ result_err result }
{
    match path {
        Some(path) => log_at(mount, path),
        None => Ok(Logs::All),
    }
}

// The log of the inode that a path leads to, or why there is none.
fn log_at(mount: &Fs<MemRegion>, path: &[u8]) -> Result<Logs, CallRefusal>
    requires { mount.now.stopped ≡ false }
    ensures asked { IfOk result (AreAsked (tree_of mount.now.memory.region mount.now.rows) (Some path.now)) }
    ensures tests { (p : Path) → Says path.now p → first_refusal (stat_tests (tree_of mount.now.memory.region mount.now.rows) p) ≡ result_err result }
{
    match mount.stat(path) {
        Ok(stat) => Ok(Logs::Of(stat.inode)),
        Err(refusal) => Err(refusal),
    }
}

// Cleans these logs. Answers how many pages went.
fn clean_logs(alloc: Global, mount: &mut Fs<MemRegion>, logs: Logs) -> Result<u64, AllocError>
    requires { CanClean mount.old }
    ensures pages { IfOk result (LosesPages mount.old mount.new (IsOneOf logs)) }
    ensures short { OnOk result (AreShort mount.new logs) }
{
    match logs {
        Logs::Of(inode) => clean_log(mount, inode),
        Logs::All => clean_all_logs(alloc, mount),
    }
}

// Cleans the log of each inode in use. Which these are stays the same.
fn clean_all_logs(alloc: Global, mount: &mut Fs<MemRegion>) -> Result<u64, AllocError>
    requires { CanClean mount.old }
    ensures pages { IfOk result (LosesPages mount.old mount.new (IsOneOf which.All)) }
    ensures short { OnOk result (AreShort mount.new which.All) }
{
    // What it keeps is asked for below.
    mount.keeps();
    let numbers = numbers_of(alloc, mount.rows())?;
    clean_each(mount, &numbers)
}

// The numbers of the inodes in use.
fn numbers_of(alloc: Global, rows: &Rows) -> Result<Vec<u64>, AllocError>
    ensures { IfOk result (λ numbers. numbers.items ≡ inodes_of rows.now.items) }
{
    let mut numbers = Vec::with_capacity(alloc, rows.len())?;
    for (inode, _) in rows.iter() {
        numbers.push(inode)?;
    }
    Ok(numbers)
}

// Cleans the logs of these inodes.
fn clean_each(mount: &mut Fs<MemRegion>, numbers: &[u64]) -> Result<u64, AllocError>
    requires { CanClean mount.old }
    ensures pages { IfOk result (LosesPages mount.old mount.new (IsOneOf which.All)) }
    ensures short { OnOk result ((k : ℕ) → k < length numbers.now → NeedsPages mount.new.memory.region mount.new.layout (slice_index numbers.now k)) }
{
    // The layout is asked for below.
    mount.keeps();
    let mut pages = 0;
    for inode in numbers {
        let gone = clean_log(mount, *inode)?;
        pages += gone;
    }
    Ok(pages)
}

// Cleans the log of an inode, if it is in use.
fn clean_log(mount: &mut Fs<MemRegion>, inode: u64) -> Result<u64, AllocError>
    requires { CanClean mount.old }
    ensures pages { IfOk result (LosesPages mount.old mount.new (IsOneOf (which.Of inode))) }
    ensures short { OnOk result (AreShort mount.new (which.Of inode)) }
{
    // What it keeps is asked for below.
    mount.keeps();
    let Some(row) = mount.rows().get(inode) else {
        return Ok(0);
    };
    let pages = row.pages.len() as u64;
    let mut gone = 0;
    while gone < pages {
        let Some(dead) = dead_pages(mount, inode)? else {
            return Ok(gone);
        };
        let more = clean_run(mount, inode, dead)?;
        gone += more;
    }
    Ok(gone)
}

// Pages that the log of an inode in use can do without, one after another, if it has one.
fn dead_pages(mount: &Fs<MemRegion>, inode: u64) -> Result<Option<DeadPages>, AllocError>
    requires can { CanClean mount.now }
    requires used { is_none (tree_of mount.now.memory.region mount.now.rows inode) ≡ false }
    ensures { IfOk result (HasDeadPages mount.now inode) }
{
    match mount.dead_pages(inode) {
        Ok(dead) => Ok(dead),
        Err(CallRefusal::Memory) => Err(AllocError),
        // It may be written, and the inode is in use.
        Err(_) => unreachable!(),
    }
}

// Takes pages out of the log of an inode in use that go one after another. Answers how many they are.
fn clean_run(mount: &mut Fs<MemRegion>, inode: u64, dead: DeadPages) -> Result<u64, AllocError>
    requires can { CanClean mount.old }
    requires used { is_none (tree_of mount.old.memory.region mount.old.rows inode) ≡ false }
    requires dead { HasDeadPages mount.old inode (Some dead) }
    ensures pages { IfOk result (LosesPages mount.old mount.new (IsOneOf (which.Of inode))) }
    ensures fewer { IfOk result (HasFewer mount.old mount.new inode) }
    ensures some { IfOk result (λ gone. 0 < gone) }
{
    // What it keeps is asked for below.
    mount.keeps();
    let count = dead.count as u64;
    let mut gone = 0;
    while gone < count {
        clean_page(mount, inode, dead.first)?;
        gone += 1;
    }
    Ok(gone)
}

// Takes the page of a place out of the log of an inode in use: the first that it can do without.
fn clean_page(mount: &mut Fs<MemRegion>, inode: u64, place: usize) -> Result<(), AllocError>
    requires can { CanClean mount.old }
    requires used { is_none (tree_of mount.old.memory.region mount.old.rows inode) ≡ false }
    requires known { IsKnown mount.old.memory.region mount.old.layout inode (Some place) }
    ensures pages { OnOk result (LosesPages mount.old mount.new (IsOneOf (which.Of inode)) 1) }
    ensures fewer { OnOk result (HasFewer mount.old mount.new inode 1) }
    ensures rest { OnOk result ((n : ℕ) → HasTurns mount.old inode place (suc n) → HasTurns mount.new inode place n) }
{
    // What it keeps is asked for below.
    mount.keeps();
    match mount.clean_page(inode, Some(place)) {
        Ok(_) => Ok(()),
        Err(CallRefusal::Memory) => Err(AllocError),
        // It may be written, the inode is in use, and nothing stops it.
        Err(_) => unreachable!(),
    }
}
