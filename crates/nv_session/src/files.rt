//! What the file calls that read a mounted region print.

ghost use Rattle.std.specs.Prelude.{◌≡◌, ◌≢◌, ◌++◌, false, true, is_some, IfOk, OnOk, string_bytes, map};
ghost use Rattle.nv_text.specs.Answers.{refused_line};
ghost use Rattle.nv_text.specs.Names.{data_line};
ghost use Rattle.nv_text.specs.Report.{stat_line};
ghost use Rattle.nv_tree.specs.Path.{Says};
ghost use Rattle.nv_tree.specs.Refusals.{Path, first_refusal, list_tests, stat_tests, refusal_word};
ghost use Rattle.nv_tree.specs.declared.refusal.Refusal.TheVariants as refusals;
ghost use Rattle.nv_paths.specs.Seen.{tree_of};
ghost use Rattle.nv_calls.specs.Listing.{name_and_inode};
ghost use Rattle.nv_session.specs.Machine.{list_lines, TellsNames, TellsStat, TellsBytes};
ghost use Rattle.nv_calls.specs.Mount.{shown};

use nv_calls::{Fs, Stat};
use nv_names::Named;
use nv_region::{MemRegion, Pmem};
use nv_report::refused_text;
use nv_text::{push_data_line, push_list_line, push_stat_line};
use nv_tree::Refusal;
use std::alloc::{AllocError, Global};

/// What a call prints, and whether that is its refusal.
#[derive(Drop)]
pub struct CallText {
    pub text: String,
    pub is_refused: bool,
}

/// What `list` prints: the names of the directory that a path leads to, a line for each, or the line of its refusal. Of
/// a mount that was stopped nothing is said.
///
/// Errors: `AllocError` where a growth was refused.
pub fn list_text<P: Pmem + Drop>(
    alloc: Global,
    mount: &Fs<P>,
    path: &[u8],
) -> Result<CallText, AllocError>
    ensures text { IfOk result (λ told. mount.now.stopped ≡ false → (p : Path) → Says path.now p → TellsNames (shown P.region mount.now) p (string_bytes told.text)) }
    ensures refused { IfOk result (λ told. mount.now.stopped ≡ false → (p : Path) → Says path.now p → told.is_refused ≡ is_some (first_refusal (list_tests (shown P.region mount.now) p))) }
{
    match mount.list(path) {
        Ok(listed) => Ok(answered(lines_text(alloc, &listed)?)),
        Err(refusal) => refused(alloc, refusal),
    }
}

/// What `stat` prints: the numbers of the inode that a path leads to, or the line of its refusal. Of a mount that was
/// stopped nothing is said.
///
/// Errors: `AllocError` where a growth was refused.
pub fn stat_text<P: Pmem + Drop>(
    alloc: Global,
    mount: &Fs<P>,
    path: &[u8],
) -> Result<CallText, AllocError>
    ensures text { IfOk result (λ told. mount.now.stopped ≡ false → (p : Path) → Says path.now p → TellsStat (shown P.region mount.now) p (string_bytes told.text)) }
    ensures refused { IfOk result (λ told. mount.now.stopped ≡ false → (p : Path) → Says path.now p → told.is_refused ≡ is_some (first_refusal (stat_tests (shown P.region mount.now) p))) }
{
    match mount.stat(path) {
        Ok(stat) => Ok(answered(numbers_text(alloc, stat)?)),
        Err(refusal) => refused(alloc, refusal),
    }
}

/// What `read` prints: the bytes of the file that a path leads to, from an offset in bytes on, at most so many, or the
/// line of its refusal. Of a mount that was stopped nothing is said.
pub fn read_text(
    alloc: Global,
    mount: &Fs<MemRegion>,
    path: &[u8],
    offset: u64,
    count: u64,
) -> Result<String, AllocError>
    ensures { IfOk result (λ text. mount.now.stopped ≡ false → (p : Path) → Says path.now p → TellsBytes offset count (tree_of mount.now.memory.region mount.now.rows) p (string_bytes text)) }
{
    match mount.read(path, offset, count) {
        Ok(bytes) => data_text(alloc, &bytes),
        Err(refusal) => refused_call_text(alloc, refusal),
    }
}

pub(crate) fn answered(text: String) -> CallText
    ensures { result ≡ record { text = text; is_refused = false } }
{
    CallText {
        text,
        is_refused: false,
    }
}

pub(crate) fn refused(alloc: Global, refusal: Refusal) -> Result<CallText, AllocError>
    ensures { IfOk result (λ told. (refusal ≢ refusals.Memory) × (string_bytes told.text ≡ refused_line (refusal_word refusal)) × (told.is_refused ≡ true)) }
{
    Ok(CallText {
        text: refused_call_text(alloc, refusal)?,
        is_refused: true,
    })
}

/// The line of a refusal.
///
/// Errors: `AllocError` where a growth was refused, and for the refusal `Memory`: want of memory is told as no refusal.
pub fn refused_call_text(alloc: Global, refusal: Refusal) -> Result<String, AllocError>
    ensures { IfOk result (λ text. (refusal ≢ refusals.Memory) × (string_bytes text ≡ refused_line (refusal_word refusal))) }
{
    if refusal == Refusal::Memory {
        return Err(AllocError);
    }
    refused_text(alloc, nv_text::Refusal::Call(refusal))
}

fn data_text(alloc: Global, bytes: &[u8]) -> Result<String, AllocError>
    ensures { IfOk result (λ text. string_bytes text ≡ data_line bytes.now) }
{
    let mut text = String::new(alloc);
    push_data_line(&mut text, bytes)?;
    Ok(text)
}

pub(crate) fn lines_text(alloc: Global, listed: &[Named<'_>]) -> Result<String, AllocError>
    ensures { IfOk result (λ text. string_bytes text ≡ list_lines (map name_and_inode listed.now)) }
{
    let mut text = String::new(alloc);
    push_lines(&mut text, listed)?;
    Ok(text)
}

fn push_lines(out: &mut String, listed: &[Named<'_>]) -> Result<(), AllocError>
    ensures { OnOk result (string_bytes out.new ≡ string_bytes out.old ++ list_lines (map name_and_inode listed.now)) }
{
    for named in listed {
        push_list_line(out, named.name, named.inode)?;
    }
    Ok(())
}

pub(crate) fn numbers_text(alloc: Global, stat: Stat) -> Result<String, AllocError>
    ensures { IfOk result (λ text. string_bytes text ≡ stat_line stat) }
{
    let mut text = String::new(alloc);
    push_stat_line(&mut text, &stat)?;
    Ok(text)
}
