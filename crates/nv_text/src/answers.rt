//! What a command answers in one line.

ghost use Rattle.std.specs.Prelude.{◌≡◌, ◌++◌, OnOk, string_bytes};
ghost use Rattle.nv_text.specs.Answers.{ok_line, stopped_line, bad_line, refused_line, recovered_line, word_line, cleaned_line};
ghost use Rattle.nv_text.specs.Refusals.{refusal_name};

use crate::refusals::Refusal;
use std::alloc::AllocError;
use std::fmt::Write;

/// `ok`: the command was done.
pub fn push_ok(out: &mut String) -> Result<(), AllocError>
    ensures { OnOk result (string_bytes out.new ≡ string_bytes out.old ++ ok_line) }
{
    out.push_str("ok\n")
}

/// `stopped`: the region's fuse burnt during the command.
pub fn push_stopped(out: &mut String) -> Result<(), AllocError>
    ensures { OnOk result (string_bytes out.new ≡ string_bytes out.old ++ stopped_line) }
{
    out.push_str("stopped\n")
}

/// `bad line K`: the line of this number, counted from 1, is no command.
pub fn push_bad_line(out: &mut String, number: u64) -> Result<(), AllocError>
    ensures { OnOk result (string_bytes out.new ≡ string_bytes out.old ++ bad_line number) }
{
    writeln!(out, "bad line {number}")
}

/// `refused NAME`.
pub fn push_refused(out: &mut String, refusal: Refusal) -> Result<(), AllocError>
    ensures { OnOk result (string_bytes out.new ≡ string_bytes out.old ++ refused_line (refusal_name refusal)) }
{
    writeln!(out, "refused {refusal}")
}

/// `recovered inodes I free F faults K`: the numbers of inodes in use, of free blocks and of faults.
pub fn push_recovered(
    out: &mut String,
    inodes: u64,
    free: u64,
    faults: u64,
) -> Result<(), AllocError>
    ensures { OnOk result (string_bytes out.new ≡ string_bytes out.old ++ recovered_line inodes free faults) }
{
    writeln!(out, "recovered inodes {inodes} free {free} faults {faults}")
}

/// `word V`: a word of the region.
pub fn push_word(out: &mut String, word: u64) -> Result<(), AllocError>
    ensures { OnOk result (string_bytes out.new ≡ string_bytes out.old ++ word_line word) }
{
    writeln!(out, "word {word}")
}

/// `cleaned B`: the page that was taken out of a log; or `nothing`, since the log needs each of its pages.
pub fn push_cleaned(out: &mut String, block: Option<u64>) -> Result<(), AllocError>
    ensures { OnOk result (string_bytes out.new ≡ string_bytes out.old ++ cleaned_line block) }
{
    match block {
        Some(block) => writeln!(out, "cleaned {block}"),
        None => out.push_str("nothing\n"),
    }
}
