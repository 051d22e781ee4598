//! Why a line is bad, for the user: what was expected in its place.

ghost use Rattle.std.specs.Prelude.{◌≡◌, Some, IfOk, map};
ghost use Rattle.nv_line.specs.Reasons.{reason_of_form, reason_of_words, reason_of, excess_text, reason_text};

use crate::excess::{first_large, shrunk};
use crate::nearest::nearest;
use crate::parsing::words;
use crate::table::{command_of, form_named};
use nv_stream::LINE_LIMIT;
use std::alloc::{AllocError, Global};
use std::fmt;

// A byte order mark in UTF-8.
const MARK: &[u8] = &[239, 187, 191];

/// How the words of a command stand.
#[derive(Clone, Copy, PartialEq, Eq)]
pub enum Form {
    Format,
    Time,
    Poke,
    Cut,
    Recover,
    Replay,
    ListNames,
    Stat,
    Read,
    Create,
    MakeDirectory,
    Write,
    SetSize,
    SetAttributes,
    Link,
    Unlink,
    RemoveDirectory,
    Rename,
    Clean,
    Upgrade,
    Tree,
    Free,
    Faults,
    Report,
    Peek,
    Stop,
}

/// A word that is too large a number: its place, the name of the command being word 1, and the most that may stand there.
#[derive(Clone, Copy, PartialEq, Eq)]
pub struct Excess {
    pub word: u64,
    pub most: u64,
}

/// Why a line is bad.
#[derive(Clone, Copy, PartialEq, Eq)]
pub enum Reason {
    /// It has more bytes than a line may have.
    TooLong,
    /// It ends with a carriage return, which ends no line.
    CarriageReturn,
    /// It begins with a byte order mark.
    ByteOrderMark,
    /// Its first word is no command. The form is that of the command whose name is nearest, where one is near.
    NoCommand(Option<Form>),
    /// It would be a command, but for numbers that are too large, of which this is the first.
    TooLarge(Excess),
    /// Its first word is a command's, and its other words aren't.
    Form(Form),
}

// By the words of a line. The error is a refused growth of another list of them, of a schedule, or of a table of edits.
#[tactic(auto, unfolding(crate::specs::Reasons::reason_of_words))]
fn reason_of_words(alloc: Global, words: &[&[u8]]) -> Result<Reason, AllocError>
    ensures { IfOk result (λ reason. reason ≡ reason_of_words (map (λ word. word.now) words.now)) }
{
    let [name, words @ ..] = words else {
        return Ok(Reason::NoCommand(None));
    };
    match form_named(name) {
        Some(form) => reason_of_form(alloc, form, words),
        None => Ok(Reason::NoCommand(nearest(alloc, name)?)),
    }
}

// By the form of a command, and the words behind its name.
fn reason_of_form(alloc: Global, form: Form, words: &[&[u8]]) -> Result<Reason, AllocError>
    ensures { IfOk result (λ reason. reason ≡ reason_of_form form (map (λ word. word.now) words.now)) }
{
    let Some(excess) = first_large(form, words) else {
        return Ok(Reason::Form(form));
    };
    let small = shrunk(alloc, form, words)?;
    match command_of(alloc, form, small.as_slice())? {
        Some(_command) => Ok(Reason::TooLarge(excess)),
        None => Ok(Reason::Form(form)),
    }
}

/// Why a bad line is bad. The error is a refused growth of a list of the line's words, of a schedule, or of a table of edits.
#[tactic(auto, unfolding(crate::specs::Reasons::reason_of))]
pub fn why_bad(alloc: Global, line: &[u8]) -> Result<Reason, AllocError>
    ensures { IfOk result (λ reason. reason ≡ reason_of line.now) }
{
    if line.len() > LINE_LIMIT {
        return Ok(Reason::TooLong);
    }
    if line.ends_with(b"\r") {
        return Ok(Reason::CarriageReturn);
    }
    if line.starts_with(MARK) {
        return Ok(Reason::ByteOrderMark);
    }
    let words = words(alloc, line)?;
    reason_of_words(alloc, words.as_slice())
}

impl fmt::Display for Excess {
    ghost output = { λ excess. Some (excess_text excess) };

    fn fmt<W: fmt::Write>(&self, f: &mut fmt::Formatter<W>) -> fmt::Result {
        let Excess { word, most } = *self;
        write!(
            f,
            "word {word} is above {most}, the most that may stand there"
        )
    }
}

impl fmt::Display for Reason {
    ghost output = { λ reason. Some (reason_text reason) };

    fn fmt<W: fmt::Write>(&self, f: &mut fmt::Formatter<W>) -> fmt::Result {
        match self {
            Reason::TooLong => f.write_str("it has more than 4096 bytes"),
            Reason::CarriageReturn => {
                f.write_str("it ends with a carriage return, byte 13; byte 10 alone ends a line")
            }
            Reason::ByteOrderMark => f.write_str(
                "it begins with a byte order mark, the bytes 239, 187 and 191; a script has none",
            ),
            Reason::TooLarge(excess) => write!(f, "{excess}"),
            Reason::NoCommand(Some(form)) => write!(
                f,
                "no command has this name; the nearest is {}",
                form.text()
            ),
            Reason::NoCommand(None) => f.write_str(
                "expected time, format, recover, replay, poke, cut, list, stat, read, create, mkdir, write, size, attr, link, unlink, rmdir, rename, clean, upgrade, tree, free, faults, report, peek or stop",
            ),
            Reason::Form(form) => write!(
                f,
                "expected {}, with one space between two words, and numbers in decimal up to 18446744073709551615",
                form.text()
            ),
        }
    }
}
