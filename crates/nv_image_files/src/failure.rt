//! What ends a command before its answer, what the user is told of it, and the exit status that a command comes to.

ghost use Rattle.std.specs.Prelude.{◌≡◌, MatchResult};
ghost use Rattle.std.specs.Process.{exit_status};

use crate::reason::{Reason, WriteReason};
use crate::shown::Shown;
use nv_stream::{ScriptError, Unread, Unsaved};
use std::alloc::AllocError;
use std::error::Error;
use std::fmt;
use std::process::ExitCode;

/// What ends a command before its answer.
#[derive(Clone, Copy, Debug)]
pub enum Failure<'a> {
    /// The file at this path can't be read, for this reason, which its text leaves out.
    CannotRead(&'a str, Reason),
    /// The file at this path wasn't written. What was there is as before.
    CannotWrite(&'a str, Unsaved),
    /// There is no region that could be written to the file at this path.
    NothingToWrite(&'a str),
    /// A word isn't UTF-8. The kit opens files by text alone.
    WordNotUtf8,
    /// In this path of an image a backslash begins no escape.
    BadEscape(&'a str),
    /// There is no such class of faults.
    NoClass(&'a str),
    /// The answer can't be held in memory, or not be written.
    Answer(ScriptError),
}

/// The exit status of a command: that of its answer, and 2 where it failed.
pub fn exit_of(answer: &Result<u8, Failure<'_>>) -> ExitCode
    ensures { MatchResult answer.now (λ status. exit_status result ≡ status) (λ _. exit_status result ≡ 2) }
{
    match answer {
        Ok(status) => ExitCode::from(*status),
        Err(_) => ExitCode::from(2),
    }
}

impl<'a> Failure<'a> {
    ghost use Rattle.std.specs.Prelude.{◌≡◌, IfSome, IsNone};
    ghost use Rattle.nv_image_files.specs.declared.failure.Failure.TheVariants.{CannotRead, CannotWrite, WordNotUtf8, Answer};
    ghost use Rattle.nv_image_files.specs.declared.reason.Reason.TheVariants.{PathNotUtf8, System};
    ghost use Rattle.nv_stream.specs.declared.contents.Unread.TheVariants as unreads;
    ghost use Rattle.nv_stream.specs.declared.saving.Unsaved.TheVariants as unsaveds;
    ghost use Rattle.nv_stream.specs.declared.fault.ScriptError.TheVariants as errors;
    ghost use Rattle.std.specs.declared.io.Error.{Error};

    /// That a word isn't UTF-8, or that the file at this path can't be read since its path isn't.
    pub fn not_utf8(path: Option<&'a str>) -> Failure<'a>
        ensures path { IfSome path.entry (λ text. result ≡ CannotRead text PathNotUtf8) }
        ensures word { IsNone path.entry → result ≡ WordNotUtf8 }
    {
        match path {
            Some(path) => Failure::CannotRead(path, Reason::PathNotUtf8),
            None => Failure::WordNotUtf8,
        }
    }

    /// That the file at this path can't be read.
    pub fn unread(path: &'a str, unread: Unread) -> Failure<'a>
        ensures unreadable { (e : Error) → unread ≡ unreads.Unreadable e → result ≡ CannotRead path.entry (System e) }
        ensures memory { unread ≡ unreads.Memory → result ≡ Answer errors.Memory }
    {
        match unread {
            Unread::Unreadable(error) => Failure::CannotRead(path, Reason::System(error)),
            Unread::Memory => Failure::Answer(ScriptError::Memory),
        }
    }

    /// That the file at this path wasn't written.
    pub fn unsaved(path: &'a str, unsaved: Unsaved) -> Failure<'a>
        ensures unwritten { (unsaved ≡ unsaveds.Memory → ⊥) → result ≡ CannotWrite path.entry unsaved }
        ensures memory { unsaved ≡ unsaveds.Memory → result ≡ Answer errors.Memory }
    {
        match unsaved {
            Unsaved::Memory => Failure::Answer(ScriptError::Memory),
            _ => Failure::CannotWrite(path, unsaved),
        }
    }
}

impl From<ScriptError> for Failure<'_> {
    ghost use Rattle.std.specs.Prelude.{◌≡◌};
    ghost use Rattle.nv_image_files.specs.declared.failure.Failure.TheVariants.{Answer};

    ghost from_gives = { λ error e. e ≡ Answer error };

    fn from(error: ScriptError) -> Self {
        Failure::Answer(error)
    }
}

impl From<AllocError> for Failure<'_> {
    ghost use Rattle.std.specs.Prelude.{◌≡◌};
    ghost use Rattle.nv_image_files.specs.declared.failure.Failure.TheVariants.{Answer};
    ghost use Rattle.nv_stream.specs.declared.fault.ScriptError.TheVariants.{Memory};

    ghost from_gives = { λ _ e. e ≡ Answer Memory };

    fn from(_error: AllocError) -> Self {
        Failure::Answer(ScriptError::Memory)
    }
}

impl fmt::Display for Failure<'_> {
    ghost use Rattle.nv_image_files.specs.Failures.{failure_text};

    ghost output = { failure_text };

    fn fmt<W: fmt::Write>(&self, f: &mut fmt::Formatter<W>) -> fmt::Result {
        match self {
            Failure::CannotRead(path, _) => write!(f, "cannot read {}", Shown(path)),
            Failure::CannotWrite(path, unsaved) => {
                let (path, unsaved) = (*path, *unsaved);
                let shown = Shown(path);
                write!(f, "cannot write {shown}: {}", WriteReason { path, unsaved })
            }
            Failure::NothingToWrite(path) => {
                write!(f, "cannot write {}: there is no region", Shown(path))
            }
            Failure::WordNotUtf8 => f.write_str("a word of the command line isn't UTF-8"),
            Failure::BadEscape(path) => write!(
                f,
                "in {} a backslash begins no escape; \\\\ stands for one, and \\x and two hexadecimal digits for a byte",
                Shown(path)
            ),
            Failure::NoClass(name) => write!(f, "no class of faults is named {}", Shown(name)),
            Failure::Answer(error) => write!(f, "{error}"),
        }
    }
}

impl Error for Failure<'_> {}
