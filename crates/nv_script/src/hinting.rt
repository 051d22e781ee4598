//! What a user may want to know behind a line that a script prints.

ghost use Rattle.std.specs.Prelude.{ℕ, List, Option, None, Some};
ghost use Rattle.std.specs.Io.KnownBytes.{Appends};
ghost use Rattle.nv_script.specs.Hints.{hint_text, hint_line};

use nv_line::Reason;
use nv_report::BadLength;
use std::fmt;

/// The line that refuses a region for its length.
pub const LENGTH_REFUSED: &str = "refused S1\n";

/// What stands behind a line of the output.
#[derive(Clone, Copy, PartialEq, Eq)]
pub enum Hint {
    /// Why the line of this number is bad.
    BadLine(u64, Reason),
    /// The length for which the region was refused.
    Length(BadLength),
}

impl fmt::Display for Hint {
    ghost output = { λ hint. Some (hint_text hint) };

    fn fmt<W: fmt::Write>(&self, f: &mut fmt::Formatter<W>) -> fmt::Result {
        match self {
            Hint::BadLine(number, reason) => write!(f, "line {number}: {reason}"),
            Hint::Length(length) => write!(f, "{length}"),
        }
    }
}

/// Takes hints, each right after the line of the output that it stands behind was written.
pub trait Hints {
    /// The hints that were taken, a line each, where that is known.
    ghost told: { Self → Option (List ℕ) } = { λ _. None };

    /// Takes one hint.
    fn give(&mut self, hint: Hint)
        ensures { Appends (told self.old) (told self.new) (hint_line hint) };
}

/// Leaves all hints out.
#[derive(Clone, Copy)]
pub struct NoHints;

impl Hints for NoHints {
    fn give(&mut self, _hint: Hint) {}
}
