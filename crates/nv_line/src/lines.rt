//! What a line is to a script: skipped, a command, or bad. The three leave no line out, and no two
//! of them fit one line.

ghost use Rattle.std.specs.Prelude.{ℕ, List, ◌↔◌, IsTrue, IfOk};
ghost use Rattle.nv_line.specs.Request.{Request};
ghost use Rattle.nv_line.specs.Spelling.{Says};
ghost use Rattle.nv_line.specs.Lines.{IsSkipped, ReadsAs};

use crate::commands::Line;
use crate::parsing::parse;
use nv_stream::LINE_LIMIT;
use std::alloc::{AllocError, Global};

fn is_skipped(line: &[u8]) -> bool
    ensures { IsTrue result ↔ IsSkipped line.now }
{
    matches!(line, [] | [b'#', ..])
}

/// What a line is, given without the byte 10 that ends it. A comment that is too long is bad.
/// The error is a refused growth of the list of the line's words, or of a schedule.
pub fn classify(alloc: Global, line: &[u8]) -> Result<Line<'_>, AllocError>
    // Skipped, the command that the line spells, or bad.
    ensures { IfOk result (ReadsAs line.now) }
{
    if line.len() > LINE_LIMIT {
        return Ok(Line::Bad);
    }
    if is_skipped(line) {
        return Ok(Line::Skipped);
    }
    match parse(alloc, line)? {
        Some(command) => Ok(Line::Command(command)),
        None => Ok(Line::Bad),
    }
}

/// No line that is skipped spells a command.
pub fn no_skipped_command()
    ensures { (line : List ℕ) (request : Request) → IsSkipped line → Says line request → ⊥ }
{}
