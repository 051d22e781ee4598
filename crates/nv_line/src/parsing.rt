//! The parser of a line. The private functions' clauses say what their answers are on lists; `parse` says it in the grammar's
//! terms.

ghost use Rattle.std.specs.Prelude.{◌≡◌, ◌==◌, ℕ, List, map, IfOk, IfSome, Some, option_map};
ghost use Rattle.std.specs.List.{slice_split};
ghost use Rattle.nv_line.specs.Reading.{request_of};
ghost use Rattle.nv_line.specs.Request.{Request};
ghost use Rattle.nv_line.specs.Spelling.{Says};
ghost use Rattle.nv_line.specs.View.{view};

use crate::commands::Command;
use crate::table::{command_of, form_named};
use std::alloc::{AllocError, Global};

/// The parts of a line between its spaces.
pub(crate) fn words(alloc: Global, line: &[u8]) -> Result<Vec<&[u8]>, AllocError>
    ensures { IfOk result (λ words. map (λ word. word.now) words.items ≡ slice_split (λ b. b == 32) line.now) }
{
    line.split(|byte| *byte == b' ').collect(alloc)
}

#[tactic(auto, unfolding(crate::specs::Reading::request_of, crate::specs::Reading::request_of_words))]
fn parse_line(alloc: Global, line: &[u8]) -> Result<Option<Command<'_>>, AllocError>
    ensures { IfOk result (λ found. option_map view found ≡ request_of line.now) }
{
    let words = words(alloc, line)?;
    match words.as_slice() {
        [] => Ok(None),
        [name, words @ ..] => match form_named(name) {
            Some(form) => command_of(alloc, form, words),
            None => Ok(None),
        },
    }
}

/// The command that a line spells, if it spells one. The error is a refused growth of the list of
/// the line's words, or of a schedule.
pub fn parse(alloc: Global, line: &[u8]) -> Result<Option<Command<'_>>, AllocError>
    // What is found is spelled so.
    ensures found { IfOk result (λ found. IfSome found (λ command. Says line.now (view command))) }
    // What is spelled so is found, and no other command.
    ensures only { IfOk result (λ found. (request : Request) → Says line.now request → option_map view found ≡ Some request) }
{
    parse_line(alloc, line)
}

/// No line spells two commands.
pub fn one_reading()
    ensures { (line : List ℕ) (a b : Request) → Says line a → Says line b → a ≡ b }
{}
