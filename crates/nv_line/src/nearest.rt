//! The command whose name is nearest to a word.

ghost use Rattle.std.specs.Prelude.{◌≡◌, IfOk};
ghost use Rattle.nv_line.specs.Nearest.{edits, nearest};

use crate::reasons::Form;
use crate::table::COMMANDS;
use std::alloc::{AllocError, Global};
use strsim::generic_damerau_levenshtein;

/// The form of the command whose name is the fewest edits from a word, unless these are more than one for each three bytes.
pub(crate) fn nearest(alloc: Global, word: &[u8]) -> Result<Option<Form>, AllocError>
    ensures { IfOk result (λ found. found ≡ nearest word.now) }
{
    let mut found = None;
    let mut below = word.len() / 3 + 1;
    for command in &COMMANDS {
        let edits = edits(alloc, word, command.name)?;
        if edits < below {
            found = Some(command.form);
            below = edits;
        }
    }
    Ok(found)
}

// How many edits lead from a word to a name, where two neighbours that are swapped are one.
#[tactic(auto, unfolding(crate::specs::Nearest::edits))]
fn edits(alloc: Global, word: &[u8], name: &[u8]) -> Result<usize, AllocError>
    ensures { IfOk result (λ count. count ≡ edits word.now name.now) }
{
    generic_damerau_levenshtein(alloc, word, name)
}
