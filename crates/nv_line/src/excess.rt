//! Numbers of a line that are larger than what may stand in their place.

ghost use Rattle.std.specs.Prelude.{◌≡◌, IfOk, map};
ghost use Rattle.nv_line.specs.Excess.{most_at, exceeds, large_at, first_large, shrunk};

use crate::numeral::{is_numeral, read_number};
use crate::reasons::{Excess, Form};
use nv_super::MOST_FILE_BYTES;
use std::alloc::{AllocError, Global};

/// The most that a number may be that stands at this place among the words of a command, whose name is word 1. None where no
/// number stands.
#[tactic(auto, unfolding(crate::specs::Excess::most_at))]
fn most_at(form: Form, place: u64) -> Option<u64>
    ensures { result ≡ most_at form place }
{
    match form {
        Form::ListNames | Form::Stat | Form::Clean => None,
        Form::Read if place == 2 => None,
        Form::Link | Form::Rename if place > 2 => None,
        Form::Create | Form::MakeDirectory | Form::Unlink | Form::RemoveDirectory if place > 2 => {
            None
        }
        Form::SetSize | Form::Write | Form::SetAttributes if place == 3 => None,
        Form::Stop if place != 3 => None,
        Form::Write if place == 5 => Some(MOST_FILE_BYTES),
        Form::Write if place == 6 => Some(255),
        Form::SetAttributes if place > 3 => Some(4_294_967_295),
        _ => Some(u64::MAX),
    }
}

// Whether a word writes a number in decimal that is above a limit.
#[tactic(auto, unfolding(crate::specs::Excess::exceeds, crate::specs::Reading::number_of))]
fn exceeds(word: &[u8], most: u64) -> bool
    ensures { result ≡ exceeds word.now most }
{
    if !is_numeral(word) {
        return false;
    }
    match read_number(word) {
        Some(number) => number > most,
        None => true,
    }
}

// The most that may stand at this place, where the word there writes a larger number.
#[tactic(auto, unfolding(crate::specs::Excess::large_at))]
fn large_at(form: Form, place: u64, word: &[u8]) -> Option<u64>
    ensures { result ≡ large_at form place word.now }
{
    match most_at(form, place) {
        Some(most) if exceeds(word, most) => Some(most),
        _ => None,
    }
}

/// The first of the words behind a name that is too large a number, if one is.
pub(crate) fn first_large(form: Form, words: &[&[u8]]) -> Option<Excess>
    ensures { result ≡ first_large form 2 (map (λ word. word.now) words.now) }
{
    for (index, word) in words.iter().enumerate() {
        let place = index as u64 + 2;
        if let Some(most) = large_at(form, place, word) {
            return Some(Excess { word: place, most });
        }
    }
    None
}

/// The words behind a name, with a zero for each that is too large a number. The error is a refused growth of their list.
pub(crate) fn shrunk<'a>(
    alloc: Global,
    form: Form,
    words: &[&'a [u8]],
) -> Result<Vec<&'a [u8]>, AllocError>
    ensures { IfOk result (λ small. map (λ word. word.now) small.items ≡ shrunk form 2 (map (λ word. word.now) words.now)) }
{
    let mut small = Vec::new(alloc);
    for (index, word) in words.iter().enumerate() {
        match large_at(form, index as u64 + 2, word) {
            Some(_most) => small.push(b"0".as_slice())?,
            None => small.push(*word)?,
        }
    }
    Ok(small)
}
