//! The words that the program was started with, also those that are no text.

ghost use Rattle.std.specs.Prelude.{◌≡◌, ◌≤◌, ◌↔◌, IfOk, IfSome, IsTrue, length, string_bytes};
ghost use Rattle.std.specs.Str.{IsUtf8};
ghost use Rattle.std.specs.Str.Lossy.{utf8_lossy};
ghost use Rattle.nv_image_files.specs.Words.{AreTexts};

use std::alloc::{AllocError, Global};
use std::env::{Env, FillError};

const FIRST_BYTES: usize = 256;

/// Words as text.
#[derive(Drop)]
pub struct Words {
    /// In each word that isn't UTF-8, U+FFFD stands for what isn't.
    pub texts: Vec<String>,
    /// Whether all texts are the words themselves.
    pub are_utf8: bool,
}

impl Words {
    ghost use Rattle.std.specs.Prelude.{◌≡◌, ◌↔◌, ◌++◌, ◌∷◌, [], IfOk, OnOk, IsTrue, map, string_bytes};
    ghost use Rattle.std.specs.Str.{IsUtf8};
    ghost use Rattle.std.specs.Str.Lossy.{utf8_lossy};

    /// The texts of the words, where U+FFFD stands for what isn't UTF-8. Errors: `AllocError` where a growth was refused.
    pub fn texts(&self, alloc: Global) -> Result<Vec<&str>, AllocError>
        ensures { IfOk result (λ texts. map (λ text. text.now) texts.items ≡ map string_bytes self.now.texts.items) }
    {
        let mut texts = Vec::new(alloc);
        for text in &self.texts {
            texts.push(text.as_str())?;
        }
        Ok(texts)
    }

    // Takes in the word of these bytes, behind the others.
    fn push(&mut self, alloc: Global, bytes: &[u8]) -> Result<(), AllocError>
        ensures texts { OnOk result (map string_bytes self.new.texts.items ≡ map string_bytes self.old.texts.items ++ (utf8_lossy bytes.now ∷ [])) }
        ensures utf8 { OnOk result (IsTrue self.new.are_utf8 ↔ (IsTrue self.old.are_utf8 × IsUtf8 bytes.now)) }
    {
        let (text, is_utf8) = text_of(alloc, bytes)?;
        self.texts.push(text)?;
        self.are_utf8 = self.are_utf8 && is_utf8;
        Ok(())
    }
}

/// The words behind the program's name. Errors: `AllocError` where a growth was refused.
pub fn words_of<E: Env>(env: &E, alloc: Global) -> Result<Words, AllocError>
    ensures { IfOk result AreTexts }
{
    let mut words = Words {
        texts: Vec::new(alloc),
        are_utf8: true,
    };
    let mut buffer = Vec::new(alloc);
    buffer.resize(FIRST_BYTES, 0u8)?;
    for place in 1..usize::MAX {
        let Some(count) = read_word(env, place, &mut buffer)? else {
            break;
        };
        words.push(alloc, &buffer[..count])?;
    }
    Ok(words)
}

// Reads the word at a place into a buffer, which grows until it is long enough: how many bytes it has, or `None` behind
// the last word.
fn read_word<E: Env>(
    env: &E,
    place: usize,
    buffer: &mut Vec<u8>,
) -> Result<Option<usize>, AllocError>
    ensures { IfOk result (λ read. IfSome read (λ count. count ≤ length buffer.new.items)) }
{
    for _ in 0..usize::BITS {
        match env.arg(place, buffer) {
            Ok(count) => return Ok(Some(count)),
            Err(FillError::NotPresent) => return Ok(None),
            Err(FillError::TooLong) => buffer.resize(buffer.len().saturating_mul(2), 0)?,
        }
    }
    Err(AllocError)
}

// The text that bytes spell, and whether they are UTF-8.
fn text_of(alloc: Global, bytes: &[u8]) -> Result<(String, bool), AllocError>
    ensures text { IfOk result (λ r. IsTrue r.1 → string_bytes r.0 ≡ bytes.now) }
    ensures lossy { IfOk result (λ r. string_bytes r.0 ≡ utf8_lossy bytes.now) }
    ensures utf8 { IfOk result (λ r. IsTrue r.1 ↔ IsUtf8 bytes.now) }
{
    let text = String::from_utf8_lossy(alloc, bytes)?;
    Ok((text, std::str::from_utf8(bytes).is_ok()))
}
