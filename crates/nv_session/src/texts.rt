//! The texts of the commands that tell of no recovery.

ghost use Rattle.std.specs.Prelude.{◌≡◌, IfOk, string_bytes};
ghost use Rattle.nv_text.specs.Answers.{ok_line, stopped_line, word_line};
ghost use Rattle.nv_session.specs.Commands.{answer_line};

use nv_history::Answer;
use nv_text::{push_cleaned, push_ok, push_stopped, push_word};
use std::alloc::{AllocError, Global};

pub fn ok_text(alloc: Global) -> Result<String, AllocError>
    ensures { IfOk result (λ text. string_bytes text ≡ ok_line) }
{
    let mut text = String::new(alloc);
    push_ok(&mut text)?;
    Ok(text)
}

pub fn stopped_text(alloc: Global) -> Result<String, AllocError>
    ensures { IfOk result (λ text. string_bytes text ≡ stopped_line) }
{
    let mut text = String::new(alloc);
    push_stopped(&mut text)?;
    Ok(text)
}

pub fn word_text(alloc: Global, word: u64) -> Result<String, AllocError>
    ensures { IfOk result (λ text. string_bytes text ≡ word_line word) }
{
    let mut text = String::new(alloc);
    push_word(&mut text, word)?;
    Ok(text)
}

pub fn answer_text(alloc: Global, answer: Answer) -> Result<String, AllocError>
    ensures { IfOk result (λ text. string_bytes text ≡ answer_line answer) }
{
    let mut text = String::new(alloc);
    match answer {
        Answer::Done => push_ok(&mut text)?,
        Answer::Cleaned(block) => push_cleaned(&mut text, block)?,
    }
    Ok(text)
}
