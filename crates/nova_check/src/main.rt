//! The program `nova_check`: it checks images of the NOVA file system, maps them, and explains what is told of them.
//!
//! It does what `nova check`, `nova map` and `nova explain` do, by the same code, and stands on fewer crates: no script and
//! no file call has to be proved before it answers. Any other command ends it with status 2.
//!
//! Its exit status is the check's, and 0 or 2 for the other two. Words that ask for nothing, a file that can't be read or written,
//! and output or memory that is refused end it with status 2 and a text on standard error.
#![tactic(auto)]

use nv_args::read_words;
use nv_image_check::Blocks;
use nv_image_files::{Failure, Lock, ended, refuse_words, words_of};
use nv_pending::answer_check;
use std::alloc::AllocError;
use std::env::Env;
use std::process::ExitCode;
use std::rt::Files;
use std::thread::Threads;

fn main(rt: HostRuntime) -> ExitCode {
    match act(&rt) {
        Ok(code) => code,
        Err(error) => ended(&rt, Err(Failure::from(error))),
    }
}

// Does what the words ask for, and ends the program. Fails where memory is refused for the words.
fn act<H: Files + AllocGlobal + Print + Eprint + Env + Threads + Sync>(
    rt: &H,
) -> Result<ExitCode, AllocError>
where
    H::File: Blocks + Lock + Sync,
{
    let alloc = rt.alloc();
    let words = words_of(rt, alloc)?;
    let texts = words.texts(alloc)?;
    Ok(match read_words(alloc, &texts) {
        Ok(todo) if words.are_utf8 => ended(rt, answer_check(rt, todo)),
        Ok(todo) => ended(rt, Err(Failure::not_utf8(todo.checked_path()))),
        Err(usage) => refuse_words(rt, &usage),
    })
}
