//! The program `nova`: it makes, checks, changes, cleans and shows images of the NOVA file system, and runs scripts on them.
//!
//! `run` runs a script, on the region of an image or on none, and saves the region that it leaves. `shell` runs the commands that
//! are typed. `show` shows what is in an image, `listing` names with the numbers of their inodes and counts of blocks, `logs` the
//! logs of inodes, `blocks` what a block is, `comparing` what differs between two images, and `views` is each look. `cleaning`
//! shortens logs, `changing` changes an image by the calls of one command, `unpacking` by an archive, `putting` by a tree of the
//! host, `recovering` rolls its journals back, `saving` makes one, and `editing` is each of these. `names` reads paths in images.
//! Checks and maps of images are those of `nova_check`.
//!
//! Behind a bad line, and a region that is refused for its length, a line on standard error says more.
//!
//! Its exit status is the script's or the check's, and 0 or 2 for the other commands. Words that ask for nothing, a file that
//! can't be read or written, and output or memory that is refused end it with status 2 and a text on standard error.
#![tactic(auto)]

mod archiving;
mod blocks;
mod changing;
mod cleaning;
mod comparing;
mod editing;
mod hints;
mod listing;
mod logs;
mod names;
mod putting;
mod recovering;
mod run;
mod saving;
mod shell;
mod show;
mod unpacking;
mod views;

use editing::edit;
use nv_args::{Todo, read_words};
use nv_image_check::Blocks;
use nv_image_files::{Failure, Lock, Target, ended, refuse_words, words_of};
use run::{Images, run_named};
use shell::shell;
use std::alloc::AllocError;
use std::env::Env;
use std::io::{IsTerminal, Read, Write};
use std::process::ExitCode;
use std::rt::Files;
use std::thread::Threads;
use std::time::Clock;

/// The status of what is refused, and of what failed.
pub(crate) const REFUSED_STATUS: u8 = 2;

fn main(rt: HostRuntime) -> ExitCode {
    match act(&rt, rt.stdin(), rt.stderr()) {
        Ok(code) => code,
        Err(error) => ended(&rt, Err(Failure::from(error))),
    }
}

// Does what the words ask for, and ends the program. The input is that of a script with no file, and refusals go to the errors.
// Fails where memory is refused for the words.
fn act<
    H: Files + AllocGlobal + Clock + Print + Eprint + Env + Threads + Sync,
    R: Read + IsTerminal + Drop,
    E: Write + Drop,
>(rt: &H, input: R, errors: E) -> Result<ExitCode, AllocError>
where
    H::File: Blocks + Lock + Sync,
{
    let alloc = rt.alloc();
    let words = words_of(rt, alloc)?;
    let texts = words.texts(alloc)?;
    Ok(match read_words(alloc, &texts) {
        Ok(todo) if words.are_utf8 => ended(rt, answer(rt, input, errors, todo)),
        Ok(todo) => ended(rt, Err(Failure::not_utf8(todo.checked_path()))),
        Err(usage) => refuse_words(rt, &usage),
    })
}

// Does what is asked for, and answers the exit status.
fn answer<
    'a,
    H: Files + AllocGlobal + Clock + Print + Eprint + Threads + Sync,
    R: Read + IsTerminal + Drop,
    E: Write + Drop,
>(rt: &H, input: R, mut errors: E, todo: Todo<'a>) -> Result<u8, Failure<'a>>
where
    H::File: Blocks + Lock + Sync,
{
    match todo {
        Todo::Run {
            script,
            image,
            save,
            force,
            strict,
        } => {
            let save = save.map(|path| Target { path, force });
            let images = Images {
                image,
                save,
                strict,
            };
            run_named(rt, input, &mut errors, script, images)
        }
        Todo::Shell { image, force } => shell(rt, input, image, force),
        todo => edit(rt, &mut errors, todo),
    }
}
