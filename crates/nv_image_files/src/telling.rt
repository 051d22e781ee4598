//! What a program says on standard error, and the exit status that it ends with.

ghost use Rattle.std.specs.Prelude.{◌≡◌, IfOk, MatchResult};
ghost use Rattle.std.specs.Process.{exit_status};

use crate::explaining::tell_classes;
use crate::failure::{Failure, exit_of};
use crate::shown::{Shown, ShownBeside};
use nv_stream::{Beside, write_text};
use std::fmt::Display;
use std::io;
use std::process::ExitCode;

/// Ends a program with the status that it has come to, or with 2, and then says why on standard error.
pub fn ended<H: Eprint>(rt: &H, answer: Result<u8, Failure<'_>>) -> ExitCode
    ensures { MatchResult answer.entry (λ status. exit_status result ≡ status) (λ _. exit_status result ≡ 2) }
{
    let code = exit_of(&answer);
    if let Err(failure) = answer {
        tell_failure(rt, failure);
    }
    code
}

/// Prints a text and the end of its line. Answers the exit status 0. Errors: want of memory, or of a place to write to.
pub fn print_line<'a, H: AllocGlobal + Print>(rt: &H, text: &str) -> Result<u8, Failure<'a>>
    ensures { IfOk result (λ status. status ≡ 0) }
{
    let line = format!(in rt.alloc(); "{text}\n")?;
    write_text(&mut io::writer(rt), line.as_bytes())?;
    Ok(0)
}

/// Ends a program whose words ask for nothing: says so on standard error by this text, which ends its last line.
pub fn refuse_words<H: Eprint, U: Display>(rt: &H, usage: &U) -> ExitCode
    ensures { exit_status result ≡ 2 }
{
    let _ = eprint!(rt; "{usage}");
    ExitCode::from(2)
}

/// Says on standard error how a user learns what a fault means.
pub fn tell_explain<H: Eprint>(rt: &H) {
    let _ = eprintln!(rt;
        "nova explain CLASS says what a fault means, as nova explain L2 does for L2"
    );
}

/// Says on standard error that an image has faults, where it has some.
pub fn tell_faults<H: Eprint>(rt: &H, path: &str, faults: usize) {
    if faults > 0 {
        let shown = Shown(path);
        let _ = eprintln!(rt; "{shown} has faults, which nova check shows: {faults}");
    }
}

/// Names on standard error what a run that was stopped has left beside a path, by its number, where there is something.
pub(crate) fn tell_left<H: Eprint>(rt: &H, path: &str, left: Option<u32>) {
    if let Some(number) = left {
        let left = ShownBeside(Beside { path, number });
        let _ = eprintln!(rt; "{left} was left by a run that was stopped; it can be removed");
    }
}

/// Says on standard error what ended a command. Why a file can't be read, and which classes there are, stands on a line of its
/// own.
pub fn tell_failure<H: Eprint>(rt: &H, failure: Failure<'_>) {
    let _ = eprintln!(rt; "{failure}");
    match failure {
        Failure::CannotRead(_, reason) => {
            let _ = eprintln!(rt; "{reason}");
        }
        Failure::NoClass(_) => tell_classes(rt),
        _ => {}
    }
}
