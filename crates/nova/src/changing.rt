//! Changing the image in a file by the calls of one command.

ghost use Rattle.std.specs.Prelude.{◌≡◌};
ghost use Rattle.nova.specs.Changes.{change_said};

use crate::REFUSED_STATUS;
use crate::names::path_of;
use nv_args::NamedChange;
use nv_changes::{Change, Changed, change_image};
use nv_image_files::{
    Failure, Held, Image, Loaded, Lock, Reason, Target, hold, image_at, refuse_length, region_at,
    save_region, see_ready, tell_failure, tell_length, tell_unaccepted, why_region_refused,
};
use nv_script::CallRefusal;
use nv_stream::write_text;
use std::io::{ErrorKind, Write};
use std::rt::Files;
use std::time::Clock;

// What is told to be unreadable where the system has no time.
const CLOCK: &str = "the clock";

/// A change, and in whose name and when it is made.
#[derive(Clone, Copy)]
pub(crate) struct Asked<'a> {
    pub change: NamedChange<'a>,
    pub cpu: u64,
    /// None for now.
    pub time: Option<u64>,
}

/// Makes a change of an image. The image is written to its place, which is held from the start, or else standard error says why
/// it is refused, and the file isn't touched. An image on standard input is written to standard output. Answers the exit status,
/// 0 or 2.
pub(crate) fn change<'a, H: Files + AllocGlobal + Clock + Print + Eprint, E: Write>(
    rt: &H,
    errors: &mut E,
    image: &'a str,
    asked: Asked<'a>,
) -> Result<u8, Failure<'a>>
where
    H::File: Lock,
{
    let target = Target {
        path: image,
        force: true,
    };
    let first = path_of(rt.alloc(), first_word(asked.change))?;
    let second = match second_bytes(rt, asked.change) {
        Ok(Some(second)) => second,
        Ok(None) => return refuse(rt, errors, CallRefusal::TooLarge),
        Err(failure) => return tell_unread(rt, failure),
    };
    let held = hold(rt, target)?;
    match region_at(rt, image)? {
        Loaded::Region(region) => {
            let why = why_region_refused(rt.alloc(), &region)?;
            let change = change_of(asked.change, &first, &second);
            let time = time_of(rt, asked.time)?;
            let changed = change_image(rt.alloc(), region, &change, asked.cpu, time)?;
            let status = end_change(rt, errors, &held, &changed)?;
            tell_unaccepted(rt, why);
            Ok(status)
        }
        Loaded::TooLong(length) => {
            let status = refuse_length(errors)?;
            tell_length(rt, length);
            Ok(status)
        }
    }
}

// Writes the region that is left, or says why there is none. Answers the exit status.
fn end_change<'a, H: Files + AllocGlobal + Print + Eprint, E: Write>(
    rt: &H,
    errors: &mut E,
    held: &Held<'a, H::File>,
    changed: &Changed,
) -> Result<u8, Failure<'a>>
where
    H::File: Lock,
{
    match changed {
        Changed::Region(region) => {
            see_ready(rt, held, None, None)?;
            save_region(rt, held, region)?;
        }
        refused => tell_refused(rt, errors, refused)?,
    }
    Ok(changed.status())
}

// Says which command puts a directory, where one is in the place of a file. Answers the exit status.
fn tell_unread<'a, H: Eprint>(rt: &H, failure: Failure<'a>) -> Result<u8, Failure<'a>> {
    match failure {
        Failure::CannotRead(_, Reason::System(error)) if error.kind() == ErrorKind::IsADirectory =>
            {
                tell_failure(rt, failure);
                let _ = eprintln!(rt; "nova put -r puts a directory into an image");
                Ok(REFUSED_STATUS)
            }
        failure => Err(failure),
    }
}

// Says why no region is left.
fn tell_refused<'a, H: AllocGlobal, E: Write>(
    rt: &H,
    errors: &mut E,
    refused: &Changed,
) -> Result<(), Failure<'a>> {
    let text = refused.text(rt.alloc())?;
    write_text(errors, text.as_bytes())?;
    Ok(())
}

// Says that a change is refused before the image is read.
fn refuse<'a, H: AllocGlobal, E: Write>(
    rt: &H,
    errors: &mut E,
    refusal: CallRefusal,
) -> Result<u8, Failure<'a>> {
    let changed = Changed::Refused(refusal);
    tell_refused(rt, errors, &changed)?;
    Ok(changed.status())
}

// The word of the path that a change is about, or of the first of two.
fn first_word(change: NamedChange<'_>) -> &str {
    match change {
        NamedChange::Mkdir { path }
        | NamedChange::Rm { path }
        | NamedChange::Rmdir { path }
        | NamedChange::Truncate { path, .. }
        | NamedChange::Chmod { path, .. }
        | NamedChange::Chown { path, .. }
        | NamedChange::Put { path, .. } => path,
        NamedChange::Mv { old, .. } | NamedChange::Ln { old, .. } => old,
    }
}

// The second path, or the bytes of a file of the host; none where these are more than a file can have.
fn second_bytes<'a, H: Files + AllocGlobal>(
    rt: &H,
    change: NamedChange<'a>,
) -> Result<Option<Vec<u8>>, Failure<'a>> {
    match change {
        NamedChange::Mv { new, .. } | NamedChange::Ln { new, .. } => {
            Ok(Some(path_of(rt.alloc(), new)?))
        }
        NamedChange::Put { host, .. } => match image_at(rt, host)? {
            Image::Bytes(bytes) => Ok(Some(bytes)),
            Image::TooLong(_) => Ok(None),
        },
        _ => Ok(Some(Vec::new(rt.alloc()))),
    }
}

// The change, with the bytes that its words stand for.
fn change_of<'b>(change: NamedChange<'_>, first: &'b [u8], second: &'b [u8]) -> Change<'b>
    ensures { result ≡ change_said change.entry first.entry second.entry }
{
    match change {
        NamedChange::Mkdir { .. } => Change::MakeDirectory { path: first },
        NamedChange::Rm { .. } => Change::Remove { path: first },
        NamedChange::Rmdir { .. } => Change::RemoveDirectory { path: first },
        NamedChange::Mv { .. } => Change::Rename {
            old: first,
            new: second,
        },
        NamedChange::Ln { .. } => Change::Link {
            old: first,
            new: second,
        },
        NamedChange::Truncate { size, .. } => Change::SetSize { path: first, size },
        NamedChange::Chmod { mode, .. } => Change::SetMode { path: first, mode },
        NamedChange::Chown { owner, group, .. } => Change::SetOwner {
            path: first,
            owner,
            group,
        },
        NamedChange::Put { .. } => Change::Put {
            path: first,
            bytes: second,
        },
    }
}

// The time that is given, or the seconds since 1970.
fn time_of<'a, H: Clock>(rt: &H, time: Option<u64>) -> Result<u64, Failure<'a>> {
    match time {
        Some(time) => Ok(time),
        None => match rt.since_1970() {
            Ok(now) => Ok(now.as_secs()),
            Err(error) => Err(Failure::CannotRead(CLOCK, Reason::System(error))),
        },
    }
}
