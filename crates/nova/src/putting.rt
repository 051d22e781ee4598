//! Putting a tree of the host into the image in a file: `put -r`.

use crate::REFUSED_STATUS;
use crate::unpacking::{Place, unpack};
use nv_host::{HostError, Misfit, hold_files, items_of, links_of, walk};
use nv_image_files::{Failure, Lock, Reason, Shown};
use nv_script::CallRefusal;
use nv_session::refused_call_text;
use nv_stream::{ScriptError, write_text};
use nv_text::push_escaped;
use std::io::Write;
use std::rt::Files;

/// Puts what stands in the tree at a path of the host into an image: at a time or, without one, each at its own. The tree is read
/// whole first. The image is written to its place, or else standard error says why it is refused, and the file isn't touched.
/// Answers the exit status, 0 or 2.
pub(crate) fn put_tree<'a, H: Files + AllocGlobal + Print + Eprint, E: Write>(
    rt: &H,
    errors: &mut E,
    place: Place<'a>,
    host: &str,
    time: Option<u64>,
) -> Result<u8, Failure<'a>>
where
    H::File: Lock,
{
    let entries = match walk(rt, host) {
        Ok(entries) => entries,
        Err(error) => return refuse(rt, errors, error),
    };
    let links = links_of(rt.alloc(), &entries)?;
    let held = match hold_files(rt, &entries, &links) {
        Ok(held) => held,
        Err(error) => return refuse(rt, errors, error),
    };
    let items = items_of(rt.alloc(), &held, time)?;
    unpack(rt, errors, place, &items)
}

// Says why a tree isn't taken. Answers the exit status.
fn refuse<'a, H: AllocGlobal + Eprint, E: Write>(
    rt: &H,
    errors: &mut E,
    error: HostError,
) -> Result<u8, Failure<'a>> {
    match error {
        HostError::Memory => return Err(Failure::Answer(ScriptError::Memory)),
        HostError::TooLarge => {
            let text = refused_call_text(rt.alloc(), CallRefusal::TooLarge)?;
            write_text(errors, text.as_bytes())?;
        }
        HostError::At(place, misfit) => tell_misfit(rt, &place, misfit)?,
    }
    Ok(REFUSED_STATUS)
}

// Says what is the matter with what stands at a place. One that isn't text is shown as a report shows names.
fn tell_misfit<'a, H: AllocGlobal + Eprint>(
    rt: &H,
    place: &[u8],
    misfit: Misfit,
) -> Result<(), Failure<'a>> {
    match std::str::from_utf8(place) {
        Ok(text) => {
            let _ = eprintln!(rt; "cannot read {}", Shown(text));
        }
        Err(_) => {
            let mut text = String::new(rt.alloc());
            push_escaped(&mut text, place)?;
            let _ = eprintln!(rt; "cannot read {text}");
        }
    }
    match misfit {
        Misfit::System(error) => {
            let _ = eprintln!(rt; "{}", Reason::System(error));
        }
        misfit => {
            let _ = eprintln!(rt; "{misfit}");
        }
    }
    Ok(())
}
