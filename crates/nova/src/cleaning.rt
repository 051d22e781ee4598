//! Cleaning the logs of the image in a file.

use crate::names::path_of;
use nv_image_files::{
    Failure, Held, Loaded, Lock, Target, hold, refuse_length, region_at, save_region, see_ready,
    tell_length, tell_unaccepted, why_region_refused,
};
use nv_script::{Cleaned, clean_image};
use nv_stream::write_text;
use std::io;
use std::io::Write;
use std::rt::Files;

/// Takes the pages out of the logs of an image that they can do without, of the inode that a path leads to or of all, and
/// prints how many went, or says among the errors why none may go. Where some went, the image is written to its place, which is
/// held from the start; else the file isn't touched. An image on standard input is written to standard output in any case, and
/// what is printed goes to the errors. Answers the exit status, 0 or 2.
pub(crate) fn clean<'a, H: Files + AllocGlobal + Print + Eprint, E: Write>(
    rt: &H,
    errors: &mut E,
    image: &'a str,
    path: Option<&'a str>,
) -> Result<u8, Failure<'a>>
where
    H::File: Lock,
{
    let target = Target {
        path: image,
        force: true,
    };
    let path = match path {
        Some(path) => Some(path_of(rt.alloc(), path)?),
        None => None,
    };
    let held = hold(rt, target)?;
    match region_at(rt, image)? {
        Loaded::Region(region) => {
            let why = why_region_refused(rt.alloc(), &region)?;
            let cleaned = clean_image(rt.alloc(), region, path.as_deref())?;
            end_cleaning(rt, errors, &held, &cleaned)?;
            tell_unaccepted(rt, why);
            Ok(cleaned.status())
        }
        Loaded::TooLong(length) => {
            let status = refuse_length(errors)?;
            tell_length(rt, length);
            Ok(status)
        }
    }
}

// Writes the region that is left, where pages went, and then prints what came of it.
fn end_cleaning<'a, H: Files + AllocGlobal + Print + Eprint, E: Write>(
    rt: &H,
    errors: &mut E,
    held: &Held<'a, H::File>,
    cleaned: &Cleaned,
) -> Result<(), Failure<'a>>
where
    H::File: Lock,
{
    let text = cleaned.text(rt.alloc())?;
    let Cleaned::Region { region, pages } = cleaned else {
        return Ok(write_text(errors, text.as_bytes())?);
    };
    if *pages > 0 || held.is_output() {
        see_ready(rt, held, None, None)?;
        save_region(rt, held, region)?;
    }
    if held.is_output() {
        write_text(errors, text.as_bytes())?;
    } else {
        write_text(&mut io::writer(rt), text.as_bytes())?;
    }
    Ok(())
}
