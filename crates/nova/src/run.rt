//! Running a script, on the region of an image or on none, and saving the region that it leaves.

use crate::hints::ErrorOutput;
use nv_image_files::{
    Failure, Held, ImageFile, Loaded, Lock, Reason, Stamp, Target, hold, load_image, open_image,
    save_region, see_ready,
};
use nv_script::{
    Ended, MemRegion, ScriptError, run_script_on, run_script_strictly, run_script_to_end,
};
use nv_stream::{Opened, open_at};
use std::io::{Read, Write};
use std::rt::Files;
use std::thread::Threads;
use std::{fs, io};

// The path of the file that is standard input, where the system has such paths.
const STANDARD_INPUT: &str = "/dev/stdin";

/// A script, and the stamp of its file where it comes from one.
#[derive(Drop)]
struct Script<R: Drop> {
    reader: R,
    stamp: Option<Stamp>,
}

/// What a script begins and ends with.
#[derive(Clone, Copy)]
pub(crate) struct Images<'a> {
    /// The file whose region it begins with; without one there is none.
    pub image: Option<&'a str>,
    /// The file that the region at its end is written to; without one no file is written.
    pub save: Option<Target<'a>>,
    /// Whether it ends at the first command that is refused.
    pub strict: bool,
}

/// Runs the script in the file of this name, or, without one or by `-`, the one on standard input.
pub(crate) fn run_named<
    'a,
    H: Files + AllocGlobal + Print + Eprint + Threads + Sync,
    R: Read + Drop,
    E: Write,
>(
    rt: &H,
    input: R,
    errors: &mut E,
    script: Option<&'a str>,
    images: Images<'a>,
) -> Result<u8, Failure<'a>>
where
    H::File: Lock,
{
    match script {
        None | Some("-") => run(rt, errors, script_on(rt, input), images),
        Some(path) => run(rt, errors, script_at(rt, path)?, images),
    }
}

// Runs a script, prints what its commands answer on standard output, and answers its exit status. The place of the file that
// it is saved to is held from the start. Where that is standard output, the answers go to the errors.
fn run<'a, H: Files + AllocGlobal + Print + Eprint + Threads + Sync, R: Read + Drop, E: Write>(
    rt: &H,
    errors: &mut E,
    script: Script<R>,
    images: Images<'a>,
) -> Result<u8, Failure<'a>>
where
    H::File: Lock,
{
    let Script { reader, stamp } = script;
    let Images {
        image,
        save,
        strict,
    } = images;
    let held = match save {
        Some(target) => Some(hold(rt, target)?),
        None => None,
    };
    let file = match image {
        Some(path) => Some(open_image(rt, path)?),
        None => None,
    };
    if let Some(held) = &held {
        see_save_ready(rt, held, stamp, &file)?;
    }
    let region = match file {
        Some(file) => Some(region_in(rt, file)?),
        None => None,
    };
    let is_saved_there = held.as_ref().is_some_and(|held| held.is_output());
    let Ended { status, region } = if is_saved_there {
        run_from(rt, reader, region, strict, errors)?
    } else {
        run_from(rt, reader, region, strict, &mut io::writer(rt))?
    };
    if let Some(held) = &held {
        save_end(rt, held, region)?;
    }
    Ok(status)
}

// Sees that the region at a script's end can be written: over the image that it begins with, but not over the script.
fn see_save_ready<'a, H: Files + AllocGlobal + Eprint>(
    rt: &H,
    held: &Held<'a, H::File>,
    script: Option<Stamp>,
    image: &Option<ImageFile<'_, H::File>>,
) -> Result<(), Failure<'a>>
where
    H::File: Lock,
{
    let image = image.as_ref().map(|file| file.opened.stamp);
    see_ready(rt, held, script, image)
}

// Writes the region that is there at the end of a script to a file.
fn save_end<'a, H: Files + AllocGlobal + Print>(
    rt: &H,
    held: &Held<'a, H::File>,
    region: Option<MemRegion>,
) -> Result<(), Failure<'a>>
where
    H::File: Lock,
{
    match region {
        Some(region) => save_region(rt, held, &region),
        None => Err(Failure::NothingToWrite(held.target.path)),
    }
}

fn run_from<H: AllocGlobal + Eprint + Threads + Sync, R: Read + Drop, W: Write>(
    rt: &H,
    script: R,
    region: Option<MemRegion>,
    strict: bool,
    output: &mut W,
) -> Result<Ended, ScriptError> {
    let alloc = rt.alloc();
    let mut hints = ErrorOutput { rt };
    if strict {
        return run_script_strictly(rt, alloc, region, script, output, &mut hints);
    }
    match region {
        Some(region) => run_script_on(rt, alloc, region, script, output, &mut hints),
        None => run_script_to_end(rt, alloc, script, output, &mut hints),
    }
}

// The script in a file.
fn script_at<'a, H: Files>(rt: &H, path: &'a str) -> Result<Script<H::File>, Failure<'a>> {
    match open_at(rt, path) {
        Ok(Opened { file, stamp }) => Ok(Script {
            reader: file,
            stamp: Some(stamp),
        }),
        Err(error) => Err(Failure::CannotRead(path, Reason::System(error))),
    }
}

// The script on standard input, which may come from a file.
fn script_on<H: Files, R: Read + Drop>(rt: &H, input: R) -> Script<R> {
    let stamp = match fs::metadata(rt, STANDARD_INPUT) {
        Ok(found) if found.is_file() => Some(Stamp::of(&found)),
        _ => None,
    };
    Script {
        reader: input,
        stamp,
    }
}

// The region of the image in a file.
fn region_in<'a, H: AllocGlobal, F: Read + Drop>(
    rt: &H,
    file: ImageFile<'a, F>,
) -> Result<MemRegion, Failure<'a>> {
    let path = file.path;
    match load_image(rt.alloc(), file)? {
        Loaded::Region(region) => Ok(region),
        Loaded::TooLong(length) => Err(Failure::CannotRead(path, Reason::Length(length))),
    }
}
