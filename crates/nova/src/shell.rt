//! The shell on the image in a file: the commands that are typed run on its region, which is saved where one asks for that.

use nv_image_files::{
    Failure, Held, Loaded, Lock, Reason, Stamp, Target, hold, region_at, save_and_hold,
    save_region, see_ready, tell_failure, tell_unaccepted, why_region_refused,
};
use nv_script::{Hint, Host, MemRegion, run_shell};
use nv_stream::Unsaved;
use std::io::{IsTerminal, Read};
use std::rt::Files;
use std::thread::Threads;
use std::{fs, io, str};

// What asks for a line at a terminal.
const PROMPT: &str = "nova> ";

// How many workers recover the region at the start.
const WORKERS: u64 = 1;

/// Runs the commands on standard input on the region of an image, which is recovered first, and prints what they answer.
/// Answers the exit status. The image's file is held from the start; it is written where a line asks for that, and another one
/// over a file that is there only by force. Where standard input is a terminal, each line is asked for on standard error.
pub(crate) fn shell<
    'a,
    H: Files + AllocGlobal + Print + Eprint + Threads + Sync,
    R: Read + IsTerminal + Drop,
>(rt: &H, input: R, image: &'a str, force: bool) -> Result<u8, Failure<'a>>
where
    H::File: Lock,
{
    let held = hold(rt, back_to(image))?;
    let region = match region_at(rt, image)? {
        Loaded::Region(region) => region,
        Loaded::TooLong(length) => {
            return Err(Failure::CannotRead(image, Reason::Length(length)));
        }
    };
    tell_unaccepted(rt, why_region_refused(rt.alloc(), &region)?);
    let is_asked = input.is_terminal();
    let mut host = FileHost {
        rt,
        image,
        held: Some(held),
        force,
        is_asked,
    };
    let writer = &mut io::writer(rt);
    let ended = run_shell(rt, rt.alloc(), region, WORKERS, input, writer, &mut host)?;
    Ok(ended.status)
}

// The file of the image, which may be replaced.
fn back_to(image: &str) -> Target<'_> {
    Target {
        path: image,
        force: true,
    }
}

/// Keeps regions in files, and tells the user what stands in the way on standard error.
#[derive(Drop)]
struct FileHost<'a, H: Files> {
    rt: &'a H,
    image: &'a str,
    // The place of the image, unless another run took it behind a save.
    held: Option<Held<'a, H::File>>,
    // Whether another file that is there may be replaced.
    force: bool,
    // Whether each line is asked for.
    is_asked: bool,
}

impl<H: Files + AllocGlobal + Print + Eprint> Host for FileHost<'_, H>
where
    H::File: Lock,
{
    fn prompt(&mut self) {
        if self.is_asked {
            let _ = eprint!(self.rt; "{PROMPT}");
        }
    }

    fn give(&mut self, hint: Hint) {
        let _ = eprintln!(self.rt; "{hint}");
    }

    fn save(&mut self, region: &MemRegion, path: Option<&[u8]>) -> bool {
        let Some(path) = path else {
            return is_done(self.rt, self.save_back(region));
        };
        let Ok(path) = str::from_utf8(path) else {
            return is_done(self.rt, Err(Failure::WordNotUtf8));
        };
        if self.is_image(path) {
            is_done(self.rt, self.save_back(region))
        } else {
            is_done(self.rt, self.save_as(region, path))
        }
    }
}

// Whether a region was saved. If it wasn't, standard error says why.
fn is_done<H: Eprint>(rt: &H, saved: Result<(), Failure<'_>>) -> bool {
    match saved {
        Ok(()) => true,
        Err(failure) => {
            tell_failure(rt, failure);
            false
        }
    }
}

impl<'a, H: Files + AllocGlobal + Print + Eprint> FileHost<'a, H>
where
    H::File: Lock,
{
    // Saves the region in the file of the image, and holds the new file there, which is locked from before it is there.
    fn save_back(&mut self, region: &MemRegion) -> Result<(), Failure<'a>> {
        let Some(held) = &self.held else {
            return Err(Failure::unsaved(self.image, Unsaved::InUse));
        };
        see_place(self.rt, held, None)?;
        self.held = save_and_hold(self.rt, held, region)?;
        Ok(())
    }

    // Saves the region in another file.
    fn save_as<'b>(&self, region: &MemRegion, path: &'b str) -> Result<(), Failure<'b>> {
        let target = Target {
            path,
            force: self.force,
        };
        let held = hold(self.rt, target)?;
        see_place(self.rt, &held, self.stamp())?;
        save_region(self.rt, &held, region)
    }

    // Whether the path leads to the file of the image.
    fn is_image(&self, path: &str) -> bool {
        match (fs::metadata(self.rt, path), self.stamp()) {
            (Ok(found), Some(stamp)) => Stamp::of(&found).is_same_file(stamp),
            _ => path == self.image,
        }
    }

    // Of the file of the image, where it is held.
    fn stamp(&self) -> Option<Stamp> {
        self.held.as_ref()?.place.as_ref()?.file
    }
}

// Sees that a region can be saved at a place that is held. Standard output, where the answers go, is none.
fn see_place<'a, H: Files + AllocGlobal + Print + Eprint>(
    rt: &H,
    held: &Held<'a, H::File>,
    image: Option<Stamp>,
) -> Result<(), Failure<'a>>
where
    H::File: Lock,
{
    if held.is_output() {
        return Err(Failure::unsaved(held.target.path, Unsaved::NotFile));
    }
    see_ready(rt, held, None, image)
}
