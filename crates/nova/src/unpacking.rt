//! Putting an archive on standard input into the image in a file: `untar`, and whatever else has items.

ghost use Rattle.std.specs.Prelude.{◌≡◌};
ghost use Rattle.nova.specs.Makers.{maker_said};

use crate::REFUSED_STATUS;
use crate::names::path_of;
use nv_image_files::{
    Failure, Held, Image, Loaded, Lock, Target, hold, image_at, refuse_length, region_at,
    save_region, see_ready, tell_length, tell_unaccepted, why_region_refused,
};
use nv_script::CallRefusal;
use nv_session::refused_call_text;
use nv_stream::{ScriptError, write_text};
use nv_unpack::{Maker, Unpacked, unpack_image};
use nv_untar::{Item, UntarError, read_items};
use std::io::Write;
use std::rt::Files;

// The path of standard input.
const ARCHIVE: &str = "-";

/// Where items go, and in whose name: of any CPU where none is named.
#[derive(Clone, Copy)]
pub(crate) struct Place<'a> {
    pub image: &'a str,
    pub path: &'a str,
    pub cpu: Option<u64>,
}

/// Puts the members of the archive on standard input into an image. The image is written to its place, which is held from the
/// start, or else standard error says why it is refused, and the file isn't touched. Answers the exit status, 0 or 2.
pub(crate) fn untar<'a, H: Files + AllocGlobal + Print + Eprint, E: Write>(
    rt: &H,
    errors: &mut E,
    place: Place<'a>,
) -> Result<u8, Failure<'a>>
where
    H::File: Lock,
{
    match image_at(rt, ARCHIVE)? {
        Image::Bytes(bytes) => match read_items(rt.alloc(), &bytes) {
            Ok(items) => unpack(rt, errors, place, &items),
            Err(UntarError::Memory) => Err(Failure::Answer(ScriptError::Memory)),
            Err(UntarError::Damaged(damage)) => {
                let _ = eprintln!(rt; "cannot read {ARCHIVE}");
                let _ = eprintln!(rt; "{damage}");
                Ok(REFUSED_STATUS)
            }
        },
        Image::TooLong(_) => {
            let text = refused_call_text(rt.alloc(), CallRefusal::TooLarge)?;
            write_text(errors, text.as_bytes())?;
            Ok(REFUSED_STATUS)
        }
    }
}

/// Puts items into an image, as `untar` does. Answers the exit status, 0 or 2.
pub(crate) fn unpack<'a, H: Files + AllocGlobal + Print + Eprint, E: Write>(
    rt: &H,
    errors: &mut E,
    place: Place<'a>,
    items: &[Item<'_>],
) -> Result<u8, Failure<'a>>
where
    H::File: Lock,
{
    let base = path_of(rt.alloc(), place.path)?;
    let target = Target {
        path: place.image,
        force: true,
    };
    let held = hold(rt, target)?;
    match region_at(rt, place.image)? {
        Loaded::Region(region) => {
            let why = why_region_refused(rt.alloc(), &region)?;
            let unpacked = unpack_image(rt.alloc(), region, &base, items, maker_of(place.cpu))?;
            end(rt, errors, &held, &unpacked)?;
            tell_unaccepted(rt, why);
            Ok(unpacked.status())
        }
        Loaded::TooLong(length) => {
            let status = refuse_length(errors)?;
            tell_length(rt, length);
            Ok(status)
        }
    }
}

fn maker_of(cpu: Option<u64>) -> Maker
    ensures { result ≡ maker_said cpu }
{
    match cpu {
        Some(cpu) => Maker::Named(cpu),
        None => Maker::Free,
    }
}

// Writes the region that is left, or says why there is none.
fn end<'a, H: Files + AllocGlobal + Print + Eprint, E: Write>(
    rt: &H,
    errors: &mut E,
    held: &Held<'a, H::File>,
    unpacked: &Unpacked<'_>,
) -> Result<(), Failure<'a>>
where
    H::File: Lock,
{
    match unpacked {
        Unpacked::Region(region) => {
            see_ready(rt, held, None, None)?;
            save_region(rt, held, region)?;
        }
        refused => {
            let text = refused.text(rt.alloc())?;
            write_text(errors, text.as_bytes())?;
        }
    }
    Ok(())
}
