//! Saying what differs between the images in two files: `diff`.

use crate::REFUSED_STATUS;
use nv_comparing::{Compared, compare_images};
use nv_image_files::{
    Failure, Image, image_at, tell_faults, tell_length, tell_unaccepted, why_refused,
};
use nv_stream::ScriptError;
use std::io;
use std::io::Write;
use std::rt::Files;

/// Recovers the images in two files in memory, and prints what differs between them, or says among the errors which is refused.
/// Answers the exit status: 0 where nothing differs, 1 where something does, or 2. An image with faults is compared all the same,
/// and a line says that it has some. Both are read whole.
pub(crate) fn compare<'a, H: Files + AllocGlobal + Print + Eprint, E: Write>(
    rt: &H,
    errors: &mut E,
    image: &'a str,
    other: &'a str,
) -> Result<u8, Failure<'a>> {
    let first = image_at(rt, image)?;
    let second = image_at(rt, other)?;
    let compared = compare_bytes(rt, errors, bytes_of(&first), bytes_of(&second))?;
    if compared.status == REFUSED_STATUS {
        let _ = tell_why(rt, &first) || tell_why(rt, &second);
    }
    tell_faults(rt, image, compared.first_faults);
    tell_faults(rt, other, compared.second_faults);
    Ok(compared.status)
}

fn compare_bytes<H: AllocGlobal + Print, E: Write>(
    rt: &H,
    errors: &mut E,
    a: &[u8],
    b: &[u8],
) -> Result<Compared, ScriptError> {
    let out = &mut io::writer(rt);
    compare_images(rt.alloc(), a, b, out, errors)
}

// Its bytes. None stand for those of a file that is too long for a region, for they are refused by the same name.
fn bytes_of(image: &Image) -> &[u8] {
    match image {
        Image::Bytes(bytes) => bytes,
        Image::TooLong(_) => b"",
    }
}

// Says why an image is refused, if it is. Answers whether it is.
fn tell_why<H: AllocGlobal + Eprint>(rt: &H, image: &Image) -> bool {
    match image {
        Image::Bytes(bytes) => {
            let why = why_refused(rt.alloc(), bytes);
            tell_unaccepted(rt, why);
            why.is_some()
        }
        Image::TooLong(length) => {
            tell_length(rt, *length);
            true
        }
    }
}
