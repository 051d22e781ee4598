//! Showing what a block of the image in a file is: `block`.

use nv_image_files::{
    Failure, Image, open_image, read_image, refuse_length, tell_faults, tell_length, tell_refused,
};
use nv_logs::block_image;
use std::io;
use std::io::Write;
use std::rt::Files;

/// Recovers the image in a file in memory, and prints what a block of it is, with its bytes if `hex` says so; or says among the
/// errors why that can't be shown. Answers the exit status, 0 or 2. An image with faults is shown all the same, and a line says that
/// it has some. The image is read whole.
pub(crate) fn show_block<'a, H: Files + AllocGlobal + Print + Eprint, E: Write>(
    rt: &H,
    errors: &mut E,
    image: &'a str,
    block: u64,
    hex: bool,
) -> Result<u8, Failure<'a>> {
    let file = open_image(rt, image)?;
    match read_image(rt.alloc(), file)? {
        Image::Bytes(bytes) => {
            let out = &mut io::writer(rt);
            let answered = block_image(rt.alloc(), &bytes, block, hex, out, errors)?;
            tell_refused(rt, answered.status, &bytes);
            tell_faults(rt, image, answered.faults);
            Ok(answered.status)
        }
        Image::TooLong(length) => {
            let status = refuse_length(errors)?;
            tell_length(rt, length);
            Ok(status)
        }
    }
}
