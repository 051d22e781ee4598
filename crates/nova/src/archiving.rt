//! Writing an archive of the image in a file: `tar`.

use crate::names::path_of;
use nv_args::Which;
use nv_image_check::{
    Blocks, BlocksError, READERS, gather_plain, see_unchanged, why_plain_refused,
};
use nv_image_files::{
    Failure, Image, ImageFile, Reason, open_image, read_image, refuse_length, tell_faults,
    tell_length, tell_refused, tell_unaccepted,
};
use nv_looks::{Answered, Chosen, tar_blocks, tar_gathered};
use nv_metadata::HeldBytes;
use std::io;
use std::io::Write;
use std::rt::Files;
use std::thread::Threads;

/// Recovers the image in a file in memory, and writes an archive of what is chosen there, and with `all` of all else that is in use,
/// or says among the errors why there is none. Answers the exit status, 0 or 2. Of a plain file the metadata alone are read, and
/// then the blocks of its files, or the first block where its superblock isn't accepted; else the image is read whole.
pub(crate) fn archive<'a, H: Files + AllocGlobal + Print + Eprint + Threads + Sync, E: Write>(
    rt: &H,
    errors: &mut E,
    image: &'a str,
    which: Which<'a>,
    all: bool,
) -> Result<u8, Failure<'a>>
where
    H::File: Blocks + Sync,
{
    match which {
        Which::Path(word) => {
            let path = path_of(rt.alloc(), word)?;
            archive_chosen(rt, errors, image, Chosen::Path(&path), all)
        }
        Which::Number(number) => archive_chosen(rt, errors, image, Chosen::Number(number), all),
    }
}

fn archive_chosen<'a, H: Files + AllocGlobal + Print + Eprint + Threads + Sync, E: Write>(
    rt: &H,
    errors: &mut E,
    image: &'a str,
    chosen: Chosen<'_>,
    all: bool,
) -> Result<u8, Failure<'a>>
where
    H::File: Blocks + Sync,
{
    let file = open_image(rt, image)?;
    let alloc = rt.alloc();
    match gather_plain(rt, alloc, &file, READERS)? {
        Some(gathered) => {
            let why = why_plain_refused(&file, &gathered)?;
            let source = &file.opened.file;
            let mut output = io::writer(rt);
            let told = tar_gathered(alloc, source, gathered, chosen, all, &mut output, errors);
            let answered = answer_of(file.path, told)?;
            see_unchanged(&file)?;
            tell_unaccepted(rt, why);
            tell_faults(rt, image, answered.faults);
            Ok(answered.status)
        }
        None => archive_whole(rt, errors, file, chosen, all),
    }
}

// Writes it of an image that is read whole.
fn archive_whole<'a, H: Files + AllocGlobal + Print + Eprint, E: Write>(
    rt: &H,
    errors: &mut E,
    file: ImageFile<'a, H::File>,
    chosen: Chosen<'_>,
    all: bool,
) -> Result<u8, Failure<'a>> {
    let place = file.path;
    match read_image(rt.alloc(), file)? {
        Image::Bytes(bytes) => {
            let source = HeldBytes::new(&bytes);
            let mut output = io::writer(rt);
            let told = tar_blocks(rt.alloc(), &source, chosen, all, &mut output, errors);
            let answered = answer_of(place, told)?;
            tell_refused(rt, answered.status, &bytes);
            tell_faults(rt, place, answered.faults);
            Ok(answered.status)
        }
        Image::TooLong(length) => {
            let status = refuse_length(errors)?;
            tell_length(rt, length);
            Ok(status)
        }
    }
}

fn answer_of<'a>(
    path: &'a str,
    told: Result<Answered, BlocksError>,
) -> Result<Answered, Failure<'a>> {
    match told {
        Ok(answered) => Ok(answered),
        Err(BlocksError::Read(error)) => Err(Failure::CannotRead(path, Reason::System(error))),
        Err(BlocksError::Answer(error)) => Err(Failure::Answer(error)),
    }
}
