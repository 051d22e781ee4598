//! Showing what rows of the image in a file tell: names with the numbers of their inodes, `ls --long`, those of all directories below,
//! `ls --recursive`, and counts of blocks, `du`.

ghost use Rattle.nv_metadata.specs.Gathered.{IsOpen};

use crate::logs::inode_of;
use nv_args::Which;
use nv_image_check::{Answered, Blocks, Gathered, READERS, gather_plain, why_plain_refused};
use nv_image_files::{
    Failure, Image, ImageFile, open_image, read_image, refuse_length, tell_faults, tell_length,
    tell_refused, tell_unaccepted,
};
use nv_logs::{
    Inode, folders_gathered, folders_image, list_long_gathered, list_long_image, usage_gathered,
    usage_image,
};
use nv_stream::ScriptError;
use std::io;
use std::io::{Read, Write};
use std::rt::Files;
use std::thread::Threads;

/// What is told of an inode.
#[derive(Clone, Copy)]
pub(crate) enum Told {
    /// The names of a directory, each behind the numbers of its inode.
    Names,
    /// The names of a directory and of all directories below it, each behind the numbers of its inode if `long` says so.
    Folders { long: bool },
    /// How many blocks it takes, with all below it.
    Blocks,
}

/// Recovers the image in a file in memory, and prints what is to be told of an inode there, or says among the errors why that can't
/// be told. Answers the exit status, 0 or 2. An image with faults is shown all the same, and a line says that it has some. Of a
/// plain file the metadata alone are read, or the first block where its superblock isn't accepted; else the image is read whole.
pub(crate) fn tell<'a, H: Files + AllocGlobal + Print + Eprint + Threads + Sync, E: Write>(
    rt: &H,
    errors: &mut E,
    image: &'a str,
    which: Which<'a>,
    what: Told,
) -> Result<u8, Failure<'a>>
where
    H::File: Blocks + Sync,
{
    let inode = inode_of(rt.alloc(), which)?;
    let file = open_image(rt, image)?;
    match gather_plain(rt, rt.alloc(), &file, READERS)? {
        Some(gathered) => {
            let why = why_plain_refused(&file, &gathered)?;
            let answered = tell_metadata(rt, errors, gathered, &inode, what)?;
            tell_unaccepted(rt, why);
            tell_faults(rt, image, answered.faults);
            Ok(answered.status)
        }
        None => tell_whole(rt, errors, file, &inode, what),
    }
}

// Tells it in a plain file of which this was gathered.
fn tell_metadata<H: AllocGlobal + Print, E: Write>(
    rt: &H,
    errors: &mut E,
    gathered: Gathered,
    inode: &Inode,
    what: Told,
) -> Result<Answered, ScriptError>
    requires { IsOpen gathered }
{
    let out = &mut io::writer(rt);
    match what {
        Told::Names => list_long_gathered(rt.alloc(), gathered, inode, out, errors),
        Told::Folders { long } => {
            folders_gathered(rt.alloc(), gathered, inode, long, out, errors)
        }
        Told::Blocks => usage_gathered(rt.alloc(), gathered, inode, out, errors),
    }
}

// Tells it in an image that is read whole.
fn tell_whole<'a, H: AllocGlobal + Print + Eprint, F: Read + Drop, E: Write>(
    rt: &H,
    errors: &mut E,
    file: ImageFile<'a, F>,
    inode: &Inode,
    what: Told,
) -> Result<u8, Failure<'a>> {
    let place = file.path;
    match read_image(rt.alloc(), file)? {
        Image::Bytes(bytes) => {
            let answered = tell_bytes(rt, errors, &bytes, inode, what)?;
            tell_refused(rt, answered.status, &bytes);
            tell_faults(rt, place, answered.faults);
            Ok(answered.status)
        }
        Image::TooLong(length) => {
            let status = refuse_length(errors)?;
            tell_length(rt, length);
            Ok(status)
        }
    }
}

fn tell_bytes<H: AllocGlobal + Print, E: Write>(
    rt: &H,
    errors: &mut E,
    bytes: &[u8],
    inode: &Inode,
    what: Told,
) -> Result<Answered, ScriptError> {
    let out = &mut io::writer(rt);
    match what {
        Told::Names => list_long_image(rt.alloc(), bytes, inode, out, errors),
        Told::Folders { long } => folders_image(rt.alloc(), bytes, inode, long, out, errors),
        Told::Blocks => usage_image(rt.alloc(), bytes, inode, out, errors),
    }
}
