//! Showing the log of an inode of the image in a file, or those of all inodes in use: `log`.

ghost use Rattle.nv_metadata.specs.Gathered.{IsOpen};

use crate::names::path_of;
use nv_args::Which;
use nv_image_check::{Answered, Blocks, Gathered, READERS, gather_plain, why_plain_refused};
use nv_image_files::{
    Failure, Image, ImageFile, open_image, read_image, refuse_length, tell_faults, tell_length,
    tell_refused, tell_unaccepted,
};
use nv_logs::{Inode, log_gathered, log_image, logs_gathered, logs_image};
use nv_stream::ScriptError;
use std::alloc::Global;
use std::io;
use std::io::{Read, Write};
use std::rt::Files;
use std::thread::Threads;

/// Whose log is shown: that of one inode, or those of all in use.
#[derive(Drop)]
enum Whose {
    One(Inode),
    All,
}

/// Recovers the image in a file in memory, and prints the log of an inode there entry by entry, or where none is named those of all
/// inodes in use; or says among the errors why it can't be shown. Answers the exit status, 0 or 2. An image with faults is shown
/// all the same, and a line says that it has some. Of a plain file the metadata alone are read, or the first block where its
/// superblock isn't accepted; else the image is read whole.
pub(crate) fn show_log<'a, H: Files + AllocGlobal + Print + Eprint + Threads + Sync, E: Write>(
    rt: &H,
    errors: &mut E,
    image: &'a str,
    which: Option<Which<'a>>,
) -> Result<u8, Failure<'a>>
where
    H::File: Blocks + Sync,
{
    let whose = whose_of(rt.alloc(), which)?;
    let file = open_image(rt, image)?;
    match gather_plain(rt, rt.alloc(), &file, READERS)? {
        Some(gathered) => {
            let why = why_plain_refused(&file, &gathered)?;
            let answered = show_gathered(rt, errors, gathered, &whose)?;
            tell_unaccepted(rt, why);
            tell_faults(rt, image, answered.faults);
            Ok(answered.status)
        }
        None => show_whole(rt, errors, file, &whose),
    }
}

fn whose_of<'a>(alloc: Global, which: Option<Which<'a>>) -> Result<Whose, Failure<'a>> {
    Ok(match which {
        Some(which) => Whose::One(inode_of(alloc, which)?),
        None => Whose::All,
    })
}

/// The inode that a word names: at a path, whose escapes are read, or of a number.
pub(crate) fn inode_of<'a>(alloc: Global, which: Which<'a>) -> Result<Inode, Failure<'a>> {
    Ok(match which {
        Which::Path(word) => Inode::Path(path_of(alloc, word)?),
        Which::Number(number) => Inode::Number(number),
    })
}

// Shows it in a plain file of which this was gathered.
fn show_gathered<H: AllocGlobal + Print, E: Write>(
    rt: &H,
    errors: &mut E,
    gathered: Gathered,
    whose: &Whose,
) -> Result<Answered, ScriptError>
    requires { IsOpen gathered }
{
    let out = &mut io::writer(rt);
    match whose {
        Whose::One(inode) => log_gathered(rt.alloc(), gathered, inode, out, errors),
        Whose::All => logs_gathered(rt.alloc(), gathered, out, errors),
    }
}

// Shows it in an image that is read whole.
fn show_whole<'a, H: AllocGlobal + Print + Eprint, F: Read + Drop, E: Write>(
    rt: &H,
    errors: &mut E,
    file: ImageFile<'a, F>,
    whose: &Whose,
) -> Result<u8, Failure<'a>> {
    let place = file.path;
    match read_image(rt.alloc(), file)? {
        Image::Bytes(bytes) => {
            let answered = show_bytes(rt, errors, &bytes, whose)?;
            tell_refused(rt, answered.status, &bytes);
            tell_faults(rt, place, answered.faults);
            Ok(answered.status)
        }
        Image::TooLong(length) => {
            let status = refuse_length(errors)?;
            tell_length(rt, length);
            Ok(status)
        }
    }
}

fn show_bytes<H: AllocGlobal + Print, E: Write>(
    rt: &H,
    errors: &mut E,
    bytes: &[u8],
    whose: &Whose,
) -> Result<Answered, ScriptError> {
    let out = &mut io::writer(rt);
    match whose {
        Whose::One(inode) => log_image(rt.alloc(), bytes, inode, out, errors),
        Whose::All => logs_image(rt.alloc(), bytes, out, errors),
    }
}
