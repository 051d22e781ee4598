//! Showing what is in the image in a file: `ls`, `stat` and `cat`.

ghost use Rattle.nv_metadata.specs.Gathered.{IsOpen};

use crate::names::path_of;
use nv_args::Which;
use nv_image_check::{
    Blocks, BlocksError, Gathered, READERS, gather_plain, see_unchanged, why_plain_refused,
};
use nv_image_files::{
    Failure, Image, ImageFile, Reason, open_image, read_image, refuse_length, tell_faults,
    tell_length, tell_refused, tell_unaccepted,
};
use nv_looks::{
    Answered, cat_gathered, cat_image, cat_inode_image, list_gathered, list_image,
    list_inode_image, stat_gathered, stat_image, stat_inode_image,
};
use nv_stream::ScriptError;
use std::alloc::Global;
use std::fs::OpenFile;
use std::io;
use std::io::Write;
use std::rt::Files;
use std::thread::Threads;

/// What is shown of an image.
#[derive(Clone, Copy)]
pub(crate) enum Shown {
    /// The names of a directory.
    Names,
    /// The attributes of an inode.
    Attributes,
    /// The bytes of a file.
    Bytes,
}

/// An inode of an image: at a path, whose escapes are read, or of a number.
#[derive(Drop)]
enum Inode {
    Path(Vec<u8>),
    Number(u64),
}

/// Recovers the image in a file in memory, and prints what is to be shown of an inode there, or says among the errors why that
/// can't be shown. Answers the exit status, 0 or 2. An image with faults is shown all the same, and a line says that it has some.
/// For a path in a plain file the metadata alone are read, and the blocks of a file whose bytes are shown, or the first block where
/// its superblock isn't accepted; else the image is read whole.
pub(crate) fn show<'a, H: Files + AllocGlobal + Print + Eprint + Threads + Sync, E: Write>(
    rt: &H,
    errors: &mut E,
    image: &'a str,
    which: Which<'a>,
    what: Shown,
) -> Result<u8, Failure<'a>>
where
    H::File: Blocks + Sync,
{
    let inode = inode_of(rt.alloc(), which)?;
    let file = open_image(rt, image)?;
    let path = match &inode {
        Inode::Path(path) => path,
        Inode::Number(_) => return show_whole(rt, errors, file, &inode, what),
    };
    match gather_plain(rt, rt.alloc(), &file, READERS)? {
        Some(gathered) => {
            let why = why_plain_refused(&file, &gathered)?;
            let answered = show_plain(rt, errors, &file, gathered, path, what)?;
            tell_unaccepted(rt, why);
            tell_faults(rt, image, answered.faults);
            Ok(answered.status)
        }
        None => show_whole(rt, errors, file, &inode, what),
    }
}

fn inode_of<'a>(alloc: Global, which: Which<'a>) -> Result<Inode, Failure<'a>> {
    Ok(match which {
        Which::Path(word) => Inode::Path(path_of(alloc, word)?),
        Which::Number(number) => Inode::Number(number),
    })
}

// Shows it in a plain file of which this was gathered.
fn show_plain<'a, H: AllocGlobal + Print, F: Blocks + OpenFile + Drop, E: Write>(
    rt: &H,
    errors: &mut E,
    file: &ImageFile<'a, F>,
    gathered: Gathered,
    path: &[u8],
    what: Shown,
) -> Result<Answered, Failure<'a>>
    requires { IsOpen gathered }
{
    let alloc = rt.alloc();
    let mut output = io::writer(rt);
    match what {
        Shown::Names => Ok(list_gathered(alloc, gathered, path, &mut output, errors)?),
        Shown::Attributes => Ok(stat_gathered(alloc, gathered, path, &mut output, errors)?),
        Shown::Bytes => {
            let source = &file.opened.file;
            match cat_gathered(alloc, source, gathered, path, &mut output, errors) {
                Ok(answered) => {
                    see_unchanged(file)?;
                    Ok(answered)
                }
                Err(BlocksError::Read(error)) => {
                    Err(Failure::CannotRead(file.path, Reason::System(error)))
                }
                Err(BlocksError::Answer(error)) => Err(Failure::Answer(error)),
            }
        }
    }
}

// Shows it in an image that is read whole.
fn show_whole<'a, H: Files + AllocGlobal + Print + Eprint, E: Write>(
    rt: &H,
    errors: &mut E,
    file: ImageFile<'a, H::File>,
    inode: &Inode,
    what: Shown,
) -> Result<u8, Failure<'a>> {
    let place = file.path;
    match read_image(rt.alloc(), file)? {
        Image::Bytes(bytes) => {
            let answered = show_bytes(rt, errors, &bytes, inode, what)?;
            tell_refused(rt, answered.status, &bytes);
            tell_faults(rt, place, answered.faults);
            Ok(answered.status)
        }
        Image::TooLong(length) => {
            let status = refuse_length(errors)?;
            tell_length(rt, length);
            Ok(status)
        }
    }
}

fn show_bytes<H: AllocGlobal + Print, E: Write>(
    rt: &H,
    errors: &mut E,
    bytes: &[u8],
    inode: &Inode,
    what: Shown,
) -> Result<Answered, ScriptError> {
    let alloc = rt.alloc();
    let out = &mut io::writer(rt);
    match (inode, what) {
        (Inode::Path(path), Shown::Names) => list_image(alloc, bytes, path, out, errors),
        (Inode::Path(path), Shown::Attributes) => stat_image(alloc, bytes, path, out, errors),
        (Inode::Path(path), Shown::Bytes) => cat_image(alloc, bytes, path, out, errors),
        (Inode::Number(n), Shown::Names) => list_inode_image(alloc, bytes, *n, out, errors),
        (Inode::Number(n), Shown::Attributes) => stat_inode_image(alloc, bytes, *n, out, errors),
        (Inode::Number(n), Shown::Bytes) => cat_inode_image(alloc, bytes, *n, out, errors),
    }
}
