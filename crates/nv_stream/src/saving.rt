//! Writing a file whole or not at all: a new file is written beside its place, and then moved there.
//!
//! A stop at any time leaves what was there before or the whole new file, and at most the new one beside it, which a later
//! run tells of. Only tested: no contract can say what a file holds.

ghost use Rattle.std.specs.Prelude.{◌≡◌, ℕ, List, OnOk};
ghost use Rattle.std.specs.Io.KnownBytes.{Appends};
ghost use Rattle.nv_stream.specs.declared.saving.Unsaved.TheVariants.{Unwritable, Memory};

use crate::beside::Beside;
use crate::place::{Lock, Place, is_as_held, is_locked_now};
use std::alloc::{AllocError, AllocFailed};
use std::fs::{File, OpenFile, Permissions};
use std::io::{ErrorKind, Write};
use std::os::unix::fs::PermissionsExt;
use std::rt::Files;
use std::{fs, io};
use thiserror::Error;

// How many names for the new file are tried, where files of such names are there.
const NAMES: u32 = 1000;

/// Why a file was not written. What was at its path is as before.
#[derive(Clone, Copy, Debug, Error)]
pub enum Unsaved {
    /// There is something at the path, which was not to be replaced.
    #[error("there is something at the path already")]
    Exists,
    /// What is at the path is no file.
    #[error("what is at the path is no file")]
    NotFile,
    /// What is at the path is read by the command that is to write it.
    #[error("what is at the path is read meanwhile")]
    IsRead,
    /// Another run holds the file at the path, to replace it.
    #[error("another run holds the file at the path")]
    InUse,
    /// What was at the path was changed or replaced since. The new file is beside it, with this number in its name.
    #[error("the file at the path changed meanwhile")]
    Changed(u32),
    /// All names for a new file beside it are taken.
    #[error("all names for a new file beside it are taken")]
    NoName,
    /// The system's error.
    #[error("not written: {0}")]
    Unwritable(io::Error),
    /// Memory was refused.
    #[error("out of memory")]
    Memory,
}

impl From<io::Error> for Unsaved {
    ghost from_gives = { λ error e. e ≡ Unwritable error };

    fn from(error: io::Error) -> Unsaved {
        Unsaved::Unwritable(error)
    }
}

impl From<AllocError> for Unsaved {
    ghost from_gives = { λ _ e. e ≡ Memory };

    fn from(_error: AllocError) -> Unsaved {
        Unsaved::Memory
    }
}

impl<T: Drop> From<AllocFailed<T>> for Unsaved {
    ghost from_gives = { λ _ e. e ≡ Memory };

    fn from(_error: AllocFailed<T>) -> Unsaved {
        Unsaved::Memory
    }
}

/// What a file is to hold.
pub trait Content {
    ghost bytes: { Self → List ℕ };

    /// Writes its bytes. Errors: the writer's, and want of memory.
    fn write_to<W: Write>(&self, writer: &mut W) -> Result<(), io::Error>
        ensures { OnOk result (Appends (W.contents writer.old) (W.contents writer.new) (bytes self.now)) };
}

impl Content for &[u8] {
    ghost bytes = { λ bytes. bytes.now };

    fn write_to<W: Write>(&self, writer: &mut W) -> Result<(), io::Error> {
        writer.write_all(self)
    }
}

// A new file beside a place.
#[derive(Drop)]
struct New<F: Drop> {
    file: F,
    name: String,
    number: u32,
}

/// Makes a new file beside the place of a file, and takes it away again. Answers the number of a file that a run which was
/// stopped has left there.
///
/// Errors: `NoName`, the system's error where no file can be made there, and want of memory.
pub fn try_beside<H: Files + AllocGlobal>(rt: &H, path: &str) -> Result<Option<u32>, Unsaved>
where
    H::File: Lock,
{
    let (new, left) = open_beside(rt, path)?;
    fs::remove_file(rt, new.name.as_str())?;
    Ok(left)
}

/// Writes a file of this content at a place that is held: where nothing was, or over what was there, whose permissions it gets.
/// Answers the new file, which has its lock for as long as it is open.
///
/// Errors: `Changed` where that isn't there any more as it was, and the new file stays beside it; `NoName`, the system's error
/// and want of memory.
pub fn save_at<H: Files + AllocGlobal, C: Content>(
    rt: &H,
    path: &str,
    place: &Place<H::File>,
    content: &C,
) -> Result<H::File, Unsaved>
where
    H::File: Lock,
{
    let (mut new, _left) = open_beside(rt, path)?;
    match fill_and_put(rt, path, place, content, &mut new) {
        Ok(()) => Ok(new.file),
        Err(Unsaved::Changed(number)) => Err(Unsaved::Changed(number)),
        Err(unsaved) => {
            let _ = fs::remove_file(rt, new.name.as_str());
            Err(unsaved)
        }
    }
}

// Fills a new file, and moves it to its place.
fn fill_and_put<H: Files, C: Content>(
    rt: &H,
    path: &str,
    place: &Place<H::File>,
    content: &C,
    new: &mut New<H::File>,
) -> Result<(), Unsaved> {
    fill(&mut new.file, content, place.mode).map_err(unfilled)?;
    if !is_as_held(rt, path, place.named, place.file)? {
        return Err(Unsaved::Changed(new.number));
    }
    if place.named.is_some() {
        fs::rename(rt, new.name.as_str(), path)?;
        return Ok(());
    }
    put_where_nothing_is(rt, path, new)
}

// Moves a new file to a place where nothing is.
fn put_where_nothing_is<H: Files>(rt: &H, path: &str, new: &New<H::File>) -> Result<(), Unsaved> {
    // Unlike a rename, a link never takes the place of a file that has come in between.
    match fs::hard_link(rt, new.name.as_str(), path) {
        Ok(()) => {
            let _ = fs::remove_file(rt, new.name.as_str());
            Ok(())
        }
        Err(error) if error.kind() == ErrorKind::AlreadyExists => {
            Err(Unsaved::Changed(new.number))
        }
        // The file system may have no links.
        Err(_) => {
            fs::rename(rt, new.name.as_str(), path)?;
            Ok(())
        }
    }
}

// Makes a new file beside the path, locked, with a name that no file has. With it comes the number of the first file of such
// a name that a run which was stopped has left.
fn open_beside<H: Files + AllocGlobal>(
    rt: &H,
    path: &str,
) -> Result<(New<H::File>, Option<u32>), Unsaved>
where
    H::File: Lock,
{
    let mut left = None;
    for number in 0..NAMES {
        let name = format!(in rt.alloc(); "{}", Beside { path, number })?;
        match File::create_new(rt, name.as_str()) {
            Ok(file) if is_locked_now(&file) => return Ok((New { file, name, number }, left)),
            // Another run looks whether this was left, and takes the next name as well.
            Ok(_) => fs::remove_file(rt, name.as_str())?,
            Err(error) if error.kind() == ErrorKind::AlreadyExists => {
                if left.is_none() && is_left(rt, name.as_str()) {
                    left = Some(number);
                }
            }
            Err(error) => return Err(Unsaved::Unwritable(error)),
        }
    }
    Err(Unsaved::NoName)
}

// Whether no run is writing the file of this name, which has bytes. A run locks its new file before it writes to it.
fn is_left<H: Files>(rt: &H, name: &str) -> bool
where
    H::File: Lock,
{
    match fs::open(rt, name) {
        Ok(file) => is_locked_now(&file) && has_bytes(&file),
        Err(_) => false,
    }
}

fn has_bytes<F: OpenFile>(file: &F) -> bool {
    match file.metadata() {
        Ok(found) => found.len() > 0,
        Err(_) => false,
    }
}

// Why a file wasn't filled: want of memory for a piece of it, or the system's error.
fn unfilled(error: io::Error) -> Unsaved {
    match error.kind() {
        ErrorKind::OutOfMemory => Unsaved::Memory,
        _ => Unsaved::Unwritable(error),
    }
}

// Writes all bytes of its content into a file, gives it these permissions, and waits until they are kept.
fn fill<F: Write + OpenFile, C: Content>(
    file: &mut F,
    content: &C,
    mode: Option<u32>,
) -> Result<(), io::Error>
    ensures { OnOk result (Appends (F.contents file.old) (F.contents file.new) (C.bytes content.now)) }
{
    content.write_to(file)?;
    if let Some(mode) = mode {
        file.set_permissions(Permissions::from_mode(mode))?;
    }
    file.sync_all()
}
