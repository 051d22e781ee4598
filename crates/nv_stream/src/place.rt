//! The place of a file that is to be written: what is there is locked, and is looked at again before it is replaced.
//!
//! Of the runs that hold a file one alone has its lock. A run that held a file which another has replaced meanwhile sees so by
//! the stamps. What is held of a place is only tested: no contract can say what a file system has.

ghost use Rattle.std.specs.Prelude.{◌≡◌};
ghost use Rattle.nv_stream.specs.Places.{are_one_file};

use crate::saving::Unsaved;
use std::fs;
use std::fs::{File, Metadata, OpenFile, TryLockError};
use std::io::{Error, ErrorKind};
use std::os::unix::fs::MetadataExt;
use std::rt::Files;

/// An open file that can be locked.
pub trait Lock {
    /// Takes the lock of the file for as long as this is open. Answers whether no other open of the file has it.
    fn lock_now(&self) -> Result<bool, Error>;
}

impl Lock for File {
    fn lock_now(&self) -> Result<bool, Error> {
        match self.try_lock() {
            Ok(()) => Ok(true),
            Err(TryLockError::WouldBlock) => Ok(false),
            Err(TryLockError::Error(error)) => Err(error),
        }
    }
}

/// Takes a file's lock, where its file system has locks: whether no other open of the file has it.
pub(crate) fn is_locked_now<F: Lock>(file: &F) -> bool {
    file.lock_now().unwrap_or(true)
}

/// What tells a file from all others, and from what it was before.
#[derive(Clone, Copy, PartialEq, Eq)]
pub struct Stamp {
    pub device: u64,
    pub inode: u64,
    pub length: u64,
    /// When its content, its permissions or its names were changed.
    pub seconds: i64,
    pub nanoseconds: i64,
}

impl Stamp {
    ghost use Rattle.std.specs.Prelude.{◌≡◌};
    ghost use Rattle.std.specs.Fs.{metadata_len};
    ghost use Rattle.nv_stream.specs.Places.{is_same_file};

    /// That of a file with such metadata.
    pub fn of(found: &Metadata) -> Stamp
        ensures { result.length ≡ metadata_len found.now }
    {
        Stamp {
            device: found.dev(),
            inode: found.ino(),
            length: found.len(),
            seconds: found.ctime(),
            nanoseconds: found.ctime_nsec(),
        }
    }

    /// Whether both are of one file, changed or not.
    pub fn is_same_file(self, other: Stamp) -> bool
        ensures { result ≡ is_same_file self other }
    {
        self.device == other.device && self.inode == other.inode
    }
}

/// What is at the place of a file that is to be written.
#[derive(Drop)]
pub struct Place<F: Drop> {
    /// Of what has the name, which may be a link.
    pub named: Option<Stamp>,
    /// Of the file that the name leads to. A link may lead nowhere.
    pub file: Option<Stamp>,
    /// The permissions of the file.
    pub(crate) mode: Option<u32>,
    /// The file, which has its lock for as long as this is kept. One that can't be read is not locked.
    _locked: Option<F>,
}

/// What a command reads, and may put in the place of what is there.
#[derive(Clone, Copy)]
pub struct Allowed {
    /// The file that it reads, and never replaces.
    pub read: Option<Stamp>,
    /// The image that it reads, and may replace.
    pub image: Option<Stamp>,
    /// Whether it may replace another file.
    pub force: bool,
}

impl<F: Drop> Place<F> {
    ghost use Rattle.std.specs.Prelude.{◌≡◌, is_some};
    ghost use Rattle.nv_stream.specs.Places.{refused_place};

    /// Why a command may not write a file here: `IsRead` where that is the file which it reads, and `Exists` where something is
    /// here, no force is given, and it isn't the image that the command reads.
    pub fn refusal(&self, allowed: Allowed) -> Option<Unsaved>
        ensures { result ≡ refused_place (is_some self.now.named) self.now.file allowed }
    {
        if are_one_file(self.file, allowed.read) {
            Some(Unsaved::IsRead)
        } else if self.named.is_some()
            && !allowed.force
            && !are_one_file(self.file, allowed.image)
        {
            Some(Unsaved::Exists)
        } else {
            None
        }
    }
}

// Whether there are two stamps, of one file.
fn are_one_file(file: Option<Stamp>, other: Option<Stamp>) -> bool
    ensures { result ≡ are_one_file file other }
{
    match (file, other) {
        (Some(file), Some(other)) => file.is_same_file(other),
        _ => false,
    }
}

/// Looks at the place of a file, and locks the file that is there.
///
/// Errors: `NotFile` where something else is there, `InUse` where another run has the lock, and the system's error.
pub fn hold_place<H: Files>(rt: &H, path: &str) -> Result<Place<H::File>, Unsaved>
where
    H::File: Lock,
{
    match fs::metadata(rt, path) {
        Ok(found) if found.is_file() => lock_file(rt, path, &found),
        Ok(_) => Err(Unsaved::NotFile),
        Err(error) if error.kind() == ErrorKind::NotFound => Ok(Place {
            named: named_at(rt, path)?,
            file: None,
            mode: None,
            _locked: None,
        }),
        Err(error) => Err(Unsaved::Unwritable(error)),
    }
}

// Locks the file at a path, of which this was found.
fn lock_file<H: Files>(rt: &H, path: &str, found: &Metadata) -> Result<Place<H::File>, Unsaved>
where
    H::File: Lock,
{
    let (locked, file) = match fs::open(rt, path) {
        Ok(file) => {
            if !is_locked_now(&file) {
                return Err(Unsaved::InUse);
            }
            let stamp = Stamp::of(&file.metadata()?);
            (Some(file), stamp)
        }
        Err(_) => (None, Stamp::of(found)),
    };
    Ok(Place {
        named: named_at(rt, path)?,
        file: Some(file),
        mode: Some(found.mode()),
        _locked: locked,
    })
}

/// The place of a file that was written there a moment ago, and has its lock since before. Errors: the system's.
pub fn hold_saved<H: Files>(rt: &H, path: &str, file: H::File) -> Result<Place<H::File>, Error> {
    let found = file.metadata()?;
    Ok(Place {
        named: named_at(rt, path)?,
        file: Some(Stamp::of(&found)),
        mode: Some(found.mode()),
        _locked: Some(file),
    })
}

/// Whether at the path is what was there when its place was held, unchanged. Errors: the system's.
pub(crate) fn is_as_held<H: Files>(
    rt: &H,
    path: &str,
    named: Option<Stamp>,
    file: Option<Stamp>,
) -> Result<bool, Error> {
    Ok(named_at(rt, path)? == named && file_at(rt, path)? == file)
}

// What has the name at the path, which may be a link.
fn named_at<H: Files>(rt: &H, path: &str) -> Result<Option<Stamp>, Error> {
    stamp_of(fs::symlink_metadata(rt, path))
}

// What the path leads to.
fn file_at<H: Files>(rt: &H, path: &str) -> Result<Option<Stamp>, Error> {
    stamp_of(fs::metadata(rt, path))
}

fn stamp_of(found: Result<Metadata, Error>) -> Result<Option<Stamp>, Error> {
    match found {
        Ok(found) => Ok(Some(Stamp::of(&found))),
        Err(error) if error.kind() == ErrorKind::NotFound => Ok(None),
        Err(error) => Err(error),
    }
}
