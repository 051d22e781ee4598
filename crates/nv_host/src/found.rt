//! What the system tells of what stands at a place of the host.

ghost use Rattle.std.specs.Prelude.{◌≡◌, IfOk, IfErr, Result};
ghost use Rattle.std.specs.Fs.{file_type, metadata_mode};
ghost use Rattle.nv_host.specs.Found.{IsKind, seconds, permissions};

use crate::errors::Misfit;
use std::fs::{FileType, Metadata};
use std::os::unix::fs::MetadataExt;

/// The bits of a mode that are permissions.
const PERMISSIONS: u32 = 0o7777;

/// What can be put into an image.
#[derive(Clone, Copy, PartialEq, Eq)]
pub enum HostKind {
    File,
    Directory,
}

/// What the system tells of a file or directory.
#[derive(Clone, Copy)]
pub struct Found {
    pub kind: HostKind,
    pub mode: u32,
    pub owner: u32,
    pub group: u32,
    /// In seconds since 1970.
    pub time: u64,
    /// With the inode this tells a file from all others.
    pub device: u64,
    pub inode: u64,
    /// How many names a file has.
    pub links: u64,
}

/// What metadata tell, where they are those of a file or directory.
pub(crate) fn found_of(metadata: &Metadata) -> Result<Found, Misfit>
    ensures ok { IfOk result (λ found. IsKind (file_type metadata.now) (Result.Ok found.kind) × (found.mode ≡ permissions (metadata_mode metadata.now))) }
    ensures err { IfErr result (λ misfit. IsKind (file_type metadata.now) (Result.Err misfit)) }
{
    let kind = kind_of(metadata.file_type())?;
    Ok(Found {
        kind,
        mode: metadata.mode() & PERMISSIONS,
        owner: metadata.uid(),
        group: metadata.gid(),
        time: seconds(metadata.mtime()),
        device: metadata.dev(),
        inode: metadata.ino(),
        links: metadata.nlink(),
    })
}

fn kind_of(found: FileType) -> Result<HostKind, Misfit>
    ensures { IsKind found result }
{
    if found.is_file() {
        Ok(HostKind::File)
    } else if found.is_dir() {
        Ok(HostKind::Directory)
    } else if found.is_symlink() {
        Err(Misfit::SymbolicLink)
    } else {
        Err(Misfit::OtherKind)
    }
}

// A time before 1970 is shown as 1970.
fn seconds(modified: i64) -> u64
    ensures { result ≡ seconds modified }
{
    u64::try_from(modified).unwrap_or(0)
}
