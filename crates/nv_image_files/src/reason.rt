//! Why a file can't be read or written, for the user.

use crate::shown::ShownBeside;
use nv_report::BadLength;
use nv_stream::{Beside, Unsaved};
use std::fmt;
use std::io::{Error, ErrorKind};

/// Why a file can't be read.
#[derive(Clone, Copy, Debug)]
pub enum Reason {
    /// Its path isn't UTF-8. The kit opens files by text alone.
    PathNotUtf8,
    /// It is longer than a region can be.
    Length(BadLength),
    /// The system's error.
    System(Error),
}

impl fmt::Display for Reason {
    ghost use Rattle.nv_image_files.specs.Failures.{reason_text};

    ghost output = { reason_text };

    fn fmt<W: fmt::Write>(&self, f: &mut fmt::Formatter<W>) -> fmt::Result {
        let error = match self {
            Reason::PathNotUtf8 => return f.write_str("its path isn't UTF-8"),
            Reason::Length(length) => return write!(f, "{length}"),
            Reason::System(error) => error,
        };
        match error.kind() {
            ErrorKind::NotFound => f.write_str("no such file"),
            ErrorKind::IsADirectory => f.write_str("it is a directory"),
            ErrorKind::PermissionDenied => f.write_str("no permission to read it"),
            _ => write!(f, "{error}"),
        }
    }
}

/// Why the file at a path was not written.
#[derive(Clone, Copy)]
pub(crate) struct WriteReason<'a> {
    pub path: &'a str,
    pub unsaved: Unsaved,
}

impl fmt::Display for WriteReason<'_> {
    fn fmt<W: fmt::Write>(&self, f: &mut fmt::Formatter<W>) -> fmt::Result {
        let error = match &self.unsaved {
            Unsaved::Exists => return f.write_str("it is there already; --force replaces it"),
            Unsaved::NotFile => return f.write_str("it isn't a file"),
            Unsaved::IsRead => return f.write_str("this command reads it; give another name"),
            Unsaved::InUse => return f.write_str("in use by another run, which is to replace it"),
            Unsaved::Changed(number) => return self.write_changed(*number, f),
            Unsaved::NoName => return f.write_str("no name is left for a new file beside it"),
            Unsaved::Memory => return f.write_str("memory ran out"),
            Unsaved::Unwritable(error) => error,
        };
        match error.kind() {
            ErrorKind::NotFound => f.write_str("no such directory"),
            ErrorKind::PermissionDenied => f.write_str("no permission to write there"),
            ErrorKind::StorageFull => f.write_str("the disk is full"),
            _ => write!(f, "{error}"),
        }
    }
}

impl WriteReason<'_> {
    fn write_changed<W: fmt::Write>(&self, number: u32, f: &mut fmt::Formatter<W>) -> fmt::Result {
        let path = self.path;
        let new = ShownBeside(Beside { path, number });
        write!(f, "changed meanwhile; the new file is {new}")
    }
}
