//! Why a tree of the host isn't taken.

ghost use Rattle.std.specs.Prelude.{◌≡◌};
ghost use Rattle.nv_host.specs.declared.errors.HostError.TheVariants.{Memory};

use std::alloc::{AllocError, AllocFailed};
use std::fmt;
use std::io::Error;

/// What is the matter with what stands at a place of the host.
#[derive(Clone, Copy, Debug)]
pub enum Misfit {
    /// It is a symbolic link.
    SymbolicLink,
    /// It is neither a file nor a directory, nor a symbolic link.
    OtherKind,
    /// Its name isn't UTF-8. The kit opens files by text alone.
    NameNotUtf8,
    /// Another file stands there than a moment before.
    Replaced,
    /// The system's error.
    System(Error),
}

impl fmt::Display for Misfit {
    fn fmt<W: fmt::Write>(&self, f: &mut fmt::Formatter<W>) -> fmt::Result {
        match self {
            Misfit::SymbolicLink => {
                f.write_str("it is a symbolic link, which an image can't hold")
            }
            Misfit::OtherKind => f.write_str("it is neither a file nor a directory"),
            Misfit::NameNotUtf8 => f.write_str("its name isn't UTF-8"),
            Misfit::Replaced => f.write_str("another file was put there meanwhile"),
            Misfit::System(error) => write!(f, "{error}"),
        }
    }
}

/// Why a tree of the host isn't taken.
#[derive(Drop)]
pub enum HostError {
    /// Memory was refused.
    Memory,
    /// It has more names, or more bytes, than are held at once.
    TooLarge,
    /// What stands at this place doesn't fit.
    At(Vec<u8>, Misfit),
}

impl From<AllocError> for HostError {
    ghost from_gives = { λ _ e. e ≡ Memory };

    fn from(_: AllocError) -> Self {
        HostError::Memory
    }
}

impl<T: Drop> From<AllocFailed<T>> for HostError {
    ghost from_gives = { λ _ e. e ≡ Memory };

    fn from(_: AllocFailed<T>) -> Self {
        HostError::Memory
    }
}
