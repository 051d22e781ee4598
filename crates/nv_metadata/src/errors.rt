//! Why the metadata of an image could not be had.

ghost use Rattle.std.specs.Prelude.{◌≡◌};

use nv_journal::UndoError;
use std::alloc::{AllocError, AllocFailed};
use std::io;
use thiserror::Error;

/// Why the metadata of an image could not be had.
#[derive(Clone, Copy, Debug, Error)]
pub enum GatherError {
    /// The image's length could not be told, or some of its bytes not be read, as the system's error says.
    #[error("{0}")]
    Read(io::Error),
    /// A growth was refused.
    #[error("out of memory")]
    Memory,
}

impl From<io::Error> for GatherError {
    ghost use Rattle.nv_metadata.specs.declared.errors.GatherError.TheVariants.{Read};

    ghost from_gives = { λ error e. e ≡ Read error };

    fn from(error: io::Error) -> Self {
        GatherError::Read(error)
    }
}

impl From<AllocError> for GatherError {
    ghost use Rattle.nv_metadata.specs.declared.errors.GatherError.TheVariants.{Memory};

    ghost from_gives = { λ _ e. e ≡ Memory };

    fn from(_: AllocError) -> Self {
        GatherError::Memory
    }
}

impl<T: Drop> From<AllocFailed<T>> for GatherError {
    ghost use Rattle.nv_metadata.specs.declared.errors.GatherError.TheVariants.{Memory};

    ghost from_gives = { λ _ e. e ≡ Memory };

    fn from(_: AllocFailed<T>) -> Self {
        GatherError::Memory
    }
}

impl From<UndoError> for GatherError {
    ghost use Rattle.nv_metadata.specs.declared.errors.GatherError.TheVariants.{Memory};

    ghost from_gives = { λ _ e. e ≡ Memory };

    // Journals are rolled back in a memory that takes these stores: only want of memory prevents it.
    fn from(_: UndoError) -> Self {
        GatherError::Memory
    }
}
