//! Why a region was not recovered.

ghost use Rattle.std.specs.Prelude.{◌≡◌};

use nv_journal::UndoError;
use nv_super::SuperFault;
use std::alloc::{AllocError, AllocFailed};
use thiserror::Error;

/// The most workers of a recovery.
pub const MOST_WORKERS: u64 = 64;

/// Why a region was not recovered.
#[derive(Clone, Copy, Debug, PartialEq, Eq, Error)]
pub enum RecoverError {
    /// The superblock isn't accepted: its first fault. The region is as before.
    #[error("the superblock isn't accepted: {0}")]
    Super(SuperFault),
    /// A growth was refused. The region is as before, or its journals are rolled back.
    #[error("out of memory")]
    Memory,
    /// The memory's fuse has burnt. A later recovery gives the region that this one would have given.
    #[error("the memory has been stopped")]
    Stopped,
    /// The number of workers isn't 1 to 64. The region is as before.
    #[error("there aren't 1 to 64 workers")]
    Workers,
    /// The number at this place of the schedule, the first such, is no worker's. The region is as before.
    #[error("the number at place {0} of the schedule is no worker's")]
    Schedule(usize),
}

impl RecoverError {
    ghost use Rattle.nv_recover.specs.Names.{error_name};

    /// Its name: a script prints those of refusals, which are S1 to S7 for a superblock.
    pub fn name(self) -> &'static str
        ensures { result.now ≡ error_name self }
    {
        match self {
            RecoverError::Super(fault) => fault.name(),
            RecoverError::Memory => "Memory",
            RecoverError::Stopped => "Stopped",
            RecoverError::Workers => "Workers",
            RecoverError::Schedule(_) => "Schedule",
        }
    }
}

impl From<SuperFault> for RecoverError {
    ghost use Rattle.nv_recover.specs.declared.errors.RecoverError.TheVariants.{Super as Refused};

    ghost from_gives = { λ fault e. e ≡ Refused fault };

    fn from(fault: SuperFault) -> Self {
        RecoverError::Super(fault)
    }
}

impl From<UndoError> for RecoverError {
    ghost use Rattle.nv_recover.specs.Errors.{error_of_undo};

    ghost from_gives = { λ error e. e ≡ error_of_undo error };

    fn from(error: UndoError) -> Self {
        match error {
            UndoError::Memory => RecoverError::Memory,
            UndoError::Stopped => RecoverError::Stopped,
        }
    }
}

impl From<AllocError> for RecoverError {
    ghost use Rattle.nv_recover.specs.declared.errors.RecoverError.TheVariants.{Memory};

    ghost from_gives = { λ _ e. e ≡ Memory };

    fn from(_: AllocError) -> Self {
        RecoverError::Memory
    }
}

impl<T: Drop> From<AllocFailed<T>> for RecoverError {
    ghost use Rattle.nv_recover.specs.declared.errors.RecoverError.TheVariants.{Memory};

    ghost from_gives = { λ _ e. e ≡ Memory };

    fn from(_: AllocFailed<T>) -> Self {
        RecoverError::Memory
    }
}
