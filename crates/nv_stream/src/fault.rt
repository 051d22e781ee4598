//! What ends a script before its last line.

ghost use Rattle.std.specs.Prelude.{◌≡◌};
ghost use Rattle.nv_stream.specs.declared.fault.ScriptError.TheVariants.{Memory};

use std::alloc::{AllocError, AllocFailed};
use thiserror::Error;

/// Why a script was not run to its end.
#[derive(Clone, Copy, Debug, PartialEq, Eq, Error)]
pub enum ScriptError {
    /// The reader failed.
    #[error("failed Read")]
    Read,
    /// The writer failed, or takes no more bytes.
    #[error("failed Write")]
    Write,
    /// Memory was refused.
    #[error("failed Memory")]
    Memory,
}

impl From<AllocError> for ScriptError {
    ghost from_gives = { λ _ e. e ≡ Memory };

    fn from(_error: AllocError) -> ScriptError {
        ScriptError::Memory
    }
}

impl<T: Drop> From<AllocFailed<T>> for ScriptError {
    ghost from_gives = { λ _ e. e ≡ Memory };

    fn from(_error: AllocFailed<T>) -> ScriptError {
        ScriptError::Memory
    }
}
