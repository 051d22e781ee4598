//! Why a list of events, or a schedule, has no state.

ghost use Rattle.std.specs.Prelude.{◌≡◌};

use std::alloc::AllocError;
use thiserror::Error;

/// Why a list of events, or a schedule, has no state.
#[derive(Clone, Copy, Debug, PartialEq, Eq, Drop, Error)]
pub enum CoreRefusal {
    /// The event, or the schedule's number, at this place is not allowed. Places count from 0.
    #[error("what stands at place {place} is not allowed")]
    NotAllowed { place: usize },
    /// A growth was refused.
    #[error("out of memory")]
    Memory,
}

impl From<AllocError> for CoreRefusal {
    ghost use Rattle.std.specs.Prelude.{◌≡◌};
    ghost use Rattle.nv_claimcore.specs.declared.refusal.CoreRefusal.TheVariants.{Memory};

    ghost from_gives = { λ _ r. r ≡ Memory };

    fn from(_error: AllocError) -> CoreRefusal {
        CoreRefusal::Memory
    }
}
