//! Why steps are halted.

ghost use Rattle.std.specs.Prelude.{◌≡◌};
ghost use Rattle.nv_unpack.specs.declared.halt.Halt.TheVariants.{Memory};
ghost use Rattle.nv_unpack.specs.Making.{IsHaltOf};

use nv_session::CallRefusal;
use nv_untar::Item;
use std::alloc::{AllocError, AllocFailed};

/// Why steps are halted.
#[derive(Clone, Copy)]
pub(crate) enum Halt<'a> {
    /// A growth was refused.
    Memory,
    /// A call for an item is refused.
    At(Item<'a>, CallRefusal),
}

impl<'a> Halt<'a> {
    /// The halt of an item's step. Want of memory is no refusal.
    pub(crate) fn of(item: Item<'a>, refusal: CallRefusal) -> Self
        ensures { IsHaltOf item.entry refusal result }
    {
        match refusal {
            CallRefusal::Memory => Halt::Memory,
            refusal => Halt::At(item, refusal),
        }
    }
}

impl<'a> From<AllocError> for Halt<'a> {
    ghost from_gives = { λ _ e. e ≡ Memory };

    fn from(_: AllocError) -> Self {
        Halt::Memory
    }
}
