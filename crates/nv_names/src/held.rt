//! A name of a bucket with what it stands for.

ghost use Rattle.std.specs.Prelude.{◌≡◌, IfOk, nat_eq};
ghost use Rattle.std.specs.Cmp.Lexicographic.{pointwise};
ghost use Rattle.nv_names.specs.Names.{inode_and_place};

use crate::Target;
use smallvec::SmallVec;
use std::alloc::{AllocError, Global};
use std::marker::Model;

/// A name of at most so many bytes lies in the value itself.
const SHORT: usize = 16;

/// A name, and what it stands for. A contract sees it as one of `Names`.
#[derive(Drop)]
pub(crate) struct Held {
    name: SmallVec<u8, SHORT>,
    target: Target,
}

impl Model for Held {
    ghost use Rattle.std.specs.Prelude.{List, ℕ};

    ghost Value = { List ℕ × ℕ × ℕ };

    ghost view = { λ a. (a.name.items, a.target.inode, a.target.place) };
}

impl Held {
    pub(crate) fn new(alloc: Global, name: &[u8], target: Target) -> Result<Held, AllocError>
        ensures { IfOk result (λ held. held ≡ (name.now, target.inode, target.place)) }
    {
        Ok(Held {
            name: SmallVec::from_slice(alloc, name)?,
            target,
        })
    }

    /// Whether it is of this name.
    pub(crate) fn is_of(&self, name: &[u8]) -> bool
        ensures { result ≡ pointwise nat_eq name.now self.now.0 }
    {
        name == self.name.as_slice()
    }

    pub(crate) fn name(&self) -> &[u8]
        ensures { result.now ≡ self.now.0 }
    {
        self.name.as_slice()
    }

    pub(crate) fn target(&self) -> Target
        ensures { inode_and_place result ≡ (self.now.1, self.now.2) }
    {
        self.target
    }
}
