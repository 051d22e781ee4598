//! A region that begins with bytes that are read where they stand, and has zeros behind them.
//!
//! It takes no memory and no store: a store is refused as if a fuse had burnt.

ghost use Rattle.std.specs.Prelude.{◌≡◌, ◌≤◌, ◌+◌, ◌*◌, ◌%◌, ℕ, length, drop, refl};
ghost use Rattle.std.proofs.lemmas.Bool.{false≢true};
ghost use Rattle.byteorder.specs.Endian.{little_number};
ghost use Rattle.nv_region.specs.Region.{HasBlocks, word};
ghost use Rattle.nv_region.specs.ImageState.{as_it_reads, fuse_state, open_not_burnt};
ghost use Rattle.nv_super.specs.Layout.{most_blocks};

use crate::memory::word_at;
use nv_region::{Pmem, Stopped};
use nv_super::BLOCK_SIZE;
use std::marker::Model;

/// A region of so many blocks over the borrowed bytes at its start.
#[derive(Drop)]
pub(crate) struct FrontRegion<'a> {
    blocks: u64,
    bytes: &'a [u8],
    burnt: bool,
}

impl<'a> Model for FrontRegion<'a> {
    ghost use Rattle.std.specs.Prelude.{◌≡◌, ◌≤◌, ◌*◌, ◌%◌, [], length};
    ghost use Rattle.nv_region.specs.Region.{words_of};
    ghost use Rattle.nv_region.specs.ImageState.{ImageState, with_front};
    ghost use Rattle.nv_metadata.specs.Memory.{pieced};
    ghost use Rattle.nv_super.specs.Layout.{most_blocks};

    ghost Value = { ImageState };

    ghost view = { λ m. record { region = with_front (words_of m.bytes.now) (pieced m.blocks (λ _. [])); front = 0; burnt = m.burnt } };

    ghost invariant = { λ m. (length m.bytes.now ≤ 4096 * m.blocks) × (length m.bytes.now % 8 ≡ 0) × (m.blocks ≤ most_blocks) };
}

impl<'a> FrontRegion<'a> {
    /// The region of so many blocks that begins with these bytes.
    pub fn new(blocks: u64, bytes: &'a [u8]) -> FrontRegion<'a>
        requires few { blocks ≤ most_blocks }
        requires within { length bytes.now ≤ 4096 * blocks }
        requires whole { length bytes.now % 8 ≡ 0 }
        ensures blocks { HasBlocks result.region blocks }
        ensures front { (at : ℕ) → at % 8 ≡ 0 → at + 8 ≤ length bytes.now → word result.region at ≡ little_number 8 (drop at bytes.now) }
        ensures zeros { (at : ℕ) → at % 8 ≡ 0 → length bytes.now ≤ at → word result.region at ≡ 0 }
    {
        FrontRegion {
            blocks,
            bytes,
            burnt: false,
        }
    }
}

impl Pmem for FrontRegion<'_> {
    ghost region = { λ m. m.region };

    ghost may_hold = { as_it_reads };

    ghost fuse = { fuse_state };

    ghost unburnt = { λ m never. absurd (false≢true never) };

    ghost open_unburnt = { open_not_burnt };

    ghost holds_now = { λ m i. refl };

    fn len(&self) -> u64 {
        BLOCK_SIZE * self.blocks
    }

    fn load(&self, at: u64) -> u64 {
        if at < self.bytes.len() as u64 {
            word_at(self.bytes, at as usize)
        } else {
            0
        }
    }

    fn store(&mut self, _at: u64, _value: u64) -> Result<(), Stopped> {
        self.burnt = true;
        Err(Stopped)
    }

    fn fence(&mut self) -> Result<(), Stopped> {
        if self.burnt {
            return Err(Stopped);
        }
        Ok(())
    }
}
