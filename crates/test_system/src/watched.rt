//! A region whose loads are watched.

ghost use Rattle.std.proofs.Common.{inl, refl};
ghost use Rattle.nv_region.specs.RegionState.{fenced_or_last, fuse_state, steady_unburnt};

use nv_region::{MemRegion, Pmem, Stopped};

/// What is told of each load before it is made.
pub trait Watch {
    fn loads(&self, at: u64);
}

#[derive(Drop)]
pub struct WatchedRegion<W> {
    pub memory: MemRegion,
    pub watch: W,
}

impl<W: Watch> Pmem for WatchedRegion<W> {
    ghost region = { λ m. m.memory.region };

    ghost may_hold = { λ m. fenced_or_last m.memory };

    ghost fuse = { λ m. fuse_state m.memory };

    ghost unburnt = { λ m. steady_unburnt m.memory };

    ghost open_unburnt = { λ m limit. steady_unburnt m.memory };

    ghost holds_now = { λ m i. inl refl };

    fn len(&self) -> u64 {
        self.memory.len()
    }

    fn load(&self, at: u64) -> u64 {
        self.watch.loads(at);
        self.memory.load(at)
    }

    fn store(&mut self, at: u64, value: u64) -> Result<(), Stopped> {
        self.memory.store(at, value)
    }

    fn fence(&mut self) -> Result<(), Stopped> {
        self.memory.fence()
    }
}
