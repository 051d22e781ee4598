//! The region that a script has made: alone, or mounted as a file system.

ghost use Rattle.std.specs.Prelude.{◌≡◌, true, false};
ghost use Rattle.nv_region.specs.Region.{put};
ghost use Rattle.nv_region.specs.declared.memory.Fuse.TheVariants as fuses;
ghost use Rattle.nv_session.specs.Machine.{has_word};
ghost use Rattle.nv_session.specs.Sessions.{IsSettled};

use nv_calls::Fs;
use nv_region::{Fuse, Keep, MemRegion, Pmem, commit_word};

/// A region in memory. A command that stores something sets the memory's fuse first.
#[derive(Drop)]
pub enum Store {
    /// Of which nothing is mounted.
    Alone(MemRegion),
    /// In a mounted file system.
    Mounted(Fs<MemRegion>),
}

impl Store {
    ghost use Rattle.nv_session.specs.Sessions.{memory_in};

    /// The memory.
    pub fn memory(&self) -> &MemRegion
        ensures { result.now ≡ memory_in self.now }
    {
        match self {
            Store::Alone(memory) => memory,
            Store::Mounted(mount) => mount.memory(),
        }
    }

    /// The memory again, of which nothing is mounted any more.
    pub fn into_memory(self) -> MemRegion
        ensures { result ≡ memory_in self }
    {
        match self {
            Store::Alone(memory) => memory,
            Store::Mounted(mount) => mount.into_memory(),
        }
    }
}

/// The memory with each word as it reads: nothing is pending in it, and it has no fuse. It costs what was pending.
pub fn keep_all(memory: MemRegion) -> MemRegion
    ensures region { result.region ≡ memory.region }
    ensures settled { IsSettled result }
    ensures fuse { (result.fuse ≡ fuses.Off) × (result.burnt ≡ false) }
{
    memory.after_stop(Keep::All)
}

/// Whether a word begins at the byte address, and is in the region.
pub fn has_word(memory: &MemRegion, at: u64) -> bool
    ensures { result ≡ has_word memory.now.region at }
{
    at % 8 == 0 && memory.len().saturating_sub(at) >= 8
}

/// The memory with a word stored and fenced.
pub fn poked(mut memory: MemRegion, at: u64, value: u64) -> MemRegion
    requires { has_word memory.region at ≡ true }
    ensures region { result.region ≡ put memory.region at value }
    ensures settled { IsSettled result }
{
    memory.set_fuse(Fuse::Off);
    if commit_word(&mut memory, at, value).is_err() {
        // A memory without a fuse doesn't stop.
        unreachable!()
    }
    memory
}
