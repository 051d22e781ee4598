//! The mount of a region: it is recovered, and what was found is opened.

ghost use Rattle.std.specs.Prelude.{◌≡◌, [], IfOk, IfErr, false};
ghost use Rattle.nv_region.specs.Stops.{NothingPending};
ghost use Rattle.nv_journal.specs.Undo.{undone};
ghost use Rattle.nv_recover.specs.Errors.{Fails, IsBadCount};
ghost use Rattle.nv_recover.specs.declared.errors.RecoverError.TheVariants as errors;
ghost use Rattle.nv_calls.specs.Mount.{has_faults};
ghost use Rattle.nv_calls.specs.Mounting.{KeepsMounting, TellsOutcome};

use crate::Fs;
use nv_outcome::rolled_back_outcome;
use nv_recover::{NoGate, RecoverError, recover, recover_one};
use nv_region::Pmem;
use std::alloc::Global;
use std::thread::Threads;

impl<P: Pmem + Drop> Fs<P> {
    /// Mounts the region that a memory holds, damaged or not: rolls its journals back, finds what it holds, on one thread,
    /// and opens it. The mount is read-only where faults were found.
    ///
    /// Nothing may be pending in the memory: a new region, one of bytes, a formatted one, one that a stop has left, and one
    /// after any call but a stopped one are so; of others a `fence` settles what was stored. A mount stores what rolling the
    /// journals back stores, and nothing else.
    ///
    /// Errors: those of `recover_one`, with the memory.
    pub fn mount(alloc: Global, mut memory: P) -> Result<Fs<P>, (P, RecoverError)>
        requires settled { NothingPending (P.region memory) (P.may_hold memory) }
        ensures outcome { IfOk result (TellsOutcome (P.region memory)) }
        ensures undone { IfOk result (λ fs. P.region fs.memory ≡ undone fs.sup (P.region memory)) }
        ensures read_only { IfOk result (λ fs. fs.read_only ≡ has_faults fs.faults) }
        ensures runs { IfOk result (λ fs. fs.stopped ≡ false) }
        ensures err { IfErr result (λ e. Fails 1 [] e.1 (P.region memory) (P.region e.0)) }
        // What it keeps of the memory, whatever comes of it.
        ensures kept { KeepsMounting P.region P.may_hold P.fuse memory result }
    {
        match recover_one(alloc, &mut memory) {
            Ok(recovered) => {
                rolled_back_outcome();
                Ok(Fs::open(alloc, memory, recovered))
            }
            Err(error) => Err((memory, error)),
        }
    }
}

impl<P: Pmem + Sync + Drop> Fs<P> {
    /// Mounts the region that a memory holds, as `mount` does, with 1 to 64 workers on threads of their own. All threads are
    /// joined before it answers.
    ///
    /// Errors: `Workers`, tested first, where their number isn't 1 to 64; and those of `mount`. Each comes with the memory.
    pub fn mount_with<H: Threads + Sync>(
        rt: &H,
        alloc: Global,
        mut memory: P,
        workers: u64,
    ) -> Result<Fs<P>, (P, RecoverError)>
        requires settled { NothingPending (P.region memory) (P.may_hold memory) }
        ensures outcome { IfOk result (TellsOutcome (P.region memory)) }
        ensures undone { IfOk result (λ fs. P.region fs.memory ≡ undone fs.sup (P.region memory)) }
        ensures read_only { IfOk result (λ fs. fs.read_only ≡ has_faults fs.faults) }
        ensures runs { IfOk result (λ fs. fs.stopped ≡ false) }
        ensures workers { IsBadCount workers → IfOk result (λ _. ⊥) × IfErr result (λ e. e.1 ≡ errors.Workers) }
        ensures err { IfErr result (λ e. Fails workers [] e.1 (P.region memory) (P.region e.0)) }
        // What it keeps of the memory, whatever comes of it.
        ensures kept { KeepsMounting P.region P.may_hold P.fuse memory result }
    {
        match recover(rt, alloc, &mut memory, workers, &NoGate) {
            Ok(found) => {
                rolled_back_outcome();
                Ok(Fs::open(alloc, memory, found))
            }
            Err(reason) => Err((memory, reason)),
        }
    }
}
