//! The tests that every writing call begins with.

ghost use Rattle.std.specs.Prelude.{◌≡◌, ◌<◌, IsTrue, IfErr, OnOk, Option, Result, false};
ghost use Rattle.nv_region.specs.Stops.{NothingPending};
ghost use Rattle.nv_tree.specs.Refusals.{Tests, first_refusal, writing};
ghost use Rattle.nv_tree.specs.declared.refusal.Refusal.{Refusal as RefusalValue};
ghost use Rattle.nv_calls.specs.Mount.{IsKept};
ghost use Rattle.nv_calls.specs.World.{world_of};

use crate::Fs;
use nv_region::Pmem;
use nv_tree::Refusal;

/// Whether a refusal says that the memory's fuse has burnt.
pub(crate) fn is_stop(refusal: Refusal) -> bool
    ensures yes { IsTrue result → refusal ≡ RefusalValue.Stopped }
    ensures no { result ≡ false → refusal ≡ RefusalValue.Stopped → ⊥ }
{
    matches!(refusal, Refusal::Stopped)
}

impl<P: Pmem + Drop> Fs<P> {
    /// Whether a call that names this CPU may write: `Stopped`, `BadCpu` and `ReadOnly` come in this order, before all
    /// other tests.
    pub(crate) fn writable(&self, cpu: u64) -> Result<(), Refusal>
        ensures stopped { IsTrue self.now.stopped → result ≡ Result.Err RefusalValue.Stopped }
        ensures runs { OnOk result (self.now.stopped ≡ false) }
        ensures cpu { OnOk result (cpu < self.now.sup.cpus) }
        ensures writes { OnOk result (self.now.read_only ≡ false) }
        ensures passed { (tests : Tests) → OnOk result (first_refusal (writing (world_of self.now) cpu tests) ≡ first_refusal tests) }
        ensures kept { IsKept (P.region self.now.memory) self.now.sup self.now.layout self.now.rows self.now.free self.now.faults self.now.read_only self.now.stopped }
        ensures settled { self.now.stopped ≡ false → NothingPending (P.region self.now.memory) (P.may_hold self.now.memory) }
        ensures refused { self.now.stopped ≡ false → (tests : Tests) → IfErr result (λ e. first_refusal (writing (world_of self.now) cpu tests) ≡ Option.Some e) }
    {
        if self.stopped {
            return Err(Refusal::Stopped);
        }
        if cpu >= self.tables.cpus() {
            return Err(Refusal::BadCpu);
        }
        if self.read_only {
            return Err(Refusal::ReadOnly);
        }
        Ok(())
    }
}
