//! `upgrade`: a region of version 1 becomes one of version 2, in which tables can grow.

ghost use Rattle.std.specs.Prelude.{◌≡◌, ◌⊎◌, ◌==◌, IsTrue, IfErr, OnOk, Option, Result, false};
ghost use Rattle.nv_region.specs.Stops.{IsMixed, LeavesOnly, NothingPending};
ghost use Rattle.nv_inode.specs.Upgraded.{UpgradeStores};
ghost use Rattle.nv_tree.specs.Tree.{SameTree};
ghost use Rattle.nv_tree.specs.Refusals.{first_refusal, upgrade_tests};
ghost use Rattle.nv_tree.specs.declared.refusal.Refusal.{Refusal as RefusalValue};
ghost use Rattle.nv_calls.specs.Mount.{IsKept, shown};
ghost use Rattle.nv_calls.specs.Upgrading.{KeepsUpgrade, LeavesUpgrade, Upgrades};
ghost use Rattle.nv_calls.specs.World.{world_of};

use crate::Fs;
use nv_inode::upgrade_tables;
use nv_region::Pmem;
use nv_super::WITH_CHAINS;
use nv_tree::Refusal;

impl<P: Pmem + Drop> Fs<P> {
    /// Makes a region of version 1 one of version 2: the first link of each CPU's chain is 0, and behind a fence the version
    /// is 2. The tree and the free blocks are the same. It takes no memory.
    ///
    /// Errors, the first that applies:
    /// - `Stopped` after a stop
    /// - `ReadOnly` where the region was mounted with faults
    /// - `IsVersion2` where it has version 2 already
    ///
    /// Besides these `Stopped` where the fuse burns. All but `Stopped` leave everything as it was.
    pub fn upgrade(&mut self) -> Result<(), Refusal>
        ensures allowed { OnOk result (first_refusal (upgrade_tests (world_of self.old) self.old.sup.version) ≡ Option.None) }
        ensures refused { self.old.stopped ≡ false
            → IfErr result (λ e. ((e ≡ RefusalValue.Stopped) × (first_refusal (upgrade_tests (world_of self.old) self.old.sup.version) ≡ Option.None))
            ⊎ (first_refusal (upgrade_tests (world_of self.old) self.old.sup.version) ≡ Option.Some e)) }
        ensures same_tree { OnOk result (SameTree (shown P.region self.new) (shown P.region self.old)) }
        ensures upgraded { OnOk result (Upgrades P.region self.old self.new) }
        ensures call { KeepsUpgrade P.region P.fuse self.old self.new result }
        ensures settled { OnOk result (NothingPending (P.region self.new.memory) (P.may_hold self.new.memory)) }
        // No word is stored but the first links and the version.
        ensures wrote { IsMixed (P.region self.old.memory) (UpgradeStores self.old.sup.cpus) (P.region self.new.memory) }
        // Whatever a stop leaves, at any exit: recovery finds what was mounted, in version 1 or 2, without faults.
        ensures any_stop { self.old.stopped ≡ false → self.old.read_only ≡ false
            → LeavesOnly (P.region self.new.memory) (P.may_hold self.new.memory) (LeavesUpgrade (P.region self.old.memory) self.old) }
    {
        self.upgradable()?;
        self.tables.are_laid();
        // No byte stands behind the last block then.
        let _end = self.memory.len();
        match upgrade_tables(&mut self.memory, self.tables.sup()) {
            Ok(()) => {
                self.tables.upgrade();
                self.rows.upgrade();
                self.free.upgrade();
                Ok(())
            }
            Err(_) => {
                self.stopped = true;
                Err(Refusal::Stopped)
            }
        }
    }

    // Whether the region can be upgraded: `Stopped`, `ReadOnly` and `IsVersion2` come in this order.
    fn upgradable(&self) -> Result<(), Refusal>
        ensures stopped { IsTrue self.now.stopped → result ≡ Result.Err RefusalValue.Stopped }
        ensures runs { OnOk result (self.now.stopped ≡ false) }
        ensures writes { OnOk result (self.now.read_only ≡ false) }
        ensures allowed { OnOk result (first_refusal (upgrade_tests (world_of self.now) self.now.sup.version) ≡ Option.None) }
        ensures refused { self.now.stopped ≡ false → IfErr result (λ e. first_refusal (upgrade_tests (world_of self.now) self.now.sup.version) ≡ Option.Some e) }
        ensures not_two { OnOk result ((self.now.sup.version == 2) ≡ false) }
        ensures kept { IsKept (P.region self.now.memory) self.now.sup self.now.layout self.now.rows self.now.free self.now.faults self.now.read_only self.now.stopped }
        ensures settled { self.now.stopped ≡ false → NothingPending (P.region self.now.memory) (P.may_hold self.now.memory) }
    {
        if self.stopped {
            return Err(Refusal::Stopped);
        }
        if self.read_only {
            return Err(Refusal::ReadOnly);
        }
        if self.tables.sup().version == WITH_CHAINS {
            return Err(Refusal::IsVersion2);
        }
        Ok(())
    }
}
