//! `clean`: the first page that the log of an inode can do without is taken out of it, and pages that go one after another.

ghost use Rattle.std.specs.Prelude.{◌≡◌, ◌⊎◌, ◌∷◌, ℕ, List, Option, Result, IsTrue, IfOk, IfErr, OnOk, false};
ghost use Rattle.nv_region.specs.Stops.{LeavesOnly, NothingPending};
ghost use Rattle.nv_mounted.specs.Held.{Held, Store};
ghost use Rattle.nv_deadpages.specs.Dead.{IsFirstDead};
ghost use Rattle.nv_mounted.specs.Mounted.{ShowsSound};
ghost use Rattle.nv_tree.specs.Path.{IsPath, Says};
ghost use Rattle.nv_tree.specs.Tree.{Node, SameTree};
ghost use Rattle.nv_tree.specs.Refusals.{Path, Tests, clean_tests, first_refusal, IsRefusedBy};
ghost use Rattle.nv_tree.specs.declared.refusal.Refusal.{Refusal as RefusalValue};
ghost use Rattle.nv_rows.specs.Rows.{IsInUse, row_of};
ghost use Rattle.nv_deadpages.specs.InTurn.{AreDeadPages};
ghost use Rattle.nv_calls.specs.CleanCall.{IsKnown, LosesPage, ShowsCleaned, clean_inode_tests};
ghost use Rattle.nv_calls.specs.Effects.{logs_page_less, makes_no_change};
ghost use Rattle.nv_calls.specs.Mount.{IsKept, shown};
ghost use Rattle.nv_calls.specs.Stopped.{LeavesCall, StopLeaves};
ghost use Rattle.nv_paths.specs.Seen.{LeadsTo};
ghost use Rattle.nv_calls.specs.World.{world_of};
ghost use Rattle.nv_calls.specs.Keeping.{IsNoPath, KeepsCall, SettlesCall};
ghost use Rattle.nv_steps.specs.Stores.{StoresIn, one_page_less};

use crate::Fs;
use crate::writing::is_stop;
use nv_deadpages::DeadPages;
use nv_paths::row_at;
use nv_region::Pmem;
use nv_steps::{clean_log, dead_pages_of};
use nv_tree::Refusal;
use std::alloc::AllocError;

impl<P: Pmem + Drop> Fs<P> {
    /// Takes the first page out of the log of the inode that a path leads to without which its state is the same and nothing
    /// is wrong with an entry. Answers its block, which is free then, or `None` where the log needs each of its pages: nothing
    /// is stored then. No entry is written, and no time changes.
    ///
    /// Errors, the first that applies:
    /// - `Stopped` after a stop
    /// - `ReadOnly` where the region was mounted with faults
    /// - `BadName` where the text is no path
    /// - `NotFound` or `NotDirectory` for an inode on the way
    /// - `NotFound` for the last name
    ///
    /// Besides these `Memory` where a growth was refused, and `Stopped` where the fuse burns. All but `Stopped` leave
    /// everything as it was.
    pub fn clean(&mut self, path: &[u8]) -> Result<Option<u64>, Refusal>
        ensures allowed { (p : Path) → Says path.now p → OnOk result (first_refusal (clean_tests (world_of self.old) (shown P.region self.old) p) ≡ Option.None) }
        ensures refused { self.old.stopped ≡ false → (p : Path) → Says path.now p
            → IfErr result (IsRefusedBy (first_refusal (clean_tests (world_of self.old) (shown P.region self.old) p))) }
        ensures same_tree { OnOk result (SameTree (shown P.region self.new) (shown P.region self.old)) }
        // Which page went, by the log of the inode.
        ensures log { (names : List (List ℕ)) (i : ℕ) (node : Node) (held : Store) (h : Held) → IsPath path.now names → LeadsTo (shown P.region self.old) names i node
            → ShowsSound (P.region self.old.memory) self.old.layout held → held i ≡ Option.Some h
            → IfOk result (ShowsCleaned (P.region self.old.memory) (P.region self.new.memory) self.old.layout held i h) }
        // What every call that writes keeps.
        ensures call { SettlesCall P.region P.may_hold P.fuse (IsNoPath path.now) self.old self.new result }
        // Every word outside these places is as it was.
        ensures wrote { (names : List (List ℕ)) (i : ℕ) (node : Node) (held : Store) (h : Held) (o : Option ℕ) → IsPath path.now names → LeadsTo (shown P.region self.old) names i node
            → ShowsSound (P.region self.old.memory) self.old.layout held → held i ≡ Option.Some h → IsFirstDead self.old.layout.sup h.kind i h.created h.entries h.pages o
            → StoresIn self.old.layout held (one_page_less self.old.layout i h.pages o) (P.region self.old.memory) (P.region self.new.memory) }
        // Whatever a stop leaves, at any exit: recovery finds what was mounted, or it without the page, without faults.
        ensures any_stop { (names : List (List ℕ)) → IsPath path.now names → self.old.stopped ≡ false → self.old.read_only ≡ false
            → LeavesOnly (P.region self.new.memory) (P.may_hold self.new.memory) (LeavesCall makes_no_change logs_page_less (P.region self.old.memory) self.old names) }
    {
        self.cleanable()?;
        let inode = row_at(&self.rows, path)?.inode;
        self.clean_inode(inode)
    }

    /// Does what `clean` does, for the inode of this number.
    ///
    /// Errors, the first that applies:
    /// - `Stopped` after a stop
    /// - `ReadOnly` where the region was mounted with faults
    /// - `NotFound` where no inode in use has the number
    ///
    /// Besides these `Memory` where a growth was refused, and `Stopped` where the fuse burns. All but `Stopped` leave
    /// everything as it was.
    pub fn clean_inode(&mut self, inode: u64) -> Result<Option<u64>, Refusal>
        ensures allowed { OnOk result (first_refusal (clean_inode_tests (world_of self.old) (shown P.region self.old) inode) ≡ Option.None) }
        ensures refused { self.old.stopped ≡ false
            → IfErr result (IsRefusedBy (first_refusal (clean_inode_tests (world_of self.old) (shown P.region self.old) inode))) }
        ensures same_tree { OnOk result (SameTree (shown P.region self.new) (shown P.region self.old)) }
        // Which page went, by the log of the inode.
        ensures log { (held : Store) (h : Held) → ShowsSound (P.region self.old.memory) self.old.layout held → held inode ≡ Option.Some h
            → IfOk result (ShowsCleaned (P.region self.old.memory) (P.region self.new.memory) self.old.layout held inode h) }
        // What every call that writes keeps.
        ensures call { KeepsCall P.region P.fuse self.old self.new result }
        ensures settled { OnOk result (NothingPending (P.region self.new.memory) (P.may_hold self.new.memory)) }
        // Every word outside these places is as it was.
        ensures wrote { (held : Store) (h : Held) (o : Option ℕ) → ShowsSound (P.region self.old.memory) self.old.layout held → held inode ≡ Option.Some h
            → IsFirstDead self.old.layout.sup h.kind inode h.created h.entries h.pages o
            → StoresIn self.old.layout held (one_page_less self.old.layout inode h.pages o) (P.region self.old.memory) (P.region self.new.memory) }
        // Whatever a stop leaves, at any exit: recovery finds what was mounted, or it without the page, without faults.
        ensures any_stop { self.old.stopped ≡ false → self.old.read_only ≡ false
            → LeavesOnly (P.region self.new.memory) (P.may_hold self.new.memory) (StopLeaves (P.region self.old.memory) self.old.layout self.old.rows self.old.free.pools (shown P.region self.old)
            (LosesPage (P.region self.old.memory) self.old.layout inode)) }
    {
        self.clean_page(inode, None)
    }

    /// Does what `clean_inode` does, where the place of the first page is known that the log can do without: it isn't looked for
    /// then.
    ///
    /// Errors, the first that applies:
    /// - `Stopped` after a stop
    /// - `ReadOnly` where the region was mounted with faults
    /// - `NotFound` where no inode in use has the number
    ///
    /// Besides these `Memory` where a growth was refused, and `Stopped` where the fuse burns. All but `Stopped` leave
    /// everything as it was.
    pub fn clean_page(&mut self, inode: u64, known: Option<usize>) -> Result<Option<u64>, Refusal>
        requires { IsKnown (P.region self.old.memory) self.old.layout inode known }
        ensures allowed { OnOk result (first_refusal (clean_inode_tests (world_of self.old) (shown P.region self.old) inode) ≡ Option.None) }
        ensures refused { self.old.stopped ≡ false
            → IfErr result (IsRefusedBy (first_refusal (clean_inode_tests (world_of self.old) (shown P.region self.old) inode))) }
        ensures same_tree { OnOk result (SameTree (shown P.region self.new) (shown P.region self.old)) }
        // Which page went, by the log of the inode.
        ensures log { (held : Store) (h : Held) → ShowsSound (P.region self.old.memory) self.old.layout held → held inode ≡ Option.Some h
            → IfOk result (ShowsCleaned (P.region self.old.memory) (P.region self.new.memory) self.old.layout held inode h) }
        // What every call that writes keeps.
        ensures call { KeepsCall P.region P.fuse self.old self.new result }
        ensures settled { OnOk result (NothingPending (P.region self.new.memory) (P.may_hold self.new.memory)) }
        // Every word outside these places is as it was.
        ensures wrote { (held : Store) (h : Held) (o : Option ℕ) → ShowsSound (P.region self.old.memory) self.old.layout held → held inode ≡ Option.Some h
            → IsFirstDead self.old.layout.sup h.kind inode h.created h.entries h.pages o
            → StoresIn self.old.layout held (one_page_less self.old.layout inode h.pages o) (P.region self.old.memory) (P.region self.new.memory) }
        // Whatever a stop leaves, at any exit: recovery finds what was mounted, or it without the page, without faults.
        ensures any_stop { self.old.stopped ≡ false → self.old.read_only ≡ false
            → LeavesOnly (P.region self.new.memory) (P.may_hold self.new.memory) (StopLeaves (P.region self.old.memory) self.old.layout self.old.rows self.old.free.pools (shown P.region self.old)
            (LosesPage (P.region self.old.memory) self.old.layout inode)) }
    {
        self.cleanable()?;
        self.in_use(inode)?;
        // No byte stands behind the last block then.
        let _end = self.memory.len();
        let mut row = self.rows.lend(self.alloc, inode);
        let cleaned = clean_log(
            self.alloc,
            &mut self.memory,
            &self.tables,
            &mut self.free,
            &mut row,
            known,
        );
        self.rows.give_back(row);
        match cleaned {
            Ok(block) => Ok(block),
            Err(refusal) => {
                self.stopped = is_stop(refusal);
                Err(refusal)
            }
        }
    }

    /// Pages that the log of the inode of this number can do without, one after another, if it has one: with `clean_page` they
    /// go, without a search for each.
    ///
    /// Errors, the first that applies:
    /// - `Stopped` after a stop
    /// - `ReadOnly` where the region was mounted with faults
    /// - `NotFound` where no inode in use has the number
    ///
    /// Besides these `Memory` where a growth was refused.
    pub fn dead_pages(&self, inode: u64) -> Result<Option<DeadPages>, Refusal>
        ensures stopped { IsTrue self.now.stopped → result ≡ Result.Err RefusalValue.Stopped }
        ensures allowed { OnOk result (first_refusal (clean_inode_tests (world_of self.now) (shown P.region self.now) inode) ≡ Option.None) }
        ensures refused { self.now.stopped ≡ false
            → IfErr result (λ e. (e ≡ RefusalValue.Memory) ⊎ (first_refusal (clean_inode_tests (world_of self.now) (shown P.region self.now) inode) ≡ Option.Some e)) }
        ensures dead { (held : Store) (h : Held) → ShowsSound (P.region self.now.memory) self.now.layout held → held inode ≡ Option.Some h
            → IfOk result (AreDeadPages self.now.layout.sup h.kind inode h.created h.entries h.pages) }
    {
        self.cleanable()?;
        self.in_use(inode)?;
        // No byte stands behind the last block then.
        let _end = self.memory.len();
        let row = self.rows.row(inode);
        match dead_pages_of(self.alloc, &self.memory, &self.tables, row) {
            Ok(found) => Ok(found),
            Err(AllocError) => Err(Refusal::Memory),
        }
    }

    /// `NotFound` where no inode in use has this number.
    pub(crate) fn in_use(&self, inode: u64) -> Result<(), Refusal>
        ensures found { OnOk result (IsInUse self.now.rows inode) }
        ensures missing { IfErr result (λ e. (e ≡ RefusalValue.NotFound) × (row_of self.now.rows inode ≡ Option.None)) }
    {
        match self.rows.get(inode) {
            Some(_) => Ok(()),
            None => Err(Refusal::NotFound),
        }
    }

    // Whether a call that names no CPU may write: `Stopped` and `ReadOnly` come in this order, before all other tests.
    fn cleanable(&self) -> Result<(), Refusal>
        ensures stopped { IsTrue self.now.stopped → result ≡ Result.Err RefusalValue.Stopped }
        ensures runs { OnOk result (self.now.stopped ≡ false) }
        ensures writes { OnOk result (self.now.read_only ≡ false) }
        ensures kept { IsKept (P.region self.now.memory) self.now.sup self.now.layout self.now.rows self.now.free self.now.faults self.now.read_only self.now.stopped }
        ensures settled { self.now.stopped ≡ false → NothingPending (P.region self.now.memory) (P.may_hold self.now.memory) }
        ensures refused { self.now.stopped ≡ false → (tests : Tests) → IfErr result (λ e. first_refusal ((self.now.read_only, RefusalValue.ReadOnly) ∷ tests) ≡ Option.Some e) }
    {
        if self.stopped {
            return Err(Refusal::Stopped);
        }
        if self.read_only {
            return Err(Refusal::ReadOnly);
        }
        Ok(())
    }
}
