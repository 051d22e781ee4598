//! `rmdir`: a directory without names goes, and its name.

ghost use Rattle.std.specs.Prelude.{◌≡◌, ℕ, List, Option, Result, IfErr, OnOk, false};
ghost use Rattle.nv_region.specs.Stops.{LeavesOnly, NothingPending};
ghost use Rattle.nv_entry.specs.declared.entry.Operation.TheVariants.{Remove};
ghost use Rattle.nv_mounted.specs.Held.{Held, Store};
ghost use Rattle.nv_mounted.specs.Mounted.{ShowsSound};
ghost use Rattle.nv_tree.specs.Path.{IsPath, Says, last_name};
ghost use Rattle.nv_tree.specs.Tree.{Node, SameTree, walk};
ghost use Rattle.nv_tree.specs.Calls.{removed};
ghost use Rattle.nv_tree.specs.Refusals.{Path, first_refusal, rmdir_tests, IsRefusedBy};
ghost use Rattle.nv_calls.specs.NameCalls.{name_blocks};
ghost use Rattle.nv_steps.specs.NameEntries.{name_entries};
ghost use Rattle.nv_calls.specs.RemoveCalls.{ShowsRemoved};
ghost use Rattle.nv_calls.specs.Effects.{logs_removal, makes_removal};
ghost use Rattle.nv_calls.specs.NamesByNumber.{RemoveStoresIn, entry_blocks, logs_removed_in, removed_in, rmdir_inode_tests};
ghost use Rattle.nv_calls.specs.Stopped.{LeavesCall, StopLeaves};
ghost use Rattle.nv_paths.specs.Seen.{LeadsTo};
ghost use Rattle.nv_calls.specs.World.{world_of};
ghost use Rattle.nv_calls.specs.Mount.{shown};
ghost use Rattle.nv_calls.specs.Keeping.{IsNoPath, KeepsCall, SettlesCall};
ghost use Rattle.nv_calls.specs.Storing.{RemoveStores};

use crate::Fs;
use crate::arguments::{Cpu, Time};
use crate::removing::remove_named;
use crate::writing::is_stop;
use nv_paths::{Named, directory_for, rmdir_in};
use nv_region::Pmem;
use nv_tree::Refusal;

impl<P: Pmem + Drop> Fs<P> {
    /// Takes a directory without names away, and its name.
    ///
    /// Errors, the first that applies:
    /// - `Stopped` after a stop
    /// - `BadCpu` where there is no CPU of that number
    /// - `ReadOnly` where the region was mounted with faults
    /// - `BadName` where the text is no path or `/`
    /// - `NotFound` or `NotDirectory` for an inode on the way
    /// - `NotFound` for the last name
    /// - `NotDirectory` for a file
    /// - `NotEmpty` where names are in it
    /// - `NoSpace` where fewer blocks are free than the log needs
    ///
    /// Besides these `Memory` where a growth was refused, and `Stopped` where the fuse burns. All but `Stopped` leave
    /// everything as it was.
    pub fn rmdir(&mut self, cpu: Cpu, path: &[u8], time: Time) -> Result<(), Refusal>
        ensures allowed { (p : Path) → Says path.now p
            → OnOk result (first_refusal (rmdir_tests (world_of self.old) (shown P.region self.old) cpu p (name_blocks self.old.rows (shown P.region self.old) p)) ≡ Option.None) }
        ensures refused { self.old.stopped ≡ false → (p : Path) → Says path.now p
            → IfErr result (IsRefusedBy (first_refusal (rmdir_tests (world_of self.old) (shown P.region self.old) cpu p (name_blocks self.old.rows (shown P.region self.old) p)))) }
        ensures changed { (names : List (List ℕ)) → IsPath path.now names
            → OnOk result (SameTree (shown P.region self.new) (removed names time (shown P.region self.old))) }
        // The log of the directory in which it stood has one entry more, and no other log has changed.
        ensures log { (names : List (List ℕ)) (i d : ℕ) (node : Node) (held : Store) (h : Held) → IsPath path.now names → LeadsTo (shown P.region self.old) names i node
            → walk (shown P.region self.old) 1 names ≡ Result.Ok d
            → ShowsSound (P.region self.old.memory) self.old.layout held → held d ≡ Option.Some h
            → OnOk result (ShowsRemoved (P.region self.new.memory) self.old.layout self.old.free.pools cpu held d h (name_entries Remove i (last_name names) time) i) }
        // What every call that writes keeps.
        ensures call { SettlesCall P.region P.may_hold P.fuse (IsNoPath path.now) self.old self.new result }
        // Where it stores, and in which order.
        ensures stores { RemoveStores P.region self.old self.new cpu path.now time result }
        // Whatever a stop leaves, at any exit: recovery finds what was mounted, or what the call makes, without faults.
        ensures any_stop { (names : List (List ℕ)) → IsPath path.now names → self.old.stopped ≡ false → self.old.read_only ≡ false
            → LeavesOnly (P.region self.new.memory) (P.may_hold self.new.memory) (LeavesCall (makes_removal time) (logs_removal cpu time) (P.region self.old.memory) self.old names) }
    {
        self.writable(cpu.0)?;
        let (directory, name) = directory_for(&self.rows, path)?;
        self.rmdir_inode(cpu, directory, name, time)
    }

    /// Takes a directory without names away, and its name in the directory of this number.
    ///
    /// Errors, the first that applies:
    /// - `Stopped` after a stop
    /// - `BadCpu` where there is no CPU of that number
    /// - `ReadOnly` where the region was mounted with faults
    /// - `BadName` where no path can say the name
    /// - `NotFound` where no inode in use has the directory's number, and `NotDirectory` where a file has it
    /// - `NotFound` where no inode in use has the name
    /// - `NotDirectory` for a file
    /// - `NotEmpty` where names are in it
    /// - `NoSpace` where fewer blocks are free than the log needs
    ///
    /// Besides these `Memory` where a growth was refused, and `Stopped` where the fuse burns. All but `Stopped` leave
    /// everything as it was.
    pub fn rmdir_inode(
        &mut self,
        cpu: Cpu,
        directory: u64,
        name: &[u8],
        time: Time,
    ) -> Result<(), Refusal>
        ensures allowed { OnOk result (first_refusal (rmdir_inode_tests (world_of self.old) (shown P.region self.old) cpu directory name.now
            (entry_blocks self.old.rows directory name.now)) ≡ Option.None) }
        ensures refused { self.old.stopped ≡ false
            → IfErr result (IsRefusedBy (first_refusal (rmdir_inode_tests (world_of self.old) (shown P.region self.old) cpu directory name.now
            (entry_blocks self.old.rows directory name.now)))) }
        ensures changed { OnOk result (SameTree (shown P.region self.new) (removed_in directory name.now time (shown P.region self.old))) }
        // The log of the directory in which it stood has one entry more, and no other log has changed.
        ensures log { OnOk result (logs_removed_in cpu time directory name.now (P.region self.old.memory) self.old (P.region self.new.memory)) }
        // What every call that writes keeps.
        ensures call { KeepsCall P.region P.fuse self.old self.new result }
        ensures settled { OnOk result (NothingPending (P.region self.new.memory) (P.may_hold self.new.memory)) }
        // Where it stores, and in which order.
        ensures stores { RemoveStoresIn P.region self.old self.new cpu directory name.now time result }
        // Whatever a stop leaves, at any exit: recovery finds what was mounted, or what the call makes, without faults.
        ensures any_stop { self.old.stopped ≡ false → self.old.read_only ≡ false
            → LeavesOnly (P.region self.new.memory) (P.may_hold self.new.memory) (StopLeaves (P.region self.old.memory) self.old.layout self.old.rows self.old.free.pools
            (removed_in directory name.now time (shown P.region self.old)) (logs_removed_in cpu time directory name.now (P.region self.old.memory) self.old)) }
    {
        self.writable(cpu.0)?;
        let target = rmdir_in(&self.rows, directory, name)?;
        let named = Named {
            directory,
            name,
            target,
        };
        match remove_named(
            self.alloc,
            &mut self.memory,
            &self.tables,
            &mut self.free,
            cpu.0,
            &mut self.rows,
            &named,
            time.0,
        ) {
            Ok(()) => Ok(()),
            Err(refusal) => {
                self.stopped = is_stop(refusal);
                Err(refusal)
            }
        }
    }
}
