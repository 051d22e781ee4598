//! `set_attr`: the mode, owner, group and time of an inode.

ghost use Rattle.std.specs.Prelude.{◌≡◌, ◌<◌, ◌%◌, ℕ, List, Option, Result, IfErr, OnOk, false};
ghost use Rattle.nv_region.specs.Region.{size};
ghost use Rattle.nv_region.specs.Stops.{LeavesOnly, NothingPending};
ghost use Rattle.nv_mounted.specs.Held.{Held, Store};
ghost use Rattle.nv_mounted.specs.Mounted.{ShowsSound};
ghost use Rattle.nv_tree.specs.Path.{IsPath, Says};
ghost use Rattle.nv_tree.specs.Tree.{Node, SameTree};
ghost use Rattle.nv_tree.specs.Calls.{attributed, edit, with_attributes};
ghost use Rattle.nv_tree.specs.Refusals.{Path, first_refusal, set_attr_tests, IsRefusedBy};
ghost use Rattle.nv_steps.specs.Attributes.{attributes};
ghost use Rattle.nv_calls.specs.AttributesCall.{attributes_blocks};
ghost use Rattle.nv_calls.specs.ChangesByNumber.{attributes_inode_blocks, logs_inode_attributes, set_attr_inode_tests};
ghost use Rattle.nv_calls.specs.GrownLogs.{ShowsGrownLog};
ghost use Rattle.nv_calls.specs.Effects.{logs_attributes, makes_attributes};
ghost use Rattle.nv_calls.specs.Stopped.{LeavesCall, StopLeaves};
ghost use Rattle.nv_paths.specs.Seen.{LeadsTo};
ghost use Rattle.nv_calls.specs.World.{world_of};
ghost use Rattle.nv_steps.specs.Stores.{StoresIn, one_log};
ghost use Rattle.nv_calls.specs.Mount.{shown};
ghost use Rattle.nv_calls.specs.Keeping.{IsNoPath, KeepsCall, SettlesCall};

use crate::Fs;
use crate::arguments::{Cpu, Time};
use crate::writing::is_stop;
use nv_entry::AttrEntry;
use nv_paths::row_at;
use nv_region::Pmem;
use nv_steps::change_attributes;
use nv_tree::Refusal;

impl<P: Pmem + Drop> Fs<P> {
    /// Sets the mode, of which the low 12 bits are kept, and the owner, group and time of the inode that a path leads to.
    ///
    /// Errors, the first that applies:
    /// - `Stopped` after a stop
    /// - `BadCpu` where there is no CPU of that number
    /// - `ReadOnly` where the region was mounted with faults
    /// - `BadName` where the text is no path
    /// - `NotFound` or `NotDirectory` for an inode on the way
    /// - `NotFound` for the last name
    /// - `NoSpace` where fewer blocks are free than the log needs
    ///
    /// Besides these `Memory` where a growth was refused, and `Stopped` where the fuse burns. All but `Stopped` leave
    /// everything as it was.
    pub fn set_attr(
        &mut self,
        cpu: Cpu,
        path: &[u8],
        mode: u32,
        owner: u32,
        group: u32,
        time: Time,
    ) -> Result<(), Refusal>
        ensures allowed { (p : Path) → Says path.now p
            → OnOk result (first_refusal (set_attr_tests (world_of self.old) (shown P.region self.old) cpu p (attributes_blocks self.old.rows (shown P.region self.old) p)) ≡ Option.None) }
        ensures refused { self.old.stopped ≡ false → (p : Path) → Says path.now p
            → IfErr result (IsRefusedBy (first_refusal (set_attr_tests (world_of self.old) (shown P.region self.old) cpu p (attributes_blocks self.old.rows (shown P.region self.old) p)))) }
        ensures changed { (names : List (List ℕ)) → IsPath path.now names
            → OnOk result (SameTree (shown P.region self.new) (attributed names mode owner group time (shown P.region self.old))) }
        // The log of the inode has one entry more, and no other log has changed.
        ensures log { (names : List (List ℕ)) (i : ℕ) (node : Node) (held : Store) (h : Held) → IsPath path.now names → LeadsTo (shown P.region self.old) names i node
            → ShowsSound (P.region self.old.memory) self.old.layout held → held i ≡ Option.Some h
            → OnOk result (ShowsGrownLog (P.region self.new.memory) self.old.layout self.old.free.pools cpu held i h (attributes node.size mode owner group time)) }
        // What every call that writes keeps.
        ensures call { SettlesCall P.region P.may_hold P.fuse (IsNoPath path.now) self.old self.new result }
        // Every word outside these places is as it was.
        ensures wrote { (names : List (List ℕ)) (i : ℕ) (node : Node) (held : Store) → IsPath path.now names → LeadsTo (shown P.region self.old) names i node
            → ShowsSound (P.region self.old.memory) self.old.layout held → StoresIn self.old.layout held (one_log self.old.layout i) (P.region self.old.memory) (P.region self.new.memory) }
        // Whatever a stop leaves, at any exit: recovery finds what was mounted, or what the call makes, without faults.
        ensures any_stop { (names : List (List ℕ)) → IsPath path.now names → self.old.stopped ≡ false → self.old.read_only ≡ false
            → LeavesOnly (P.region self.new.memory) (P.may_hold self.new.memory) (LeavesCall (makes_attributes mode owner group time) (logs_attributes cpu mode owner group time)
            (P.region self.old.memory) self.old names) }
    {
        self.writable(cpu.0)?;
        let inode = row_at(&self.rows, path)?.inode;
        self.set_attr_inode(cpu, inode, mode, owner, group, time)
    }

    /// Does what `set_attr` does, for the inode of this number.
    ///
    /// Errors, the first that applies:
    /// - `Stopped` after a stop
    /// - `BadCpu` where there is no CPU of that number
    /// - `ReadOnly` where the region was mounted with faults
    /// - `NotFound` where no inode in use has the number
    /// - `NoSpace` where fewer blocks are free than the log needs
    ///
    /// Besides these `Memory` where a growth was refused, and `Stopped` where the fuse burns. All but `Stopped` leave
    /// everything as it was.
    pub fn set_attr_inode(
        &mut self,
        cpu: Cpu,
        inode: u64,
        mode: u32,
        owner: u32,
        group: u32,
        time: Time,
    ) -> Result<(), Refusal>
        ensures allowed { OnOk result (first_refusal (set_attr_inode_tests (world_of self.old) (shown P.region self.old) cpu inode (attributes_inode_blocks self.old.rows inode)) ≡ Option.None) }
        ensures refused { self.old.stopped ≡ false
            → IfErr result (IsRefusedBy (first_refusal (set_attr_inode_tests (world_of self.old) (shown P.region self.old) cpu inode (attributes_inode_blocks self.old.rows inode)))) }
        ensures changed { OnOk result (SameTree (shown P.region self.new) (edit inode (with_attributes mode owner group time) (shown P.region self.old))) }
        // The log of the inode has one entry more, and no other log has changed.
        ensures log { (node : Node) (held : Store) (h : Held) → shown P.region self.old inode ≡ Option.Some node → ShowsSound (P.region self.old.memory) self.old.layout held
            → held inode ≡ Option.Some h → OnOk result (ShowsGrownLog (P.region self.new.memory) self.old.layout self.old.free.pools cpu held inode h (attributes node.size mode owner group time)) }
        // What every call that writes keeps.
        ensures call { KeepsCall P.region P.fuse self.old self.new result }
        ensures settled { OnOk result (NothingPending (P.region self.new.memory) (P.may_hold self.new.memory)) }
        // Every word outside these places is as it was.
        ensures wrote { (held : Store) → ShowsSound (P.region self.old.memory) self.old.layout held
            → StoresIn self.old.layout held (one_log self.old.layout inode) (P.region self.old.memory) (P.region self.new.memory) }
        // Whatever a stop leaves, at any exit: recovery finds what was mounted, or what the call makes, without faults.
        ensures any_stop { self.old.stopped ≡ false → self.old.read_only ≡ false
            → LeavesOnly (P.region self.new.memory) (P.may_hold self.new.memory) (StopLeaves (P.region self.old.memory) self.old.layout self.old.rows self.old.free.pools
            (edit inode (with_attributes mode owner group time) (shown P.region self.old)) (logs_inode_attributes cpu mode owner group time inode (P.region self.old.memory) self.old)) }
    {
        self.writable(cpu.0)?;
        self.in_use(inode)?;
        let mut row = self.rows.lend(self.alloc, inode);
        let attributes = AttrEntry {
            mode: mode % 4096,
            size: row.numbers.size,
            time: time.0,
            owner,
            group,
        };
        let changed = change_attributes(
            self.alloc,
            &mut self.memory,
            &self.tables,
            &mut self.free,
            cpu.0,
            &mut row,
            attributes,
        );
        self.rows.give_back(row);
        match changed {
            Ok(()) => Ok(()),
            Err(refusal) => {
                self.stopped = is_stop(refusal);
                Err(refusal)
            }
        }
    }
}
