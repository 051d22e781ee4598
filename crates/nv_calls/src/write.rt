//! `write`: new bytes of a file.

ghost use Rattle.std.specs.Prelude.{◌≡◌, ◌<◌, ◌+◌, ℕ, List, Option, Result, length, IfErr, OnOk, false};
ghost use Rattle.nv_region.specs.Region.{size};
ghost use Rattle.nv_region.specs.Stops.{LeavesOnly, NothingPending};
ghost use Rattle.nv_scan.specs.State.{block_of};
ghost use Rattle.nv_mounted.specs.Held.{Held, Store, good_in};
ghost use Rattle.nv_mounted.specs.Mounted.{ShowsSound};
ghost use Rattle.nv_tree.specs.Path.{IsPath, Says};
ghost use Rattle.nv_tree.specs.Tree.{Node, SameTree};
ghost use Rattle.nv_tree.specs.Calls.{written};
ghost use Rattle.nv_tree.specs.Refusals.{Path, first_refusal, write_tests, IsRefusedBy};
ghost use Rattle.nv_steps.specs.Writes.{plan_of};
ghost use Rattle.nv_calls.specs.ChangesByNumber.{LogsInodeBytes, WriteInodeNeeds, write_inode_tests, written_inode};
ghost use Rattle.nv_calls.specs.Effects.{LogsBytes, makes_bytes};
ghost use Rattle.nv_calls.specs.Stopped.{LeavesCall, StopLeaves};
ghost use Rattle.nv_paths.specs.Seen.{LeadsTo};
ghost use Rattle.nv_calls.specs.World.{world_of};
ghost use Rattle.nv_steps.specs.Stores.{StoresIn, one_log};
ghost use Rattle.nv_calls.specs.WriteCall.{ShowsLogWrite, WriteNeeds};
ghost use Rattle.nv_bytes.specs.Data.{data_bytes};
ghost use Rattle.nv_calls.specs.Mount.{shown};
ghost use Rattle.nv_calls.specs.Keeping.{IsNoPath, KeepsCall, KeepsPathCall};

use crate::Fs;
use crate::arguments::{Cpu, Time};
use crate::sizes::{resizable_at, resizable_inode};
use crate::writing::is_stop;
use nv_bytes::{Data, NewBytes};
use nv_region::Pmem;
use nv_steps::{Plan, change_bytes};
use nv_tree::Refusal;

impl<P: Pmem + Drop> Fs<P> {
    /// Each write needs some number of blocks, so that what `write` says of that number is said of every write. It does
    /// nothing.
    pub fn write_needs(&self)
        ensures { (cpu : ℕ) (p : Path) (offset bytes time : ℕ) → (count : ℕ) × WriteNeeds (P.region self.now.memory) self.now cpu p offset bytes time count }
    {}

    /// Writes bytes into the file that a path leads to, from an offset on. A gap between the old end and the offset is
    /// zeros. No bytes change nothing.
    ///
    /// Errors, the first that applies:
    /// - `Stopped` after a stop
    /// - `BadCpu` where there is no CPU of that number
    /// - `ReadOnly` where the region was mounted with faults
    /// - `BadName` where the text is no path
    /// - `NotFound` or `NotDirectory` for an inode on the way
    /// - `NotFound` for the last name
    /// - `IsDirectory` for a directory
    /// - `TooLarge` where the bytes would end past the most that a file can have
    /// - `NoSpace` where fewer blocks are free than are needed
    ///
    /// Besides these `Memory` where a growth was refused, and `Stopped` where the fuse burns. All but `Stopped` leave
    /// everything as it was.
    pub fn write(
        &mut self,
        cpu: Cpu,
        path: &[u8],
        offset: u64,
        bytes: &[u8],
        time: Time,
    ) -> Result<(), Refusal>
        ensures allowed { (p : Path) (count : ℕ) → Says path.now p → WriteNeeds (P.region self.old.memory) self.old cpu p offset (length bytes.now) time count
            → OnOk result (first_refusal (write_tests (world_of self.old) (shown P.region self.old) cpu p (offset + length bytes.now) count) ≡ Option.None) }
        ensures refused { self.old.stopped ≡ false → (p : Path) (count : ℕ) → Says path.now p → WriteNeeds (P.region self.old.memory) self.old cpu p offset (length bytes.now) time count
            → IfErr result (IsRefusedBy (first_refusal (write_tests (world_of self.old) (shown P.region self.old) cpu p (offset + length bytes.now) count))) }
        ensures changed { (names : List (List ℕ)) → IsPath path.now names
            → OnOk result (SameTree (shown P.region self.new) (written names offset bytes.now time (shown P.region self.old))) }
        // The log of the inode has the write's entries more, and no other log has changed.
        ensures log { (names : List (List ℕ)) (i : ℕ) (node : Node) (held : Store) (h : Held) → IsPath path.now names → LeadsTo (shown P.region self.old) names i node
            → ShowsSound (P.region self.old.memory) self.old.layout held → held i ≡ Option.Some h → 0 < length bytes.now
            → OnOk result (ShowsLogWrite (P.region self.new.memory) self.old cpu held i h (plan_of (block_of (good_in self.old.layout h)) node.size offset (length bytes.now) time)) }
        ensures nothing { length bytes.now ≡ 0 → OnOk result (self.new ≡ self.old) }
        // What every call that writes keeps.
        ensures call { KeepsPathCall P.region P.fuse (IsNoPath path.now) self.old self.new result }
        ensures settled { 0 < length bytes.now → OnOk result (NothingPending (P.region self.new.memory) (P.may_hold self.new.memory)) }
        // Every word outside these places is as it was.
        ensures wrote { (names : List (List ℕ)) (i : ℕ) (node : Node) (held : Store) → IsPath path.now names → LeadsTo (shown P.region self.old) names i node
            → ShowsSound (P.region self.old.memory) self.old.layout held → StoresIn self.old.layout held (one_log self.old.layout i) (P.region self.old.memory) (P.region self.new.memory) }
        // Whatever a stop leaves, at any exit: recovery finds what was mounted, or what the call makes, without faults.
        ensures any_stop { (names : List (List ℕ)) → IsPath path.now names → self.old.stopped ≡ false → self.old.read_only ≡ false
            → LeavesOnly (P.region self.new.memory) (P.may_hold self.new.memory) (LeavesCall (makes_bytes offset bytes.now time) (LogsBytes cpu offset (length bytes.now) time)
            (P.region self.old.memory) self.old names) }
    {
        self.write_data(cpu, path, offset, Data::Given(bytes), time)
    }

    /// Writes data, bytes or one byte many times, into the file that a path leads to, from an offset on. It is `write` of the
    /// bytes that they are, and takes no memory for them; where no fuse is set, it keeps no more than a page of what it stores.
    ///
    /// Errors: those of `write`.
    pub fn write_data(
        &mut self,
        cpu: Cpu,
        path: &[u8],
        offset: u64,
        content: Data<'_>,
        time: Time,
    ) -> Result<(), Refusal>
        ensures allowed { (p : Path) (count : ℕ) → Says path.now p → WriteNeeds (P.region self.old.memory) self.old cpu p offset (length (data_bytes content.entry)) time count
            → OnOk result (first_refusal (write_tests (world_of self.old) (shown P.region self.old) cpu p (offset + length (data_bytes content.entry)) count) ≡ Option.None) }
        ensures refused { self.old.stopped ≡ false → (p : Path) (count : ℕ) → Says path.now p
            → WriteNeeds (P.region self.old.memory) self.old cpu p offset (length (data_bytes content.entry)) time count
            → IfErr result (IsRefusedBy (first_refusal (write_tests (world_of self.old) (shown P.region self.old) cpu p (offset + length (data_bytes content.entry)) count))) }
        ensures changed { (names : List (List ℕ)) → IsPath path.now names
            → OnOk result (SameTree (shown P.region self.new) (written names offset (data_bytes content.entry) time (shown P.region self.old))) }
        // The log of the inode has the write's entries more, and no other log has changed.
        ensures log { (names : List (List ℕ)) (i : ℕ) (node : Node) (held : Store) (h : Held) → IsPath path.now names → LeadsTo (shown P.region self.old) names i node
            → ShowsSound (P.region self.old.memory) self.old.layout held → held i ≡ Option.Some h → 0 < length (data_bytes content.entry)
            → OnOk result (ShowsLogWrite (P.region self.new.memory) self.old cpu held i h (plan_of (block_of (good_in self.old.layout h)) node.size offset
            (length (data_bytes content.entry)) time)) }
        ensures nothing { length (data_bytes content.entry) ≡ 0 → OnOk result (self.new ≡ self.old) }
        // What every call that writes keeps.
        ensures call { KeepsPathCall P.region P.fuse (IsNoPath path.now) self.old self.new result }
        ensures settled { 0 < length (data_bytes content.entry) → OnOk result (NothingPending (P.region self.new.memory) (P.may_hold self.new.memory)) }
        // Every word outside these places is as it was.
        ensures wrote { (names : List (List ℕ)) (i : ℕ) (node : Node) (held : Store) → IsPath path.now names → LeadsTo (shown P.region self.old) names i node
            → ShowsSound (P.region self.old.memory) self.old.layout held → StoresIn self.old.layout held (one_log self.old.layout i) (P.region self.old.memory) (P.region self.new.memory) }
        // Whatever a stop leaves, at any exit: recovery finds what was mounted, or what the call makes, without faults.
        ensures any_stop { (names : List (List ℕ)) → IsPath path.now names → self.old.stopped ≡ false → self.old.read_only ≡ false
            → LeavesOnly (P.region self.new.memory) (P.may_hold self.new.memory) (LeavesCall (makes_bytes offset (data_bytes content.entry) time)
            (LogsBytes cpu offset (length (data_bytes content.entry)) time) (P.region self.old.memory) self.old names) }
    {
        self.writable(cpu.0)?;
        let count = content.len();
        let inode = resizable_at(&self.rows, path, offset.saturating_add(count))?.inode;
        self.write_data_inode(cpu, inode, offset, content, time)
    }

    /// Does what `write` does, for the file of this number.
    ///
    /// Errors, the first that applies:
    /// - `Stopped` after a stop
    /// - `BadCpu` where there is no CPU of that number
    /// - `ReadOnly` where the region was mounted with faults
    /// - `NotFound` where no inode in use has the number
    /// - `IsDirectory` for a directory
    /// - `TooLarge` where the bytes would end past the most that a file can have
    /// - `NoSpace` where fewer blocks are free than are needed
    ///
    /// Besides these `Memory` where a growth was refused, and `Stopped` where the fuse burns. All but `Stopped` leave
    /// everything as it was.
    pub fn write_inode(
        &mut self,
        cpu: Cpu,
        inode: u64,
        offset: u64,
        bytes: &[u8],
        time: Time,
    ) -> Result<(), Refusal>
        ensures allowed { (count : ℕ) → WriteInodeNeeds self.old cpu inode offset (length bytes.now) time count
            → OnOk result (first_refusal (write_inode_tests (world_of self.old) (shown P.region self.old) cpu inode (offset + length bytes.now) count) ≡ Option.None) }
        ensures refused { self.old.stopped ≡ false → (count : ℕ) → WriteInodeNeeds self.old cpu inode offset (length bytes.now) time count
            → IfErr result (IsRefusedBy (first_refusal (write_inode_tests (world_of self.old) (shown P.region self.old) cpu inode (offset + length bytes.now) count))) }
        ensures changed { OnOk result (SameTree (shown P.region self.new) (written_inode inode offset bytes.now time (shown P.region self.old))) }
        // The log of the file has the write's entries more, and no other log has changed.
        ensures log { (node : Node) (held : Store) (h : Held) → shown P.region self.old inode ≡ Option.Some node → ShowsSound (P.region self.old.memory) self.old.layout held
            → held inode ≡ Option.Some h → 0 < length bytes.now
            → OnOk result (ShowsLogWrite (P.region self.new.memory) self.old cpu held inode h (plan_of (block_of (good_in self.old.layout h)) node.size offset (length bytes.now) time)) }
        ensures nothing { length bytes.now ≡ 0 → OnOk result (self.new ≡ self.old) }
        // What every call that writes keeps.
        ensures call { KeepsCall P.region P.fuse self.old self.new result }
        ensures settled { 0 < length bytes.now → OnOk result (NothingPending (P.region self.new.memory) (P.may_hold self.new.memory)) }
        // Every word outside these places is as it was.
        ensures wrote { (held : Store) → ShowsSound (P.region self.old.memory) self.old.layout held
            → StoresIn self.old.layout held (one_log self.old.layout inode) (P.region self.old.memory) (P.region self.new.memory) }
        // Whatever a stop leaves, at any exit: recovery finds what was mounted, or what the call makes, without faults.
        ensures any_stop { self.old.stopped ≡ false → self.old.read_only ≡ false
            → LeavesOnly (P.region self.new.memory) (P.may_hold self.new.memory) (StopLeaves (P.region self.old.memory) self.old.layout self.old.rows self.old.free.pools
            (written_inode inode offset bytes.now time (shown P.region self.old))
            (LogsInodeBytes cpu offset (length bytes.now) time inode (P.region self.old.memory) self.old)) }
    {
        self.write_data_inode(cpu, inode, offset, Data::Given(bytes), time)
    }

    /// Does what `write_data` does, for the file of this number.
    ///
    /// Errors: those of `write_inode`.
    pub fn write_data_inode(
        &mut self,
        cpu: Cpu,
        inode: u64,
        offset: u64,
        content: Data<'_>,
        time: Time,
    ) -> Result<(), Refusal>
        ensures allowed { (count : ℕ) → WriteInodeNeeds self.old cpu inode offset (length (data_bytes content.entry)) time count
            → OnOk result (first_refusal (write_inode_tests (world_of self.old) (shown P.region self.old) cpu inode (offset + length (data_bytes content.entry)) count) ≡ Option.None) }
        ensures refused { self.old.stopped ≡ false → (count : ℕ) → WriteInodeNeeds self.old cpu inode offset (length (data_bytes content.entry)) time count
            → IfErr result (IsRefusedBy (first_refusal (write_inode_tests (world_of self.old) (shown P.region self.old) cpu inode (offset + length (data_bytes content.entry)) count))) }
        ensures changed { OnOk result (SameTree (shown P.region self.new) (written_inode inode offset (data_bytes content.entry) time (shown P.region self.old))) }
        // The log of the file has the write's entries more, and no other log has changed.
        ensures log { (node : Node) (held : Store) (h : Held) → shown P.region self.old inode ≡ Option.Some node → ShowsSound (P.region self.old.memory) self.old.layout held
            → held inode ≡ Option.Some h → 0 < length (data_bytes content.entry)
            → OnOk result (ShowsLogWrite (P.region self.new.memory) self.old cpu held inode h (plan_of (block_of (good_in self.old.layout h)) node.size offset
            (length (data_bytes content.entry)) time)) }
        ensures nothing { length (data_bytes content.entry) ≡ 0 → OnOk result (self.new ≡ self.old) }
        // What every call that writes keeps.
        ensures call { KeepsCall P.region P.fuse self.old self.new result }
        ensures settled { 0 < length (data_bytes content.entry) → OnOk result (NothingPending (P.region self.new.memory) (P.may_hold self.new.memory)) }
        // Every word outside these places is as it was.
        ensures wrote { (held : Store) → ShowsSound (P.region self.old.memory) self.old.layout held
            → StoresIn self.old.layout held (one_log self.old.layout inode) (P.region self.old.memory) (P.region self.new.memory) }
        // Whatever a stop leaves, at any exit: recovery finds what was mounted, or what the call makes, without faults.
        ensures any_stop { self.old.stopped ≡ false → self.old.read_only ≡ false
            → LeavesOnly (P.region self.new.memory) (P.may_hold self.new.memory) (StopLeaves (P.region self.old.memory) self.old.layout self.old.rows self.old.free.pools
            (written_inode inode offset (data_bytes content.entry) time (shown P.region self.old))
            (LogsInodeBytes cpu offset (length (data_bytes content.entry)) time inode (P.region self.old.memory) self.old)) }
    {
        self.writable(cpu.0)?;
        let count = content.len();
        resizable_inode(&self.rows, inode, offset.saturating_add(count))?;
        if count == 0 {
            return Ok(());
        }
        let mut row = self.rows.lend(self.alloc, inode);
        let size = row.numbers.size;
        let plan = Plan::new(&row.index, size, offset, count, time.0);
        let change = NewBytes {
            offset,
            content,
            size,
        };
        let changed = change_bytes(
            self.alloc,
            &mut self.memory,
            &self.tables,
            &mut self.free,
            cpu.0,
            &mut row,
            &plan,
            &change,
        );
        self.rows.give_back(row);
        match changed {
            Ok(()) => Ok(()),
            Err(refusal) => {
                self.stopped = is_stop(refusal);
                Err(refusal)
            }
        }
    }
}
