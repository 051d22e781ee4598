//! `create` and `mkdir`: a new inode and its name. In version 2 the table of the CPU grows where no slot of it is unused.

ghost use Rattle.std.specs.Prelude.{◌≡◌, ◌+◌, ◌≤◌, ◌%◌, ℕ, List, Option, Result, IfOk, IfErr, IsTrue, OnOk, false};
ghost use Rattle.nv_region.specs.Stops.{LeavesOnly, NothingPending};
ghost use Rattle.nv_journal.specs.InOrder.{FirstIsFirst};
ghost use Rattle.nv_super.specs.declared.kind.Kind.TheVariants.{File, Directory};
ghost use Rattle.nv_steps.specs.Slots.{slot_in};
ghost use Rattle.nv_alloc.specs.Taking.{all_blocks};
ghost use Rattle.nv_entry.specs.declared.entry.Operation.{Operation as OperationValue};
ghost use Rattle.nv_logpage.specs.Append.{needed};
ghost use Rattle.nv_scan.specs.declared.piece.Row.{Row as RowValue};
ghost use Rattle.nv_inode.specs.Numbers.{has_slot};
ghost use Rattle.nv_rows.specs.Rows.{place_in, row_of};
ghost use Rattle.nv_mounted.specs.Held.{Held, Store};
ghost use Rattle.nv_mounted.specs.Mounted.{ShowsSound};
ghost use Rattle.nv_names.specs.Names.{name_at};
ghost use Rattle.nv_tree.specs.Path.{IsPath, Says, last_name};
ghost use Rattle.nv_tree.specs.Tree.{SameTree, walk};
ghost use Rattle.nv_tree.specs.Calls.{created};
ghost use Rattle.nv_tree.specs.Refusals.{Path, create_tests, first_refusal, IsRefusedBy};
ghost use Rattle.nv_calls.specs.NameCalls.{ShowsCreated, create_blocks};
ghost use Rattle.nv_calls.specs.NamesByNumber.{CreateStoresIn, create_inode_blocks, create_inode_tests, created_in, logs_created_in};
ghost use Rattle.nv_steps.specs.NameEntries.{name_entries};
ghost use Rattle.nv_commit.specs.Stopped.{LeavesEither};
ghost use Rattle.nv_steps.specs.Stopped.{Named};
ghost use Rattle.nv_calls.specs.AtPlaces.{CreatesAt, KeepsRows};
ghost use Rattle.nv_calls.specs.Growing.{CanCreate, CanGetSlot, CreatesGrown, KeepsTables, LeavesCreated, create_places, grown_blocks};
ghost use Rattle.nv_calls.specs.Effects.{logs_inode, makes_inode};
ghost use Rattle.nv_calls.specs.Stopped.{LeavesGrowing, StopGrows};
ghost use Rattle.nv_steps.specs.Steps.{RefusesStep, ShowsRow};
ghost use Rattle.nv_steps.specs.InOrder.{tail_address};
ghost use Rattle.nv_paths.specs.Spots.{new_number};
ghost use Rattle.nv_calls.specs.World.{world_of};
ghost use Rattle.nv_steps.specs.Stores.{StoresIn, one_more};
ghost use Rattle.nv_calls.specs.Mount.{shown};
ghost use Rattle.nv_calls.specs.Keeping.{IsNoPath, SettlesCallBy, SettlesInodeCallBy};
ghost use Rattle.nv_calls.specs.Same.{GrowsMount, IsLaidFor};
ghost use Rattle.nv_calls.specs.Storing.{CreateStores};

use crate::Fs;
use crate::arguments::{Cpu, Time};
use crate::growing::create_grown;
use crate::writing::is_stop;
use nv_alloc::Allocators;
use nv_entry::{Operation, name_entry};
use nv_inode::Tables;
use nv_logpage::pages_needed;
use nv_paths::{directory_for, spot_in};
use nv_region::Pmem;
use nv_rows::Rows;
use nv_steps::{NewName, make_named};
use nv_super::Kind;
use nv_tree::Refusal;
use std::alloc::Global;

/// Makes a new inode with its name in a directory, and puts the new row in. Where its number has no slot, the table of the CPU
/// grows by a block before, which is taken before the others.
///
/// `NoSpace` where all pools together have too few blocks, `Memory` where a growth was refused; both change nothing.
/// `Stopped` where the fuse has burnt.
fn create_at<P: Pmem>(
    alloc: Global,
    memory: &mut P,
    tables: &mut Tables,
    free: &mut Allocators,
    cpu: u64,
    rows: &mut Rows,
    directory: u64,
    new: &NewName<'_>,
) -> Result<(), Refusal>
    requires can { CanCreate (P.region memory.old) tables.old.layout free.old cpu rows.old directory new.now.inode new.now.name.now }
    requires slot { CanGetSlot (P.region memory.old) tables.old.layout free.old cpu new.now.inode }
    ensures created { OnOk result (CreatesGrown (P.region memory.old) (P.region memory.new) tables.old.layout tables.new.layout free.old free.new cpu rows.old.items rows.new.items
        (place_in rows.old.items directory) new.now.kind new.now.mode new.now.time new.now.inode new.now.name.now) }
    ensures enough { (row : RowValue) → row_of rows.old.items directory ≡ Option.Some row
        → OnOk result (grown_blocks tables.old.layout new.now.inode + (1 + needed (row.tail % 4096) (name_entries OperationValue.Add new.now.inode new.now.name.now new.now.time))
        ≤ all_blocks free.old.pools) }
    ensures kept { KeepsTables P.region P.may_hold P.fuse memory.old memory.new free.old free.new rows.old rows.new tables.old tables.new cpu new.now.inode result }
    ensures refused { (row : RowValue) → row_of rows.old.items directory ≡ Option.Some row
        → IfErr result (λ e. RefusesStep e (grown_blocks tables.old.layout new.now.inode
        + (1 + needed (row.tail % 4096) (name_entries OperationValue.Add new.now.inode new.now.name.now new.now.time))) free.old) }
    // Every word outside these places is as it was.
    ensures wrote { (row : RowValue) (held : Store) (h : Held) → row_of rows.old.items directory ≡ Option.Some row → ShowsRow (P.region memory.old) tables.old.layout held h row free.old
        → held new.now.inode ≡ Option.None
        → StoresIn tables.old.layout held (create_places tables.old.layout cpu new.now.inode row.inode) (P.region memory.old) (P.region memory.new) }
    // The new inode's valid word is stored first.
    ensures in_order { (row : RowValue) (held : Store) (h : Held) → row_of rows.old.items directory ≡ Option.Some row → ShowsRow (P.region memory.old) tables.old.layout held h row free.old
        → held new.now.inode ≡ Option.None
        → FirstIsFirst (P.region memory.old) (slot_in tables.new.layout new.now.inode) 1 (tail_address tables.new.layout row.inode) (P.region memory.new) }
    // Whatever a stop leaves: recovery finds what is held, by the tables of before or those that have grown, or it with the new
    // inode and its name, without faults.
    ensures any_stop { (row : RowValue) (held : Store) (h : Held) → row_of rows.old.items directory ≡ Option.Some row → ShowsRow (P.region memory.old) tables.old.layout held h row free.old
        → held new.now.inode ≡ Option.None → name_at row.names new.now.name.now ≡ Option.None → NothingPending (P.region memory.old) (P.may_hold memory.old)
        → LeavesOnly (P.region memory.new) (P.may_hold memory.new) (LeavesCreated (P.region memory.old) tables.old.layout free.old cpu held row new.now.kind new.now.mode new.now.time
        new.now.inode new.now.name.now) }
{
    if tables.slot_address(new.inode).is_some() {
        return create_in_table(alloc, memory, tables, free, cpu, rows, directory, new);
    }
    create_grown(alloc, memory, tables, free, cpu, rows, directory, new)
}

/// Makes a new inode, whose number has a slot, with its name in a directory, and puts the new row in.
///
/// `NoSpace` where all pools together have too few blocks, `Memory` where a growth was refused; both change nothing.
/// `Stopped` where the fuse has burnt.
fn create_in_table<P: Pmem>(
    alloc: Global,
    memory: &mut P,
    tables: &Tables,
    free: &mut Allocators,
    cpu: u64,
    rows: &mut Rows,
    directory: u64,
    new: &NewName<'_>,
) -> Result<(), Refusal>
    requires can { CanCreate (P.region memory.old) tables.now.layout free.old cpu rows.old directory new.now.inode new.now.name.now }
    requires slot { IsTrue (has_slot tables.now.layout new.now.inode) }
    ensures created { OnOk result (CreatesAt (P.region memory.old) (P.region memory.new) tables.now.layout free.old free.new cpu rows.old.items rows.new.items
        (place_in rows.old.items directory) new.now.kind new.now.mode new.now.time new.now.inode new.now.name.now) }
    ensures enough { (row : RowValue) → row_of rows.old.items directory ≡ Option.Some row
        → OnOk result (1 + needed (row.tail % 4096) (name_entries OperationValue.Add new.now.inode new.now.name.now new.now.time) ≤ all_blocks free.old.pools) }
    ensures kept { KeepsRows P.region P.may_hold P.fuse memory.old memory.new free.old free.new rows.old rows.new result }
    ensures refused { (row : RowValue) → row_of rows.old.items directory ≡ Option.Some row
        → IfErr result (λ e. RefusesStep e (1 + needed (row.tail % 4096) (name_entries OperationValue.Add new.now.inode new.now.name.now new.now.time)) free.old) }
    // Every word outside these places is as it was.
    ensures wrote { (row : RowValue) (held : Store) (h : Held) → row_of rows.old.items directory ≡ Option.Some row → ShowsRow (P.region memory.old) tables.now.layout held h row free.old
        → held new.now.inode ≡ Option.None
        → StoresIn tables.now.layout held (one_more tables.now.layout cpu new.now.inode row.inode) (P.region memory.old) (P.region memory.new) }
    // The new inode's valid word is stored first.
    ensures in_order { (row : RowValue) (held : Store) (h : Held) → row_of rows.old.items directory ≡ Option.Some row → ShowsRow (P.region memory.old) tables.now.layout held h row free.old
        → held new.now.inode ≡ Option.None
        → FirstIsFirst (P.region memory.old) (slot_in tables.now.layout new.now.inode) 1 (tail_address tables.now.layout row.inode) (P.region memory.new) }
    // Whatever a stop leaves: recovery finds what is held, or it with the new inode and its name, without faults.
    ensures any_stop { (row : RowValue) (held : Store) (h : Held) → row_of rows.old.items directory ≡ Option.Some row → ShowsRow (P.region memory.old) tables.now.layout held h row free.old
        → held new.now.inode ≡ Option.None → name_at row.names new.now.name.now ≡ Option.None → NothingPending (P.region memory.old) (P.may_hold memory.old)
        → LeavesOnly (P.region memory.new) (P.may_hold memory.new) (LeavesEither (P.region memory.old) tables.now.layout held
        (Named (P.region memory.old) tables.now.layout free.old cpu row new.now.kind new.now.mode new.now.time new.now.inode new.now.name.now)) }
{
    tables.are_laid();
    let entries = [name_entry(Operation::Add, new.inode, new.name, new.time)];
    if free.free_blocks() < 1 + pages_needed(rows.row(directory).tail, &entries) {
        return Err(Refusal::NoSpace);
    }
    if rows.reserve(1).is_err() {
        return Err(Refusal::Memory);
    }
    let mut row = rows.lend(alloc, directory);
    let made = make_named(alloc, memory, tables, free, cpu, &mut row, new);
    rows.give_back(row);
    rows.insert(made?);
    Ok(())
}

impl<P: Pmem + Drop> Fs<P> {
    /// Makes a file of this mode, of which the low 12 bits are kept, with one name.
    ///
    /// Errors, the first that applies:
    /// - `Stopped` after a stop
    /// - `BadCpu` where there is no CPU of that number
    /// - `ReadOnly` where the region was mounted with faults
    /// - `BadName` where the text is no path or `/`
    /// - `NotFound` or `NotDirectory` for an inode on the way
    /// - `Exists` where the path leads to an inode
    /// - `NoInodes` where the CPU's table has no unused slot, in version 1 alone: in version 2 the table grows by a block then
    /// - `NoSpace` where fewer blocks are free than both logs need, and the table where it grows
    ///
    /// Besides these `Memory` where a growth was refused, and `Stopped` where the fuse burns. All but `Stopped` leave
    /// everything as it was.
    pub fn create(&mut self, cpu: Cpu, path: &[u8], mode: u32, time: Time) -> Result<(), Refusal>
        ensures allowed { (p : Path) → Says path.now p
            → OnOk result (first_refusal (create_tests (world_of self.old) (shown P.region self.old) cpu p
            (create_blocks self.old.layout self.old.rows cpu (shown P.region self.old) p)) ≡ Option.None) }
        ensures refused { self.old.stopped ≡ false → (p : Path) → Says path.now p
            → IfErr result (IsRefusedBy (first_refusal (create_tests (world_of self.old) (shown P.region self.old) cpu p
            (create_blocks self.old.layout self.old.rows cpu (shown P.region self.old) p)))) }
        ensures changed { (names : List (List ℕ)) → IsPath path.now names
            → OnOk result (SameTree (shown P.region self.new) (created File (new_number self.old.layout self.old.rows cpu) names mode time (shown P.region self.old))) }
        // The table of the CPU has grown just where the number of the new inode had no slot.
        ensures tables { OnOk result (IsLaidFor self.old.layout cpu (new_number self.old.layout self.old.rows cpu) self.new.layout) }
        // The log of the directory has one entry more, the new inode's log is one entry, and no other log has changed.
        ensures log { (names : List (List ℕ)) (d j : ℕ) (held : Store) (h : Held) → IsPath path.now names → walk (shown P.region self.old) 1 names ≡ Result.Ok d
            → new_number self.old.layout self.old.rows cpu ≡ Option.Some j
            → ShowsSound (P.region self.old.memory) self.old.layout held → held d ≡ Option.Some h
            → OnOk result (ShowsCreated (P.region self.new.memory) self.old.layout self.old.free.pools cpu held File mode time j d h (last_name names)) }
        // What every call that writes keeps, but that the table of the CPU may grow.
        ensures call { SettlesCallBy (GrowsMount cpu) P.region P.may_hold P.fuse (IsNoPath path.now) self.old self.new result }
        // Where it stores, and in which order.
        ensures stores { CreateStores P.region self.old self.new cpu path.now result }
        // Whatever a stop leaves, at any exit: recovery finds what was mounted, or what the call makes, without faults. The table
        // of the CPU may have grown.
        ensures any_stop { (names : List (List ℕ)) → IsPath path.now names → self.old.stopped ≡ false → self.old.read_only ≡ false
            → LeavesOnly (P.region self.new.memory) (P.may_hold self.new.memory) (LeavesGrowing cpu (makes_inode File cpu mode time) (logs_inode File cpu mode time)
            (P.region self.old.memory) self.old names) }
    {
        self.make(cpu, path, Kind::File, mode, time)
    }

    /// Makes a directory of this mode, of which the low 12 bits are kept, with one name. Errors as `create` has them.
    pub fn mkdir(&mut self, cpu: Cpu, path: &[u8], mode: u32, time: Time) -> Result<(), Refusal>
        ensures allowed { (p : Path) → Says path.now p
            → OnOk result (first_refusal (create_tests (world_of self.old) (shown P.region self.old) cpu p
            (create_blocks self.old.layout self.old.rows cpu (shown P.region self.old) p)) ≡ Option.None) }
        ensures refused { self.old.stopped ≡ false → (p : Path) → Says path.now p
            → IfErr result (IsRefusedBy (first_refusal (create_tests (world_of self.old) (shown P.region self.old) cpu p
            (create_blocks self.old.layout self.old.rows cpu (shown P.region self.old) p)))) }
        ensures changed { (names : List (List ℕ)) → IsPath path.now names
            → OnOk result (SameTree (shown P.region self.new) (created Directory (new_number self.old.layout self.old.rows cpu) names mode time (shown P.region self.old))) }
        // The table of the CPU has grown just where the number of the new inode had no slot.
        ensures tables { OnOk result (IsLaidFor self.old.layout cpu (new_number self.old.layout self.old.rows cpu) self.new.layout) }
        // The log of the directory has one entry more, the new inode's log is one entry, and no other log has changed.
        ensures log { (names : List (List ℕ)) (d j : ℕ) (held : Store) (h : Held) → IsPath path.now names → walk (shown P.region self.old) 1 names ≡ Result.Ok d
            → new_number self.old.layout self.old.rows cpu ≡ Option.Some j
            → ShowsSound (P.region self.old.memory) self.old.layout held → held d ≡ Option.Some h
            → OnOk result (ShowsCreated (P.region self.new.memory) self.old.layout self.old.free.pools cpu held Directory mode time j d h (last_name names)) }
        // What every call that writes keeps, but that the table of the CPU may grow.
        ensures call { SettlesCallBy (GrowsMount cpu) P.region P.may_hold P.fuse (IsNoPath path.now) self.old self.new result }
        // Where it stores, and in which order.
        ensures stores { CreateStores P.region self.old self.new cpu path.now result }
        // Whatever a stop leaves, at any exit: recovery finds what was mounted, or what the call makes, without faults. The table
        // of the CPU may have grown.
        ensures any_stop { (names : List (List ℕ)) → IsPath path.now names → self.old.stopped ≡ false → self.old.read_only ≡ false
            → LeavesOnly (P.region self.new.memory) (P.may_hold self.new.memory) (LeavesGrowing cpu (makes_inode Directory cpu mode time) (logs_inode Directory cpu mode time)
            (P.region self.old.memory) self.old names) }
    {
        self.make(cpu, path, Kind::Directory, mode, time)
    }

    /// Makes an inode of a kind: what `create` and `mkdir` do.
    fn make(
        &mut self,
        cpu: Cpu,
        path: &[u8],
        kind: Kind,
        mode: u32,
        time: Time,
    ) -> Result<(), Refusal>
        ensures allowed { (p : Path) → Says path.now p
            → OnOk result (first_refusal (create_tests (world_of self.old) (shown P.region self.old) cpu p
            (create_blocks self.old.layout self.old.rows cpu (shown P.region self.old) p)) ≡ Option.None) }
        ensures refused { self.old.stopped ≡ false → (p : Path) → Says path.now p
            → IfErr result (IsRefusedBy (first_refusal (create_tests (world_of self.old) (shown P.region self.old) cpu p
            (create_blocks self.old.layout self.old.rows cpu (shown P.region self.old) p)))) }
        ensures changed { (names : List (List ℕ)) → IsPath path.now names
            → OnOk result (SameTree (shown P.region self.new) (created kind (new_number self.old.layout self.old.rows cpu) names mode time (shown P.region self.old))) }
        // The table of the CPU has grown just where the number of the new inode had no slot.
        ensures tables { OnOk result (IsLaidFor self.old.layout cpu (new_number self.old.layout self.old.rows cpu) self.new.layout) }
        // The log of the directory has one entry more, the new inode's log is one entry, and no other log has changed.
        ensures log { (names : List (List ℕ)) (d j : ℕ) (held : Store) (h : Held) → IsPath path.now names → walk (shown P.region self.old) 1 names ≡ Result.Ok d
            → new_number self.old.layout self.old.rows cpu ≡ Option.Some j
            → ShowsSound (P.region self.old.memory) self.old.layout held → held d ≡ Option.Some h
            → OnOk result (ShowsCreated (P.region self.new.memory) self.old.layout self.old.free.pools cpu held kind mode time j d h (last_name names)) }
        // What every call that writes keeps, but that the table of the CPU may grow.
        ensures call { SettlesCallBy (GrowsMount cpu) P.region P.may_hold P.fuse (IsNoPath path.now) self.old self.new result }
        // Where it stores, and in which order.
        ensures stores { CreateStores P.region self.old self.new cpu path.now result }
        // Whatever a stop leaves, at any exit: recovery finds what was mounted, or what the call makes, without faults. The table
        // of the CPU may have grown.
        ensures any_stop { (names : List (List ℕ)) → IsPath path.now names → self.old.stopped ≡ false → self.old.read_only ≡ false
            → LeavesOnly (P.region self.new.memory) (P.may_hold self.new.memory) (LeavesGrowing cpu (makes_inode kind cpu mode time) (logs_inode kind cpu mode time)
            (P.region self.old.memory) self.old names) }
    {
        self.writable(cpu.0)?;
        let (directory, name) = directory_for(&self.rows, path)?;
        match self.make_inode(cpu, directory, name, kind, mode, time) {
            Ok(_) => Ok(()),
            Err(refusal) => Err(refusal),
        }
    }

    /// Makes a file of this mode, of which the low 12 bits are kept, with this name in the directory of this number. It answers
    /// the new file's number.
    ///
    /// Errors, the first that applies:
    /// - `Stopped` after a stop
    /// - `BadCpu` where there is no CPU of that number
    /// - `ReadOnly` where the region was mounted with faults
    /// - `BadName` where no path can say the name
    /// - `NotFound` where no inode in use has the directory's number, and `NotDirectory` where a file has it
    /// - `Exists` where an inode in use has the name
    /// - `NoInodes` where the CPU's table has no unused slot, in version 1 alone: in version 2 the table grows by a block then
    /// - `NoSpace` where fewer blocks are free than both logs need, and the table where it grows
    ///
    /// Besides these `Memory` where a growth was refused, and `Stopped` where the fuse burns. All but `Stopped` leave
    /// everything as it was.
    pub fn create_inode(
        &mut self,
        cpu: Cpu,
        directory: u64,
        name: &[u8],
        mode: u32,
        time: Time,
    ) -> Result<u64, Refusal>
        ensures allowed { OnOk result (first_refusal (create_inode_tests (world_of self.old) (shown P.region self.old) cpu directory name.now
            (create_inode_blocks self.old.layout self.old.rows cpu directory name.now)) ≡ Option.None) }
        ensures refused { self.old.stopped ≡ false
            → IfErr result (IsRefusedBy (first_refusal (create_inode_tests (world_of self.old) (shown P.region self.old) cpu directory name.now
            (create_inode_blocks self.old.layout self.old.rows cpu directory name.now)))) }
        ensures number { IfOk result (λ i. new_number self.old.layout self.old.rows cpu ≡ Option.Some i) }
        ensures changed { OnOk result (SameTree (shown P.region self.new) (created_in File (new_number self.old.layout self.old.rows cpu) directory name.now mode time
            (shown P.region self.old))) }
        // The table of the CPU has grown just where the number of the new inode had no slot.
        ensures tables { OnOk result (IsLaidFor self.old.layout cpu (new_number self.old.layout self.old.rows cpu) self.new.layout) }
        // The log of the directory has one entry more, the new inode's log is one entry, and no other log has changed.
        ensures log { (j : ℕ) (held : Store) (h : Held) → new_number self.old.layout self.old.rows cpu ≡ Option.Some j
            → ShowsSound (P.region self.old.memory) self.old.layout held → held directory ≡ Option.Some h
            → OnOk result (ShowsCreated (P.region self.new.memory) self.old.layout self.old.free.pools cpu held File mode time j directory h name.now) }
        // What every call that writes keeps, but that the table of the CPU may grow.
        ensures call { SettlesInodeCallBy (GrowsMount cpu) P.region P.may_hold P.fuse self.old self.new result }
        // Where it stores, and in which order.
        ensures stores { CreateStoresIn P.region self.old self.new cpu directory result }
        // Whatever a stop leaves, at any exit: recovery finds what was mounted, or what the call makes, without faults. The table
        // of the CPU may have grown.
        ensures any_stop { self.old.stopped ≡ false → self.old.read_only ≡ false
            → LeavesOnly (P.region self.new.memory) (P.may_hold self.new.memory) (StopGrows cpu (P.region self.old.memory) self.old
            (created_in File (new_number self.old.layout self.old.rows cpu) directory name.now mode time (shown P.region self.old))
            (logs_created_in File cpu mode time directory name.now (P.region self.old.memory) self.old)) }
    {
        self.make_inode(cpu, directory, name, Kind::File, mode, time)
    }

    /// Makes a directory of this mode, of which the low 12 bits are kept, with this name in the directory of this number. It
    /// answers the new directory's number. Errors as `create_inode` has them.
    pub fn mkdir_inode(
        &mut self,
        cpu: Cpu,
        directory: u64,
        name: &[u8],
        mode: u32,
        time: Time,
    ) -> Result<u64, Refusal>
        ensures allowed { OnOk result (first_refusal (create_inode_tests (world_of self.old) (shown P.region self.old) cpu directory name.now
            (create_inode_blocks self.old.layout self.old.rows cpu directory name.now)) ≡ Option.None) }
        ensures refused { self.old.stopped ≡ false
            → IfErr result (IsRefusedBy (first_refusal (create_inode_tests (world_of self.old) (shown P.region self.old) cpu directory name.now
            (create_inode_blocks self.old.layout self.old.rows cpu directory name.now)))) }
        ensures number { IfOk result (λ i. new_number self.old.layout self.old.rows cpu ≡ Option.Some i) }
        ensures changed { OnOk result (SameTree (shown P.region self.new) (created_in Directory (new_number self.old.layout self.old.rows cpu) directory name.now mode time
            (shown P.region self.old))) }
        // The table of the CPU has grown just where the number of the new inode had no slot.
        ensures tables { OnOk result (IsLaidFor self.old.layout cpu (new_number self.old.layout self.old.rows cpu) self.new.layout) }
        // The log of the directory has one entry more, the new inode's log is one entry, and no other log has changed.
        ensures log { (j : ℕ) (held : Store) (h : Held) → new_number self.old.layout self.old.rows cpu ≡ Option.Some j
            → ShowsSound (P.region self.old.memory) self.old.layout held → held directory ≡ Option.Some h
            → OnOk result (ShowsCreated (P.region self.new.memory) self.old.layout self.old.free.pools cpu held Directory mode time j directory h name.now) }
        // What every call that writes keeps, but that the table of the CPU may grow.
        ensures call { SettlesInodeCallBy (GrowsMount cpu) P.region P.may_hold P.fuse self.old self.new result }
        // Where it stores, and in which order.
        ensures stores { CreateStoresIn P.region self.old self.new cpu directory result }
        // Whatever a stop leaves, at any exit: recovery finds what was mounted, or what the call makes, without faults. The table
        // of the CPU may have grown.
        ensures any_stop { self.old.stopped ≡ false → self.old.read_only ≡ false
            → LeavesOnly (P.region self.new.memory) (P.may_hold self.new.memory) (StopGrows cpu (P.region self.old.memory) self.old
            (created_in Directory (new_number self.old.layout self.old.rows cpu) directory name.now mode time (shown P.region self.old))
            (logs_created_in Directory cpu mode time directory name.now (P.region self.old.memory) self.old)) }
    {
        self.make_inode(cpu, directory, name, Kind::Directory, mode, time)
    }

    /// Makes an inode of a kind: what `create_inode` and `mkdir_inode` do.
    fn make_inode(
        &mut self,
        cpu: Cpu,
        directory: u64,
        name: &[u8],
        kind: Kind,
        mode: u32,
        time: Time,
    ) -> Result<u64, Refusal>
        ensures allowed { OnOk result (first_refusal (create_inode_tests (world_of self.old) (shown P.region self.old) cpu directory name.now
            (create_inode_blocks self.old.layout self.old.rows cpu directory name.now)) ≡ Option.None) }
        ensures refused { self.old.stopped ≡ false
            → IfErr result (IsRefusedBy (first_refusal (create_inode_tests (world_of self.old) (shown P.region self.old) cpu directory name.now
            (create_inode_blocks self.old.layout self.old.rows cpu directory name.now)))) }
        ensures number { IfOk result (λ i. new_number self.old.layout self.old.rows cpu ≡ Option.Some i) }
        ensures changed { OnOk result (SameTree (shown P.region self.new) (created_in kind (new_number self.old.layout self.old.rows cpu) directory name.now mode time
            (shown P.region self.old))) }
        // The table of the CPU has grown just where the number of the new inode had no slot.
        ensures tables { OnOk result (IsLaidFor self.old.layout cpu (new_number self.old.layout self.old.rows cpu) self.new.layout) }
        // The log of the directory has one entry more, the new inode's log is one entry, and no other log has changed.
        ensures log { (j : ℕ) (held : Store) (h : Held) → new_number self.old.layout self.old.rows cpu ≡ Option.Some j
            → ShowsSound (P.region self.old.memory) self.old.layout held → held directory ≡ Option.Some h
            → OnOk result (ShowsCreated (P.region self.new.memory) self.old.layout self.old.free.pools cpu held kind mode time j directory h name.now) }
        // What every call that writes keeps, but that the table of the CPU may grow.
        ensures call { SettlesInodeCallBy (GrowsMount cpu) P.region P.may_hold P.fuse self.old self.new result }
        // Where it stores, and in which order.
        ensures stores { CreateStoresIn P.region self.old self.new cpu directory result }
        // Whatever a stop leaves, at any exit: recovery finds what was mounted, or what the call makes, without faults. The table
        // of the CPU may have grown.
        ensures any_stop { self.old.stopped ≡ false → self.old.read_only ≡ false
            → LeavesOnly (P.region self.new.memory) (P.may_hold self.new.memory) (StopGrows cpu (P.region self.old.memory) self.old
            (created_in kind (new_number self.old.layout self.old.rows cpu) directory name.now mode time (shown P.region self.old))
            (logs_created_in kind cpu mode time directory name.now (P.region self.old.memory) self.old)) }
    {
        self.writable(cpu.0)?;
        let inode = spot_in(&self.rows, &self.tables, cpu.0, directory, name)?;
        let new = NewName {
            inode,
            kind,
            mode,
            time: time.0,
            name,
        };
        match create_at(
            self.alloc,
            &mut self.memory,
            &mut self.tables,
            &mut self.free,
            cpu.0,
            &mut self.rows,
            directory,
            &new,
        ) {
            Ok(()) => Ok(inode),
            Err(refusal) => {
                self.stopped = is_stop(refusal);
                Err(refusal)
            }
        }
    }
}
