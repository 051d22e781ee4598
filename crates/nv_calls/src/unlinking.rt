//! `unlink`: a name of a file less, and with the last one the file.

ghost use Rattle.std.specs.Prelude.{◌≡◌, ◌≢◌, ◌+◌, ◌-◌, ◌%◌, ◌<◌, ◌≤◌, nat_lt, ℕ, List, Option, Result, IfErr, OnOk, false};
ghost use Rattle.nv_region.specs.Stops.{LeavesOnly, NothingPending};
ghost use Rattle.nv_alloc.specs.Taking.{all_blocks};
ghost use Rattle.nv_entry.specs.declared.entry.Operation.TheVariants.{Remove};
ghost use Rattle.nv_logpage.specs.Append.{needed};
ghost use Rattle.nv_names.specs.Names.{IsName};
ghost use Rattle.nv_scan.specs.declared.piece.Row.{Row as RowValue};
ghost use Rattle.nv_rows.specs.Rows.{IsInUse, place_in, row_of};
ghost use Rattle.nv_mounted.specs.Held.{Held, Store};
ghost use Rattle.nv_mounted.specs.Mounted.{ShowsSound};
ghost use Rattle.nv_commit.specs.Stopped.{LeavesEither};
ghost use Rattle.nv_tree.specs.Path.{IsPath, Says, last_name};
ghost use Rattle.nv_tree.specs.Tree.{Node, SameTree, walk};
ghost use Rattle.nv_tree.specs.Calls.{unlinked};
ghost use Rattle.nv_tree.specs.Refusals.{Path, first_refusal, unlink_tests, IsRefusedBy};
ghost use Rattle.nv_steps.specs.Grown.{StandsRight};
ghost use Rattle.nv_steps.specs.LessNames.{OwnsBlocks};
ghost use Rattle.nv_calls.specs.CanChange.{CanUnlinkAt};
ghost use Rattle.nv_calls.specs.LinkCalls.{ShowsBothGrew};
ghost use Rattle.nv_steps.specs.NameEntries.{links_entries, name_entries};
ghost use Rattle.nv_steps.specs.NewNames.{CanName};
ghost use Rattle.nv_calls.specs.AtPlaces.{KeepsRows, Releases, release_blocks};
ghost use Rattle.nv_calls.specs.RemoveCalls.{ShowsRemoved};
ghost use Rattle.nv_calls.specs.Effects.{LogsUnlink, makes_unlink};
ghost use Rattle.nv_calls.specs.NamesByNumber.{LogsUnlinkedIn, UnlinkStoresIn, unlink_inode_blocks, unlink_inode_tests, unlinked_in};
ghost use Rattle.nv_calls.specs.Stopped.{LeavesCall, Released, StopLeaves};
ghost use Rattle.nv_steps.specs.Stopped.{Unlinked};
ghost use Rattle.nv_paths.specs.Seen.{LeadsTo};
ghost use Rattle.nv_steps.specs.Steps.{RefusesStep, ShowsRow};
ghost use Rattle.nv_steps.specs.InOrder.{TailIsFirst, tail_address};
ghost use Rattle.nv_calls.specs.UnlinkCalls.{unlink_blocks};
ghost use Rattle.nv_steps.specs.Unlinks.{UnlinksAt};
ghost use Rattle.nv_calls.specs.World.{world_of};
ghost use Rattle.nv_steps.specs.Stores.{StoresIn, one_less, two_logs};
ghost use Rattle.nv_calls.specs.Mount.{shown};
ghost use Rattle.nv_calls.specs.Keeping.{IsNoPath, KeepsCall, SettlesCall};
ghost use Rattle.nv_calls.specs.Storing.{UnlinkStores};
ghost use Rattle.nv_steps.specs.Slots.{slot_in};

use crate::Fs;
use crate::arguments::{Cpu, Time};
use crate::removing::remove_named;
use crate::writing::is_stop;
use nv_alloc::Allocators;
use nv_inode::Tables;
use nv_paths::{Named, directory_for, unlink_in};
use nv_region::Pmem;
use nv_rows::Rows;
use nv_scan::Row;
use nv_steps::unlink_both;
use nv_tree::Refusal;
use std::alloc::Global;

/// Takes a name of a file that has others out of a directory: the directory's log says so, and the file's log says one link
/// less.
///
/// `NoSpace` where all pools together have too few blocks, `Memory` where a growth was refused; both change nothing.
/// `Stopped` where the fuse has burnt.
fn unlink_at<P: Pmem>(
    alloc: Global,
    memory: &mut P,
    tables: &Tables,
    free: &mut Allocators,
    cpu: u64,
    rows: &mut Rows,
    named: &Named<'_>,
    time: u64,
) -> Result<(), Refusal>
    requires { CanUnlinkAt (P.region memory.old) tables.now.layout free.old cpu rows.old.items named.now.directory named.now.target named.now.name.now }
    ensures unlinked { OnOk result (UnlinksAt (P.region memory.old) (P.region memory.new) tables.now.layout free.old free.new cpu rows.old.items rows.new.items
        (place_in rows.old.items named.now.directory)
        (place_in rows.old.items named.now.target) named.now.name.now time) }
    ensures enough { (row file : RowValue) → row_of rows.old.items named.now.directory ≡ Option.Some row → row_of rows.old.items named.now.target ≡ Option.Some file
        → OnOk result (needed (row.tail % 4096) (name_entries Remove file.inode named.now.name.now time)
        + needed (file.tail % 4096) (links_entries (file.numbers.links - 1) time) ≤ all_blocks free.old.pools) }
    ensures kept { KeepsRows P.region P.may_hold P.fuse memory.old memory.new free.old free.new rows.old rows.new result }
    ensures refused { (row file : RowValue) → row_of rows.old.items named.now.directory ≡ Option.Some row → row_of rows.old.items named.now.target ≡ Option.Some file
        → IfErr result (λ e. RefusesStep e (needed (row.tail % 4096) (name_entries Remove file.inode named.now.name.now time) + needed (file.tail % 4096) (links_entries (file.numbers.links - 1) time))
        free.old) }
    // Every word outside these places is as it was.
    ensures wrote { (row file : RowValue) (held : Store) (h f : Held) → row_of rows.old.items named.now.directory ≡ Option.Some row
        → row_of rows.old.items named.now.target ≡ Option.Some file → ShowsRow (P.region memory.old) tables.now.layout held h row free.old
        → ShowsRow (P.region memory.old) tables.now.layout held f file free.old
        → StoresIn tables.now.layout held (two_logs tables.now.layout cpu row.inode file.inode) (P.region memory.old) (P.region memory.new) }
    // The directory's tail is stored first.
    ensures in_order { (row file : RowValue) (held : Store) (h f : Held) → row_of rows.old.items named.now.directory ≡ Option.Some row
        → row_of rows.old.items named.now.target ≡ Option.Some file → ShowsRow (P.region memory.old) tables.now.layout held h row free.old
        → ShowsRow (P.region memory.old) tables.now.layout held f file free.old
        → TailIsFirst (P.region memory.old) (P.region memory.new) tables.now.layout free.old.pools cpu row.inode row.tail
        (name_entries Remove file.inode named.now.name.now time) (tail_address tables.now.layout
        file.inode) }
    // Whatever a stop leaves: recovery finds what is held, or it without the name and the link, without faults.
    ensures any_stop { (row file : RowValue) (held : Store) (h f : Held) → row_of rows.old.items named.now.directory ≡ Option.Some row
        → row_of rows.old.items named.now.target ≡ Option.Some file → ShowsRow (P.region memory.old) tables.now.layout held h row free.old
        → ShowsRow (P.region memory.old) tables.now.layout held f file free.old → NothingPending (P.region memory.old) (P.may_hold memory.old)
        → LeavesOnly (P.region memory.new) (P.may_hold memory.new) (LeavesEither (P.region memory.old) tables.now.layout held
        (Unlinked (P.region memory.old) tables.now.layout free.old cpu row file named.now.name.now time)) }
{
    let mut directory = rows.lend(alloc, named.directory);
    let mut file = rows.lend(alloc, named.target);
    let done = unlink_both(
        alloc,
        memory,
        tables,
        free,
        cpu,
        &mut directory,
        &mut file,
        named.name,
        time,
    );
    rows.give_back(file);
    rows.give_back(directory);
    done
}

/// Whether a file has more links than one.
fn has_more_links(file: &Row) -> bool
    ensures { result ≡ nat_lt 1 file.now.numbers.links }
{
    file.numbers.links > 1
}

/// Takes a name of a file out of a directory, and the file with it where that was its last one. It is refused as `unlink_at`
/// and `remove_named` are.
fn release_at<P: Pmem>(
    alloc: Global,
    memory: &mut P,
    tables: &Tables,
    free: &mut Allocators,
    cpu: u64,
    rows: &mut Rows,
    named: &Named<'_>,
    time: u64,
) -> Result<(), Refusal>
    requires directory { IsInUse rows.old.items named.now.directory }
    requires target { IsInUse rows.old.items named.now.target }
    requires apart { named.now.directory ≢ named.now.target }
    requires stands { (row : RowValue) → row_of rows.old.items named.now.directory ≡ Option.Some row
        → StandsRight (P.region memory.old) tables.now.layout free.old row × CanName (P.region memory.old) tables.now.layout cpu row.inode row }
    requires file_stands { (file : RowValue) → row_of rows.old.items named.now.target ≡ Option.Some file
        → StandsRight (P.region memory.old) tables.now.layout free.old file × CanName (P.region memory.old) tables.now.layout cpu file.inode file }
    requires can { (row file : RowValue) → row_of rows.old.items named.now.directory ≡ Option.Some row → row_of rows.old.items named.now.target ≡ Option.Some file
        → CanName (P.region memory.old) tables.now.layout cpu file.inode row × (row.inode ≢ file.inode) }
    requires owns { (file : RowValue) → row_of rows.old.items named.now.target ≡ Option.Some file → OwnsBlocks free.old file }
    requires name { IsName named.now.name.now }
    ensures released { OnOk result (Releases (P.region memory.old) (P.region memory.new) tables.now.layout free.old free.new cpu rows.old.items rows.new.items
        (place_in rows.old.items named.now.directory)
        (place_in rows.old.items named.now.target) named.now.name.now time) }
    ensures enough { (row file : RowValue) → row_of rows.old.items named.now.directory ≡ Option.Some row → row_of rows.old.items named.now.target ≡ Option.Some file
        → OnOk result (release_blocks row file named.now.name.now time ≤ all_blocks free.old.pools) }
    ensures kept { KeepsRows P.region P.may_hold P.fuse memory.old memory.new free.old free.new rows.old rows.new result }
    ensures refused { (row file : RowValue) → row_of rows.old.items named.now.directory ≡ Option.Some row → row_of rows.old.items named.now.target ≡ Option.Some file
        → IfErr result (λ e. RefusesStep e (release_blocks row file named.now.name.now time) free.old) }
    // Every word outside these places is as it was.
    ensures wrote { (row file : RowValue) (held : Store) (h f : Held) → row_of rows.old.items named.now.directory ≡ Option.Some row
        → row_of rows.old.items named.now.target ≡ Option.Some file → ShowsRow (P.region memory.old) tables.now.layout held h row free.old
        → ShowsRow (P.region memory.old) tables.now.layout held f file free.old → 1 < file.numbers.links
        → StoresIn tables.now.layout held (two_logs tables.now.layout cpu row.inode file.inode) (P.region memory.old) (P.region memory.new) }
    ensures last_wrote { (row file : RowValue) (held : Store) (h f : Held) → row_of rows.old.items named.now.directory ≡ Option.Some row
        → row_of rows.old.items named.now.target ≡ Option.Some file → ShowsRow (P.region memory.old) tables.now.layout held h row free.old
        → ShowsRow (P.region memory.old) tables.now.layout held f file free.old → file.numbers.links ≤ 1
        → StoresIn tables.now.layout held (one_less tables.now.layout cpu row.inode file.inode) (P.region memory.old) (P.region memory.new) }
    // The directory's tail is stored first.
    ensures in_order { (row file : RowValue) (held : Store) (h f : Held) → row_of rows.old.items named.now.directory ≡ Option.Some row
        → row_of rows.old.items named.now.target ≡ Option.Some file → ShowsRow (P.region memory.old) tables.now.layout held h row free.old
        → ShowsRow (P.region memory.old) tables.now.layout held f file free.old → 1 < file.numbers.links
        → TailIsFirst (P.region memory.old) (P.region memory.new) tables.now.layout free.old.pools cpu row.inode row.tail
        (name_entries Remove file.inode named.now.name.now time) (tail_address tables.now.layout
        file.inode) }
    ensures last_in_order { (row file : RowValue) (held : Store) (h f : Held) → row_of rows.old.items named.now.directory ≡ Option.Some row
        → row_of rows.old.items named.now.target ≡ Option.Some file → ShowsRow (P.region memory.old) tables.now.layout held h row free.old
        → ShowsRow (P.region memory.old) tables.now.layout held f file free.old → file.numbers.links ≤ 1
        → TailIsFirst (P.region memory.old) (P.region memory.new) tables.now.layout free.old.pools cpu row.inode row.tail
        (name_entries Remove file.inode named.now.name.now time) (slot_in tables.now.layout
        file.inode) }
    // Whatever a stop leaves: recovery finds what is held, or it without the name and the link or the file, without faults.
    ensures any_stop { (row file : RowValue) (held : Store) (h f : Held) → row_of rows.old.items named.now.directory ≡ Option.Some row
        → row_of rows.old.items named.now.target ≡ Option.Some file → ShowsRow (P.region memory.old) tables.now.layout held h row free.old
        → ShowsRow (P.region memory.old) tables.now.layout held f file free.old → NothingPending (P.region memory.old) (P.may_hold memory.old)
        → LeavesOnly (P.region memory.new) (P.may_hold memory.new) (LeavesEither (P.region memory.old) tables.now.layout held
        (Released (P.region memory.old) tables.now.layout free.old cpu row file named.now.name.now time)) }
{
    if has_more_links(rows.row(named.target)) {
        unlink_at(alloc, memory, tables, free, cpu, rows, named, time)
    } else {
        remove_named(alloc, memory, tables, free, cpu, rows, named, time)
    }
}

impl<P: Pmem + Drop> Fs<P> {
    /// Takes a name of a file away, and with the last one the file.
    ///
    /// Errors, the first that applies:
    /// - `Stopped` after a stop
    /// - `BadCpu` where there is no CPU of that number
    /// - `ReadOnly` where the region was mounted with faults
    /// - `BadName` where the text is no path or `/`
    /// - `NotFound` or `NotDirectory` for an inode on the way
    /// - `NotFound` for the last name
    /// - `IsDirectory` for a directory
    /// - `NoSpace` where fewer blocks are free than the logs need
    ///
    /// Besides these `Memory` where a growth was refused, and `Stopped` where the fuse burns. All but `Stopped` leave
    /// everything as it was.
    pub fn unlink(&mut self, cpu: Cpu, path: &[u8], time: Time) -> Result<(), Refusal>
        ensures allowed { (p : Path) → Says path.now p
            → OnOk result (first_refusal (unlink_tests (world_of self.old) (shown P.region self.old) cpu p (unlink_blocks self.old.rows (shown P.region self.old) p)) ≡ Option.None) }
        ensures refused { self.old.stopped ≡ false → (p : Path) → Says path.now p
            → IfErr result (IsRefusedBy (first_refusal (unlink_tests (world_of self.old) (shown P.region self.old) cpu p (unlink_blocks self.old.rows (shown P.region self.old) p)))) }
        ensures changed { (names : List (List ℕ)) → IsPath path.now names
            → OnOk result (SameTree (shown P.region self.new) (unlinked names time (shown P.region self.old))) }
        // Where there are more links, the log of the directory and that of the file have one entry more.
        ensures log { (names : List (List ℕ)) (i d : ℕ) (node : Node) (held : Store) (h f : Held) → IsPath path.now names → LeadsTo (shown P.region self.old) names i node
            → walk (shown P.region self.old) 1 names ≡ Result.Ok d
            → ShowsSound (P.region self.old.memory) self.old.layout held → held d ≡ Option.Some h → held i ≡ Option.Some f → 1 < node.links
            → OnOk result (ShowsBothGrew (P.region self.new.memory) self.old.layout self.old.free.pools cpu held d h (name_entries Remove i (last_name names) time) i f
            (links_entries (node.links - 1) time)) }
        // With its last name the file goes too. In both cases no other log has changed.
        ensures last { (names : List (List ℕ)) (i d : ℕ) (node : Node) (held : Store) (h : Held) → IsPath path.now names → LeadsTo (shown P.region self.old) names i node
            → walk (shown P.region self.old) 1 names ≡ Result.Ok d
            → ShowsSound (P.region self.old.memory) self.old.layout held → held d ≡ Option.Some h → node.links ≤ 1
            → OnOk result (ShowsRemoved (P.region self.new.memory) self.old.layout self.old.free.pools cpu held d h (name_entries Remove i (last_name names) time) i) }
        // What every call that writes keeps.
        ensures call { SettlesCall P.region P.may_hold P.fuse (IsNoPath path.now) self.old self.new result }
        // Where it stores, and in which order.
        ensures stores { UnlinkStores P.region self.old self.new cpu path.now time result }
        // Whatever a stop leaves, at any exit: recovery finds what was mounted, or what the call makes, without faults.
        ensures any_stop { (names : List (List ℕ)) → IsPath path.now names → self.old.stopped ≡ false → self.old.read_only ≡ false
            → LeavesOnly (P.region self.new.memory) (P.may_hold self.new.memory) (LeavesCall (makes_unlink time) (LogsUnlink cpu time) (P.region self.old.memory) self.old names) }
    {
        self.writable(cpu.0)?;
        let (directory, name) = directory_for(&self.rows, path)?;
        self.unlink_inode(cpu, directory, name, time)
    }

    /// Takes a name of a file out of the directory of this number, and with the last one the file.
    ///
    /// Errors, the first that applies:
    /// - `Stopped` after a stop
    /// - `BadCpu` where there is no CPU of that number
    /// - `ReadOnly` where the region was mounted with faults
    /// - `BadName` where no path can say the name
    /// - `NotFound` where no inode in use has the directory's number, and `NotDirectory` where a file has it
    /// - `NotFound` where no inode in use has the name
    /// - `IsDirectory` for a directory
    /// - `NoSpace` where fewer blocks are free than the logs need
    ///
    /// Besides these `Memory` where a growth was refused, and `Stopped` where the fuse burns. All but `Stopped` leave
    /// everything as it was.
    pub fn unlink_inode(
        &mut self,
        cpu: Cpu,
        directory: u64,
        name: &[u8],
        time: Time,
    ) -> Result<(), Refusal>
        ensures allowed { OnOk result (first_refusal (unlink_inode_tests (world_of self.old) (shown P.region self.old) cpu directory name.now
            (unlink_inode_blocks self.old.rows (shown P.region self.old) directory name.now)) ≡ Option.None) }
        ensures refused { self.old.stopped ≡ false
            → IfErr result (IsRefusedBy (first_refusal (unlink_inode_tests (world_of self.old) (shown P.region self.old) cpu directory name.now
            (unlink_inode_blocks self.old.rows (shown P.region self.old) directory name.now)))) }
        ensures changed { OnOk result (SameTree (shown P.region self.new) (unlinked_in directory name.now time (shown P.region self.old))) }
        // Where there are more links, the log of the directory and that of the file have one entry more. With its last name the file
        // goes too. In both cases no other log has changed.
        ensures log { OnOk result (LogsUnlinkedIn cpu time directory name.now (P.region self.old.memory) self.old (P.region self.new.memory)) }
        // What every call that writes keeps.
        ensures call { KeepsCall P.region P.fuse self.old self.new result }
        ensures settled { OnOk result (NothingPending (P.region self.new.memory) (P.may_hold self.new.memory)) }
        // Where it stores, and in which order.
        ensures stores { UnlinkStoresIn P.region self.old self.new cpu directory name.now time result }
        // Whatever a stop leaves, at any exit: recovery finds what was mounted, or what the call makes, without faults.
        ensures any_stop { self.old.stopped ≡ false → self.old.read_only ≡ false
            → LeavesOnly (P.region self.new.memory) (P.may_hold self.new.memory) (StopLeaves (P.region self.old.memory) self.old.layout self.old.rows self.old.free.pools
            (unlinked_in directory name.now time (shown P.region self.old)) (LogsUnlinkedIn cpu time directory name.now (P.region self.old.memory) self.old)) }
    {
        self.writable(cpu.0)?;
        let target = unlink_in(&self.rows, directory, name)?;
        let named = Named {
            directory,
            name,
            target,
        };
        match release_at(
            self.alloc,
            &mut self.memory,
            &self.tables,
            &mut self.free,
            cpu.0,
            &mut self.rows,
            &named,
            time.0,
        ) {
            Ok(()) => Ok(()),
            Err(refusal) => {
                self.stopped = is_stop(refusal);
                Err(refusal)
            }
        }
    }
}
