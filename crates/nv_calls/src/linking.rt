//! `link`: one more name of a file.

ghost use Rattle.std.specs.Prelude.{◌≡◌, ◌≢◌, ◌+◌, ◌%◌, ◌<◌, ◌≤◌, ℕ, List, Option, Result, IfErr, OnOk, false};
ghost use Rattle.nv_region.specs.Stops.{LeavesOnly, NothingPending};
ghost use Rattle.nv_alloc.specs.Taking.{all_blocks};
ghost use Rattle.nv_entry.specs.declared.entry.Operation.TheVariants.{Add};
ghost use Rattle.nv_logpage.specs.Append.{needed};
ghost use Rattle.nv_names.specs.Names.{IsName, name_at};
ghost use Rattle.nv_scan.specs.declared.piece.Row.{Row as RowValue};
ghost use Rattle.nv_rows.specs.Rows.{IsInUse, place_in, row_of};
ghost use Rattle.nv_mounted.specs.Held.{Held, Store};
ghost use Rattle.nv_mounted.specs.Mounted.{ShowsSound};
ghost use Rattle.nv_commit.specs.Stopped.{LeavesEither};
ghost use Rattle.nv_tree.specs.Path.{IsPath, Says, last_name};
ghost use Rattle.nv_tree.specs.Tree.{Node, SameTree, walk};
ghost use Rattle.nv_tree.specs.Calls.{linked};
ghost use Rattle.nv_tree.specs.Refusals.{Path, first_refusal, link_tests, IsRefusedBy};
ghost use Rattle.nv_steps.specs.Grown.{StandsRight};
ghost use Rattle.nv_calls.specs.LinkCalls.{ShowsBothGrew, link_blocks};
ghost use Rattle.nv_steps.specs.NameEntries.{links_entries, name_entries};
ghost use Rattle.nv_steps.specs.MoreNames.{LinksAt};
ghost use Rattle.nv_steps.specs.NewNames.{CanName};
ghost use Rattle.nv_calls.specs.Effects.{logs_link, makes_link};
ghost use Rattle.nv_calls.specs.NamesByNumber.{LinkStoresIn, link_inode_blocks, link_inode_tests, linked_in, logs_linked_in};
ghost use Rattle.nv_calls.specs.Stopped.{LeavesCall, StopLeaves};
ghost use Rattle.nv_steps.specs.Stopped.{Linked};
ghost use Rattle.nv_paths.specs.Seen.{LeadsTo};
ghost use Rattle.nv_steps.specs.Steps.{RefusesStep, ShowsRow};
ghost use Rattle.nv_steps.specs.InOrder.{TailIsFirst, tail_address};
ghost use Rattle.nv_calls.specs.World.{world_of};
ghost use Rattle.nv_steps.specs.Stores.{StoresIn, two_logs};
ghost use Rattle.nv_calls.specs.Mount.{shown};
ghost use Rattle.nv_calls.specs.Keeping.{AreNoPaths, KeepsCall, SettlesCall};
ghost use Rattle.nv_calls.specs.Storing.{LinkStores};
ghost use Rattle.nv_calls.specs.AtPlaces.{KeepsRows};

use crate::Fs;
use crate::arguments::{Cpu, Time};
use crate::writing::is_stop;
use nv_alloc::Allocators;
use nv_inode::Tables;
use nv_paths::{Named, link_for, link_in};
use nv_region::Pmem;
use nv_rows::Rows;
use nv_steps::link_both;
use nv_tree::Refusal;
use std::alloc::Global;

/// Gives a file a name in a directory: its log says one link more, and the directory's log says the name.
///
/// `NoSpace` where all pools together have too few blocks, `Memory` where a growth was refused; both change nothing.
/// `Stopped` where the fuse has burnt.
fn link_at<P: Pmem>(
    alloc: Global,
    memory: &mut P,
    tables: &Tables,
    free: &mut Allocators,
    cpu: u64,
    rows: &mut Rows,
    named: &Named<'_>,
    time: u64,
) -> Result<(), Refusal>
    requires target { IsInUse rows.old.items named.now.target }
    requires directory { IsInUse rows.old.items named.now.directory }
    requires apart { named.now.target ≢ named.now.directory }
    requires few { (row : RowValue) → row_of rows.old.items named.now.target ≡ Option.Some row → row.numbers.links < 1000 }
    requires stands { (row : RowValue) → row_of rows.old.items named.now.target ≡ Option.Some row → StandsRight (P.region memory.old) tables.now.layout free.old row
        × CanName (P.region memory.old) tables.now.layout cpu row.inode row }
    requires directory_stands { (directory : RowValue) → row_of rows.old.items named.now.directory ≡ Option.Some directory
        → StandsRight (P.region memory.old) tables.now.layout free.old directory × CanName (P.region memory.old) tables.now.layout cpu directory.inode directory }
    requires name { IsName named.now.name.now }
    ensures linked { OnOk result (LinksAt (P.region memory.old) (P.region memory.new) tables.now.layout free.old free.new cpu rows.old.items rows.new.items (place_in rows.old.items named.now.target)
        (place_in rows.old.items named.now.directory) named.now.name.now time) }
    ensures enough { (row directory : RowValue) → row_of rows.old.items named.now.target ≡ Option.Some row → row_of rows.old.items named.now.directory ≡ Option.Some directory
        → OnOk result (needed (row.tail % 4096) (links_entries (row.numbers.links + 1) time)
        + needed (directory.tail % 4096) (name_entries Add row.inode named.now.name.now time) ≤ all_blocks free.old.pools) }
    ensures kept { KeepsRows P.region P.may_hold P.fuse memory.old memory.new free.old free.new rows.old rows.new result }
    ensures refused { (row directory : RowValue) → row_of rows.old.items named.now.target ≡ Option.Some row → row_of rows.old.items named.now.directory ≡ Option.Some directory
        → IfErr result (λ e. RefusesStep e (needed (row.tail % 4096) (links_entries (row.numbers.links + 1) time) + needed (directory.tail % 4096) (name_entries Add row.inode named.now.name.now time))
        free.old) }
    // Every word outside these places is as it was.
    ensures wrote { (file directory : RowValue) (held : Store) (f h : Held) → row_of rows.old.items named.now.target ≡ Option.Some file
        → row_of rows.old.items named.now.directory ≡ Option.Some directory → ShowsRow (P.region memory.old) tables.now.layout held f file free.old
        → ShowsRow (P.region memory.old) tables.now.layout held h directory free.old
        → StoresIn tables.now.layout held (two_logs tables.now.layout cpu file.inode directory.inode) (P.region memory.old) (P.region memory.new) }
    // The file's tail is stored first.
    ensures in_order { (file directory : RowValue) (held : Store) (f h : Held) → row_of rows.old.items named.now.target ≡ Option.Some file
        → row_of rows.old.items named.now.directory ≡ Option.Some directory → ShowsRow (P.region memory.old) tables.now.layout held f file free.old
        → ShowsRow (P.region memory.old) tables.now.layout held h directory free.old
        → TailIsFirst (P.region memory.old) (P.region memory.new) tables.now.layout free.old.pools cpu file.inode file.tail
        (links_entries (file.numbers.links + 1) time) (tail_address tables.now.layout directory.inode) }
    // Whatever a stop leaves: recovery finds what is held, or it with the link and the name, without faults.
    ensures any_stop { (file directory : RowValue) (held : Store) (f h : Held) → row_of rows.old.items named.now.target ≡ Option.Some file
        → row_of rows.old.items named.now.directory ≡ Option.Some directory → ShowsRow (P.region memory.old) tables.now.layout held f file free.old
        → ShowsRow (P.region memory.old) tables.now.layout held h directory free.old
        → name_at directory.names named.now.name.now ≡ Option.None → NothingPending (P.region memory.old) (P.may_hold memory.old)
        → LeavesOnly (P.region memory.new) (P.may_hold memory.new) (LeavesEither (P.region memory.old) tables.now.layout held
        (Linked (P.region memory.old) tables.now.layout free.old cpu file directory named.now.name.now time)) }
{
    let mut file = rows.lend(alloc, named.target);
    let mut directory = rows.lend(alloc, named.directory);
    let done = link_both(
        alloc,
        memory,
        tables,
        free,
        cpu,
        &mut file,
        &mut directory,
        named.name,
        time,
    );
    rows.give_back(directory);
    rows.give_back(file);
    done
}

impl<P: Pmem + Drop> Fs<P> {
    /// Gives the file that the first path leads to one name more, which the second path says.
    ///
    /// Errors, the first that applies:
    /// - `Stopped` after a stop
    /// - `BadCpu` where there is no CPU of that number
    /// - `ReadOnly` where the region was mounted with faults
    /// - `BadName` where the first text is no path or the second no path or `/`
    /// - `NotFound` or `NotDirectory` for an inode on the first way and then on the second
    /// - `NotFound` where the first path leads to no inode
    /// - `IsDirectory` where it leads to a directory
    /// - `Exists` where the second leads to an inode
    /// - `LinkLimit` where the file has 1,000 links
    /// - `NoSpace` where fewer blocks are free than both logs need
    ///
    /// Besides these `Memory` where a growth was refused, and `Stopped` where the fuse burns. All but `Stopped` leave
    /// everything as it was.
    pub fn link(&mut self, cpu: Cpu, old: &[u8], new: &[u8], time: Time) -> Result<(), Refusal>
        ensures allowed { (p q : Path) → Says old.now p → Says new.now q
            → OnOk result (first_refusal (link_tests (world_of self.old) (shown P.region self.old) cpu p q (link_blocks self.old.rows (shown P.region self.old) p q)) ≡ Option.None) }
        ensures refused { self.old.stopped ≡ false → (p q : Path) → Says old.now p → Says new.now q
            → IfErr result (IsRefusedBy (first_refusal (link_tests (world_of self.old) (shown P.region self.old) cpu p q (link_blocks self.old.rows (shown P.region self.old) p q)))) }
        ensures changed { (names others : List (List ℕ)) → IsPath old.now names → IsPath new.now others
            → OnOk result (SameTree (shown P.region self.new) (linked names others time (shown P.region self.old))) }
        // The log of the file and that of the directory have one entry more, and no other log has changed.
        ensures log { (names others : List (List ℕ)) (i d : ℕ) (node : Node) (held : Store) (f h : Held) → IsPath old.now names → IsPath new.now others
            → LeadsTo (shown P.region self.old) names i node → walk (shown P.region self.old) 1 others ≡ Result.Ok d
            → ShowsSound (P.region self.old.memory) self.old.layout held → held i ≡ Option.Some f → held d ≡ Option.Some h
            → OnOk result (ShowsBothGrew (P.region self.new.memory) self.old.layout self.old.free.pools cpu held i f (links_entries (node.links + 1) time) d h
            (name_entries Add i (last_name others) time)) }
        // What every call that writes keeps.
        ensures call { SettlesCall P.region P.may_hold P.fuse (AreNoPaths old.now new.now) self.old self.new result }
        // Where it stores, and in which order.
        ensures stores { LinkStores P.region self.old self.new cpu old.now new.now time result }
        // Whatever a stop leaves, at any exit: recovery finds what was mounted, or what the call makes, without faults.
        ensures any_stop { (names others : List (List ℕ)) → IsPath old.now names → IsPath new.now others → self.old.stopped ≡ false → self.old.read_only ≡ false
            → LeavesOnly (P.region self.new.memory) (P.may_hold self.new.memory) (LeavesCall (makes_link time (Option.Some others)) (logs_link cpu time (Option.Some others))
            (P.region self.old.memory) self.old names) }
    {
        self.writable(cpu.0)?;
        let named = link_for(&self.rows, old, new)?;
        self.link_inode(cpu, named.target, named.directory, named.name, time)
    }

    /// Gives the file of this number one name more, in the directory of this number.
    ///
    /// Errors, the first that applies:
    /// - `Stopped` after a stop
    /// - `BadCpu` where there is no CPU of that number
    /// - `ReadOnly` where the region was mounted with faults
    /// - `BadName` where no path can say the name
    /// - `NotFound` where no inode in use has the directory's number, and `NotDirectory` where a file has it
    /// - `NotFound` where no inode in use has the file's number, and `IsDirectory` where a directory has it
    /// - `Exists` where an inode in use has the name
    /// - `LinkLimit` where the file has 1,000 links
    /// - `NoSpace` where fewer blocks are free than both logs need
    ///
    /// Besides these `Memory` where a growth was refused, and `Stopped` where the fuse burns. All but `Stopped` leave
    /// everything as it was.
    pub fn link_inode(
        &mut self,
        cpu: Cpu,
        inode: u64,
        directory: u64,
        name: &[u8],
        time: Time,
    ) -> Result<(), Refusal>
        ensures allowed { OnOk result (first_refusal (link_inode_tests (world_of self.old) (shown P.region self.old) cpu inode directory name.now
            (link_inode_blocks self.old.rows inode directory name.now)) ≡ Option.None) }
        ensures refused { self.old.stopped ≡ false
            → IfErr result (IsRefusedBy (first_refusal (link_inode_tests (world_of self.old) (shown P.region self.old) cpu inode directory name.now
            (link_inode_blocks self.old.rows inode directory name.now)))) }
        ensures changed { OnOk result (SameTree (shown P.region self.new) (linked_in inode directory name.now time (shown P.region self.old))) }
        // The log of the file and that of the directory have one entry more, and no other log has changed.
        ensures log { OnOk result (logs_linked_in cpu time inode directory name.now (P.region self.old.memory) self.old (P.region self.new.memory)) }
        // What every call that writes keeps.
        ensures call { KeepsCall P.region P.fuse self.old self.new result }
        ensures settled { OnOk result (NothingPending (P.region self.new.memory) (P.may_hold self.new.memory)) }
        // Where it stores, and in which order.
        ensures stores { LinkStoresIn P.region self.old self.new cpu inode directory time result }
        // Whatever a stop leaves, at any exit: recovery finds what was mounted, or what the call makes, without faults.
        ensures any_stop { self.old.stopped ≡ false → self.old.read_only ≡ false
            → LeavesOnly (P.region self.new.memory) (P.may_hold self.new.memory) (StopLeaves (P.region self.old.memory) self.old.layout self.old.rows self.old.free.pools
            (linked_in inode directory name.now time (shown P.region self.old)) (logs_linked_in cpu time inode directory name.now (P.region self.old.memory) self.old)) }
    {
        self.writable(cpu.0)?;
        link_in(&self.rows, inode, directory, name)?;
        let named = Named {
            directory,
            name,
            target: inode,
        };
        match link_at(
            self.alloc,
            &mut self.memory,
            &self.tables,
            &mut self.free,
            cpu.0,
            &mut self.rows,
            &named,
            time.0,
        ) {
            Ok(()) => Ok(()),
            Err(refusal) => {
                self.stopped = is_stop(refusal);
                Err(refusal)
            }
        }
    }
}
