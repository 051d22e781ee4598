//! `rename`: another name for an inode.

ghost use Rattle.std.specs.Prelude.{◌≡◌, ◌≢◌, ◌+◌, ◌%◌, ◌<◌, ◌≤◌, ℕ, List, Option, Result, IfErr, OnOk, false};
ghost use Rattle.nv_region.specs.Stops.{LeavesOnly, NothingPending};
ghost use Rattle.nv_alloc.specs.Taking.{all_blocks};
ghost use Rattle.nv_entry.specs.declared.entry.Operation.TheVariants.{Add, Remove};
ghost use Rattle.nv_logpage.specs.Append.{needed};
ghost use Rattle.nv_names.specs.Names.{IsName, name_at};
ghost use Rattle.nv_scan.specs.declared.piece.Row.{Row as RowValue};
ghost use Rattle.nv_rows.specs.Rows.{IsInUse, place_in, row_of};
ghost use Rattle.nv_mounted.specs.Held.{Held, Store};
ghost use Rattle.nv_mounted.specs.Mounted.{ShowsSound};
ghost use Rattle.nv_commit.specs.Stopped.{LeavesEither};
ghost use Rattle.nv_tree.specs.Path.{IsPath, Says, last_name};
ghost use Rattle.nv_tree.specs.Tree.{Node, SameTree, walk};
ghost use Rattle.nv_tree.specs.Calls.{renamed};
ghost use Rattle.nv_tree.specs.Refusals.{Path, first_refusal, rename_tests, IsRefusedBy};
ghost use Rattle.nv_steps.specs.Grown.{StandsRight};
ghost use Rattle.nv_calls.specs.CanChange.{CanMoveAcross};
ghost use Rattle.nv_calls.specs.GrownLogs.{ShowsGrownLog};
ghost use Rattle.nv_calls.specs.LinkCalls.{ShowsBothGrew};
ghost use Rattle.nv_calls.specs.MoveCalls.{MovesAcross, MovesAt, move_blocks, rename_blocks};
ghost use Rattle.nv_steps.specs.Moves.{move_entries};
ghost use Rattle.nv_steps.specs.NameEntries.{name_entries};
ghost use Rattle.nv_steps.specs.NewNames.{CanName};
ghost use Rattle.nv_calls.specs.Effects.{logs_rename, makes_rename};
ghost use Rattle.nv_calls.specs.Stopped.{LeavesCall, Renamed};
ghost use Rattle.nv_steps.specs.Stopped.{MovedOver};
ghost use Rattle.nv_paths.specs.Seen.{LeadsTo};
ghost use Rattle.nv_steps.specs.Steps.{RefusesStep, ShowsRow};
ghost use Rattle.nv_steps.specs.InOrder.{TailIsFirst, tail_address};
ghost use Rattle.nv_calls.specs.World.{world_of};
ghost use Rattle.nv_steps.specs.Stores.{StoresIn, one_log, two_logs};
ghost use Rattle.nv_calls.specs.Mount.{shown};
ghost use Rattle.nv_calls.specs.Keeping.{AreNoPaths, SettlesCall};
ghost use Rattle.nv_calls.specs.Storing.{RenameStores};
ghost use Rattle.nv_calls.specs.AtPlaces.{KeepsRows};

use crate::Fs;
use crate::arguments::{Cpu, Time};
use crate::writing::is_stop;
use nv_alloc::Allocators;
use nv_inode::Tables;
use nv_paths::{Move, rename_for};
use nv_region::Pmem;
use nv_rows::Rows;
use nv_steps::{OtherName, move_both, move_within};
use nv_tree::Refusal;
use std::alloc::Global;

/// Takes a name out of one directory and puts one in another for the same inode, by both logs together.
///
/// `NoSpace` where all pools together have too few blocks, `Memory` where a growth was refused; both change nothing.
/// `Stopped` where the fuse has burnt.
fn move_across<P: Pmem>(
    alloc: Global,
    memory: &mut P,
    tables: &Tables,
    free: &mut Allocators,
    cpu: u64,
    rows: &mut Rows,
    moved: &Move<'_>,
    time: u64,
) -> Result<(), Refusal>
    requires { CanMoveAcross (P.region memory.old) tables.now.layout free.old cpu rows.old.items moved.now.from.target moved.now.from.directory moved.now.directory moved.now.from.name.now moved.now.name.now }
    ensures moved { OnOk result (MovesAcross (P.region memory.old) (P.region memory.new) tables.now.layout free.old free.new cpu rows.old.items rows.new.items
        (place_in rows.old.items moved.now.from.directory)
        (place_in rows.old.items moved.now.from.target) (place_in rows.old.items moved.now.directory) moved.now.from.name.now moved.now.name.now time) }
    ensures enough { (from to inode : RowValue) → row_of rows.old.items moved.now.from.directory ≡ Option.Some from → row_of rows.old.items moved.now.directory ≡ Option.Some to
        → row_of rows.old.items moved.now.from.target ≡ Option.Some inode
        → OnOk result (needed (from.tail % 4096) (name_entries Remove inode.inode moved.now.from.name.now time)
        + needed (to.tail % 4096) (name_entries Add inode.inode moved.now.name.now time) ≤ all_blocks free.old.pools) }
    ensures kept { KeepsRows P.region P.may_hold P.fuse memory.old memory.new free.old free.new rows.old rows.new result }
    ensures refused { (from to inode : RowValue) → row_of rows.old.items moved.now.from.directory ≡ Option.Some from → row_of rows.old.items moved.now.directory ≡ Option.Some to
        → row_of rows.old.items moved.now.from.target ≡ Option.Some inode
        → IfErr result (λ e. RefusesStep e (needed (from.tail % 4096) (name_entries Remove inode.inode moved.now.from.name.now time)
        + needed (to.tail % 4096) (name_entries Add inode.inode moved.now.name.now time)) free.old) }
    // Every word outside these places is as it was.
    ensures wrote { (from to inode : RowValue) (held : Store) (h k : Held) → row_of rows.old.items moved.now.from.directory ≡ Option.Some from
        → row_of rows.old.items moved.now.directory ≡ Option.Some to → row_of rows.old.items moved.now.from.target ≡ Option.Some inode
        → ShowsRow (P.region memory.old) tables.now.layout held h from free.old → ShowsRow (P.region memory.old) tables.now.layout held k to free.old
        → StoresIn tables.now.layout held (two_logs tables.now.layout cpu from.inode to.inode) (P.region memory.old) (P.region memory.new) }
    // The old directory's tail is stored first.
    ensures in_order { (from to inode : RowValue) (held : Store) (h k : Held) → row_of rows.old.items moved.now.from.directory ≡ Option.Some from
        → row_of rows.old.items moved.now.directory ≡ Option.Some to → row_of rows.old.items moved.now.from.target ≡ Option.Some inode
        → ShowsRow (P.region memory.old) tables.now.layout held h from free.old → ShowsRow (P.region memory.old) tables.now.layout held k to free.old
        → TailIsFirst (P.region memory.old) (P.region memory.new) tables.now.layout free.old.pools cpu from.inode from.tail
        (name_entries Remove inode.inode moved.now.from.name.now time) (tail_address tables.now.layout
        to.inode) }
    // Whatever a stop leaves: recovery finds what is held, or it with the other name, without faults.
    ensures any_stop { (from to inode : RowValue) (held : Store) (h k : Held) → row_of rows.old.items moved.now.from.directory ≡ Option.Some from
        → row_of rows.old.items moved.now.directory ≡ Option.Some to → row_of rows.old.items moved.now.from.target ≡ Option.Some inode
        → ShowsRow (P.region memory.old) tables.now.layout held h from free.old → ShowsRow (P.region memory.old) tables.now.layout held k to free.old
        → name_at to.names moved.now.name.now ≡ Option.None
        → NothingPending (P.region memory.old) (P.may_hold memory.old)
        → LeavesOnly (P.region memory.new) (P.may_hold memory.new) (LeavesEither (P.region memory.old) tables.now.layout held
        (MovedOver (P.region memory.old) tables.now.layout free.old cpu from to inode.inode moved.now.from.name.now moved.now.name.now time)) }
{
    let mut from = rows.lend(alloc, moved.from.directory);
    let mut to = rows.lend(alloc, moved.directory);
    let other = other_name(moved, time);
    let done = move_both(alloc, memory, tables, free, cpu, &mut from, &mut to, &other);
    rows.give_back(to);
    rows.give_back(from);
    done
}

/// What the steps of names are told of a move.
pub(crate) fn other_name<'a>(moved: &Move<'a>, time: u64) -> OtherName<'a>
    ensures inode { result.inode ≡ moved.now.from.target }
    ensures name { result.name.now ≡ moved.now.from.name.now }
    ensures other { result.other.now ≡ moved.now.name.now }
    ensures time { result.time ≡ time }
{
    OtherName {
        inode: moved.from.target,
        name: moved.from.name,
        other: moved.name,
        time,
    }
}

/// Gives an inode its new name: within one directory by one log, and else by those of both.
///
/// `NoSpace` where all pools together have too few blocks, `Memory` where a growth was refused; both change nothing.
/// `Stopped` where the fuse has burnt.
pub(crate) fn move_at<P: Pmem>(
    alloc: Global,
    memory: &mut P,
    tables: &Tables,
    free: &mut Allocators,
    cpu: u64,
    rows: &mut Rows,
    moved: &Move<'_>,
    time: u64,
) -> Result<(), Refusal>
    requires cpu { cpu < free.old.sup.cpus }
    requires target { IsInUse rows.old.items moved.now.from.target }
    requires from { IsInUse rows.old.items moved.now.from.directory }
    requires directory { IsInUse rows.old.items moved.now.directory }
    requires stands { (row : RowValue) → row_of rows.old.items moved.now.from.directory ≡ Option.Some row
        → StandsRight (P.region memory.old) tables.now.layout free.old row × CanName (P.region memory.old) tables.now.layout cpu row.inode row }
    requires other_stands { (row : RowValue) → row_of rows.old.items moved.now.directory ≡ Option.Some row
        → StandsRight (P.region memory.old) tables.now.layout free.old row × CanName (P.region memory.old) tables.now.layout cpu row.inode row }
    requires name { IsName moved.now.from.name.now }
    requires other { IsName moved.now.name.now }
    ensures moved { OnOk result (MovesAt (P.region memory.old) (P.region memory.new) tables.now.layout free.old free.new cpu rows.old.items rows.new.items
        (place_in rows.old.items moved.now.from.directory)
        (place_in rows.old.items moved.now.from.target) (place_in rows.old.items moved.now.directory) moved.now.from.name.now moved.now.name.now time) }
    ensures enough { (from to inode : RowValue) → row_of rows.old.items moved.now.from.directory ≡ Option.Some from → row_of rows.old.items moved.now.directory ≡ Option.Some to
        → row_of rows.old.items moved.now.from.target ≡ Option.Some inode
        → OnOk result (move_blocks (place_in rows.old.items moved.now.from.directory) (place_in rows.old.items moved.now.directory) from to inode.inode moved.now.from.name.now moved.now.name.now
        time ≤ all_blocks free.old.pools) }
    ensures kept { KeepsRows P.region P.may_hold P.fuse memory.old memory.new free.old free.new rows.old rows.new result }
    ensures refused { (from to inode : RowValue) → row_of rows.old.items moved.now.from.directory ≡ Option.Some from → row_of rows.old.items moved.now.directory ≡ Option.Some to
        → row_of rows.old.items moved.now.from.target ≡ Option.Some inode
        → IfErr result (λ e. RefusesStep e (move_blocks (place_in rows.old.items moved.now.from.directory)
        (place_in rows.old.items moved.now.directory) from to inode.inode moved.now.from.name.now moved.now.name.now time) free.old) }
    // Every word outside these places is as it was.
    ensures wrote { (from to inode : RowValue) (held : Store) (h k : Held) → row_of rows.old.items moved.now.from.directory ≡ Option.Some from
        → row_of rows.old.items moved.now.directory ≡ Option.Some to → row_of rows.old.items moved.now.from.target ≡ Option.Some inode
        → ShowsRow (P.region memory.old) tables.now.layout held h from free.old → ShowsRow (P.region memory.old) tables.now.layout held k to free.old
        → place_in rows.old.items moved.now.from.directory ≢ place_in rows.old.items moved.now.directory
        → StoresIn tables.now.layout held (two_logs tables.now.layout cpu from.inode to.inode) (P.region memory.old) (P.region memory.new) }
    // Within one directory these are the places of its log.
    ensures within_wrote { (directory : RowValue) (held : Store) (h : Held) → row_of rows.old.items moved.now.directory ≡ Option.Some directory
        → ShowsRow (P.region memory.old) tables.now.layout held h directory free.old → moved.now.from.directory ≡ moved.now.directory
        → StoresIn tables.now.layout held (one_log tables.now.layout directory.inode) (P.region memory.old) (P.region memory.new) }
    // The old directory's tail is stored first.
    ensures in_order { (from to inode : RowValue) (held : Store) (h k : Held) → row_of rows.old.items moved.now.from.directory ≡ Option.Some from
        → row_of rows.old.items moved.now.directory ≡ Option.Some to → row_of rows.old.items moved.now.from.target ≡ Option.Some inode
        → ShowsRow (P.region memory.old) tables.now.layout held h from free.old → ShowsRow (P.region memory.old) tables.now.layout held k to free.old
        → place_in rows.old.items moved.now.from.directory ≢ place_in rows.old.items moved.now.directory
        → TailIsFirst (P.region memory.old) (P.region memory.new) tables.now.layout free.old.pools cpu from.inode from.tail
        (name_entries Remove inode.inode moved.now.from.name.now time) (tail_address tables.now.layout
        to.inode) }
    // Whatever a stop leaves: recovery finds what is held, or it with the other name, without faults.
    ensures any_stop { (from to inode : RowValue) (held : Store) (h k : Held) → row_of rows.old.items moved.now.from.directory ≡ Option.Some from
        → row_of rows.old.items moved.now.directory ≡ Option.Some to → row_of rows.old.items moved.now.from.target ≡ Option.Some inode
        → ShowsRow (P.region memory.old) tables.now.layout held h from free.old → ShowsRow (P.region memory.old) tables.now.layout held k to free.old
        → name_at to.names moved.now.name.now ≡ Option.None
        → NothingPending (P.region memory.old) (P.may_hold memory.old)
        → LeavesOnly (P.region memory.new) (P.may_hold memory.new) (LeavesEither (P.region memory.old) tables.now.layout held
        (Renamed (P.region memory.old) tables.now.layout free.old cpu (place_in rows.old.items moved.now.from.directory)
        (place_in rows.old.items moved.now.directory) from to inode.inode moved.now.from.name.now moved.now.name.now time)) }
{
    if moved.from.directory != moved.directory {
        return move_across(alloc, memory, tables, free, cpu, rows, moved, time);
    }
    let mut directory = rows.lend(alloc, moved.directory);
    let other = other_name(moved, time);
    let done = move_within(alloc, memory, tables, free, cpu, &mut directory, &other);
    rows.give_back(directory);
    done
}

impl<P: Pmem + Drop> Fs<P> {
    /// Gives the inode that the first path leads to the name that the second path says, in place of its old one.
    ///
    /// Errors, the first that applies:
    /// - `Stopped` after a stop
    /// - `BadCpu` where there is no CPU of that number
    /// - `ReadOnly` where the region was mounted with faults
    /// - `BadName` where a text is no path or `/`
    /// - `NotFound` or `NotDirectory` for an inode on the first way and then on the second
    /// - `NotFound` where the first path leads to no inode
    /// - `IntoItself` where it leads to a directory that the second way passes
    /// - `Exists` where the second leads to an inode
    /// - `NoSpace` where fewer blocks are free than the logs need
    ///
    /// Besides these `Memory` where a growth was refused, and `Stopped` where the fuse burns. All but `Stopped` leave
    /// everything as it was.
    pub fn rename(&mut self, cpu: Cpu, old: &[u8], new: &[u8], time: Time) -> Result<(), Refusal>
        ensures allowed { (p q : Path) → Says old.now p → Says new.now q
            → OnOk result (first_refusal (rename_tests (world_of self.old) (shown P.region self.old) cpu p q (rename_blocks self.old.rows (shown P.region self.old) p q)) ≡ Option.None) }
        ensures refused { self.old.stopped ≡ false → (p q : Path) → Says old.now p → Says new.now q
            → IfErr result (IsRefusedBy (first_refusal (rename_tests (world_of self.old) (shown P.region self.old) cpu p q (rename_blocks self.old.rows (shown P.region self.old) p q)))) }
        ensures changed { (names others : List (List ℕ)) → IsPath old.now names → IsPath new.now others
            → OnOk result (SameTree (shown P.region self.new) (renamed names others time (shown P.region self.old))) }
        // The log of each of two directories has one entry more.
        ensures log { (names others : List (List ℕ)) (i d e : ℕ) (node : Node) (held : Store) (h k : Held) → IsPath old.now names → IsPath new.now others
            → LeadsTo (shown P.region self.old) names i node → walk (shown P.region self.old) 1 names ≡ Result.Ok d → walk (shown P.region self.old) 1 others ≡ Result.Ok e → d ≢ e
            → ShowsSound (P.region self.old.memory) self.old.layout held → held d ≡ Option.Some h → held e ≡ Option.Some k
            → OnOk result (ShowsBothGrew (P.region self.new.memory) self.old.layout self.old.free.pools cpu held d h (name_entries Remove i (last_name names) time) e k
            (name_entries Add i (last_name others) time)) }
        // The log of the only directory has both entries. In both cases no other log has changed.
        ensures within { (names others : List (List ℕ)) (i d : ℕ) (node : Node) (held : Store) (h : Held) → IsPath old.now names → IsPath new.now others
            → LeadsTo (shown P.region self.old) names i node → walk (shown P.region self.old) 1 names ≡ Result.Ok d → walk (shown P.region self.old) 1 others ≡ Result.Ok d
            → ShowsSound (P.region self.old.memory) self.old.layout held → held d ≡ Option.Some h
            → OnOk result (ShowsGrownLog (P.region self.new.memory) self.old.layout self.old.free.pools cpu held d h (move_entries i (last_name names) (last_name others) time)) }
        // What every call that writes keeps.
        ensures call { SettlesCall P.region P.may_hold P.fuse (AreNoPaths old.now new.now) self.old self.new result }
        // Where it stores, and in which order.
        ensures stores { RenameStores P.region self.old self.new cpu old.now new.now time result }
        // Whatever a stop leaves, at any exit: recovery finds what was mounted, or what the call makes, without faults.
        ensures any_stop { (names others : List (List ℕ)) → IsPath old.now names → IsPath new.now others → self.old.stopped ≡ false → self.old.read_only ≡ false
            → LeavesOnly (P.region self.new.memory) (P.may_hold self.new.memory) (LeavesCall (makes_rename time (Option.Some others)) (logs_rename cpu time (Option.Some others))
            (P.region self.old.memory) self.old names) }
    {
        self.writable(cpu.0)?;
        let moved = rename_for(&self.rows, old, new)?;
        match move_at(
            self.alloc,
            &mut self.memory,
            &self.tables,
            &mut self.free,
            cpu.0,
            &mut self.rows,
            &moved,
            time.0,
        ) {
            Ok(()) => Ok(()),
            Err(refusal) => {
                self.stopped = is_stop(refusal);
                Err(refusal)
            }
        }
    }
}
