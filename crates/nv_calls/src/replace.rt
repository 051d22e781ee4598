//! `replace`: another name for an inode, also one that stands for another inode, which goes or loses a link.

ghost use Rattle.std.specs.Prelude.{◌≡◌, ◌≢◌, ◌<◌, ℕ, List, Option, Result, IsTrue, IfErr, OnOk, false};
ghost use Rattle.std.specs.Option.{option_and_then};
ghost use Rattle.nv_region.specs.Stops.{LeavesOnly, NothingPending};
ghost use Rattle.nv_entry.specs.declared.entry.Operation.TheVariants.{Remove};
ghost use Rattle.nv_names.specs.Names.{IsName, name_at};
ghost use Rattle.nv_scan.specs.declared.piece.Row.{Row as RowValue};
ghost use Rattle.nv_rows.specs.Rows.{IsInUse, place_in, row_of};
ghost use Rattle.nv_mounted.specs.Held.{Held, Store};
ghost use Rattle.nv_commit.specs.Stopped.{LeavesEither};
ghost use Rattle.nv_tree.specs.Path.{IsPath, Says};
ghost use Rattle.nv_tree.specs.Tree.{SameTree, found};
ghost use Rattle.nv_tree.specs.Refusals.{Path, first_refusal, IsRefusedBy};
ghost use Rattle.nv_tree.specs.Replace.{replaced, replace_tests};
ghost use Rattle.nv_steps.specs.Grown.{StandsRight};
ghost use Rattle.nv_steps.specs.InOrder.{TailIsFirst, tail_address};
ghost use Rattle.nv_steps.specs.LessNames.{OwnsBlocks};
ghost use Rattle.nv_steps.specs.NameEntries.{name_entries};
ghost use Rattle.nv_steps.specs.NewNames.{CanName};
ghost use Rattle.nv_steps.specs.Steps.{ShowsRow};
ghost use Rattle.nv_steps.specs.Stores.{StoresIn};
ghost use Rattle.nv_steps.specs.Takes.{take_entries};
ghost use Rattle.nv_calls.specs.AtPlaces.{KeepsRows, LeavesRows};
ghost use Rattle.nv_calls.specs.Effects.{LogsReplace, logs_replace, makes_replace};
ghost use Rattle.nv_calls.specs.Mount.{shown};
ghost use Rattle.nv_calls.specs.ReplaceBlocks.{replace_blocks};
ghost use Rattle.nv_calls.specs.ReplaceCalls.{HandsInOrder, ReplacedAt, ReplacesAt, keeps_others, keeps_others_at, replace_count};
ghost use Rattle.nv_calls.specs.ReplaceStores.{last_word, replace_places};
ghost use Rattle.nv_calls.specs.Same.{SameMount};
ghost use Rattle.nv_calls.specs.Stopped.{LeavesCall};
ghost use Rattle.nv_calls.specs.World.{world_of};
ghost use Rattle.nv_calls.specs.Keeping.{AreNoPaths, SettlesCall};
ghost use Rattle.nv_calls.specs.Storing.{ReplaceStores};
ghost use Rattle.nv_steps.specs.Keeping.{NeedsFree};
ghost use Rattle.nv_inode.specs.Numbers.{has_slot};

use crate::Fs;
use crate::arguments::{Cpu, Time};
use crate::renaming::move_at;
use crate::replacing::replace_within;
use crate::replacing_across::replace_over;
use crate::writing::is_stop;
use nv_alloc::Allocators;
use nv_inode::Tables;
use nv_paths::{Move, replace_for};
use nv_region::Pmem;
use nv_rows::Rows;
use nv_tree::Refusal;
use std::alloc::Global;

/// Gives an inode its new name, which the inode of a number has, if there is one. Where it is the same, nothing changes.
///
/// `NoSpace` where all pools together have too few blocks, `Memory` where a growth was refused; both change nothing.
/// `Stopped` where the fuse has burnt.
fn replace_at<P: Pmem>(
    alloc: Global,
    memory: &mut P,
    tables: &Tables,
    free: &mut Allocators,
    cpu: u64,
    rows: &mut Rows,
    moved: &Move<'_>,
    had: Option<u64>,
    time: u64,
) -> Result<(), Refusal>
    requires cpu { cpu < free.old.sup.cpus }
    requires target { IsInUse rows.old.items moved.now.from.target }
    requires from { IsInUse rows.old.items moved.now.from.directory }
    requires directory { IsInUse rows.old.items moved.now.directory }
    requires there { (i : ℕ) → had ≡ Option.Some i → IsInUse rows.old.items i }
    requires apart { (i : ℕ) → had ≡ Option.Some i → i ≢ moved.now.from.target → (moved.now.from.directory ≢ i) × (moved.now.directory ≢ i) }
    requires stands { (row : RowValue) → row_of rows.old.items moved.now.from.directory ≡ Option.Some row
        → StandsRight (P.region memory.old) tables.now.layout free.old row × CanName (P.region memory.old) tables.now.layout cpu row.inode row }
    requires other_stands { (row : RowValue) → row_of rows.old.items moved.now.directory ≡ Option.Some row
        → StandsRight (P.region memory.old) tables.now.layout free.old row × CanName (P.region memory.old) tables.now.layout cpu row.inode row }
    requires there_stands { (i : ℕ) (row : RowValue) → had ≡ Option.Some i → row_of rows.old.items i ≡ Option.Some row
        → StandsRight (P.region memory.old) tables.now.layout free.old row × CanName (P.region memory.old) tables.now.layout cpu row.inode row }
    requires can { (i : ℕ) (row : RowValue) → had ≡ Option.Some i → row_of rows.old.items moved.now.directory ≡ Option.Some row → CanName (P.region memory.old) tables.now.layout cpu i row }
    requires number { (i : ℕ) → had ≡ Option.Some i → IsTrue (has_slot tables.now.layout i) }
    requires owns { (i : ℕ) (row : RowValue) → had ≡ Option.Some i → row_of rows.old.items i ≡ Option.Some row → OwnsBlocks free.old row }
    requires settled_before { NothingPending (P.region memory.old) (P.may_hold memory.old) }
    requires name { IsName moved.now.from.name.now }
    requires other { IsName moved.now.name.now }
    ensures replaced { OnOk result (ReplacesAt (P.region memory.old) (P.region memory.new) tables.now.layout free.old free.new cpu rows.old.items rows.new.items
        (place_in rows.old.items moved.now.from.directory) (place_in rows.old.items moved.now.from.target) (place_in rows.old.items moved.now.directory)
        had moved.now.from.target moved.now.from.name.now moved.now.name.now time) }
    ensures needs { (from to : RowValue) → row_of rows.old.items moved.now.from.directory ≡ Option.Some from → row_of rows.old.items moved.now.directory ≡ Option.Some to
        → NeedsFree (replace_count (place_in rows.old.items moved.now.from.directory) (place_in rows.old.items moved.now.directory) from to (option_and_then (row_of rows.old.items) had)
        moved.now.from.target moved.now.from.name.now moved.now.name.now time) free.old result }
    ensures kept { KeepsRows P.region P.may_hold P.fuse memory.old memory.new free.old free.new rows.old rows.new result }
    // An inode that has the name already keeps it, and stays as it was.
    ensures same { had ≡ Option.Some moved.now.from.target → IfErr result (λ e. ⊥) × LeavesRows memory.old memory.new free.old free.new rows.old.items rows.new.items }
    // Every word outside these places is as it was.
    ensures wrote { (from to : RowValue) (held : Store) (h k : Held) → row_of rows.old.items moved.now.from.directory ≡ Option.Some from → row_of rows.old.items moved.now.directory ≡ Option.Some to
        → ShowsRow (P.region memory.old) tables.now.layout held h from free.old → ShowsRow (P.region memory.old) tables.now.layout held k to free.old
        → ((i : ℕ) (row : RowValue) → had ≡ Option.Some i → row_of rows.old.items i ≡ Option.Some row → (f : Held) × ShowsRow (P.region memory.old) tables.now.layout held f row free.old)
        → StoresIn tables.now.layout held (replace_places tables.now.layout cpu from.inode to.inode moved.now.from.target had
        (keeps_others_at rows.old.items had)) (P.region memory.old) (P.region memory.new) }
    // Where the new name is free and in another directory, the old one's tail is stored first.
    ensures free_in_order { (from to : RowValue) (held : Store) (h k : Held) → row_of rows.old.items moved.now.from.directory ≡ Option.Some from
        → row_of rows.old.items moved.now.directory ≡ Option.Some to
        → ShowsRow (P.region memory.old) tables.now.layout held h from free.old → ShowsRow (P.region memory.old) tables.now.layout held k to free.old
        → had ≡ Option.None → moved.now.from.directory ≢ moved.now.directory
        → TailIsFirst (P.region memory.old) (P.region memory.new) tables.now.layout free.old.pools cpu from.inode from.tail (name_entries Remove moved.now.from.target moved.now.from.name.now time)
        (tail_address tables.now.layout to.inode) }
    // Where another inode of the directory has it, the directory's tail is stored first, and then a word of that inode.
    ensures within_in_order { (row file : RowValue) (i : ℕ) (held : Store) (h f : Held) → row_of rows.old.items moved.now.directory ≡ Option.Some row → row_of rows.old.items i ≡ Option.Some file
        → ShowsRow (P.region memory.old) tables.now.layout held h row free.old → ShowsRow (P.region memory.old) tables.now.layout held f file free.old
        → had ≡ Option.Some i → i ≢ moved.now.from.target → moved.now.from.directory ≡ moved.now.directory
        → TailIsFirst (P.region memory.old) (P.region memory.new) tables.now.layout free.old.pools cpu row.inode row.tail
        (take_entries moved.now.from.target i moved.now.from.name.now moved.now.name.now time)
        (last_word tables.now.layout i (keeps_others file)) }
    // Where another inode has it in another directory, both tails are stored before such a word, that of the old one first.
    ensures in_order { (from to file : RowValue) (i : ℕ) (held : Store) (h k f : Held) → row_of rows.old.items moved.now.from.directory ≡ Option.Some from
        → row_of rows.old.items moved.now.directory ≡ Option.Some to → row_of rows.old.items i ≡ Option.Some file
        → ShowsRow (P.region memory.old) tables.now.layout held h from free.old → ShowsRow (P.region memory.old) tables.now.layout held k to free.old
        → ShowsRow (P.region memory.old) tables.now.layout held f file free.old → had ≡ Option.Some i → i ≢ moved.now.from.target → moved.now.from.directory ≢ moved.now.directory
        → HandsInOrder (P.region memory.old) (P.region memory.new) tables.now.layout free.old cpu from to moved.now.from.target i moved.now.from.name.now moved.now.name.now time
        (last_word tables.now.layout i (keeps_others file)) }
    // Whatever a stop leaves: nothing is wrong with the journals, and recovery finds what is held, or it with the name given.
    ensures any_stop { (from to : RowValue) (held : Store) (h k : Held) → row_of rows.old.items moved.now.from.directory ≡ Option.Some from → row_of rows.old.items moved.now.directory ≡ Option.Some to
        → ShowsRow (P.region memory.old) tables.now.layout held h from free.old → ShowsRow (P.region memory.old) tables.now.layout held k to free.old
        → (had ≡ Option.None → name_at to.names moved.now.name.now ≡ Option.None)
        → ((i : ℕ) (row : RowValue) → had ≡ Option.Some i → row_of rows.old.items i ≡ Option.Some row → (f : Held) × ShowsRow (P.region memory.old) tables.now.layout held f row free.old)
        → LeavesOnly (P.region memory.new) (P.may_hold memory.new) (LeavesEither (P.region memory.old) tables.now.layout held
        (ReplacedAt (P.region memory.old) tables.now.layout free.old cpu (place_in rows.old.items moved.now.from.directory)
        (place_in rows.old.items moved.now.directory) from to (option_and_then (row_of
        rows.old.items) had) moved.now.from.target moved.now.from.name.now moved.now.name.now time)) }
{
    let Some(there) = had else {
        return move_at(alloc, memory, tables, free, cpu, rows, moved, time);
    };
    if there == moved.from.target {
        return Ok(());
    }
    if moved.from.directory != moved.directory {
        return replace_over(alloc, memory, tables, free, cpu, rows, moved, there, time);
    }
    replace_within(alloc, memory, tables, free, cpu, rows, moved, there, time)
}

impl<P: Pmem + Drop> Fs<P> {
    /// Gives the inode that the first path leads to the name that the second path says, in place of its old one, and in place of
    /// another inode that has it: that one goes where it is a directory or has no further name, and else loses a link. Where both
    /// paths lead to one inode, nothing changes.
    ///
    /// Errors, the first that applies:
    /// - `Stopped` after a stop
    /// - `BadCpu` where there is no CPU of that number
    /// - `ReadOnly` where the region was mounted with faults
    /// - `BadName` where a text is no path or `/`
    /// - `NotFound` or `NotDirectory` for an inode on the first way and then on the second
    /// - `NotFound` where the first path leads to no inode
    /// - `IntoItself` where it leads to a directory that the second way passes
    /// - `IsDirectory` where the second leads to a directory, and the first to a file
    /// - `NotDirectory` where the second leads to a file, and the first to a directory
    /// - `NotEmpty` where the second leads to another inode, which has names
    /// - `NoSpace` where fewer blocks are free than the logs need
    ///
    /// Besides these `Memory` where a growth was refused, and `Stopped` where the fuse burns. All but `Stopped` leave
    /// everything as it was.
    pub fn replace(&mut self, cpu: Cpu, old: &[u8], new: &[u8], time: Time) -> Result<(), Refusal>
        ensures allowed { (p q : Path) → Says old.now p → Says new.now q
            → OnOk result (first_refusal (replace_tests (world_of self.old) (shown P.region self.old) cpu p q (replace_blocks self.old.rows (shown P.region self.old) p q)) ≡ Option.None) }
        ensures refused { self.old.stopped ≡ false → (p q : Path) → Says old.now p → Says new.now q
            → IfErr result (IsRefusedBy (first_refusal (replace_tests (world_of self.old) (shown P.region self.old) cpu p q (replace_blocks self.old.rows (shown P.region self.old) p q)))) }
        ensures changed { (names others : List (List ℕ)) → IsPath old.now names → IsPath new.now others
            → OnOk result (SameTree (shown P.region self.new) (replaced names others time (shown P.region self.old))) }
        // Each log is as before but for the entries of the call; the inode that had the new name has a link less, or is gone.
        ensures log { (names others : List (List ℕ)) → IsPath old.now names → IsPath new.now others
            → OnOk result (LogsReplace cpu time others (P.region self.old.memory) self.old names (P.region self.new.memory)) }
        // Where both paths lead to one inode, all stays as it was.
        ensures one { (names others : List (List ℕ)) (i : ℕ) → IsPath old.now names → IsPath new.now others → found (shown P.region self.old) names ≡ Option.Some i
            → found (shown P.region self.old) others ≡ Option.Some i → SameMount self.old self.new }
        // What every call that writes keeps.
        ensures call { SettlesCall P.region P.may_hold P.fuse (AreNoPaths old.now new.now) self.old self.new result }
        // Where it stores, and in which order.
        ensures stores { ReplaceStores P.region self.old self.new cpu old.now new.now time result }
        // Whatever a stop leaves, at any exit: recovery finds what was mounted, or what the call makes, without faults.
        ensures any_stop { (names others : List (List ℕ)) → IsPath old.now names → IsPath new.now others → self.old.stopped ≡ false → self.old.read_only ≡ false
            → LeavesOnly (P.region self.new.memory) (P.may_hold self.new.memory) (LeavesCall (makes_replace time (Option.Some others)) (logs_replace cpu time (Option.Some others))
            (P.region self.old.memory) self.old names) }
    {
        self.writable(cpu.0)?;
        let planned = replace_for(&self.rows, old, new)?;
        match replace_at(
            self.alloc,
            &mut self.memory,
            &self.tables,
            &mut self.free,
            cpu.0,
            &mut self.rows,
            &planned.moved,
            planned.there,
            time.0,
        ) {
            Ok(()) => Ok(()),
            Err(refusal) => {
                self.stopped = is_stop(refusal);
                Err(refusal)
            }
        }
    }
}
