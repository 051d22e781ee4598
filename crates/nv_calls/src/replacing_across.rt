//! `replace` from one directory to another: a name of one inode that is given to another, by the logs of both.

ghost use Rattle.std.specs.Prelude.{◌≡◌, ◌+◌, ◌-◌, ◌%◌, ◌≤◌, Option, IfErr, OnOk, true, false};
ghost use Rattle.nv_steps.specs.Slots.{slot_in};
ghost use Rattle.nv_region.specs.Stops.{LeavesOnly, NothingPending};
ghost use Rattle.nv_alloc.specs.Taking.{all_blocks};
ghost use Rattle.nv_logpage.specs.Append.{needed};
ghost use Rattle.nv_scan.specs.declared.piece.Row.{Row as RowValue};
ghost use Rattle.nv_rows.specs.Rows.{place_in, row_of};
ghost use Rattle.nv_mounted.specs.Held.{Held, Store};
ghost use Rattle.nv_commit.specs.Stopped.{LeavesEither};
ghost use Rattle.nv_steps.specs.Across.{LessenedAcross, TookAcross};
ghost use Rattle.nv_steps.specs.InOrder.{tail_address};
ghost use Rattle.nv_steps.specs.NameEntries.{links_entries};
ghost use Rattle.nv_steps.specs.Steps.{RefusesStep, ShowsRow};
ghost use Rattle.nv_steps.specs.Stores.{StoresIn, three_logs, two_less};
ghost use Rattle.nv_steps.specs.Keeping.{NeedsFree};
ghost use Rattle.nv_calls.specs.CanChange.{CanLessenOver, CanReplaceOver, CanTakeOver};
ghost use Rattle.nv_calls.specs.ReplaceCalls.{HandsInOrder, LessensOver, ReplacedOver, ReplacesOver, TakesOver, hand_blocks, keeps_others, replace_over_blocks};
ghost use Rattle.nv_calls.specs.AtPlaces.{KeepsRows};

use crate::removing::most_blocks;
use crate::renaming::other_name;
use crate::replacing::keeps_others;
use nv_alloc::Allocators;
use nv_inode::Tables;
use nv_paths::Move;
use nv_region::Pmem;
use nv_rows::Rows;
use nv_steps::{Displaced, give_row, lessen_across, take_across};
use nv_tree::Refusal;
use std::alloc::Global;

/// Gives an inode the name of another, which goes, in another directory: its old name goes too, and so do that one's row and the
/// blocks of its log and its pages, which are given back.
///
/// `NoSpace` where all pools together have too few blocks, `Memory` where a growth was refused; both change nothing.
/// `Stopped` where the fuse has burnt.
fn take_over<P: Pmem>(
    alloc: Global,
    memory: &mut P,
    tables: &Tables,
    free: &mut Allocators,
    cpu: u64,
    rows: &mut Rows,
    moved: &Move<'_>,
    there: u64,
    time: u64,
) -> Result<(), Refusal>
    requires { CanTakeOver (P.region memory.old) tables.now.layout free.old cpu rows.old.items moved.now.from.directory moved.now.directory there moved.now.from.name.now moved.now.name.now }
    ensures taken { OnOk result (TakesOver (P.region memory.old) (P.region memory.new) tables.now.layout free.old free.new cpu rows.old.items rows.new.items
        (place_in rows.old.items moved.now.from.directory) (place_in rows.old.items moved.now.directory)
        (place_in rows.old.items there) moved.now.from.target moved.now.from.name.now moved.now.name.now time) }
    ensures enough { (from to gone : RowValue) → row_of rows.old.items moved.now.from.directory ≡ Option.Some from → row_of rows.old.items moved.now.directory ≡ Option.Some to
        → row_of rows.old.items there ≡ Option.Some gone
        → OnOk result (hand_blocks from to moved.now.from.target gone.inode moved.now.from.name.now moved.now.name.now time ≤ all_blocks free.old.pools) }
    ensures kept { KeepsRows P.region P.may_hold P.fuse memory.old memory.new free.old free.new rows.old rows.new result }
    ensures refused { (from to gone : RowValue) → row_of rows.old.items moved.now.from.directory ≡ Option.Some from → row_of rows.old.items moved.now.directory ≡ Option.Some to
        → row_of rows.old.items there ≡ Option.Some gone
        → IfErr result (λ e. RefusesStep e (hand_blocks from to moved.now.from.target gone.inode moved.now.from.name.now moved.now.name.now time) free.old) }
    // Every word outside these places is as it was.
    ensures wrote { (from to gone : RowValue) (held : Store) (h g : Held) → row_of rows.old.items moved.now.from.directory ≡ Option.Some from
        → row_of rows.old.items moved.now.directory ≡ Option.Some to
        → row_of rows.old.items there ≡ Option.Some gone
        → ShowsRow (P.region memory.old) tables.now.layout held h from free.old → ShowsRow (P.region memory.old) tables.now.layout held g to free.old
        → StoresIn tables.now.layout held (two_less tables.now.layout cpu from.inode to.inode gone.inode) (P.region memory.old) (P.region memory.new) }
    // The old directory's tail is stored first, then that of the new one, and then the valid word.
    ensures in_order { (from to gone : RowValue) (held : Store) (h g : Held) → row_of rows.old.items moved.now.from.directory ≡ Option.Some from
        → row_of rows.old.items moved.now.directory ≡ Option.Some to
        → row_of rows.old.items there ≡ Option.Some gone
        → ShowsRow (P.region memory.old) tables.now.layout held h from free.old → ShowsRow (P.region memory.old) tables.now.layout held g to free.old
        → HandsInOrder (P.region memory.old) (P.region memory.new) tables.now.layout free.old cpu from to moved.now.from.target gone.inode moved.now.from.name.now moved.now.name.now time
        (slot_in tables.now.layout gone.inode) }
    // Whatever a stop leaves: nothing is wrong with the journals, and recovery finds what is held, or it with the name given and
    // without the inode.
    ensures any_stop { (from to gone : RowValue) (held : Store) (h g : Held) → row_of rows.old.items moved.now.from.directory ≡ Option.Some from
        → row_of rows.old.items moved.now.directory ≡ Option.Some to
        → row_of rows.old.items there ≡ Option.Some gone
        → ShowsRow (P.region memory.old) tables.now.layout held h from free.old → ShowsRow (P.region memory.old) tables.now.layout held g to free.old
        → NothingPending (P.region memory.old) (P.may_hold memory.old)
        → LeavesOnly (P.region memory.new) (P.may_hold memory.new) (LeavesEither (P.region memory.old) tables.now.layout held
        (TookAcross (P.region memory.old) tables.now.layout free.old cpu from to moved.now.from.target gone.inode moved.now.from.name.now moved.now.name.now time)) }
{
    let gone = Displaced {
        inode: there,
        blocks: most_blocks(rows.row(there)),
    };
    let mut from = rows.lend(alloc, moved.from.directory);
    let mut to = rows.lend(alloc, moved.directory);
    let other = other_name(moved, time);
    let taken = take_across(
        alloc, memory, tables, free, cpu, &mut from, &mut to, &other, gone,
    );
    rows.give_back(to);
    rows.give_back(from);
    taken?;
    give_row(free, &rows.take(there));
    Ok(())
}

/// Gives an inode the name of a file in another directory, which has others: the old directory's log says that the old name went,
/// that of the new one says both, and the file's log says one link less.
///
/// `NoSpace` where all pools together have too few blocks, `Memory` where a growth was refused; both change nothing.
/// `Stopped` where the fuse has burnt.
fn lessen_over<P: Pmem>(
    alloc: Global,
    memory: &mut P,
    tables: &Tables,
    free: &mut Allocators,
    cpu: u64,
    rows: &mut Rows,
    moved: &Move<'_>,
    there: u64,
    time: u64,
) -> Result<(), Refusal>
    requires { CanLessenOver (P.region memory.old) tables.now.layout free.old cpu rows.old.items moved.now.from.directory moved.now.directory there moved.now.from.name.now moved.now.name.now }
    ensures lessened { OnOk result (LessensOver (P.region memory.old) (P.region memory.new) tables.now.layout free.old free.new cpu rows.old.items rows.new.items
        (place_in rows.old.items moved.now.from.directory) (place_in rows.old.items moved.now.directory)
        (place_in rows.old.items there) moved.now.from.target moved.now.from.name.now moved.now.name.now time) }
    ensures enough { (from to file : RowValue) → row_of rows.old.items moved.now.from.directory ≡ Option.Some from → row_of rows.old.items moved.now.directory ≡ Option.Some to
        → row_of rows.old.items there ≡ Option.Some file
        → OnOk result (hand_blocks from to moved.now.from.target file.inode moved.now.from.name.now moved.now.name.now time
        + needed (file.tail % 4096) (links_entries (file.numbers.links - 1) time) ≤ all_blocks free.old.pools) }
    ensures kept { KeepsRows P.region P.may_hold P.fuse memory.old memory.new free.old free.new rows.old rows.new result }
    ensures refused { (from to file : RowValue) → row_of rows.old.items moved.now.from.directory ≡ Option.Some from → row_of rows.old.items moved.now.directory ≡ Option.Some to
        → row_of rows.old.items there ≡ Option.Some file
        → IfErr result (λ e. RefusesStep e (hand_blocks from to moved.now.from.target file.inode moved.now.from.name.now moved.now.name.now time
        + needed (file.tail % 4096) (links_entries (file.numbers.links - 1) time)) free.old) }
    // Every word outside these places is as it was.
    ensures wrote { (from to file : RowValue) (held : Store) (h g f : Held) → row_of rows.old.items moved.now.from.directory ≡ Option.Some from
        → row_of rows.old.items moved.now.directory ≡ Option.Some to
        → row_of rows.old.items there ≡ Option.Some file
        → ShowsRow (P.region memory.old) tables.now.layout held h from free.old → ShowsRow (P.region memory.old) tables.now.layout held g to free.old
        → ShowsRow (P.region memory.old) tables.now.layout held f file free.old
        → StoresIn tables.now.layout held (three_logs tables.now.layout cpu from.inode to.inode file.inode) (P.region memory.old) (P.region memory.new) }
    // The old directory's tail is stored first, then that of the new one, and then that of the file.
    ensures in_order { (from to file : RowValue) (held : Store) (h g f : Held) → row_of rows.old.items moved.now.from.directory ≡ Option.Some from
        → row_of rows.old.items moved.now.directory ≡ Option.Some to
        → row_of rows.old.items there ≡ Option.Some file
        → ShowsRow (P.region memory.old) tables.now.layout held h from free.old → ShowsRow (P.region memory.old) tables.now.layout held g to free.old
        → ShowsRow (P.region memory.old) tables.now.layout held f file free.old
        → HandsInOrder (P.region memory.old) (P.region memory.new) tables.now.layout free.old cpu from to moved.now.from.target file.inode moved.now.from.name.now moved.now.name.now time
        (tail_address tables.now.layout file.inode) }
    // Whatever a stop leaves: nothing is wrong with the journals, and recovery finds what is held, or it with the name given and a
    // link less.
    ensures any_stop { (from to file : RowValue) (held : Store) (h g f : Held) → row_of rows.old.items moved.now.from.directory ≡ Option.Some from
        → row_of rows.old.items moved.now.directory ≡ Option.Some to
        → row_of rows.old.items there ≡ Option.Some file
        → ShowsRow (P.region memory.old) tables.now.layout held h from free.old → ShowsRow (P.region memory.old) tables.now.layout held g to free.old
        → ShowsRow (P.region memory.old) tables.now.layout held f file free.old → NothingPending (P.region memory.old) (P.may_hold memory.old)
        → LeavesOnly (P.region memory.new) (P.may_hold memory.new) (LeavesEither (P.region memory.old) tables.now.layout held
        (LessenedAcross (P.region memory.old) tables.now.layout free.old cpu from to file moved.now.from.target moved.now.from.name.now moved.now.name.now time)) }
{
    let mut from = rows.lend(alloc, moved.from.directory);
    let mut to = rows.lend(alloc, moved.directory);
    let mut file = rows.lend(alloc, there);
    let other = other_name(moved, time);
    let done = lessen_across(
        alloc, memory, tables, free, cpu, &mut from, &mut to, &mut file, &other,
    );
    rows.give_back(file);
    rows.give_back(to);
    rows.give_back(from);
    done
}

/// Gives an inode the name of another in another directory, which loses a link where it has more, and else goes. It is refused as
/// `lessen_over` and `take_over` are.
pub(crate) fn replace_over<P: Pmem>(
    alloc: Global,
    memory: &mut P,
    tables: &Tables,
    free: &mut Allocators,
    cpu: u64,
    rows: &mut Rows,
    moved: &Move<'_>,
    there: u64,
    time: u64,
) -> Result<(), Refusal>
    requires { CanReplaceOver (P.region memory.old) tables.now.layout free.old cpu rows.old.items moved.now.from.directory moved.now.directory there moved.now.from.name.now moved.now.name.now }
    ensures replaced { OnOk result (ReplacesOver (P.region memory.old) (P.region memory.new) tables.now.layout free.old free.new cpu rows.old.items rows.new.items
        (place_in rows.old.items moved.now.from.directory) (place_in rows.old.items moved.now.directory)
        (place_in rows.old.items there) moved.now.from.target moved.now.from.name.now moved.now.name.now time) }
    ensures needs { (from to file : RowValue) → row_of rows.old.items moved.now.from.directory ≡ Option.Some from → row_of rows.old.items moved.now.directory ≡ Option.Some to
        → row_of rows.old.items there ≡ Option.Some file
        → NeedsFree (replace_over_blocks from to file moved.now.from.target moved.now.from.name.now moved.now.name.now time) free.old result }
    ensures kept { KeepsRows P.region P.may_hold P.fuse memory.old memory.new free.old free.new rows.old rows.new result }
    // Every word outside these places is as it was.
    ensures wrote { (from to file : RowValue) (held : Store) (h g f : Held) → row_of rows.old.items moved.now.from.directory ≡ Option.Some from
        → row_of rows.old.items moved.now.directory ≡ Option.Some to
        → row_of rows.old.items there ≡ Option.Some file
        → ShowsRow (P.region memory.old) tables.now.layout held h from free.old → ShowsRow (P.region memory.old) tables.now.layout held g to free.old
        → ShowsRow (P.region memory.old) tables.now.layout held f file free.old → keeps_others file ≡ true
        → StoresIn tables.now.layout held (three_logs tables.now.layout cpu from.inode to.inode file.inode) (P.region memory.old) (P.region memory.new) }
    // The same where it goes.
    ensures last_wrote { (from to file : RowValue) (held : Store) (h g : Held) → row_of rows.old.items moved.now.from.directory ≡ Option.Some from
        → row_of rows.old.items moved.now.directory ≡ Option.Some to
        → row_of rows.old.items there ≡ Option.Some file
        → ShowsRow (P.region memory.old) tables.now.layout held h from free.old → ShowsRow (P.region memory.old) tables.now.layout held g to free.old → keeps_others file ≡ false
        → StoresIn tables.now.layout held (two_less tables.now.layout cpu from.inode to.inode file.inode) (P.region memory.old) (P.region memory.new) }
    // The old directory's tail is stored first, then that of the new one, and then the file's tail, or the valid word.
    ensures in_order { (from to file : RowValue) (held : Store) (h g f : Held) → row_of rows.old.items moved.now.from.directory ≡ Option.Some from
        → row_of rows.old.items moved.now.directory ≡ Option.Some to
        → row_of rows.old.items there ≡ Option.Some file
        → ShowsRow (P.region memory.old) tables.now.layout held h from free.old → ShowsRow (P.region memory.old) tables.now.layout held g to free.old
        → ShowsRow (P.region memory.old) tables.now.layout held f file free.old → keeps_others file ≡ true
        → HandsInOrder (P.region memory.old) (P.region memory.new) tables.now.layout free.old cpu from to moved.now.from.target file.inode moved.now.from.name.now moved.now.name.now time
        (tail_address tables.now.layout file.inode) }
    ensures last_in_order { (from to file : RowValue) (held : Store) (h g : Held) → row_of rows.old.items moved.now.from.directory ≡ Option.Some from
        → row_of rows.old.items moved.now.directory ≡ Option.Some to
        → row_of rows.old.items there ≡ Option.Some file
        → ShowsRow (P.region memory.old) tables.now.layout held h from free.old → ShowsRow (P.region memory.old) tables.now.layout held g to free.old → keeps_others file ≡ false
        → HandsInOrder (P.region memory.old) (P.region memory.new) tables.now.layout free.old cpu from to moved.now.from.target file.inode moved.now.from.name.now moved.now.name.now time
        (slot_in tables.now.layout file.inode) }
    // Whatever a stop leaves: nothing is wrong with the journals, and recovery finds what is held, or it with the name given.
    ensures any_stop { (from to file : RowValue) (held : Store) (h g f : Held) → row_of rows.old.items moved.now.from.directory ≡ Option.Some from
        → row_of rows.old.items moved.now.directory ≡ Option.Some to
        → row_of rows.old.items there ≡ Option.Some file
        → ShowsRow (P.region memory.old) tables.now.layout held h from free.old → ShowsRow (P.region memory.old) tables.now.layout held g to free.old
        → ShowsRow (P.region memory.old) tables.now.layout held f file free.old → NothingPending (P.region memory.old) (P.may_hold memory.old)
        → LeavesOnly (P.region memory.new) (P.may_hold memory.new) (LeavesEither (P.region memory.old) tables.now.layout held
        (ReplacedOver (P.region memory.old) tables.now.layout free.old cpu from to file moved.now.from.target moved.now.from.name.now moved.now.name.now time)) }
{
    if keeps_others(rows.row(there)) {
        lessen_over(alloc, memory, tables, free, cpu, rows, moved, there, time)
    } else {
        take_over(alloc, memory, tables, free, cpu, rows, moved, there, time)
    }
}
