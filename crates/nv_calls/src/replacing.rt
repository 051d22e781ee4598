//! `replace` within one directory: another name for an inode, which it gets from an inode that goes or loses a link.

ghost use Rattle.std.specs.Prelude.{◌≡◌, ◌+◌, ◌-◌, ◌%◌, ◌≤◌, Option, IfErr, OnOk, true, false};
ghost use Rattle.nv_region.specs.Stops.{LeavesOnly, NothingPending};
ghost use Rattle.nv_alloc.specs.Taking.{all_blocks};
ghost use Rattle.nv_logpage.specs.Append.{needed};
ghost use Rattle.nv_names.specs.Names.{IsName};
ghost use Rattle.nv_scan.specs.declared.piece.Row.{Row as RowValue};
ghost use Rattle.nv_rows.specs.Rows.{place_in, row_of};
ghost use Rattle.nv_mounted.specs.Held.{Held, Store};
ghost use Rattle.nv_commit.specs.Stopped.{LeavesEither};
ghost use Rattle.nv_steps.specs.Lessens.{Lessened, LessensAt};
ghost use Rattle.nv_steps.specs.NameEntries.{links_entries};
ghost use Rattle.nv_steps.specs.Steps.{RefusesStep, ShowsRow};
ghost use Rattle.nv_steps.specs.InOrder.{TailIsFirst, tail_address};
ghost use Rattle.nv_steps.specs.Stores.{StoresIn, one_less, two_logs};
ghost use Rattle.nv_steps.specs.Takes.{TookWithin, take_entries};
ghost use Rattle.nv_steps.specs.Keeping.{NeedsFree};
ghost use Rattle.nv_calls.specs.CanChange.{CanReplaceHere, CanTakeAt, CanUnlinkAt};
ghost use Rattle.nv_calls.specs.ReplaceCalls.{ReplacedHere, ReplacesHere, TakesAt, keeps_others, replace_here_blocks};
ghost use Rattle.nv_calls.specs.AtPlaces.{KeepsRows};
ghost use Rattle.nv_steps.specs.Slots.{slot_in};

use crate::removing::most_blocks;
use crate::renaming::other_name;
use nv_alloc::Allocators;
use nv_inode::Tables;
use nv_paths::Move;
use nv_region::Pmem;
use nv_rows::Rows;
use nv_scan::Row;
use nv_steps::{Displaced, give_row, lessen_within, take_within};
use nv_super::Kind;
use nv_tree::Refusal;
use std::alloc::Global;

/// Gives an inode the name of another of its directory, which goes: its row, and the blocks of its log and its pages, which are
/// given back.
///
/// `NoSpace` where all pools together have too few blocks, `Memory` where a growth was refused; both change nothing.
/// `Stopped` where the fuse has burnt.
fn take_at<P: Pmem>(
    alloc: Global,
    memory: &mut P,
    tables: &Tables,
    free: &mut Allocators,
    cpu: u64,
    rows: &mut Rows,
    moved: &Move<'_>,
    there: u64,
    time: u64,
) -> Result<(), Refusal>
    requires can { CanTakeAt (P.region memory.old) tables.now.layout free.old cpu rows.old.items moved.now.directory there moved.now.from.name.now }
    requires other { IsName moved.now.name.now }
    ensures taken { OnOk result (TakesAt (P.region memory.old) (P.region memory.new) tables.now.layout free.old free.new cpu rows.old.items rows.new.items (place_in rows.old.items moved.now.directory)
        (place_in rows.old.items there) moved.now.from.target moved.now.from.name.now moved.now.name.now time) }
    ensures enough { (row gone : RowValue) → row_of rows.old.items moved.now.directory ≡ Option.Some row → row_of rows.old.items there ≡ Option.Some gone
        → OnOk result (needed (row.tail % 4096) (take_entries moved.now.from.target gone.inode moved.now.from.name.now moved.now.name.now time) ≤ all_blocks free.old.pools) }
    ensures kept { KeepsRows P.region P.may_hold P.fuse memory.old memory.new free.old free.new rows.old rows.new result }
    ensures refused { (row gone : RowValue) → row_of rows.old.items moved.now.directory ≡ Option.Some row → row_of rows.old.items there ≡ Option.Some gone
        → IfErr result (λ e. RefusesStep e (needed (row.tail % 4096) (take_entries moved.now.from.target gone.inode moved.now.from.name.now moved.now.name.now time)) free.old) }
    // Every word outside these places is as it was.
    ensures wrote { (row gone : RowValue) (held : Store) (h : Held) → row_of rows.old.items moved.now.directory ≡ Option.Some row → row_of rows.old.items there ≡ Option.Some gone
        → ShowsRow (P.region memory.old) tables.now.layout held h row free.old
        → StoresIn tables.now.layout held (one_less tables.now.layout cpu row.inode gone.inode) (P.region memory.old) (P.region memory.new) }
    // The directory's tail is stored first.
    ensures in_order { (row gone : RowValue) (held : Store) (h : Held) → row_of rows.old.items moved.now.directory ≡ Option.Some row → row_of rows.old.items there ≡ Option.Some gone
        → ShowsRow (P.region memory.old) tables.now.layout held h row free.old
        → TailIsFirst (P.region memory.old) (P.region memory.new) tables.now.layout free.old.pools cpu row.inode row.tail (take_entries moved.now.from.target gone.inode moved.now.from.name.now
        moved.now.name.now time) (slot_in tables.now.layout gone.inode) }
    // Whatever a stop leaves: nothing is wrong with the journals, and recovery finds what is held, or it with the name given and
    // without the inode.
    ensures any_stop { (row gone : RowValue) (held : Store) (h : Held) → row_of rows.old.items moved.now.directory ≡ Option.Some row → row_of rows.old.items there ≡ Option.Some gone
        → ShowsRow (P.region memory.old) tables.now.layout held h row free.old → NothingPending (P.region memory.old) (P.may_hold memory.old)
        → LeavesOnly (P.region memory.new) (P.may_hold memory.new) (LeavesEither (P.region memory.old) tables.now.layout held
        (TookWithin (P.region memory.old) tables.now.layout free.old cpu row moved.now.from.target gone.inode moved.now.from.name.now moved.now.name.now time)) }
{
    let gone = Displaced {
        inode: there,
        blocks: most_blocks(rows.row(there)),
    };
    let mut directory = rows.lend(alloc, moved.directory);
    let other = other_name(moved, time);
    let taken = take_within(
        alloc,
        memory,
        tables,
        free,
        cpu,
        &mut directory,
        &other,
        gone,
    );
    rows.give_back(directory);
    taken?;
    give_row(free, &rows.take(there));
    Ok(())
}

/// Gives an inode the name of a file of its directory that has others: the directory's log says so, and the file's log says one
/// link less.
///
/// `NoSpace` where all pools together have too few blocks, `Memory` where a growth was refused; both change nothing.
/// `Stopped` where the fuse has burnt.
fn lessen_at<P: Pmem>(
    alloc: Global,
    memory: &mut P,
    tables: &Tables,
    free: &mut Allocators,
    cpu: u64,
    rows: &mut Rows,
    moved: &Move<'_>,
    there: u64,
    time: u64,
) -> Result<(), Refusal>
    requires can { CanUnlinkAt (P.region memory.old) tables.now.layout free.old cpu rows.old.items moved.now.directory there moved.now.from.name.now }
    requires other { IsName moved.now.name.now }
    ensures lessened { OnOk result (LessensAt (P.region memory.old) (P.region memory.new) tables.now.layout free.old free.new cpu rows.old.items rows.new.items
        (place_in rows.old.items moved.now.directory)
        (place_in rows.old.items there) moved.now.from.target moved.now.from.name.now moved.now.name.now time) }
    ensures enough { (row file : RowValue) → row_of rows.old.items moved.now.directory ≡ Option.Some row → row_of rows.old.items there ≡ Option.Some file
        → OnOk result (needed (row.tail % 4096) (take_entries moved.now.from.target file.inode moved.now.from.name.now moved.now.name.now time)
        + needed (file.tail % 4096) (links_entries (file.numbers.links - 1) time) ≤ all_blocks free.old.pools) }
    ensures kept { KeepsRows P.region P.may_hold P.fuse memory.old memory.new free.old free.new rows.old rows.new result }
    ensures refused { (row file : RowValue) → row_of rows.old.items moved.now.directory ≡ Option.Some row → row_of rows.old.items there ≡ Option.Some file
        → IfErr result (λ e. RefusesStep e (needed (row.tail % 4096) (take_entries moved.now.from.target file.inode moved.now.from.name.now moved.now.name.now time)
        + needed (file.tail % 4096) (links_entries (file.numbers.links - 1) time)) free.old) }
    // Every word outside these places is as it was.
    ensures wrote { (row file : RowValue) (held : Store) (h f : Held) → row_of rows.old.items moved.now.directory ≡ Option.Some row → row_of rows.old.items there ≡ Option.Some file
        → ShowsRow (P.region memory.old) tables.now.layout held h row free.old → ShowsRow (P.region memory.old) tables.now.layout held f file free.old
        → StoresIn tables.now.layout held (two_logs tables.now.layout cpu row.inode file.inode) (P.region memory.old) (P.region memory.new) }
    // The directory's tail is stored first.
    ensures in_order { (row file : RowValue) (held : Store) (h f : Held) → row_of rows.old.items moved.now.directory ≡ Option.Some row → row_of rows.old.items there ≡ Option.Some file
        → ShowsRow (P.region memory.old) tables.now.layout held h row free.old → ShowsRow (P.region memory.old) tables.now.layout held f file free.old
        → TailIsFirst (P.region memory.old) (P.region memory.new) tables.now.layout free.old.pools cpu row.inode row.tail (take_entries moved.now.from.target file.inode moved.now.from.name.now
        moved.now.name.now time) (tail_address tables.now.layout file.inode) }
    // Whatever a stop leaves: nothing is wrong with the journals, and recovery finds what is held, or it with the name given and a
    // link less.
    ensures any_stop { (row file : RowValue) (held : Store) (h f : Held) → row_of rows.old.items moved.now.directory ≡ Option.Some row → row_of rows.old.items there ≡ Option.Some file
        → ShowsRow (P.region memory.old) tables.now.layout held h row free.old → ShowsRow (P.region memory.old) tables.now.layout held f file free.old
        → NothingPending (P.region memory.old) (P.may_hold memory.old)
        → LeavesOnly (P.region memory.new) (P.may_hold memory.new) (LeavesEither (P.region memory.old) tables.now.layout held
        (Lessened (P.region memory.old) tables.now.layout free.old cpu row file moved.now.from.target moved.now.from.name.now moved.now.name.now time)) }
{
    let mut directory = rows.lend(alloc, moved.directory);
    let mut file = rows.lend(alloc, there);
    let other = other_name(moved, time);
    let done = lessen_within(
        alloc,
        memory,
        tables,
        free,
        cpu,
        &mut directory,
        &mut file,
        &other,
    );
    rows.give_back(file);
    rows.give_back(directory);
    done
}

/// Whether an inode stays without one of its names: a file with more links than one.
pub(crate) fn keeps_others(row: &Row) -> bool
    ensures { result ≡ keeps_others row.now }
{
    row.kind != Kind::Directory && row.numbers.links > 1
}

/// Gives an inode the name of another of its directory, which loses a link where it has more, and else goes. It is refused as
/// `lessen_at` and `take_at` are.
pub(crate) fn replace_within<P: Pmem>(
    alloc: Global,
    memory: &mut P,
    tables: &Tables,
    free: &mut Allocators,
    cpu: u64,
    rows: &mut Rows,
    moved: &Move<'_>,
    there: u64,
    time: u64,
) -> Result<(), Refusal>
    requires { CanReplaceHere (P.region memory.old) tables.now.layout free.old cpu rows.old.items moved.now.directory there moved.now.from.name.now moved.now.name.now }
    ensures replaced { OnOk result (ReplacesHere (P.region memory.old)
        (P.region memory.new) tables.now.layout free.old free.new cpu rows.old.items rows.new.items (place_in rows.old.items moved.now.directory)
        (place_in rows.old.items there) moved.now.from.target moved.now.from.name.now moved.now.name.now time) }
    ensures needs { (row file : RowValue) → row_of rows.old.items moved.now.directory ≡ Option.Some row → row_of rows.old.items there ≡ Option.Some file
        → NeedsFree (replace_here_blocks row file moved.now.from.target moved.now.from.name.now moved.now.name.now time) free.old result }
    ensures kept { KeepsRows P.region P.may_hold P.fuse memory.old memory.new free.old free.new rows.old rows.new result }
    // Every word outside these places is as it was.
    ensures wrote { (row file : RowValue) (held : Store) (h f : Held) → row_of rows.old.items moved.now.directory ≡ Option.Some row → row_of rows.old.items there ≡ Option.Some file
        → ShowsRow (P.region memory.old) tables.now.layout held h row free.old → ShowsRow (P.region memory.old) tables.now.layout held f file free.old → keeps_others file ≡ true
        → StoresIn tables.now.layout held (two_logs tables.now.layout cpu row.inode file.inode) (P.region memory.old) (P.region memory.new) }
    // The same where it goes.
    ensures last_wrote { (row file : RowValue) (held : Store) (h : Held) → row_of rows.old.items moved.now.directory ≡ Option.Some row → row_of rows.old.items there ≡ Option.Some file
        → ShowsRow (P.region memory.old) tables.now.layout held h row free.old → keeps_others file ≡ false
        → StoresIn tables.now.layout held (one_less tables.now.layout cpu row.inode file.inode) (P.region memory.old) (P.region memory.new) }
    // The directory's tail is stored first, and then the file's, or the valid word.
    ensures in_order { (row file : RowValue) (held : Store) (h f : Held) → row_of rows.old.items moved.now.directory ≡ Option.Some row → row_of rows.old.items there ≡ Option.Some file
        → ShowsRow (P.region memory.old) tables.now.layout held h row free.old → ShowsRow (P.region memory.old) tables.now.layout held f file free.old → keeps_others file ≡ true
        → TailIsFirst (P.region memory.old) (P.region memory.new) tables.now.layout free.old.pools cpu row.inode row.tail (take_entries moved.now.from.target file.inode moved.now.from.name.now
        moved.now.name.now time) (tail_address tables.now.layout file.inode) }
    ensures last_in_order { (row file : RowValue) (held : Store) (h : Held) → row_of rows.old.items moved.now.directory ≡ Option.Some row → row_of rows.old.items there ≡ Option.Some file
        → ShowsRow (P.region memory.old) tables.now.layout held h row free.old → keeps_others file ≡ false
        → TailIsFirst (P.region memory.old) (P.region memory.new) tables.now.layout free.old.pools cpu row.inode row.tail (take_entries moved.now.from.target file.inode moved.now.from.name.now
        moved.now.name.now time) (slot_in tables.now.layout file.inode) }
    // Whatever a stop leaves: nothing is wrong with the journals, and recovery finds what is held, or it with the name given.
    ensures any_stop { (row file : RowValue) (held : Store) (h f : Held) → row_of rows.old.items moved.now.directory ≡ Option.Some row → row_of rows.old.items there ≡ Option.Some file
        → ShowsRow (P.region memory.old) tables.now.layout held h row free.old → ShowsRow (P.region memory.old) tables.now.layout held f file free.old
        → NothingPending (P.region memory.old) (P.may_hold memory.old)
        → LeavesOnly (P.region memory.new) (P.may_hold memory.new) (LeavesEither (P.region memory.old) tables.now.layout held
        (ReplacedHere (P.region memory.old) tables.now.layout free.old cpu row file moved.now.from.target moved.now.from.name.now moved.now.name.now time)) }
{
    if keeps_others(rows.row(there)) {
        lessen_at(alloc, memory, tables, free, cpu, rows, moved, there, time)
    } else {
        take_at(alloc, memory, tables, free, cpu, rows, moved, there, time)
    }
}
