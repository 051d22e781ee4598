//! An inode that goes with its name: all growths first, then the commit, then the rows and the free lists.

ghost use Rattle.std.specs.Prelude.{◌≡◌, ◌≢◌, ◌+◌, ◌%◌, ◌<◌, ◌≤◌, length, Option, IfErr, OnOk};
ghost use Rattle.std.specs.Int.{div_ceil};
ghost use Rattle.nv_region.specs.Region.{size};
ghost use Rattle.nv_region.specs.Stops.{LeavesOnly, NothingPending};
ghost use Rattle.nv_alloc.specs.Taking.{all_blocks};
ghost use Rattle.nv_entry.specs.declared.entry.Operation.{Operation as OperationValue};
ghost use Rattle.nv_logpage.specs.Append.{needed};
ghost use Rattle.nv_names.specs.Names.{IsName};
ghost use Rattle.nv_scan.specs.declared.piece.Row.{Row as RowValue};
ghost use Rattle.nv_rows.specs.Rows.{IsInUse, place_in, row_of};
ghost use Rattle.nv_mounted.specs.Held.{Held, Store};
ghost use Rattle.nv_commit.specs.Stopped.{LeavesEither};
ghost use Rattle.nv_steps.specs.Grown.{StandsRight};
ghost use Rattle.nv_steps.specs.LessNames.{OwnsBlocks};
ghost use Rattle.nv_steps.specs.NameEntries.{name_entries};
ghost use Rattle.nv_steps.specs.NewNames.{CanName};
ghost use Rattle.nv_calls.specs.AtPlaces.{KeepsRows, RemovesAt};
ghost use Rattle.nv_steps.specs.Steps.{RefusesStep, ShowsRow};
ghost use Rattle.nv_steps.specs.InOrder.{TailIsFirst};
ghost use Rattle.nv_steps.specs.Stopped.{Cut};
ghost use Rattle.nv_steps.specs.Stores.{StoresIn, one_less};
ghost use Rattle.nv_steps.specs.Slots.{slot_in};

use nv_alloc::Allocators;
use nv_inode::Tables;
use nv_paths::Named;
use nv_region::Pmem;
use nv_rows::Rows;
use nv_scan::Row;
use nv_steps::{Gone, cut_name, give_row};
use nv_super::BLOCK_SIZE;
use nv_tree::Refusal;
use std::alloc::Global;

/// Takes a name out of a directory, and the inode with it: its row, and the blocks of its log and its
/// pages, which are given back.
///
/// `NoSpace` where all pools together have too few blocks, `Memory` where a growth was refused; both change nothing.
/// `Stopped` where the fuse has burnt.
pub(crate) fn remove_named<P: Pmem>(
    alloc: Global,
    memory: &mut P,
    tables: &Tables,
    free: &mut Allocators,
    cpu: u64,
    rows: &mut Rows,
    named: &Named<'_>,
    time: u64,
) -> Result<(), Refusal>
    requires directory { IsInUse rows.old.items named.now.directory }
    requires target { IsInUse rows.old.items named.now.target }
    requires stands { (row : RowValue) → row_of rows.old.items named.now.directory ≡ Option.Some row → StandsRight (P.region memory.old) tables.now.layout free.old row }
    requires can { (row gone : RowValue) → row_of rows.old.items named.now.directory ≡ Option.Some row → row_of rows.old.items named.now.target ≡ Option.Some gone
        → CanName (P.region memory.old) tables.now.layout cpu gone.inode row × (row.inode ≢ gone.inode) }
    requires owns { (gone : RowValue) → row_of rows.old.items named.now.target ≡ Option.Some gone → OwnsBlocks free.old gone }
    requires name { IsName named.now.name.now }
    ensures removed { OnOk result (RemovesAt (P.region memory.old) (P.region memory.new) tables.now.layout free.old free.new cpu rows.old.items rows.new.items
        (place_in rows.old.items named.now.directory)
        (place_in rows.old.items named.now.target) named.now.name.now time) }
    ensures enough { (row gone : RowValue) → row_of rows.old.items named.now.directory ≡ Option.Some row → row_of rows.old.items named.now.target ≡ Option.Some gone
        → OnOk result (needed (row.tail % 4096) (name_entries OperationValue.Remove gone.inode named.now.name.now time) ≤ all_blocks free.old.pools) }
    ensures kept { KeepsRows P.region P.may_hold P.fuse memory.old memory.new free.old free.new rows.old rows.new result }
    ensures refused { (row gone : RowValue) → row_of rows.old.items named.now.directory ≡ Option.Some row → row_of rows.old.items named.now.target ≡ Option.Some gone
        → IfErr result (λ e. RefusesStep e (needed (row.tail % 4096) (name_entries OperationValue.Remove gone.inode named.now.name.now time)) free.old) }
    // Every word outside these places is as it was.
    ensures wrote { (row gone : RowValue) (held : Store) (h : Held) → row_of rows.old.items named.now.directory ≡ Option.Some row → row_of rows.old.items named.now.target ≡ Option.Some gone
        → ShowsRow (P.region memory.old) tables.now.layout held h row free.old
        → StoresIn tables.now.layout held (one_less tables.now.layout cpu row.inode gone.inode) (P.region memory.old) (P.region memory.new) }
    // The directory's tail is stored first.
    ensures in_order { (row gone : RowValue) (held : Store) (h : Held) → row_of rows.old.items named.now.directory ≡ Option.Some row
        → row_of rows.old.items named.now.target ≡ Option.Some gone → ShowsRow (P.region memory.old) tables.now.layout held h row free.old
        → TailIsFirst (P.region memory.old) (P.region memory.new) tables.now.layout free.old.pools cpu row.inode row.tail
        (name_entries OperationValue.Remove gone.inode named.now.name.now time) (slot_in
        tables.now.layout gone.inode) }
    // Whatever a stop leaves: recovery finds what is held, or it without the name and the inode, without faults.
    ensures any_stop { (row gone : RowValue) (held : Store) (h : Held) → row_of rows.old.items named.now.directory ≡ Option.Some row
        → row_of rows.old.items named.now.target ≡ Option.Some gone → ShowsRow (P.region memory.old) tables.now.layout held h row free.old
        → NothingPending (P.region memory.old) (P.may_hold memory.old)
        → LeavesOnly (P.region memory.new) (P.may_hold memory.new) (LeavesEither (P.region memory.old) tables.now.layout held
        (Cut (P.region memory.old) tables.now.layout free.old cpu row gone.inode time named.now.name.now)) }
{
    let gone = Gone {
        inode: named.target,
        blocks: most_blocks(rows.row(named.target)),
        name: named.name,
        time,
    };
    let mut directory = rows.lend(alloc, named.directory);
    let cut = cut_name(alloc, memory, tables, free, cpu, &mut directory, &gone);
    rows.give_back(directory);
    cut?;
    give_row(free, &rows.take(named.target));
    Ok(())
}

/// At most so many blocks are an inode's own: those of its log, and one a page of its size.
pub(crate) fn most_blocks(row: &Row) -> usize
    ensures { result ≡ length row.now.pages.items + div_ceil row.now.numbers.size 4096 }
{
    row.pages.as_slice().len() + row.numbers.size.div_ceil(BLOCK_SIZE) as usize
}
