//! A new inode for which the table of its CPU grows: all memory first, then the growth and the inode, and then the rows.

ghost use Rattle.std.specs.Prelude.{◌≡◌, ◌+◌, ◌%◌, ◌<◌, ◌≤◌, IfErr, OnOk, Option};
ghost use Rattle.nv_region.specs.Stops.{LeavesOnly, NothingPending};
ghost use Rattle.nv_journal.specs.InOrder.{FirstIsFirst};
ghost use Rattle.nv_super.specs.Layout.{Layout};
ghost use Rattle.nv_inode.specs.Chains.{IsLaid};
ghost use Rattle.nv_inode.specs.Tables.{HasRoom};
ghost use Rattle.nv_alloc.specs.Taking.{all_blocks};
ghost use Rattle.nv_entry.specs.declared.entry.Operation.{Operation as OperationValue};
ghost use Rattle.nv_logpage.specs.Append.{needed};
ghost use Rattle.nv_names.specs.Names.{name_at};
ghost use Rattle.nv_scan.specs.declared.piece.Row.{Row as RowValue};
ghost use Rattle.nv_rows.specs.RowList.{HasNumbersOf, HasSpace};
ghost use Rattle.nv_rows.specs.Rows.{place_in, row_of};
ghost use Rattle.nv_mounted.specs.Held.{Held, Store};
ghost use Rattle.nv_steps.specs.GrownTables.{MayGrow, grown_more};
ghost use Rattle.nv_steps.specs.InOrder.{tail_address};
ghost use Rattle.nv_steps.specs.NameEntries.{name_entries};
ghost use Rattle.nv_steps.specs.Slots.{slot_in};
ghost use Rattle.nv_steps.specs.Steps.{RefusesStep, ShowsRow};
ghost use Rattle.nv_steps.specs.Stores.{StoresIn};
ghost use Rattle.nv_calls.specs.Growing.{CanCreate, CreatesGrown, GetsNext, KeepsTables, LeavesCreated};

use nv_alloc::Allocators;
use nv_entry::{Operation, name_entry};
use nv_inode::Tables;
use nv_logpage::pages_needed;
use nv_region::Pmem;
use nv_rows::Rows;
use nv_steps::{NewName, make_grown};
use nv_tree::Refusal;
use std::alloc::{AllocError, Global};

/// Makes a new inode with its name in a directory, where the next block of its CPU's table gives its number a slot, and puts
/// the new row in. The rows have the numbers of the tables then, also where it was stopped behind the growth.
///
/// `NoSpace` where all pools together have too few blocks, `Memory` where a growth was refused; both change nothing.
/// `Stopped` where the fuse has burnt.
pub(crate) fn create_grown<P: Pmem>(
    alloc: Global,
    memory: &mut P,
    tables: &mut Tables,
    free: &mut Allocators,
    cpu: u64,
    rows: &mut Rows,
    directory: u64,
    new: &NewName<'_>,
) -> Result<(), Refusal>
    requires can { CanCreate (P.region memory.old) tables.old.layout free.old cpu rows.old directory new.now.inode new.now.name.now }
    requires slot { GetsNext (P.region memory.old) tables.old.layout free.old cpu new.now.inode }
    ensures created { OnOk result (CreatesGrown (P.region memory.old) (P.region memory.new) tables.old.layout tables.new.layout free.old free.new cpu rows.old.items rows.new.items
        (place_in rows.old.items directory) new.now.kind new.now.mode new.now.time new.now.inode new.now.name.now) }
    ensures enough { (row : RowValue) → row_of rows.old.items directory ≡ Option.Some row
        → OnOk result (2 + needed (row.tail % 4096) (name_entries OperationValue.Add new.now.inode new.now.name.now new.now.time) ≤ all_blocks free.old.pools) }
    ensures kept { KeepsTables P.region P.may_hold P.fuse memory.old memory.new free.old free.new rows.old rows.new tables.old tables.new cpu new.now.inode result }
    ensures refused { (row : RowValue) → row_of rows.old.items directory ≡ Option.Some row
        → IfErr result (λ e. RefusesStep e (2 + needed (row.tail % 4096) (name_entries OperationValue.Add new.now.inode new.now.name.now new.now.time)) free.old) }
    // Every word outside these places is as it was.
    ensures wrote { (row : RowValue) (held : Store) (h : Held) → row_of rows.old.items directory ≡ Option.Some row → ShowsRow (P.region memory.old) tables.old.layout held h row free.old
        → StoresIn tables.old.layout held (grown_more tables.old.layout cpu row.inode) (P.region memory.old) (P.region memory.new) }
    // The new inode's valid word is stored before the directory's tail.
    ensures in_order { (row : RowValue) (held : Store) (h : Held) → row_of rows.old.items directory ≡ Option.Some row → ShowsRow (P.region memory.old) tables.old.layout held h row free.old
        → FirstIsFirst (P.region memory.old) (slot_in tables.new.layout new.now.inode) 1 (tail_address tables.new.layout row.inode) (P.region memory.new) }
    // Whatever a stop leaves: recovery finds what is held, by the tables of before or the grown ones, or it with the new inode
    // and its name, without faults.
    ensures any_stop { (row : RowValue) (held : Store) (h : Held) → row_of rows.old.items directory ≡ Option.Some row → ShowsRow (P.region memory.old) tables.old.layout held h row free.old
        → name_at row.names new.now.name.now ≡ Option.None → NothingPending (P.region memory.old) (P.may_hold memory.old)
        → LeavesOnly (P.region memory.new) (P.may_hold memory.new) (LeavesCreated (P.region memory.old) tables.old.layout free.old cpu held row new.now.kind new.now.mode new.now.time
        new.now.inode new.now.name.now) }
{
    tables.are_laid();
    let entries = [name_entry(Operation::Add, new.inode, new.name, new.time)];
    if free.free_blocks() < 2 + pages_needed(rows.row(directory).tail, &entries) {
        return Err(Refusal::NoSpace);
    }
    if reserve_growth(tables, rows, cpu).is_err() {
        return Err(Refusal::Memory);
    }
    let mut row = rows.lend(alloc, directory);
    let made = make_grown(alloc, memory, tables, free, cpu, &mut row, new);
    rows.give_back(row);
    grow_rows(rows, tables, cpu);
    rows.insert(made?);
    Ok(())
}

/// Makes room for a block more in the table of a CPU, for its numbers among the rows, and for a row. All stays, whatever it
/// answers.
///
/// Errors: `AllocError` where a growth was refused.
fn reserve_growth(tables: &mut Tables, rows: &mut Rows, cpu: u64) -> Result<(), AllocError>
    requires cpu { cpu < tables.old.layout.sup.cpus }
    requires numbers { HasNumbersOf tables.old.layout rows.old }
    ensures layout { tables.new.layout ≡ tables.old.layout }
    ensures rows { rows.new.items ≡ rows.old.items }
    ensures sup { rows.new.sup ≡ rows.old.sup }
    ensures sizes { rows.new.sizes ≡ rows.old.sizes }
    ensures table_room { OnOk result (HasRoom tables.new cpu) }
    ensures space { OnOk result (HasSpace rows.new cpu) }
    ensures room { OnOk result (1 ≤ rows.new.room) }
{
    tables.are_laid();
    tables.reserve(cpu)?;
    rows.reserve(1)?;
    rows.reserve_numbers(cpu)?;
    Ok(())
}

/// Lets the rows have the numbers of the tables, of which that of a CPU may have grown.
fn grow_rows(rows: &mut Rows, tables: &Tables, cpu: u64)
    requires cpu { cpu < tables.now.layout.sup.cpus }
    requires numbers { (was : Layout) × IsLaid was × HasNumbersOf was rows.old × MayGrow was cpu tables.now.layout }
    requires space { HasSpace rows.old cpu }
    ensures numbers { HasNumbersOf tables.now.layout rows.new }
    ensures rows { rows.new.items ≡ rows.old.items }
    ensures room { rows.new.room ≡ rows.old.room }
{
    if rows.table_size(cpu) == tables.table_size(cpu) {
        return;
    }
    rows.grow(cpu);
}
