//! A new inode and its name, once the blocks for both logs are taken: the commit, and then the rows. No memory is taken.

ghost use Rattle.std.specs.Prelude.{◌≡◌, ◌*◌, ◌<◌, ◌^◌, [], ◌∷◌, length, IfOk, IfErr, None};
ghost use Rattle.nv_journal.specs.InOrder.{FirstIsFirst};
ghost use Rattle.smallvec.specs.SmallVec.{HasRoomFor};
ghost use Rattle.nv_region.specs.Stops.{LeavesOnly, NothingPending};
ghost use Rattle.nv_super.specs.Layout.{Layout};
ghost use Rattle.nv_alloc.specs.FreeValue.{FreeLists};
ghost use Rattle.nv_entry.specs.declared.entry.Entry.TheVariants.{Attr};
ghost use Rattle.nv_names.specs.Names.{EachOnce, IsName, name_at};
ghost use Rattle.nv_scan.specs.declared.piece.Row.{Row as RowValue};
ghost use Rattle.nv_mounted.specs.Held.{Held, Store};
ghost use Rattle.nv_commit.specs.Stopped.{LeavesEither};
ghost use Rattle.nv_tree.specs.declared.refusal.Refusal.{Refusal as RefusalValue};
ghost use Rattle.nv_steps.specs.NameEntries.{first_entries};
ghost use Rattle.nv_steps.specs.NewNames.{CanCommitName, HasNamed, IsNewRow, MakesNamed};
ghost use Rattle.nv_steps.specs.Steps.{ShowsRow};
ghost use Rattle.nv_steps.specs.Stopped.{Named};
ghost use Rattle.nv_steps.specs.InOrder.{tail_address};
ghost use Rattle.nv_steps.specs.Stores.{StoresIn, one_more};
ghost use Rattle.nv_steps.specs.Keeping.{SettlesStep};
ghost use Rattle.nv_steps.specs.Slots.{slot_in};
ghost use Rattle.nv_steps.specs.Premises.{CanPutName};

use crate::making::NewName;
use crate::settling::settle_log;
use nv_commit::{Extension, NewInode, make_inode};
use nv_entry::{AttrEntry, Entry, Operation, length, name_entry};
use nv_names::NameIndex;
use nv_radix::FileIndex;
use nv_region::Pmem;
use nv_scan::{LogPages, Numbers, Row};
use nv_super::BLOCK_SIZE;
use nv_tree::Refusal;
use std::alloc::Global;

/// Commits a new inode and its name in the directory of a row, by the addresses of their slots. The first block becomes the
/// page of the new log, and the directory's log goes on over the others. The row, which was made ready, gets the name, the
/// time, the new tail and the new pages. Answers the new inode's row.
///
/// Errors: `Stopped` where the fuse has burnt, and no other. It takes no memory.
pub(crate) fn commit_name<P: Pmem>(
    alloc: Global,
    memory: &mut P,
    cpu: u64,
    slot: u64,
    parent: u64,
    directory: &mut Row,
    new: &NewName<'_>,
    blocks: &[u64],
) -> Result<Row, Refusal>
    requires can { (l : Layout) × (free : FreeLists) × (after : FreeLists) × (row : RowValue)
        × CanCommitName (P.region memory.old) l free after cpu slot parent row directory.old new.now.inode new.now.name.now new.now.time blocks.now }
    requires row { CanPutName directory.old blocks.now new.now.name.now }
    ensures made { (l : Layout) (free after : FreeLists) (row : RowValue)
        → CanCommitName (P.region memory.old) l free after cpu slot parent row directory.old new.now.inode new.now.name.now new.now.time blocks.now
        → IfOk result (λ made. MakesNamed (P.region memory.old) (P.region memory.new) l free after cpu row directory.new new.now.kind new.now.mode new.now.time new.now.inode
        new.now.name.now made) }
    ensures stopped { IfErr result (λ e. e ≡ RefusalValue.Stopped) }
    ensures kept { (free after : FreeLists) → after.sup ≡ free.sup → SettlesStep P.region P.may_hold P.fuse memory.old memory.new free after result }
    ensures inode { directory.new.inode ≡ directory.old.inode }
    // Every word outside these places is as it was.
    ensures wrote { (l : Layout) (free after : FreeLists) (row : RowValue)
        → CanCommitName (P.region memory.old) l free after cpu slot parent row directory.old new.now.inode new.now.name.now new.now.time blocks.now
        → (held : Store) (h : Held) → ShowsRow (P.region memory.old) l held h row free → held new.now.inode ≡ None
        → StoresIn l held (one_more l cpu new.now.inode row.inode) (P.region memory.old) (P.region memory.new) }
    // The new inode's valid word is stored first.
    ensures in_order { (l : Layout) (free after : FreeLists) (row : RowValue)
        → CanCommitName (P.region memory.old) l free after cpu slot parent row directory.old new.now.inode new.now.name.now new.now.time blocks.now
        → (held : Store) (h : Held) → ShowsRow (P.region memory.old) l held h row free → held new.now.inode ≡ None
        → FirstIsFirst (P.region memory.old) (slot_in l new.now.inode) 1 (tail_address l row.inode) (P.region memory.new) }
    // What a stop leaves, at any exit.
    ensures any_stop { (l : Layout) (free after : FreeLists) (row : RowValue)
        → CanCommitName (P.region memory.old) l free after cpu slot parent row directory.old new.now.inode new.now.name.now new.now.time blocks.now
        → (held : Store) (h : Held) → ShowsRow (P.region memory.old) l held h row free → held new.now.inode ≡ None
        → name_at row.names new.now.name.now ≡ None → NothingPending (P.region memory.old) (P.may_hold memory.old)
        → LeavesOnly (P.region memory.new) (P.may_hold memory.new) (LeavesEither (P.region memory.old) l held
        (Named (P.region memory.old) l free cpu row new.now.kind new.now.mode new.now.time new.now.inode new.now.name.now)) }
{
    let entries = [name_entry(Operation::Add, new.inode, new.name, new.time)];
    let first = [Entry::Attr(first_attributes(new.mode, new.time))];
    let inode = NewInode {
        slot,
        kind: new.kind,
        created: new.time,
        page: blocks[0],
        entries: &first,
    };
    let extension = Extension {
        slot: parent,
        tail: directory.tail,
        entries: &entries,
        fresh: &blocks[1..],
    };
    let Ok((tail, end)) = make_inode(memory, cpu, &inode, &extension) else {
        return Err(Refusal::Stopped);
    };
    settle_name(directory, &blocks[1..], end, end - length(&entries[0]), new);
    Ok(new_row(alloc, new, inode.page, tail))
}

/// What the log of a new inode begins with.
fn first_attributes(mode: u32, time: u64) -> AttrEntry
    ensures { Attr result ∷ [] ≡ first_entries mode time }
{
    AttrEntry {
        mode: mode % 4096,
        size: 0,
        time,
        owner: 0,
        group: 0,
    }
}

/// Puts a name, the time, the new pages and the new tail of its log into a directory's row, which has room for them.
fn settle_name(directory: &mut Row, fresh: &[u64], end: u64, place: u64, new: &NewName<'_>)
    requires pages { HasRoomFor directory.old.pages (length fresh.now) }
    requires names { 0 < directory.old.names.room }
    requires name { IsName new.now.name.now }
    ensures row { HasNamed directory.old fresh.now end new.now.name.now new.now.inode place new.now.time directory.new }
    ensures once { EachOnce directory.new.names }
{
    settle_log(directory, fresh, end);
    directory.names.add(new.name, new.inode, place);
    directory.numbers.time = new.time;
    // A name index says of itself that it has no name twice.
    let _names = directory.names.len();
}

/// The row of a new inode whose log is this one page and ends at this tail.
fn new_row(alloc: Global, new: &NewName<'_>, page: u64, tail: u64) -> Row
    requires inside { 4096 * page < 2 ^ 64 }
    ensures { IsNewRow new.now.inode new.now.kind new.now.mode new.now.time page tail result }
{
    Row {
        inode: new.inode,
        kind: new.kind,
        numbers: Numbers {
            size: 0,
            mode: new.mode % 4096,
            owner: 0,
            group: 0,
            links: 1,
            time: new.time,
        },
        head: BLOCK_SIZE * page,
        tail,
        pages: LogPages::from_buf_and_len(alloc, [page, 0], 1),
        index: FileIndex::new(alloc),
        names: NameIndex::new(alloc),
    }
}
