//! An inode that comes: its log and its slot are written where nothing is read from, and the entries that name it behind
//! the tail of its directory's log. Then its valid word and that tail change together, by the journal of a CPU.

ghost use Rattle.std.specs.Prelude.{◌≡◌, ◌+◌, ◌*◌, ◌/◌, ◌%◌, ◌≤◌, ◌∷◌, [], ℕ, IfOk, OnOk, is_err};
ghost use Rattle.nv_region.specs.Region.{size};
ghost use Rattle.nv_region.specs.Stops.{NothingPending};
ghost use Rattle.nv_region.specs.Fuses.{KeepsFuse};
ghost use Rattle.nv_region.specs.Stored.{StoresOnly, Within};
ghost use Rattle.nv_region.specs.Storing.{AtAnyMoment, StoresAndFences};
ghost use Rattle.nv_super.specs.Layout.{Layout};
ghost use Rattle.nv_inode.specs.Slot.{with_slot};
ghost use Rattle.nv_journal.specs.Pending.{IsEmpty};
ghost use Rattle.nv_journal.specs.InOrder.{FirstIsFirst};
ghost use Rattle.nv_logpage.specs.Append.{CanAppend, EndBy, end_of};
ghost use Rattle.nv_mounted.specs.Held.{Held, Store};
ghost use Rattle.nv_commit.specs.Together.{CanCommit, ShowsIdle};
ghost use Rattle.nv_commit.specs.Makes.{BeforeOrMade, CanBegin, CanMake, MakeWords, PrepareWords, Prepares, head_of, tail_of, with_made};

use crate::extending::{TAIL, append_entries};
use crate::together::Extension;
use nv_entry::Entry;
use nv_inode::{Slot, store_slot};
use nv_journal::change_two;
use nv_region::{Pmem, Stopped};
use nv_super::{BLOCK_SIZE, Kind};

/// What an inode begins with.
#[derive(Clone, Copy)]
pub struct NewInode<'a> {
    /// The byte address of its slot, which is unused.
    pub slot: u64,
    pub kind: Kind,
    /// The time at which it is made.
    pub created: u64,
    /// The free block that becomes the page of its log.
    pub page: u64,
    /// The entries of its log, which fit on one page. None of them is a next-page entry.
    pub entries: &'a [Entry],
}

/// Writes the log of a new inode, entries behind the tail of a directory's log, and the inode's slot. Then, by the empty
/// journal of a CPU, it sets the slot's valid word and moves that tail behind them. Answers the tails of both logs.
///
/// After a stop at any moment of the call, the undone region has the directory's log as it was and no such inode, or the log
/// with all of the entries and the inode. Nothing is wrong with the journals then. It costs five fences and takes no memory.
/// Answers `Stopped` exactly where the fuse has burnt by the end of the call.
pub fn make_inode<P: Pmem>(
    memory: &mut P,
    cpu: u64,
    inode: &NewInode<'_>,
    directory: &Extension<'_>,
) -> Result<(u64, u64), Stopped>
    requires empty { IsEmpty (P.region memory.old) cpu }
    requires inode { CanBegin (P.region memory.old) cpu inode.now }
    requires directory { CanCommit (P.region memory.old) cpu directory.now }
    ensures ends { IfOk result (λ new. (new.0 ≡ tail_of inode.now) × (new.1 ≡ end_of directory.now.fresh.now 0 directory.now.tail directory.now.entries.now)) }
    ensures shows { (l : Layout) (held : Store) (j i : ℕ) (h : Held) → CanMake (P.region memory.old) l held cpu j inode.now i h directory.now
        → OnOk result (ShowsIdle (P.region memory.new) l (with_made held j inode.now i h directory.now)) }
    ensures kept { StoresAndFences P.region P.may_hold P.fuse (MakeWords cpu inode.now directory.now)
        (λ limit. EndBy (inode.now.page ∷ []) limit × EndBy (directory.now.tail / 4096 ∷ directory.now.fresh.now) limit × (inode.now.slot + 40 ≤ limit)
        × (directory.now.slot + 32 ≤ limit)) memory.old memory.new result }
    // The valid word is stored before the tail.
    ensures in_order { (l : Layout) (held : Store) (j i : ℕ) (h : Held) → CanMake (P.region memory.old) l held cpu j inode.now i h directory.now
        → FirstIsFirst (P.region memory.old) inode.now.slot 1 (directory.now.slot + 24) (P.region memory.new) }
    // The region as it reads, also after a stop, and each that a stop leaves.
    ensures moments { (l : Layout) (held : Store) (j i : ℕ) (h : Held) → CanMake (P.region memory.old) l held cpu j inode.now i h directory.now
        → AtAnyMoment P.region P.may_hold memory.old memory.new (BeforeOrMade l held j inode.now i h directory.now) }
{
    // The region's length is a u64, and fewer than eight bytes stand behind the last word.
    let _length = memory.len();
    let ends = prepare(memory, inode, directory)?;
    change_two(memory, cpu, inode.slot, 1, directory.slot + TAIL, ends.1)?;
    Ok(ends)
}

/// Writes the log of a new inode, the entries behind the tail of its directory's log, and then the inode's slot, and fences them.
fn prepare<P: Pmem>(
    memory: &mut P,
    inode: &NewInode<'_>,
    directory: &Extension<'_>,
) -> Result<(u64, u64), Stopped>
    requires inode { CanAppend (P.region memory.old) (head_of inode.now) inode.now.entries.now [] }
    requires whole { inode.now.slot % 8 ≡ 0 }
    requires inside { inode.now.slot + 40 ≤ size (P.region memory.old) }
    requires directory { CanAppend (P.region memory.old) directory.now.tail directory.now.entries.now directory.now.fresh.now }
    ensures prepared { IfOk result (λ new. Prepares (P.region memory.old) (P.region memory.new) inode.now directory.now new.0 new.1) }
    ensures wrote { StoresOnly (PrepareWords inode.now directory.now) (P.region memory.old) (P.region memory.new) (P.may_hold memory.old) (P.may_hold memory.new) }
    ensures settled { OnOk result (NothingPending (P.region memory.new) (P.may_hold memory.new)) }
    ensures stopped { is_err result ≡ (P.fuse memory.new).has_burnt }
    ensures keeps_fuse { KeepsFuse (λ limit. EndBy (inode.now.page ∷ []) limit × EndBy (directory.now.tail / 4096 ∷ directory.now.fresh.now) limit
        × (inode.now.slot + 40 ≤ limit)) (P.fuse memory.old) (P.fuse memory.new) }
{
    // The region's length is a u64, and so is each address up to it.
    let _length = memory.len();
    let head = BLOCK_SIZE * inode.page;
    let tail = append_entries(memory, head, inode.entries, &[])?;
    let end = append_entries(memory, directory.tail, directory.entries, directory.fresh)?;
    let slot = Slot {
        valid: 0,
        kind: inode.kind.number(),
        head,
        tail,
        created: inode.created,
    };
    write_slot(memory, inode.slot, &slot)?;
    Ok((tail, end))
}

/// Stores the words of the slot at an address but for its valid word, and fences them and all that was stored before.
fn write_slot<P: Pmem>(memory: &mut P, at: u64, slot: &Slot) -> Result<(), Stopped>
    requires whole { at % 8 ≡ 0 }
    requires inside { at + 40 ≤ size (P.region memory.old) }
    ensures done { OnOk result (P.region memory.new ≡ with_slot (P.region memory.old) at slot.now) }
    ensures wrote { StoresOnly (Within (at + 8) 32) (P.region memory.old) (P.region memory.new) (P.may_hold memory.old) (P.may_hold memory.new) }
    ensures settled { OnOk result (NothingPending (P.region memory.new) (P.may_hold memory.new)) }
    ensures stopped { is_err result ≡ (P.fuse memory.new).has_burnt }
    ensures keeps_fuse { KeepsFuse (λ limit. at + 40 ≤ limit) (P.fuse memory.old) (P.fuse memory.new) }
{
    store_slot(memory, at, slot)?;
    memory.fence()
}
