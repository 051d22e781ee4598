//! An inode that goes: the entries behind the tail of its directory's log, and its valid word, by the journal of a CPU.

ghost use Rattle.std.specs.Prelude.{◌≡◌, ◌+◌, ◌/◌, ◌≤◌, ◌∷◌, ℕ, IfOk, OnOk};
ghost use Rattle.nv_region.specs.Storing.{AtAnyMoment, StoresAndFences};
ghost use Rattle.nv_super.specs.Layout.{Layout};
ghost use Rattle.nv_journal.specs.Pending.{IsEmpty};
ghost use Rattle.nv_journal.specs.InOrder.{FirstIsFirst};
ghost use Rattle.nv_logpage.specs.Append.{EndBy, end_of};
ghost use Rattle.nv_mounted.specs.Held.{Held, Store};
ghost use Rattle.nv_commit.specs.Together.{CanCommit, ShowsIdle};
ghost use Rattle.nv_commit.specs.Removes.{BeforeOrRemoved, CanClear, CanRemove, RemoveWords, with_removed};

use crate::extending::{TAIL, append_entries};
use crate::together::Extension;
use nv_journal::change_two;
use nv_region::{Pmem, Stopped};

/// Writes entries behind the tail of a directory's log, and then, by the empty journal of a CPU, moves the tail behind them
/// and clears the valid word of the inode whose slot is at `slot`. Answers the new tail.
///
/// After a stop at any moment of the call, the undone region has the log as it was and the inode, or the log with all
/// of the entries and no such inode, and nothing is wrong with the journals. It costs five fences and takes no memory.
/// Answers `Stopped` exactly where the fuse has burnt by the end of the call.
pub fn remove_inode<P: Pmem>(
    memory: &mut P,
    cpu: u64,
    directory: &Extension<'_>,
    slot: u64,
) -> Result<u64, Stopped>
    requires empty { IsEmpty (P.region memory.old) cpu }
    requires directory { CanCommit (P.region memory.old) cpu directory.now }
    requires slot { CanClear (P.region memory.old) cpu slot }
    ensures end { IfOk result (λ new. new ≡ end_of directory.now.fresh.now 0 directory.now.tail directory.now.entries.now) }
    ensures shows { (l : Layout) (held : Store) (i j : ℕ) (h : Held) → CanRemove (P.region memory.old) l held cpu i h directory.now j slot
        → OnOk result (ShowsIdle (P.region memory.new) l (with_removed held i h directory.now j)) }
    ensures kept { StoresAndFences P.region P.may_hold P.fuse (RemoveWords cpu directory.now slot)
        (λ limit. EndBy (directory.now.tail / 4096 ∷ directory.now.fresh.now) limit × (directory.now.slot + 32 ≤ limit) × (slot + 8 ≤ limit)) memory.old memory.new result }
    // The tail is stored before the valid word.
    ensures in_order { (l : Layout) (held : Store) (i j : ℕ) (h : Held) → CanRemove (P.region memory.old) l held cpu i h directory.now j slot
        → FirstIsFirst (P.region memory.old) (directory.now.slot + 24) (end_of directory.now.fresh.now 0 directory.now.tail directory.now.entries.now) slot (P.region memory.new) }
    // The region as it reads, also after a stop, and each that a stop leaves.
    ensures moments { (l : Layout) (held : Store) (i j : ℕ) (h : Held) → CanRemove (P.region memory.old) l held cpu i h directory.now j slot
        → AtAnyMoment P.region P.may_hold memory.old memory.new (BeforeOrRemoved l held i h directory.now j) }
{
    // The region's length is a u64, and fewer than eight bytes stand behind the last word.
    let _length = memory.len();
    let end = append_entries(memory, directory.tail, directory.entries, directory.fresh)?;
    memory.fence()?;
    change_two(memory, cpu, directory.slot + TAIL, end, slot, 0)?;
    Ok(end)
}
