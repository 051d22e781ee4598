//! An inode that goes as its name is given to another: entries behind the tails of two directories' logs, and its valid word,
//! by the journal of a CPU.

ghost use Rattle.std.specs.Prelude.{◌≡◌, ◌+◌, ◌/◌, ◌≤◌, ◌∷◌, ℕ, IfOk, OnOk};
ghost use Rattle.nv_region.specs.Storing.{AtAnyMoment, StoresAndFences};
ghost use Rattle.nv_super.specs.Layout.{Layout};
ghost use Rattle.nv_journal.specs.Pending.{IsEmpty};
ghost use Rattle.nv_journal.specs.InOrder.{ThreeInOrder};
ghost use Rattle.nv_logpage.specs.Append.{EndBy, end_of};
ghost use Rattle.nv_mounted.specs.Held.{Held, Store};
ghost use Rattle.nv_commit.specs.Together.{CanCommit, ShowsIdle};
ghost use Rattle.nv_commit.specs.Removes.{CanClear};
ghost use Rattle.nv_commit.specs.Replaces.{BeforeOrReplaced, CanReplace, ReplaceWords, new_tail, with_replaced};

use crate::extending::TAIL;
use crate::together::{Extension, append_both};
use nv_journal::change_three;
use nv_region::{Pmem, Stopped};

/// Writes entries behind the tails of two directories' logs, and then, by the empty journal of a CPU, moves both tails behind
/// them, the first one first, and clears the valid word of the inode whose slot is at `slot`. Answers the new tails.
///
/// After a stop at any moment of the call, the undone region has both logs as they were and the inode, or both with all of
/// their entries and no such inode, and nothing is wrong with the journals. It costs five fences and takes no memory.
/// Answers `Stopped` exactly where the fuse has burnt by the end of the call.
pub fn replace_inode<P: Pmem>(
    memory: &mut P,
    cpu: u64,
    first: &Extension<'_>,
    second: &Extension<'_>,
    slot: u64,
) -> Result<(u64, u64), Stopped>
    requires empty { IsEmpty (P.region memory.old) cpu }
    requires first { CanCommit (P.region memory.old) cpu first.now }
    requires second { CanCommit (P.region memory.old) cpu second.now }
    requires slot { CanClear (P.region memory.old) cpu slot }
    ensures ends { IfOk result (λ new. (new.0 ≡ end_of first.now.fresh.now 0 first.now.tail first.now.entries.now) × (new.1 ≡ end_of second.now.fresh.now 0 second.now.tail second.now.entries.now)) }
    ensures shows { (l : Layout) (held : Store) (i j k : ℕ) (h g : Held) → CanReplace (P.region memory.old) l held cpu i h first.now j g second.now k slot
        → OnOk result (ShowsIdle (P.region memory.new) l (with_replaced held i h first.now j g second.now k)) }
    ensures kept { StoresAndFences P.region P.may_hold P.fuse (ReplaceWords cpu first.now second.now slot)
        (λ limit. EndBy (first.now.tail / 4096 ∷ first.now.fresh.now) limit × EndBy (second.now.tail / 4096 ∷ second.now.fresh.now) limit
        × (first.now.slot + 32 ≤ limit) × (second.now.slot + 32 ≤ limit) × (slot + 8 ≤ limit)) memory.old memory.new result }
    // The first tail is stored first, and the valid word last.
    ensures in_order { (l : Layout) (held : Store) (i j k : ℕ) (h g : Held) → CanReplace (P.region memory.old) l held cpu i h first.now j g second.now k slot
        → ThreeInOrder (P.region memory.old) (new_tail first.now) (new_tail second.now) (slot, 0) (P.region memory.new) }
    // The region as it reads, also after a stop, and each that a stop leaves.
    ensures moments { (l : Layout) (held : Store) (i j k : ℕ) (h g : Held) → CanReplace (P.region memory.old) l held cpu i h first.now j g second.now k slot
        → AtAnyMoment P.region P.may_hold memory.old memory.new (BeforeOrReplaced l held i h first.now j g second.now k) }
{
    // The region's length is a u64, and fewer than eight bytes stand behind the last word.
    let _length = memory.len();
    let ends = append_both(memory, first, second)?;
    change_three(
        memory,
        cpu,
        (first.slot + TAIL, ends.0),
        (second.slot + TAIL, ends.1),
        (slot, 0),
    )?;
    Ok(ends)
}
