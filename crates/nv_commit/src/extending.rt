//! Entries written behind the tail of a log, and the tail moved behind them by one store.

ghost use Rattle.std.specs.Prelude.{◌≡◌, ◌+◌, ◌/◌, ◌%◌, ◌≤◌, ◌∷◌, ℕ, true, IfOk, OnErr, OnOk};
ghost use Rattle.nv_region.specs.Region.{size};
ghost use Rattle.nv_region.specs.Stops.{LeavesOnly, PendingOnly};
ghost use Rattle.nv_region.specs.Fuses.{KeepsFuse};
ghost use Rattle.nv_region.specs.Stored.{StoresOnly};
ghost use Rattle.nv_region.specs.Storing.{AtAnyMoment, StoresAndFences};
ghost use Rattle.nv_super.specs.Layout.{Layout};
ghost use Rattle.nv_logpage.specs.Append.{AppendWords, CanAppend, EndBy, end_of};
ghost use Rattle.nv_mounted.specs.Appended.{Appends};
ghost use Rattle.nv_mounted.specs.Held.{Held, Store};
ghost use Rattle.nv_mounted.specs.Loose.{Loose};
ghost use Rattle.nv_commit.specs.Extends.{BeforeOrExtended, CanExtend, ExtendWords, LooseOrExtended, ShowsMoved, with_log};

use nv_entry::Entry;
use nv_logpage::append;
use nv_region::{Pmem, Stopped, commit_word};

/// The tail word, by its place in a slot.
pub(crate) const TAIL: u64 = 24;

/// Writes the entries behind the tail of the inode whose slot is at this address, over these fresh pages, and moves the
/// tail behind them. Answers the new tail.
///
/// A stop at any moment of the call leaves the log as it was or with all of the entries. It costs two fences and takes no
/// memory. Answers `Stopped` exactly where the fuse has burnt by the end of the call.
pub fn extend_log<P: Pmem>(
    memory: &mut P,
    slot: u64,
    tail: u64,
    entries: &[Entry],
    fresh: &[u64],
) -> Result<u64, Stopped>
    requires can { CanAppend (P.region memory.old) tail entries.now fresh.now }
    requires whole { slot % 8 ≡ 0 }
    requires inside { slot + 32 ≤ size (P.region memory.old) }
    ensures end { IfOk result (λ new. new ≡ end_of fresh.now 0 tail entries.now) }
    // The region shows the inode with the grown log. Where nothing is wrong with that, nothing is wrong with the region.
    ensures shows { (l : Layout) (held : Store) (i : ℕ) (h : Held) → CanExtend (P.region memory.old) l held i h slot tail entries.now fresh.now
        → OnOk result (ShowsMoved (P.region memory.old) l (with_log held i h entries.now fresh.now) (P.region memory.new)) }
    ensures kept { StoresAndFences P.region P.may_hold P.fuse (ExtendWords slot tail entries.now fresh.now)
        (λ limit. EndBy (tail / 4096 ∷ fresh.now) limit × (slot + 32 ≤ limit)) memory.old memory.new result }
    // The region as it reads, also after a stop, and each that a stop leaves.
    ensures moments { (l : Layout) (held : Store) (i : ℕ) (h : Held) → CanExtend (P.region memory.old) l held i h slot tail entries.now fresh.now
        → AtAnyMoment P.region P.may_hold memory.old memory.new (BeforeOrExtended (P.region memory.old) l held i h entries.now fresh.now) }
    // So it is too where loose words were pending, as those of data that the entries write.
    ensures loose_stop { (l : Layout) (held : Store) (i : ℕ) (h : Held) → CanExtend (P.region memory.old) l held i h slot tail entries.now fresh.now
        → PendingOnly (P.region memory.old) (P.may_hold memory.old) (Loose l held)
        → LeavesOnly (P.region memory.new) (P.may_hold memory.new) (LooseOrExtended (P.region memory.old) l held i h slot tail entries.now fresh.now) }
{
    // The region's length is a u64, and fewer than eight bytes stand behind the last word.
    let _length = memory.len();
    let end = append_entries(memory, tail, entries, fresh)?;
    memory.fence()?;
    commit_word(memory, slot + TAIL, end)?;
    Ok(end)
}

/// Writes entries behind a tail, of which this crate needs less than `append` promises. Answers the new tail.
pub(crate) fn append_entries<P: Pmem>(
    memory: &mut P,
    tail: u64,
    entries: &[Entry],
    fresh: &[u64],
) -> Result<u64, Stopped>
    requires { CanAppend (P.region memory.old) tail entries.now fresh.now }
    ensures appends { IfOk result (λ new. Appends (P.region memory.old) (P.region memory.new) tail new entries.now fresh.now) }
    ensures end { IfOk result (λ new. new ≡ end_of fresh.now 0 tail entries.now) }
    ensures wrote { StoresOnly (AppendWords tail fresh.now) (P.region memory.old) (P.region memory.new) (P.may_hold memory.old) (P.may_hold memory.new) }
    ensures len { size (P.region memory.new) ≡ size (P.region memory.old) }
    ensures stopped { OnErr result ((P.fuse memory.new).has_burnt ≡ true) }
    ensures keeps_fuse { KeepsFuse (λ limit. EndBy (tail / 4096 ∷ fresh.now) limit) (P.fuse memory.old) (P.fuse memory.new) }
{
    append(memory, tail, entries, fresh)
}
