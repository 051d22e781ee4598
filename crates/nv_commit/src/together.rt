//! Two logs that grow together: entries written behind both tails, and both tails moved by the journal of a CPU.

ghost use Rattle.std.specs.Prelude.{◌≡◌, ◌+◌, ◌/◌, ◌≤◌, ◌∷◌, ℕ, IfOk, OnOk, is_err};
ghost use Rattle.nv_region.specs.Stops.{NothingPending};
ghost use Rattle.nv_region.specs.Fuses.{KeepsFuse};
ghost use Rattle.nv_region.specs.Stored.{StoresOnly};
ghost use Rattle.nv_region.specs.Storing.{AtAnyMoment, StoresAndFences};
ghost use Rattle.nv_super.specs.Layout.{Layout};
ghost use Rattle.nv_journal.specs.Pending.{IsEmpty};
ghost use Rattle.nv_journal.specs.InOrder.{FirstIsFirst};
ghost use Rattle.nv_logpage.specs.Append.{CanAppend, EndBy, end_of};
ghost use Rattle.nv_mounted.specs.Held.{Held, Store};
ghost use Rattle.nv_commit.specs.Together.{AppendsBoth, BeforeOrBoth, BothWords, CanCommit, CanExtendTwo, ShowsIdle, TogetherWords, with_logs};

use crate::extending::{TAIL, append_entries};
use nv_entry::Entry;
use nv_journal::change_two;
use nv_region::{Pmem, Stopped};

/// What goes behind the tail of an inode's log.
#[derive(Clone, Copy)]
pub struct Extension<'a> {
    /// The byte address of the inode's slot.
    pub slot: u64,
    /// The byte address of the log's tail.
    pub tail: u64,
    /// The entries, none of them a next-page entry.
    pub entries: &'a [Entry],
    /// Free blocks, as many as the entries take, or more.
    pub fresh: &'a [u64],
}

/// Writes entries behind the tails of two inodes, and moves both tails together by the empty journal of a CPU, the first one
/// first. Answers the new tails.
///
/// After a stop at any moment of the call, the undone region has both logs as they were, or both with all of their
/// entries, and nothing is wrong with the journals. It costs five fences and takes no memory. Answers `Stopped` exactly
/// where the fuse has burnt by the end of the call.
pub fn extend_two<P: Pmem>(
    memory: &mut P,
    cpu: u64,
    first: &Extension<'_>,
    second: &Extension<'_>,
) -> Result<(u64, u64), Stopped>
    requires empty { IsEmpty (P.region memory.old) cpu }
    requires first { CanCommit (P.region memory.old) cpu first.now }
    requires second { CanCommit (P.region memory.old) cpu second.now }
    ensures ends { IfOk result (λ new. (new.0 ≡ end_of first.now.fresh.now 0 first.now.tail first.now.entries.now) × (new.1 ≡ end_of second.now.fresh.now 0 second.now.tail second.now.entries.now)) }
    ensures shows { (l : Layout) (held : Store) (i j : ℕ) (h g : Held) → CanExtendTwo (P.region memory.old) l held cpu i h first.now j g second.now
        → OnOk result (ShowsIdle (P.region memory.new) l (with_logs held i h first.now j g second.now)) }
    ensures kept { StoresAndFences P.region P.may_hold P.fuse (TogetherWords cpu first.now second.now)
        (λ limit. EndBy (first.now.tail / 4096 ∷ first.now.fresh.now) limit × EndBy (second.now.tail / 4096 ∷ second.now.fresh.now) limit
        × (first.now.slot + 32 ≤ limit) × (second.now.slot + 32 ≤ limit)) memory.old memory.new result }
    // The first tail is stored first.
    ensures in_order { (l : Layout) (held : Store) (i j : ℕ) (h g : Held) → CanExtendTwo (P.region memory.old) l held cpu i h first.now j g second.now
        → FirstIsFirst (P.region memory.old) (first.now.slot + 24) (end_of first.now.fresh.now 0 first.now.tail first.now.entries.now) (second.now.slot + 24) (P.region memory.new) }
    // The region as it reads, also after a stop, and each that a stop leaves: rolled back, it shows what was held, or that
    // with both logs grown. Its journals have no faults.
    ensures moments { (l : Layout) (held : Store) (i j : ℕ) (h g : Held) → CanExtendTwo (P.region memory.old) l held cpu i h first.now j g second.now
        → AtAnyMoment P.region P.may_hold memory.old memory.new (BeforeOrBoth l held i h first.now j g second.now) }
{
    // The region's length is a u64, and fewer than eight bytes stand behind the last word.
    let _length = memory.len();
    let ends = append_both(memory, first, second)?;
    change_two(
        memory,
        cpu,
        first.slot + TAIL,
        ends.0,
        second.slot + TAIL,
        ends.1,
    )?;
    Ok(ends)
}

/// Writes entries behind two tails and fences them.
pub(crate) fn append_both<P: Pmem>(
    memory: &mut P,
    first: &Extension<'_>,
    second: &Extension<'_>,
) -> Result<(u64, u64), Stopped>
    requires first { CanAppend (P.region memory.old) first.now.tail first.now.entries.now first.now.fresh.now }
    requires second { CanAppend (P.region memory.old) second.now.tail second.now.entries.now second.now.fresh.now }
    ensures appended { IfOk result (λ new. AppendsBoth (P.region memory.old) (P.region memory.new) first.now second.now new.0 new.1) }
    ensures wrote { StoresOnly (BothWords first.now second.now) (P.region memory.old) (P.region memory.new) (P.may_hold memory.old) (P.may_hold memory.new) }
    ensures settled { OnOk result (NothingPending (P.region memory.new) (P.may_hold memory.new)) }
    ensures stopped { is_err result ≡ (P.fuse memory.new).has_burnt }
    ensures keeps_fuse { KeepsFuse (λ limit. EndBy (first.now.tail / 4096 ∷ first.now.fresh.now) limit
        × EndBy (second.now.tail / 4096 ∷ second.now.fresh.now) limit) (P.fuse memory.old) (P.fuse memory.new) }
{
    let first_end = append_entries(memory, first.tail, first.entries, first.fresh)?;
    let second_end = append_entries(memory, second.tail, second.entries, second.fresh)?;
    memory.fence()?;
    Ok((first_end, second_end))
}
