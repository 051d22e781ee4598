//! Three logs that grow together: entries written behind all tails, and the tails moved by the journal of a CPU.

ghost use Rattle.std.specs.Prelude.{◌≡◌, ◌+◌, ◌/◌, ◌≤◌, ◌∷◌, ℕ, IfOk, OnOk, is_err};
ghost use Rattle.nv_region.specs.Stops.{NothingPending};
ghost use Rattle.nv_region.specs.Fuses.{KeepsFuse};
ghost use Rattle.nv_region.specs.Stored.{StoresOnly};
ghost use Rattle.nv_region.specs.Storing.{AtAnyMoment, StoresAndFences};
ghost use Rattle.nv_super.specs.Layout.{Layout};
ghost use Rattle.nv_journal.specs.Pending.{IsEmpty};
ghost use Rattle.nv_journal.specs.InOrder.{ThreeInOrder};
ghost use Rattle.nv_logpage.specs.Append.{CanAppend, EndBy, end_of};
ghost use Rattle.nv_mounted.specs.Held.{Held, Store};
ghost use Rattle.nv_commit.specs.Together.{CanCommit, ShowsIdle};
ghost use Rattle.nv_commit.specs.Replaces.{new_tail};
ghost use Rattle.nv_commit.specs.ThreeLogs.{AppendsThree, BeforeOrThree, CanExtendThree, ThreeTogether, ThreeWords, with_three};

use crate::extending::{TAIL, append_entries};
use crate::together::{Extension, append_both};
use nv_journal::change_three;
use nv_region::{Pmem, Stopped};

/// Writes entries behind the tails of three inodes, and moves all tails together by the empty journal of a CPU, in their order.
/// Answers the new tails.
///
/// After a stop at any moment of the call, the undone region has all logs as they were, or all with all of their entries,
/// and nothing is wrong with the journals. It costs five fences and takes no memory. Answers `Stopped` exactly where the
/// fuse has burnt by the end of the call.
pub fn extend_three<P: Pmem>(
    memory: &mut P,
    cpu: u64,
    first: &Extension<'_>,
    second: &Extension<'_>,
    third: &Extension<'_>,
) -> Result<(u64, u64, u64), Stopped>
    requires empty { IsEmpty (P.region memory.old) cpu }
    requires first { CanCommit (P.region memory.old) cpu first.now }
    requires second { CanCommit (P.region memory.old) cpu second.now }
    requires third { CanCommit (P.region memory.old) cpu third.now }
    ensures ends { IfOk result (λ new. (new.0 ≡ end_of first.now.fresh.now 0 first.now.tail first.now.entries.now)
        × (new.1 ≡ end_of second.now.fresh.now 0 second.now.tail second.now.entries.now)
        × (new.2 ≡ end_of third.now.fresh.now 0 third.now.tail third.now.entries.now)) }
    ensures shows { (l : Layout) (held : Store) (i j k : ℕ) (h g f : Held) → CanExtendThree (P.region memory.old) l held cpu i h first.now j g second.now k f third.now
        → OnOk result (ShowsIdle (P.region memory.new) l (with_three held i h first.now j g second.now k f third.now)) }
    ensures kept { StoresAndFences P.region P.may_hold P.fuse (ThreeTogether cpu first.now second.now third.now)
        (λ limit. EndBy (first.now.tail / 4096 ∷ first.now.fresh.now) limit × EndBy (second.now.tail / 4096 ∷ second.now.fresh.now) limit
        × EndBy (third.now.tail / 4096 ∷ third.now.fresh.now) limit × (first.now.slot + 32 ≤ limit) × (second.now.slot + 32 ≤ limit)
        × (third.now.slot + 32 ≤ limit)) memory.old memory.new result }
    // The tails are stored in their order.
    ensures in_order { (l : Layout) (held : Store) (i j k : ℕ) (h g f : Held) → CanExtendThree (P.region memory.old) l held cpu i h first.now j g second.now k f third.now
        → ThreeInOrder (P.region memory.old) (new_tail first.now) (new_tail second.now) (new_tail third.now) (P.region memory.new) }
    // The region as it reads, also after a stop, and each that a stop leaves.
    ensures moments { (l : Layout) (held : Store) (i j k : ℕ) (h g f : Held) → CanExtendThree (P.region memory.old) l held cpu i h first.now j g second.now k f third.now
        → AtAnyMoment P.region P.may_hold memory.old memory.new (BeforeOrThree l held i h first.now j g second.now k f third.now) }
{
    // The region's length is a u64, and fewer than eight bytes stand behind the last word.
    let _length = memory.len();
    let ends = append_three(memory, first, second, third)?;
    change_three(
        memory,
        cpu,
        (first.slot + TAIL, ends.0),
        (second.slot + TAIL, ends.1),
        (third.slot + TAIL, ends.2),
    )?;
    Ok(ends)
}

/// Writes entries behind three tails and fences them.
fn append_three<P: Pmem>(
    memory: &mut P,
    first: &Extension<'_>,
    second: &Extension<'_>,
    third: &Extension<'_>,
) -> Result<(u64, u64, u64), Stopped>
    requires first { CanAppend (P.region memory.old) first.now.tail first.now.entries.now first.now.fresh.now }
    requires second { CanAppend (P.region memory.old) second.now.tail second.now.entries.now second.now.fresh.now }
    requires third { CanAppend (P.region memory.old) third.now.tail third.now.entries.now third.now.fresh.now }
    ensures appended { IfOk result (λ new. AppendsThree (P.region memory.old) (P.region memory.new) first.now second.now third.now new.0 new.1 new.2) }
    ensures wrote { StoresOnly (ThreeWords first.now second.now third.now) (P.region memory.old) (P.region memory.new) (P.may_hold memory.old) (P.may_hold memory.new) }
    ensures settled { OnOk result (NothingPending (P.region memory.new) (P.may_hold memory.new)) }
    ensures stopped { is_err result ≡ (P.fuse memory.new).has_burnt }
    ensures keeps_fuse { KeepsFuse (λ limit. EndBy (first.now.tail / 4096 ∷ first.now.fresh.now) limit × EndBy (second.now.tail / 4096 ∷ second.now.fresh.now) limit
        × EndBy (third.now.tail / 4096 ∷ third.now.fresh.now) limit) (P.fuse memory.old) (P.fuse memory.new) }
{
    let third_end = append_entries(memory, third.tail, third.entries, third.fresh)?;
    let ends = append_both(memory, first, second)?;
    Ok((ends.0, ends.1, third_end))
}
