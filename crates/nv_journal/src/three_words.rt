//! Three words that change together, by the journal of a CPU.

ghost use Rattle.std.specs.Prelude.{◌≡◌, ◌≢◌, ◌≤◌, ◌<◌, ◌+◌, ◌%◌, ◌∷◌, [], ℕ, Bool, IsTrue, OnOk, OnErr};
ghost use Rattle.nv_region.specs.Region.{size};
ghost use Rattle.nv_region.specs.Stops.{NothingPending};
ghost use Rattle.nv_region.specs.Fuses.{KeepsFuse};
ghost use Rattle.nv_region.specs.Stored.{SameOutside, StoresOnly};
ghost use Rattle.nv_journal.specs.Undo.{journal};
ghost use Rattle.nv_journal.specs.Several.{BeforeOrAll, CanUndoAll, Values, changed};
ghost use Rattle.nv_journal.specs.InOrder.{ThreeInOrder};
ghost use Rattle.nv_journal.specs.Changing.{IsReady, StoresByJournal, UndoGives};

use crate::committing::{begin, commit};
use nv_region::{Pmem, Stopped};

/// Changes three words together by the empty journal of a CPU, in their order. Each is a byte address and the value that it gets.
///
/// Where all addresses are permitted and no journal has anything to roll back, the undone region has then all words as
/// they were, or all changed. So it is with each region that a stop at any moment of the call leaves, where all stores
/// before it were fenced. It costs four fences and takes no memory.
///
/// Errors: `Stopped` exactly where the fuse has burnt by the end of the call.
pub fn change_three<P: Pmem>(
    memory: &mut P,
    cpu: u64,
    first: (u64, u64),
    second: (u64, u64),
    third: (u64, u64),
) -> Result<(), Stopped>
    requires ready { IsReady (P.region memory.old) cpu }
    requires first { (first.0 % 8 ≡ 0) × (first.0 + 8 ≤ size (P.region memory.old)) }
    requires second { (second.0 % 8 ≡ 0) × (second.0 + 8 ≤ size (P.region memory.old)) }
    requires third { (third.0 % 8 ≡ 0) × (third.0 + 8 ≤ size (P.region memory.old)) }
    requires behind { (journal cpu + 4096 ≤ first.0) × (journal cpu + 4096 ≤ second.0) × (journal cpu + 4096 ≤ third.0) }
    // All three words are changed, and no other outside this journal's block.
    ensures done { OnOk result (SameOutside (changed (first ∷ second ∷ third ∷ []) (P.region memory.old)) (journal cpu) 4096 (P.region memory.new)) }
    ensures kept { StoresByJournal P.region P.may_hold P.fuse cpu (Values (first ∷ second ∷ third ∷ []))
        (λ limit. (journal cpu + 4096 ≤ limit) × (first.0 + 8 ≤ limit) × (second.0 + 8 ≤ limit) × (third.0 + 8 ≤ limit)) memory.old memory.new result }
    // The first word is stored before the second, and that before the third.
    ensures in_order { first.0 ≢ second.0 → first.0 ≢ third.0 → second.0 ≢ third.0 → ThreeInOrder (P.region memory.old) first second third (P.region memory.new) }
    // The region as it reads and each that a stop leaves, of any number of CPUs: rolled back, all words are as they
    // were, or all changed. Where nothing is wrong with a journal, nothing is wrong with one in these regions.
    ensures undo_gives { (permits : ℕ → Bool) (cpus : ℕ) → CanUndoAll permits cpus (P.region memory.old) cpu (first ∷ second ∷ third ∷ [])
        → UndoGives P.region P.may_hold permits cpus memory.old memory.new (BeforeOrAll permits cpus (P.region memory.old) (first ∷ second ∷ third ∷ [])) }
{
    // Fewer than eight bytes stand behind the last word, so each of these addresses is a word's.
    let _end = memory.len();
    let old_first = memory.load(first.0);
    let old_second = memory.load(second.0);
    let old_third = memory.load(third.0);
    begin(
        memory,
        cpu,
        &[
            (first.0, old_first),
            (second.0, old_second),
            (third.0, old_third),
        ],
    )?;
    store_three(memory, first, second, third)?;
    commit(memory, cpu)
}

/// Stores three words in their order, and fences them.
fn store_three<P: Pmem>(
    memory: &mut P,
    first: (u64, u64),
    second: (u64, u64),
    third: (u64, u64),
) -> Result<(), Stopped>
    requires first { (first.0 % 8 ≡ 0) × (first.0 + 8 ≤ size (P.region memory.old)) }
    requires second { (second.0 % 8 ≡ 0) × (second.0 + 8 ≤ size (P.region memory.old)) }
    requires third { (third.0 % 8 ≡ 0) × (third.0 + 8 ≤ size (P.region memory.old)) }
    ensures done { OnOk result (P.region memory.new ≡ changed (first ∷ second ∷ third ∷ []) (P.region memory.old)) }
    ensures stopped { OnErr result (IsTrue (P.fuse memory.new).has_burnt) }
    ensures keeps_fuse { KeepsFuse (λ limit. (first.0 + 8 ≤ limit) × (second.0 + 8 ≤ limit) × (third.0 + 8 ≤ limit)) (P.fuse memory.old) (P.fuse memory.new) }
    ensures settled { OnOk result (NothingPending (P.region memory.new) (P.may_hold memory.new)) }
    ensures wrote { StoresOnly (Values (first ∷ second ∷ third ∷ [])) (P.region memory.old) (P.region memory.new) (P.may_hold memory.old) (P.may_hold memory.new) }
    ensures in_order { first.0 ≢ second.0 → first.0 ≢ third.0 → second.0 ≢ third.0 → ThreeInOrder (P.region memory.old) first second third (P.region memory.new) }
{
    // Fewer than eight bytes stand behind the last word.
    let _end = memory.len();
    memory.store(first.0, first.1)?;
    memory.store(second.0, second.1)?;
    memory.store(third.0, third.1)?;
    memory.fence()
}
