//! Calls that change more than one word: the journal of a CPU holds the old values until all of them are stored.
//!
//! The records are fenced before the enqueue number makes them pending, and that number before the words change. The
//! words are fenced before the journal is emptied. So where all stores before the call were fenced, a stop at any
//! moment leaves all records of a call or none, and undo gives the words from before, or all of them changed.

ghost use Rattle.std.specs.Prelude.{◌≡◌, ◌≢◌, ◌⊎◌, ◌≤◌, ◌<◌, ◌+◌, ◌%◌, ◌^◌, ℕ, Bool, IsTrue, OnOk, OnErr, is_err, length};
ghost use Rattle.nv_region.specs.Region.{put, size, word};
ghost use Rattle.nv_region.specs.Stops.{NothingPending, LeavesOnly, One};
ghost use Rattle.nv_region.specs.Fuses.{KeepsFuse};
ghost use Rattle.nv_region.specs.Stored.{SameOutside, StoresOnly, Within};
ghost use Rattle.nv_region.specs.Storing.{AtAnyMoment, StoresAndFences};
ghost use Rattle.nv_journal.specs.Undo.{journal, enqueue};
ghost use Rattle.nv_journal.specs.Pending.{BeforeOrAfter, Begun, CanUndo, HasRecords, IsEmpty};
ghost use Rattle.nv_journal.specs.Recorded.{Recorded, JournalWords, Two};
ghost use Rattle.nv_journal.specs.InOrder.{FirstIsFirst};
ghost use Rattle.nv_journal.specs.Changing.{IsReady, StoresByJournal, UndoGives};

use crate::pending::{Pending, dequeue_word, enqueue_word};
use nv_region::{Pmem, Stopped, commit_word};

/// Makes records pending in the empty journal of a CPU. A caller gives, of each word that is about to change, its byte
/// address, which should be a permitted one, and the value that it has now. A journal has room for 251.
///
/// Only the journal's numbers and records may change. Where all stores before the call were fenced, a stop at any moment of it leaves
/// all of the records pending or none. It costs two fences and takes no memory.
///
/// Errors: `Stopped` exactly where the fuse has burnt by the end of the call; all of the records are pending then or
/// none.
pub fn begin<P: Pmem>(memory: &mut P, cpu: u64, records: &[(u64, u64)]) -> Result<(), Stopped>
    requires inside { journal cpu + 4096 ≤ size (P.region memory.old) }
    requires empty { IsEmpty (P.region memory.old) cpu }
    requires few { length records.now ≤ 251 }
    ensures pending { OnOk result (HasRecords (P.region memory.new) cpu records.now) }
    ensures moments { AtAnyMoment P.region P.may_hold memory.old memory.new (Begun (P.region memory.old) cpu records.now) }
    ensures kept { StoresAndFences P.region P.may_hold P.fuse (Within (journal cpu) 4096) (λ limit. journal cpu + 4096 ≤ limit) memory.old memory.new result }
    // Of the block its numbers and its records alone.
    ensures keeps_link { StoresOnly (JournalWords cpu) (P.region memory.old) (P.region memory.new) (P.may_hold memory.old) (P.may_hold memory.new) }
{
    let pending = Pending::read(memory, cpu);
    write_records(memory, &pending, records)?;
    memory.fence()?;
    let behind_all = pending.number(records.len() as u64);
    commit_word(memory, enqueue_word(cpu), behind_all)
}

/// Writes records to the places from the dequeue number on.
fn write_records<P: Pmem>(
    memory: &mut P,
    pending: &Pending,
    records: &[(u64, u64)],
) -> Result<(), Stopped>
    requires inside { journal pending.now.cpu + 4096 ≤ size (P.region memory.old) }
    requires fits { journal pending.now.cpu + 4096 < 2 ^ 64 }
    requires dequeue { pending.now.dequeue < 252 }
    requires few { length records.now ≤ 251 }
    ensures recorded { OnOk result (Recorded (P.region memory.new) pending.now records.now (length records.now)) }
    ensures wrote { StoresOnly (Within (journal pending.now.cpu + 64) 4032) (P.region memory.old) (P.region memory.new) (P.may_hold memory.old) (P.may_hold memory.new) }
    ensures len { size (P.region memory.new) ≡ size (P.region memory.old) }
    ensures stopped { OnErr result (IsTrue (P.fuse memory.new).has_burnt) }
    ensures keeps_fuse { KeepsFuse (λ limit. journal pending.now.cpu + 4096 ≤ limit) (P.fuse memory.old) (P.fuse memory.new) }
{
    for k in 0..records.len() {
        write_record(memory, pending.place(k as u64), records[k])?;
    }
    Ok(())
}

/// Writes a record to its place: its address, and in the next word its value.
fn write_record<P: Pmem>(memory: &mut P, place: u64, pair: (u64, u64)) -> Result<(), Stopped>
    requires aligned { place % 8 ≡ 0 }
    requires within { place + 16 ≤ size (P.region memory.old) }
    ensures recorded { OnOk result ((word (P.region memory.new) place ≡ pair.0) × (word (P.region memory.new) (place + 8) ≡ pair.1)) }
    ensures wrote { StoresOnly (Within place 16) (P.region memory.old) (P.region memory.new) (P.may_hold memory.old) (P.may_hold memory.new) }
    ensures stopped { OnErr result (IsTrue (P.fuse memory.new).has_burnt) }
    ensures keeps_fuse { KeepsFuse (λ limit. place + 16 ≤ limit) (P.fuse memory.old) (P.fuse memory.new) }
{
    // Fewer than eight bytes stand behind the last word, so both addresses are those of words.
    let _end = memory.len();
    memory.store_words(place, &[pair.0, pair.1])
}

/// Gives the dequeue word of a CPU's journal the enqueue number. Where that is below 252, no record is pending in the
/// journal then: the change that it records is done.
///
/// The caller fences the words that the records name before. Where all stores before the call were fenced, a stop at
/// any moment of it leaves the region from before, or the new one. It costs one fence and takes no memory.
///
/// Errors: `Stopped` exactly where the fuse has burnt by the end of the call; the region is as before then, or the new
/// one.
pub fn commit<P: Pmem>(memory: &mut P, cpu: u64) -> Result<(), Stopped>
    requires { journal cpu + 4096 ≤ size (P.region memory.old) }
    ensures done { OnOk result (P.region memory.new ≡ put (P.region memory.old) (journal cpu) (enqueue (P.region memory.old) cpu)) }
    ensures empty { OnOk result (enqueue (P.region memory.old) cpu < 252 → IsEmpty (P.region memory.new) cpu) }
    ensures reads { (P.region memory.new ≡ P.region memory.old) ⊎ (P.region memory.new ≡ put (P.region memory.old) (journal cpu) (enqueue (P.region memory.old) cpu)) }
    ensures wrote { StoresOnly (One (journal cpu) (enqueue (P.region memory.old) cpu)) (P.region memory.old) (P.region memory.new) (P.may_hold memory.old) (P.may_hold memory.new) }
    ensures stopped { is_err result ≡ (P.fuse memory.new).has_burnt }
    ensures keeps_fuse { KeepsFuse (λ limit. journal cpu + 8 ≤ limit) (P.fuse memory.old) (P.fuse memory.new) }
    ensures settled { OnOk result (NothingPending (P.region memory.new) (P.may_hold memory.new)) }
    ensures any_stop { NothingPending (P.region memory.old) (P.may_hold memory.old) → LeavesOnly (P.region memory.new) (P.may_hold memory.new)
        (λ left. (left ≡ P.region memory.old) ⊎ (left ≡ put (P.region memory.old) (journal cpu) (enqueue (P.region memory.old) cpu))) }
{
    let pending = Pending::read(memory, cpu);
    // Unfenced, later stores could be kept and this one lost: the records would then undo those stores' words.
    commit_word(memory, dequeue_word(cpu), pending.enqueue)
}

/// Changes the words at two byte addresses together, the first one first, by the empty journal of a CPU.
///
/// Where both addresses are permitted and no journal has anything to roll back, the undone region has then both words
/// as they were, or both changed. So it is with each region that a stop at any moment of the call leaves, where all
/// stores before it were fenced. It costs four fences and takes no memory.
///
/// Errors: `Stopped` exactly where the fuse has burnt by the end of the call.
pub fn change_two<P: Pmem>(
    memory: &mut P,
    cpu: u64,
    first: u64,
    first_value: u64,
    second: u64,
    second_value: u64,
) -> Result<(), Stopped>
    requires ready { IsReady (P.region memory.old) cpu }
    requires first { (first % 8 ≡ 0) × (first + 8 ≤ size (P.region memory.old)) }
    requires second { (second % 8 ≡ 0) × (second + 8 ≤ size (P.region memory.old)) }
    requires behind { (journal cpu + 4096 ≤ first) × (journal cpu + 4096 ≤ second) }
    // Both words are changed, and no other outside this journal's block.
    ensures done { OnOk result (SameOutside (put (put (P.region memory.old) first first_value) second second_value) (journal cpu) 4096 (P.region memory.new)) }
    ensures kept { StoresByJournal P.region P.may_hold P.fuse cpu (Two first first_value second second_value)
        (λ limit. (journal cpu + 4096 ≤ limit) × (first + 8 ≤ limit) × (second + 8 ≤ limit)) memory.old memory.new result }
    // The first word is stored first.
    ensures in_order { first ≢ second → FirstIsFirst (P.region memory.old) first first_value second (P.region memory.new) }
    // The region as it reads and each that a stop leaves, of any number of CPUs: rolled back, both words are as they
    // were, or both changed. Where nothing is wrong with a journal, nothing is wrong with one in these regions: its numbers
    // are those of records, and each pending record names a permitted word.
    ensures undo_gives { (permits : ℕ → Bool) (cpus : ℕ) → CanUndo permits cpus (P.region memory.old) cpu first second
        → UndoGives P.region P.may_hold permits cpus memory.old memory.new (BeforeOrAfter permits cpus (P.region memory.old) first first_value second second_value) }
{
    // Fewer than eight bytes stand behind the last word, so each of these addresses is a word's.
    let _end = memory.len();
    let old_first = memory.load(first);
    let old_second = memory.load(second);
    begin(memory, cpu, &[(first, old_first), (second, old_second)])?;
    store_both(memory, first, first_value, second, second_value)?;
    commit(memory, cpu)
}

/// Stores two words, the first one first, and fences them.
fn store_both<P: Pmem>(
    memory: &mut P,
    first: u64,
    first_value: u64,
    second: u64,
    second_value: u64,
) -> Result<(), Stopped>
    requires first { (first % 8 ≡ 0) × (first + 8 ≤ size (P.region memory.old)) }
    requires second { (second % 8 ≡ 0) × (second + 8 ≤ size (P.region memory.old)) }
    ensures done { OnOk result (P.region memory.new ≡ put (put (P.region memory.old) first first_value) second second_value) }
    ensures stopped { OnErr result (IsTrue (P.fuse memory.new).has_burnt) }
    ensures keeps_fuse { KeepsFuse (λ limit. (first + 8 ≤ limit) × (second + 8 ≤ limit)) (P.fuse memory.old) (P.fuse memory.new) }
    ensures settled { OnOk result (NothingPending (P.region memory.new) (P.may_hold memory.new)) }
    ensures wrote { StoresOnly (Two first first_value second second_value) (P.region memory.old) (P.region memory.new) (P.may_hold memory.old) (P.may_hold memory.new) }
    ensures in_order { first ≢ second → FirstIsFirst (P.region memory.old) first first_value second (P.region memory.new) }
{
    // Fewer than eight bytes stand behind the last word.
    let _end = memory.len();
    memory.store(first, first_value)?;
    memory.store(second, second_value)?;
    memory.fence()
}
