//! The pending records of a journal: which numbers they have, and where each of them stands.

ghost use Rattle.std.specs.Prelude.{◌≡◌, ◌≢◌, true, false, ◌≤◌, ◌<◌, ◌+◌, ◌*◌, ◌^◌, IsTrue, length};
ghost use Rattle.nv_region.specs.Region.{size};
ghost use Rattle.nv_journal.specs.Undo.{journal, pending_of, sound_numbers, count_of, number_of, place_of};

use nv_region::Pmem;
use nv_super::BLOCK_SIZE;

/// The number of records that a journal has room for; a number is below it.
const PLACES: u64 = 252;

/// Where the enqueue number stands, in bytes from the journal's start. The dequeue number is its first word.
const ENQUEUE: u64 = 8;

/// Where the records begin, in bytes from the journal's start.
const FIRST_RECORD: u64 = 64;

const RECORD_SIZE: u64 = 16;

/// Where the dequeue number of a CPU's journal stands, which is the journal's start.
pub(crate) fn dequeue_word(cpu: u64) -> u64
    requires { journal cpu + 4096 < 2 ^ 64 }
    ensures { result ≡ journal cpu }
{
    BLOCK_SIZE * (1 + cpu)
}

/// Where the enqueue number of a CPU's journal stands.
pub(crate) fn enqueue_word(cpu: u64) -> u64
    requires { journal cpu + 4096 < 2 ^ 64 }
    ensures { result ≡ journal cpu + 8 }
{
    dequeue_word(cpu) + ENQUEUE
}

/// The records of a CPU's journal from the dequeue number up to the enqueue number, where 0 comes after 251.
///
/// A damaged region may hold any numbers, so they are kept as they were read.
#[derive(Clone, Copy)]
pub(crate) struct Pending {
    cpu: u64,
    /// The number of the oldest pending record.
    pub(crate) dequeue: u64,
    /// The number of the place behind the newest pending record.
    pub(crate) enqueue: u64,
}

impl Pending {
    /// Reads the numbers of a CPU's journal.
    pub(crate) fn read<P: Pmem>(memory: &P, cpu: u64) -> Pending
        requires { journal cpu + 4096 ≤ size (P.region memory.now) }
        ensures is { result ≡ pending_of (P.region memory.now) cpu }
        ensures fits { journal cpu + 4096 < 2 ^ 64 }
        ensures whole { journal cpu + 4096 ≤ 8 * length (P.region memory.now).words }
    {
        // The region's length is a u64, and so is each address up to it.
        let _end = memory.len();
        Pending {
            cpu,
            dequeue: memory.load(dequeue_word(cpu)),
            enqueue: memory.load(enqueue_word(cpu)),
        }
    }

    /// Whether both numbers are those of records.
    pub(crate) fn is_sound(&self) -> bool
        ensures value { result ≡ sound_numbers self.now }
        ensures below { IsTrue result → (self.now.dequeue < 252) × (self.now.enqueue < 252) }
    {
        self.dequeue < PLACES && self.enqueue < PLACES
    }

    /// Whether there is nothing to roll back: no record is pending, or a number is none of a record's.
    pub(crate) fn is_quiet(&self) -> bool
        ensures quiet { result ≡ true → sound_numbers self.now ≡ true → self.now.dequeue ≡ self.now.enqueue }
        ensures sound { result ≡ false → (self.now.dequeue < 252) × (self.now.enqueue < 252) }
        ensures pending { result ≡ false → self.now.dequeue ≢ self.now.enqueue }
    {
        !self.is_sound() || self.dequeue == self.enqueue
    }

    /// How many records are pending.
    pub(crate) fn count(&self) -> u64
        requires dequeue { self.now.dequeue < 252 }
        requires enqueue { self.now.enqueue < 252 }
        ensures { result ≡ count_of self.now }
    {
        (self.enqueue + PLACES - self.dequeue) % PLACES
    }

    /// The number of the record that stands so many places behind the oldest.
    pub(crate) fn number(&self, behind: u64) -> u64
        requires dequeue { self.now.dequeue < 252 }
        requires behind { behind < 252 }
        ensures { result ≡ number_of self.now behind }
    {
        (self.dequeue + behind) % PLACES
    }

    /// Where that record stands: its address there, and its value in the next word.
    pub(crate) fn place(&self, behind: u64) -> u64
        requires dequeue { self.now.dequeue < 252 }
        requires behind { behind < 252 }
        requires fits { journal self.now.cpu + 4096 < 2 ^ 64 }
        ensures { result ≡ place_of self.now behind }
    {
        dequeue_word(self.cpu) + FIRST_RECORD + RECORD_SIZE * self.number(behind)
    }
}
