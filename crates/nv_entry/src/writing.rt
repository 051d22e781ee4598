//! Writing an entry: its words, stored in one row.

ghost use Rattle.std.specs.Prelude.{◌≡◌, ◌+◌, ◌*◌, ◌/◌, ◌%◌, ◌<◌, ◌≤◌, ℕ, length, get_or, OnOk, is_err};
ghost use Rattle.nv_region.specs.Region.{size};
ghost use Rattle.nv_region.specs.Fuses.{KeepsFuse};
ghost use Rattle.nv_region.specs.Stored.{SameOutside, StoresOnly, Within};
ghost use Rattle.nv_entry.specs.Text.{text_word};
ghost use Rattle.nv_entry.specs.Spelling.{Stands, entry_length, operation_code, words_for, IsNameAt, first_word};
ghost use Rattle.nv_entry.specs.Written.{HoldsWords};

use crate::entry::{Entry, NameEntry, Operation, WRITE_LENGTH};
use crate::first::First;
use byteorder::{ByteOrder, LittleEndian};
use nv_super::{Pmem, Stopped};

/// The words of the longest entry: three, and those of a name of 255 bytes.
const MOST_WORDS: usize = 35;

/// How many bytes the entry takes: whole words, from 8 to 280 bytes.
pub fn length(entry: &Entry) -> u64
    ensures value { result ≡ entry_length entry.now }
    ensures some { 8 ≤ result }
    ensures short { result ≤ 280 }
    ensures whole { result % 8 ≡ 0 }
{
    match entry {
        Entry::NextPage => 8,
        Entry::Write(_) => WRITE_LENGTH,
        Entry::Attr(_) => 32,
        Entry::Name(e) => 24 + 8 * ((e.name.as_slice().len() as u64 + 7) / 8),
        Entry::Links(_) => 24,
    }
}

/// Writes the entry at the byte address `at`, a multiple of 8, without a fence. Then it stands there, so that reading
/// there gives it back. No word outside its place changes, whatever the call answers.
///
/// Errors: `Stopped` exactly where the fuse has burnt by the end of the call.
pub fn write_entry<P: Pmem>(memory: &mut P, at: u64, entry: &Entry) -> Result<(), Stopped>
    requires aligned { at % 8 ≡ 0 }
    requires inside { at + entry_length entry.now ≤ size (P.region memory.old) }
    ensures spelled { OnOk result (Stands (P.region memory.new) at entry.now) }
    ensures rest { SameOutside (P.region memory.old) at (entry_length entry.now) (P.region memory.new) }
    ensures wrote { StoresOnly (Within at (entry_length entry.now)) (P.region memory.old) (P.region memory.new) (P.may_hold memory.old) (P.may_hold memory.new) }
    ensures stopped { is_err result ≡ (P.fuse memory.new).has_burnt }
    ensures keeps_fuse { KeepsFuse (λ limit. at + entry_length entry.now ≤ limit) (P.fuse memory.old) (P.fuse memory.new) }
{
    match entry {
        Entry::NextPage => {
            let first = first_word_of(0, 0, 8, 0);
            store_words(memory, at, &[first])
        }
        Entry::Write(e) => {
            let first = first_word_of(1, 0, 40, e.count);
            store_words(memory, at, &[first, e.offset, e.block, e.size, e.time])
        }
        Entry::Attr(e) => {
            let first = first_word_of(2, 0, 32, e.mode);
            let owners = e.owner as u64 + 4294967296 * e.group as u64;
            store_words(memory, at, &[first, e.size, e.time, owners])
        }
        Entry::Name(e) => store_name_entry(memory, at, e),
        Entry::Links(e) => {
            let first = first_word_of(4, 0, 24, e.count);
            store_words(memory, at, &[first, e.time, 0])
        }
    }
}

fn store_name_entry<P: Pmem>(memory: &mut P, at: u64, e: &NameEntry) -> Result<(), Stopped>
    requires aligned { at % 8 ≡ 0 }
    requires inside { at + 24 + 8 * words_for (length e.now.name) ≤ size (P.region memory.old) }
    ensures spelled { OnOk result (IsNameAt (P.region memory.new) at e.now) }
    ensures rest { SameOutside (P.region memory.old) at (24 + 8 * words_for (length e.now.name)) (P.region memory.new) }
    ensures wrote { StoresOnly (Within at (24 + 8 * words_for (length e.now.name))) (P.region memory.old) (P.region memory.new) (P.may_hold memory.old) (P.may_hold memory.new) }
    ensures stopped { is_err result ≡ (P.fuse memory.new).has_burnt }
    ensures keeps_fuse { KeepsFuse (λ limit. at + 24 + 8 * words_for (length e.now.name) ≤ limit) (P.fuse memory.old) (P.fuse memory.new) }
{
    let name = e.name.as_slice();
    let count = 3 + (name.len() + 7) / 8;
    let mut words = [0; MOST_WORDS];
    words[0] = first_word_of(3, code(e.operation), 8 * count as u16, name.len() as u32);
    words[1] = e.inode;
    words[2] = e.time;
    spell_text(name, &mut words[3..]);
    store_words(memory, at, &words[..count])
}

fn code(operation: Operation) -> u8
    ensures { result ≡ operation_code operation }
{
    match operation {
        Operation::Add => 1,
        Operation::Remove => 2,
    }
}

fn first_word_of(kind: u8, operation: u8, length: u16, number: u32) -> u64
    ensures { result ≡ first_word kind operation length number }
{
    First {
        kind,
        operation,
        length,
        number,
    }
    .to_word()
}

/// Stores words in a row, and says what became of each word of the region.
fn store_words<P: Pmem>(memory: &mut P, at: u64, words: &[u64]) -> Result<(), Stopped>
    requires aligned { at % 8 ≡ 0 }
    requires some { 0 < length words.now }
    requires inside { at + 8 * length words.now ≤ size (P.region memory.old) }
    ensures held { OnOk result (HoldsWords (P.region memory.new) at words.now) }
    ensures rest { SameOutside (P.region memory.old) at (8 * length words.now) (P.region memory.new) }
    ensures wrote { StoresOnly (Within at (8 * length words.now)) (P.region memory.old) (P.region memory.new) (P.may_hold memory.old) (P.may_hold memory.new) }
    ensures stopped { is_err result ≡ (P.fuse memory.new).has_burnt }
    ensures keeps_fuse { KeepsFuse (λ limit. at + 8 * length words.now ≤ limit) (P.fuse memory.old) (P.fuse memory.new) }
{
    // The region's length is a u64, and so is each address up to it.
    let _length = memory.len();
    memory.store_words(at, words)
}

/// Fills in the words of a name's bytes, with zeros to the end of the last.
fn spell_text(name: &[u8], words: &mut [u64])
    requires { words_for (length name.now) ≤ length words.old }
    ensures text { (k : ℕ) → 8 * k < length name.now → get_or words.new k 0 ≡ text_word name.now (8 * k) }
    ensures as_long { length words.new ≡ length words.old }
{
    let whole = name.len() / 8;
    LittleEndian::read_u64_into(&name[..8 * whole], &mut words[..whole]);
    let rest = &name[8 * whole..];
    if !rest.is_empty() {
        words[whole] = LittleEndian::read_uint(rest, rest.len());
    }
}
