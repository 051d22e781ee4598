//! Reading an entry from the words at a place.
//!
//! The first word names the type and with it the length that it must state, so it decides which words follow.
//! Whatever departs from a spelling is wrong framing: an unknown type or operation, another length, bits behind a name,
//! a word that should be zero, or an end past the room.

ghost use Rattle.std.specs.Prelude.{◌≡◌, ◌+◌, ◌*◌, ◌/◌, ◌%◌, ◌^◌, ◌<◌, ◌≤◌, List, ℕ, length, OnErr, IfOk, IfSome, IfNone, IsTrue, false};
ghost use Rattle.nv_region.specs.Region.{size, word};
ghost use Rattle.nv_entry.specs.Name.{IsName};
ghost use Rattle.nv_entry.specs.Spelling.{Stands, entry_length, first_word, words_for, IsTextAt, IsWriteAt, IsAttrAt, IsNameAt, IsLinksAt};
ghost use Rattle.nv_entry.specs.declared.entry.Entry.{Entry as EntryValue};
ghost use Rattle.nv_entry.specs.declared.entry.WriteEntry.{WriteEntry as WriteValue};
ghost use Rattle.nv_entry.specs.declared.entry.AttrEntry.{AttrEntry as AttrValue};
ghost use Rattle.nv_entry.specs.declared.entry.NameEntry.{NameEntry as NameValue};
ghost use Rattle.nv_entry.specs.declared.entry.LinksEntry.{LinksEntry as LinksValue};
ghost use Rattle.nv_entry.specs.Digits.{high_part};
ghost use Rattle.nv_entry.specs.Light.{text_at, entry_in, CanBeRead};

use crate::entry::{AttrEntry, Entry, LinksEntry, Operation, WRITE_LENGTH, WriteEntry};
use crate::first::First;
use crate::light::{LightEntry, LightName};
use nv_super::Pmem;
use thiserror::Error;

/// No entry is spelled here.
#[derive(Clone, Copy, Debug, PartialEq, Eq, Error)]
#[error("no entry is spelled here")]
pub struct Framing;

/// Reads the entry that begins at the byte address `at`, a multiple of 8, and ends within `room` bytes.
///
/// Errors: `Framing` exactly where no entry is spelled there that fits the room.
pub fn read_entry<P: Pmem>(memory: &P, at: u64, room: u64) -> Result<Entry, Framing>
    requires aligned { at % 8 ≡ 0 }
    requires inside { at + room ≤ size (P.region memory.now) }
    // What is read stands there.
    ensures found { IfOk result (λ e. Stands (P.region memory.now) at e × (entry_length e ≤ room)) }
    // What stands there is read.
    ensures none { OnErr result ((e : EntryValue) → Stands (P.region memory.now) at e → entry_length e ≤ room → ⊥) }
{
    Ok(read_light(memory, at, room)?.read(memory))
}

/// Reads the entry that begins at the byte address `at`, a multiple of 8, and ends within `room` bytes, and leaves its
/// name where it stands.
///
/// Errors: `Framing` exactly where no entry is spelled there that fits the room.
// A caller that sees into it takes an entry apart without a copy of it.
#[inline(always)]
pub fn read_light<P: Pmem>(memory: &P, at: u64, room: u64) -> Result<LightEntry, Framing>
    requires aligned { at % 8 ≡ 0 }
    requires inside { at + room ≤ size (P.region memory.now) }
    // What is read stands there.
    ensures found { IfOk result (λ e. Stands (P.region memory.now) at (entry_in (P.region memory.now) e) × (entry_length (entry_in (P.region memory.now) e) ≤ room)) }
    ensures name { IfOk result (CanBeRead (P.region memory.now)) }
    // What stands there is read.
    ensures none { OnErr result ((e : EntryValue) → Stands (P.region memory.now) at e → entry_length e ≤ room → ⊥) }
{
    // The region's length is a u64, and so is each address up to it.
    let _end = memory.len();
    if room < 8 {
        return Err(Framing);
    }
    let first = First::from_word(memory.load(at));
    match first.kind {
        0 => read_next_page(first),
        1 => match read_write(memory, at, room) {
            Some(e) => Ok(LightEntry::Write(e)),
            None => Err(Framing),
        },
        2 => read_attr(memory, at, room, first),
        3 => read_name_entry(memory, at, room, first),
        4 => read_links(memory, at, room, first),
        _ => Err(Framing),
    }
}

/// Reads the write entry that begins at the byte address `at`, a multiple of 8, and ends within `room` bytes. `None` where
/// another entry is spelled there, or none that fits the room.
///
/// A caller that expects a write entry is quicker by it than by `read_light`, which finds the same.
pub fn read_write<P: Pmem>(memory: &P, at: u64, room: u64) -> Option<WriteEntry>
    requires aligned { at % 8 ≡ 0 }
    requires inside { at + room ≤ size (P.region memory.now) }
    // What is read stands there.
    ensures found { IfSome result (λ e. IsWriteAt (P.region memory.now) at e × (40 ≤ room)) }
    // A write entry that stands there is read.
    ensures none { IfNone result ((e : WriteValue) → IsWriteAt (P.region memory.now) at e → 40 ≤ room → ⊥) }
{
    // The region's length is a u64, and so is each address up to it.
    let _end = memory.len();
    if room < WRITE_LENGTH {
        return None;
    }
    let first = First::from_word(memory.load(at));
    if first.kind != 1 || first.operation != 0 || first.length != 40 {
        return None;
    }
    Some(WriteEntry {
        count: first.number,
        offset: memory.load(at + 8),
        block: memory.load(at + 16),
        size: memory.load(at + 24),
        time: memory.load(at + 32),
    })
}

fn read_next_page(first: First) -> Result<LightEntry, Framing>
    requires { first.kind ≡ 0 }
    ensures found { IfOk result (λ e. (e ≡ LightEntry.NextPage) × (first_word first.kind first.operation first.length first.number ≡ first_word 0 0 8 0)) }
    ensures none { OnErr result (first_word first.kind first.operation first.length first.number ≡ first_word 0 0 8 0 → ⊥) }
{
    if first.operation == 0 && first.length == 8 && first.number == 0 {
        Ok(LightEntry::NextPage)
    } else {
        Err(Framing)
    }
}

fn read_attr<P: Pmem>(memory: &P, at: u64, room: u64, first: First) -> Result<LightEntry, Framing>
    requires aligned { at % 8 ≡ 0 }
    requires inside { at + room ≤ size (P.region memory.now) }
    requires small { at + room < 2 ^ 64 }
    requires first { word (P.region memory.now) at ≡ first_word first.kind first.operation first.length first.number }
    requires kind { first.kind ≡ 2 }
    ensures found { IfOk result (λ e. Stands (P.region memory.now) at (entry_in (P.region memory.now) e) × (entry_length (entry_in (P.region memory.now) e) ≤ room)) }
    ensures name { IfOk result (CanBeRead (P.region memory.now)) }
    ensures none { OnErr result ((e : AttrValue) → IsAttrAt (P.region memory.now) at e → 32 ≤ room → ⊥) }
{
    if first.operation != 0 || first.length != 32 || room < 32 {
        return Err(Framing);
    }
    let owners = memory.load(at + 24);
    Ok(LightEntry::Attr(AttrEntry {
        mode: first.number,
        size: memory.load(at + 8),
        time: memory.load(at + 16),
        owner: (owners % 4294967296) as u32,
        group: (owners / 4294967296) as u32,
    }))
}

fn read_links<P: Pmem>(memory: &P, at: u64, room: u64, first: First) -> Result<LightEntry, Framing>
    requires aligned { at % 8 ≡ 0 }
    requires inside { at + room ≤ size (P.region memory.now) }
    requires small { at + room < 2 ^ 64 }
    requires first { word (P.region memory.now) at ≡ first_word first.kind first.operation first.length first.number }
    requires kind { first.kind ≡ 4 }
    ensures found { IfOk result (λ e. Stands (P.region memory.now) at (entry_in (P.region memory.now) e) × (entry_length (entry_in (P.region memory.now) e) ≤ room)) }
    ensures name { IfOk result (CanBeRead (P.region memory.now)) }
    ensures none { OnErr result ((e : LinksValue) → IsLinksAt (P.region memory.now) at e → 24 ≤ room → ⊥) }
{
    if first.operation != 0 || first.length != 24 || room < 24 {
        return Err(Framing);
    }
    if memory.load(at + 16) != 0 {
        return Err(Framing);
    }
    Ok(LightEntry::Links(LinksEntry {
        count: first.number,
        time: memory.load(at + 8),
    }))
}

fn read_name_entry<P: Pmem>(
    memory: &P,
    at: u64,
    room: u64,
    first: First,
) -> Result<LightEntry, Framing>
    requires aligned { at % 8 ≡ 0 }
    requires inside { at + room ≤ size (P.region memory.now) }
    requires small { at + room < 2 ^ 64 }
    requires first { word (P.region memory.now) at ≡ first_word first.kind first.operation first.length first.number }
    requires kind { first.kind ≡ 3 }
    ensures found { IfOk result (λ e. Stands (P.region memory.now) at (entry_in (P.region memory.now) e) × (entry_length (entry_in (P.region memory.now) e) ≤ room)) }
    ensures name { IfOk result (CanBeRead (P.region memory.now)) }
    ensures none { OnErr result ((e : NameValue) → IsNameAt (P.region memory.now) at e → 24 + 8 * words_for (length e.name) ≤ room → ⊥) }
{
    let operation = match first.operation {
        1 => Operation::Add,
        2 => Operation::Remove,
        _ => return Err(Framing),
    };
    if first.number == 0 || first.number > 255 {
        return Err(Framing);
    }
    let count = first.number as usize;
    let length = 24 + 8 * ((count + 7) / 8);
    if first.length as usize != length || room < length as u64 {
        return Err(Framing);
    }
    if !is_padded(memory, at + 24, count) {
        return Err(Framing);
    }
    Ok(LightEntry::Name(LightName {
        operation,
        count: first.number,
        inode: memory.load(at + 8),
        time: memory.load(at + 16),
        at: at + 24,
    }))
}

/// Whether zeros follow the `count` bytes of a name to the end of its last word.
fn is_padded<P: Pmem>(memory: &P, at: u64, count: usize) -> bool
    requires aligned { at % 8 ≡ 0 }
    requires some { 0 < count }
    requires fits { count ≤ 255 }
    requires inside { at + 8 * words_for count ≤ size (P.region memory.now) }
    requires small { at + 8 * words_for count < 2 ^ 64 }
    ensures text { IsTrue result → IsTextAt (P.region memory.now) at (text_at (P.region memory.now) at count) }
    ensures none { result ≡ false → (name : List ℕ) → length name ≡ count → IsTextAt (P.region memory.now) at name → IsName name → ⊥ }
{
    for k in 0..(count + 7) / 8 {
        let part = (count - 8 * k).min(8);
        if has_high_part(memory.load(at + 8 * k as u64), part) {
            return false;
        }
    }
    true
}

/// Whether a byte above the low `count` bytes of a word isn't 0.
fn has_high_part(word: u64, count: usize) -> bool
    requires { count ≤ 8 }
    ensures some { IsTrue result → 0 < high_part count word }
    ensures none { result ≡ false → high_part count word ≡ 0 }
{
    count < 8 && word >> (8 * count) > 0
}
