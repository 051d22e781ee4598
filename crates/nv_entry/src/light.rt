//! Light entries: what a log says, with each name left where it stands.
//!
//! An entry of any type takes as much room as the longest name. A light one says where its name stands, so it moves
//! cheaply, and the name is read only where it is wanted.

ghost use Rattle.std.specs.Prelude.{◌≡◌, ◌+◌, ◌*◌, ◌^◌, ◌<◌, ◌≤◌, ◌%◌, ◌++◌, []};
ghost use Rattle.arrayvec.specs.ArrayVec.{array_vec_len};
ghost use Rattle.nv_region.specs.Region.{Region, size};
ghost use Rattle.nv_entry.specs.Spelling.{entry_length, words_for};
ghost use Rattle.nv_entry.specs.Digits.{low_bytes};
ghost use Rattle.nv_entry.specs.Name.{IsName};
ghost use Rattle.nv_entry.specs.Light.{text_at, name_in, entry_in, HasName, CanBeRead};

use crate::entry::{AttrEntry, Entry, LinksEntry, NameEntry, Operation, WRITE_LENGTH, WriteEntry};
use crate::name::FileName;
use arrayvec::ArrayVec;
use nv_super::Pmem;

/// A name was added to a directory, or removed from it. The name stands in the region.
#[derive(Clone, Copy, PartialEq, Eq)]
pub struct LightName {
    pub operation: Operation,
    /// How many bytes the name has.
    pub count: u32,
    pub inode: u64,
    pub time: u64,
    /// The byte address where the name begins.
    pub at: u64,
}

/// An entry of a log, but for the bytes of its name.
#[derive(Clone, Copy, PartialEq, Eq)]
pub enum LightEntry {
    /// The log goes on at the next page.
    NextPage,
    Write(WriteEntry),
    Attr(AttrEntry),
    Name(LightName),
    Links(LinksEntry),
}

impl LightName {
    /// Reads the bytes of the name, as they stand in this region, in place of those in `bytes`.
    pub fn read_name<P: Pmem>(&self, memory: &P, bytes: &mut ArrayVec<u8, 255>)
        requires { HasName (P.region memory.now) self.now }
        ensures text { bytes.new.items ≡ text_at (P.region memory.now) self.now.at self.now.count }
        ensures is_name { IsName bytes.new.items }
    {
        // The region's length is a u64, and so is each address up to it.
        let _end = memory.len();
        bytes.clear();
        read_text(memory, self.at, self.count as usize, bytes);
    }

    /// The entry with its name, as that stands in this region.
    pub fn read<P: Pmem>(&self, memory: &P) -> NameEntry
        requires { HasName (P.region memory.now) self.now }
        ensures { result ≡ name_in (P.region memory.now) self.now }
    {
        // The bytes are read in place here, and so move but once, into the entry.
        let mut bytes: ArrayVec<u8, 255> = ArrayVec::new();
        self.read_name(memory, &mut bytes);
        NameEntry {
            operation: self.operation,
            inode: self.inode,
            time: self.time,
            name: FileName::from_bytes(bytes),
        }
    }
}

impl LightEntry {
    /// The entry with its name, if it has one, as that stands in this region.
    pub fn read<P: Pmem>(&self, memory: &P) -> Entry
        requires { CanBeRead (P.region memory.now) self.now }
        ensures { result ≡ entry_in (P.region memory.now) self.now }
    {
        match self {
            LightEntry::NextPage => Entry::NextPage,
            LightEntry::Write(e) => Entry::Write(*e),
            LightEntry::Attr(e) => Entry::Attr(*e),
            LightEntry::Name(e) => Entry::Name(e.read(memory)),
            LightEntry::Links(e) => Entry::Links(*e),
        }
    }

    /// How many bytes the entry takes, in whichever region it stands.
    #[tactic(auto, using(crate::proofs::Texts::text_length))]
    pub fn length(&self) -> u64
        ensures { (region : Region) → result ≡ entry_length (entry_in region self.now) }
    {
        match self {
            LightEntry::NextPage => 8,
            LightEntry::Write(_) => WRITE_LENGTH,
            LightEntry::Attr(_) => 32,
            LightEntry::Name(e) => 24 + 8 * ((e.count as u64 + 7) / 8),
            LightEntry::Links(_) => 24,
        }
    }
}

/// Reads `count` bytes from the address `at` on.
fn read_text<P: Pmem>(memory: &P, at: u64, count: usize, bytes: &mut ArrayVec<u8, 255>)
    requires aligned { at % 8 ≡ 0 }
    requires fits { count ≤ 255 }
    requires inside { at + 8 * words_for count ≤ size (P.region memory.now) }
    requires small { at + 8 * words_for count < 2 ^ 64 }
    requires empty { bytes.old.items ≡ [] }
    ensures { bytes.new.items ≡ text_at (P.region memory.now) at count }
{
    for k in 0..(count + 7) / 8 {
        let part = (count - 8 * k).min(8);
        push_word(bytes, memory.load(at + 8 * k as u64), part);
    }
}

/// Adds the low `count` bytes of a word.
fn push_word(bytes: &mut ArrayVec<u8, 255>, word: u64, count: usize)
    requires room { array_vec_len bytes.old + count ≤ 255 }
    ensures { bytes.new.items ≡ bytes.old.items ++ low_bytes count word }
{
    if count == 8 {
        // So many bytes always fit.
        let _fits = bytes.try_extend_from_slice(&word.to_le_bytes());
        return;
    }
    let mut rest = word;
    for _ in 0..count {
        bytes.push((rest % 256) as u8);
        rest /= 256;
    }
}
