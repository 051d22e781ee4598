//! The bytes of a region in pieces: a region is made of them as they come, and gives them away again.
//!
//! So an image is read and written with no more than a piece of it beside the region.

ghost use Rattle.std.specs.Prelude.{◌≡◌, ◌≤◌, ◌<◌, ◌+◌, ◌*◌, ◌/◌, ◌%◌, ◌^◌, ◌++◌, ◌↔◌, ℕ, [], Some, false, length, take, drop, IfOk, IfErr, OnOk, OnErr, IsErrOf, IsOk, vec_len, vec_capacity};
ghost use Rattle.std.specs.Io.{WritesAtMost};
ghost use Rattle.std.specs.Io.KnownBytes.{Appends, Keeps, WriteAppends};
ghost use Rattle.std.specs.IoError.{error_kind};
ghost use Rattle.std.specs.List.{flat_map};
ghost use Rattle.byteorder.specs.Endian.{little_number, little_bytes};
ghost use Rattle.nv_region.specs.Region.{size, word, region_of, bytes_of, words_of, rest_of};
ghost use Rattle.nv_region.specs.Stops.{NothingPending};
ghost use Rattle.nv_region.specs.RegionState.{fenced_or_last};

use crate::memory::{Fuse, MOST_BYTES, MemRegion, RegionRefusal};
use byteorder::{ByteOrder, LittleEndian};
use std::alloc::{AllocError, Global};
use std::io;
use std::io::{ErrorKind, Write};
use std::marker::Model;

// How many words of a region are written at a time: 128 KiB.
const WORDS_IN_PIECE: usize = 16_384;

// Room for the bytes behind the last whole word, and for those of one word more.
const BYTES_BEHIND: usize = 16;

/// The bytes that a region is made of, as far as they have come. What is written to it comes behind them.
#[derive(Drop)]
pub struct RegionBytes {
    alloc: Global,
    words: Vec<u64>,
    // The bytes behind the last whole word.
    rest: Vec<u8>,
}

impl Model for RegionBytes {
    ghost use Rattle.std.specs.Prelude.{◌<◌, ℕ, List, length};
    ghost use Rattle.nv_region.specs.Region.{bytes_of};

    ghost Value = { List ℕ };

    ghost view = { λ b. bytes_of (record { words = b.words.items; rest = b.rest.items }) };

    ghost invariant = { λ b. length b.rest.items < 8 };
}

impl RegionBytes {
    /// No bytes yet. With up to `length` of them no growth of the words is needed. Errors: `AllocError` where that room was
    /// refused.
    pub fn new(alloc: Global, length: usize) -> Result<RegionBytes, AllocError>
        ensures { IfOk result (λ bytes. bytes ≡ []) }
    {
        Ok(RegionBytes {
            alloc,
            words: Vec::with_capacity(alloc, length / 8 + 1)?,
            rest: Vec::with_capacity(alloc, BYTES_BEHIND)?,
        })
    }

    /// Adds the bytes of a piece behind those that are there. Errors: `AllocError` where a growth was refused; the bytes stay as
    /// they were.
    pub fn push(&mut self, piece: &[u8]) -> Result<(), AllocError>
        ensures added { OnOk result (self.new ≡ self.old ++ piece.now) }
        ensures refused { OnErr result (self.new ≡ self.old) }
    {
        self.words.reserve(piece.len() / 8 + 1)?;
        self.rest.reserve(8)?;
        let behind = fill_word(&mut self.words, &mut self.rest, piece);
        push_words(&mut self.words, &mut self.rest, behind);
        Ok(())
    }

    /// How many bytes there are.
    pub fn len(&self) -> usize
        ensures { result ≡ length self.now }
    {
        count_of_bytes(&self.words, &self.rest)
    }

    /// The region of the bytes, with nothing pending and no fuse. They are not copied. As for `MemRegion::from_bytes`, any
    /// length up to 1,073,741,824 bytes is taken.
    ///
    /// Errors: `Length` for more bytes; `Memory` where a growth was refused. The bytes are gone then.
    pub fn into_region(self) -> Result<MemRegion, RegionRefusal>
        ensures region { IfOk result (λ m. m.region ≡ region_of self) }
        ensures size { IfOk result (λ m. size m.region ≡ length self) }
        ensures words { IfOk result (λ m. (at : ℕ) → at % 8 ≡ 0 → at + 8 ≤ length self → word m.region at ≡ little_number 8 (drop at self)) }
        ensures bytes { IfOk result (λ m. bytes_of m.region ≡ self) }
        ensures settled { IfOk result (λ m. NothingPending m.region (fenced_or_last m)) }
        ensures fuse { IfOk result (λ m. (m.fuse ≡ Fuse.Off) × (m.burnt ≡ false)) }
        ensures length { IsErrOf result RegionRefusal.Length ↔ (2 ^ 30 < length self) }
    {
        if self.len() > MOST_BYTES {
            return Err(RegionRefusal::Length);
        }
        let RegionBytes { alloc, words, rest } = self;
        // That they are read back from their bytes is asked for below.
        let _count = count_of_bytes(&words, &rest);
        Ok(MemRegion::of_words(alloc, words, rest)?)
    }
}

impl Write for RegionBytes {
    ghost contents = { λ bytes. Some bytes };

    fn write(&mut self, buf: &[u8]) -> io::Result<usize>
        ensures bound { WritesAtMost result buf.now }
        ensures bytes { WriteAppends (Some self.old) (Some self.new) result buf.now }
        // All or none are taken, and only want of memory refuses them.
        ensures count { IfOk result (λ n. n ≡ length buf.now) }
        ensures kind { IfErr result (λ e. error_kind e ≡ ErrorKind.OutOfMemory) }
    {
        self.push(buf)?;
        Ok(buf.len())
    }

    fn flush(&mut self) -> io::Result<()>
        ensures bytes { Keeps (Some self.old) (Some self.new) }
        ensures ok { IsOk result }
        ensures unchanged { self.new ≡ self.old }
    {
        Ok(())
    }
}

// How many bytes words and those behind them have.
fn count_of_bytes(words: &[u64], rest: &[u8]) -> usize
    requires { length rest.now < 8 }
    ensures count { result ≡ size (record { words = words.now; rest = rest.now }) }
    // They are read back from their bytes.
    ensures back { region_of (bytes_of (record { words = words.now; rest = rest.now })) ≡ record { words = words.now; rest = rest.now } }
{
    8 * words.len() + rest.len()
}

// Adds the first bytes of a piece until the bytes behind the words are a word, if there are any. Answers those behind them.
fn fill_word<'a>(words: &mut Vec<u64>, rest: &mut Vec<u8>, piece: &'a [u8]) -> &'a [u8]
    requires short { length rest.old.items < 8 }
    requires room { vec_len words.old < vec_capacity words.old }
    requires wide { 8 ≤ vec_capacity rest.old }
    ensures bytes { bytes_of (record { words = words.new.items; rest = rest.new.items }) ++ result.now ≡ bytes_of (record { words = words.old.items; rest = rest.old.items }) ++ piece.now }
    ensures short { length rest.new.items < 8 }
    ensures whole { 0 < length result.now → rest.new.items ≡ [] }
    ensures room { vec_len words.new + length result.now / 8 ≤ vec_len words.old + 1 + length piece.now / 8 }
    ensures as_wide { vec_capacity words.old ≤ vec_capacity words.new }
    ensures wide { 8 ≤ vec_capacity rest.new }
{
    let missing = (8 - rest.len()) % 8;
    let (first, behind) = piece.split_at(missing.min(piece.len()));
    // There is room, so no memory is taken, and none can be refused.
    let _fits = rest.extend_from_slice(first);
    if rest.len() == 8 {
        words.push_reserved(word_of(rest));
        rest.clear();
    }
    behind
}

// The word of eight bytes.
fn word_of(eight: &[u8]) -> u64
    requires { length eight.now ≡ 8 }
    ensures { little_bytes 8 result ≡ eight.now }
{
    LittleEndian::read_u64(eight)
}

// Adds the words of the bytes, and those behind the last whole word.
fn push_words(words: &mut Vec<u64>, rest: &mut Vec<u8>, bytes: &[u8])
    requires short { length rest.old.items < 8 }
    requires whole { 0 < length bytes.now → rest.old.items ≡ [] }
    requires room { vec_len words.old + length bytes.now / 8 ≤ vec_capacity words.old }
    requires wide { 8 ≤ vec_capacity rest.old }
    ensures bytes { bytes_of (record { words = words.new.items; rest = rest.new.items }) ≡ bytes_of (record { words = words.old.items; rest = rest.old.items }) ++ bytes.now }
    ensures short { length rest.new.items < 8 }
{
    let mut left = bytes;
    while left.len() >= 8 {
        words.push_reserved(LittleEndian::read_u64(left));
        left = &left[8..];
    }
    // There is room, so no memory is taken, and none can be refused.
    let _fits = rest.extend_from_slice(left);
}

impl MemRegion {
    /// Writes the bytes of the region as it reads, 128 KiB at a time. Errors: the writer's, and want of memory for a piece.
    pub fn write_to<W: Write>(&self, writer: &mut W) -> io::Result<()>
        ensures { OnOk result (Appends (W.contents writer.old) (W.contents writer.new) (bytes_of self.now.region)) }
    {
        let (alloc, words, rest) = self.parts();
        write_words(alloc, writer, words)?;
        writer.write_all(rest)
    }

    /// The bytes of its first so many words, or all bytes where it has fewer words. Errors: `AllocError` where a growth was
    /// refused.
    pub fn first_bytes(&self, count: usize) -> Result<Vec<u8>, AllocError>
        requires { count ≤ 2 ^ 27 }
        ensures { IfOk result (λ bytes. bytes.items ≡ take (8 * count) (bytes_of self.now.region)) }
    {
        let (alloc, words, rest) = self.parts();
        let mut bytes = Vec::new(alloc);
        if count <= words.len() {
            push_bytes(&mut bytes, &words[..count])?;
        } else {
            push_bytes(&mut bytes, words)?;
            bytes.extend_from_slice(rest)?;
        }
        Ok(bytes)
    }
}

// Writes the bytes of words, a piece at a time.
fn write_words<W: Write>(alloc: Global, writer: &mut W, words: &[u64]) -> io::Result<()>
    ensures { OnOk result (Appends (W.contents writer.old) (W.contents writer.new) (flat_map (little_bytes 8) words.now)) }
{
    let mut piece = Vec::with_capacity(alloc, 8 * WORDS_IN_PIECE)?;
    for some in words.chunks(WORDS_IN_PIECE) {
        piece.clear();
        push_bytes(&mut piece, some)?;
        writer.write_all(&piece)?;
    }
    Ok(())
}

// Adds the bytes of words.
fn push_bytes(bytes: &mut Vec<u8>, words: &[u64]) -> Result<(), AllocError>
    ensures { OnOk result (bytes.new.items ≡ bytes.old.items ++ flat_map (little_bytes 8) words.now) }
{
    for word in words {
        let mut eight = [0; 8];
        LittleEndian::write_u64(&mut eight, *word);
        bytes.extend_from_slice(&eight)?;
    }
    Ok(())
}
