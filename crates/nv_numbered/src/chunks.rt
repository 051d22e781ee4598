//! Values in chunks of a fixed number, so that none moves as the list grows. Only `reserve`, `push` and `append` take
//! memory.

ghost use Rattle.std.specs.Prelude.{◌≡◌, ◌+◌, ◌-◌, ◌<◌, ◌≤◌, ◌↔◌, [], ◌∷◌, ◌++◌, length, take, IsTrue, IsOk, IsSome, MatchOption, OnOk, OnErr, OnSome, Some, option_copied, slice_get, slice_index_or};
ghost use Rattle.std.specs.Borrow.{sem};
ghost use Rattle.std.specs.List.{All};
ghost use Rattle.std.specs.Option.{option_to_list};
ghost use Rattle.nv_numbered.specs.Chunked.{IsSwapRemoved, by_chunks};
ghost use Rattle.nv_numbered.specs.Filled.{joined, lists_of, IsFullChunk};

use std::alloc::{AllocError, Global};
use std::marker::Model;
use std::mem;

// So many values are in a chunk.
const CHUNK: usize = 256;
// So many chunks have places that a word can count.
const MOST: usize = usize::MAX / CHUNK;

/// Values in order, in chunks of 256. As the list grows none of them moves.
#[derive(Drop)]
pub struct Chunks<T> {
    chunks: Vec<Vec<T>>,
    len: usize,
}

impl<T> Model for Chunks<T> {
    ghost use Rattle.nv_numbered.specs.Chunked.{Chunked, chunked_code};

    ghost Value = { Chunked T };

    ghost coded = { chunked_code T.code };

    ghost use Rattle.nv_numbered.specs.Filled.{AreChunks, seen_as};

    ghost view = { λ t. seen_as t.chunks.items t.len };

    ghost invariant = { λ t. AreChunks t.chunks.items t.len };
}

// Leaves so many chunks, and answers the one behind them, if there is one.
fn split_last<T>(chunks: &mut Vec<Vec<T>>, count: usize) -> Option<Vec<T>>
where
    T: Drop,
    ensures chunks { chunks.new.items ≡ take count chunks.old.items }
    ensures last { MatchOption result (length chunks.old.items ≤ count) (λ last. slice_get chunks.old.items count ≡ Some last) }
{
    if chunks.len() <= count {
        return None;
    }
    chunks.truncate(count + 1);
    chunks.pop()
}

impl<T> Chunks<T> {
    ghost use Rattle.nv_numbered.specs.Lends.{lends_at};

    /// No values. It takes no memory.
    pub fn new(alloc: Global) -> Chunks<T>
        ensures { result.items ≡ [] }
    {
        Chunks {
            chunks: Vec::new(alloc),
            len: 0,
        }
    }

    /// How many values there are.
    pub fn len(&self) -> usize
        ensures { result ≡ length self.now.items }
    {
        self.len
    }

    /// Whether there is no value.
    pub fn is_empty(&self) -> bool
        ensures { IsTrue result ↔ (self.now.items ≡ []) }
    {
        self.len() == 0
    }

    /// The value at a place, if there is one.
    pub fn get(&self, place: usize) -> Option<&T>
        ensures { option_copied result ≡ slice_get self.now.items place }
    {
        if place >= self.len() {
            return None;
        }
        Some(self.at(place))
    }

    /// The value at a place.
    pub fn at(&self, place: usize) -> &T
        requires { place < length self.now.items }
        ensures { slice_get self.now.items place ≡ Some result.now }
    {
        let chunk = &self.chunks[place / CHUNK];
        &chunk[place % CHUNK]
    }

    /// The value at a place, for writing.
    pub fn at_mut(&mut self, place: usize) -> &mut T
        requires { place < length self.old.items }
        ensures* writes_back { sem 𝓛 (lends_at T.row self.entry place result) }
        ensures value { slice_get self.old.items place ≡ Some result.now }
    {
        let chunk = &mut self.chunks[place / CHUNK];
        &mut chunk[place % CHUNK]
    }

    // How many more values take no memory.
    fn room(&self) -> usize
        ensures { result ≡ self.now.room }
    {
        CHUNK * self.chunks.len() - self.len
    }

    /// Makes room for `more` calls of `push_reserved`. The values stay, whatever it answers.
    ///
    /// Errors: `AllocError` where a growth was refused, or where a `usize` can't count the places then. It doesn't come where
    /// there is room already.
    pub fn reserve(&mut self, more: usize) -> Result<(), AllocError>
        ensures items { self.new.items ≡ self.old.items }
        ensures ready { OnOk result (more ≤ self.new.room) }
        ensures succeeds { more ≤ self.old.room → IsOk result }
        ensures room { self.old.room ≤ self.new.room }
    {
        while self.room() < more {
            self.add_chunk()?;
        }
        Ok(())
    }

    // As `reserve` of one, which most calls find room for.
    #[inline(always)]
    fn reserve_one(&mut self) -> Result<(), AllocError>
        ensures items { self.new.items ≡ self.old.items }
        ensures ready { OnOk result (0 < self.new.room) }
        ensures succeeds { 0 < self.old.room → IsOk result }
    {
        if self.room() > 0 {
            return Ok(());
        }
        self.add_chunk()
    }

    #[inline(never)]
    fn add_chunk(&mut self) -> Result<(), AllocError>
        ensures items { self.new.items ≡ self.old.items }
        ensures ok { OnOk result (self.new.room ≡ self.old.room + 256) }
        ensures err { OnErr result (self.new.room ≡ self.old.room) }
    {
        if self.chunks.len() >= MOST {
            return Err(AllocError);
        }
        self.chunks.reserve(1)?;
        let alloc = *self.chunks.allocator();
        self.chunks.push_reserved(Vec::with_capacity(alloc, CHUNK)?);
        Ok(())
    }

    /// Puts a value to the end. It takes no memory.
    // A call would copy the value once more, and so would one of `push`.
    #[inline(always)]
    pub fn push_reserved(&mut self, value: T)
        requires { 0 < self.old.room }
        ensures items { self.new.items ≡ self.old.items ++ value ∷ [] }
        ensures room { self.old.room ≡ self.new.room + 1 }
    {
        let chunk = &mut self.chunks[self.len / CHUNK];
        chunk.push_reserved(value);
        self.len += 1;
    }

    /// As `push_reserved`, where no room need have been made. Where it fails the value is dropped.
    ///
    /// Errors: `AllocError` where a growth was refused, or where a `usize` can't count the places then. It doesn't come where
    /// there is room already.
    #[inline(always)]
    pub fn push(&mut self, value: T) -> Result<(), AllocError>
    where
        T: Drop,
        ensures ok { OnOk result (self.new.items ≡ self.old.items ++ value ∷ []) }
        ensures err { OnErr result (self.new.items ≡ self.old.items) }
        ensures succeeds { 0 < self.old.room → IsOk result }
    {
        self.reserve_one()?;
        self.push_reserved(value);
        Ok(())
    }

    /// Takes the last value out, if there is one. It takes no memory.
    pub fn pop(&mut self) -> Option<T>
        ensures items { self.old.items ≡ self.new.items ++ option_to_list result }
        ensures variant { IsSome result ↔ (0 < length self.old.items) }
        ensures value { (d : T) → 0 < length self.old.items → result ≡ Some (slice_index_or self.old.items (length self.old.items - 1) d) }
        ensures rest { self.new.items ≡ take (length self.old.items - 1) self.old.items }
        ensures room { self.old.room ≤ self.new.room }
        ensures freed { OnSome result (self.new.room ≡ self.old.room + 1) }
    {
        if self.len == 0 {
            return None;
        }
        self.len -= 1;
        let chunk = &mut self.chunks[self.len / CHUNK];
        Some(chunk.take_last())
    }

    /// Takes the value at a place out. The last one comes there. It takes no memory.
    pub fn swap_remove(&mut self, place: usize) -> T
        requires { place < length self.old.items }
        ensures value { slice_get self.old.items place ≡ Some result }
        ensures items { IsSwapRemoved self.old.items self.new.items place }
        ensures room { self.new.room ≡ self.old.room + 1 }
    {
        let last = match self.pop() {
            Some(last) => last,
            None => unreachable!(),
        };
        if place == self.len() {
            return last;
        }
        mem::replace(self.at_mut(place), last)
    }

    /// Puts the values of another list to these: its full chunks of 256 values in front, and the rest behind, in their order.
    /// At most 255 values are moved. Where it fails the values of the other list are dropped.
    ///
    /// Errors: `AllocError` where a growth was refused, or where a `usize` can't count the places then.
    pub fn append(&mut self, other: Chunks<T>) -> Result<(), AllocError>
    where
        T: Drop,
        ensures ok { OnOk result (self.new.items ≡ by_chunks self.old.items other.items) }
        ensures err { OnErr result (self.new.items ≡ self.old.items) }
    {
        let Chunks { mut chunks, len } = other;
        self.reserve(len % CHUNK)?;
        let last = split_last(&mut chunks, len / CHUNK);
        self.put_in_front(chunks)?;
        if let Some(values) = last {
            self.push_all(values);
        }
        Ok(())
    }

    // Puts full chunks in front of the others.
    fn put_in_front(&mut self, full: Vec<Vec<T>>) -> Result<(), AllocError>
    where
        T: Drop,
        requires { All IsFullChunk full.items }
        ensures ok { OnOk result (self.new.items ≡ joined (lists_of full.items) ++ self.old.items) }
        ensures err { OnErr result (self.new.items ≡ self.old.items) }
        ensures room { self.new.room ≡ self.old.room }
    {
        let mut chunks = full;
        let count = chunks.len();
        if count > MOST - self.chunks.len() {
            return Err(AllocError);
        }
        chunks.append(&mut self.chunks)?;
        self.chunks = chunks;
        self.len += CHUNK * count;
        Ok(())
    }

    // Puts values to the end, in their order.
    fn push_all(&mut self, values: Vec<T>)
    where
        T: Drop,
        requires { length values.items ≤ self.old.room }
        ensures { self.new.items ≡ self.old.items ++ values.items }
    {
        let mut values = values;
        values.reverse();
        while let Some(value) = values.pop() {
            self.push_reserved(value);
        }
    }
}
