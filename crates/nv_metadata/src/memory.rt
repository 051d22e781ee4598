//! A region of which the front and some blocks are held, and which has zeros elsewhere.
//!
//! The front is held as the bytes that were read, and takes stores. Of the other blocks a table says how many bytes of each are
//! held and where these stand: one piece behind another, in the order in which they came, each without the zeros at its end.
//! Where memories are put together, the bytes of each stay as a part. A store behind the front is refused as if a fuse had burnt.

ghost use Rattle.std.specs.Prelude.{◌≡◌, ◌≢◌, ◌≤◌, ◌<◌, ◌+◌, ◌*◌, ◌/◌, ◌%◌, ◌||◌, ℕ, false, IfOk, OnOk, OnErr, is_err, [], ◌∷◌, length, map, drop, set, vec_items, refl};
ghost use Rattle.std.proofs.lemmas.Bool.{false≢true};
ghost use Rattle.byteorder.specs.Endian.{little_number};
ghost use Rattle.nv_region.specs.Region.{HasBlocks, size, word, put, words_of};
ghost use Rattle.nv_region.specs.Stops.{NothingPending, NoneAdded, Adds, One};
ghost use Rattle.nv_region.specs.Fuses.{KeepsFuse};
ghost use Rattle.nv_region.specs.ImageState.{as_it_reads, fuse_state, open_not_burnt};
ghost use Rattle.nv_super.specs.Layout.{most_blocks};
ghost use Rattle.nv_journal.specs.Undone.{SameBefore};
ghost use Rattle.nv_metadata.specs.Memory.{held};
ghost use Rattle.nv_metadata.specs.Holding.{BeginsWith, SameShape, StoresInFront};
ghost use Rattle.nv_metadata.specs.Parts.{IsJoined};

use crate::places::{Place, Places, narrow};
use byteorder::{ByteOrder, LittleEndian};
use nv_region::{Pmem, Stopped};
use nv_super::BLOCK_SIZE;
use std::alloc::{AllocError, Global};
use std::marker::Model;

/// A region whose front and some of whose blocks are held, each from its first byte on. Contracts see it as a region over
/// bytes, with how many bytes it holds of each block behind the front.
#[derive(Drop)]
pub struct MetadataRegion {
    blocks: u64,
    front: Vec<u8>,
    // For each block where its bytes stand.
    places: Places,
    // What is held here itself is the first.
    parts: Vec<Vec<u8>>,
    burnt: bool,
}

impl Model for MetadataRegion {
    ghost use Rattle.std.specs.Prelude.{length, map, vec_items};
    ghost use Rattle.nv_region.specs.Region.{words_of};
    ghost use Rattle.nv_region.specs.ImageState.{with_front};
    ghost use Rattle.nv_metadata.specs.Memory.{MetadataState, pieced, piece_of};
    ghost use Rattle.nv_metadata.specs.declared.places.Place.{Place as PlaceValue};

    ghost Value = { MetadataState };

    ghost view = { λ m. record {
      memory = record { region = with_front (words_of m.front.items) (pieced m.blocks (piece_of m.places (map vec_items m.parts.items))); front = length m.front.items; burnt = m.burnt };
      counts = map (λ (p : PlaceValue). p.known) m.places;
    } };

    ghost use Rattle.nv_metadata.specs.Memory.{HasPieces};

    ghost invariant = { HasPieces };
}

impl MetadataRegion {
    /// The region of so many blocks that has these bytes at its front, which takes stores, and holds no other block. There is
    /// room for as many bytes as `room` blocks have: they are never moved, and what isn't used of it is never touched.
    ///
    /// Errors: `AllocError` where a growth was refused.
    pub fn new(
        alloc: Global,
        blocks: u64,
        front: &[u8],
        room: u64,
    ) -> Result<MetadataRegion, AllocError>
        requires few { blocks ≤ most_blocks }
        requires within { length front.now ≤ 4096 * blocks }
        requires whole { length front.now % 8 ≡ 0 }
        ensures blocks { IfOk result (λ m. HasBlocks m.memory.region blocks) }
        ensures front { IfOk result (λ m. (at : ℕ) → at % 8 ≡ 0 → at + 8 ≤ length front.now → word m.memory.region at ≡ little_number 8 (drop at front.now)) }
        ensures zeros { IfOk result (λ m. (at : ℕ) → at % 8 ≡ 0 → length front.now ≤ at → word m.memory.region at ≡ 0) }
        ensures open { IfOk result (λ m. (m.memory.front ≡ length front.now) × (m.memory.burnt ≡ false)) }
        ensures none { IfOk result (λ m. (b : ℕ) → held m b ≡ 0) }
    {
        MetadataRegion::of_front(alloc, blocks, Vec::from_slice(alloc, front)?, room)
    }

    /// `new` of bytes that are handed over: they aren't copied.
    pub(crate) fn of_front(
        alloc: Global,
        blocks: u64,
        front: Vec<u8>,
        room: u64,
    ) -> Result<MetadataRegion, AllocError>
        requires few { blocks ≤ most_blocks }
        requires within { length front.items ≤ 4096 * blocks }
        requires whole { length front.items % 8 ≡ 0 }
        ensures blocks { IfOk result (λ m. HasBlocks m.memory.region blocks) }
        ensures front { IfOk result (λ m. (at : ℕ) → at % 8 ≡ 0 → at + 8 ≤ length front.items → word m.memory.region at ≡ little_number 8 (drop at front.items)) }
        ensures zeros { IfOk result (λ m. (at : ℕ) → at % 8 ≡ 0 → length front.items ≤ at → word m.memory.region at ≡ 0) }
        ensures open { IfOk result (λ m. (m.memory.front ≡ length front.items) × (m.memory.burnt ≡ false)) }
        ensures none { IfOk result (λ m. (b : ℕ) → held m b ≡ 0) }
    {
        Ok(MetadataRegion {
            blocks,
            front,
            places: Places::none(alloc, blocks as usize)?,
            parts: one_part(alloc, (room.min(blocks) * BLOCK_SIZE) as usize)?,
            burnt: false,
        })
    }

    /// The bytes of the front, as they are now.
    pub fn front(&self) -> &[u8]
        ensures count { length result.now ≡ self.now.memory.front }
        ensures words { (at : ℕ) → at % 8 ≡ 0 → at + 8 ≤ length result.now → word self.now.memory.region at ≡ little_number 8 (drop at result.now) }
    {
        &self.front
    }

    /// How many bytes of a block behind the front are held, from its first on: 0 where it isn't.
    pub fn held(&self, block: u64) -> usize
        requires { 4096 * block < size self.now.memory.region }
        ensures { result ≡ held self.now block }
    {
        self.places.at(block as usize).known as usize
    }

    /// Holds these bytes as the first of a block behind the front, whose other words are 0.
    ///
    /// Errors: `AllocError` where a growth was refused; all stays as it was.
    pub fn hold(&mut self, block: u64, bytes: &[u8]) -> Result<(), AllocError>
        requires behind { self.old.memory.front ≤ 4096 * block }
        requires within { 4096 * block < size self.old.memory.region }
        requires whole { length bytes.now % 8 ≡ 0 }
        ensures begins { OnOk result (BeginsWith self.old.memory.region block bytes.now self.new.memory.region) }
        ensures held { OnOk result ((held self.new block ≡ length bytes.now) × ((b : ℕ) → b ≢ block → held self.new b ≡ held self.old b)) }
        ensures whole { OnOk result (held self.new block % 8 ≡ 0) }
        ensures same { SameShape self.old self.new }
        ensures refused { OnErr result (self.new ≡ self.old) }
    {
        let count = without_zeros(bytes);
        self.hold_piece(block, &bytes[..count], bytes.len())?;
        Ok(())
    }

    // Holds so many bytes of a block behind the front: first these, and zeros behind them.
    //
    // Errors: `AllocError` where a growth was refused; all stays as it was.
    fn hold_piece(&mut self, block: u64, piece: &[u8], known: usize) -> Result<(), AllocError>
        requires behind { self.old.memory.front ≤ 4096 * block }
        requires within { 4096 * block < size self.old.memory.region }
        requires whole { length piece.now % 8 ≡ 0 }
        ensures begins { OnOk result (BeginsWith self.old.memory.region block piece.now self.new.memory.region) }
        ensures held { OnOk result ((held self.new block ≡ known) × ((b : ℕ) → b ≢ block → held self.new b ≡ held self.old b)) }
        ensures same { SameShape self.old self.new }
        ensures refused { OnErr result (self.new ≡ self.old) }
    {
        let start = narrow(self.parts[0].len())?;
        let count = narrow(piece.len())?;
        let known = narrow(known)?;
        self.parts[0].extend_from_slice(piece)?;
        let place = Place {
            part: 0,
            start,
            count,
            known,
        };
        self.places.put(block as usize, place)?;
        Ok(())
    }

    /// Holds what another memory holds more of the blocks from one on. No byte is copied: its parts come behind these.
    ///
    /// Errors: `AllocError` where a growth was refused; all stays as it was.
    pub(crate) fn join(
        &mut self,
        alloc: Global,
        other: MetadataRegion,
        from: u64,
    ) -> Result<(), AllocError>
        requires as_long { size other.memory.region ≡ size self.old.memory.region }
        requires within { 4096 * from ≤ size self.old.memory.region }
        requires behind { (self.old.memory.front ≤ 4096 * from) × (other.memory.front ≤ 4096 * from) }
        ensures joined { OnOk result ((to : ℕ) → IsJoined from to self.old other self.new) }
        ensures before { OnOk result (SameBefore (4096 * from) self.old.memory.region self.new.memory.region) }
        ensures same { SameShape self.old self.new }
        ensures refused { OnErr result (self.new ≡ self.old) }
    {
        let MetadataRegion {
            blocks: _,
            front: _,
            places,
            mut parts,
            burnt: _,
        } = other;
        let before = narrow(self.parts.len())?;
        let _all = narrow(self.parts.len() + parts.len())?;
        self.parts.append(&mut parts)?;
        self.places
            .take_more(alloc, &places, from as usize, before)?;
        Ok(())
    }

    // The word at a byte address of a block that may be held.
    fn piece_word(&self, at: u64) -> u64
        requires aligned { at % 8 ≡ 0 }
        requires within { at + 8 ≤ size self.now.memory.region }
        requires behind { self.now.memory.front ≤ at }
        ensures { result ≡ word self.now.memory.region at }
    {
        let place = self.places.at((at / BLOCK_SIZE) as usize);
        let offset = (at % BLOCK_SIZE) as usize;
        if offset >= place.count as usize {
            return 0;
        }
        word_at(
            &self.parts[place.part as usize],
            place.start as usize + offset,
        )
    }
}

// One part, with no bytes and room for so many.
fn one_part(alloc: Global, room: usize) -> Result<Vec<Vec<u8>>, AllocError>
    ensures { IfOk result (λ parts. map vec_items parts.items ≡ [] ∷ []) }
{
    let mut parts = Vec::with_capacity(alloc, 1)?;
    parts.push(Vec::with_capacity(alloc, room)?)?;
    Ok(parts)
}

/// The little-endian word of the eight bytes at an address.
#[inline]
pub(crate) fn word_at(bytes: &[u8], at: usize) -> u64
    requires { at + 8 ≤ length bytes.now }
    ensures { result ≡ little_number 8 (drop at bytes.now) }
{
    LittleEndian::read_u64(&bytes[at..])
}

// How many bytes stand in front of the words at the end that are 0.
fn without_zeros(bytes: &[u8]) -> usize
    requires { length bytes.now % 8 ≡ 0 }
    ensures few { result ≤ length bytes.now }
    ensures whole { result % 8 ≡ 0 }
    ensures zeros { (at : ℕ) → at % 8 ≡ 0 → result ≤ at → at + 8 ≤ length bytes.now → little_number 8 (drop at bytes.now) ≡ 0 }
{
    let mut count = bytes.len();
    while count > 0 {
        if word_at(bytes, count - 8) != 0 {
            return count;
        }
        count -= 8;
    }
    count
}

// Puts a little-endian word in the place of the eight bytes at an address.
fn put_word(bytes: &mut [u8], at: usize, value: u64)
    requires aligned { at % 8 ≡ 0 }
    requires within { at + 8 ≤ length bytes.old }
    ensures words { words_of bytes.new ≡ set (words_of bytes.old) (at / 8) value }
    ensures as_long { length bytes.new ≡ length bytes.old }
{
    LittleEndian::write_u64(&mut bytes[at..], value);
}

impl Pmem for MetadataRegion {
    ghost region = { λ m. m.memory.region };

    ghost may_hold = { λ m. as_it_reads m.memory };

    ghost fuse = { λ m. fuse_state m.memory };

    ghost unburnt = { λ m never. absurd (false≢true never) };

    ghost open_unburnt = { λ m limit. open_not_burnt m.memory limit };

    ghost holds_now = { λ m i. refl };

    fn len(&self) -> u64 {
        BLOCK_SIZE * self.blocks
    }

    fn load(&self, at: u64) -> u64 {
        if at < self.front.len() as u64 {
            word_at(&self.front, at as usize)
        } else {
            self.piece_word(at)
        }
    }

    fn store(&mut self, at: u64, value: u64) -> Result<(), Stopped>
        requires aligned { at % 8 ≡ 0 }
        requires within { at + 8 ≤ size self.old.memory.region }
        ensures stored { OnOk result (self.new.memory.region ≡ put self.old.memory.region at value) }
        ensures may_keep { OnOk result (Adds (One at value) (as_it_reads self.old.memory) (as_it_reads self.new.memory)) }
        ensures refused { OnErr result (self.new.memory.region ≡ self.old.memory.region) }
        ensures refused_keep { OnErr result (NoneAdded (as_it_reads self.old.memory) (as_it_reads self.new.memory)) }
        ensures stopped { is_err result ≡ self.new.memory.burnt }
        ensures keeps_fuse { KeepsFuse (λ limit. at + 8 ≤ limit) (fuse_state self.old.memory) (fuse_state self.new.memory) }
        ensures in_front { StoresInFront self.old at self.new }
    {
        if self.burnt || at >= self.front.len() as u64 {
            self.burnt = true;
            return Err(Stopped);
        }
        put_word(&mut self.front, at as usize, value);
        Ok(())
    }

    fn fence(&mut self) -> Result<(), Stopped>
        ensures same { self.new.memory.region ≡ self.old.memory.region }
        ensures fenced { OnOk result (NothingPending self.new.memory.region (as_it_reads self.new.memory)) }
        ensures refused_keep { OnErr result (NoneAdded (as_it_reads self.old.memory) (as_it_reads self.new.memory)) }
        ensures stopped { is_err result ≡ self.new.memory.burnt }
        ensures keeps_fuse { KeepsFuse (λ limit. 0 ≤ limit) (fuse_state self.old.memory) (fuse_state self.new.memory) }
        // It changes nothing.
        ensures unchanged { self.new ≡ self.old }
    {
        if self.burnt {
            return Err(Stopped);
        }
        Ok(())
    }
}
