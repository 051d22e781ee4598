//! A region over bytes that are borrowed, of which only the front can take stores.
//!
//! Its words are read from the bytes where they stand. Before the first store there has to be room for the words of the
//! front (`open_front`); a store takes no memory then. Words are copied there as far as stores come, and not before: what
//! no store comes to is read from the bytes. A store behind the front is refused as if a fuse had burnt.

ghost use Rattle.std.specs.Prelude.{◌≡◌, ◌≤◌, ◌<◌, ◌+◌, ◌*◌, ◌%◌, ◌^◌, ◌||◌, ◌↔◌, ℕ, false, nat_le, IsTrue, IfOk, OnOk, OnErr, IsErrOf, is_err, max, min, length, take, drop, ◌++◌, refl, vec_capacity};
ghost use Rattle.std.proofs.lemmas.Bool.{false≢true};
ghost use Rattle.byteorder.specs.Endian.{little_number};
ghost use Rattle.nv_region.specs.Region.{size, word, put, region_of, bytes_of, words_of};
ghost use Rattle.nv_region.specs.Stops.{NothingPending, NoneAdded, Adds, One};
ghost use Rattle.nv_region.specs.Fuses.{KeepsFuse};
ghost use Rattle.nv_region.specs.ImageState.{as_it_reads, is_open_to, fuse_state, open_not_burnt};
ghost use Rattle.nv_region.specs.OneStore.{StoresInFront};

use crate::memory::{MOST_BYTES, RegionRefusal};
use crate::{Pmem, Stopped};
use byteorder::{ByteOrder, LittleEndian};
use std::alloc::{AllocError, Global};
use std::marker::Model;

const WORDS_IN_BLOCK: u64 = 512;

/// A region over borrowed bytes. Contracts see its words, the length of its front, and whether a store was refused.
#[derive(Drop)]
pub struct ImageRegion<'a> {
    bytes: &'a [u8],
    // The words of the front up to the last that was stored.
    front: Vec<u64>,
    // How many words take stores: there is room for them in `front`.
    limit: usize,
    burnt: bool,
}

impl<'a> Model for ImageRegion<'a> {
    ghost use Rattle.std.specs.Prelude.{◌*◌, length};
    ghost use Rattle.nv_region.specs.Region.{region_of};
    ghost use Rattle.nv_region.specs.ImageState.{ImageState, with_front};

    ghost Value = { ImageState };

    ghost view = { λ m. record { region = with_front m.front.items (region_of m.bytes.now); front = 8 * m.limit; burnt = m.burnt } };

    ghost use Rattle.nv_region.specs.Fronts.{HasFront};

    ghost invariant = { HasFront };
}

impl<'a> ImageRegion<'a> {
    /// The region of these bytes. Any length up to 1,073,741,824 bytes is taken, so that a region that was cut can be
    /// shown too. It takes no memory, and no store until its front is opened.
    ///
    /// Errors: `Length` for more bytes, and no other.
    pub fn from_bytes(alloc: Global, bytes: &'a [u8]) -> Result<ImageRegion<'a>, RegionRefusal>
        ensures region { IfOk result (λ m. m.region ≡ region_of bytes.now) }
        ensures size { IfOk result (λ m. size m.region ≡ length bytes.now) }
        ensures words { IfOk result (λ m. (at : ℕ) → at % 8 ≡ 0 → at + 8 ≤ length bytes.now → word m.region at ≡ little_number 8 (drop at bytes.now)) }
        ensures bytes { IfOk result (λ m. bytes_of m.region ≡ bytes.now) }
        ensures settled { IfOk result (λ m. NothingPending m.region (as_it_reads m)) }
        ensures front { IfOk result (λ m. (m.front ≡ 0) × (m.burnt ≡ false)) }
        ensures length { IsErrOf result RegionRefusal.Length ↔ (2 ^ 30 < length bytes.now) }
        ensures memory { ¬ IsErrOf result RegionRefusal.Memory }
    {
        if bytes.len() > MOST_BYTES {
            return Err(RegionRefusal::Length);
        }
        Ok(ImageRegion {
            bytes,
            front: Vec::new(alloc),
            limit: 0,
            burnt: false,
        })
    }

    /// Makes room for the words of the first so many blocks of 4096 bytes, or for all where there are fewer: from then
    /// on stores within them are taken, unless one was refused before. What was open before stays open, and no word
    /// changes. Room that no store comes to isn't touched.
    ///
    /// Errors: `AllocError` where a growth was refused, which leaves all as it was.
    pub fn open_front(&mut self, blocks: u64) -> Result<(), AllocError>
        ensures same { self.new.region ≡ self.old.region }
        ensures burnt { self.new.burnt ≡ self.old.burnt }
        ensures front { OnOk result (self.new.front ≡ max self.old.front (min (4096 * blocks) (8 * length self.old.region.words))) }
        ensures open { OnOk result (self.old.burnt ≡ false → 4096 * blocks ≤ size self.old.region → IsTrue (is_open_to self.new (4096 * blocks))) }
        ensures refused { OnErr result (self.new ≡ self.old) }
    {
        let words = self.bytes.len() / 8;
        let wanted = blocks.saturating_mul(WORDS_IN_BLOCK).min(words as u64) as usize;
        if wanted <= self.limit {
            return Ok(());
        }
        self.front.reserve_exact(wanted - self.front.len())?;
        self.limit = wanted;
        Ok(())
    }
}

// Adds words of the bytes until there are so many. There is room for them.
fn read_front(front: &mut Vec<u64>, bytes: &[u8], count: usize)
    requires within { 8 * count ≤ length bytes.now }
    requires room { count ≤ vec_capacity front.old }
    ensures words { front.new.items ≡ front.old.items ++ drop (length front.old.items) (take count (words_of bytes.now)) }
    ensures room { vec_capacity front.old ≤ vec_capacity front.new }
{
    for number in front.len()..count {
        front.push_reserved(word_at(bytes, 8 * number));
    }
}

// The little-endian word of the eight bytes at an address.
#[inline]
fn word_at(bytes: &[u8], at: usize) -> u64
    requires { at + 8 ≤ length bytes.now }
    ensures { result ≡ little_number 8 (drop at bytes.now) }
{
    LittleEndian::read_u64(&bytes[at..])
}

impl Pmem for ImageRegion<'_> {
    ghost region = { λ m. m.region };

    ghost may_hold = { as_it_reads };

    ghost fuse = { fuse_state };

    ghost unburnt = { λ m never. absurd (false≢true never) };

    ghost open_unburnt = { open_not_burnt };

    ghost holds_now = { λ m i. refl };

    fn len(&self) -> u64 {
        self.bytes.len() as u64
    }

    fn load(&self, at: u64) -> u64 {
        let number = (at / 8) as usize;
        if number < self.front.len() {
            self.front[number]
        } else {
            word_at(self.bytes, at as usize)
        }
    }

    fn store(&mut self, at: u64, value: u64) -> Result<(), Stopped>
        requires aligned { at % 8 ≡ 0 }
        requires within { at + 8 ≤ size self.old.region }
        ensures stored { OnOk result (self.new.region ≡ put self.old.region at value) }
        ensures may_keep { OnOk result (Adds (One at value) (as_it_reads self.old) (as_it_reads self.new)) }
        ensures refused { OnErr result (self.new.region ≡ self.old.region) }
        ensures refused_keep { OnErr result (NoneAdded (as_it_reads self.old) (as_it_reads self.new)) }
        ensures stopped { is_err result ≡ self.new.burnt }
        ensures keeps_fuse { KeepsFuse (λ limit. at + 8 ≤ limit) (fuse_state self.old) (fuse_state self.new) }
        // A store is refused behind the front, and each one from then on.
        ensures in_front { StoresInFront self.old at self.new }
    {
        let number = (at / 8) as usize;
        if self.burnt || number >= self.limit {
            self.burnt = true;
            return Err(Stopped);
        }
        read_front(&mut self.front, self.bytes, number + 1);
        self.front[number] = value;
        Ok(())
    }

    fn fence(&mut self) -> Result<(), Stopped>
        ensures same { self.new.region ≡ self.old.region }
        ensures fenced { OnOk result (NothingPending self.new.region (as_it_reads self.new)) }
        ensures refused_keep { OnErr result (NoneAdded (as_it_reads self.old) (as_it_reads self.new)) }
        ensures stopped { is_err result ≡ self.new.burnt }
        ensures keeps_fuse { KeepsFuse (λ limit. 0 ≤ limit) (fuse_state self.old) (fuse_state self.new) }
        // It changes nothing.
        ensures unchanged { self.new ≡ self.old }
    {
        if self.burnt {
            return Err(Stopped);
        }
        Ok(())
    }
}
