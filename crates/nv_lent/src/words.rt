//! A region over plain words: its own, or words that are lent to it, as those of a mapped file.
//!
//! A store is there at once and is never refused. So what a stop leaves is the words as they read.

ghost use Rattle.std.specs.Prelude.{◌≡◌, ◌⊎◌, ◌<◌, ◌≤◌, ◌*◌, ◌^◌, ◌↔◌, IfOk, IsErrOf, length, refl, replicate};
ghost use Rattle.nv_region.specs.Region.{bytes_of, region_of, size};
ghost use Rattle.nv_region.specs.Stops.{NothingPending};
ghost use Rattle.nv_lent.specs.WordsState.{as_it_reads, never_burns, region_over};
ghost use Rattle.nv_region.specs.declared.memory.TheConstants.{MOST_BLOCKS};

use byteorder::{ByteOrder, LittleEndian};
use nv_region::{MOST_BLOCKS, MOST_BYTES, Pmem, RegionRefusal, Stopped};
use std::alloc::{AllocError, Global};
use std::marker::Model;

const MOST_WORDS: usize = MOST_BYTES / 8;

const WORDS_IN_BLOCK: usize = 512;

/// A region over plain words. Contracts see it as a region.
#[derive(Drop)]
pub struct WordRegion<'a> {
    is_lent: bool,
    /// None where it has words of its own.
    lent: &'a mut [u64],
    own: Vec<u64>,
    /// The bytes behind the last word of its own.
    rest: Vec<u8>,
}

impl<'a> Model for WordRegion<'a> {
    ghost use Rattle.nv_region.specs.Region.{Region};
    ghost use Rattle.nv_lent.specs.WordsState.{IsShort, region_in};

    ghost Value = { Region };

    ghost view = { λ m. region_in m.is_lent m.lent.now m.own.items m.rest.items };

    ghost invariant = { λ m. IsShort (region_in m.is_lent m.lent.now m.own.items m.rest.items) };
}

impl<'a> WordRegion<'a> {
    /// The region of these words, of which there may be 134,217,728. Each store changes them where they are. It takes no
    /// memory.
    ///
    /// Errors: `Length` for more words, and no other.
    pub fn from_words(alloc: Global, words: &'a mut [u64]) -> Result<WordRegion<'a>, RegionRefusal>
        ensures region { IfOk result (λ m. m ≡ region_over words.old) }
        ensures settled { IfOk result (λ m. NothingPending m (as_it_reads m)) }
        ensures length { IsErrOf result RegionRefusal.Length ↔ (2 ^ 27 < length words.old) }
        ensures memory { ¬ IsErrOf result RegionRefusal.Memory }
    {
        if words.len() > MOST_WORDS {
            return Err(RegionRefusal::Length);
        }
        Ok(WordRegion {
            is_lent: true,
            lent: words,
            own: Vec::new(alloc),
            rest: Vec::new(alloc),
        })
    }

    /// A region of so many blocks of 4096 zero bytes, over words of its own.
    ///
    /// Errors: `Length` where there is no block or more than 262,144; `Memory` where a growth was refused.
    pub fn new(alloc: Global, blocks: u64) -> Result<WordRegion<'a>, RegionRefusal>
        ensures zeros { IfOk result (λ m. m ≡ region_over (replicate (512 * blocks) 0)) }
        ensures settled { IfOk result (λ m. NothingPending m (as_it_reads m)) }
        ensures length { IsErrOf result RegionRefusal.Length ↔ (blocks ≡ 0) ⊎ (MOST_BLOCKS < blocks) }
    {
        if blocks == 0 || blocks > MOST_BLOCKS {
            return Err(RegionRefusal::Length);
        }
        let words = vec![in alloc; 0; blocks as usize * WORDS_IN_BLOCK]?;
        Ok(WordRegion::own(words, Vec::new(alloc)))
    }

    /// A region of these bytes, over words of its own. Any length up to 1,073,741,824 bytes is taken.
    ///
    /// Errors: `Length` for more bytes; `Memory` where a growth was refused.
    pub fn from_bytes(alloc: Global, bytes: &[u8]) -> Result<WordRegion<'a>, RegionRefusal>
        ensures region { IfOk result (λ m. m ≡ region_of bytes.now) }
        ensures settled { IfOk result (λ m. NothingPending m (as_it_reads m)) }
        ensures length { IsErrOf result RegionRefusal.Length ↔ (2 ^ 30 < length bytes.now) }
    {
        if bytes.len() > MOST_BYTES {
            return Err(RegionRefusal::Length);
        }
        let (words, rest) = read_words(alloc, bytes)?;
        Ok(WordRegion::own(words, rest))
    }

    fn own(words: Vec<u64>, rest: Vec<u8>) -> WordRegion<'a>
        requires words { length words.items ≤ 2 ^ 27 }
        requires rest { length rest.items < 8 }
        ensures { result ≡ record { words = words.items; rest = rest.items } }
    {
        WordRegion {
            is_lent: false,
            lent: &mut [],
            own: words,
            rest,
        }
    }
}

impl WordRegion<'_> {
    /// Puts the bytes of the region into a buffer that has room for just these.
    pub fn copy_to(&self, buffer: &mut [u8])
        requires fits { length buffer.old ≡ size self.now }
        ensures { buffer.new ≡ bytes_of self.now }
    {
        let words = self.words();
        let (front, behind) = buffer.split_at_mut(8 * words.len());
        LittleEndian::write_u64_into(words, front);
        behind.copy_from_slice(&self.rest);
    }

    fn words(&self) -> &[u64]
        ensures words { result.now ≡ self.now.words }
        ensures short { length self.now.rest < 8 }
    {
        if self.is_lent { self.lent } else { &self.own }
    }
}

// The words of the bytes, and the bytes behind them.
fn read_words(alloc: Global, bytes: &[u8]) -> Result<(Vec<u64>, Vec<u8>), AllocError>
    ensures words { IfOk result (λ r. record { words = r.0.items; rest = r.1.items } ≡ region_of bytes.now) }
    ensures short { IfOk result (λ r. length r.1.items < 8) }
    ensures count { IfOk result (λ r. 8 * length r.0.items ≤ length bytes.now) }
{
    let mut words = Vec::with_capacity(alloc, bytes.len() / 8)?;
    let mut left = bytes;
    while left.len() >= 8 {
        words.push(LittleEndian::read_u64(left))?;
        left = &left[8..];
    }
    Ok((words, left.to_vec(alloc)?))
}

impl Pmem for WordRegion<'_> {
    ghost region = { λ m. m };

    ghost may_hold = { as_it_reads };

    ghost fuse = { λ m. never_burns };

    ghost unburnt = { λ m steady. refl };

    ghost open_unburnt = { λ m limit takes. refl };

    ghost holds_now = { λ m i. refl };

    fn len(&self) -> u64 {
        8 * self.words().len() as u64 + self.rest.len() as u64
    }

    fn load(&self, at: u64) -> u64 {
        self.words()[(at / 8) as usize]
    }

    fn store(&mut self, at: u64, value: u64) -> Result<(), Stopped> {
        let number = (at / 8) as usize;
        if self.is_lent {
            self.lent[number] = value;
        } else {
            self.own[number] = value;
        }
        Ok(())
    }

    fn fence(&mut self) -> Result<(), Stopped> {
        Ok(())
    }
}
