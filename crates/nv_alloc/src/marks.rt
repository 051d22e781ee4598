//! A set of blocks as words that finds the blocks outside of it: each word that is full has a bit in words of its own, so
//! that many full words are passed in one turn.

ghost use Rattle.std.specs.Prelude.{◌≡◌, ◌⊎◌, ◌<◌, ◌≤◌, ◌+◌, ◌-◌, ◌*◌, ◌/◌, ◌%◌, ◌^◌, ◌≢◌, ℕ, length, IfOk, slice_set};
ghost use Rattle.std.specs.Int.{bit_at};
ghost use Rattle.nv_blockset.specs.BlockSet.{has};
ghost use Rattle.nv_alloc.specs.SetTo.{SetTo, TellsFull};

use nv_blockset::{first_clear, first_set, insert, remove, words_for};
use std::alloc::{AllocError, Global};
use std::marker::Model;

/// A set of blocks.
#[derive(Drop)]
pub(crate) struct Marks {
    words: Vec<u64>,
    full: Vec<u64>,
}

impl Model for Marks {
    ghost use Rattle.std.specs.Prelude.{List, ℕ};
    ghost use Rattle.nv_alloc.specs.SetTo.{TellsFull};

    ghost Value = { List ℕ };

    ghost view = { λ m. m.words.items };

    ghost invariant = { λ m. TellsFull m.words.items m.full.items };
}

impl Marks {
    /// The set of these words.
    pub(crate) fn new(alloc: Global, words: Vec<u64>) -> Result<Marks, AllocError>
        ensures { IfOk result (λ marks. marks ≡ words.items) }
    {
        let mut full = vec![in alloc; 0; words_for(words.len() as u64)]?;
        tell_all(full.as_mut_slice(), words.as_slice());
        Ok(Marks { words, full })
    }

    /// The first block from one on, and before another, that isn't in the set; if there is none, that other.
    pub(crate) fn first_clear(&self, from: u64, to: u64) -> u64
        requires order { from ≤ to }
        requires within { to ≤ 64 * length self.now }
        requires small { to ≤ 2 ^ 32 }
        ensures order { (from ≤ result) × (result ≤ to) }
        ensures set { (b : ℕ) → from ≤ b → b < result → has self.now b ≡ 1 }
        ensures clear { result < to → has self.now result ≡ 0 }
    {
        first_outside(self.words.as_slice(), self.full.as_slice(), from, to)
    }

    /// The first block from one on, and before another, that is in the set; if there is none, that other.
    pub(crate) fn first_set(&self, from: u64, to: u64) -> u64
        requires order { from ≤ to }
        requires within { to ≤ 64 * length self.now }
        requires small { to ≤ 2 ^ 32 }
        ensures order { (from ≤ result) × (result ≤ to) }
        ensures clear { (b : ℕ) → from ≤ b → b < result → has self.now b ≡ 0 }
        ensures set { result < to → has self.now result ≡ 1 }
    {
        first_set(&self.words, from, to)
    }

    /// Puts the blocks from one up to another into the set.
    pub(crate) fn set(&mut self, from: u64, to: u64)
        requires within { to ≤ 64 * length self.old }
        requires small { to ≤ 2 ^ 32 }
        ensures { from ≤ to → SetTo self.old from to 1 self.new }
    {
        let mut here = from;
        while here < to {
            let edge = (here - here % 64 + 64).min(to);
            self.set_part(here, edge);
            here = edge;
        }
    }

    /// Takes the blocks from one up to another out of the set.
    pub(crate) fn clear(&mut self, from: u64, to: u64)
        requires within { to ≤ 64 * length self.old }
        requires small { to ≤ 2 ^ 32 }
        ensures { from ≤ to → SetTo self.old from to 0 self.new }
    {
        let mut here = from;
        while here < to {
            let edge = (here - here % 64 + 64).min(to);
            self.clear_part(here, edge);
            here = edge;
        }
    }

    /// Puts blocks of one word into the set.
    fn set_part(&mut self, from: u64, to: u64)
        requires some { from < to }
        requires part { to ≤ from - from % 64 + 64 }
        requires within { from / 64 < length self.old }
        ensures { SetTo self.old from to 1 self.new }
    {
        let word = (from / 64) as usize;
        let bits = self.words.as_slice()[word] | mask(from, to);
        self.put(word, bits);
    }

    /// Takes blocks of one word out of the set.
    fn clear_part(&mut self, from: u64, to: u64)
        requires some { from < to }
        requires part { to ≤ from - from % 64 + 64 }
        requires within { from / 64 < length self.old }
        ensures { SetTo self.old from to 0 self.new }
    {
        let word = (from / 64) as usize;
        let bits = self.words.as_slice()[word] & !mask(from, to);
        self.put(word, bits);
    }

    /// Gives a word these bits.
    fn put(&mut self, word: usize, bits: u64)
        requires { word < length self.old }
        ensures { self.new ≡ slice_set self.old word bits }
    {
        self.words[word] = bits;
        tell(self.full.as_mut_slice(), word as u64, bits);
    }
}

/// The first block from one on, and before another, that isn't in the set; if there is none, that other. It goes over the
/// rest of one word, over words that tell which are full, and over one word more.
fn first_outside(words: &[u64], full: &[u64], from: u64, to: u64) -> u64
    requires tells { TellsFull words.now full.now }
    requires order { from ≤ to }
    requires within { to ≤ 64 * length words.now }
    requires small { to ≤ 2 ^ 32 }
    ensures order { (from ≤ result) × (result ≤ to) }
    ensures set { (b : ℕ) → from ≤ b → b < result → has words.now b ≡ 1 }
    ensures clear { result < to → has words.now result ≡ 0 }
{
    let edge = (from - from % 64 + 64).min(to);
    let here = first_clear(words, from, edge);
    if here < edge || edge == to {
        return here;
    }
    let word = first_clear(full, edge / 64, to.div_ceil(64));
    first_clear(words, (64 * word).min(to), to)
}

/// Tells for each word whether it is full.
fn tell_all(full: &mut [u64], words: &[u64])
    requires covers { length words.now ≤ 64 * length full.old }
    requires none { (w : ℕ) → has full.old w ≡ 0 }
    ensures { TellsFull words.now full.new }
{
    for place in 0..words.len() {
        tell(full, place as u64, words[place]);
    }
}

/// Tells whether a word of these bits is full.
fn tell(full: &mut [u64], word: u64, bits: u64)
    requires { word / 64 < length full.old }
    ensures long { length full.new ≡ length full.old }
    ensures others { (w : ℕ) → w ≢ word → has full.new w ≡ has full.old w }
    ensures here { has full.new word ≡ 1 → bits ≡ 2 ^ 64 - 1 }
{
    if bits == u64::MAX {
        insert(full, word);
        return;
    }
    remove(full, word);
}

/// The bits of the blocks from one up to another, which lie in one word.
fn mask(from: u64, to: u64) -> u64
    requires some { from < to }
    requires part { to ≤ from - from % 64 + 64 }
    ensures inside { (i : ℕ) → from % 64 ≤ i → i < from % 64 + (to - from) → bit_at result i ≡ 1 }
    ensures outside { (i : ℕ) → i < 64 → (i < from % 64) ⊎ (from % 64 + (to - from) ≤ i) → bit_at result i ≡ 0 }
{
    let low = from % 64;
    let high = low + (to - from);
    (u64::MAX << low) & (u64::MAX >> (64 - high))
}
