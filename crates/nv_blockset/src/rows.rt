//! Blocks in a row put into a set, and a set emptied around them, a word at a time.

ghost use Rattle.std.specs.Prelude.{◌≡◌, ℕ, ◌<◌, ◌≤◌, ◌-◌, ◌*◌, ◌/◌, ◌^◌, length};
ghost use Rattle.std.specs.Int.{bit_at};
ghost use Rattle.nv_blockset.specs.BlockSet.{has};

use crate::words::WORD_BITS;

/// Puts the blocks from one on, and before another, into the set. A turn goes over a word.
pub fn insert_row(words: &mut [u64], from: u64, to: u64)
    requires order { from ≤ to }
    requires within { to ≤ 64 * length words.old }
    requires small { to ≤ 2 ^ 32 }
    ensures count { length words.new ≡ length words.old }
    ensures row { (b : ℕ) → from ≤ b → b < to → has words.new b ≡ 1 }
    ensures others { (b : ℕ) → (from ≤ b → b < to → ⊥) → has words.new b ≡ has words.old b }
{
    let mut here = from;
    while here < to {
        let bit = here % WORD_BITS;
        let next = (here - bit + WORD_BITS).min(to);
        words[(here / WORD_BITS) as usize] |= ones(bit as u32, (next - (here - bit)) as u32);
        here = next;
    }
}

/// The word with the bits from one on, and before another, and no others.
fn ones(from: u32, to: u32) -> u64
    requires { (from < to) × (to ≤ 64) }
    ensures inside { (i : ℕ) → from ≤ i → i < to → bit_at result i ≡ 1 }
    ensures outside { (i : ℕ) → i < 64 → (from ≤ i → i < to → ⊥) → bit_at result i ≡ 0 }
{
    (u64::MAX >> (64 - to)) & (u64::MAX << from)
}

/// Empties each word that has a block from one on, and before another. Most rows lie in one word.
pub fn empty_words(words: &mut [u64], from: u64, to: u64)
    requires order { from < to }
    requires within { to ≤ 64 * length words.old }
    requires small { to ≤ 2 ^ 32 }
    ensures count { length words.new ≡ length words.old }
    ensures none { (b : ℕ) → from / 64 ≤ b / 64 → b / 64 ≤ (to - 1) / 64 → has words.new b ≡ 0 }
    ensures others { (b : ℕ) → (from / 64 ≤ b / 64 → b / 64 ≤ (to - 1) / 64 → ⊥) → has words.new b ≡ has words.old b }
{
    let first = (from / WORD_BITS) as usize;
    words[first] = 0;
    for word in first + 1..to.div_ceil(WORD_BITS) as usize {
        words[word] = 0;
    }
}
