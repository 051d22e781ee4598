//! The runs of the blocks that a pool's marks leave free. The first word of the marks is that of the pool's first block.

ghost use Rattle.std.specs.Prelude.{◌≡◌, ℕ, true, false, ◌≤◌, ◌<◌, ◌+◌, ◌-◌, ◌*◌, ◌^◌, length, IfOk};
ghost use Rattle.nv_alloc.specs.Taking.{blocks_in};
ghost use Rattle.nv_alloc.specs.FreeRuns.{word_start, is_free, free_runs};

use crate::marks::Marks;

/// The first block whose bit is in the word of this block's bit.
pub const fn word_start(block: u64) -> u64
    ensures { result ≡ word_start block }
{
    block - block % 64
}

/// The first free block from one on, and before another; if there is none, that other. The pool begins with `first`.
pub fn next_free(marks: &Marks, first: u64, from: u64, to: u64) -> u64
    requires order { (first ≤ from) × (from ≤ to) }
    requires within { to ≤ word_start first + 64 * length marks.now }
    requires small { to ≤ 2 ^ 32 }
    ensures order { (from ≤ result) × (result ≤ to) }
    ensures passed { (b : ℕ) → from ≤ b → b < result → is_free marks.now first b ≡ false }
    ensures found { result < to → is_free marks.now first result ≡ true }
{
    let base = word_start(first);
    base + marks.first_clear(from - base, to - base)
}

/// The first block from one on, and before another, that isn't free; if there is none, that other. The pool begins with `first`.
pub fn next_used(marks: &Marks, first: u64, from: u64, to: u64) -> u64
    requires order { (first ≤ from) × (from ≤ to) }
    requires within { to ≤ word_start first + 64 * length marks.now }
    requires small { to ≤ 2 ^ 32 }
    ensures order { (from ≤ result) × (result ≤ to) }
    ensures passed { (b : ℕ) → from ≤ b → b < result → is_free marks.now first b ≡ true }
    ensures found { result < to → is_free marks.now first result ≡ false }
{
    let base = word_start(first);
    base + marks.first_set(from - base, to - base)
}

/// How many blocks of a pool are free.
pub fn count_blocks(marks: &Marks, from: u64, to: u64) -> u64
    requires order { from ≤ to }
    requires within { to ≤ word_start from + 64 * length marks.now }
    requires small { to ≤ 2 ^ 32 }
    ensures { result ≡ blocks_in (free_runs marks.now from to) }
{
    let mut blocks = 0;
    let mut here = next_free(marks, from, from, to);
    while here < to {
        let end = next_used(marks, from, here, to);
        blocks += end - here;
        here = next_free(marks, from, end, to);
    }
    blocks
}
