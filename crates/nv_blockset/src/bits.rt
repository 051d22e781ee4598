//! The first block from one on that is in a set or outside of it, a word at a time, and one block taken out.

ghost use Rattle.std.specs.Prelude.{◌≡◌, ℕ, ◌<◌, ◌≤◌, ◌*◌, ◌/◌, ◌^◌, length, IfSome, IfNone};
ghost use Rattle.std.specs.Int.{bit_at};
ghost use Rattle.nv_blockset.specs.BlockSet.{has};
ghost use Rattle.nv_blockset.specs.WordRuns.{IsWordRun, AreZeros, without_block};

/// The first run of zero bits of a word, at bit `from` or later: its first bit, and how many bits it has.
pub fn word_run(word: u64, from: u32) -> Option<(u32, u32)>
    requires { from ≤ 64 }
    ensures some { IfSome result (λ run. IsWordRun word from run.0 run.1) }
    ensures none { IfNone result ((i : ℕ) → from ≤ i → i < 64 → bit_at word i ≡ 1) }
{
    if from == 64 {
        return None;
    }
    let start = from + count_zeros(!word, from);
    if start == 64 {
        return None;
    }
    Some((start, count_zeros(word, start)))
}

/// How many bits are 0 from one on, until the first 1 or the end of the word.
fn count_zeros(word: u64, from: u32) -> u32
    requires { from < 64 }
    ensures { AreZeros word from result }
{
    (word >> from).trailing_zeros().min(64 - from)
}

/// The first block from one on, and before another, that isn't in the set; if there is none, that other. A turn goes over a word.
pub fn first_clear(words: &[u64], from: u64, to: u64) -> u64
    requires order { from ≤ to }
    requires within { to ≤ 64 * length words.now }
    requires small { to ≤ 2 ^ 32 }
    ensures order { (from ≤ result) × (result ≤ to) }
    ensures set { (b : ℕ) → from ≤ b → b < result → has words.now b ≡ 1 }
    ensures clear { result < to → has words.now result ≡ 0 }
{
    let mut here = from;
    while here < to {
        if let Some((start, _)) = word_run(words[(here / 64) as usize], (here % 64) as u32) {
            return (here - here % 64 + u64::from(start)).min(to);
        }
        here += 64 - here % 64;
    }
    to
}

/// The first block from one on, and before another, that is in the set; if there is none, that other. A turn goes over a word.
pub fn first_set(words: &[u64], from: u64, to: u64) -> u64
    requires order { from ≤ to }
    requires within { to ≤ 64 * length words.now }
    requires small { to ≤ 2 ^ 32 }
    ensures order { (from ≤ result) × (result ≤ to) }
    ensures clear { (b : ℕ) → from ≤ b → b < result → has words.now b ≡ 0 }
    ensures set { result < to → has words.now result ≡ 1 }
{
    let mut here = from;
    while here < to {
        let bit = (here % 64) as u32;
        let zeros = count_zeros(words[(here / 64) as usize], bit);
        here += u64::from(zeros);
        if bit + zeros < 64 {
            return here.min(to);
        }
    }
    to
}

/// Takes the block out of the set, where it need not be.
pub fn remove(words: &mut [u64], block: u64)
    requires { block / 64 < length words.old }
    ensures { words.new ≡ without_block words.old block }
{
    words[(block / 64) as usize] &= !(1u64 << (block % 64));
}
