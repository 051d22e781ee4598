//! One block of a set: whether it is in, and putting it in.

ghost use Rattle.std.specs.Prelude.{◌≡◌, ◌/◌, ◌<◌, length};
ghost use Rattle.nv_blockset.specs.BlockSet.{is_set, with_block, words_for};

/// How many blocks a word holds.
pub(crate) const WORD_BITS: u64 = 64;

/// Whether the block is in the set.
pub fn contains(words: &[u64], block: u64) -> bool
    requires { block / 64 < length words.now }
    ensures { result ≡ is_set words.now block }
{
    words[(block / WORD_BITS) as usize] >> (block % WORD_BITS) & 1 == 1
}

/// Puts the block into the set, where it may be already.
pub fn insert(words: &mut [u64], block: u64)
    requires { block / 64 < length words.old }
    ensures { words.new ≡ with_block words.old block }
{
    words[(block / WORD_BITS) as usize] |= 1u64 << (block % WORD_BITS);
}

/// How many words a set of blocks below this bound has.
pub const fn words_for(blocks: u64) -> usize
    ensures { result ≡ words_for blocks }
{
    blocks.div_ceil(WORD_BITS) as usize
}
