//! A list of blocks, each once, with the set of the same blocks: whether a block is among them is told in constant
//! time, and all are forgotten in the time of those that are there.

ghost use Rattle.std.specs.Prelude.{◌≡◌, ◌<◌, ◌≤◌, ◌*◌, ◌++◌, ◌∷◌, [], ℕ, IfOk, OnOk, OnErr, IsTrue, true, false, eqb, length, get_or};
ghost use Rattle.std.specs.List.{list_any};
ghost use Rattle.nv_blockset.specs.BlockSet.{is_set};

use crate::words::{WORD_BITS, contains, insert, words_for};
use std::alloc::{AllocError, Global};
use std::marker::Model;

/// Blocks below a bound, each once, in the order in which they came.
#[derive(Drop)]
pub struct BlockList {
    bound: u64,
    blocks: Vec<u64>,
    words: Vec<u64>,
}

impl Model for BlockList {
    ghost use Rattle.nv_blockset.specs.Listed.{Listed, AreListed};

    ghost Value = { Listed };

    ghost view = { λ s. record { bound = s.bound; blocks = s.blocks.items } };

    ghost invariant = { AreListed };
}

impl BlockList {
    /// No block, with room for a first one.
    pub fn new(alloc: Global, bound: u64) -> Result<BlockList, AllocError>
        ensures { IfOk result (λ list. list ≡ record { bound = bound; blocks = [] }) }
    {
        Ok(BlockList {
            bound,
            blocks: Vec::with_capacity(alloc, 1)?,
            words: vec![in alloc; 0; words_for(bound)]?,
        })
    }

    /// Whether the block is in the list.
    pub fn contains(&self, block: u64) -> bool
        requires { block < self.now.bound }
        ensures { result ≡ list_any (eqb block) self.now.blocks }
    {
        contains(&self.words, block)
    }

    /// Adds a block at the end.
    pub fn push(&mut self, block: u64) -> Result<(), AllocError>
        requires below { block < self.old.bound }
        requires fresh { list_any (eqb block) self.old.blocks ≡ false }
        ensures pushed { OnOk result (self.new ≡ record { bound = self.old.bound; blocks = self.old.blocks ++ block ∷ [] }) }
        ensures refused { OnErr result (self.new ≡ self.old) }
        ensures few { length self.new.blocks ≤ self.new.bound }
    {
        self.blocks.push(block)?;
        insert(&mut self.words, block);
        Ok(())
    }

    /// Forgets all blocks, and takes this one, without memory. The cost is that of the blocks in the list.
    pub fn restart(&mut self, first: u64)
        requires { first < self.old.bound }
        ensures { self.new ≡ record { bound = self.old.bound; blocks = first ∷ [] } }
    {
        self.clear();
        self.blocks.push_reserved(first);
        insert(&mut self.words, first);
    }

    /// Forgets all blocks. The cost is that of the blocks in the list, and not of the bound.
    pub fn clear(&mut self)
        ensures { self.new ≡ record { bound = self.old.bound; blocks = [] } }
    {
        clear_words(&mut self.words, &self.blocks);
        self.blocks.clear();
    }

    pub fn as_slice(&self) -> &[u64]
        ensures { result.now ≡ self.now.blocks }
    {
        self.blocks.as_slice()
    }

    /// Hands over the blocks without taking memory.
    pub fn into_blocks(self) -> Vec<u64>
        ensures { result.items ≡ self.blocks }
    {
        self.blocks
    }
}

/// Empties a set whose blocks are all in the list.
fn clear_words(words: &mut [u64], blocks: &[u64])
    requires below { (k : ℕ) → k < length blocks.now → get_or blocks.now k 0 < 64 * length words.old }
    requires all { (b : ℕ) → IsTrue (is_set words.old b) → list_any (eqb b) blocks.now ≡ true }
    ensures count { length words.new ≡ length words.old }
    ensures none { (b : ℕ) → is_set words.new b ≡ false }
{
    for block in blocks {
        words[(*block / WORD_BITS) as usize] = 0;
    }
}
