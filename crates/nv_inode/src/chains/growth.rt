//! The tables as one block more is linked to the chain of a CPU. Memory is taken for it before anything is stored.

ghost use Rattle.std.specs.Prelude.{◌≡◌, ◌<◌, ◌≤◌, ◌+◌, ◌*◌, ◌%◌, ◌^◌, ℕ, false, length, eqb, IsOk, OnOk};
ghost use Rattle.std.specs.List.{list_any};
ghost use Rattle.nv_blockset.specs.BlockSet.{is_set};
ghost use Rattle.nv_super.specs.Layout.{chain_of, system_blocks};
ghost use Rattle.nv_inode.specs.Chains.{first_link, link_behind};
ghost use Rattle.nv_inode.specs.Growing.{with_block};
ghost use Rattle.nv_inode.specs.Numbers.{next_number};
ghost use Rattle.nv_inode.specs.Tables.{HasRoom};

use crate::chains::{FIRST_LINK, Tables};
use nv_blockset::{insert, words_for};
use nv_super::BLOCK_SIZE;
use std::alloc::AllocError;

impl Tables {
    /// The byte address of the last link of a CPU's chain, to which the next block is linked: a multiple of 8. The link
    /// lies whole within the region.
    pub fn last_link(&self, cpu: u64) -> u64
        requires { cpu < self.now.layout.sup.cpus }
        ensures value { result ≡ link_behind (first_link cpu) (chain_of self.now.layout cpu) }
        ensures aligned { result % 8 ≡ 0 }
        ensures inside { result + 8 ≤ 4096 * self.now.layout.sup.blocks }
    {
        self.are_laid();
        match self.chain(cpu).last() {
            Some(block) => BLOCK_SIZE * *block,
            None => BLOCK_SIZE * (1 + cpu) + FIRST_LINK,
        }
    }

    /// The first number of a CPU that has no slot. The next block of its chain gives it one.
    pub fn next_number(&self, cpu: u64) -> u64
        requires { cpu < self.now.layout.sup.cpus }
        ensures value { result ≡ next_number self.now.layout cpu }
        ensures small { result < 2 ^ 32 }
    {
        self.are_laid();
        self.table_size(cpu) * self.cpus() + cpu
    }

    /// Makes room for one block more in the chain of a CPU. The tables stay, whatever it answers.
    ///
    /// Errors: `AllocError` where a growth was refused. It doesn't come where there is room already.
    pub fn reserve(&mut self, cpu: u64) -> Result<(), AllocError>
        requires { cpu < self.old.layout.sup.cpus }
        ensures layout { self.new.layout ≡ self.old.layout }
        ensures faults { self.new.faults ≡ self.old.faults }
        ensures ready { OnOk result (HasRoom self.new cpu) }
        ensures succeeds { HasRoom self.old cpu → IsOk result }
    {
        lengthen(&mut self.marks, words_for(self.sup.blocks))?;
        self.chains[cpu as usize].reserve(1)
    }

    /// Puts a data block to the end of the chain of a CPU, where there is room for it and the chain hasn't the block. It
    /// takes no memory.
    pub fn push_block(&mut self, cpu: u64, block: u64)
        requires version { self.old.layout.sup.version ≡ 2 }
        requires cpu { cpu < self.old.layout.sup.cpus }
        requires from { system_blocks self.old.layout.sup ≤ block }
        requires to { block < self.old.layout.sup.blocks }
        requires fresh { list_any (eqb block) (chain_of self.old.layout cpu) ≡ false }
        requires room { HasRoom self.old cpu }
        ensures layout { self.new.layout ≡ with_block self.old.layout cpu block }
        ensures faults { self.new.faults ≡ self.old.faults }
    {
        insert(&mut self.marks, block);
        self.chains[cpu as usize].push_reserved(block);
    }
}

/// Gives a set so many words, if it has fewer. It has the same blocks then, whatever this answers.
fn lengthen(marks: &mut Vec<u64>, words: usize) -> Result<(), AllocError>
    ensures long { OnOk result (words ≤ length marks.new.items) }
    ensures same { (b : ℕ) → is_set marks.new.items b ≡ is_set marks.old.items b }
    ensures succeeds { words ≤ length marks.old.items → IsOk result }
    ensures kept { words ≤ length marks.old.items → marks.new.items ≡ marks.old.items }
{
    if marks.len() < words {
        marks.resize(words, 0)
    } else {
        Ok(())
    }
}
