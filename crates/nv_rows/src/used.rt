//! The numbers in use: for each CPU a set of the places that they have in its table.

ghost use Rattle.std.specs.Prelude.{◌≡◌, ◌≢◌, ◌+◌, ◌*◌, ◌<◌, ◌≤◌, ◌^◌, ℕ, IfOk, OnOk, length, slice_index, slice_set};
ghost use Rattle.nv_blockset.specs.BlockSet.{has};
ghost use Rattle.nv_inode.specs.Numbers.{sizes_of};
ghost use Rattle.nv_rows.specs.Unused.{IsTableNumber};
ghost use Rattle.nv_rows.specs.InUse.{has_number, set_of};

use nv_blockset::{first_clear, words_for};
use nv_inode::Tables;
use std::alloc::{AllocError, Global};
use std::marker::Model;

/// How many numbers a block gives the table of a CPU.
pub(crate) const BLOCK_NUMBERS: u64 = 31;

/// The numbers in use. Those of a CPU rise by the number of CPUs, so that each has a place in the CPU's table.
#[derive(Drop)]
pub(crate) struct UsedNumbers {
    // How many numbers the table of each CPU has.
    sizes: Vec<u64>,
    // The places in use of each table, as bits.
    sets: Vec<Vec<u64>>,
}

impl Model for UsedNumbers {
    ghost use Rattle.nv_rows.specs.InUse.{UsedSets};

    ghost Value = { UsedSets };

    ghost use Rattle.nv_inode.specs.Tables.{lists_of};
    ghost use Rattle.nv_rows.specs.InUse.{HaveRoom};

    ghost view = { λ t. record { sizes = t.sizes.items; sets = lists_of t.sets.items } };

    ghost invariant = { λ t. HaveRoom t.sizes.items (lists_of t.sets.items) };
}

// Gives a set so many words, if it has fewer. It has the same places then, whatever this answers.
fn lengthen(set: &mut Vec<u64>, words: usize) -> Result<(), AllocError>
    ensures long { OnOk result (words ≤ length set.new.items) }
    ensures same { (b : ℕ) → has set.new.items b ≡ has set.old.items b }
    ensures more { length set.old.items ≤ length set.new.items }
{
    if set.len() < words {
        set.resize(words, 0)
    } else {
        Ok(())
    }
}

impl UsedNumbers {
    /// None of the numbers of these tables.
    pub(crate) fn new(alloc: Global, tables: &Tables) -> Result<UsedNumbers, AllocError>
        ensures sizes { IfOk result (λ used. used.sizes ≡ sizes_of tables.now.layout) }
        ensures none { IfOk result (λ used. (i : ℕ) → has_number used.sets i ≡ 0) }
    {
        tables.are_laid();
        let cpus = tables.cpus();
        let mut sizes = Vec::with_capacity(alloc, cpus as usize)?;
        let mut sets = Vec::with_capacity(alloc, cpus as usize)?;
        for cpu in 0..cpus {
            let size = tables.table_size(cpu);
            sizes.push(size)?;
            sets.push(vec![in alloc; 0; words_for(size)]?)?;
        }
        Ok(UsedNumbers { sizes, sets })
    }

    /// Puts a number of the tables in, where it may be already.
    pub(crate) fn insert(&mut self, number: u64)
        requires { IsTableNumber (length self.old.sizes) self.old.sizes number }
        ensures sizes { self.new.sizes ≡ self.old.sizes }
        ensures there { has_number self.new.sets number ≡ 1 }
        ensures others { (i : ℕ) → i ≢ number → has_number self.new.sets i ≡ has_number self.old.sets i }
    {
        let cpus = self.sets.len() as u64;
        nv_blockset::insert(&mut self.sets[(number % cpus) as usize], number / cpus);
    }

    /// Takes a number of the tables out.
    pub(crate) fn remove(&mut self, number: u64)
        requires { IsTableNumber (length self.old.sizes) self.old.sizes number }
        ensures sizes { self.new.sizes ≡ self.old.sizes }
        ensures gone { has_number self.new.sets number ≡ 0 }
        ensures others { (i : ℕ) → i ≢ number → has_number self.new.sets i ≡ has_number self.old.sets i }
    {
        let cpus = self.sets.len() as u64;
        nv_blockset::remove(&mut self.sets[(number % cpus) as usize], number / cpus);
    }

    /// Makes room for the numbers of a block more in the table of a CPU. The numbers stay, whatever it answers.
    pub(crate) fn reserve(&mut self, cpu: u64) -> Result<(), AllocError>
        requires { cpu < length self.old.sizes }
        ensures sizes { self.new.sizes ≡ self.old.sizes }
        ensures same { (i : ℕ) → has_number self.new.sets i ≡ has_number self.old.sets i }
        ensures ready { OnOk result (slice_index self.old.sizes cpu + 31 ≤ 64 * length (set_of self.new.sets cpu)) }
    {
        let words = words_for(self.sizes[cpu as usize] + BLOCK_NUMBERS);
        lengthen(&mut self.sets[cpu as usize], words)
    }

    /// Lets the table of a CPU have the numbers of a block more, for which there is room. None of them is in.
    pub(crate) fn grow(&mut self, cpu: u64)
        requires cpu { cpu < length self.old.sizes }
        requires room { slice_index self.old.sizes cpu + 31 ≤ 64 * length (set_of self.old.sets cpu) }
        requires small { slice_index self.old.sizes cpu + 31 < 2 ^ 32 }
        ensures sizes { self.new.sizes ≡ slice_set self.old.sizes cpu (slice_index self.old.sizes cpu + 31) }
        ensures sets { self.new.sets ≡ self.old.sets }
    {
        self.sizes[cpu as usize] += BLOCK_NUMBERS;
    }

    /// How many numbers the table of a CPU has.
    pub(crate) fn size(&self, cpu: u64) -> u64
        requires { cpu < length self.now.sizes }
        ensures value { result ≡ slice_index self.now.sizes cpu }
        ensures some { 0 < result }
        ensures small { result < 2 ^ 32 }
    {
        self.sizes[cpu as usize]
    }

    /// The first place of a CPU's table from one on that isn't in use; if there is none, the end of the table. It looks
    /// at one word for 64 places.
    pub(crate) fn first_unused(&self, cpu: u64, from: u64) -> u64
        requires cpu { cpu < length self.now.sizes }
        requires from { from ≤ slice_index self.now.sizes cpu }
        ensures order { (from ≤ result) × (result ≤ slice_index self.now.sizes cpu) }
        ensures used { (place : ℕ) → from ≤ place → place < result → has_number self.now.sets (place * length self.now.sizes + cpu) ≡ 1 }
        ensures unused { result < slice_index self.now.sizes cpu → has_number self.now.sets (result * length self.now.sizes + cpu) ≡ 0 }
    {
        first_clear(&self.sets[cpu as usize], from, self.sizes[cpu as usize])
    }
}
