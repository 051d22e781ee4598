//! The free blocks of all pools.
//!
//! Each pool keeps a bit for each of its blocks, and a bit for each word of these that is full. So a take goes over a word for each 4096
//! blocks of the pool and over the words of the run taken, and a give over the words of the run, however many runs there are.

ghost use Rattle.std.specs.Prelude.{◌≡◌, ◌<◌, ◌≤◌, ◌+◌, ◌*◌, ℕ, length, IfOk, OnOk, OnErr, IfErr, vec_len, vec_capacity};
ghost use Rattle.nv_super.specs.Layout.{IsLayout, InPool, system_blocks};
ghost use Rattle.nv_super.specs.Runs.{InRun, Apart};
ghost use Rattle.nv_alloc.specs.Taking.{HasBlock, all_blocks, pool_at, IsFullest, Takes};
ghost use Rattle.nv_alloc.specs.FreeLists.{IsSound, AreOutside, SameLists, Took, Leave, Refuses, CanJoin, Joins, runs_in};
ghost use Rattle.nv_alloc.specs.Inside.{lists_of, bounds_of, AreBounds, TakesOnto, JoinedUpTo};

use crate::pool::Pool;
use crate::runs::FreeRuns;
use nv_super::{Run, Super, WITH_CHAINS};
use std::alloc::{AllocError, Global};
use std::marker::Model;
use thiserror::Error;

/// Why no blocks were taken.
#[derive(Clone, Copy, Debug, PartialEq, Eq, Error)]
pub enum AllocRefusal {
    /// All pools together have fewer blocks.
    #[error("all pools together have fewer free blocks")]
    NoSpace,
    /// They have enough, and there is no memory for the runs.
    #[error("out of memory")]
    Memory,
}

impl AllocRefusal {
    ghost use Rattle.nv_alloc.specs.Names.{refusal_name};

    /// The name that scripts print.
    pub fn name(self) -> &'static str
        ensures { result.now ≡ refusal_name self }
    {
        match self {
            AllocRefusal::NoSpace => "NoSpace",
            AllocRefusal::Memory => "Memory",
        }
    }
}

/// The free blocks by pool.
#[derive(Drop)]
pub struct Allocators {
    alloc: Global,
    sup: Super,
    pools: Vec<Pool>,
    room: usize,
}

impl Model for Allocators {
    ghost use Rattle.nv_alloc.specs.FreeValue.{FreeLists};

    ghost Value = { FreeLists };

    ghost use Rattle.nv_alloc.specs.Whole.{view_of, IsWhole};

    ghost view = { λ a. view_of a.sup a.pools.items a.room };

    ghost invariant = { λ a. IsWhole a.sup a.pools.items a.room };
}

impl Allocators {
    /// The blocks of the pools that aren't in the set of these words, of which each block of the region has a bit. No room to give is
    /// promised. Errors: `AllocError` where a growth was refused.
    pub fn from_words(alloc: Global, words: &[u64], sup: &Super) -> Result<Allocators, AllocError>
        requires layout { IsLayout sup.now }
        requires covers { sup.now.blocks ≤ 64 * length words.now }
        ensures outside { IfOk result (λ a. AreOutside words.now sup.now a) }
        ensures sound { IfOk result (λ a. IsSound a) }
    {
        let mut pools = Vec::new(alloc);
        for cpu in 0..sup.cpus {
            let (start, end) = sup.pool(cpu);
            let pool = Pool::between(alloc, words, start, end)?;
            pools.push(pool)?;
        }
        Ok(Allocators {
            alloc,
            sup: *sup,
            pools,
            room: 0,
        })
    }

    /// Takes n blocks, lowest first, from the pool of a CPU. Once it is empty, they come from the pool that then has most free blocks
    /// (of several, that of the lowest CPU), which is used until it is empty or nothing more is needed. Runs of two pools aren't joined.
    ///
    /// Answers the runs, and leaves no less room to give. The time goes with the runs that are taken, each by a word for 4096 blocks of
    /// its pool. Memory is taken for n runs.
    ///
    /// Errors: `NoSpace` where all pools together have fewer blocks; `Memory` where they have enough, and there is no memory for the
    /// runs. With both the lists are as before.
    pub fn take(&mut self, cpu: u64, n: u64) -> Result<Vec<Run>, AllocRefusal>
        requires cpu { cpu < self.old.sup.cpus }
        ensures ok { IfOk result (λ runs. Took self.old cpu n runs.items self.new) }
        ensures enough { OnOk result (n ≤ all_blocks self.old.pools) }
        ensures leave { IfOk result (λ runs. Leave self.old n runs.items self.new) }
        ensures err { IfErr result (λ refusal. Refuses refusal n self.old.pools) }
        ensures unchanged { OnErr result (SameLists self.old self.new) }
        ensures sound_before { IsSound self.old }
        ensures sound { IsSound self.new }
    {
        take_from(self.alloc, self.pools.as_mut_slice(), cpu as usize, n)
    }

    /// Makes room for the next k calls of `give`, also with calls of `take` between. The lists stay. It takes no memory, so that it never
    /// answers `AllocError`; no clause says so.
    pub fn reserve(&mut self, k: usize) -> Result<(), AllocError>
        ensures same { SameLists self.old self.new }
        ensures room { OnOk result (k ≤ self.new.room) }
        ensures sound_before { IsSound self.old }
        ensures sound { IsSound self.new }
    {
        self.room = self.room.max(k);
        Ok(())
    }

    /// Adds a run of data blocks, none of which is free, to the pools in which they lie, joined with the runs that they touch. A run
    /// of no blocks changes nothing, and any other may use up the room for one call. It takes no memory.
    ///
    /// The first pool is found by a binary search. The time goes with the words of the run's blocks.
    pub fn give(&mut self, run: Run)
        requires can_join { CanJoin self.old run }
        requires room { 0 < run.count → 0 < self.old.room }
        ensures joined { Joins self.old run self.new }
        ensures room { self.old.room ≤ self.new.room + 1 }
        ensures empty { run.count ≡ 0 → self.new ≡ self.old }
        ensures sound_before { IsSound self.old }
        ensures sound { IsSound self.new }
    {
        if !run.is_empty() {
            join_all(self.pools.as_mut_slice(), &self.sup, run);
            self.room -= 1;
        }
    }

    /// Makes these the lists of a region whose version becomes 2. Its pools lie where they lay.
    pub fn upgrade(&mut self)
        ensures { self.new ≡ record self.old { sup = record self.old.sup { version = 2 } } }
    {
        self.sup.version = WITH_CHAINS;
    }

    /// The runs of free blocks, by CPU. Errors: `AllocError` where a growth was refused.
    pub fn lists(&self) -> Result<Vec<Vec<Run>>, AllocError>
        ensures lists { IfOk result (λ lists. runs_in lists.items ≡ self.now.pools) }
        ensures sound { IsSound self.now }
    {
        let mut lists = Vec::new(self.alloc);
        for pool in self.pools.as_slice() {
            let list = pool.list(self.alloc)?;
            lists.push(list)?;
        }
        Ok(lists)
    }

    /// The runs of the free blocks of a CPU's pool, rising. It takes no memory.
    pub fn runs(&self, cpu: u64) -> FreeRuns<'_>
        requires { cpu < self.now.sup.cpus }
        ensures { result ≡ pool_at self.now.pools cpu }
    {
        self.pools[cpu as usize].runs()
    }

    /// How many blocks are free in all pools together.
    pub fn free_blocks(&self) -> u64
        ensures blocks { result ≡ all_blocks self.now.pools }
        ensures sound { IsSound self.now }
    {
        count_free(self.pools.as_slice())
    }
}

/// How many blocks are free in all pools.
fn count_free(pools: &[Pool]) -> u64
    requires { length pools.now ≤ 64 }
    ensures { result ≡ all_blocks (lists_of pools.now) }
{
    let mut blocks = 0;
    for pool in pools {
        blocks += pool.free();
    }
    blocks
}

/// Takes n blocks from the pool of a CPU on, where all pools have so many.
fn take_from(
    alloc: Global,
    pools: &mut [Pool],
    cpu: usize,
    n: u64,
) -> Result<Vec<Run>, AllocRefusal>
    requires cpu { cpu < length pools.old }
    requires few { length pools.old ≤ 64 }
    ensures ok { IfOk result (λ runs. (n ≤ all_blocks (lists_of pools.old)) × Takes (lists_of pools.old) cpu n runs.items (lists_of pools.new)) }
    ensures err { IfErr result (λ refusal. Refuses refusal n (lists_of pools.old) × (lists_of pools.new ≡ lists_of pools.old)) }
    ensures bounds { bounds_of pools.new ≡ bounds_of pools.old }
{
    if count_free(pools) < n {
        return Err(AllocRefusal::NoSpace);
    }
    let Ok(mut taken) = Vec::with_capacity(alloc, n as usize) else {
        return Err(AllocRefusal::Memory);
    };
    take_on(pools, cpu, n, &mut taken);
    Ok(taken)
}

/// Takes what is needed, of which there is enough, from the pool of a CPU on.
fn take_on(pools: &mut [Pool], cpu: usize, need: u64, out: &mut Vec<Run>)
    requires cpu { cpu < length pools.old }
    requires enough { need ≤ all_blocks (lists_of pools.old) }
    requires room { vec_len out.old + need ≤ vec_capacity out.old }
    ensures takes { TakesOnto (lists_of pools.old) cpu need out.old.items out.new.items (lists_of pools.new) }
    ensures bounds { bounds_of pools.new ≡ bounds_of pools.old }
{
    let rest = pools[cpu].take(need, out);
    if rest > 0 {
        let next = fullest(pools);
        take_on(pools, next, rest, out);
    }
}

/// The pool with most free blocks, the lowest of these.
fn fullest(pools: &[Pool]) -> usize
    requires { 0 < length pools.now }
    ensures { IsFullest (lists_of pools.now) result }
{
    let mut best = 0;
    for (place, pool) in pools.iter().enumerate() {
        let leader = &pools[best];
        if leader.free() < pool.free() {
            best = place;
        }
    }
    best
}

/// Adds to each pool those blocks of the run that lie in it: from the pool of its first block up to that of its last.
fn join_all(pools: &mut [Pool], sup: &Super, run: Run)
    requires layout { IsLayout sup.now }
    requires count { length pools.old ≡ sup.now.cpus }
    requires blocks { (b : ℕ) → InRun run b → (system_blocks sup.now ≤ b) × (b < sup.now.blocks) }
    requires some { 0 < run.count }
    requires used { (c b : ℕ) → InRun run b → HasBlock (pool_at (lists_of pools.old) c) b → ⊥ }
    requires apart { (c : ℕ) → Apart (pool_at (lists_of pools.old) c) }
    requires bounds { AreBounds sup.now sup.now.cpus (bounds_of pools.old) }
    ensures joined { JoinedUpTo sup.now run (length pools.old) pools.old pools.new }
{
    let end = run.start + run.count;
    let home = pool_of(pools, sup, run.start) as usize;
    for cpu in home..pools.len() {
        pools[cpu].join(run);
        if end <= pools[cpu].end() {
            return;
        }
    }
}

/// The CPU whose pool has the block, by a binary search.
fn pool_of(pools: &[Pool], sup: &Super, block: u64) -> u64
    requires layout { IsLayout sup.now }
    requires count { length pools.now ≡ sup.now.cpus }
    requires bounds { AreBounds sup.now sup.now.cpus (bounds_of pools.now) }
    requires block { (system_blocks sup.now ≤ block) × (block < sup.now.blocks) }
    ensures cpu { result < sup.now.cpus }
    ensures pool { InPool sup.now result block }
{
    let mut low = 0;
    let mut high = sup.cpus;
    while high - low > 1 {
        let middle = low + (high - low) / 2;
        // A pool begins where the one before it ends, so no bound need be computed.
        if pools[middle as usize - 1].end() <= block {
            low = middle;
        } else {
            high = middle;
        }
    }
    low
}
