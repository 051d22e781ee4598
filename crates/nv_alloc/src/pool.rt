//! One pool: which of its blocks are in use, and how many are free.

ghost use Rattle.std.specs.Prelude.{◌≡◌, ◌⊎◌, ◌<◌, ◌≤◌, ◌+◌, ◌*◌, ◌^◌, ℕ, length, IfOk, vec_len, vec_capacity};
ghost use Rattle.nv_super.specs.Runs.{InRun, Apart, AreRuns};
ghost use Rattle.nv_alloc.specs.Taking.{HasBlock, blocks_in};
ghost use Rattle.nv_alloc.specs.PoolValue.{SamePlace};
ghost use Rattle.nv_alloc.specs.Inside.{IsClear, TakesFrom, TakesSome};

use crate::cutting::{count_blocks, next_free, next_used, word_start};
use crate::marks::Marks;
use crate::runs::FreeRuns;
use nv_super::Run;
use std::alloc::{AllocError, Global};
use std::marker::Model;

/// The blocks from one up to another, with marks at those in use. The first mark is that of the first block whose bit is in the word
/// of the block `from`. No block before `first` is free: a take looks no further back.
#[derive(Drop)]
pub struct Pool {
    from: u64,
    to: u64,
    marks: Marks,
    free: u64,
    first: u64,
}

impl Model for Pool {
    ghost use Rattle.nv_alloc.specs.PoolValue.{PoolState};
    ghost use Rattle.nv_alloc.specs.FreeRuns.{free_runs, IsPool};

    ghost Value = { PoolState };

    ghost view = { λ p. record { from = p.from; to = p.to; runs = free_runs p.marks p.from p.to } };

    ghost invariant = { λ p. IsPool p.marks p.from p.to p.free p.first };
}

impl Pool {
    /// The blocks from one up to another that aren't in the set.
    pub fn between(alloc: Global, words: &[u64], from: u64, to: u64) -> Result<Pool, AllocError>
        requires order { from ≤ to }
        requires within { to ≤ 64 * length words.now }
        requires small { to ≤ 2 ^ 32 }
        ensures runs { IfOk result (λ pool. AreRuns (IsClear words.now from to) pool.runs) }
        ensures place { IfOk result (λ pool. (pool.from ≡ from) × (pool.to ≡ to)) }
    {
        let own = &words[(from / 64) as usize..to.div_ceil(64) as usize];
        let marks = Marks::new(alloc, Vec::from_slice(alloc, own)?)?;
        let free = count_blocks(&marks, from, to);
        Ok(Pool {
            from,
            to,
            marks,
            free,
            first: from,
        })
    }

    /// How many blocks are free.
    pub fn free(&self) -> u64
        ensures value { result ≡ blocks_in self.now.runs }
        ensures few { result ≤ 2 ^ 32 }
        ensures apart { Apart self.now.runs }
    {
        self.free
    }

    /// The block behind the last.
    pub fn end(&self) -> u64
        ensures { result ≡ self.now.to }
    {
        self.to
    }

    /// Takes up to `need` blocks, lowest first, and says how many are still needed.
    pub fn take(&mut self, need: u64, out: &mut Vec<Run>) -> u64
        requires { vec_len out.old + need ≤ vec_capacity out.old }
        ensures taken { TakesFrom need self.old out.old.items result self.new out.new.items }
        ensures room { vec_len out.new + result ≤ vec_capacity out.new }
        ensures place { SamePlace self.old self.new }
    {
        let mut rest = need;
        while rest > 0 && self.free > 0 {
            rest = self.take_first(rest, out);
        }
        rest
    }

    /// Takes what is needed of the first run, and says how many blocks are still needed.
    fn take_first(&mut self, need: u64, out: &mut Vec<Run>) -> u64
        requires some { 0 < need }
        requires free { 0 < blocks_in self.old.runs }
        requires room { vec_len out.old + need ≤ vec_capacity out.old }
        ensures less { result < need }
        ensures apart { Apart self.old.runs }
        ensures steps { TakesSome need self.old.runs out.old.items result self.new.runs out.new.items }
        ensures room { vec_len out.new + result ≤ vec_capacity out.new }
        ensures place { SamePlace self.old self.new }
    {
        let base = word_start(self.from);
        let start = next_free(&self.marks, self.from, self.first, self.to);
        let most = need.min(self.to - start);
        let end = next_used(&self.marks, self.from, start, start + most);
        let count = end - start;
        self.marks.set(start - base, end - base);
        self.free -= count;
        self.first = end;
        out.push_reserved(Run { start, count });
        need - count
    }

    /// Adds those blocks of the run that lie in the pool, none of which is free.
    pub fn join(&mut self, run: Run)
        requires bound { run.start + run.count ≤ 2 ^ 32 }
        requires used { (b : ℕ) → InRun run b → HasBlock self.old.runs b → ⊥ }
        ensures joined { AreRuns (λ b. HasBlock self.old.runs b ⊎ (((self.old.from ≤ b) × (b < self.old.to)) × InRun run b)) self.new.runs }
        ensures place { SamePlace self.old self.new }
    {
        let from = run.start.max(self.from);
        let to = (run.start + run.count).min(self.to);
        if from < to {
            let base = word_start(self.from);
            self.marks.clear(from - base, to - base);
            self.free += to - from;
            self.first = self.first.min(from);
        }
    }

    /// The runs, one after the other. It takes no memory.
    pub fn runs(&self) -> FreeRuns<'_>
        ensures { result ≡ self.now.runs }
    {
        FreeRuns {
            marks: &self.marks,
            first: self.from,
            here: self.from,
            to: self.to,
        }
    }

    /// The runs.
    pub fn list(&self, alloc: Global) -> Result<Vec<Run>, AllocError>
        ensures { IfOk result (λ runs. runs.items ≡ self.now.runs) }
    {
        self.runs().collect(alloc)
    }
}
