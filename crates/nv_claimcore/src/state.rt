//! The core's state, and one event after the other.

ghost use Rattle.std.specs.Prelude.{◌≡◌, ◌+◌, ◌*◌, ◌/◌, ◌%◌, ◌<◌, ◌≤◌, ◌^◌, ◌==◌, true, length, MatchOption, IfOk, IfErr, OnOk, OnErr};
ghost use Rattle.std.specs.Int.{bit_at};
ghost use Rattle.nv_blockset.specs.BlockSet.{has, words_for};
ghost use Rattle.nv_super.specs.Owners.{MayOwn};
ghost use Rattle.nv_claimcore.specs.declared.event.Event.TheVariants.{Mark};
ghost use Rattle.nv_claimcore.specs.declared.refusal.CoreRefusal.TheVariants.{NotAllowed};
ghost use Rattle.nv_claimcore.specs.Claims.{State, Legal, Owes, after_draw, after_claim, after_mark};
ghost use Rattle.nv_claimcore.specs.Events.{start, view_of, is_allowed, after, all_allowed, after_all};
ghost use Rattle.nv_claimcore.specs.Refused.{RefusesFrom};
ghost use Rattle.nv_claimcore.specs.SpanEvents.{sizes_of, span_events, mark_events, IsLost};

use crate::event::Event;
use crate::refusal::CoreRefusal;
use crate::view::{Record, Sizes};
use crate::worker::Worker;
use nv_blockset::{contains, insert, words_for};
use nv_super::{Owner, Run};
use std::alloc::{AllocError, Global};
use std::marker::Model;

/// The first and the second set of blocks as words, the cursor, and what each worker has drawn and claimed.
/// Block b is bit `b % 64` of word `b / 64`.
#[derive(Drop)]
pub struct ClaimState {
    first: Vec<u64>,
    second: Vec<u64>,
    cursor: u64,
    views: Vec<Worker>,
}

impl Model for ClaimState {
    ghost Value = { State };

    ghost view = { λ s. record { first = s.first.items; second = s.second.items; cursor = s.cursor; views = s.views.items } };
}

impl ClaimState {
    /// The words of the first set: the blocks that were claimed.
    pub fn first(&self) -> &[u64]
        ensures { result.now ≡ self.now.first }
    {
        &self.first
    }

    /// The words of the second set: the blocks with a lost claim that was marked.
    pub fn second(&self) -> &[u64]
        ensures { result.now ≡ self.now.second }
    {
        &self.second
    }

    /// The number that is drawn next.
    pub fn cursor(&self) -> u64
        ensures { result ≡ self.now.cursor }
    {
        self.cursor
    }

    /// What each worker has drawn and claimed, by its number.
    pub fn views(&self) -> &[Worker]
        ensures { result.now ≡ self.now.views }
    {
        &self.views
    }

    /// The worker claims the blocks of a run within one word, in rising order, for an owner whose page is raised by one
    /// from block to block. The answer is the mask of the blocks whose claims were lost.
    ///
    /// It takes the time of one step for each block of the run.
    ///
    /// Errors: `NotAllowed` at place 0 where the run has blocks and there is no such worker; `Memory` where a growth
    /// was refused. Either changes nothing.
    pub fn claim_span(&mut self, worker: u32, run: Run, owner: Owner) -> Result<u64, CoreRefusal>
        requires word { run.start % 64 + run.count ≤ 64 }
        requires blocks { 0 < run.count → run.start + run.count ≤ 64 * length self.old.first }
        requires owner { 0 < run.count → MayOwn owner run.count }
        ensures allowed { IfOk result (λ _. all_allowed (sizes_of self.old) self.old (span_events worker run owner) ≡ true) }
        ensures state { OnOk result (self.new ≡ after_all self.old (span_events worker run owner)) }
        ensures lost { IfOk result (IsLost self.old.first run) }
        ensures refused { IfErr result (RefusesFrom (sizes_of self.old) self.old (span_events worker run owner)) }
        ensures unchanged { OnErr result (self.new ≡ self.old) }
    {
        if run.is_empty() {
            return Ok(0);
        }
        if worker as usize >= self.views.len() {
            return Err(CoreRefusal::NotAllowed { place: 0 });
        }
        let word = (run.start / 64) as usize;
        let mask = (u64::MAX >> (64 - run.count)) << (run.start % 64);
        let found = self.first[word];
        self.views[worker as usize].claim_run(found, run, owner)?;
        self.first[word] = found | mask;
        Ok(found & mask)
    }

    /// The worker marks the blocks that the mask has in a word of the second set, in rising order: of each its oldest
    /// lost claim that is not marked.
    ///
    /// For each block of the mask it looks through the worker's records. It takes no memory.
    ///
    /// Errors: `NotAllowed` with the place, among the mask's blocks from 0 on, of the first of which the worker has no
    /// such claim, or 0 where there is no such worker. It changes nothing.
    pub fn mark_span(&mut self, worker: u32, word: usize, mask: u64) -> Result<(), CoreRefusal>
        requires word { (word < length self.old.second) × (word < 2 ^ 58) }
        ensures allowed { OnOk result (all_allowed (sizes_of self.old) self.old (mark_events worker word mask) ≡ true) }
        ensures state { OnOk result (self.new ≡ after_all self.old (mark_events worker word mask)) }
        ensures refused { IfErr result (RefusesFrom (sizes_of self.old) self.old (mark_events worker word mask)) }
        ensures unchanged { OnErr result (self.new ≡ self.old) }
    {
        if let Some(place) = self.refused_mark(worker, word, mask) {
            return Err(CoreRefusal::NotAllowed { place });
        }
        self.mark_all(worker, word, mask);
        Ok(())
    }

    // Nothing is drawn or claimed.
    pub(crate) fn new(alloc: Global, sizes: Sizes) -> Result<ClaimState, AllocError>
        ensures { IfOk result (λ s. s ≡ start sizes) }
    {
        let words = words_for(sizes.blocks);
        let first = vec![in alloc; 0u64; words]?;
        let second = vec![in alloc; 0u64; words]?;
        let mut views = Vec::new(alloc);
        for _ in 0..sizes.workers {
            views.push(Worker::new(alloc))?;
        }
        Ok(ClaimState {
            first,
            second,
            cursor: 0,
            views,
        })
    }

    // The worker draws the number that is answered.
    pub(crate) fn draw(&mut self, worker: usize) -> Result<u64, AllocError>
        requires { (worker < length self.old.views) × (self.old.cursor + 1 < 2 ^ 64) }
        ensures number { IfOk result (λ number. number ≡ self.old.cursor) }
        ensures ok { OnOk result (self.new ≡ after_draw self.old worker (view_of self.old worker)) }
        ensures err { OnErr result (self.new ≡ self.old) }
    {
        let number = self.cursor;
        self.views[worker].draw(number)?;
        self.cursor += 1;
        Ok(number)
    }

    // The worker claims the block; the answer is whether it won.
    pub(crate) fn claim(
        &mut self,
        worker: usize,
        block: u64,
        owner: Owner,
    ) -> Result<bool, AllocError>
        requires { (worker < length self.old.views) × (block / 64 < length self.old.first) }
        ensures won { IfOk result (λ won. won ≡ (has self.old.first block == 0)) }
        ensures ok { OnOk result (self.new ≡ after_claim self.old worker (view_of self.old worker) block owner) }
        ensures err { OnErr result (self.new ≡ self.old) }
    {
        let won = !contains(&self.first, block);
        self.views[worker].claim(Record {
            block,
            owner,
            won,
            marked: false,
        })?;
        insert(&mut self.first, block);
        Ok(won)
    }

    // The worker marks its oldest lost claim of the block that is not marked.
    fn mark(&mut self, worker: usize, block: u64)
        requires { (worker < length self.old.views) × (block / 64 < length self.old.second) }
        ensures { self.new ≡ after_mark self.old worker (view_of self.old worker) block }
    {
        self.views[worker].mark(block);
        insert(&mut self.second, block);
    }

    // The same where the worker's last record is the one to be marked: no record is searched.
    pub(crate) fn mark_last(&mut self, worker: usize, block: u64)
        requires inside { (worker < length self.old.views) × (block / 64 < length self.old.second) }
        requires last { Owes block (view_of self.old worker).records }
        ensures { self.new ≡ after_mark self.old worker (view_of self.old worker) block }
    {
        self.views[worker].mark_last();
        insert(&mut self.second, block);
    }

    // The place, among the mask's blocks, of the first one that the worker may not mark.
    fn refused_mark(&self, worker: u32, word: usize, mask: u64) -> Option<usize>
        requires { word < 2 ^ 58 }
        ensures { MatchOption result (all_allowed (sizes_of self.now) self.now (mark_events worker word mask) ≡ true)
            (λ place. RefusesFrom (sizes_of self.now) self.now (mark_events worker word mask) (NotAllowed place)) }
    {
        let mut place = 0;
        for bit in 0..64 {
            if has_bit(mask, bit) {
                if !self.may_mark(worker, word as u64 * 64 + bit) {
                    return Some(place);
                }
                place += 1;
            }
        }
        None
    }

    // Marks all blocks of the mask.
    fn mark_all(&mut self, worker: u32, word: usize, mask: u64)
        requires word { (word < length self.old.second) × (word < 2 ^ 58) }
        requires allowed { all_allowed (sizes_of self.old) self.old (mark_events worker word mask) ≡ true }
        ensures { self.new ≡ after_all self.old (mark_events worker word mask) }
    {
        for bit in 0..64 {
            if has_bit(mask, bit) {
                self.mark(worker as usize, word as u64 * 64 + bit);
            }
        }
    }

    // Whether the worker has a lost claim of the block that is not marked.
    fn may_mark(&self, worker: u32, block: u64) -> bool
        ensures { result ≡ is_allowed (sizes_of self.now) self.now (Mark worker block) }
    {
        (worker as usize) < self.views.len() && self.views[worker as usize].has_unmarked(block)
    }

    // Whether the event is allowed.
    pub(crate) fn allows(&self, sizes: Sizes, event: Event) -> bool
        requires { length self.now.first ≡ words_for sizes.blocks }
        ensures { result ≡ is_allowed sizes self.now event }
    {
        match event {
            Event::Draw { worker } => {
                (worker as usize) < self.views.len()
                    && self.views[worker as usize].count_past(sizes.tickets) == 0
            }
            Event::Claim { worker, block, .. } => (worker as usize) < self.views.len()
                && block < sizes.blocks,
            Event::Mark { worker, block } => self.may_mark(worker, block),
        }
    }

    // Does an allowed event.
    pub(crate) fn step(&mut self, sizes: Sizes, event: Event) -> Result<(), AllocError>
        requires { Legal sizes self.old × (is_allowed sizes self.old event ≡ true) × (self.old.cursor + 1 < 2 ^ 64) }
        ensures ok { OnOk result (self.new ≡ after self.old event) }
        ensures err { OnErr result (self.new ≡ self.old) }
    {
        match event {
            Event::Draw { worker } => {
                self.draw(worker as usize)?;
            }
            Event::Claim {
                worker,
                block,
                owner,
            } => {
                self.claim(worker as usize, block, owner)?;
            }
            Event::Mark { worker, block } => self.mark(worker as usize, block),
        }
        Ok(())
    }
}

// Whether the mask has the bit.
fn has_bit(mask: u64, bit: u64) -> bool
    requires { bit < 64 }
    ensures { result ≡ (bit_at mask bit == 1) }
{
    mask >> bit & 1 == 1
}
