//! One worker of the core: the numbers that it drew, and the records of its claims.

ghost use Rattle.std.specs.Prelude.{◌≡◌, ℕ, ◌+◌, ◌%◌, ◌<◌, ◌≤◌, ◌++◌, nat_lt, length, OnOk, OnErr};
ghost use Rattle.std.specs.List.{count_by};
ghost use Rattle.std.specs.Vec.{vec_len, vec_capacity};
ghost use Rattle.nv_super.specs.Owners.{MayOwn, pairs};
ghost use Rattle.nv_claimcore.specs.declared.view.View.{View};
ghost use Rattle.nv_claimcore.specs.Claims.{Owes, nothing, past, is_unmarked, place_of, with_number, with_record, with_mark};
ghost use Rattle.nv_claimcore.specs.Spans.{claim_all, claims_in};

use crate::view::Record;
use nv_super::{Owner, Run};
use std::alloc::{AllocError, Global};
use std::marker::Model;

/// What one worker has drawn and claimed. Contracts see it as a view of one seat.
#[derive(Drop)]
pub struct Worker {
    numbers: Vec<u64>,
    records: Vec<Record>,
}

impl Model for Worker {
    ghost Value = { View };

    ghost view = { λ w. record { seats = 1; numbers = w.numbers.items; records = w.records.items } };
}

impl Worker {
    /// The numbers drawn, in the order of the draws.
    pub fn numbers(&self) -> &[u64]
        ensures { result.now ≡ self.now.numbers }
    {
        &self.numbers
    }

    /// The records of the claims, in the order of the claims.
    pub fn records(&self) -> &[Record]
        ensures { result.now ≡ self.now.records }
    {
        &self.records
    }

    pub(crate) fn new(alloc: Global) -> Worker
        ensures { result ≡ nothing 1 }
    {
        Worker {
            numbers: Vec::new(alloc),
            records: Vec::new(alloc),
        }
    }

    pub(crate) fn draw(&mut self, number: u64) -> Result<(), AllocError>
        ensures ok { OnOk result (self.new ≡ with_number self.old number) }
        ensures err { OnErr result (self.new ≡ self.old) }
    {
        self.numbers.push(number)?;
        Ok(())
    }

    pub(crate) fn claim(&mut self, claim: Record) -> Result<(), AllocError>
        ensures ok { OnOk result (self.new ≡ with_record self.old claim) }
        ensures err { OnErr result (self.new ≡ self.old) }
    {
        self.records.push(claim)?;
        Ok(())
    }

    // A record more for each block of a run within one word, won where its bit is 0 in the word found.
    pub(crate) fn claim_run(&mut self, found: u64, run: Run, owner: Owner) -> Result<(), AllocError>
        requires word { run.start % 64 + run.count ≤ 64 }
        requires owner { MayOwn owner run.count }
        ensures ok { OnOk result (self.new ≡ claim_all found (pairs run.start owner run.count) self.old) }
        ensures err { OnErr result (self.new ≡ self.old) }
    {
        self.records.reserve(run.count as usize)?;
        push_claims(&mut self.records, found, run, owner);
        Ok(())
    }

    // Marks the oldest lost claim of the block that is not marked, if there is one.
    pub(crate) fn mark(&mut self, block: u64)
        ensures { self.new ≡ with_mark self.old block }
    {
        let place = first_unmarked(self.records.as_slice(), block);
        if place < self.records.len() {
            self.records[place].marked = true;
        }
    }

    // Marks the last record.
    pub(crate) fn mark_last(&mut self)
        requires { 0 < length self.old.records }
        ensures { (block : ℕ) → Owes block self.old.records → self.new ≡ with_mark self.old block }
    {
        let last = self.records.len() - 1;
        self.records[last].marked = true;
    }

    // Whether a lost claim of the block is not marked.
    pub(crate) fn has_unmarked(&self, block: u64) -> bool
        ensures { result ≡ nat_lt 0 (count_by (is_unmarked block) self.now.records) }
    {
        first_unmarked(self.records.as_slice(), block) < self.records.len()
    }

    // How many numbers are at or past the end of the tickets.
    pub(crate) fn count_past(&self, tickets: u64) -> usize
        ensures { result ≡ past tickets self.now.numbers }
    {
        self.numbers
            .iter()
            .filter(|number| **number >= tickets)
            .count()
    }
}

// Adds a record for each block of a run, won where its bit is 0 in the word found. The room is there.
fn push_claims(records: &mut Vec<Record>, found: u64, run: Run, owner: Owner)
    requires word { run.start % 64 + run.count ≤ 64 }
    requires owner { MayOwn owner run.count }
    requires room { vec_len records.old + run.count ≤ vec_capacity records.old }
    ensures { records.new.items ≡ records.old.items ++ claims_in found (pairs run.start owner run.count) }
{
    for place in 0..run.count {
        let block = run.start + place;
        records.push_reserved(Record {
            block,
            owner: owner.raised(place),
            won: found >> (block % 64) & 1 == 0,
            marked: false,
        });
    }
}

// The place of the oldest lost claim of the block that is not marked, or else the end.
fn first_unmarked(records: &[Record], block: u64) -> usize
    ensures { result ≡ place_of block records.now }
{
    let mut place = 0;
    while place < records.len() {
        let claim = records[place];
        if !claim.won && !claim.marked && claim.block == block {
            return place;
        }
        place += 1;
    }
    place
}
