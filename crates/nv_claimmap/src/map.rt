//! The map itself: it is opened with a seat for each worker, worked on by all of them at once, and closed by the seat
//! that was joined of all seats.

ghost use Rattle.std.specs.Prelude.{◌≡◌, ℕ, ◌+◌, ◌-◌, ◌^◌, ◌<◌, ◌≤◌, ◌++◌, ◌⊎◌, [], IfSome, IfNone, IsNone, IfOk, IfErr, OnOk, OnErr, length, map, min, take, drop};
ghost use Rattle.std.specs.Mem.Slots.{slots_items, slots_len, IsFull};
ghost use Rattle.std.specs.Vec.{vec_len, vec_capacity};
ghost use Rattle.nv_blockset.specs.BlockSet.{has, words_for};
ghost use Rattle.nv_super.specs.Owners.{MayOwn, pairs, claims_of};
ghost use Rattle.nv_claimcore.specs.Claims.{past, times, won, with_number, both_views, below};
ghost use Rattle.nv_claimcore.specs.Finished.{pair_of};
ghost use Rattle.nv_claimcore.specs.Spans.{Adds};
ghost use Rattle.nv_claimmap.specs.Held.{MapId, IsNewTicket, map_id, fresh};
ghost use Rattle.nv_claimmap.specs.Inside.{IsMap};

use crate::claimed_runs::ClaimedRuns;
use crate::places::{CURSOR, FIRST, second_from, table_words};
use crate::rule::{Both, Draw, Law, Look};
use crate::seat::{ClaimSeat, seat_all};
use crate::steps::claim_words;
use atomic_table::{Closed, Table};
use nv_blockset::words_for;
use nv_claimcore::{Sizes, View};
use nv_super::{Owner, Run};
use std::alloc::{AllocError, Global};
use std::marker::Model;

/// The words that all workers share. Many threads may use it at once, each by a seat of its own.
#[derive(Drop)]
pub struct ClaimMap {
    table: Table<u8, View, Sizes, Law, Global>,
    sizes: Sizes,
    // How many words each set has.
    words: usize,
    // The room for the sets that `close` gives.
    first: Vec<u64>,
    second: Vec<u64>,
}

impl Model for ClaimMap {
    ghost Value = { MapId };

    ghost view = { λ m. map_id m.table.shared.table_id m.sizes };

    ghost invariant = { IsMap };
}

/// What the workers of a closed map have claimed. Block b is bit `b % 64` of word `b / 64` of a set.
#[derive(Drop)]
pub struct Claimed {
    /// The blocks that were claimed.
    pub first: Vec<u64>,
    /// The blocks that were claimed twice or more.
    pub second: Vec<u64>,
    /// All claims: a block, and the owner that it was claimed for.
    pub claims: ClaimedRuns,
}

impl ClaimMap {
    /// A map of so many blocks and tickets, and a seat for each worker, numbered from 0. No ticket is drawn and no
    /// block claimed. It costs two bits for each block, twice: once shared, and once as the room that `close` fills.
    ///
    /// Errors: `AllocError` where a growth was refused.
    pub fn open(alloc: Global, sizes: Sizes) -> Result<(ClaimMap, Vec<ClaimSeat>), AllocError>
        requires workers { (0 < sizes.workers) × (sizes.workers < 2 ^ 32) }
        requires numbers { sizes.tickets + sizes.workers < 2 ^ 64 }
        ensures sizes { IfOk result (λ r. r.0.sizes ≡ sizes) }
        ensures seats { IfOk result (λ r. r.1.items ≡ fresh r.0 sizes.workers) }
        ensures count { IfOk result (λ r. vec_len r.1 ≡ sizes.workers) }
    {
        let words = words_for(sizes.blocks);
        let first = Vec::with_capacity(alloc, words)?;
        let second = Vec::with_capacity(alloc, words)?;
        let zeros = vec![in alloc; 0u64; table_words(words)]?;
        let (table, seat) = Table::of_words(alloc, zeros.as_slice(), &sizes)?;
        let seats = seat_all(alloc, &table.shared, seat, sizes)?;
        let map = ClaimMap {
            table,
            sizes,
            words,
            first,
            second,
        };
        Ok((map, seats))
    }

    /// The next ticket, which is none of those that the seat has drawn; `None` once all are drawn. That no two draws of
    /// any threads give one ticket is told of all seats together, by `close`. After its first `None` a seat makes no
    /// further step. It takes no memory and waits for nobody.
    pub fn draw(&self, seat: &mut ClaimSeat) -> Option<u64>
        requires own { seat.old.map ≡ self.now }
        ensures map { seat.new.map ≡ seat.old.map }
        ensures number { seat.new.number ≡ seat.old.number }
        ensures ticket { IfSome result (IsNewTicket self.now.sizes.tickets seat.old.view) }
        ensures joins { IfSome result (λ t. seat.new.view ≡ with_number seat.old.view t) }
        ensures none { IfNone result (0 < past self.now.sizes.tickets seat.new.view.numbers) }
        // Where there is no ticket, at most a number past the end is drawn.
        ensures last { IfNone result ((seat.new.view ≡ seat.old.view) ⊎ ((n : ℕ) × (self.now.sizes.tickets ≤ n) × (seat.new.view ≡ with_number seat.old.view n))) }
        // A seat that holds a number past the end, a joined one too, gets no ticket any more.
        ensures ended { 0 < past self.now.sizes.tickets seat.old.view.numbers → IsNone result }
        // Such a seat makes no step.
        ensures rests { 0 < past self.now.sizes.tickets seat.old.view.numbers → seat.new ≡ seat.old }
    {
        if seat.ended {
            return None;
        }
        let number = self
            .table
            .shared
            .fetch_add::<Draw>(&mut seat.seat, CURSOR, 1);
        if number < self.sizes.tickets {
            return Some(number);
        }
        seat.ended = true;
        None
    }

    /// Claims the blocks of a run for an owner, whose page is raised by one from block to block. A run of no blocks
    /// changes nothing, wherever it begins. It costs at most two steps for each word of 64 blocks that the run touches,
    /// and waits for nobody.
    ///
    /// Errors: `AllocError` where a growth was refused, before any step; the seat has claimed then what it had before.
    pub fn claim(&self, seat: &mut ClaimSeat, run: Run, owner: Owner) -> Result<(), AllocError>
        requires own { seat.old.map ≡ self.now }
        requires blocks { 0 < run.count → run.start + run.count ≤ self.now.sizes.blocks }
        requires owner { 0 < run.count → MayOwn owner run.count }
        ensures map { seat.new.map ≡ seat.old.map }
        ensures number { seat.new.number ≡ seat.old.number }
        ensures ok { OnOk result (Adds (pairs run.start owner run.count) seat.old.view seat.new.view) }
        ensures err { OnErr result (seat.new.view ≡ seat.old.view) }
    {
        if run.is_empty() {
            return Ok(());
        }
        // The steps can't be taken back, so the memory comes first.
        seat.claims.push(run, owner)?;
        claim_words(&self.table.shared, &mut seat.seat, self.words, run, owner);
        Ok(())
    }

    /// Makes two seats one, which has the first one's number and what both have drawn and claimed.
    ///
    /// Errors: where a growth was refused, both seats as they were.
    pub fn join(
        &self,
        mut one: ClaimSeat,
        mut other: ClaimSeat,
    ) -> Result<ClaimSeat, (ClaimSeat, ClaimSeat)>
        requires own { one.map ≡ self.now }
        requires other { other.map ≡ self.now }
        ensures map { IfOk result (λ s. s.map ≡ one.map) }
        ensures number { IfOk result (λ s. s.number ≡ one.number) }
        ensures view { IfOk result (λ s. s.view ≡ both_views one.view other.view) }
        // No block is won twice.
        ensures once { IfOk result (λ s. (b : ℕ) → won b s.view ≤ 1) }
        ensures first { IfErr result (λ r. r.0 ≡ one) }
        ensures second { IfErr result (λ r. r.1 ≡ other) }
    {
        if one.claims.append(&mut other.claims).is_err() {
            return Err((one, other));
        }
        let ClaimSeat {
            seat,
            sizes: _,
            number: _,
            ended,
            claims: _,
        } = other;
        self.table.shared.join_seat::<Both>(&mut one.seat, seat);
        self.table.shared.load::<Look>(&mut one.seat, CURSOR);
        one.ended = one.ended || ended;
        Ok(one)
    }

    /// Ends the map, by the seat that was joined of all its seats: the two sets, and all claims, those of a seat in the
    /// order in which it made them. It takes no memory.
    pub fn close(self, seat: ClaimSeat) -> Claimed
        requires own { seat.map ≡ self }
        requires all { seat.view.seats ≡ self.sizes.workers }
        ensures numbers { (n : ℕ) × ((x : ℕ) → times x seat.view.numbers ≡ below x n) }
        ensures once { (b : ℕ) → won b seat.view ≡ min 1 (claims_of b result.claims.items) }
        ensures first { (b : ℕ) → has result.first.items b ≡ min 1 (claims_of b result.claims.items) }
        ensures first_words { length result.first.items ≡ words_for self.sizes.blocks }
        ensures second { (b : ℕ) → has result.second.items b ≡ min 1 (claims_of b result.claims.items - 1) }
        ensures second_words { length result.second.items ≡ words_for self.sizes.blocks }
        ensures claims { result.claims.items ≡ map pair_of seat.view.records }
    {
        let ClaimMap {
            table,
            sizes: _,
            words,
            mut first,
            mut second,
        } = self;
        let ClaimSeat {
            seat,
            sizes: _,
            number: _,
            ended: _,
            claims,
        } = seat;
        let closed = table.close_with(seat);
        copy_words(&closed, FIRST, words, &mut first);
        copy_words(&closed, second_from(words), words, &mut second);
        closed.free();
        Claimed {
            first,
            second,
            claims,
        }
    }
}

// Copies some words of a closed table. The room is there.
fn copy_words(closed: &Closed<u8, Global>, from: usize, count: usize, to: &mut Vec<u64>)
    requires words { (from + count ≤ slots_len closed.now.words) × IsFull closed.now.words }
    requires room { (to.old.items ≡ []) × (count ≤ vec_capacity to.old) }
    ensures { to.new.items ≡ take count (drop from (slots_items closed.now.words)) }
{
    for i in 0..count {
        to.push_reserved(closed.word(from + i));
    }
}
