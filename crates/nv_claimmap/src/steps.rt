//! The steps of a claim: for each word of 64 blocks that a run touches, one step on the first set, and one on the second
//! where blocks of the run were claimed before. Arguments that begin with an underscore are for the proofs alone: they
//! say which blocks a step is about, and for whom.

ghost use Rattle.std.specs.Prelude.{◌≡◌, ℕ, ◌+◌, ◌-◌, ◌/◌, ◌%◌, ◌^◌, ◌<◌, ◌≤◌, ◌++◌, bit_and};
ghost use Rattle.std.specs.List.{All};
ghost use Rattle.nv_blockset.specs.BlockSet.{words_for};
ghost use Rattle.nv_super.specs.Owners.{MayOwn, pairs};
ghost use Rattle.nv_claimcore.specs.Claims.{Settled};
ghost use Rattle.nv_claimcore.specs.Spans.{claim_all, mark_all, lost_in, settle, AreUnmarked, Adds};
ghost use Rattle.nv_claimmap.specs.Inside.{HasSets, InWord};

use crate::places::{FIRST, second_from};
use crate::rule::{Claim, Intent, Law, Mark};
use atomic_table::{Seat, Shared};
use nv_claimcore::{Sizes, View};
use nv_super::{Owner, Run};
use std::marker::Brand;

// One step on a word of the first set, for a run within it. Gives the word as it was.
fn claim_step<I: Intent>(
    shared: &Shared<u8, View, Sizes, Law>,
    seat: &mut Seat<u8, View>,
    word: usize,
    mask: u64,
    _start: u64,
    _count: u64,
    _owner: Owner,
) -> u64
    requires intent { I.claims ≡ pairs _start _owner _count }
    requires own { seat.old.table_id ≡ shared.now.table_id }
    requires table { HasSets shared.now.table_id shared.now.key (words_for shared.now.key.blocks) }
    requires word { (word ≡ _start / 64) × (0 < _count) }
    requires run { InWord _start _count shared.now.key.blocks }
    requires mask { mask ≡ 2 ^ (_start % 64 + _count) - 2 ^ (_start % 64) }
    requires seat { 0 < seat.old.me.0.seats }
    ensures same { (seat.new.table_id ≡ seat.old.table_id) × (seat.new.id ≡ seat.old.id) }
    ensures me { seat.new.me ≡ (claim_all result (pairs _start _owner _count) seat.old.me.0, seat.old.me.1) }
{
    shared.fetch_or::<Claim<I>>(seat, FIRST + word, mask)
}

// One step on a word of the second set, for the blocks of a run that were found in the first.
fn mark_step<I: Intent>(
    shared: &Shared<u8, View, Sizes, Law>,
    seat: &mut Seat<u8, View>,
    words: usize,
    word: usize,
    lost: u64,
    _found: u64,
    _start: u64,
    _count: u64,
    _owner: Owner,
)
    requires intent { I.claims ≡ lost_in _found (pairs _start _owner _count) }
    requires own { seat.old.table_id ≡ shared.now.table_id }
    requires table { HasSets shared.now.table_id shared.now.key words }
    requires word { (word ≡ _start / 64) × (0 < _count) }
    requires run { InWord _start _count shared.now.key.blocks }
    requires lost { lost ≡ bit_and _found (2 ^ (_start % 64 + _count) - 2 ^ (_start % 64)) }
    requires unmarked { AreUnmarked (lost_in _found (pairs _start _owner _count)) seat.old.me.0 }
    ensures same { (seat.new.table_id ≡ seat.old.table_id) × (seat.new.id ≡ seat.old.id) }
    ensures me { seat.new.me ≡ (mark_all (lost_in _found (pairs _start _owner _count)) seat.old.me.0, seat.old.me.1) }
{
    shared.fetch_or::<Mark<I>>(seat, second_from(words) + word, lost);
}

// Claims a run within one word.
fn claim_part(
    shared: &Shared<u8, View, Sizes, Law>,
    seat: &mut Seat<u8, View>,
    words: usize,
    start: u64,
    count: u64,
    owner: Owner,
)
    requires own { seat.old.table_id ≡ shared.now.table_id }
    requires table { HasSets shared.now.table_id shared.now.key words }
    requires some { 0 < count }
    requires run { InWord start count shared.now.key.blocks }
    requires seat { (0 < seat.old.me.0.seats) × All Settled seat.old.me.0.records }
    ensures same { (seat.new.table_id ≡ seat.old.table_id) × (seat.new.id ≡ seat.old.id) }
    ensures me { (n : ℕ) × (seat.new.me ≡ (
      record {
        seats = seat.old.me.0.seats;
        numbers = seat.old.me.0.numbers;
        records = seat.old.me.0.records
            ++ settle n (pairs start owner count);
      },
      seat.old.me.1,
    )) }
{
    let word = (start / 64) as usize;
    let mask = (u64::MAX >> (64 - count)) << (start % 64);
    let found = claim_step::<Brand>(shared, seat, word, mask, start, count, owner);
    let lost = found & mask;
    if lost != 0 {
        mark_step::<Brand>(shared, seat, words, word, lost, found, start, count, owner);
    }
}

// Claims the blocks of a run, a word at a time.
pub(crate) fn claim_words(
    shared: &Shared<u8, View, Sizes, Law>,
    seat: &mut Seat<u8, View>,
    words: usize,
    run: Run,
    owner: Owner,
)
    requires own { seat.old.table_id ≡ shared.now.table_id }
    requires table { HasSets shared.now.table_id shared.now.key words }
    requires run { (run.start + run.count ≤ shared.now.key.blocks) × MayOwn owner run.count × (shared.now.key.blocks < 2 ^ 64) }
    requires seat { (0 < seat.old.me.0.seats) × All Settled seat.old.me.0.records }
    ensures same { (seat.new.table_id ≡ seat.old.table_id) × (seat.new.id ≡ seat.old.id) × (seat.new.me.1 ≡ seat.old.me.1) }
    ensures view { Adds (pairs run.start owner run.count) seat.old.me.0 seat.new.me.0 }
    ensures settled { All Settled seat.new.me.0.records }
{
    let mut done = 0;
    while done < run.count {
        let start = run.start + done;
        let count = (run.count - done).min(64 - start % 64);
        claim_part(shared, seat, words, start, count, owner.raised(done));
        done += count;
    }
}
