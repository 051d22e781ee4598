//! Regions in memory: what they take until their fuse burns, and what a stop keeps.

mod image;

use crate::checks::check;
use crate::small::{Word, assert_words, is_place, new_region};
use nv_region::{Fuse, Keep, MemRegion, Pmem, Stopped, commit_word, store_word};
use std::alloc::Global;
use std::process::Abort;

/// Stores a word, where there is one.
fn store_within<P: Pmem>(region: &mut P, at: u64, word: u64) -> Result<(), Stopped> {
    if is_place(region, at) {
        store_word(region, at, word)?;
    }
    Ok(())
}

/// Stores a word, where there is one, and fences it.
fn commit_within<P: Pmem>(region: &mut P, at: u64, word: u64) -> Result<(), Stopped> {
    if is_place(region, at) {
        commit_word(region, at, word)?;
    }
    Ok(())
}

/// A store of a word at its address, one that is fenced, or a fence alone.
enum Step {
    Store(u64, u64),
    Commit(u64, u64),
    Fence,
}

/// A step and its answer.
type Answered = (Step, Result<(), Stopped>);

fn take<P: Pmem>(region: &mut P, step: &Step) -> Result<(), Stopped> {
    match step {
        Step::Store(at, word) => store_within(region, *at, *word),
        Step::Commit(at, word) => commit_within(region, *at, *word),
        Step::Fence => region.fence(),
    }
}

/// The steps have these answers, and leave these words.
fn assert_steps<P: Pmem>(rt: &impl Abort, region: &mut P, steps: &[Answered], words: &[Word]) {
    for (step, answer) in steps {
        check(rt, take(region, step) == *answer, "a step");
    }
    assert_words(rt, region, words);
}

/// A fuse, the steps that follow, and words that they leave.
type Row<'a> = (Fuse, &'a [Answered], &'a [Word]);

// A fuse that is off takes all steps, one counts stores and fences, and one waits for its address.
const FUSES: [Row<'static>; 3] = [
    (
        Fuse::Off,
        &[
            (Step::Store(32_760, 7), Ok(())),
            (Step::Fence, Ok(())),
            (Step::Commit(0, 8), Ok(())),
            (Step::Store(8, 9), Ok(())),
        ],
        &[(32_760, 7), (0, 8), (8, 9)],
    ),
    (
        Fuse::After(2),
        &[
            (Step::Store(0, 7), Ok(())),
            (Step::Fence, Ok(())),
            (Step::Store(8, 7), Err(Stopped)),
            (Step::Fence, Err(Stopped)),
        ],
        &[(0, 7), (8, 0)],
    ),
    (
        Fuse::At(16),
        &[
            (Step::Store(8, 7), Ok(())),
            (Step::Fence, Ok(())),
            (Step::Store(16, 7), Err(Stopped)),
        ],
        &[(8, 7), (16, 0)],
    ),
];

const ONE_STORE: [Answered; 1] = [(Step::Store(8, 7), Ok(()))];

/// A new region is zeros, and takes steps as its fuse says.
fn assert_fuse(rt: &impl Abort, region: &mut MemRegion, row: &Row<'_>) {
    let (fuse, steps, words) = *row;
    check(rt, region.len() == 32_768, "the length");
    assert_words(rt, region, &[(32_760, 0)]);
    region.set_fuse(fuse);
    assert_steps(rt, region, steps, words);
    region.set_fuse(Fuse::Off);
    assert_steps(rt, region, &ONE_STORE, &[]);
}

fn is_fused(rt: &impl Abort, alloc: Global, row: &Row<'_>) {
    let mut region = new_region(rt, alloc, 8);
    assert_fuse(rt, &mut region, row);
}

#[test]
fn a_new_region_is_zeros_and_takes_steps_until_its_fuse_burns(rt: HostRuntime) {
    for row in FUSES.iter() {
        is_fused(&rt, rt.alloc(), row);
    }
}

/// What is stored before and behind a fence. The word at 8 is as it was.
const UNFENCED: [Answered; 7] = [
    (Step::Store(0, 1), Ok(())),
    (Step::Commit(8, 2), Ok(())),
    (Step::Store(32_760, 44), Ok(())),
    (Step::Store(0, 11), Ok(())),
    (Step::Store(32, 55), Ok(())),
    (Step::Store(16, 33), Ok(())),
    (Step::Store(8, 2), Ok(())),
];

/// What a stop leaves of a region in which two words are fenced and further ones are not.
fn keeps(rt: &impl Abort, alloc: Global, keep: Keep, words: &[Word]) {
    let mut region = new_region(rt, alloc, 8);
    assert_steps(rt, &mut region, &UNFENCED, &[]);
    region.set_fuse(Fuse::After(0));
    assert_words(rt, &region.after_stop(keep), words);
}

const KEPT: [(Keep, [Word; 5]); 3] = [
    (Keep::None, [(0, 1), (8, 2), (16, 0), (32, 0), (32_760, 0)]),
    (
        Keep::All,
        [(0, 11), (8, 2), (16, 33), (32, 55), (32_760, 44)],
    ),
    (
        Keep::Alternate,
        [(0, 11), (8, 2), (16, 0), (32, 55), (32_760, 0)],
    ),
];

#[test]
fn a_stop_keeps_none_all_or_every_second_word(rt: HostRuntime) {
    for (keep, words) in KEPT.iter() {
        keeps(&rt, rt.alloc(), *keep, words);
    }
}
