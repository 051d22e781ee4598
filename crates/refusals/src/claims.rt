//! The claims of two seats on one map, and their join, each made once more where it is refused memory.

ghost use Rattle.std.specs.Prelude.{◌≡◌, ◌+◌, ◌≤◌, IfOk};
ghost use Rattle.nv_super.specs.Owners.{MayOwn};

use crate::seats::{joined, opened};
use nv_claimcore::Sizes;
use nv_claimmap::{ClaimMap, ClaimSeat, Claimed};
use nv_super::{Owner, Run};
use std::alloc::{AllocError, Global};

/// The two sets that the claims make, word by word: the runs share the blocks 63 and 64.
const FIRST: [u64; 2] = [17293822569102704640, 127];

const SECOND: [u64; 2] = [9223372036854775808, 1];

const CLAIMS: usize = 13;

/// Of a map of 128 blocks.
const SIZES: Sizes = Sizes {
    blocks: 128,
    tickets: 2,
    workers: 2,
};

const RUN: Run = Run {
    start: 60,
    count: 11,
};

const OTHER_RUN: Run = Run {
    start: 63,
    count: 2,
};

/// Claims a run, and answers whether that was refused once. A refusal makes no step, so the second try has the same answer.
fn claim_twice(
    map: &ClaimMap,
    seat: &mut ClaimSeat,
    run: Run,
    owner: Owner,
) -> Result<bool, AllocError>
    requires own { seat.old.map ≡ map.now }
    requires run { (run.start + run.count ≤ map.now.sizes.blocks) × MayOwn owner run.count }
    ensures { IfOk result (λ _. (seat.new.map ≡ seat.old.map) × (seat.new.view.seats ≡ seat.old.view.seats)) }
{
    match map.claim(seat, run, owner) {
        Ok(()) => Ok(false),
        Err(AllocError) => {
            map.claim(seat, run, owner)?;
            Ok(true)
        }
    }
}

/// Each seat claims a run, and the runs meet. Answers whether one of the claims was refused once.
fn claim_both(
    map: &ClaimMap,
    one: &mut ClaimSeat,
    other: &mut ClaimSeat,
) -> Result<bool, AllocError>
    requires own { (one.old.map ≡ map.now) × (other.old.map ≡ map.now) }
    requires blocks { map.now.sizes.blocks ≡ 128 }
    ensures one { IfOk result (λ _. (one.new.map ≡ one.old.map) × (one.new.view.seats ≡ one.old.view.seats)) }
    ensures other { IfOk result (λ _. (other.new.map ≡ other.old.map) × (other.new.view.seats ≡ other.old.view.seats)) }
{
    let one_again = claim_twice(map, one, RUN, Owner::Data { inode: 2, page: 0 })?;
    let other_again = claim_twice(map, other, OTHER_RUN, Owner::Data { inode: 4, page: 0 })?;
    Ok(one_again || other_again)
}

fn is_right(alloc: Global, claimed: &Claimed) -> Result<bool, AllocError> {
    let claims = claimed.claims.to_list(alloc)?;
    Ok(
        claimed.first.as_slice() == FIRST.as_slice()
            && claimed.second.as_slice() == SECOND.as_slice()
            && claims.len() == CLAIMS,
    )
}

/// How the claims and the join ended.
#[derive(Clone, Copy)]
pub(crate) struct Told {
    pub(crate) claim_again: bool,
    pub(crate) join_again: bool,
    pub(crate) is_right: bool,
}

/// Joins two seats, and tells how their claims ended, where one of them was made again or not.
fn joined_and_told(
    alloc: Global,
    map: ClaimMap,
    one: ClaimSeat,
    other: ClaimSeat,
    claim_again: bool,
) -> Result<Told, AllocError>
    requires own { (one.map ≡ map) × (other.map ≡ map) }
    requires all { one.view.seats + other.view.seats ≡ map.sizes.workers }
{
    let (both, join_again) = joined(&map, one, other)?;
    Ok(Told {
        claim_again,
        join_again,
        is_right: is_right(alloc, &map.close(both))?,
    })
}

/// Two seats claim runs that meet, and are joined. An error is for memory that is refused outside of a claim and the join.
pub(crate) fn claim_and_join(alloc: Global) -> Result<Told, AllocError> {
    let (map, mut one, mut two) = opened(alloc, SIZES)?;
    let claim_again = claim_both(&map, &mut one, &mut two)?;
    joined_and_told(alloc, map, one, two, claim_again)
}
