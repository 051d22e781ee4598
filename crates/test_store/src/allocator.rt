//! Blocks that are taken from two pools and given back. The system has the blocks 0 to 4, and the pools are 5 to 33 and 34 to
//! 63.

ghost use Rattle.std.specs.Prelude.{◌≡◌};

use crate::checks::{check, check_at};
use nv_alloc::{AllocRefusal, Allocators};
use nv_super::{Run, Super};
use std::alloc::{AllocError, Global};
use std::process::Abort;

const TWO_POOLS: Super = Super {
    version: 1,
    cpus: 2,
    blocks: 64,
    table_blocks: 1,
    state: 0,
};

/// The start and the number of blocks of a run.
type Pair = (u64, u64);

/// The runs of each pool.
type Lists<'a> = [&'a [Pair]; 2];

/// A word of the blocks in use, the CPU that takes, how many blocks it takes, the runs that it gets if there are so many, and
/// what is free in each pool then.
type Row<'a> = (u64, u64, u64, Option<&'a [Pair]>, Lists<'a>);

const TAKES: [Row<'static>; 5] = [
    (63, 0, 30, Some(&[(6, 28), (34, 2)]), [&[], &[(36, 28)]]),
    (63, 1, 58, Some(&[(34, 30), (6, 28)]), [&[], &[]]),
    (63, 0, 59, None, [&[(6, 28)], &[(34, 30)]]),
    (63, 1, 0, Some(&[]), [&[(6, 28)], &[(34, 30)]]),
    (
        0x8000_0000_0000_0120,
        0,
        3,
        Some(&[(6, 2), (9, 1)]),
        [&[(10, 24)], &[(34, 29)]],
    ),
];

fn two_pools(rt: &impl Abort, alloc: Global, word: u64) -> Allocators
    ensures { result.sup.cpus ≡ 2 }
{
    match Allocators::from_words(alloc, &[word], &TWO_POOLS) {
        Ok(free) => free,
        Err(_) => rt.panic("memory for the pools"),
    }
}

fn assert_runs(rt: &impl Abort, runs: &[Run], wanted: &[Pair]) {
    check(rt, runs.len() == wanted.len(), "the number of runs");
    for (run, (start, count)) in runs.iter().zip(wanted) {
        check_at(rt, run.start == *start, "a run's start", *start);
        check_at(rt, run.count == *count, "a run's count", *start);
    }
}

fn assert_lists(rt: &impl Abort, lists: &[Vec<Run>], wanted: &Lists<'_>) {
    check(rt, lists.len() == 2, "the number of pools");
    for (list, runs) in lists.iter().zip(wanted) {
        assert_runs(rt, list, runs);
    }
}

fn assert_taken(rt: &impl Abort, free: &mut Allocators, row: &Row<'_>)
    requires { free.old.sup.cpus ≡ 2 }
{
    let (_, cpu, n, wanted, left) = *row;
    match (free.take(cpu % 2, n), wanted) {
        (Ok(taken), Some(runs)) => assert_runs(rt, &taken, runs),
        (Err(AllocRefusal::NoSpace), None) => {}
        _ => rt.panic("a take"),
    }
    let lists = free.lists().expect(rt, "memory");
    assert_lists(rt, &lists, &left);
}

fn is_taken(rt: &impl Abort, alloc: Global, row: &Row<'_>) {
    let mut free = two_pools(rt, alloc, row.0);
    assert_taken(rt, &mut free, row);
}

#[test]
fn the_own_pool_is_taken_first_and_then_the_fullest(rt: HostRuntime) {
    for row in TAKES.iter() {
        is_taken(&rt, rt.alloc(), row);
    }
}

/// The lists of two pools once all blocks were in use and a run over their border is free again.
fn lists_after(alloc: Global) -> Result<Vec<Vec<Run>>, AllocError> {
    let mut free = Allocators::from_words(alloc, &[u64::MAX], &TWO_POOLS)?;
    free.reserve(1)?;
    free.give(Run {
        start: 30,
        count: 8,
    });
    free.lists()
}

#[test]
fn a_run_joins_the_pools_in_which_it_lies(rt: HostRuntime) {
    let lists = lists_after(rt.alloc()).expect(&rt, "memory");
    assert_lists(&rt, &lists, &[&[(30, 4)], &[(34, 4)]]);
}
