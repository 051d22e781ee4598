//! Words that change together: what is recorded, and where.

ghost use Rattle.std.specs.Prelude.{◌≡◌, true};
ghost use Rattle.nv_region.specs.Region.{HasBlocks};
ghost use Rattle.nv_journal.specs.Pending.{IsEmpty};

use crate::checks::check;
use crate::small::{Word, assert_words, small_region};
use nv_journal::{begin, change_two, commit};
use nv_region::{MemRegion, Pmem, Stopped};
use std::alloc::Global;
use std::process::Abort;

// The head and the tail of slot 1.
const SLOT: [Word; 2] = [(8336, 12288), (8344, 12320)];

type Row<'a> = (u64, u64, &'a [Word]);

/// The enqueue number before two records are begun and after it, and the words then: the two records and the journal's
/// numbers. Record k stands at 4160 + 16 k.
const WRAPPING: [Row<'static>; 4] = [
    (
        0,
        2,
        &[
            (4160, 8336),
            (4168, 12288),
            (4176, 8344),
            (4184, 12320),
            (4096, 0),
            (4104, 2),
        ],
    ),
    (
        249,
        251,
        &[
            (8144, 8336),
            (8152, 12288),
            (8160, 8344),
            (8168, 12320),
            (4096, 249),
            (4104, 251),
        ],
    ),
    (
        250,
        0,
        &[
            (8160, 8336),
            (8168, 12288),
            (8176, 8344),
            (8184, 12320),
            (4096, 250),
            (4104, 0),
        ],
    ),
    (
        251,
        1,
        &[
            (8176, 8336),
            (8184, 12288),
            (4160, 8344),
            (4168, 12320),
            (4096, 251),
            (4104, 1),
        ],
    ),
];

fn is_empty(memory: &MemRegion) -> bool
    requires { HasBlocks memory.now.region 16 }
    ensures { result ≡ true → IsEmpty memory.now.region 0 }
{
    let next = memory.load(4104);
    memory.load(4096) == next && next < 252
}

/// Begins a change of the head and the tail of slot 1, where the journal is empty.
fn begin_slot(memory: &mut MemRegion) -> Result<(), Stopped>
    requires { HasBlocks memory.old.region 16 }
    ensures { HasBlocks memory.new.region 16 }
{
    if is_empty(memory) {
        begin(memory, 0, &SLOT)?;
    }
    Ok(())
}

/// Two records are begun in an empty journal and committed.
fn are_recorded(rt: &impl Abort, memory: &mut MemRegion, row: &Row<'_>)
    requires { HasBlocks memory.old.region 16 }
{
    let (_, next, words) = *row;
    check(rt, begin_slot(memory).is_ok(), "the records are begun");
    assert_words(rt, memory, words);
    check(rt, commit(memory, 0).is_ok(), "they are committed");
    assert_words(rt, memory, &[(4096, next), (4104, next)]);
}

fn records(rt: &impl Abort, alloc: Global, row: &Row<'_>) {
    let mut memory = small_region(rt, alloc, &[(4096, row.0), (4104, row.0)]);
    are_recorded(rt, &mut memory, row);
}

#[test]
fn after_record_251_comes_0(rt: HostRuntime) {
    for row in WRAPPING.iter() {
        records(&rt, rt.alloc(), row);
    }
}

// Two records were begun and committed in an empty journal.
const CHANGED: [Word; 4] = [(8336, 16384), (8344, 16416), (4096, 2), (4104, 2)];

/// Changes the head and the tail of slot 1, where the journal is empty.
fn change_slot(memory: &mut MemRegion) -> Result<(), Stopped>
    requires { HasBlocks memory.old.region 16 }
{
    if is_empty(memory) {
        change_two(memory, 0, 8336, 16384, 8344, 16416)?;
    }
    Ok(())
}

#[test]
fn two_words_change_together(rt: HostRuntime) {
    let mut memory = small_region(&rt, rt.alloc(), &SLOT);
    check(&rt, change_slot(&mut memory).is_ok(), "the slot is changed");
    assert_words(&rt, &memory, &CHANGED);
}
