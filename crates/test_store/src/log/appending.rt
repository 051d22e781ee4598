//! Entries behind the tail of a log, in pages that other words filled before.
//!
//! Block 3 ends its entries at 16352, where the word is that links it to the next page. Block 4 begins at 16384.

ghost use Rattle.std.specs.Prelude.{◌∷◌, []};
ghost use Rattle.nv_region.specs.Region.{HasBlocks};
ghost use Rattle.nv_logpage.specs.Append.{CanAppend};

use super::{HEAD, NEXT_PAGE};
use crate::checks::check_at;
use crate::small::{Word, assert_words, new_region};
use nv_entry::{AttrEntry, Entry};
use nv_logpage::{append, pages_needed};
use nv_region::{Fuse, MemRegion, Pmem, Stopped};
use std::alloc::Global;
use std::process::Abort;

/// What each word of the pages holds before.
const USED: u64 = 77;

/// An entry of 32 bytes, and its four words.
const SET: AttrEntry = AttrEntry {
    mode: 493,
    size: 5,
    time: 6,
    owner: 7,
    group: 8,
};

const FIRST: u64 = 493 * 4294967296 + 32 * 65536 + 2;

const OWNERS: u64 = 8 * 4294967296 + 7;

/// A region whose blocks 3, 4 and 5 hold `USED` in each word.
fn used_region(rt: &impl Abort, alloc: Global) -> MemRegion
    ensures { HasBlocks result.region 16 }
{
    let mut memory = new_region(rt, alloc, 16);
    for k in 0..1536 {
        let _unstopped = memory.store(HEAD + 8 * k, USED);
    }
    memory
}

/// Appends the entry of 32 bytes, and answers the new tail.
fn append_set(memory: &mut MemRegion, tail: u64, fresh: &[u64]) -> Result<u64, Stopped>
    requires blocks { HasBlocks memory.old.region 16 }
    requires room { CanAppend memory.old.region tail (Entry.Attr SET ∷ []) fresh.now }
    ensures { HasBlocks memory.new.region 16 }
{
    append(memory, tail, &[Entry::Attr(SET)], fresh)
}

/// Appends the entry of 32 bytes, where it needs as many pages as are given.
fn append_needed(memory: &mut MemRegion, tail: u64, fresh: &[u64]) -> Option<Result<u64, Stopped>>
    requires blocks { HasBlocks memory.old.region 16 }
    requires room { CanAppend memory.old.region tail (Entry.Attr SET ∷ []) fresh.now }
{
    if pages_needed(tail, &[Entry::Attr(SET)]) == fresh.len() as u64 {
        Some(append_set(memory, tail, fresh))
    } else {
        None
    }
}

/// Appends it at one of four places near the end of a page, with the page that is needed there.
fn append_at(memory: &mut MemRegion, tail: u64) -> Option<Result<u64, Stopped>>
    requires { HasBlocks memory.old.region 16 }
{
    match tail {
        16320 => append_needed(memory, 16320, &[]),
        16328 => append_needed(memory, 16328, &[4]),
        16344 => append_needed(memory, 16344, &[4]),
        16352 => append_needed(memory, 16352, &[4]),
        _ => None,
    }
}

// An entry that fits exactly stays in its page.
const EXACT: [Word; 7] = [
    (16312, USED),
    (16320, FIRST),
    (16328, 5),
    (16336, 6),
    (16344, OWNERS),
    (16352, USED),
    (16384, USED),
];

// One that doesn't fit goes to a fresh page.
const IN_A_FRESH_PAGE: [Word; 11] = [
    (16320, USED),
    (16328, NEXT_PAGE),
    (16336, USED),
    (16344, USED),
    (16352, 16384),
    (16384, FIRST),
    (16392, 5),
    (16400, 6),
    (16408, OWNERS),
    (16416, USED),
    (20448, USED),
];

// The last word of a page takes a next-page entry.
const BEHIND_THE_LAST_WORD: [Word; 4] = [
    (16336, USED),
    (16344, NEXT_PAGE),
    (16352, 16384),
    (16384, FIRST),
];

// A full page takes none.
const BEHIND_A_FULL_PAGE: [Word; 4] = [
    (16344, USED),
    (16352, 16384),
    (16384, FIRST),
    (16416, USED),
];

// Of six stores, a next-page entry, four words of the entry, and the link, the last wasn't taken.
const NOT_LINKED: [Word; 3] = [(16384, FIRST), (16408, OWNERS), (16352, USED)];

/// A fuse, the tail, the new one, and words then.
type Row<'a> = (Fuse, u64, Result<u64, Stopped>, &'a [Word]);

const APPENDS: [Row<'static>; 6] = [
    (Fuse::Off, 16320, Ok(16352), &EXACT),
    (Fuse::Off, 16328, Ok(16416), &IN_A_FRESH_PAGE),
    (Fuse::Off, 16344, Ok(16416), &BEHIND_THE_LAST_WORD),
    (Fuse::Off, 16352, Ok(16416), &BEHIND_A_FULL_PAGE),
    (Fuse::After(5), 16328, Err(Stopped), &NOT_LINKED),
    (Fuse::After(6), 16328, Ok(16416), &IN_A_FRESH_PAGE),
];

fn assert_appended(rt: &impl Abort, memory: &mut MemRegion, row: &Row<'_>)
    requires { HasBlocks memory.old.region 16 }
{
    let (fuse, tail, answer, words) = *row;
    memory.set_fuse(fuse);
    let answered = append_at(memory, tail) == Some(answer);
    check_at(rt, answered, "an append", tail);
    assert_words(rt, memory, words);
}

fn is_appended(rt: &impl Abort, alloc: Global, row: &Row<'_>) {
    let mut memory = used_region(rt, alloc);
    assert_appended(rt, &mut memory, row);
}

// Each word is stored once, and the link last.
#[test]
fn an_entry_goes_behind_the_tail_or_to_a_fresh_page(rt: HostRuntime) {
    for row in APPENDS.iter() {
        is_appended(&rt, rt.alloc(), row);
    }
}
