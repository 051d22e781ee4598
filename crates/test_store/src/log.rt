//! Logs in a small region, written word by word: their pages, entries and ends.

mod appending;

ghost use Rattle.std.specs.Prelude.{◌≡◌, ◌<◌};
ghost use Rattle.nv_region.specs.Region.{HasBlocks};

use crate::checks::check;
use crate::small::{SMALL, Word, small_region};
use nv_entry::{AttrEntry, Entry};
use nv_logpage::{Finding, LogEnd, LogFault, LogReader, Placed, Walk, walk};
use nv_region::MemRegion;
use std::alloc::{AllocError, Global};
use std::process::Abort;

/// The start of block 3, where each log begins.
const HEAD: u64 = 12288;

/// The first word of an attributes entry of mode 493, whose other words are zeros. It takes 32 bytes.
const ATTR: u64 = 493 * 4294967296 + 32 * 65536 + 2;

/// The word of a next-page entry.
const NEXT_PAGE: u64 = 524288;

struct Case<'a> {
    name: &'a str,
    words: &'a [Word],
    tail: u64,
    pages: &'a [u64],
    entries: &'a [u64],
    fault: Option<LogEnd>,
}

fn attr_at(at: u64) -> Placed {
    let entry = Entry::Attr(AttrEntry {
        mode: 493,
        size: 0,
        time: 0,
        owner: 0,
        group: 0,
    });
    Placed { at, entry }
}

/// Whether these pages, this end and so many entries were read.
fn is_walk(read: &Walk, pages: &[u64], fault: Option<LogEnd>, count: usize) -> bool {
    read.pages.as_slice() == pages && read.fault == fault && read.entries.len() == count
}

/// These entries are attributes at these places.
fn are_attributes(entries: &[Placed], places: &[u64]) -> bool {
    for (placed, at) in entries.iter().zip(places) {
        if *placed != attr_at(*at) {
            return false;
        }
    }
    true
}

/// What is read of a log that begins at block 3.
fn walked(rt: &impl Abort, alloc: Global, memory: &MemRegion, tail: u64) -> Walk
    requires { HasBlocks memory.now.region 16 }
{
    walk(alloc, memory, &SMALL, HEAD, tail).expect(rt, "a walk")
}

fn is_read(rt: &impl Abort, alloc: Global, case: &Case) {
    let memory = small_region(rt, alloc, case.words);
    let read = walked(rt, alloc, &memory, case.tail);
    let is_right = is_walk(&read, case.pages, case.fault, case.entries.len());
    check(rt, is_right, case.name);
    check(rt, are_attributes(&read.entries, case.entries), case.name);
}

/// Logs with no fault.
const RIGHT_LOGS: [Case<'static>; 5] = [
    Case {
        name: "a log of no entry",
        words: &[],
        tail: HEAD,
        pages: &[3],
        entries: &[],
        fault: None,
    },
    Case {
        name: "a new root's log",
        words: &[(12288, ATTR)],
        tail: 12320,
        pages: &[3],
        entries: &[12288],
        fault: None,
    },
    Case {
        name: "an entry past the tail",
        words: &[(12288, ATTR), (12320, ATTR)],
        tail: 12320,
        pages: &[3],
        entries: &[12288],
        fault: None,
    },
    Case {
        name: "a page linked past the tail",
        words: &[(12288, ATTR), (12320, NEXT_PAGE), (16352, 16384)],
        tail: 12320,
        pages: &[3],
        entries: &[12288],
        fault: None,
    },
    Case {
        name: "a log over two pages",
        words: &[
            (12288, ATTR),
            (12320, NEXT_PAGE),
            (16352, 20480),
            (20480, ATTR),
            (20512, ATTR),
        ],
        tail: 20544,
        pages: &[3, 5],
        entries: &[12288, 20480, 20512],
        fault: None,
    },
];

/// Logs that a fault ends.
const WRONG_LOGS: [Case<'static>; 7] = [
    Case {
        name: "a ring",
        words: &[
            (12288, ATTR),
            (12320, NEXT_PAGE),
            (16352, 16384),
            (16384, NEXT_PAGE),
            (20448, 12288),
        ],
        tail: 20488,
        pages: &[3, 4],
        entries: &[12288],
        fault: Some(LogEnd {
            fault: LogFault::L2,
            at: 20448,
        }),
    },
    Case {
        name: "zeros before the tail",
        words: &[(12288, ATTR)],
        tail: 16352,
        pages: &[3],
        entries: &[12288],
        fault: Some(LogEnd {
            fault: LogFault::L3,
            at: 12320,
        }),
    },
    Case {
        name: "a next-page entry in the tail's page",
        words: &[(12288, ATTR), (12320, NEXT_PAGE), (16352, 16384)],
        tail: 12328,
        pages: &[3],
        entries: &[12288],
        fault: Some(LogEnd {
            fault: LogFault::L4,
            at: 12320,
        }),
    },
    Case {
        name: "an entry that ends past the tail",
        words: &[(12288, ATTR), (12320, ATTR)],
        tail: 12336,
        pages: &[3],
        entries: &[12288],
        fault: Some(LogEnd {
            fault: LogFault::L4,
            at: 12320,
        }),
    },
    Case {
        name: "a link to a system block",
        words: &[(12288, ATTR), (12320, NEXT_PAGE), (16352, 8192)],
        tail: 20488,
        pages: &[3],
        entries: &[12288],
        fault: Some(LogEnd {
            fault: LogFault::L1,
            at: 16352,
        }),
    },
    Case {
        name: "a link into the middle of a page",
        words: &[(12288, NEXT_PAGE), (16352, 16392)],
        tail: 20488,
        pages: &[3],
        entries: &[],
        fault: Some(LogEnd {
            fault: LogFault::L1,
            at: 16352,
        }),
    },
    Case {
        name: "a link behind the region",
        words: &[(12288, NEXT_PAGE), (16352, 65536)],
        tail: 20488,
        pages: &[3],
        entries: &[],
        fault: Some(LogEnd {
            fault: LogFault::L1,
            at: 16352,
        }),
    },
];

#[test]
fn a_log_ends_at_its_tail_or_its_first_fault(rt: HostRuntime) {
    for case in RIGHT_LOGS.iter().chain(WRONG_LOGS.iter()) {
        is_read(&rt, rt.alloc(), case);
    }
}

const NOTHING_SET: AttrEntry = AttrEntry {
    mode: 493,
    size: 0,
    time: 0,
    owner: 0,
    group: 0,
};

const ENTRY_AT_16384: Finding = Finding::Entry(Placed {
    at: 16384,
    entry: Entry::Attr(NOTHING_SET),
});

const ENTRY_AT_16416: Finding = Finding::Entry(Placed {
    at: 16416,
    entry: Entry::Attr(NOTHING_SET),
});

/// What is found in the log up to 16416, and in the one up to 16448.
const FIRST_LOG: [Finding; 4] = [
    Finding::Page(16384),
    ENTRY_AT_16384,
    Finding::End(None),
    Finding::End(None),
];

const SECOND_LOG: [Finding; 4] = [
    Finding::Page(16384),
    ENTRY_AT_16384,
    ENTRY_AT_16416,
    Finding::End(None),
];

const TWO_ENTRIES: [Word; 4] = [
    (12288, NEXT_PAGE),
    (16352, 16384),
    (16384, ATTR),
    (16416, ATTR),
];

fn finds(rt: &impl Abort, reader: &mut LogReader, memory: &MemRegion, all: &[Finding])
    requires { HasBlocks memory.now.region reader.old.sup.blocks }
    ensures { reader.new.sup ≡ reader.old.sup }
{
    for wanted in all {
        let found = reader.next(memory).expect(rt, "memory");
        check(rt, found == *wanted, "a finding");
    }
}

/// The last log's pages are the next one's to read again.
fn finds_both(rt: &impl Abort, reader: &mut LogReader, memory: &MemRegion)
    requires sup { reader.old.sup ≡ SMALL }
    requires blocks { HasBlocks memory.now.region 16 }
{
    finds(rt, reader, memory, &FIRST_LOG);
    reader.restart(HEAD, 16448);
    check(rt, reader.pages() == [3].as_slice(), "the pages");
    finds(rt, reader, memory, &SECOND_LOG);
}

fn goes_on(rt: &impl Abort, alloc: Global, memory: &MemRegion) -> Result<(), AllocError>
    requires { HasBlocks memory.now.region 16 }
{
    let mut reader = LogReader::new(alloc, &SMALL, HEAD, 16416)?;
    finds_both(rt, &mut reader, memory);
    Ok(())
}

#[test]
fn a_reader_goes_on_to_another_log(rt: HostRuntime) {
    let memory = small_region(&rt, rt.alloc(), &TWO_ENTRIES);
    check(&rt, goes_on(&rt, rt.alloc(), &memory).is_ok(), "a reader");
}
