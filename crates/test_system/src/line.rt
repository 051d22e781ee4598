//! Lines with what each is, as the format's text has them.

use nv_line::{Line, classify, parse};
use std::alloc::{AllocError, Global};
use std::process::Abort;
use std::test::Fail;

/// What a line is.
#[derive(Clone, Copy, PartialEq, Eq)]
enum Kind {
    Skipped,
    Command,
    Bad,
}

fn what_is(alloc: Global, line: &[u8]) -> Result<Kind, AllocError> {
    Ok(match classify(alloc, line)? {
        Line::Skipped => Kind::Skipped,
        Line::Command(_) => Kind::Command,
        Line::Bad => Kind::Bad,
    })
}

const COMMANDS: [&str; 27] = [
    "format 1 16 1",
    "format 64 65536 32",
    "format 0 18446744073709551615 0",
    "time 0",
    "time 18446744073709551615",
    "cut 0",
    "recover 1",
    "recover 65",
    "peek 8344",
    "peek 7",
    "poke 8344 12288",
    "replay 2 0 0 0 0 1 1 1 1",
    "replay 3",
    "upgrade",
    "tree",
    "free",
    "faults",
    "report",
    "list /d/a\tb",
    "stat /d/a\tb",
    "read /d/a\tb 7 0",
    "stat no",
    "stop after 0 none",
    "stop at 12568 all",
    "stop after 7 alternate",
    "link 0 /a /b",
    "attr 1 / 493 7 9",
];

const BAD_LINES: [&str; 74] = [
    // paths and stops
    "list",
    "stat /a /b",
    "list ",
    "read /a 0",
    "read /a 0 1 2",
    "read  0 1",
    "stop after 1",
    "stop 1 none",
    "stop At 1 none",
    "stop after 1 some",
    "stop after -1 none",
    // words
    "format",
    "format 1 16",
    "format 1 16 1 1",
    "time",
    "time 1 2",
    "poke 1",
    "cut",
    "recover",
    "recover 1 1",
    "replay",
    "upgrade 2",
    "tree 1",
    "free 0",
    "faults 1",
    "report 1",
    "peek",
    "peek 0 8",
    "tre",
    "trees",
    "timer 1",
    "1",
    // spaces
    " time 1",
    "time 1 ",
    "time  1",
    "time ",
    " tree",
    "tree ",
    " ",
    "  ",
    "format 1  16 1",
    "replay 2 ",
    " #",
    // numbers
    "time 18446744073709551616",
    "time 99999999999999999999",
    "time 01",
    "time 00",
    "time +1",
    "time -1",
    "time -0",
    "time 1.0",
    "time 0x1",
    "time 1_000",
    "time one",
    "time1",
    "format 01 16 1",
    "format 1 016 1",
    "format 1 16 01",
    "cut +5",
    "recover 01",
    "replay 2 01",
    "peek 08",
    // letters and other bytes
    "Time 1",
    "TIME 1",
    "Tree",
    "time 1\r",
    "tree\r",
    "\r",
    "\t",
    "time\t1",
    "\ttime 1",
    "time 1\t",
    "time \u{663}",
    "\u{feff}tree",
];

const SKIPPED_LINES: [&str; 6] = ["", "#", "# time 1", "#time 1", "##", "#\r"];

fn are_read(rt: &impl Abort, alloc: Global, lines: &[&str], wanted: Kind) -> Result<(), Fail> {
    for line in lines {
        assert!(rt; what_is(alloc, line.as_bytes())? == wanted, "{line}");
        let is_command = parse(alloc, line.as_bytes())?.is_some();
        assert!(rt; is_command == (wanted == Kind::Command), "{line}");
    }
    Ok(())
}

#[test]
fn lines_are_commands_or_bad_or_skipped(rt: HostRuntime) -> Result<(), Fail> {
    are_read(&rt, rt.alloc(), &COMMANDS, Kind::Command)?;
    are_read(&rt, rt.alloc(), &BAD_LINES, Kind::Bad)?;
    are_read(&rt, rt.alloc(), &SKIPPED_LINES, Kind::Skipped)
}
