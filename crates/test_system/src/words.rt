//! Rows of words, with what they ask for.

use nv_args::{CheckOutput, Todo, read_words};
use nv_text::Output;
use std::alloc::Global;
use std::process::Abort;

const REFUSED: [&[&str]; 30] = [
    &["--version", "-V"],
    &["version"],
    &["check", "a", "--workers", "65"],
    &["check", "a", "--workers", "0"],
    &["check", "a", "--summary", "--only-faults"],
    &["check"],
    &["check", "a", "--json", "--summary"],
    &["mkfs", "i"],
    &["mkfs", "i", "--size", "64M", "--blocks", "16"],
    &["mkfs", "i", "--size", "65537"],
    &["mkfs", "i", "--size", "64MB"],
    &["mkfs", "i", "--size", "M"],
    &["mkfs", "i", "--size", "17179869184G"],
    &["mkfs", "i", "--size", "64M", "--layout", "3"],
    &["mkfs", "i", "--layout", "2"],
    &[],
    &["run", "a", "b"],
    &["mkfs", "i", "--blocks", "16", "--cpus", "1"],
    &[
        "mkfs",
        "i",
        "--blocks",
        "18446744073709551616",
        "--cpus",
        "1",
        "--tables",
        "1",
    ],
    &["ls", "i", "/", "/"],
    &["cat", "i"],
    &["tar"],
    &["tar", "i", "/", "--lost"],
    &["map", "i", "s"],
    &["shell", "i", "/"],
    &["explain"],
    &["log", "i"],
    &["log", "i", "/", "--all"],
    &["block", "i", "x"],
    &["--help"],
];

/// Words that ask for something.
const ASKED: [&[&str]; 33] = [
    &["--version"],
    &["-V"],
    &["run"],
    &["run", "--image", "i", "--save=s", "--force", "a"],
    &[
        "mkfs", "i", "--tables", "3", "--blocks", "16", "--cpus", "2", "--force",
    ],
    &["mkfs", "i", "--size", "64M"],
    &["mkfs", "--size", "1G", "i", "--cpus", "4"],
    &["mkfs", "i", "--size=65536", "--tables", "2"],
    &["mkfs", "i", "--size", "64M", "--layout", "1"],
    &["mkfs", "--layout=2", "i", "--size", "64M"],
    &["clean", "i"],
    &["clean", "i", "/a"],
    &["ls", "i"],
    &["stat", "i", "/a"],
    &["cat", "i", "/a"],
    &["ls", "i", "12"],
    &["ls", "-l", "i"],
    &["log", "--all", "i"],
    &["block", "i", "12", "--hex"],
    &["du", "i"],
    &["stat", "i", "<12>"],
    &["cat", "i", "<12"],
    &["cat", "i", "18446744073709551616"],
    &["tar", "i"],
    &["tar", "--lost-found", "i", "12"],
    &["map", "i"],
    &["map", "--svg", "s", "i", "--force"],
    &["run", "--strict"],
    &["shell", "i"],
    &["shell", "--force", "i"],
    &["put", "-r", "i", "h", "/p", "--cpu", "1"],
    &["put", "i", "h", "/p", "--recursive", "--time", "7"],
    &["explain", "l2"],
];

/// Words of checks, the paths and the number of workers that they ask for, and the output.
const CHECKS: [(&[&str], &[&str], u32, CheckOutput); 6] = [
    (
        &["check", "a"],
        &["a"],
        1,
        CheckOutput::Written(Output::Report),
    ),
    (
        &["check", "a", "--workers", "64"],
        &["a"],
        64,
        CheckOutput::Written(Output::Report),
    ),
    (
        &["check", "--summary", "a", "--workers", "+05"],
        &["a"],
        5,
        CheckOutput::Written(Output::Summary),
    ),
    (
        &["check", "a", "--only-faults"],
        &["a"],
        1,
        CheckOutput::Written(Output::OnlyFaults),
    ),
    (
        &["check", "a", "--workers", "2", "b", "a"],
        &["a", "b", "a"],
        2,
        CheckOutput::Written(Output::Report),
    ),
    (
        &["check", "a", "--json"],
        &["a"],
        1,
        CheckOutput::Written(Output::Json),
    ),
];

fn check_for(
    alloc: Global,
    words: &[&str],
    wanted: &[&str],
    threads: u32,
    printed: CheckOutput,
) -> bool {
    match read_words(alloc, words) {
        Ok(
            Todo::Check {
                paths,
                workers,
                output,
            },
        ) => paths.as_slice() == wanted && workers == threads && output == printed,
        _ => false,
    }
}

#[test]
fn words_of_checks_have_their_paths(rt: HostRuntime) {
    for (row, (words, paths, workers, output)) in CHECKS.iter().enumerate() {
        assert!(rt;
            check_for(rt.alloc(), words, paths, *workers, *output),
            "row {row}"
        );
    }
}

fn ask(alloc: Global, words: &[&str]) -> bool {
    read_words(alloc, words).is_ok()
}

fn assert_asked(rt: &impl Abort, alloc: Global, rows: &[&[&str]], are_asked: bool) {
    for (row, words) in rows.iter().enumerate() {
        assert!(rt; ask(alloc, words) == are_asked, "row {row}");
    }
}

#[test]
fn words_ask_for_their_commands_and_others_are_refused(rt: HostRuntime) {
    assert_asked(&rt, rt.alloc(), &ASKED, true);
    assert_asked(&rt, rt.alloc(), &REFUSED, false);
}
