//! Each call that writes takes its blocks from the pool of the CPU that it names, and its records stand in that CPU's
//! journal.

use crate::script::check_row;
use std::alloc::{AllocError, Global};
use std::test::Fail;

/// A region of two CPUs, mounted. Blocks 6 to 33 are free for CPU 0, and blocks 34 to 63 for CPU 1.
const BEGIN: &str = "format 2 64 1\nrecover 1\n";

const BEGUN: &str = "ok\nrecovered inodes 1 free 58 faults 0\n";

/// What is seen after a call: the free blocks, and where the records of both journals end.
const SEEN: &str = "free\npeek 4104\npeek 8200\n";

/// A file and a directory, whose logs are the blocks 6 and 7.
const BOTH: &str = "create 0 /a\nmkdir 0 /d\n";

/// So many changes of its attributes fill the root's log page, in which three other entries stand.
const FILL: usize = 124;

/// What CPU 0 makes, how often it changes the attributes of the root, a call of CPU 1, and what is seen then.
const CALLS: [(&str, usize, &str, &str); 12] = [
    (
        "",
        0,
        "create 1 /a\n",
        "free 0 6-33\nfree 1 35-63\nword 0\nword 2\n",
    ),
    (
        BOTH,
        FILL,
        "create 1 /b\n",
        "free 0 8-33\nfree 1 36-63\nword 4\nword 2\n",
    ),
    (
        BOTH,
        FILL,
        "mkdir 1 /e\n",
        "free 0 8-33\nfree 1 36-63\nword 4\nword 2\n",
    ),
    (
        BOTH,
        FILL,
        "write 1 /a 0 5000 65\n",
        "free 0 8-33\nfree 1 36-63\nword 4\nword 0\n",
    ),
    (
        BOTH,
        FILL,
        "attr 1 / 448 0 0\n",
        "free 0 8-33\nfree 1 35-63\nword 4\nword 0\n",
    ),
    (
        BOTH,
        FILL,
        "link 1 /a /b\n",
        "free 0 8-33\nfree 1 35-63\nword 4\nword 2\n",
    ),
    (
        BOTH,
        FILL,
        "unlink 1 /a\n",
        "free 0 6 8-33\nfree 1 35-63\nword 4\nword 2\n",
    ),
    (
        BOTH,
        FILL,
        "rmdir 1 /d\n",
        "free 0 7-33\nfree 1 35-63\nword 4\nword 2\n",
    ),
    (
        BOTH,
        FILL,
        "rename 1 /a /b\n",
        "free 0 8-33\nfree 1 35-63\nword 4\nword 0\n",
    ),
    (
        BOTH,
        FILL,
        "rename 1 /a /d/b\n",
        "free 0 8-33\nfree 1 35-63\nword 4\nword 2\n",
    ),
    // The file keeps its other name.
    (
        "create 0 /a\nlink 0 /a /b\n",
        FILL,
        "unlink 1 /b\n",
        "free 0 7-33\nfree 1 35-63\nword 4\nword 2\n",
    ),
    // The page of the old end is copied from block 7 to block 34.
    (
        "create 0 /a\nwrite 0 /a 0 100 65\n",
        0,
        "size 1 /a 5000\n",
        "free 0 7-33\nfree 1 35-63\nword 2\nword 0\n",
    ),
];

fn script_of(alloc: Global, made: &str, fill: usize, call: &str) -> Result<String, AllocError> {
    let mut script = String::new(alloc);
    script.push_str(BEGIN)?;
    script.push_str(made)?;
    for _ in 0..fill {
        script.push_str("attr 0 / 448 0 0\n")?;
    }
    script.push_str(call)?;
    script.push_str(SEEN)?;
    Ok(script)
}

fn output_of(alloc: Global, made: &str, fill: usize, seen: &str) -> Result<String, AllocError> {
    let mut output = String::new(alloc);
    output.push_str(BEGUN)?;
    for _ in made.lines() {
        output.push_str("ok\n")?;
    }
    for _ in 0..fill {
        output.push_str("ok\n")?;
    }
    output.push_str("ok\n")?;
    output.push_str(seen)?;
    Ok(output)
}

#[test]
fn calls_take_blocks_and_records_of_their_cpu(rt: HostRuntime) -> Result<(), Fail> {
    for (made, fill, call, seen) in CALLS.iter() {
        let script = script_of(rt.alloc(), made, *fill, call)?;
        let output = output_of(rt.alloc(), made, *fill, seen)?;
        check_row(&rt, script.as_bytes(), output.as_str(), 0)?;
    }
    Ok(())
}
