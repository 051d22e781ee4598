//! Images: regions that a script begins and ends with, and what is told of their bytes.

use crate::broken_streams::Closing;
use crate::checking::clear;
use nv_looks::{Chosen, cat_image, list_image, stat_image, tar_blocks};
use nv_metadata::HeldBytes;
use nv_script::{
    Answered, Hint, Hints, MemRegion, Output, ScriptError, check_region_as, map_cells,
    region_of_file, run_script_on, write_map,
};
use std::alloc::Global;
use std::process::Abort;
use std::test::Fail;
use std::thread::Threads;

// Makes a directory with a file of five bytes in it.
const MAKING: &[u8] =
    b"time 7\nformat 2 64 1\nrecover 1\nmkdir 0 /d\ncreate 0 /d/a\nwrite 0 /d/a 0 5 65\n";

const MADE: &str = "ok\nok\nrecovered inodes 1 free 58 faults 0\nok\nok\nok\n";

const FOUND: Answered = Answered {
    status: 0,
    faults: 0,
};

const NOT_FOUND: Answered = Answered {
    status: 2,
    faults: 0,
};

#[derive(Drop)]
struct NoHints;

impl Hints for NoHints {
    fn give(&mut self, _hint: Hint) {}
}

fn bytes_of(alloc: Global, region: &Option<MemRegion>) -> Result<Vec<u8>, Fail> {
    match region {
        Some(region) => Ok(region.to_bytes()?),
        None => Ok(Vec::new(alloc)),
    }
}

// The bytes of the region that a script ends with, which begins with this one.
fn bytes_behind<H: AllocGlobal + Abort + Threads + Sync>(
    rt: &H,
    bytes: &[u8],
    script: &[u8],
    out: &mut Vec<u8>,
) -> Result<Vec<u8>, Fail> {
    let Ok(region) = region_of_file(rt.alloc(), bytes.to_vec(rt.alloc())?) else {
        return Ok(Vec::new(rt.alloc()));
    };
    let mut hints = NoHints;
    let ended = run_script_on(rt, rt.alloc(), region, script, out, &mut hints)?;
    assert!(rt; ended.status == 0);
    bytes_of(rt.alloc(), &ended.region)
}

/// The bytes of the region that a script ends with, which begins with these, where this is printed.
pub fn run_on<H: AllocGlobal + Abort + Threads + Sync>(
    rt: &H,
    bytes: &[u8],
    script: &[u8],
    text: &str,
) -> Result<Vec<u8>, Fail> {
    let mut out = Vec::new(rt.alloc());
    let made = bytes_behind(rt, bytes, script, &mut out)?;
    assert!(rt; out.as_slice() == text.as_bytes());
    Ok(made)
}

const READING: &[u8] = b"read /d/a 0 9\nrecover 2\nread /d/a 0 9\n";

const READ: &str = "refused NotMounted\nrecovered inodes 3 free 55 faults 0\ndata 4141414141\n";

fn is_handed_on<H: AllocGlobal + Abort + Threads + Sync>(rt: &H, made: &[u8]) -> Result<(), Fail> {
    let same = run_on(rt, made, READING, READ)?;
    assert!(rt; made.len() == 262_144 && same.as_slice() == made);
    Ok(())
}

// What a look into a region printed, and its answer, are these.
fn assert_told(rt: &impl Abort, out: &[u8], answer: Answered, text: &[u8], due: Answered) {
    assert!(rt; out == text);
    assert!(rt; answer == due);
}

#[derive(Clone, Copy)]
enum Look {
    List,
    Stat,
    Cat,
}

fn answer_to(
    alloc: Global,
    made: &[u8],
    look: Look,
    path: &[u8],
    out: &mut Vec<u8>,
    errors: &mut Vec<u8>,
) -> Result<Answered, ScriptError> {
    match look {
        Look::List => list_image(alloc, made, path, out, errors),
        Look::Stat => stat_image(alloc, made, path, out, errors),
        Look::Cat => cat_image(alloc, made, path, out, errors),
    }
}

fn assert_look(
    rt: &impl Abort,
    alloc: Global,
    made: &[u8],
    kind: Look,
    path: &[u8],
    text: &[u8],
    due: Answered,
) -> Result<(), Fail> {
    let mut out = Vec::new(alloc);
    let mut errors = Vec::new(alloc);
    let answer = answer_to(alloc, made, kind, path, &mut out, &mut errors)?;
    // What is refused is told among the errors alone.
    let (told, other) = if due.status == 0 {
        (&out, &errors)
    } else {
        (&errors, &out)
    };
    assert_told(rt, told, answer, text, due);
    assert!(rt; other.is_empty());
    Ok(())
}

const ITS_NUMBERS: &[u8] = b"stat inode 4 file mode 420 owner 0 group 0 size 5 links 1 time 7\n";

/// What is looked at, where, and what is printed.
type Row<'a> = (Look, &'a [u8], &'a [u8], Answered);

const LOOKS: [Row<'static>; 6] = [
    (Look::List, b"/d", b"a 4\n", FOUND),
    (Look::Stat, b"/d/a", ITS_NUMBERS, FOUND),
    (Look::Cat, b"/d/a", b"AAAAA", FOUND),
    (Look::List, b"/d/a", b"refused NotDirectory\n", NOT_FOUND),
    (Look::Stat, b"/a", b"refused NotFound\n", NOT_FOUND),
    (Look::Cat, b"/d", b"refused IsDirectory\n", NOT_FOUND),
];

fn is_looked_into(rt: &impl Abort, alloc: Global, made: &[u8]) -> Result<(), Fail> {
    for (look, path, text, due) in LOOKS.iter() {
        assert_look(rt, alloc, made, *look, path, text, *due)?;
    }
    assert_look(rt, alloc, b"", Look::Cat, b"/d", b"refused S1\n", NOT_FOUND)
}

// A map of so many cells at most.
fn assert_map<H: AllocGlobal + Abort>(
    rt: &H,
    made: &[u8],
    most: u64,
    text: &[u8],
    due: Answered,
) -> Result<(), Fail> {
    let cells = map_cells(rt.alloc(), made, most)?;
    let mut out = Vec::new(rt.alloc());
    let answer = write_map(rt.alloc(), &cells, &mut out)?;
    assert_told(rt, &out, answer, text, due);
    Ok(())
}

const BY_BLOCK: &[u8] = b"SSSSSLLLD.......................................................\n\
    blocks in a cell 1: . free, S system, D data, L log, ! doubled\n";

const BY_FOUR: &[u8] = b"SLD.............\n\
    blocks in a cell 4: . free, S system, D data, L log, ! doubled\n";

fn is_mapped<H: AllocGlobal + Abort>(rt: &H, made: &[u8]) -> Result<(), Fail> {
    assert_map(rt, made, 1024, BY_BLOCK, FOUND)?;
    assert_map(rt, made, 16, BY_FOUR, FOUND)?;
    assert_map(rt, b"", 16, b"", NOT_FOUND)
}

// What a check by two workers prints in this form.
fn assert_check<H: AllocGlobal + Abort + Threads + Sync>(
    rt: &H,
    bytes: &[u8],
    output: Output,
    text: &[u8],
    status: u8,
) -> Result<(), Fail> {
    let mut out = Vec::new(rt.alloc());
    let answer = check_region_as(rt, rt.alloc(), bytes, 2, output, &mut out)?;
    assert!(rt; out.as_slice() == text);
    assert!(rt; answer == status);
    Ok(())
}

const SOUND: &[u8] =
    b"inodes 3, directories 2, files 1, names 2, blocks in use 4, free 55, faults 0\n";

const FAULTY: &[u8] =
    b"inodes 2, directories 2, files 0, names 2, blocks in use 2, free 57, faults 1 (C1 1)\n";

const FAULT: &[u8] = b"fault C1 inode 2 at 24608\n";

fn sums_up<H: AllocGlobal + Abort + Threads + Sync>(rt: &H, made: &mut [u8]) -> Result<(), Fail> {
    assert_check(rt, made, Output::Summary, SOUND, 0)?;
    assert_check(rt, made, Output::OnlyFaults, b"no faults\n", 0)?;
    // The valid word of inode 4, the third of the first CPU's table.
    clear(made, 12_544);
    assert_check(rt, made, Output::Summary, FAULTY, 1)?;
    assert_check(rt, made, Output::OnlyFaults, FAULT, 1)
}

fn closes(rt: &impl Abort, alloc: Global, made: &[u8]) {
    let mut out = Closing::new(alloc, 3);
    let answer = cat_image(alloc, made, b"/d/a", &mut out, &mut Vec::new(alloc));
    assert!(rt; answer == Err(ScriptError::Write));
    assert!(rt; out.taken() == b"AAA".as_slice());
}

// The headers of the directory and of its file, the file's block, and the two that end an archive.
fn archives(rt: &impl Abort, alloc: Global, made: &[u8]) {
    let mut out = Vec::new(alloc);
    let mut errors = Vec::new(alloc);
    let source = HeldBytes::new(made);
    let chosen = Chosen::Path(b"/d");
    let told = match tar_blocks(alloc, &source, chosen, false, &mut out, &mut errors) {
        Ok(answered) => answered == FOUND,
        Err(_) => false,
    };
    assert!(rt; told);
    assert!(rt; out.len() == 5 * 512);
    assert!(rt; out.starts_with(b"d/\0"));
    assert!(rt; errors.is_empty());
}

#[test]
fn a_region_is_handed_on_looked_into_mapped_archived_and_checked(
    rt: HostRuntime,
) -> Result<(), Fail> {
    let mut made = run_on(&rt, b"", MAKING, MADE)?;
    is_handed_on(&rt, &made)?;
    is_looked_into(&rt, rt.alloc(), &made)?;
    is_mapped(&rt, &made)?;
    closes(&rt, rt.alloc(), &made);
    archives(&rt, rt.alloc(), &made);
    sums_up(&rt, &mut made)
}
