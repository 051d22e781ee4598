//! Checks of a region's bytes, with all that they print and their exit statuses.

use crate::broken_streams::Closing;
use nv_format::format;
use nv_region::MemRegion;
use nv_script::{ScriptError, check_region};
use std::process::Abort;
use std::test::Fail;
use std::thread::Threads;

const ROOT_ALONE: &str = "region version 1 cpus 1 blocks 16 tables 1 state 0\n\
     inode 1 dir mode 493 owner 0 group 0 size 0 links 1 time 7\n  log 3 tail 12320\nfree 0 4-15\n\
     no faults\n";

const NO_ROOT: &str = "region version 1 cpus 1 blocks 16 tables 1 state 0\nfree 0 3-15\nfault C5\n";

// The first byte of the word that says whether the root is in use.
const ROOT_IN_USE: usize = 8320;

fn formatted<H: AllocGlobal + Abort>(rt: &H) -> Result<Vec<u8>, Fail> {
    let Ok(mut memory) = MemRegion::new(rt.alloc(), 16) else {
        return Ok(Vec::new(rt.alloc()));
    };
    assert!(rt; format(&mut memory, 1, 1, 7).is_ok());
    Ok(memory.to_bytes()?)
}

pub fn clear(bytes: &mut [u8], at: usize) {
    if let Some(byte) = bytes.get_mut(at) {
        *byte = 0;
    }
}

fn check<H: AllocGlobal + Abort + Threads + Sync>(
    rt: &H,
    bytes: &[u8],
    workers: u64,
    text: &str,
    status: u8,
) -> Result<(), Fail> {
    let mut out = Vec::new(rt.alloc());
    let answer = check_region(rt, rt.alloc(), bytes, workers, &mut out)?;
    assert!(rt; out.as_slice() == text.as_bytes());
    assert!(rt; answer == status);
    Ok(())
}

fn refuses<H: AllocGlobal + Abort + Threads + Sync>(
    rt: &H,
    bytes: &mut Vec<u8>,
) -> Result<(), Fail> {
    check(rt, bytes, 0, "refused Workers\n", 2)?;
    check(rt, bytes, 65, "refused Workers\n", 2)?;
    check(rt, b"", 65, "refused Workers\n", 2)?;
    check(rt, b"", 64, "refused S1\n", 2)?;
    clear(bytes, 0);
    check(rt, bytes, 1, "refused S2\n", 2)?;
    bytes.truncate(65535);
    check(rt, bytes, 1, "refused S1\n", 2)
}

fn reports<H: AllocGlobal + Abort + Threads + Sync>(
    rt: &H,
    bytes: &mut Vec<u8>,
) -> Result<(), Fail> {
    for &workers in [1, 2, 64].iter() {
        check(rt, bytes, workers, ROOT_ALONE, 0)?;
    }
    clear(bytes, ROOT_IN_USE);
    check(rt, bytes, 3, NO_ROOT, 1)
}

#[test]
fn a_check_reports_what_it_finds_and_is_refused_by_name(rt: HostRuntime) -> Result<(), Fail> {
    let mut bytes = formatted(&rt)?;
    reports(&rt, &mut bytes)?;
    refuses(&rt, &mut bytes)
}

#[test]
fn a_closed_writer_has_the_front_of_a_check(rt: HostRuntime) {
    let mut out = Closing::new(rt.alloc(), 9);
    let answer = check_region(&rt, rt.alloc(), b"", 1, &mut out);
    assert!(rt; answer == Err(ScriptError::Write));
    assert!(rt; out.taken() == b"refused S".as_slice());
}
