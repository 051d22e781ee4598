//! Makes each call of a mounted file system, and the claims and the join of a claim map, and tells how they ended.
//!
//! A call that answers want of memory leaves the region's bytes as they were, and what is mounted as a recovery finds it in
//! them; it is then made once more, as is a claim or a join. So in the end all runs show the same.

use crate::calls::{CALLS, Call, fill_table, make, name_of};
use crate::claims::claim_and_join;
use crate::mounted::{bytes_of, is_what_recovery_finds, mounted};
use nv_calls::Fs;
use nv_region::MemRegion;
use nv_tree::Refusal;
use std::alloc::Global;

/// How a call ended.
#[derive(Clone, Copy)]
enum Ending {
    Done,
    /// With want of memory and nothing changed; made again, it was done.
    DoneAgain,
    /// With anything else.
    Wrong,
}

/// How a call ends that is made once more, in a region that had these bytes; `None` where memory is refused outside of it.
fn ended_again(alloc: Global, fs: &mut Fs<MemRegion>, call: Call, before: &[u8]) -> Option<Ending> {
    let is_as_before = bytes_of(fs).ok()?.as_slice() == before;
    let is_found = is_what_recovery_finds(alloc, fs)?;
    if is_as_before && is_found && make(fs, call).is_ok() {
        Some(Ending::DoneAgain)
    } else {
        Some(Ending::Wrong)
    }
}

/// How a call ends; `None` where memory is refused outside of it.
fn ended_so(alloc: Global, fs: &mut Fs<MemRegion>, call: Call) -> Option<Ending> {
    let before = bytes_of(fs).ok()?;
    match make(fs, call) {
        Ok(()) => Some(Ending::Done),
        Err(Refusal::Memory) => ended_again(alloc, fs, call, &before),
        Err(_) => Some(Ending::Wrong),
    }
}

/// Tells that something was refused memory once.
fn tell_refused<R: Print>(rt: &R, what: &str) -> Option<()> {
    println!(rt; "refused once: {what}").ok()
}

fn tell_wrong<R: Print>(rt: &R, what: &str) -> Option<()> {
    println!(rt; "{what}: wrong").ok()
}

/// Makes a call, and tells of it where it wasn't done at once; `None` where memory is refused outside of it.
fn tell_call<R: AllocGlobal + Print>(rt: &R, fs: &mut Fs<MemRegion>, call: Call) -> Option<()> {
    match ended_so(rt.alloc(), fs, call)? {
        Ending::Done => Some(()),
        Ending::DoneAgain => tell_refused(rt, name_of(call)),
        Ending::Wrong => tell_wrong(rt, name_of(call)),
    }
}

/// Makes all calls; `None` where memory is refused outside of them.
fn make_all<R: AllocGlobal + Print>(rt: &R, fs: &mut Fs<MemRegion>) -> Option<()> {
    for call in &CALLS {
        tell_call(rt, fs, *call)?;
    }
    fill_table(fs)?;
    tell_call(rt, fs, Call::CreateInFullTable)
}

fn tell_numbers<R: Print>(rt: &R, inodes: usize, free: u64, is_found: bool) -> Option<()> {
    println!(rt; "inodes {inodes} free {free} as recovered {is_found}").ok()
}

/// What there is once all calls are made; `None` where memory is refused.
fn tell_mounted<R: AllocGlobal + Print>(rt: &R, fs: &Fs<MemRegion>) -> Option<()> {
    let is_found = is_what_recovery_finds(rt.alloc(), fs)?;
    tell_numbers(rt, fs.rows().len(), fs.free().free_blocks(), is_found)
}

/// Makes the claims and the join, and tells how they ended; `None` where memory is refused outside of them.
fn tell_claims<R: AllocGlobal + Print>(rt: &R) -> Option<()> {
    let told = claim_and_join(rt.alloc()).ok()?;
    if told.claim_again {
        tell_refused(rt, "Claim")?;
    }
    if told.join_again {
        tell_refused(rt, "Join")?;
    }
    println!(rt; "claims as wanted {}", told.is_right).ok()
}

/// Makes all calls, and tells what there is then; `None` where memory is refused outside of a call.
fn tell_calls_on<R: AllocGlobal + Print>(rt: &R, fs: &mut Fs<MemRegion>) -> Option<()> {
    make_all(rt, fs)?;
    tell_mounted(rt, fs)
}

/// `None` where memory is refused outside of a claim, the join and a call.
pub(crate) fn tell_calls<R: AllocGlobal + Print>(rt: &R) -> Option<()> {
    tell_claims(rt)?;
    let mut fs = mounted(rt.alloc())?;
    tell_calls_on(rt, &mut fs)
}
