//! Long pieces of an image, read by four threads.

ghost use Rattle.std.specs.Prelude.{◌≡◌, ◌≤◌, ◌+◌, ℕ, List, Some, OnOk, false, is_err, length};
ghost use denote.Param.Send.{IsSync};
ghost use Rattle.nv_metadata.specs.Blocks.{AreBytesAt};

use crate::blocks::Blocks;
use std::io;
use std::thread::{Threads, join_mut};

// Fewer bytes are read sooner than another thread has begun.
const LONG: usize = 262_144;

/// Reads the bytes of an image from one on, as many as there is room for: where they are many, in four parts at once.
///
/// Errors: those of `read`.
pub(crate) fn read_quarters<B: Blocks + Sync, H: Threads + Sync>(
    rt: &H,
    source: &B,
    at: u64,
    into: &mut [u8],
) -> io::Result<()>
    ensures read { (image : List ℕ) → B.bytes source.now ≡ Some image → OnOk result (AreBytesAt image at into.new) }
    ensures known { (image : List ℕ) → B.bytes source.now ≡ Some image → at + length into.old ≤ length image → is_err result ≡ false }
{
    let half = into.len() / 2;
    if into.len() < LONG || at > u64::MAX - half as u64 {
        return source.read(at, into);
    }
    let (first, second) = into.split_at_mut(half);
    read_both_halved(rt, source, at, at + half as u64, first, second)?;
    Ok(())
}

// The same, in two halves at once.
fn read_halves<B: Blocks + Sync, H: Threads + Sync>(
    rt: &H,
    source: &B,
    at: u64,
    into: &mut [u8],
) -> io::Result<()>
    ensures read { (image : List ℕ) → B.bytes source.now ≡ Some image → OnOk result (AreBytesAt image at into.new) }
    ensures known { (image : List ℕ) → B.bytes source.now ≡ Some image → at + length into.old ≤ length image → is_err result ≡ false }
{
    let half = into.len() / 2;
    if into.len() < LONG || at > u64::MAX - half as u64 {
        return source.read(at, into);
    }
    let (first, second) = into.split_at_mut(half);
    read_both(rt, source, at, at + half as u64, first, second)?;
    Ok(())
}

// Reads bytes of an image from two places on, by a thread each.
fn read_both<B: Blocks + Sync, H: Threads + Sync>(
    rt: &H,
    source: &B,
    at: u64,
    behind: u64,
    first: &mut [u8],
    second: &mut [u8],
) -> io::Result<()>
    ensures first { (image : List ℕ) → B.bytes source.now ≡ Some image → OnOk result (AreBytesAt image at first.new) }
    ensures second { (image : List ℕ) → B.bytes source.now ≡ Some image → OnOk result (AreBytesAt image behind second.new) }
    ensures known { (image : List ℕ) → B.bytes source.now ≡ Some image → at + length first.old ≤ length image → behind + length second.old ≤ length image → is_err result ≡ false }
{
    let mut here = || -> io::Result<()>
        ensures { ((image : List ℕ) → B.bytes source.entry.now ≡ Some image → OnOk result (AreBytesAt image at first.exit.now))
            × ((image : List ℕ) → B.bytes source.entry.now ≡ Some image → at + length first.entry.now ≤ length image → is_err result ≡ false) }
    { source.read(at, first) };
    let mut there = || -> io::Result<()>
        ensures { ((image : List ℕ) → B.bytes source.entry.now ≡ Some image → OnOk result (AreBytesAt image behind second.exit.now))
            × ((image : List ℕ) → B.bytes source.entry.now ≡ Some image → behind + length second.entry.now ≤ length image → is_err result ≡ false) }
    { source.read(behind, second) };
    let (left, right) = join_mut(rt, &mut here, &mut there);
    match left {
        Ok(()) => right,
        Err(error) => Err(error),
    }
}

// The same, by two threads each.
fn read_both_halved<B: Blocks + Sync, H: Threads + Sync>(
    rt: &H,
    source: &B,
    at: u64,
    behind: u64,
    first: &mut [u8],
    second: &mut [u8],
) -> io::Result<()>
    ensures first { (image : List ℕ) → B.bytes source.now ≡ Some image → OnOk result (AreBytesAt image at first.new) }
    ensures second { (image : List ℕ) → B.bytes source.now ≡ Some image → OnOk result (AreBytesAt image behind second.new) }
    ensures known { (image : List ℕ) → B.bytes source.now ≡ Some image → at + length first.old ≤ length image → behind + length second.old ≤ length image → is_err result ≡ false }
{
    let mut here = || -> io::Result<()>
        requires { IsSync B.row × IsSync H.row }
        ensures { ((image : List ℕ) → B.bytes source.entry.now ≡ Some image → OnOk result (AreBytesAt image at first.exit.now))
            × ((image : List ℕ) → B.bytes source.entry.now ≡ Some image → at + length first.entry.now ≤ length image → is_err result ≡ false) }
    { read_halves(rt, source, at, first) };
    let mut there = || -> io::Result<()>
        requires { IsSync B.row × IsSync H.row }
        ensures { ((image : List ℕ) → B.bytes source.entry.now ≡ Some image → OnOk result (AreBytesAt image behind second.exit.now))
            × ((image : List ℕ) → B.bytes source.entry.now ≡ Some image → behind + length second.entry.now ≤ length image → is_err result ≡ false) }
    { read_halves(rt, source, behind, second) };
    let (left, right) = join_mut(rt, &mut here, &mut there);
    match left {
        Ok(()) => right,
        Err(error) => Err(error),
    }
}
