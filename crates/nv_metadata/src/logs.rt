//! Where the logs of the inodes in use begin and end.

ghost use Rattle.std.specs.Prelude.{◌≡◌, ◌≤◌, ◌<◌, ℕ, IfOk, IfSome, Some};
ghost use Rattle.std.specs.List.{Contains};
ghost use denote.Param.Send.{IsSync};
ghost use Rattle.nv_region.specs.Region.{HasBlocks};
ghost use Rattle.nv_super.specs.Layout.{IsLayout, inode_limit};
ghost use Rattle.nv_inode.specs.Slot.{nth_slot};
ghost use Rattle.nv_metadata.specs.Linked.{IsLog, IsLogOf};
ghost use Rattle.nv_metadata.specs.Walk.{AreLogsAmong};
ghost use Rattle.nv_metadata.specs.declared.logs.LogEnds.{LogEnds as LogEndsValue};

use nv_inode::{SlotState, nth_slot, read_slot_at};
use nv_region::Pmem;
use nv_super::Super;
use std::alloc::{AllocError, Global};
use std::thread::{Threads, join};

// Fewer slots than these are looked at sooner than another thread has begun.
const FEW_SLOTS: u64 = 4096;

/// A log's head and tail: byte addresses.
#[derive(Clone, Copy)]
pub(crate) struct LogEnds {
    pub head: u64,
    pub tail: u64,
}

/// The heads and tails of the logs of all inodes in use where both are right, in the order of their slots: a table is read from
/// its start on, and logs of neighbours have pages that lie together.
pub(crate) fn right_logs<P: Pmem>(
    alloc: Global,
    memory: &P,
    sup: &Super,
) -> Result<Vec<LogEnds>, AllocError>
    requires layout { IsLayout sup.now }
    requires blocks { HasBlocks (P.region memory.now) sup.now.blocks }
    ensures all { IfOk result (λ logs. (head tail : ℕ) → IsLog (P.region memory.now) sup.now head tail → Contains logs.items (record { head = head; tail = tail })) }
    ensures only { IfOk result (λ logs. (log : LogEndsValue) → Contains logs.items log → IsLog (P.region memory.now) sup.now log.head log.tail) }
{
    let logs = right_logs_among(alloc, memory, sup, 1, sup.inode_limit())?;
    Ok(logs)
}

/// `right_logs`, found by so many threads.
pub(crate) fn right_logs_on<P: Pmem + Sync, H: Threads + Sync>(
    rt: &H,
    alloc: Global,
    memory: &P,
    sup: &Super,
    threads: u64,
) -> Result<Vec<LogEnds>, AllocError>
    requires layout { IsLayout sup.now }
    requires blocks { HasBlocks (P.region memory.now) sup.now.blocks }
    ensures all { IfOk result (λ logs. (head tail : ℕ) → IsLog (P.region memory.now) sup.now head tail → Contains logs.items (record { head = head; tail = tail })) }
    ensures only { IfOk result (λ logs. (log : LogEndsValue) → Contains logs.items log → IsLog (P.region memory.now) sup.now log.head log.tail) }
{
    let logs = right_logs_apart(rt, alloc, memory, sup, 1, sup.inode_limit(), threads)?;
    Ok(logs)
}

// Those of the inodes whose slots have places from one on and before another, by so many threads.
fn right_logs_apart<P: Pmem + Sync, H: Threads + Sync>(
    rt: &H,
    alloc: Global,
    memory: &P,
    sup: &Super,
    from: u64,
    to: u64,
    threads: u64,
) -> Result<Vec<LogEnds>, AllocError>
    requires layout { IsLayout sup.now }
    requires blocks { HasBlocks (P.region memory.now) sup.now.blocks }
    requires places { (1 ≤ from) × (to ≤ inode_limit sup.now) }
    ensures { IfOk result (λ logs. AreLogsAmong (P.region memory.now) sup.now from to logs.items) }
{
    if threads < 2 || to < from || to - from < FEW_SLOTS {
        return right_logs_among(alloc, memory, sup, from, to);
    }
    let middle = from + (to - from) / 2;
    let (left, right) = join(
        rt,
        || -> Result<Vec<LogEnds>, AllocError>
            requires { IsSync P.row × IsSync H.row × IsLayout sup.now × HasBlocks (P.region memory.now) sup.now.blocks × (1 ≤ from) × (middle ≤ inode_limit sup.now) }
            ensures { IfOk result (λ logs. AreLogsAmong (P.region memory.entry.now) sup.entry.now from middle logs.items) }
        { right_logs_apart(rt, alloc, memory, sup, from, middle, threads / 2) },
        || -> Result<Vec<LogEnds>, AllocError>
            requires { IsSync P.row × IsSync H.row × IsLayout sup.now × HasBlocks (P.region memory.now) sup.now.blocks × (1 ≤ middle) × (to ≤ inode_limit sup.now) }
            ensures { IfOk result (λ logs. AreLogsAmong (P.region memory.entry.now) sup.entry.now middle to logs.items) }
        { right_logs_apart(rt, alloc, memory, sup, middle, to, threads - threads / 2) },
    );
    let mut logs = left?;
    let mut more = right?;
    logs.append(&mut more)?;
    Ok(logs)
}

// The same on this thread.
fn right_logs_among<P: Pmem>(
    alloc: Global,
    memory: &P,
    sup: &Super,
    from: u64,
    to: u64,
) -> Result<Vec<LogEnds>, AllocError>
    requires layout { IsLayout sup.now }
    requires blocks { HasBlocks (P.region memory.now) sup.now.blocks }
    requires places { (1 ≤ from) × (to ≤ inode_limit sup.now) }
    ensures { IfOk result (λ logs. AreLogsAmong (P.region memory.now) sup.now from to logs.items) }
{
    let mut logs = Vec::new(alloc);
    for place in from..to {
        if let Some(log) = right_log(memory, sup, place) {
            logs.push(log)?;
        }
    }
    Ok(logs)
}

// The head and tail of the log that the slot at a place in the tables has, where it is in use and both are right. The first place
// is that of number 0, which no inode has.
fn right_log<P: Pmem>(memory: &P, sup: &Super, place: u64) -> Option<LogEnds>
    requires layout { IsLayout sup.now }
    requires blocks { HasBlocks (P.region memory.now) sup.now.blocks }
    requires place { (1 ≤ place) × (place < inode_limit sup.now) }
    ensures all { (i head tail : ℕ) → IsLogOf (P.region memory.now) sup.now i (nth_slot sup.now place) head tail → result ≡ Some (record { head = head; tail = tail }) }
    ensures only { IfSome result (λ log. (i : ℕ) × IsLogOf (P.region memory.now) sup.now i (nth_slot sup.now place) log.head log.tail) }
{
    let slot = read_slot_at(memory, nth_slot(sup, place));
    match slot.state() {
        SlotState::InUse(_) if slot.has_right_log(sup) => Some(LogEnds {
            head: slot.head,
            tail: slot.tail,
        }),
        _ => None,
    }
}
