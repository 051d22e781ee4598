//! The pages of logs fetched by several threads: each takes a part of the logs and a memory of its own, and then these are put
//! together.

ghost use Rattle.std.specs.Prelude.{◌≡◌, ◌≤◌, ◌<◌, ◌+◌, ◌++◌, Some, IsTrue, IfOk, OnOk, take};
ghost use Rattle.std.specs.List.{Contains};
ghost use denote.Param.Send.{IsSync};
ghost use Rattle.nv_super.specs.Layout.{HasAreas, IsLayout, system_blocks};
ghost use Rattle.nv_inode.specs.Slot.{is_right_log};
ghost use Rattle.nv_metadata.specs.Memory.{CanHold, SameFront};
ghost use Rattle.nv_metadata.specs.Parts.{IsFront, IsJoined, IsPart};
ghost use Rattle.nv_metadata.specs.declared.logs.LogEnds.{LogEnds as LogEndsValue};

use crate::blocks::Blocks;
use crate::errors::GatherError;
use crate::logs::LogEnds;
use crate::memory::MetadataRegion;
use crate::walking::fetch_logs;
use nv_super::{BLOCK_SIZE, Super};
use std::alloc::{AllocError, Global};
use std::thread::{Threads, join};

// Room for so many blocks at least. What isn't used of it is never touched, and bytes that have room are never moved.
const LEAST_ROOM: u64 = 4096;

/// Fetches the pages of these logs up to their tails, by so many threads, into a memory with this front, the first block of
/// which has the superblock. The front isn't copied: the memories of other threads have its first block alone.
///
/// Errors: `Read` where a block can't be read, and `Memory` where a growth was refused.
pub(crate) fn fetch_apart<B: Blocks + Sync, H: Threads + Sync>(
    rt: &H,
    alloc: Global,
    source: &B,
    sup: &Super,
    front: Vec<u8>,
    logs: &[LogEnds],
    threads: u64,
) -> Result<MetadataRegion, GatherError>
    requires layout { IsLayout sup.now }
    requires front { IsFront sup.now front.items }
    requires right { (log : LogEndsValue) → Contains logs.now log → IsTrue (is_right_log sup.now log.head log.tail) }
    ensures { IsPart (λ image. B.bytes source.now ≡ Some image) sup.now front.items logs.now result }
{
    if threads < 2 {
        return fetch_alone(alloc, source, sup, front, logs);
    }
    let (first, second) = halves(sup, logs);
    let alone = first_block(alloc, sup, &front)?;
    let (left, right) = join(
        rt,
        || -> Result<MetadataRegion, GatherError>
            requires { IsSync H.row × IsLayout sup.now × IsFront sup.now front.items × ((log : LogEndsValue) → Contains first.now log → IsTrue (is_right_log sup.now log.head log.tail)) }
            ensures { IsPart (λ image. B.bytes source.entry.now ≡ Some image) sup.entry.now front.items first.entry.now result }
        { fetch_apart(rt, alloc, source, sup, front, first, threads / 2) },
        || -> Result<MetadataRegion, GatherError>
            requires { IsSync H.row × IsLayout sup.now × IsFront sup.now alone.items × ((log : LogEndsValue) → Contains second.now log → IsTrue (is_right_log sup.now log.head log.tail)) }
            ensures { IsPart (λ image. B.bytes source.entry.now ≡ Some image) sup.entry.now alone.items second.entry.now result }
        { fetch_apart(rt, alloc, source, sup, alone, second, threads - threads / 2) },
    );
    let mut memory = left?;
    let other = right?;
    hold_all(alloc, &mut memory, other, sup)?;
    Ok(memory)
}

// Logs in two parts.
fn halves<'a>(_sup: &Super, logs: &'a [LogEnds]) -> (&'a [LogEnds], &'a [LogEnds])
    requires { (log : LogEndsValue) → Contains logs.now log → IsTrue (is_right_log _sup.now log.head log.tail) }
    ensures all { result.0.now ++ result.1.now ≡ logs.now }
    ensures first { (log : LogEndsValue) → Contains result.0.now log → IsTrue (is_right_log _sup.now log.head log.tail) }
    ensures second { (log : LogEndsValue) → Contains result.1.now log → IsTrue (is_right_log _sup.now log.head log.tail) }
{
    logs.split_at(logs.len() / 2)
}

// The first block of a front, for a memory of its own.
fn first_block(alloc: Global, _sup: &Super, front: &[u8]) -> Result<Vec<u8>, AllocError>
    requires { IsFront _sup.now front.now }
    ensures bytes { IfOk result (λ first. first.items ≡ take 4096 front.now) }
    ensures front { IfOk result (λ first. IsFront _sup.now first.items) }
{
    let first = Vec::from_slice(alloc, &front[..BLOCK_SIZE as usize])?;
    Ok(first)
}

/// Does so on this thread.
pub(crate) fn fetch_alone<B: Blocks>(
    alloc: Global,
    source: &B,
    sup: &Super,
    front: Vec<u8>,
    logs: &[LogEnds],
) -> Result<MetadataRegion, GatherError>
    requires layout { IsLayout sup.now }
    requires front { IsFront sup.now front.items }
    requires right { (log : LogEndsValue) → Contains logs.now log → IsTrue (is_right_log sup.now log.head log.tail) }
    ensures { IsPart (λ image. B.bytes source.now ≡ Some image) sup.now front.items logs.now result }
{
    let room = LEAST_ROOM.max(logs.len() as u64);
    let mut memory = MetadataRegion::of_front(alloc, sup.blocks, front, room)?;
    fetch_logs(alloc, &mut memory, source, sup, logs)?;
    Ok(memory)
}

// Holds what another memory holds more of any data block.
fn hold_all(
    alloc: Global,
    memory: &mut MetadataRegion,
    other: MetadataRegion,
    sup: &Super,
) -> Result<(), AllocError>
    requires areas { HasAreas sup.now }
    requires can { CanHold sup.now memory.old }
    requires other { CanHold sup.now other }
    ensures can { CanHold sup.now memory.new }
    ensures front { SameFront memory.old memory.new }
    ensures joined { OnOk result (IsJoined (system_blocks sup.now) sup.now.blocks memory.old other memory.new) }
{
    memory.join(alloc, other, sup.system_blocks())?;
    Ok(())
}
