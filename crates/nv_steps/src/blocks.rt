//! Blocks that are taken one by one, as the pages of logs are.

ghost use Rattle.std.specs.Prelude.{◌<◌, ◌≤◌, ◌+◌, IsTrue, IsFalse, IfOk, IfErr, OnOk, OnErr, vec_len, vec_capacity};
ghost use Rattle.nv_alloc.specs.Taking.{all_blocks};
ghost use Rattle.nv_alloc.specs.FreeLists.{Refuses, SameLists};
ghost use Rattle.nv_steps.specs.Taken.{SamePools, TakesOne, TakesOnto};
ghost use Rattle.nv_steps.specs.Readied.{TakesCount};

use nv_alloc::{AllocRefusal, Allocators};
use nv_super::Run;
use std::alloc::{AllocError, Global};

/// Whether all pools together have so many blocks. It looks at no pool where that is none.
pub(crate) fn are_enough(free: &Allocators, count: u64) -> bool
    ensures yes { IsTrue result → count ≤ all_blocks free.now.pools }
    ensures no { IsFalse result → all_blocks free.now.pools < count }
{
    count == 0 || count <= free.free_blocks()
}

/// Takes so many blocks, each by itself: the lowest of a CPU's pool, and where that is empty one of the fullest.
///
/// `NoSpace` where all pools together have fewer blocks, `Memory` where a growth was refused. Both leave the free lists.
pub(crate) fn take_blocks(
    alloc: Global,
    free: &mut Allocators,
    cpu: u64,
    count: u64,
) -> Result<Vec<u64>, AllocRefusal>
    requires cpu { cpu < free.old.sup.cpus }
    ensures taken { IfOk result (λ blocks. TakesCount free.old cpu blocks.items count free.new) }
    ensures enough { OnOk result (count ≤ all_blocks free.old.pools) }
    ensures room { OnOk result (free.old.room ≤ free.new.room) }
    ensures err { IfErr result (λ refusal. Refuses refusal count free.old.pools) }
    ensures unchanged { OnErr result (SamePools free.old free.new) }
    ensures room_left { OnErr result (free.old.room ≤ free.new.room + count) }
{
    if !are_enough(free, count) {
        return Err(AllocRefusal::NoSpace);
    }
    match take_enough(alloc, free, cpu, count) {
        Ok(blocks) => Ok(blocks),
        Err(AllocError) => Err(AllocRefusal::Memory),
    }
}

/// Takes so many blocks, each by itself. An error leaves the free lists.
fn take_enough(
    alloc: Global,
    free: &mut Allocators,
    cpu: u64,
    count: u64,
) -> Result<Vec<u64>, AllocError>
    requires cpu { cpu < free.old.sup.cpus }
    ensures taken { IfOk result (λ blocks. TakesCount free.old cpu blocks.items count free.new) }
    ensures room { OnOk result (free.old.room ≤ free.new.room) }
    ensures unchanged { OnErr result (SamePools free.old free.new) }
    ensures room_left { OnErr result (free.old.room ≤ free.new.room + count) }
{
    let mut blocks = Vec::with_capacity(alloc, count as usize)?;
    // Room to give back what was taken before a refusal.
    free.reserve(count as usize)?;
    take_each(free, cpu, count, &mut blocks)?;
    Ok(blocks)
}

/// Takes so many blocks, each by itself, and puts them behind those that were there. An error leaves the free lists.
fn take_each(
    free: &mut Allocators,
    cpu: u64,
    count: u64,
    blocks: &mut Vec<u64>,
) -> Result<(), AllocError>
    requires cpu { cpu < free.old.sup.cpus }
    requires room { count ≤ free.old.room }
    requires space { vec_len blocks.old + count ≤ vec_capacity blocks.old }
    ensures ok { OnOk result (TakesOnto free.old cpu blocks.old.items count free.new blocks.new.items) }
    ensures room { OnOk result (free.old.room ≤ free.new.room) }
    ensures err { OnErr result (SamePools free.old free.new) }
    ensures room_left { OnErr result (free.old.room ≤ free.new.room + count) }
{
    if count == 0 {
        return Ok(());
    }
    let block = take_one(free, cpu)?;
    blocks.push_reserved(block);
    match take_each(free, cpu, count - 1, blocks) {
        Ok(()) => Ok(()),
        Err(refusal) => {
            free.give(Run {
                start: block,
                count: 1,
            });
            Err(refusal)
        }
    }
}

/// Takes one block.
fn take_one(free: &mut Allocators, cpu: u64) -> Result<u64, AllocError>
    requires { cpu < free.old.sup.cpus }
    ensures took { IfOk result (λ block. TakesOne free.old cpu block free.new) }
    ensures err { OnErr result (SameLists free.old free.new) }
{
    match free.take(cpu, 1) {
        Ok(runs) => Ok(runs[0].start),
        Err(_) => Err(AllocError),
    }
}
