//! Recoveries of a region, as the commands see them: nothing but want of memory, or the memory's fuse, prevents an answer.

ghost use Rattle.std.specs.Prelude.{◌≡◌, ◌≢◌, ◌⊎◌, [], None, Some, IfOk, OnErr, OnSome, IsTrue, map};
ghost use Rattle.nv_region.specs.Fuses.{KeepsFuse};
ghost use Rattle.nv_region.specs.Stops.{LeavesOnly, NothingPending};
ghost use Rattle.nv_super.specs.declared.superblock.Super.{Super as SuperValue};
ghost use Rattle.nv_super.specs.Super.{IsSuper};
ghost use Rattle.nv_recover.specs.Behind.{BehindSlots};
ghost use Rattle.nv_recover.specs.Errors.{AsBeforeOrUndone, UndoesAsBefore};
ghost use Rattle.nv_recover.specs.declared.errors.RecoverError.TheVariants as errors;
ghost use Rattle.nv_image_check.specs.Answering.{TakesRecovery, MayAnswer, MayEnd, IsOfItsSuper, IsToldAs, EndsAs, refusal_of, worker_number};

use crate::recovery::Answer;
use nv_recover::{NoGate, RecoverError, recover, recover_one, recover_replay};
use nv_region::Pmem;
use nv_text::Refusal;
use std::alloc::{AllocError, Global};
use std::thread::Threads;

/// Recovers by 1 to 64 workers on threads of their own, where the memory has no fuse or is open up to where slots
/// end. Answers what was found, or the first refusal that applies, which leaves the region as before: `Workers`, or
/// the first fault of the superblock.
///
/// Errors: `AllocError` where a growth was refused. The region is as before then, or its journals are rolled back.
pub fn recover_region<P: Pmem + Sync, H: Threads + Sync>(
    rt: &H,
    alloc: Global,
    memory: &mut P,
    workers: u64,
) -> Result<Answer, AllocError>
    requires taken { TakesRecovery (P.region memory.old) (P.fuse memory.old) }
    ensures ok { IfOk result (λ answer. MayAnswer (P.region memory.old) workers [] answer (P.region memory.new)) }
    ensures lists { IfOk result (λ answer. IsOfItsSuper (Some answer)) }
    // Only want of memory prevents an answer.
    ensures err { OnErr result (AsBeforeOrUndone (P.region memory.old) (P.region memory.new)) }
    ensures keeps_fuse { KeepsFuse (BehindSlots (P.region memory.old)) (P.fuse memory.old) (P.fuse memory.new) }
{
    match recover(rt, alloc, memory, workers, &NoGate) {
        Ok(recovered) => Ok(Answer::Recovered(recovered)),
        Err(error) => refused(error),
    }
}

/// Recovers on this thread, where the memory has no fuse or is open up to where slots end. Answers what was found,
/// or the first fault of the superblock, which leaves the region as before.
///
/// Errors: `AllocError` where a growth was refused. The region is as before then, or its journals are rolled back.
pub fn recover_alone<P: Pmem>(alloc: Global, memory: &mut P) -> Result<Answer, AllocError>
    requires taken { TakesRecovery (P.region memory.old) (P.fuse memory.old) }
    ensures ok { IfOk result (λ answer. MayAnswer (P.region memory.old) 1 [] answer (P.region memory.new)) }
    ensures lists { IfOk result (λ answer. IsOfItsSuper (Some answer)) }
    // Only want of memory prevents an answer.
    ensures err { OnErr result (AsBeforeOrUndone (P.region memory.old) (P.region memory.new)) }
    // Nothing is pending behind an answer, where nothing was before.
    ensures settled { NothingPending (P.region memory.old) (P.may_hold memory.old) → IfOk result (λ _. NothingPending (P.region memory.new) (P.may_hold memory.new)) }
    ensures keeps_fuse { KeepsFuse (BehindSlots (P.region memory.old)) (P.fuse memory.old) (P.fuse memory.new) }
{
    match recover_one(alloc, memory) {
        Ok(recovered) => Ok(Answer::Recovered(recovered)),
        Err(error) => refused(error),
    }
}

/// Recovers by 1 to 64 workers on threads of their own. Answers what `recover_region` does, or nothing where the
/// memory's fuse burnt: rolling back what is left gives then what the old region would have given.
///
/// Errors: `AllocError` where a growth was refused. The region is as before then, or its journals are rolled back.
pub fn recover_or_stop<P: Pmem + Sync, H: Threads + Sync>(
    rt: &H,
    alloc: Global,
    memory: &mut P,
    workers: u64,
) -> Result<Option<Answer>, AllocError>
    ensures ok { IfOk result (λ answer. MayEnd (P.region memory.old) workers [] answer (P.region memory.new)) }
    ensures lists { IfOk result IsOfItsSuper }
    ensures err { OnErr result (AsBeforeOrUndone (P.region memory.old) (P.region memory.new)) }
    ensures unstopped { IsTrue (P.fuse memory.old).is_steady → IfOk result (λ answer. answer ≢ None) }
    // Nothing is pending behind an answer, where nothing was before.
    ensures settled { NothingPending (P.region memory.old) (P.may_hold memory.old) → IfOk result (λ answer. OnSome answer (NothingPending (P.region memory.new) (P.may_hold memory.new))) }
    // Whatever a stop leaves has the same undone region.
    ensures any_stop { (s : SuperValue) → IsSuper (P.region memory.old) s → NothingPending (P.region memory.old) (P.may_hold memory.old)
        → LeavesOnly (P.region memory.new) (P.may_hold memory.new) (UndoesAsBefore (P.region memory.old)) }
{
    match recover(rt, alloc, memory, workers, &NoGate) {
        Ok(recovered) => Ok(Some(Answer::Recovered(recovered))),
        Err(error) => stopped_or_refused(error),
    }
}

/// Recovers on this thread, the claims of 1 to 64 workers, numbered from 0, made in the order of the schedule. Answers
/// what `recover_or_stop` does, or the refusal `Schedule`, tested behind `Workers`, where a number names no worker.
///
/// Errors: `AllocError` where a growth was refused. The region is as before then, or its journals are rolled back.
pub fn replay_or_stop<P: Pmem>(
    alloc: Global,
    memory: &mut P,
    workers: u64,
    schedule: &[u64],
) -> Result<Option<Answer>, AllocError>
    ensures ok { IfOk result (λ answer. MayEnd (P.region memory.old) workers schedule.now answer (P.region memory.new)) }
    ensures lists { IfOk result IsOfItsSuper }
    ensures err { OnErr result ((P.region memory.new ≡ P.region memory.old) ⊎ AsBeforeOrUndone (P.region memory.old) (P.region memory.new)) }
    ensures unstopped { IsTrue (P.fuse memory.old).is_steady → IfOk result (λ answer. answer ≢ None) }
    // Nothing is pending behind an answer, where nothing was before.
    ensures settled { NothingPending (P.region memory.old) (P.may_hold memory.old) → IfOk result (λ answer. OnSome answer (NothingPending (P.region memory.new) (P.may_hold memory.new))) }
    // Whatever a stop leaves has the same undone region.
    ensures any_stop { (s : SuperValue) → IsSuper (P.region memory.old) s → NothingPending (P.region memory.old) (P.may_hold memory.old)
        → LeavesOnly (P.region memory.new) (P.may_hold memory.new) (UndoesAsBefore (P.region memory.old)) }
{
    let numbers = worker_numbers(alloc, schedule)?;
    match recover_replay(alloc, memory, workers, &numbers) {
        Ok(recovered) => Ok(Some(Answer::Recovered(recovered))),
        Err(error) => stopped_or_refused(error),
    }
}

// Only want of memory is told as no answer.
fn stopped_or_refused(error: RecoverError) -> Result<Option<Answer>, AllocError>
    ensures ok { IfOk result (EndsAs error) }
    ensures err { OnErr result (error ≡ errors.Memory) }
{
    match error {
        RecoverError::Stopped => Ok(None),
        error => Ok(Some(refused(error)?)),
    }
}

// Want of memory is told as no refusal, and no stop comes where a recovery is taken.
fn refused(error: RecoverError) -> Result<Answer, AllocError>
    ensures ok { IfOk result (λ answer. IsToldAs error answer) }
    ensures err { OnErr result (refusal_of error ≡ None) }
{
    let refusal = match error {
        RecoverError::Super(fault) => Refusal::Super(fault),
        RecoverError::Workers => Refusal::Workers,
        RecoverError::Schedule(_) => Refusal::Schedule,
        RecoverError::Memory | RecoverError::Stopped => return Err(AllocError),
    };
    Ok(Answer::Refused(refusal))
}

// The numbers of a schedule in 32 bits.
fn worker_numbers(alloc: Global, schedule: &[u64]) -> Result<Vec<u32>, AllocError>
    ensures { IfOk result (λ numbers. numbers.items ≡ map worker_number schedule.now) }
{
    let mut numbers = Vec::new(alloc);
    for number in schedule {
        numbers.push(worker_number(*number))?;
    }
    Ok(numbers)
}

fn worker_number(number: u64) -> u32
    ensures { result ≡ worker_number number }
{
    u32::try_from(number).unwrap_or(u32::MAX)
}
