//! Changing a region: it is recovered on this thread, and the calls of a change are made, all of them or none.
//!
//! If something is wrong with the region, or if a call is refused, nothing is changed.

ghost use Rattle.std.specs.Prelude.{◌≡◌, false, true, IfOk, IsTrue, string_bytes};
ghost use Rattle.nv_region.specs.Region.{Region};
ghost use Rattle.nv_region.specs.RegionState.{is_steady};
ghost use Rattle.nv_outcome.specs.Outcome.{Outcome};
ghost use Rattle.nv_calls.specs.Mount.{has_faults};
ghost use Rattle.nv_script.specs.Cleaning.{IsOpenedAs};
ghost use Rattle.nv_changes.specs.Changing.{IsChanged, IsChangedAs, IsRefusal};

use crate::calls::calls_of;
use crate::change::Change;
use nv_history::{Halted, make_calls};
use nv_image_check::{Answer, recover_alone};
use nv_region::MemRegion;
use nv_report::refused_text;
use nv_session::{CallRefusal, Fs, keep_all, refused_call_text};
use nv_text::Refusal;
use std::alloc::{AllocError, Global};

const REFUSED_STATUS: u8 = 2;

/// What came of a change.
#[derive(Drop)]
pub enum Changed {
    /// The region that is left.
    Region(MemRegion),
    /// Its superblock isn't accepted.
    Unrecovered(Refusal),
    /// Something is wrong with it, or a call is refused. No region is left.
    Refused(CallRefusal),
}

impl Changed {
    ghost use Rattle.nv_changes.specs.Changing.{changed_status, changed_text};

    /// What is printed of it: nothing, or the refusal. Errors: `AllocError` where a growth was refused.
    pub fn text(&self, alloc: Global) -> Result<String, AllocError>
        ensures { IfOk result (λ text. string_bytes text ≡ changed_text self.now) }
    {
        match self {
            Changed::Region(_) => Ok(String::new(alloc)),
            Changed::Unrecovered(refusal) => refused_text(alloc, *refusal),
            Changed::Refused(refusal) => refused_call_text(alloc, *refusal),
        }
    }

    /// The exit status: 0 where a region is left, and 2 where it is refused.
    pub fn status(&self) -> u8
        ensures { result ≡ changed_status self.now }
    {
        match self {
            Changed::Region(_) => 0,
            Changed::Unrecovered(_) | Changed::Refused(_) => REFUSED_STATUS,
        }
    }
}

/// Recovers the region that a memory holds, and makes a change of it in the name of a CPU and at a time in seconds since 1970.
/// What is pending in the memory is kept first, and its fuse is taken out. A region with faults is refused before anything else.
///
/// Errors: `AllocError` where a growth was refused.
pub fn change_image(
    alloc: Global,
    memory: MemRegion,
    change: &Change<'_>,
    cpu: u64,
    time: u64,
) -> Result<Changed, AllocError>
    ensures { IfOk result (IsChanged memory.region change.now cpu time) }
{
    let mut memory = keep_all(memory);
    let answer = recover_alone(alloc, &mut memory)?;
    match answer {
        Answer::Recovered(recovered) => {
            change_mount(alloc, Fs::open(alloc, memory, recovered), change, cpu, time)
        }
        Answer::Refused(refusal) => Ok(Changed::Unrecovered(refusal)),
    }
}

// Makes the change of what is mounted.
fn change_mount(
    alloc: Global,
    mount: Fs<MemRegion>,
    change: &Change<'_>,
    cpu: u64,
    time: u64,
) -> Result<Changed, AllocError>
    requires runs { mount.stopped ≡ false }
    requires steady { IsTrue (is_steady mount.memory) }
    ensures { (R : Region) (o : Outcome) → IsOpenedAs R o mount → IfOk result (IsChangedAs R o change.now cpu time) }
{
    // Whether it may be written is told by its faults.
    mount.keeps();
    if mount.faults().is_empty() {
        change_sound(alloc, mount, change, cpu, time)
    } else {
        Ok(Changed::Refused(CallRefusal::ReadOnly))
    }
}

// The same of a mount without faults.
fn change_sound(
    alloc: Global,
    mut mount: Fs<MemRegion>,
    change: &Change<'_>,
    cpu: u64,
    time: u64,
) -> Result<Changed, AllocError>
    requires runs { mount.stopped ≡ false }
    requires steady { IsTrue (is_steady mount.memory) }
    requires writes { mount.read_only ≡ false }
    ensures { (R : Region) (o : Outcome) → IsOpenedAs R o mount → IfOk result (IsChangedAs R o change.now cpu time) }
{
    let calls = calls_of(alloc, &mount, change, cpu, time)?;
    let answer = make_calls(&mut mount, &calls);
    // What it keeps is asked for below.
    mount.keeps();
    mount.nothing_is_pending();
    match answer {
        Ok(()) => Ok(Changed::Region(mount.into_memory())),
        Err(halted) => refused(halted),
    }
}

// Want of memory is told as no refusal.
fn refused(halted: Halted) -> Result<Changed, AllocError>
    ensures { IfOk result (IsRefusal halted.refusal) }
{
    match halted.refusal {
        CallRefusal::Memory => Err(AllocError),
        refusal => Ok(Changed::Refused(refusal)),
    }
}
