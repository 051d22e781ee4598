//! Runs of calls.

ghost use Rattle.std.specs.Prelude.{◌≡◌, ◌<◌, length, IfErr, OnOk, false};
ghost use Rattle.nv_region.specs.Stops.{LeavesOnly};
ghost use Rattle.nv_tree.specs.declared.refusal.Refusal.{Refusal as RefusalValue};
ghost use Rattle.nv_calls.specs.Same.{SameMount};
ghost use Rattle.nv_history.specs.Making.{AreMade};
ghost use Rattle.nv_history.specs.Halting.{HaltsAt};
ghost use Rattle.nv_history.specs.Keeping.{KeepsRun};
ghost use Rattle.nv_history.specs.Stopping.{RunLeaves};
ghost use Rattle.nv_calls.specs.Mount.{shown};

use crate::calls::{Call, make_call};
use nv_calls::Fs;
use nv_region::Pmem;
use nv_tree::Refusal;
use std::error::Error;
use std::fmt;

/// Where a run of calls was halted: how many were made in front of the one that was refused, and why it was.
#[derive(Clone, Copy, Debug, PartialEq, Eq)]
pub struct Halted {
    pub made: usize,
    pub refusal: Refusal,
}

impl fmt::Display for Halted {
    fn fmt<W: fmt::Write>(&self, f: &mut fmt::Formatter<W>) -> fmt::Result {
        write!(
            f,
            "the call at index {} was refused: {}",
            self.made, self.refusal
        )
    }
}

impl Error for Halted {}

/// Makes calls, one after the other, up to the first that is refused.
///
/// A refused call leaves what the calls before it have made, unless the refusal is `Stopped`. The mount is stopped then, and a
/// recovery finds what was made with that call or without it.
pub fn make_calls<P: Pmem + Drop>(mount: &mut Fs<P>, calls: &[Call<'_>]) -> Result<(), Halted>
    // All were made, or one after those that were made is refused.
    ensures made { OnOk result (AreMade mount.old.sup calls.now (shown P.region mount.old) (shown P.region mount.new)) }
    ensures before { IfErr result (λ halted. halted.made < length calls.now) }
    ensures halted { IfErr result (λ halted. (halted.refusal ≡ RefusalValue.Stopped → ⊥)
        → HaltsAt mount.old.sup (shown P.region mount.old) calls.now halted (P.region mount.new.memory) mount.new) }
    ensures unchanged { IfErr result (λ halted. (halted.refusal ≡ RefusalValue.Stopped → ⊥) → halted.made ≡ 0 → SameMount mount.old mount.new) }
    // What a run keeps, and when it stops the mount.
    ensures run { KeepsRun P.region P.fuse calls.now mount.old mount.new result }
    // Whatever a power cut leaves, at any store of any of the calls: recovery finds what the calls that were made make, or
    // what they make with the one that was stopped, without faults, however often recoveries are stopped too.
    ensures any_stop { mount.old.stopped ≡ false → mount.old.read_only ≡ false
        → LeavesOnly (P.region mount.new.memory) (P.may_hold mount.new.memory) (RunLeaves P.region mount.old calls.now result) }
{
    for (made, call) in calls.iter().enumerate() {
        // While this is kept, the numbers of new inodes are those by the superblock alone.
        mount.keeps();
        // What a stop leaves where the call stores nothing.
        mount.recovers_as_mounted();
        if let Err(refusal) = make_call(mount, call) {
            return Err(Halted { made, refusal });
        }
    }
    mount.keeps();
    mount.recovers_as_mounted();
    Ok(())
}
