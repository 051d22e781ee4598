//! Runs of calls on what is mounted without a fuse: each is made, or one is refused and no stop comes.

ghost use Rattle.std.specs.Prelude.{◌≡◌, IfErr, OnOk, false};
ghost use Rattle.nv_paths.specs.Seen.{tree_of};
ghost use Rattle.nv_script.specs.Cleaning.{CanClean};
ghost use Rattle.nv_history.specs.Making.{AreMade, has_upgrade};
ghost use Rattle.nv_unpack.specs.Making.{GoesOn, RefusesCalls};

use nv_history::{Call, make_calls};
use nv_region::MemRegion;
use nv_session::{CallRefusal, Fs};

/// Makes calls one after the other, none of which is `upgrade`, up to the first that is refused.
///
/// Errors: that call's refusal, where those in front of it are made.
pub(crate) fn run_calls(mount: &mut Fs<MemRegion>, calls: &[Call<'_>]) -> Result<(), CallRefusal>
    requires can { CanClean mount.old }
    requires tables { has_upgrade calls.now ≡ false }
    ensures goes { GoesOn mount.old mount.new }
    ensures made { OnOk result (AreMade mount.old.sup calls.now (tree_of mount.old.memory.region mount.old.rows) (tree_of mount.new.memory.region mount.new.rows)) }
    ensures refused { IfErr result (RefusesCalls mount.old.sup (tree_of mount.old.memory.region mount.old.rows) calls.now mount.new) }
{
    match make_calls(mount, calls) {
        Ok(()) => Ok(()),
        Err(halted) => Err(halted.refusal),
    }
}
