//! Making the way to a place: the directories above it that are missing, one after the other.

ghost use Rattle.std.specs.Prelude.{◌≡◌, ◌<◌, List, IfErr, OnOk, length, take};
ghost use Rattle.nv_paths.specs.Seen.{tree_of};
ghost use Rattle.nv_script.specs.Cleaning.{CanClean};
ghost use Rattle.nv_history.specs.declared.calls.Call.{Call as CallValue};
ghost use Rattle.nv_history.specs.Making.{AreMade};
ghost use Rattle.nv_unpack.specs.Making.{GoesOn, RefusesAbove, RefusesDirectory, RefusesWay, RefusesWayOf, MakesWayOf};
ghost use Rattle.nv_unpack.specs.Ways.{IsDirectoryCall, MakesAbove, MakesWay, ends_above};

use crate::calls::is_there;
use crate::maker::Maker;
use crate::running::run_calls;
use crate::step::Step;
use crate::turns::inode_cpu;
use nv_history::Call;
use nv_region::MemRegion;
use nv_session::{CallRefusal, Fs};

/// The mode of a directory that is made on the way.
const DIRECTORY_MODE: u32 = 493;

/// Makes the way to the place of a step, where its item is made.
pub(crate) fn make_way_of(
    mount: &mut Fs<MemRegion>,
    maker: Maker,
    hint: &mut u64,
    step: Step<'_>,
    text: &[u8],
) -> Result<(), CallRefusal>
    requires { CanClean mount.old }
    ensures goes { GoesOn mount.old mount.new }
    ensures made { OnOk result (MakesWayOf mount.old.sup maker text.now step.entry (tree_of mount.old.memory.region mount.old.rows) (tree_of mount.new.memory.region mount.new.rows)) }
    ensures refused { IfErr result (RefusesWayOf mount.old.sup maker text.now step.entry (tree_of mount.old.memory.region mount.old.rows) mount.new) }
{
    match step {
        Step::Make(item) => make_way(mount, maker, hint, text, item.time),
        Step::SetAttributes(_) => Ok(()),
    }
}

fn make_way(
    mount: &mut Fs<MemRegion>,
    maker: Maker,
    hint: &mut u64,
    text: &[u8],
    time: u64,
) -> Result<(), CallRefusal>
    requires { CanClean mount.old }
    ensures goes { GoesOn mount.old mount.new }
    ensures made { OnOk result (MakesWay mount.old.sup maker time text.now (length text.now) (tree_of mount.old.memory.region mount.old.rows) (tree_of mount.new.memory.region mount.new.rows)) }
    ensures refused { IfErr result (RefusesWay mount.old.sup maker time text.now (tree_of mount.old.memory.region mount.old.rows) mount.new) }
{
    for at in 0..text.len() {
        if let Err(refusal) = make_above(mount, maker, hint, text, at, time) {
            return Err(refusal);
        }
    }
    Ok(())
}

// Makes the directory that ends there, if one does and it is missing.
fn make_above(
    mount: &mut Fs<MemRegion>,
    maker: Maker,
    hint: &mut u64,
    text: &[u8],
    at: usize,
    time: u64,
) -> Result<(), CallRefusal>
    requires can { CanClean mount.old }
    requires at { at < length text.now }
    ensures goes { GoesOn mount.old mount.new }
    ensures made { OnOk result (MakesAbove mount.old.sup maker time text.now at (tree_of mount.old.memory.region mount.old.rows) (tree_of mount.new.memory.region mount.new.rows)) }
    ensures refused { IfErr result (RefusesAbove mount.old.sup maker time text.now at (tree_of mount.old.memory.region mount.old.rows) mount.new) }
{
    if !ends_above(text, at) {
        return Ok(());
    }
    if is_there(mount, &text[..at]) {
        return Ok(());
    }
    make_directory(mount, maker, hint, &text[..at], time)
}

fn ends_above(text: &[u8], at: usize) -> bool
    requires { at < length text.now }
    ensures { result ≡ ends_above text.now at }
{
    at > 0 && text[at] == b'/'
}

fn make_directory(
    mount: &mut Fs<MemRegion>,
    maker: Maker,
    hint: &mut u64,
    path: &[u8],
    time: u64,
) -> Result<(), CallRefusal>
    requires { CanClean mount.old }
    ensures goes { GoesOn mount.old mount.new }
    ensures made { OnOk result ((calls : List CallValue) × IsDirectoryCall mount.old.sup maker path.now time (tree_of mount.old.memory.region mount.old.rows) calls
        × AreMade mount.old.sup calls (tree_of mount.old.memory.region mount.old.rows) (tree_of mount.new.memory.region mount.new.rows)) }
    ensures refused { IfErr result (RefusesDirectory mount.old.sup maker path.now time (tree_of mount.old.memory.region mount.old.rows) mount.new) }
{
    let call = Call::MakeDirectory {
        cpu: inode_cpu(mount, maker, hint),
        path,
        mode: DIRECTORY_MODE,
        time,
    };
    run_calls(mount, &[call])
}
