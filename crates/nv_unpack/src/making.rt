//! Making steps of what is mounted, one after the other, up to the first that is refused.

ghost use Rattle.std.specs.Prelude.{◌≡◌, IfErr, OnOk};
ghost use Rattle.nv_paths.specs.Seen.{tree_of};
ghost use Rattle.nv_script.specs.Cleaning.{CanClean};
ghost use Rattle.nv_unpack.specs.Making.{AreSteps, GoesOn, HaltsOwn, HaltsStep, HaltsSteps, IsStep, MakesOwn};

use crate::calls::calls_of;
use crate::halt::Halt;
use crate::maker::Maker;
use crate::places::place;
use crate::running::run_calls;
use crate::step::Step;
use crate::turns::cpu_at;
use crate::way::make_way_of;
use nv_region::MemRegion;
use nv_session::Fs;
use std::alloc::Global;

/// Makes steps below a base.
pub(crate) fn make_steps<'a>(
    alloc: Global,
    mount: &mut Fs<MemRegion>,
    base: &[u8],
    steps: &[Step<'a>],
    maker: Maker,
) -> Result<(), Halt<'a>>
    requires { CanClean mount.old }
    ensures goes { GoesOn mount.old mount.new }
    ensures made { OnOk result (AreSteps mount.old.sup base.now maker steps.now (tree_of mount.old.memory.region mount.old.rows) (tree_of mount.new.memory.region mount.new.rows)) }
    ensures refused { IfErr result (HaltsSteps mount.old.sup base.now maker steps.now (tree_of mount.old.memory.region mount.old.rows) mount.new) }
{
    let mut hint = 0;
    for step in steps {
        if let Err(halt) = make_step(alloc, mount, base, *step, maker, &mut hint) {
            return Err(halt);
        }
    }
    Ok(())
}

fn make_step<'a>(
    alloc: Global,
    mount: &mut Fs<MemRegion>,
    base: &[u8],
    step: Step<'a>,
    maker: Maker,
    hint: &mut u64,
) -> Result<(), Halt<'a>>
    requires { CanClean mount.old }
    ensures goes { GoesOn mount.old mount.new }
    ensures made { OnOk result (IsStep mount.old.sup base.now maker step.entry (tree_of mount.old.memory.region mount.old.rows) (tree_of mount.new.memory.region mount.new.rows)) }
    ensures refused { IfErr result (HaltsStep mount.old.sup base.now maker step.entry (tree_of mount.old.memory.region mount.old.rows) mount.new) }
{
    let item = step.item();
    let text = place(alloc, base, item.prefix, item.path)?;
    let old = place(alloc, base, b"", item.link)?;
    if let Err(refusal) = make_way_of(mount, maker, hint, step, &text) {
        return Err(Halt::of(item, refusal));
    }
    make_own(alloc, mount, maker, hint, step, &text, &old)
}

// Makes the calls of a step at a place to which the way is there.
fn make_own<'a>(
    alloc: Global,
    mount: &mut Fs<MemRegion>,
    maker: Maker,
    hint: &mut u64,
    step: Step<'a>,
    text: &[u8],
    old: &[u8],
) -> Result<(), Halt<'a>>
    requires { CanClean mount.old }
    ensures goes { GoesOn mount.old mount.new }
    ensures made { OnOk result (MakesOwn mount.old.sup maker text.now old.now step.entry (tree_of mount.old.memory.region mount.old.rows) (tree_of mount.new.memory.region mount.new.rows)) }
    ensures refused { IfErr result (HaltsOwn mount.old.sup maker text.now old.now step.entry (tree_of mount.old.memory.region mount.old.rows) mount.new) }
{
    let item = step.item();
    let cpu = cpu_at(mount, maker, hint, text);
    let calls = calls_of(alloc, mount, step, text, old, cpu)?;
    match run_calls(mount, &calls) {
        Ok(()) => Ok(()),
        Err(refusal) => Err(Halt::of(item, refusal)),
    }
}
