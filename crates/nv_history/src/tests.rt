//! Runs of calls in which the power is cut.

ghost use Rattle.nv_region.specs.Stops.{NothingPending};
ghost use Rattle.nv_region.specs.RegionState.{fenced_or_last};

use crate::{Call, Halted, make_calls};
use nv_calls::{Data, Fs, format};
use nv_outcome::rolled_back_outcome;
use nv_recover::recover_one;
use nv_region::{Fuse, Keep, MemRegion};
use nv_tree::Refusal;
use std::alloc::Global;
use std::process::Abort;
use std::test::Fail;

const CALLS: [Call<'static>; 3] = [
    Call::Create {
        cpu: 0,
        path: b"/a",
        mode: 420,
        time: 2000,
    },
    Call::Write {
        cpu: 0,
        path: b"/a",
        offset: 0,
        content: Data::Given(b"words"),
        time: 3000,
    },
    Call::Rename {
        cpu: 0,
        old: b"/a",
        new: b"/b",
        time: 4000,
    },
];

/// Recovers a memory of which nothing is pending, and mounts it.
fn mount(alloc: Global, mut memory: MemRegion) -> Result<Fs<MemRegion>, Fail>
    requires { NothingPending memory.region (fenced_or_last memory) }
{
    let recovered = recover_one(alloc, &mut memory)?;
    rolled_back_outcome();
    Ok(Fs::open(alloc, memory, recovered))
}

fn formatted(alloc: Global) -> Result<Fs<MemRegion>, Fail> {
    let mut memory = MemRegion::new(alloc, 16)?;
    format(&mut memory, 1, 1, 1000)?;
    mount(alloc, memory)
}

/// How many of the calls a mount shows the tree of, by the one name that stands in it.
fn calls_shown(fs: &Fs<MemRegion>) -> Result<usize, Fail> {
    let names = fs.list(b"/")?;
    match names.as_slice() {
        [] => Ok(0),
        [line] if line.name == b"a".as_slice() => Ok(if fs.stat(b"/a")?.size == 0 { 1 } else { 2 }),
        [line] if line.name == b"b".as_slice() => Ok(3),
        _ => Err(Fail::from("no tree of the calls")),
    }
}

/// Makes the calls in a memory that stops after so many stores and fences, and recovers what is left. How many calls were
/// made, and how many are shown.
fn made_and_shown(
    rt: &impl Abort,
    alloc: Global,
    passed: u64,
    keep: Keep,
) -> Result<(usize, usize), Fail> {
    let mut fs = formatted(alloc)?;
    fs.set_fuse(Fuse::After(passed));
    let made = match make_calls(&mut fs, &CALLS) {
        Ok(()) => 3,
        Err(halted) => {
            assert_eq!(rt; halted.refusal, Refusal::Stopped);
            halted.made
        }
    };
    let left = mount(alloc, fs.into_memory().after_stop(keep))?;
    Ok((made, calls_shown(&left)?))
}

/// The stores and fences of the first two calls.
const FIRST_TWO: u64 = 545;

/// Those of all three.
const ALL_THREE: u64 = 556;

#[test]
fn a_stop_within_the_rename_leaves_either_name(rt: HostRuntime) -> Result<(), Fail> {
    for passed in FIRST_TWO..ALL_THREE {
        for keep in [Keep::None, Keep::All, Keep::Alternate] {
            let (made, shown) = made_and_shown(&rt, rt.alloc(), passed, keep)?;
            assert_eq!(rt; made, 2);
            assert!(rt; shown == 2 || shown == 3);
        }
    }
    Ok(())
}

#[test]
fn all_calls_are_made(rt: HostRuntime) -> Result<(), Fail> {
    let (made, shown) = made_and_shown(&rt, rt.alloc(), ALL_THREE, Keep::None)?;
    assert_eq!(rt; made, 3);
    assert_eq!(rt; shown, 3);
    Ok(())
}

#[test]
fn a_halt_is_told_as_a_sentence(rt: HostRuntime) -> Result<(), Fail> {
    let halted = Halted {
        made: 2,
        refusal: Refusal::Stopped,
    };
    let text = format!(in rt.alloc(); "{halted}")?;
    assert_eq!(rt;
        text.as_str(),
        "the call at index 2 was refused: the memory has been stopped"
    );
    Ok(())
}
