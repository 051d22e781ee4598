//! Unpacking items into a region: it is recovered on this thread, and the calls for them are made, all of them or none.
//!
//! If something is wrong with the region, or if a call is refused, nothing is changed.

ghost use Rattle.std.specs.Prelude.{◌≡◌, false, IfOk, IsTrue, string_bytes};
ghost use Rattle.nv_region.specs.Region.{Region};
ghost use Rattle.nv_outcome.specs.Outcome.{Outcome};
ghost use Rattle.nv_script.specs.Cleaning.{CanClean, IsOpenedAs};
ghost use Rattle.nv_region.specs.RegionState.{is_steady};
ghost use Rattle.nv_unpack.specs.Unpacking.{IsRefusalOf, IsUnpacked, IsUnpackedAs};

use crate::halt::Halt;
use crate::maker::Maker;
use crate::making::make_steps;
use crate::step::steps_of;
use crate::told::refused_item_text;
use nv_image_check::{Answer, recover_alone};
use nv_region::MemRegion;
use nv_report::refused_text;
use nv_session::{CallRefusal, Fs, keep_all, refused_call_text};
use nv_text::Refusal;
use nv_untar::Item;
use std::alloc::{AllocError, Global};

const REFUSED_STATUS: u8 = 2;

/// What came of unpacking.
#[derive(Drop)]
pub enum Unpacked<'a> {
    /// The region that is left.
    Region(MemRegion),
    /// Its superblock isn't accepted.
    Unrecovered(Refusal),
    /// Something is wrong with it. No region is left.
    Faulty,
    /// A call for this item is refused. No region is left.
    Refused(Item<'a>, CallRefusal),
}

impl<'a> Unpacked<'a> {
    ghost use Rattle.nv_unpack.specs.Unpacking.{unpacked_status, unpacked_text};

    /// What is printed of it: nothing, or the refusal. Errors: `AllocError` where a growth was refused.
    pub fn text(&self, alloc: Global) -> Result<String, AllocError>
        ensures { IfOk result (λ text. string_bytes text ≡ unpacked_text self.now) }
    {
        match self {
            Unpacked::Region(_) => Ok(String::new(alloc)),
            Unpacked::Unrecovered(refusal) => refused_text(alloc, *refusal),
            Unpacked::Faulty => refused_call_text(alloc, CallRefusal::ReadOnly),
            Unpacked::Refused(item, refusal) => refused_item_text(alloc, *item, *refusal),
        }
    }

    /// The exit status: 0 where a region is left, and 2 where it is refused.
    pub fn status(&self) -> u8
        ensures { result ≡ unpacked_status self.now }
    {
        match self {
            Unpacked::Region(_) => 0,
            Unpacked::Unrecovered(_) | Unpacked::Faulty | Unpacked::Refused(..) => REFUSED_STATUS,
        }
    }
}

/// Recovers the region that a memory holds, and unpacks items below the directory that a base path leads to, in the name of one CPU
/// or of any.
/// What is pending in the memory is kept first, and its fuse is taken out. A region with faults is refused before anything else.
///
/// Errors: `AllocError` where a growth was refused.
pub fn unpack_image<'a>(
    alloc: Global,
    memory: MemRegion,
    base: &[u8],
    items: &[Item<'a>],
    maker: Maker,
) -> Result<Unpacked<'a>, AllocError>
    ensures { IfOk result (IsUnpacked memory.region base.now items.now maker) }
{
    let mut memory = keep_all(memory);
    let answer = recover_alone(alloc, &mut memory)?;
    match answer {
        Answer::Recovered(recovered) => {
            unpack_mount(
                alloc,
                Fs::open(alloc, memory, recovered),
                base,
                items,
                maker,
            )
        }
        Answer::Refused(refusal) => Ok(Unpacked::Unrecovered(refusal)),
    }
}

// Unpacks them into what is mounted.
fn unpack_mount<'a>(
    alloc: Global,
    mount: Fs<MemRegion>,
    base: &[u8],
    items: &[Item<'a>],
    maker: Maker,
) -> Result<Unpacked<'a>, AllocError>
    requires runs { mount.stopped ≡ false }
    requires steady { IsTrue (is_steady mount.memory) }
    ensures { (R : Region) (o : Outcome) → IsOpenedAs R o mount → IfOk result (IsUnpackedAs R o base.now items.now maker) }
{
    // Whether it may be written is told by its faults.
    mount.keeps();
    if mount.faults().is_empty() {
        unpack_sound(alloc, mount, base, items, maker)
    } else {
        Ok(Unpacked::Faulty)
    }
}

// The same of a mount without faults.
fn unpack_sound<'a>(
    alloc: Global,
    mut mount: Fs<MemRegion>,
    base: &[u8],
    items: &[Item<'a>],
    maker: Maker,
) -> Result<Unpacked<'a>, AllocError>
    requires { CanClean mount }
    ensures { (R : Region) (o : Outcome) → IsOpenedAs R o mount → IfOk result (IsUnpackedAs R o base.now items.now maker) }
{
    let steps = steps_of(alloc, items)?;
    let answer = make_steps(alloc, &mut mount, base, &steps, maker);
    // What it keeps is asked for below.
    mount.keeps();
    mount.nothing_is_pending();
    match answer {
        Ok(()) => Ok(Unpacked::Region(mount.into_memory())),
        Err(halt) => halted(halt),
    }
}

// Want of memory is told as no refusal.
fn halted<'a>(halt: Halt<'a>) -> Result<Unpacked<'a>, AllocError>
    ensures { IfOk result (IsRefusalOf halt.entry) }
{
    match halt {
        Halt::Memory => Err(AllocError),
        Halt::At(item, refusal) => Ok(Unpacked::Refused(item, refusal)),
    }
}
