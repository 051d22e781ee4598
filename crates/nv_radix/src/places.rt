//! Blocks of places in a row, with a bit for each place that has one.

ghost use Rattle.std.specs.Prelude.{◌≡◌, ℕ, ◌+◌, ◌-◌, ◌^◌, ◌<◌, ◌≤◌, ◌++◌, if◌then◌else◌, length, slice_index, OnOk};
ghost use Rattle.std.specs.Int.{bit_at};
ghost use Rattle.nv_radix.specs.Pages.{Pages, block_at, in_run};
ghost use Rattle.nv_radix.specs.Nodes.{leaf_pages, raised};
ghost use Rattle.nv_radix.specs.Extents.{AreExtents};
ghost use Rattle.nv_radix.specs.Rising.{Rises};

use crate::extent::Extent;
use crate::extents::add_run;
use std::alloc::AllocError;

/// The block of a place, if its bit is set.
pub(crate) fn block_of(mapped: u64, blocks: &[u64], place: u64) -> Option<u64>
    requires { length blocks.now ≤ 64 }
    ensures { result ≡ block_at (leaf_pages mapped blocks.now 0) place }
{
    match blocks.get(place as usize) {
        Some(block) if (mapped >> place) & 1 == 1 => Some(*block),
        _ => None,
    }
}

/// Sets the bits of a run of places, and gives them as many blocks from `block` on.
#[inline(always)]
pub(crate) fn set_places(mapped: &mut u64, blocks: &mut [u64], page: u64, block: u64, count: u64)
    requires part { page + count ≤ length blocks.old }
    requires few { length blocks.old ≤ 64 }
    requires fits { block + count ≤ 2 ^ 64 }
    ensures bits { (p : ℕ) → p < 64 → bit_at mapped.new p ≡ (if in_run page count p then 1 else bit_at mapped.old p) }
    ensures blocks { (p : ℕ) → slice_index blocks.new p ≡ (if in_run page count p then block + (p - page) else slice_index blocks.old p) }
{
    // Most files have one page, and most runs too.
    if count == 1 {
        blocks[page as usize] = block;
        *mapped |= 1 << page;
        return;
    }
    let bits = run_bits(page, count);
    number(&mut blocks[page as usize..(page + count) as usize], block);
    *mapped |= bits;
}

/// The bits of the `count` places from `page` on.
fn run_bits(page: u64, count: u64) -> u64
    requires { page + count ≤ 64 }
    ensures { (p : ℕ) → bit_at result p ≡ (if in_run page count p then 1 else 0) }
{
    if count == 0 {
        return 0;
    }
    (u64::MAX >> (64 - count)) << page
}

/// Numbers places in a row from `first` on.
fn number(places: &mut [u64], first: u64)
    requires { first + length places.old ≤ 2 ^ 64 }
    ensures { (p : ℕ) → p < length places.old → slice_index places.new p ≡ first + p }
{
    for (step, place) in places.iter_mut().enumerate() {
        *place = first + step as u64;
    }
}

/// Adds the places with a block, each raised by `base`, to extents of lower pages.
pub(crate) fn add_places(
    mapped: u64,
    blocks: &[u64],
    extents: &mut Vec<Extent>,
    base: u64,
) -> Result<(), AllocError>
    requires few { length blocks.now ≤ 64 }
    requires fits { base + 64 ≤ 2 ^ 32 }
    ensures { OnOk result ((m : Pages) → Rises 0 base m → AreExtents m extents.old.items → AreExtents (m ++ raised base (leaf_pages mapped blocks.now 0)) extents.new.items) }
{
    for (place, block) in blocks.iter().enumerate() {
        let rest = mapped >> place;
        if rest == 0 {
            return Ok(());
        }
        if rest & 1 == 1 {
            let page = base + place as u64;
            add_run(
                extents,
                Extent {
                    page,
                    count: 1,
                    block: *block,
                },
            )?;
        }
    }
    Ok(())
}
