//! What became of each entry of a log: whether the inode's state is the same without it, and since which entry it is so.
//!
//! The entries are taken one after another. Each holds what would be another without it, until a later entry says something of that.
//! An entry that holds nothing any more is dead, by the one that took the last from it.

ghost use Rattle.std.specs.Prelude.{◌≡◌, ℕ, ◌<◌, replicate, length, get_or, IfOk, OnOk, None};
ghost use Rattle.nv_super.specs.Layout.{HasAreas};
ghost use Rattle.nv_inspect.specs.declared.fate.Fate.TheVariants.{Stands};
ghost use Rattle.nv_inspect.specs.Dead.{AreFates};
ghost use Rattle.nv_inspect.specs.Held.{AreTakers, HaveNames, HoldsAll, fate_with};

use crate::fate::Fate;
use crate::held::Held;
use nv_entry::check_content;
use nv_logpage::Placed;
use nv_super::{Kind, Super};
use std::alloc::{AllocError, Global};

/// What became of each of these entries of an inode that was created then.
///
/// Errors: `AllocError` where a growth was refused.
pub(crate) fn fates_of(
    alloc: Global,
    sup: &Super,
    kind: Kind,
    created: u64,
    entries: &[Placed],
) -> Result<Vec<Fate>, AllocError>
    requires areas { HasAreas sup.now }
    requires names { HaveNames entries.now }
    ensures { IfOk result (λ fates. AreFates sup.now kind created entries.now fates.items) }
{
    let mut takers = unmarked(alloc, entries.len())?;
    let held = take_all(alloc, sup, kind, created, entries, &mut takers)?;
    let mut holders = unmarked(alloc, entries.len())?;
    held.mark_holders(0, &mut holders)?;
    let fates = fates_by(alloc, entries, &takers, &holders)?;
    Ok(fates)
}

/// The fate of each entry by its taker, and whether it is marked as a holder.
fn fates_by(
    alloc: Global,
    entries: &[Placed],
    takers: &[Option<u64>],
    holders: &[Option<u64>],
) -> Result<Vec<Fate>, AllocError>
    requires takers { length takers.now ≡ length entries.now }
    requires holders { length holders.now ≡ length entries.now }
    ensures long { IfOk result (λ fates. length fates.items ≡ length entries.now) }
    ensures each { IfOk result (λ fates. (k : ℕ) → k < length entries.now → get_or fates.items k Stands ≡ fate_with entries.now (get_or takers.now k None) (get_or holders.now k None)) }
{
    let mut fates = Vec::new(alloc);
    for place in 0..entries.len() {
        fates.push(fate(entries, takers[place], holders[place]))?;
    }
    Ok(fates)
}

/// So many entries of which none is marked.
fn unmarked(alloc: Global, count: usize) -> Result<Vec<Option<u64>>, AllocError>
    ensures { IfOk result (λ marks. marks.items ≡ replicate count None) }
{
    let mut marks = Vec::new(alloc);
    marks.resize(count, None)?;
    Ok(marks)
}

/// Takes the entries one after another, and marks each with the last that took something from it.
fn take_all(
    alloc: Global,
    sup: &Super,
    kind: Kind,
    created: u64,
    entries: &[Placed],
    takers: &mut [Option<u64>],
) -> Result<Held, AllocError>
    requires areas { HasAreas sup.now }
    requires names { HaveNames entries.now }
    requires unmarked { takers.old ≡ replicate (length entries.now) None }
    ensures held { IfOk result (λ held. HoldsAll sup.now kind created entries.now held) }
    ensures takers { OnOk result (AreTakers sup.now kind created entries.now takers.new) }
    ensures long { length takers.new ≡ length takers.old }
{
    let mut held = Held::new(alloc, created);
    for place in 0..entries.len() {
        let placed = &entries[place];
        if check_content(sup, kind, &placed.entry).is_none() {
            held.take(sup, kind, placed, place as u64, takers)?;
        }
    }
    Ok(held)
}

/// What became of an entry with this taker, which is marked where it holds something.
fn fate(entries: &[Placed], taker: Option<u64>, holder: Option<u64>) -> Fate
    ensures { result ≡ fate_with entries.now taker holder }
{
    if holder.is_some() {
        return Fate::Stands;
    }
    match taker {
        Some(place) if place < entries.len() as u64 => Fate::DeadBy(entries[place as usize].at),
        _ => Fate::ChangesNothing,
    }
}
