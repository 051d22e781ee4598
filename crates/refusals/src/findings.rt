//! What a recovery left of the region, and what it found.

ghost use Rattle.std.specs.Prelude.{◌≡◌, ◌≢◌, ◌↔◌, length, IsTrue};
ghost use Rattle.nv_alloc.specs.Taking.{all_blocks};
ghost use Rattle.nv_recover.specs.declared.errors.RecoverError.TheVariants.{Memory};
ghost use Rattle.refusals.specs.declared.findings.Left.TheVariants.{AsBefore, RolledBack, Otherwise};

use nv_recover::{RecoverError, Recovered};

/// What a recovery left of the region.
#[derive(Clone, Copy, PartialEq, Eq)]
pub(crate) enum Left {
    AsBefore,
    RolledBack,
    Otherwise,
}

pub(crate) fn name_of(left: Left) -> &'static str {
    match left {
        Left::AsBefore => "AsBefore",
        Left::RolledBack => "RolledBack",
        Left::Otherwise => "Otherwise",
    }
}

/// What a recovery found.
#[derive(Clone, Copy)]
pub(crate) struct Counts {
    pub(crate) inodes: usize,
    pub(crate) free: u64,
    pub(crate) doubled: usize,
    pub(crate) faults: usize,
}

/// What was left of a region, by the bytes that it had, those that it would have with its journals rolled back, and those
/// that it has.
pub(crate) fn left_of(before: &[u8], rolled_back: &[u8], after: &[u8]) -> Left
    ensures as_before { result ≡ AsBefore ↔ after.now ≡ before.now }
    ensures rolled_back { result ≡ RolledBack → after.now ≡ rolled_back.now }
    ensures otherwise { result ≡ Otherwise → after.now ≢ rolled_back.now }
{
    if after == before {
        Left::AsBefore
    } else if after == rolled_back {
        Left::RolledBack
    } else {
        Left::Otherwise
    }
}

pub(crate) fn counts_of(recovered: &Recovered) -> Counts
    ensures inodes { result.inodes ≡ length recovered.now.rows.items }
    ensures free { result.free ≡ all_blocks recovered.now.free.pools }
    ensures doubled { result.doubled ≡ length recovered.now.doubled.items }
    ensures faults { result.faults ≡ length recovered.now.faults.items }
{
    Counts {
        inodes: recovered.rows.len(),
        free: recovered.free.free_blocks(),
        doubled: recovered.doubled.len(),
        faults: recovered.faults.len(),
    }
}

/// Whether an error that left the region so is want of memory, as a recovery may answer.
pub(crate) fn is_want_of_memory(error: RecoverError, left: Left) -> bool
    ensures { IsTrue result ↔ (error ≡ Memory) × (left ≢ Otherwise) }
{
    error == RecoverError::Memory && left != Left::Otherwise
}
