//! What is told of a recovery, or of a mounted region: its numbers, rows, free lists and faults.

ghost use Rattle.std.specs.Prelude.{◌≡◌, []};
ghost use Rattle.nv_outcome.specs.Answer.{outcome_of};

use nv_alloc::Allocators;
use nv_outcome::{Recovered, Rows};
use nv_super::{Fault, Super};

/// What is told of a region.
#[derive(Clone, Copy)]
pub struct Shown<'a> {
    pub sup: &'a Super,
    /// The inodes in use.
    pub rows: &'a Rows,
    /// The free blocks of each CPU's pool.
    pub free: &'a Allocators,
    /// All that is wrong, in the order of the classes.
    pub faults: &'a [Fault],
}

impl<'a> Shown<'a> {
    ghost use Rattle.nv_report.specs.Shown.{shown_of};

    /// What a recovery found, but for the tables and the doubled blocks by themselves, of which no text tells.
    pub fn of(recovered: &'a Recovered) -> Shown<'a>
        ensures { shown_of result ≡ record (outcome_of recovered.now) { tables = []; doubled = [] } }
    {
        Shown {
            sup: &recovered.sup,
            rows: &recovered.rows,
            free: &recovered.free,
            faults: &recovered.faults,
        }
    }
}
