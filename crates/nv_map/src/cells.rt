//! The cells of a map, made from what a recovery answers.

ghost use Rattle.std.specs.Prelude.{IfOk};
ghost use Rattle.nv_super.specs.Layout.{IsLayout};
ghost use Rattle.nv_outcome.specs.Answer.{outcome_of};
ghost use Rattle.nv_map.specs.Map.{AreCells, IsMap};

use crate::marks::Marks;
use crate::shares::{Share, shares_of};
use crate::uses::BlockUse;
use nv_outcome::Recovered;
use std::alloc::{AllocError, Global};

/// The blocks of a region in cells of so many blocks each, where the last may have fewer.
#[derive(Drop)]
pub struct Cells {
    /// How many blocks a cell has.
    pub each: u64,
    /// What each cell is used for.
    pub uses: Vec<BlockUse>,
    /// How many blocks of each cell have each use.
    pub shares: Vec<Share>,
}

/// The map of what was recovered, in at most `most` cells (one, if that is 0) of as few blocks as can be.
/// Errors: where a growth was refused.
pub fn cells_of(alloc: Global, recovered: &Recovered, most: u64) -> Result<Cells, AllocError>
    requires layout { IsLayout recovered.now.sup }
    ensures { IfOk result (λ cells. IsMap (outcome_of recovered.now) most cells) }
{
    let cells = mark_all(alloc, recovered, most)?;
    let blocks = mark_all(alloc, recovered, recovered.sup.blocks)?;
    let shares = shares_of(alloc, &blocks.uses, cells.each)?;
    Ok(Cells {
        each: cells.each,
        uses: cells.uses,
        shares,
    })
}

// The cells, at most `most` of them, told of all blocks.
fn mark_all(alloc: Global, recovered: &Recovered, most: u64) -> Result<Marks, AllocError>
    requires layout { IsLayout recovered.now.sup }
    ensures { IfOk result (λ marks. AreCells (outcome_of recovered.now) most marks.each marks.uses.items) }
{
    let mut marks = Marks::new(alloc, recovered.sup.blocks, most)?;
    marks.mark(0, recovered.sup.system_blocks(), BlockUse::System);
    marks.mark_tables(&recovered.tables);
    marks.mark_rows(&recovered.rows)?;
    marks.mark_doubled(&recovered.doubled);
    Ok(marks)
}
