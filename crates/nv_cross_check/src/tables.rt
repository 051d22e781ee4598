//! What the checks read: the rows with their names listed, where each inode's row stands, and how often each is named.

ghost use Rattle.std.specs.Prelude.{map, IfOk};
ghost use Rattle.nv_inode.specs.Numbers.{number_end};
ghost use Rattle.nv_scan.specs.declared.piece.Row.{Row as RowValue};
ghost use Rattle.nv_numbered.specs.Values.{AreNumbersBelow};
ghost use Rattle.nv_cross_check.specs.Tables.{AreTables};

use crate::counts::count_names;
use crate::listing::{Listings, listings_of};
use crate::places::{Places, places_of};
use nv_inode::Tables;
use nv_scan::RowList;
use nv_super::Fault;
use std::alloc::{AllocError, Global};

/// Three tables over the same rows, and the faults that are found as the names are counted.
#[derive(Drop)]
pub(crate) struct RowTables<'a> {
    pub(crate) listings: Listings<'a>,
    pub(crate) places: Places,
    pub(crate) counts: Vec<u64>,
    // Of names whose inode isn't in use.
    pub(crate) unused: Vec<Fault>,
}

pub(crate) fn tables_of<'a>(
    alloc: Global,
    tables: &Tables,
    rows: &'a RowList,
) -> Result<RowTables<'a>, AllocError>
    requires { AreNumbersBelow (number_end tables.now.layout) (map (λ (r : RowValue). r.inode) rows.now.items) }
    ensures { IfOk result (λ tables. AreTables rows.now.items tables) }
{
    let listings = listings_of(alloc, rows)?;
    let places = places_of(alloc, tables.number_end(), &listings)?;
    let (counts, unused) = count_names(alloc, &places, &listings)?;
    Ok(RowTables {
        listings,
        places,
        counts,
        unused,
    })
}
