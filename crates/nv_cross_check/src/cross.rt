//! What is wrong between inodes.

ghost use Rattle.std.specs.Prelude.{◌≡◌, [], map, IfOk, OnOk};
ghost use Rattle.nv_super.specs.Order.{fault_key, Lists};
ghost use Rattle.nv_inode.specs.Numbers.{number_end};
ghost use Rattle.nv_scan.specs.declared.piece.Row.{Row as RowValue};
ghost use Rattle.nv_numbered.specs.Values.{AreNumbersBelow};
ghost use Rattle.nv_cross_check.specs.Cross.{IsCrossFaultIn};
ghost use Rattle.nv_cross_check.specs.Listings.{IsFault};
ghost use Rattle.nv_cross_check.specs.Steps.{ArePlaces, AreNumbersOfNames, AreFaults, unused_faults};

use crate::counts::push_counts;
use crate::tables::{RowTables, tables_of};
use crate::walk::push_far;
use nv_inode::Tables;
use nv_scan::RowList;
use nv_super::{Fault, sort_faults};
use std::alloc::{AllocError, Global};

/// The faults, rising, between the rows of all inodes in use, which come in any order, no two of one inode.
///
/// They are names of inodes that aren't in use, directories that aren't named exactly once, and a root directory that
/// is named. And they are files whose link count isn't their number of names, inodes that aren't reached from the root,
/// and a root that is no directory in use.
///
/// Errors: `AllocError` where a growth was refused, or where 64 bits can't count the names of one inode. No memory holds
/// so many names.
pub fn cross_faults(
    alloc: Global,
    tables: &Tables,
    rows: &RowList,
) -> Result<Vec<Fault>, AllocError>
    requires { AreNumbersBelow (number_end tables.now.layout) (map (λ (r : RowValue). r.inode) rows.now.items) }
    ensures { IfOk result (λ found. Lists fault_key (IsCrossFaultIn rows.now.items) found.items) }
{
    let tables = tables_of(alloc, tables, rows)?;
    sorted_faults(alloc, &tables)
}

/// The faults between the rows of these tables, rising.
fn sorted_faults(alloc: Global, tables: &RowTables<'_>) -> Result<Vec<Fault>, AllocError>
    requires places { ArePlaces tables.now.listings tables.now.places }
    requires counts { AreNumbersOfNames tables.now.listings tables.now.counts.items }
    requires unused { tables.now.unused.items ≡ unused_faults tables.now.places tables.now.listings }
    ensures { IfOk result (λ found. Lists fault_key (IsFault tables.now.listings) found.items) }
{
    let mut faults = Vec::new(alloc);
    push_all(alloc, &mut faults, tables)?;
    sort_faults(&mut faults);
    Ok(faults)
}

/// The faults between the rows, kind by kind.
fn push_all(
    alloc: Global,
    faults: &mut Vec<Fault>,
    tables: &RowTables<'_>,
) -> Result<(), AllocError>
    requires places { ArePlaces tables.now.listings tables.now.places }
    requires counts { AreNumbersOfNames tables.now.listings tables.now.counts.items }
    requires unused { tables.now.unused.items ≡ unused_faults tables.now.places tables.now.listings }
    requires none { faults.old.items ≡ [] }
    ensures { OnOk result (AreFaults tables.now.listings faults.new.items) }
{
    faults.extend_from_slice(&tables.unused)?;
    push_counts(faults, &tables.listings, &tables.counts)?;
    push_far(alloc, faults, &tables.places, &tables.listings)
}
