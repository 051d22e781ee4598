//! The number that a new inode gets, and where its name goes.

ghost use Rattle.std.specs.Prelude.{◌≡◌, ◌<◌, IfOk, IfErr, OnOk, Option};
ghost use Rattle.nv_region.specs.Region.{Region};
ghost use Rattle.nv_rows.specs.RowList.{HasNumbersOf};
ghost use Rattle.nv_rows.specs.Rows.{IsInUse, place_in};
ghost use Rattle.nv_tree.specs.Path.{IsPathName};
ghost use Rattle.nv_tree.specs.Refusals.{Tests, first_refusal};
ghost use Rattle.nv_tree.specs.declared.refusal.Refusal.{Refusal as RefusalValue};
ghost use Rattle.nv_paths.specs.Directories.{spot_tests};
ghost use Rattle.nv_paths.specs.Spots.{IsSpot, new_number, or_next};
ghost use Rattle.nv_paths.specs.Seen.{tree_of};

use crate::naming::{directory_named, target_of};
use nv_inode::Tables;
use nv_rows::Rows;
use nv_super::WITH_CHAINS;
use nv_tree::Refusal;

/// The number that a new inode of a CPU gets: the lowest of the CPU's table that no inode in use has. Where there is none,
/// it is in version 2 the first number behind the table, which a further block of the CPU's chain gives a slot.
pub fn new_number(rows: &Rows, tables: &Tables, cpu: u64) -> Option<u64>
    requires cpu { cpu < tables.now.layout.sup.cpus }
    requires numbers { HasNumbersOf tables.now.layout rows.now }
    ensures { result ≡ new_number tables.now.layout rows.now.items cpu }
{
    match rows.lowest_unused(cpu) {
        Some(number) => Some(number),
        None => next_in_chain(tables, cpu),
    }
}

/// The first number behind the table of a CPU, in version 2.
fn next_in_chain(tables: &Tables, cpu: u64) -> Option<u64>
    requires { cpu < tables.now.layout.sup.cpus }
    ensures { result ≡ or_next tables.now.layout cpu Option.None }
{
    if tables.sup().version == WITH_CHAINS {
        Some(tables.next_number(cpu))
    } else {
        None
    }
}

/// The number that a new inode of a CPU gets, with this name in a directory.
///
/// Errors, the first that applies:
/// - `BadName` where no path can say the name
/// - `NotFound` where no inode in use has the directory's number, and `NotDirectory` where a file has it
/// - `Exists` where an inode in use has the name
/// - `NoInodes` where there is no such number
pub fn spot_in(
    rows: &Rows,
    tables: &Tables,
    cpu: u64,
    directory: u64,
    name: &[u8],
) -> Result<u64, Refusal>
    requires cpu { cpu < tables.now.layout.sup.cpus }
    requires numbers { HasNumbersOf tables.now.layout rows.now }
    ensures in_use { OnOk result (IsInUse rows.now.items directory) }
    ensures name { OnOk result (IsPathName name.now) }
    ensures spot { IfOk result (IsSpot rows.now.items tables.now.layout cpu directory (place_in rows.now.items directory) name.now) }
    ensures passed { (region : Region) (more : Tests)
        → OnOk result (first_refusal (spot_tests (tree_of region rows.now.items) (new_number tables.now.layout rows.now.items cpu) directory name.now more) ≡ first_refusal more) }
    ensures refused { (region : Region) (more : Tests)
        → IfErr result (λ e. first_refusal (spot_tests (tree_of region rows.now.items) (new_number tables.now.layout rows.now.items cpu) directory name.now more) ≡ Option.Some e) }
    ensures goes_on { IfErr result (λ e. e ≡ RefusalValue.Stopped → ⊥) }
{
    let row = directory_named(rows, directory, name)?;
    if target_of(rows, row, name).is_some() {
        return Err(Refusal::Exists);
    }
    match new_number(rows, tables, cpu) {
        Some(inode) => Ok(inode),
        None => Err(Refusal::NoInodes),
    }
}
