//! The numbers that a row shows.

ghost use Rattle.std.specs.Prelude.{◌≡◌};
ghost use Rattle.nv_rows.specs.Stat.{row_stat};

use nv_scan::Row;
use nv_tree::Stat;

/// The numbers of a row's inode.
pub fn stat_of(row: &Row) -> Stat
    ensures { result ≡ row_stat row.now }
{
    let numbers = row.numbers;
    Stat {
        inode: row.inode,
        kind: row.kind,
        mode: numbers.mode,
        owner: numbers.owner,
        group: numbers.group,
        size: numbers.size,
        links: numbers.links,
        time: numbers.time,
    }
}
