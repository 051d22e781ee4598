//! What a row says once its file was written. Nothing is stored here, and no memory is taken.

ghost use Rattle.std.specs.Prelude.{length};
ghost use Rattle.smallvec.specs.SmallVec.{HasRoomFor};
ghost use Rattle.nv_alloc.specs.Taking.{Disjoint};
ghost use Rattle.nv_steps.specs.Written.{AreSettled, HasWritten, MapsEntries, entry_pages};

use crate::planning::Plan;
use crate::preparing_data::Entries;
use crate::settling::settle_log;
use nv_entry::Entry;
use nv_radix::FileIndex;
use nv_scan::Row;

/// Puts the pages of write entries, the size and the time, and the new pages and the new tail of its log into a row, which
/// has room for them.
pub(crate) fn settle_data(row: &mut Row, log: &Entries, plan: &Plan, end: u64)
    requires room { HasRoomFor row.old.pages (length log.now.fresh.items) }
    requires ready { AreSettled row.old.index log.now.entries.items }
    requires once { Disjoint (entry_pages log.now.entries.items) }
    ensures { HasWritten row.old plan.now log.now.entries.items log.now.fresh.items end row.new }
{
    settle_log(row, &log.fresh, end);
    map_pages(&mut row.index, &log.entries);
    row.numbers.size = plan.size;
    row.numbers.time = plan.time;
}

/// Maps the pages of write entries, which are ready, to their blocks.
fn map_pages(index: &mut FileIndex, entries: &[Entry])
    requires ready { AreSettled index.old entries.now }
    requires once { Disjoint (entry_pages entries.now) }
    ensures { MapsEntries index.old entries.now index.new }
{
    for entry in entries {
        if let Entry::Write(write) = entry {
            index.set_run(write.offset, write.block, u64::from(write.count));
        }
    }
}
