//! Tickets: each is a block of slots, by its place among all of them, and stands for the inodes of its slots.

ghost use Rattle.std.specs.Prelude.{◌≡◌};
ghost use Rattle.nv_scan.specs.Tickets.{ticket_count};

use nv_inode::Tables;
use nv_super::{BLOCK_SIZE, SLOT_SIZE};

/// How many slots a block has at most: so many as a table block.
pub const SLOTS: u64 = BLOCK_SIZE / SLOT_SIZE;

/// How many tickets there are: one for each block of slots.
pub fn ticket_count(tables: &Tables) -> u64
    ensures { result ≡ ticket_count tables.now.layout }
{
    tables.slot_block_count()
}
