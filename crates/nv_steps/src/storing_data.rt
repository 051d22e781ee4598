//! What a write stores: the pages of a file by its entries, the entries behind the log, and the log's tail.

ghost use Rattle.std.specs.Prelude.{◌≡◌, ◌<◌, ◌≤◌, ℕ, length, IfOk, OnOk, is_err, false};
ghost use Rattle.nv_region.specs.Region.{size};
ghost use Rattle.nv_region.specs.Stored.{StoresOnly};
ghost use Rattle.nv_region.specs.Fuses.{KeepsFuse};
ghost use Rattle.nv_alloc.specs.Taking.{HasBlock};
ghost use Rattle.nv_bytes.specs.Bytes.{byte_after, file_byte};
ghost use Rattle.nv_bytes.specs.Storing.{InBlocks};
ghost use Rattle.nv_region.specs.Stops.{LeavesOnly, NothingPending};
ghost use Rattle.nv_super.specs.Layout.{Layout};
ghost use Rattle.nv_mounted.specs.Held.{Held, Store};
ghost use Rattle.nv_mounted.specs.Blocks.{IsUnowned};
ghost use Rattle.nv_commit.specs.Extends.{CanExtend};
ghost use Rattle.nv_commit.specs.Stopped.{LeavesEither};
ghost use Rattle.nv_logpage.specs.Append.{end_of};
ghost use Rattle.nv_steps.specs.Stores.{StoresIn, one_log};
ghost use Rattle.nv_steps.specs.Written.{Commits, HoldEntries, entry_blocks};
ghost use Rattle.nv_bytes.specs.Data.{data_bytes};
ghost use Rattle.nv_steps.specs.Premises.{CanExtendAt, CanStoreData};

use crate::preparing_data::Entries;
use nv_bytes::{NewBytes, store_pages};
use nv_commit::extend_log;
use nv_entry::Entry;
use nv_radix::FileIndex;
use nv_region::{Pmem, Stopped};
use nv_super::Run;

/// Stores the pages of write entries, as they are with the new bytes, into the entries' blocks. Nothing is fenced.
///
/// `Stopped` where the fuse has burnt. Some of the words may be stored then.
pub(crate) fn store_data<P: Pmem>(
    memory: &mut P,
    index: &FileIndex,
    entries: &[Entry],
    change: &NewBytes,
) -> Result<(), Stopped>
    requires { CanStoreData (P.region memory.old) index.now entries.now change.now.offset (data_bytes change.now.content) }
    ensures stored { OnOk result (HoldEntries (P.region memory.new) (byte_after change.now.offset (data_bytes change.now.content) change.now.size (file_byte (P.region memory.old) index.now))
        entries.now) }
    ensures wrote { StoresOnly (InBlocks (HasBlock (entry_blocks entries.now))) (P.region memory.old) (P.region memory.new) (P.may_hold memory.old) (P.may_hold memory.new) }
    ensures stopped { (P.fuse memory.old).has_burnt ≡ false → is_err result ≡ (P.fuse memory.new).has_burnt }
    ensures keeps_fuse { KeepsFuse (λ limit. size (P.region memory.old) ≤ limit) (P.fuse memory.old) (P.fuse memory.new) }
{
    for entry in entries {
        if let Entry::Write(write) = entry {
            let blocks = Run {
                start: write.block,
                count: u64::from(write.count),
            };
            store_pages(memory, index, write.offset, &[blocks], change)?;
        }
    }
    Ok(())
}

/// Stores the pages of write entries into the entries' blocks, then writes the entries behind the tail of the inode's log, and
/// moves the tail behind them by one store. Answers the new tail.
///
/// `Stopped` where the fuse has burnt: the log then is as it was, or has all of the entries.
pub(crate) fn commit_data<P: Pmem>(
    memory: &mut P,
    index: &FileIndex,
    slot: u64,
    tail: u64,
    log: &Entries,
    change: &NewBytes,
) -> Result<u64, Stopped>
    requires { CanExtendAt (P.region memory.old) slot tail log.now.entries.items log.now.fresh.items
        (CanStoreData (P.region memory.old) index.now log.now.entries.items change.now.offset (data_bytes change.now.content)) }
    ensures end { IfOk result (λ new. new ≡ end_of log.now.fresh.items 0 tail log.now.entries.items) }
    ensures commits { (l : Layout) (inode : ℕ)
        → OnOk result (Commits (P.region memory.old) (P.region memory.new) l inode slot tail
        (byte_after change.now.offset (data_bytes change.now.content) change.now.size (file_byte (P.region memory.old) index.now)) log.now.entries.items log.now.fresh.items) }
    ensures settled { OnOk result (NothingPending (P.region memory.new) (P.may_hold memory.new)) }
    ensures stopped { (P.fuse memory.old).has_burnt ≡ false → is_err result ≡ (P.fuse memory.new).has_burnt }
    ensures length { size (P.region memory.new) ≡ size (P.region memory.old) }
    ensures keeps_fuse { KeepsFuse (λ limit. size (P.region memory.old) ≤ limit) (P.fuse memory.old) (P.fuse memory.new) }
    // Every word outside these places is as it was.
    ensures wrote { (l : Layout) (held : Store) (inode : ℕ) (h : Held) → CanExtend (P.region memory.old) l held inode h slot tail log.now.entries.items log.now.fresh.items
        → ((b : ℕ) → HasBlock (entry_blocks log.now.entries.items) b → IsUnowned l held b)
        → StoresIn l held (one_log l inode) (P.region memory.old) (P.region memory.new) }
    // What a stop leaves, at any exit: the data are stored where nothing is read from, and count once the tail has moved.
    ensures any_stop { (l : Layout) (held : Store) (inode : ℕ) (h : Held) → CanExtend (P.region memory.old) l held inode h slot tail log.now.entries.items log.now.fresh.items
        → ((b : ℕ) → HasBlock (entry_blocks log.now.entries.items) b → IsUnowned l held b)
        → NothingPending (P.region memory.old) (P.may_hold memory.old) → LeavesOnly (P.region memory.new) (P.may_hold memory.new) (LeavesEither (P.region memory.old) l held
        (λ S. Commits (P.region memory.old) S l inode slot tail (byte_after change.now.offset (data_bytes change.now.content) change.now.size (file_byte (P.region memory.old) index.now))
        log.now.entries.items log.now.fresh.items)) }
{
    store_data(memory, index, &log.entries, change)?;
    extend_log(memory, slot, tail, &log.entries, &log.fresh)
}
