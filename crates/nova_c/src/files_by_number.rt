//! The calls that change what an inode holds, for its number in place of a path: also of one that no path leads to.

ghost use Rattle.std.specs.Prelude.{◌≡◌, ◌≢◌, ◌+◌, ℕ, Option, false, length};
ghost use Rattle.nv_region.specs.Stops.{LeavesOnly};
ghost use Rattle.nv_tree.specs.Calls.{edit, with_attributes, with_size};
ghost use Rattle.nv_tree.specs.Refusals.{IsRefusedBy};
ghost use Rattle.nv_tree.specs.Tree.{SameTree};
ghost use Rattle.nv_calls.specs.ChangesByNumber.{LogsInodeBytes, WriteInodeNeeds, logs_inode_attributes, logs_inode_size, written_inode};
ghost use Rattle.nv_calls.specs.Same.{KeepsMount, SameMount};
ghost use Rattle.nv_calls.specs.Stopped.{StopLeaves};
ghost use Rattle.nv_lent.specs.WordsState.{as_it_reads};
ghost use Rattle.nova_c.specs.Codes.{TellsRefusal};
ghost use Rattle.nova_c.specs.Handles.{IsClosed, IsOpen, IsRunning, TellsClosed, shown};
ghost use Rattle.nova_c.specs.Refused.{set_attr_inode_refusal, set_size_inode_refusal, write_inode_refusal};

use crate::codes::{CLOSED, DONE, code};
use crate::handle::NovaFs;
use nv_calls::{Cpu, Time};
use std::alloc::Global;

/// Writes bytes into the file of this number, as `nova_write` does.
///
/// Statuses, the first that applies: 16 where the handle is closed, 13 where there is no CPU of that number, 10 where the mount
/// has faults, 1 where no inode in use has the number, 4 for a directory, 9 where the bytes would end behind
/// 1,073,741,824, 7 where too few blocks are free. Besides these 14 where memory was refused. All leave everything as it was.
#[unsafe(no_mangle)]
pub extern "C" fn nova_write_inode(
    alloc: Global,
    fs: &mut NovaFs,
    cpu: u64,
    inode: u64,
    offset: u64,
    bytes: &[u8],
    time: u64,
) -> u32
    ensures allowed { IsOpen fs.old → result ≡ 0 → (blocks : ℕ) → WriteInodeNeeds fs.old.mount cpu inode offset (length bytes.now) time blocks
        → write_inode_refusal fs.old.mount cpu inode (offset + length bytes.now) blocks ≡ Option.None }
    ensures refused { IsRunning fs.old → result ≢ 0 → (blocks : ℕ) → WriteInodeNeeds fs.old.mount cpu inode offset (length bytes.now) time blocks
        → TellsRefusal (IsRefusedBy (write_inode_refusal fs.old.mount cpu inode (offset + length bytes.now) blocks)) result }
    ensures changed { IsOpen fs.old → result ≡ 0 → SameTree (shown fs.new.mount) (written_inode inode offset bytes.now time (shown fs.old.mount)) }
    ensures logs { IsOpen fs.old → result ≡ 0 → LogsInodeBytes cpu offset (length bytes.now) time inode fs.old.mount.memory fs.old.mount fs.new.mount.memory }
    ensures unchanged { IsOpen fs.old → result ≢ 0 → SameMount fs.old.mount fs.new.mount }
    ensures runs { IsRunning fs.old → IsRunning fs.new × (result ≢ 15) }
    ensures keeps { IsOpen fs.old → IsOpen fs.new × KeepsMount fs.old.mount fs.new.mount }
    ensures any_stop { IsRunning fs.old → fs.old.mount.read_only ≡ false
        → LeavesOnly fs.new.mount.memory (as_it_reads fs.new.mount.memory) (StopLeaves fs.old.mount.memory fs.old.mount.layout fs.old.mount.rows fs.old.mount.free.pools
        (written_inode inode offset bytes.now time (shown fs.old.mount)) (LogsInodeBytes cpu offset (length bytes.now) time inode fs.old.mount.memory fs.old.mount)) }
    ensures closed { IsClosed fs.old → TellsClosed fs.new result }
{
    match fs.take(alloc) {
        Some(mount) => {
            let mut mount = mount;
            let done = mount.write_inode(Cpu(cpu), inode, offset, bytes, Time(time));
            fs.put(mount);
            match done {
                Ok(()) => DONE,
                Err(refusal) => code(refusal),
            }
        }
        None => CLOSED,
    }
}

/// Sets the size of the file of this number, as `nova_set_size` does.
///
/// Statuses, the first that applies: 16 where the handle is closed, 13 where there is no CPU of that number, 10 where the mount
/// has faults, 1 where no inode in use has the number, 4 for a directory, 9 above
/// 1,073,741,824 bytes, 7 where too few blocks are free. Besides these 14 where memory was refused. All leave everything as it was.
#[unsafe(no_mangle)]
pub extern "C" fn nova_set_size_inode(
    alloc: Global,
    fs: &mut NovaFs,
    cpu: u64,
    inode: u64,
    size: u64,
    time: u64,
) -> u32
    ensures allowed { IsOpen fs.old → result ≡ 0 → set_size_inode_refusal fs.old.mount cpu inode size ≡ Option.None }
    ensures refused { IsRunning fs.old → result ≢ 0 → TellsRefusal (IsRefusedBy (set_size_inode_refusal fs.old.mount cpu inode size)) result }
    ensures changed { IsOpen fs.old → result ≡ 0 → SameTree (shown fs.new.mount) (edit inode (with_size size time) (shown fs.old.mount)) }
    ensures logs { IsOpen fs.old → result ≡ 0 → logs_inode_size cpu size time inode fs.old.mount.memory fs.old.mount fs.new.mount.memory }
    ensures unchanged { IsOpen fs.old → result ≢ 0 → SameMount fs.old.mount fs.new.mount }
    ensures runs { IsRunning fs.old → IsRunning fs.new × (result ≢ 15) }
    ensures keeps { IsOpen fs.old → IsOpen fs.new × KeepsMount fs.old.mount fs.new.mount }
    ensures any_stop { IsRunning fs.old → fs.old.mount.read_only ≡ false
        → LeavesOnly fs.new.mount.memory (as_it_reads fs.new.mount.memory) (StopLeaves fs.old.mount.memory fs.old.mount.layout fs.old.mount.rows fs.old.mount.free.pools
        (edit inode (with_size size time) (shown fs.old.mount)) (logs_inode_size cpu size time inode fs.old.mount.memory fs.old.mount)) }
    ensures closed { IsClosed fs.old → TellsClosed fs.new result }
{
    match fs.take(alloc) {
        Some(mount) => {
            let mut mount = mount;
            let done = mount.set_size_inode(Cpu(cpu), inode, size, Time(time));
            fs.put(mount);
            match done {
                Ok(()) => DONE,
                Err(refusal) => code(refusal),
            }
        }
        None => CLOSED,
    }
}

/// Sets the mode, the owner, the group and the time of the inode of this number.
///
/// Statuses, the first that applies: 16 where the handle is closed, 13 where there is no CPU of that number, 10 where the mount
/// has faults, 1 where no inode in use has the number, 7 where too few blocks are free. Besides these 14 where
/// memory was refused. All leave everything as it was.
#[unsafe(no_mangle)]
pub extern "C" fn nova_set_attr_inode(
    alloc: Global,
    fs: &mut NovaFs,
    cpu: u64,
    inode: u64,
    mode: u32,
    owner: u32,
    group: u32,
    time: u64,
) -> u32
    ensures allowed { IsOpen fs.old → result ≡ 0 → set_attr_inode_refusal fs.old.mount cpu inode ≡ Option.None }
    ensures refused { IsRunning fs.old → result ≢ 0 → TellsRefusal (IsRefusedBy (set_attr_inode_refusal fs.old.mount cpu inode)) result }
    ensures changed { IsOpen fs.old → result ≡ 0 → SameTree (shown fs.new.mount) (edit inode (with_attributes mode owner group time) (shown fs.old.mount)) }
    ensures logs { IsOpen fs.old → result ≡ 0 → logs_inode_attributes cpu mode owner group time inode fs.old.mount.memory fs.old.mount fs.new.mount.memory }
    ensures unchanged { IsOpen fs.old → result ≢ 0 → SameMount fs.old.mount fs.new.mount }
    ensures runs { IsRunning fs.old → IsRunning fs.new × (result ≢ 15) }
    ensures keeps { IsOpen fs.old → IsOpen fs.new × KeepsMount fs.old.mount fs.new.mount }
    ensures any_stop { IsRunning fs.old → fs.old.mount.read_only ≡ false
        → LeavesOnly fs.new.mount.memory (as_it_reads fs.new.mount.memory) (StopLeaves fs.old.mount.memory fs.old.mount.layout fs.old.mount.rows fs.old.mount.free.pools
        (edit inode (with_attributes mode owner group time) (shown fs.old.mount)) (logs_inode_attributes cpu mode owner group time inode fs.old.mount.memory fs.old.mount)) }
    ensures closed { IsClosed fs.old → TellsClosed fs.new result }
{
    match fs.take(alloc) {
        Some(mount) => {
            let mut mount = mount;
            let done = mount.set_attr_inode(Cpu(cpu), inode, mode, owner, group, Time(time));
            fs.put(mount);
            match done {
                Ok(()) => DONE,
                Err(refusal) => code(refusal),
            }
        }
        None => CLOSED,
    }
}
