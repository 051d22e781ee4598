//! The calls that change what an inode holds: its bytes, its size, its attributes.

ghost use Rattle.std.specs.Prelude.{◌≡◌, ◌≢◌, ◌+◌, ℕ, List, Option, false, length};
ghost use Rattle.nv_region.specs.Stops.{LeavesOnly};
ghost use Rattle.nv_tree.specs.Path.{IsPath, Says};
ghost use Rattle.nv_tree.specs.Refusals.{Path, IsRefusedBy};
ghost use Rattle.nv_tree.specs.Tree.{SameTree};
ghost use Rattle.nv_calls.specs.Same.{KeepsMount, SameMount};
ghost use Rattle.nv_calls.specs.Stopped.{LeavesCall};
ghost use Rattle.nv_lent.specs.WordsState.{as_it_reads};
ghost use Rattle.nova_c.specs.Codes.{TellsRefusal};
ghost use Rattle.nova_c.specs.Handles.{IsClosed, IsOpen, IsRunning, TellsClosed, shown};
ghost use Rattle.nova_c.specs.Refused.{set_attr_refusal, set_size_refusal, write_refusal};
ghost use Rattle.nv_calls.specs.Effects.{LogsBytes, logs_attributes, logs_size, makes_attributes, makes_bytes, makes_size};
ghost use Rattle.nv_calls.specs.WriteCall.{WriteNeeds};

use crate::codes::{CLOSED, DONE, code};
use crate::handle::NovaFs;
use nv_calls::{Cpu, Time};
use std::alloc::Global;

/// Writes bytes into a file, from an offset on. A gap between the old end and the offset is zeros. No bytes change nothing.
///
/// Statuses, the first that applies: 16 where the handle is closed, 13 where there is no CPU of that number, 10 where the mount
/// has faults, 6 where the text is no path, 1 or 3 for an inode on the way, 1 for the last name, 4 for a directory, 9 where the
/// bytes would end behind 1,073,741,824, 7 where too few blocks are free. Besides these 14 where memory was refused. All leave
/// everything as it was.
#[unsafe(no_mangle)]
pub extern "C" fn nova_write(
    alloc: Global,
    fs: &mut NovaFs,
    cpu: u64,
    path: &[u8],
    offset: u64,
    bytes: &[u8],
    time: u64,
) -> u32
    ensures allowed { IsOpen fs.old → result ≡ 0 → (p : Path) (blocks : ℕ) → Says path.now p → WriteNeeds fs.old.mount.memory fs.old.mount cpu p offset (length bytes.now) time blocks
        → write_refusal fs.old.mount cpu p (offset + length bytes.now) blocks ≡ Option.None }
    ensures refused { IsRunning fs.old → result ≢ 0 → (p : Path) (blocks : ℕ) → Says path.now p → WriteNeeds fs.old.mount.memory fs.old.mount cpu p offset (length bytes.now) time blocks
        → TellsRefusal (IsRefusedBy (write_refusal fs.old.mount cpu p (offset + length bytes.now) blocks)) result }
    ensures changed { IsOpen fs.old → result ≡ 0 → (names : List (List ℕ)) → IsPath path.now names
        → SameTree (shown fs.new.mount) (makes_bytes offset bytes.now time fs.old.mount.memory fs.old.mount names) }
    ensures logs { IsOpen fs.old → result ≡ 0 → (names : List (List ℕ)) → IsPath path.now names
        → LogsBytes cpu offset (length bytes.now) time fs.old.mount.memory fs.old.mount names fs.new.mount.memory }
    ensures unchanged { IsOpen fs.old → result ≢ 0 → SameMount fs.old.mount fs.new.mount }
    ensures runs { IsRunning fs.old → IsRunning fs.new × (result ≢ 15) }
    ensures keeps { IsOpen fs.old → IsOpen fs.new × KeepsMount fs.old.mount fs.new.mount }
    ensures any_stop { IsRunning fs.old → fs.old.mount.read_only ≡ false → (names : List (List ℕ)) → IsPath path.now names
        → LeavesOnly fs.new.mount.memory (as_it_reads fs.new.mount.memory) (LeavesCall (makes_bytes offset bytes.now time)
        (LogsBytes cpu offset (length bytes.now) time) fs.old.mount.memory fs.old.mount names) }
    ensures closed { IsClosed fs.old → TellsClosed fs.new result }
{
    match fs.take(alloc) {
        Some(mount) => {
            let mut mount = mount;
            let done = mount.write(Cpu(cpu), path, offset, bytes, Time(time));
            fs.put(mount);
            match done {
                Ok(()) => DONE,
                Err(refusal) => code(refusal),
            }
        }
        None => CLOSED,
    }
}

/// Sets the size of a file, in bytes, and its time: it is cut, or lengthened by zeros.
///
/// Statuses, the first that applies: 16 where the handle is closed, 13 where there is no CPU of that number, 10 where the mount
/// has faults, 6 where the text is no path, 1 or 3 for an inode on the way, 1 for the last name, 4 for a directory, 9 above
/// 1,073,741,824 bytes, 7 where too few blocks are free. Besides these 14 where memory was refused. All leave everything as it
/// was.
#[unsafe(no_mangle)]
pub extern "C" fn nova_set_size(
    alloc: Global,
    fs: &mut NovaFs,
    cpu: u64,
    path: &[u8],
    size: u64,
    time: u64,
) -> u32
    ensures allowed { IsOpen fs.old → result ≡ 0 → (p : Path) → Says path.now p → set_size_refusal fs.old.mount cpu p size ≡ Option.None }
    ensures refused { IsRunning fs.old → result ≢ 0 → (p : Path) → Says path.now p → TellsRefusal (IsRefusedBy (set_size_refusal fs.old.mount cpu p size)) result }
    ensures changed { IsOpen fs.old → result ≡ 0 → (names : List (List ℕ)) → IsPath path.now names → SameTree (shown fs.new.mount) (makes_size size time fs.old.mount.memory fs.old.mount names) }
    ensures logs { IsOpen fs.old → result ≡ 0 → (names : List (List ℕ)) → IsPath path.now names → logs_size cpu size time fs.old.mount.memory fs.old.mount names fs.new.mount.memory }
    ensures unchanged { IsOpen fs.old → result ≢ 0 → SameMount fs.old.mount fs.new.mount }
    ensures runs { IsRunning fs.old → IsRunning fs.new × (result ≢ 15) }
    ensures keeps { IsOpen fs.old → IsOpen fs.new × KeepsMount fs.old.mount fs.new.mount }
    ensures any_stop { IsRunning fs.old → fs.old.mount.read_only ≡ false → (names : List (List ℕ)) → IsPath path.now names
        → LeavesOnly fs.new.mount.memory (as_it_reads fs.new.mount.memory) (LeavesCall (makes_size size time) (logs_size cpu size time) fs.old.mount.memory fs.old.mount names) }
    ensures closed { IsClosed fs.old → TellsClosed fs.new result }
{
    match fs.take(alloc) {
        Some(mount) => {
            let mut mount = mount;
            let done = mount.set_size(Cpu(cpu), path, size, Time(time));
            fs.put(mount);
            match done {
                Ok(()) => DONE,
                Err(refusal) => code(refusal),
            }
        }
        None => CLOSED,
    }
}

/// Sets the mode, the owner, the group and the time of an inode.
///
/// Statuses, the first that applies: 16 where the handle is closed, 13 where there is no CPU of that number, 10 where the mount
/// has faults, 6 where the text is no path, 1 or 3 for an inode on the way, 1 for the last name, 7 where too few blocks are
/// free. Besides these 14 where memory was refused. All leave everything as it was.
#[unsafe(no_mangle)]
pub extern "C" fn nova_set_attr(
    alloc: Global,
    fs: &mut NovaFs,
    cpu: u64,
    path: &[u8],
    mode: u32,
    owner: u32,
    group: u32,
    time: u64,
) -> u32
    ensures allowed { IsOpen fs.old → result ≡ 0 → (p : Path) → Says path.now p → set_attr_refusal fs.old.mount cpu p ≡ Option.None }
    ensures refused { IsRunning fs.old → result ≢ 0 → (p : Path) → Says path.now p → TellsRefusal (IsRefusedBy (set_attr_refusal fs.old.mount cpu p)) result }
    ensures changed { IsOpen fs.old → result ≡ 0 → (names : List (List ℕ)) → IsPath path.now names
        → SameTree (shown fs.new.mount) (makes_attributes mode owner group time fs.old.mount.memory fs.old.mount names) }
    ensures logs { IsOpen fs.old → result ≡ 0 → (names : List (List ℕ)) → IsPath path.now names → logs_attributes cpu mode owner group time fs.old.mount.memory fs.old.mount names fs.new.mount.memory }
    ensures unchanged { IsOpen fs.old → result ≢ 0 → SameMount fs.old.mount fs.new.mount }
    ensures runs { IsRunning fs.old → IsRunning fs.new × (result ≢ 15) }
    ensures keeps { IsOpen fs.old → IsOpen fs.new × KeepsMount fs.old.mount fs.new.mount }
    ensures any_stop { IsRunning fs.old → fs.old.mount.read_only ≡ false → (names : List (List ℕ)) → IsPath path.now names
        → LeavesOnly fs.new.mount.memory (as_it_reads fs.new.mount.memory) (LeavesCall (makes_attributes mode owner group time)
        (logs_attributes cpu mode owner group time) fs.old.mount.memory fs.old.mount names) }
    ensures closed { IsClosed fs.old → TellsClosed fs.new result }
{
    match fs.take(alloc) {
        Some(mount) => {
            let mut mount = mount;
            let done = mount.set_attr(Cpu(cpu), path, mode, owner, group, Time(time));
            fs.put(mount);
            match done {
                Ok(()) => DONE,
                Err(refusal) => code(refusal),
            }
        }
        None => CLOSED,
    }
}
