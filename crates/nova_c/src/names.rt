//! The calls that make, move and take away names.

ghost use Rattle.std.specs.Prelude.{◌≡◌, ◌≢◌, ℕ, List, Option, false};
ghost use Rattle.nv_super.specs.declared.kind.Kind.TheVariants.{File, Directory};
ghost use Rattle.nv_region.specs.Stops.{LeavesOnly};
ghost use Rattle.nv_tree.specs.Path.{IsPath, Says};
ghost use Rattle.nv_tree.specs.Refusals.{Path, IsRefusedBy};
ghost use Rattle.nv_tree.specs.Tree.{SameTree};
ghost use Rattle.nv_calls.specs.Same.{GrowsMount, KeepsMount, SameMount};
ghost use Rattle.nv_calls.specs.Stopped.{LeavesCall, LeavesGrowing};
ghost use Rattle.nv_lent.specs.WordsState.{as_it_reads};
ghost use Rattle.nova_c.specs.Codes.{TellsRefusal};
ghost use Rattle.nova_c.specs.Handles.{IsClosed, IsOpen, IsRunning, TellsClosed, shown};
ghost use Rattle.nova_c.specs.Refused.{create_refusal, link_refusal, rename_refusal, replace_refusal, rmdir_refusal, unlink_refusal};
ghost use Rattle.nv_calls.specs.Effects.{LogsUnlink, logs_inode, logs_link, logs_removal, logs_rename, logs_replace, makes_inode, makes_link, makes_removal, makes_rename, makes_replace, makes_unlink};

use crate::codes::{CLOSED, DONE, code};
use crate::handle::NovaFs;
use nv_calls::{Cpu, Time};
use std::alloc::Global;

/// Makes a file of this mode, of which the low 12 bits are kept, with one name.
///
/// Statuses, the first that applies: 16 where the handle is closed, 13 where there is no CPU of that number, 10 where the mount
/// has faults, 6 where the text is no path or `/`, 1 or 3 for an inode on the way, 2 where the path leads to an inode, 8 where
/// the CPU's table has no unused slot, in version 1, 7 where too few blocks are free. Besides these 14 where memory was
/// refused. All leave everything as it was.
#[unsafe(no_mangle)]
pub extern "C" fn nova_create(
    alloc: Global,
    fs: &mut NovaFs,
    cpu: u64,
    path: &[u8],
    mode: u32,
    time: u64,
) -> u32
    ensures allowed { IsOpen fs.old → result ≡ 0 → (p : Path) → Says path.now p → create_refusal fs.old.mount cpu p ≡ Option.None }
    ensures refused { IsRunning fs.old → result ≢ 0 → (p : Path) → Says path.now p → TellsRefusal (IsRefusedBy (create_refusal fs.old.mount cpu p)) result }
    ensures changed { IsOpen fs.old → result ≡ 0 → (names : List (List ℕ)) → IsPath path.now names
        → SameTree (shown fs.new.mount) (makes_inode File cpu mode time fs.old.mount.memory fs.old.mount names) }
    ensures logs { IsOpen fs.old → result ≡ 0 → (names : List (List ℕ)) → IsPath path.now names → logs_inode File cpu mode time fs.old.mount.memory fs.old.mount names fs.new.mount.memory }
    ensures unchanged { IsOpen fs.old → result ≢ 0 → SameMount fs.old.mount fs.new.mount }
    ensures runs { IsRunning fs.old → IsRunning fs.new × (result ≢ 15) }
    ensures keeps { IsOpen fs.old → IsOpen fs.new × GrowsMount cpu fs.old.mount fs.new.mount }
    ensures any_stop { IsRunning fs.old → fs.old.mount.read_only ≡ false → (names : List (List ℕ)) → IsPath path.now names
        → LeavesOnly fs.new.mount.memory (as_it_reads fs.new.mount.memory) (LeavesGrowing cpu (makes_inode File cpu mode time) (logs_inode File cpu mode time) fs.old.mount.memory fs.old.mount names) }
    ensures closed { IsClosed fs.old → TellsClosed fs.new result }
{
    match fs.take(alloc) {
        Some(mount) => {
            let mut mount = mount;
            let done = mount.create(Cpu(cpu), path, mode, Time(time));
            fs.put(mount);
            match done {
                Ok(()) => DONE,
                Err(refusal) => code(refusal),
            }
        }
        None => CLOSED,
    }
}

/// Makes a directory of this mode, of which the low 12 bits are kept, with one name.
///
/// Statuses, the first that applies: 16 where the handle is closed, 13 where there is no CPU of that number, 10 where the mount
/// has faults, 6 where the text is no path or `/`, 1 or 3 for an inode on the way, 2 where the path leads to an inode, 8 where
/// the CPU's table has no unused slot, in version 1, 7 where too few blocks are free. Besides these 14 where memory was
/// refused. All leave everything as it was.
#[unsafe(no_mangle)]
pub extern "C" fn nova_mkdir(
    alloc: Global,
    fs: &mut NovaFs,
    cpu: u64,
    path: &[u8],
    mode: u32,
    time: u64,
) -> u32
    ensures allowed { IsOpen fs.old → result ≡ 0 → (p : Path) → Says path.now p → create_refusal fs.old.mount cpu p ≡ Option.None }
    ensures refused { IsRunning fs.old → result ≢ 0 → (p : Path) → Says path.now p → TellsRefusal (IsRefusedBy (create_refusal fs.old.mount cpu p)) result }
    ensures changed { IsOpen fs.old → result ≡ 0 → (names : List (List ℕ)) → IsPath path.now names
        → SameTree (shown fs.new.mount) (makes_inode Directory cpu mode time fs.old.mount.memory fs.old.mount names) }
    ensures logs { IsOpen fs.old → result ≡ 0 → (names : List (List ℕ)) → IsPath path.now names → logs_inode Directory cpu mode time fs.old.mount.memory fs.old.mount names fs.new.mount.memory }
    ensures unchanged { IsOpen fs.old → result ≢ 0 → SameMount fs.old.mount fs.new.mount }
    ensures runs { IsRunning fs.old → IsRunning fs.new × (result ≢ 15) }
    ensures keeps { IsOpen fs.old → IsOpen fs.new × GrowsMount cpu fs.old.mount fs.new.mount }
    ensures any_stop { IsRunning fs.old → fs.old.mount.read_only ≡ false → (names : List (List ℕ)) → IsPath path.now names
        → LeavesOnly fs.new.mount.memory (as_it_reads fs.new.mount.memory) (LeavesGrowing cpu (makes_inode Directory cpu mode time)
        (logs_inode Directory cpu mode time) fs.old.mount.memory fs.old.mount names) }
    ensures closed { IsClosed fs.old → TellsClosed fs.new result }
{
    match fs.take(alloc) {
        Some(mount) => {
            let mut mount = mount;
            let done = mount.mkdir(Cpu(cpu), path, mode, Time(time));
            fs.put(mount);
            match done {
                Ok(()) => DONE,
                Err(refusal) => code(refusal),
            }
        }
        None => CLOSED,
    }
}

/// Gives the file that a path leads to one name more, which the other path says.
///
/// Statuses, the first that applies: 16 where the handle is closed, 13 where there is no CPU of that number, 10 where the mount
/// has faults, 6 where the first text is no path or the second no path or `/`, 1 or 3 for an inode on the first way and then on
/// the second, 1 where the first path leads to no inode, 4 where it leads to a directory, 2 where the second leads to an inode,
/// 11 where the file has 1,000 links, 7 where too few blocks are free. Besides these 14 where memory was refused. All leave
/// everything as it was.
#[unsafe(no_mangle)]
pub extern "C" fn nova_link(
    alloc: Global,
    fs: &mut NovaFs,
    cpu: u64,
    path: &[u8],
    other: &[u8],
    time: u64,
) -> u32
    ensures allowed { IsOpen fs.old → result ≡ 0 → (p q : Path) → Says path.now p → Says other.now q → link_refusal fs.old.mount cpu p q ≡ Option.None }
    ensures refused { IsRunning fs.old → result ≢ 0 → (p q : Path) → Says path.now p → Says other.now q → TellsRefusal (IsRefusedBy (link_refusal fs.old.mount cpu p q)) result }
    ensures changed { IsOpen fs.old → result ≡ 0 → (names others : List (List ℕ)) → IsPath path.now names → IsPath other.now others
        → SameTree (shown fs.new.mount) (makes_link time (Option.Some others) fs.old.mount.memory fs.old.mount names) }
    ensures logs { IsOpen fs.old → result ≡ 0 → (names others : List (List ℕ)) → IsPath path.now names → IsPath other.now others
        → logs_link cpu time (Option.Some others) fs.old.mount.memory fs.old.mount names fs.new.mount.memory }
    ensures unchanged { IsOpen fs.old → result ≢ 0 → SameMount fs.old.mount fs.new.mount }
    ensures runs { IsRunning fs.old → IsRunning fs.new × (result ≢ 15) }
    ensures keeps { IsOpen fs.old → IsOpen fs.new × KeepsMount fs.old.mount fs.new.mount }
    ensures any_stop { IsRunning fs.old → fs.old.mount.read_only ≡ false → (names others : List (List ℕ)) → IsPath path.now names → IsPath other.now others
        → LeavesOnly fs.new.mount.memory (as_it_reads fs.new.mount.memory) (LeavesCall (makes_link time (Option.Some others))
        (logs_link cpu time (Option.Some others)) fs.old.mount.memory fs.old.mount names) }
    ensures closed { IsClosed fs.old → TellsClosed fs.new result }
{
    match fs.take(alloc) {
        Some(mount) => {
            let mut mount = mount;
            let done = mount.link(Cpu(cpu), path, other, Time(time));
            fs.put(mount);
            match done {
                Ok(()) => DONE,
                Err(refusal) => code(refusal),
            }
        }
        None => CLOSED,
    }
}

/// Takes a name of a file away, and with the last one the file.
///
/// Statuses, the first that applies: 16 where the handle is closed, 13 where there is no CPU of that number, 10 where the mount
/// has faults, 6 where the text is no path or `/`, 1 or 3 for an inode on the way, 1 for the last name, 4 for a directory, 7
/// where too few blocks are free. Besides these 14 where memory was refused. All leave everything as it was.
#[unsafe(no_mangle)]
pub extern "C" fn nova_unlink(
    alloc: Global,
    fs: &mut NovaFs,
    cpu: u64,
    path: &[u8],
    time: u64,
) -> u32
    ensures allowed { IsOpen fs.old → result ≡ 0 → (p : Path) → Says path.now p → unlink_refusal fs.old.mount cpu p ≡ Option.None }
    ensures refused { IsRunning fs.old → result ≢ 0 → (p : Path) → Says path.now p → TellsRefusal (IsRefusedBy (unlink_refusal fs.old.mount cpu p)) result }
    ensures changed { IsOpen fs.old → result ≡ 0 → (names : List (List ℕ)) → IsPath path.now names → SameTree (shown fs.new.mount) (makes_unlink time fs.old.mount.memory fs.old.mount names) }
    ensures logs { IsOpen fs.old → result ≡ 0 → (names : List (List ℕ)) → IsPath path.now names → LogsUnlink cpu time fs.old.mount.memory fs.old.mount names fs.new.mount.memory }
    ensures unchanged { IsOpen fs.old → result ≢ 0 → SameMount fs.old.mount fs.new.mount }
    ensures runs { IsRunning fs.old → IsRunning fs.new × (result ≢ 15) }
    ensures keeps { IsOpen fs.old → IsOpen fs.new × KeepsMount fs.old.mount fs.new.mount }
    ensures any_stop { IsRunning fs.old → fs.old.mount.read_only ≡ false → (names : List (List ℕ)) → IsPath path.now names
        → LeavesOnly fs.new.mount.memory (as_it_reads fs.new.mount.memory) (LeavesCall (makes_unlink time) (LogsUnlink cpu time) fs.old.mount.memory fs.old.mount names) }
    ensures closed { IsClosed fs.old → TellsClosed fs.new result }
{
    match fs.take(alloc) {
        Some(mount) => {
            let mut mount = mount;
            let done = mount.unlink(Cpu(cpu), path, Time(time));
            fs.put(mount);
            match done {
                Ok(()) => DONE,
                Err(refusal) => code(refusal),
            }
        }
        None => CLOSED,
    }
}

/// Takes a directory away that has no names.
///
/// Statuses, the first that applies: 16 where the handle is closed, 13 where there is no CPU of that number, 10 where the mount
/// has faults, 6 where the text is no path or `/`, 1 or 3 for an inode on the way, 1 for the last name, 3 for a file, 5 where
/// names are in it, 7 where too few blocks are free. Besides these 14 where memory was refused. All leave everything as it was.
#[unsafe(no_mangle)]
pub extern "C" fn nova_rmdir(
    alloc: Global,
    fs: &mut NovaFs,
    cpu: u64,
    path: &[u8],
    time: u64,
) -> u32
    ensures allowed { IsOpen fs.old → result ≡ 0 → (p : Path) → Says path.now p → rmdir_refusal fs.old.mount cpu p ≡ Option.None }
    ensures refused { IsRunning fs.old → result ≢ 0 → (p : Path) → Says path.now p → TellsRefusal (IsRefusedBy (rmdir_refusal fs.old.mount cpu p)) result }
    ensures changed { IsOpen fs.old → result ≡ 0 → (names : List (List ℕ)) → IsPath path.now names → SameTree (shown fs.new.mount) (makes_removal time fs.old.mount.memory fs.old.mount names) }
    ensures logs { IsOpen fs.old → result ≡ 0 → (names : List (List ℕ)) → IsPath path.now names → logs_removal cpu time fs.old.mount.memory fs.old.mount names fs.new.mount.memory }
    ensures unchanged { IsOpen fs.old → result ≢ 0 → SameMount fs.old.mount fs.new.mount }
    ensures runs { IsRunning fs.old → IsRunning fs.new × (result ≢ 15) }
    ensures keeps { IsOpen fs.old → IsOpen fs.new × KeepsMount fs.old.mount fs.new.mount }
    ensures any_stop { IsRunning fs.old → fs.old.mount.read_only ≡ false → (names : List (List ℕ)) → IsPath path.now names
        → LeavesOnly fs.new.mount.memory (as_it_reads fs.new.mount.memory) (LeavesCall (makes_removal time) (logs_removal cpu time) fs.old.mount.memory fs.old.mount names) }
    ensures closed { IsClosed fs.old → TellsClosed fs.new result }
{
    match fs.take(alloc) {
        Some(mount) => {
            let mut mount = mount;
            let done = mount.rmdir(Cpu(cpu), path, Time(time));
            fs.put(mount);
            match done {
                Ok(()) => DONE,
                Err(refusal) => code(refusal),
            }
        }
        None => CLOSED,
    }
}

/// Gives the inode that a path leads to the name that the other path says, in place of its old one.
///
/// Statuses, the first that applies: 16 where the handle is closed, 13 where there is no CPU of that number, 10 where the mount
/// has faults, 6 where a text is no path or `/`, 1 or 3 for an inode on the first way and then on the second, 1 where the first
/// path leads to no inode, 12 where it leads to a directory that the second way passes, 2 where the second leads to an inode, 7
/// where too few blocks are free. Besides these 14 where memory was refused. All leave everything as it was.
#[unsafe(no_mangle)]
pub extern "C" fn nova_rename(
    alloc: Global,
    fs: &mut NovaFs,
    cpu: u64,
    path: &[u8],
    other: &[u8],
    time: u64,
) -> u32
    ensures allowed { IsOpen fs.old → result ≡ 0 → (p q : Path) → Says path.now p → Says other.now q → rename_refusal fs.old.mount cpu p q ≡ Option.None }
    ensures refused { IsRunning fs.old → result ≢ 0 → (p q : Path) → Says path.now p → Says other.now q → TellsRefusal (IsRefusedBy (rename_refusal fs.old.mount cpu p q)) result }
    ensures changed { IsOpen fs.old → result ≡ 0 → (names others : List (List ℕ)) → IsPath path.now names → IsPath other.now others
        → SameTree (shown fs.new.mount) (makes_rename time (Option.Some others) fs.old.mount.memory fs.old.mount names) }
    ensures logs { IsOpen fs.old → result ≡ 0 → (names others : List (List ℕ)) → IsPath path.now names → IsPath other.now others
        → logs_rename cpu time (Option.Some others) fs.old.mount.memory fs.old.mount names fs.new.mount.memory }
    ensures unchanged { IsOpen fs.old → result ≢ 0 → SameMount fs.old.mount fs.new.mount }
    ensures runs { IsRunning fs.old → IsRunning fs.new × (result ≢ 15) }
    ensures keeps { IsOpen fs.old → IsOpen fs.new × KeepsMount fs.old.mount fs.new.mount }
    ensures any_stop { IsRunning fs.old → fs.old.mount.read_only ≡ false → (names others : List (List ℕ)) → IsPath path.now names → IsPath other.now others
        → LeavesOnly fs.new.mount.memory (as_it_reads fs.new.mount.memory) (LeavesCall (makes_rename time (Option.Some others))
        (logs_rename cpu time (Option.Some others)) fs.old.mount.memory fs.old.mount names) }
    ensures closed { IsClosed fs.old → TellsClosed fs.new result }
{
    match fs.take(alloc) {
        Some(mount) => {
            let mut mount = mount;
            let done = mount.rename(Cpu(cpu), path, other, Time(time));
            fs.put(mount);
            match done {
                Ok(()) => DONE,
                Err(refusal) => code(refusal),
            }
        }
        None => CLOSED,
    }
}

/// Gives the inode that a path leads to the name that the other path says, in place of its old one, and in place of another inode
/// that has it: that one goes where it is a directory or has no further name, and else loses a link. Where both paths lead to one
/// inode, nothing changes.
///
/// Statuses, the first that applies: 16 where the handle is closed, 13 where there is no CPU of that number, 10 where the mount
/// has faults, 6 where a text is no path or `/`, 1 or 3 for an inode on the first way and then on the second, 1 where the first
/// path leads to no inode, 12 where it leads to a directory that the second way passes, 4 where the second leads to a directory
/// and the first to a file, 3 where it is the other way round, 5 where the second leads to another inode, which has names, 7
/// where too few blocks are free. Besides these 14 where memory was refused. All leave everything as it was.
#[unsafe(no_mangle)]
pub extern "C" fn nova_replace(
    alloc: Global,
    fs: &mut NovaFs,
    cpu: u64,
    path: &[u8],
    other: &[u8],
    time: u64,
) -> u32
    ensures allowed { IsOpen fs.old → result ≡ 0 → (p q : Path) → Says path.now p → Says other.now q → replace_refusal fs.old.mount cpu p q ≡ Option.None }
    ensures refused { IsRunning fs.old → result ≢ 0 → (p q : Path) → Says path.now p → Says other.now q → TellsRefusal (IsRefusedBy (replace_refusal fs.old.mount cpu p q)) result }
    ensures changed { IsOpen fs.old → result ≡ 0 → (names others : List (List ℕ)) → IsPath path.now names → IsPath other.now others
        → SameTree (shown fs.new.mount) (makes_replace time (Option.Some others) fs.old.mount.memory fs.old.mount names) }
    ensures logs { IsOpen fs.old → result ≡ 0 → (names others : List (List ℕ)) → IsPath path.now names → IsPath other.now others
        → logs_replace cpu time (Option.Some others) fs.old.mount.memory fs.old.mount names fs.new.mount.memory }
    ensures unchanged { IsOpen fs.old → result ≢ 0 → SameMount fs.old.mount fs.new.mount }
    ensures runs { IsRunning fs.old → IsRunning fs.new × (result ≢ 15) }
    ensures keeps { IsOpen fs.old → IsOpen fs.new × KeepsMount fs.old.mount fs.new.mount }
    ensures any_stop { IsRunning fs.old → fs.old.mount.read_only ≡ false → (names others : List (List ℕ)) → IsPath path.now names → IsPath other.now others
        → LeavesOnly fs.new.mount.memory (as_it_reads fs.new.mount.memory) (LeavesCall (makes_replace time (Option.Some others))
        (logs_replace cpu time (Option.Some others)) fs.old.mount.memory fs.old.mount names) }
    ensures closed { IsClosed fs.old → TellsClosed fs.new result }
{
    match fs.take(alloc) {
        Some(mount) => {
            let mut mount = mount;
            let done = mount.replace(Cpu(cpu), path, other, Time(time));
            fs.put(mount);
            match done {
                Ok(()) => DONE,
                Err(refusal) => code(refusal),
            }
        }
        None => CLOSED,
    }
}
