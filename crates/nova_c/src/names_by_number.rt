//! The calls that make and take away names, for the number of a directory and a name of it in place of a path.

ghost use Rattle.std.specs.Prelude.{◌≡◌, ◌≢◌, Option, false};
ghost use Rattle.nv_super.specs.declared.kind.Kind.TheVariants.{File, Directory};
ghost use Rattle.nv_region.specs.Stops.{LeavesOnly};
ghost use Rattle.nv_tree.specs.Refusals.{IsRefusedBy};
ghost use Rattle.nv_tree.specs.Tree.{SameTree};
ghost use Rattle.nv_paths.specs.Spots.{new_number};
ghost use Rattle.nv_calls.specs.NamesByNumber.{LogsUnlinkedIn, created_in, linked_in, logs_created_in, logs_linked_in, logs_removed_in, removed_in, unlinked_in};
ghost use Rattle.nv_calls.specs.Same.{GrowsMount, KeepsMount, SameMount};
ghost use Rattle.nv_calls.specs.Stopped.{StopGrows, StopLeaves};
ghost use Rattle.nv_lent.specs.WordsState.{as_it_reads};
ghost use Rattle.nova_c.specs.Codes.{TellsRefusal};
ghost use Rattle.nova_c.specs.Handles.{IsClosed, IsOpen, IsRunning, TellsClosed, shown};
ghost use Rattle.nova_c.specs.NewInodes.{MakesInodeIn};
ghost use Rattle.nova_c.specs.Refused.{create_inode_refusal, link_inode_refusal, rmdir_inode_refusal, unlink_inode_refusal};

use crate::codes::{CLOSED, DONE, code};
use crate::handle::NovaFs;
use nv_calls::{Cpu, Time};
use std::alloc::Global;

/// Makes a file of this mode, of which the low 12 bits are kept, with this name in the directory of this number. `inode`
/// says the new number.
///
/// Statuses, the first that applies, with `inode` as before: 16 where the handle is closed, 13 where there is no CPU of that
/// number, 10 where the mount has faults, 6 where no path can say the name, 1 where no inode in use has the directory's number and
/// 3 where a file has it, 2 where an inode in use has the name, 8 where the CPU's table has no unused slot, in version 1, 7 where
/// too few blocks are free. Besides these 14 where memory was refused. All leave everything as it was.
#[unsafe(no_mangle)]
pub extern "C" fn nova_create_inode(
    alloc: Global,
    fs: &mut NovaFs,
    cpu: u64,
    directory: u64,
    name: &[u8],
    mode: u32,
    time: u64,
    inode: &mut u64,
) -> u32
    ensures allowed { IsOpen fs.old → result ≡ 0 → create_inode_refusal fs.old.mount cpu directory name.now ≡ Option.None }
    ensures refused { IsRunning fs.old → result ≢ 0 → TellsRefusal (IsRefusedBy (create_inode_refusal fs.old.mount cpu directory name.now)) result }
    ensures made { IsOpen fs.old → result ≡ 0 → MakesInodeIn File cpu mode time directory name.now fs.old.mount fs.new.mount inode.new }
    ensures unchanged { IsOpen fs.old → result ≢ 0 → SameMount fs.old.mount fs.new.mount }
    ensures untouched { result ≢ 0 → inode.new ≡ inode.old }
    ensures runs { IsRunning fs.old → IsRunning fs.new × (result ≢ 15) }
    ensures keeps { IsOpen fs.old → IsOpen fs.new × GrowsMount cpu fs.old.mount fs.new.mount }
    ensures any_stop { IsRunning fs.old → fs.old.mount.read_only ≡ false
        → LeavesOnly fs.new.mount.memory (as_it_reads fs.new.mount.memory) (StopGrows cpu fs.old.mount.memory fs.old.mount
        (created_in File (new_number fs.old.mount.layout fs.old.mount.rows cpu) directory name.now mode time (shown fs.old.mount))
        (logs_created_in File cpu mode time directory name.now fs.old.mount.memory fs.old.mount)) }
    ensures closed { IsClosed fs.old → TellsClosed fs.new result }
{
    match fs.take(alloc) {
        Some(mount) => {
            let mut mount = mount;
            let done = mount.create_inode(Cpu(cpu), directory, name, mode, Time(time));
            fs.put(mount);
            match done {
                Ok(number) => {
                    *inode = number;
                    DONE
                }
                Err(refusal) => code(refusal),
            }
        }
        None => CLOSED,
    }
}

/// Makes a directory of this mode, of which the low 12 bits are kept, with this name in the directory of this number. `inode`
/// says the new number.
///
/// Statuses, the first that applies, with `inode` as before: 16 where the handle is closed, 13 where there is no CPU of that
/// number, 10 where the mount has faults, 6 where no path can say the name, 1 where no inode in use has the directory's number and
/// 3 where a file has it, 2 where an inode in use has the name, 8 where the CPU's table has no unused slot, in version 1, 7 where
/// too few blocks are free. Besides these 14 where memory was refused. All leave everything as it was.
#[unsafe(no_mangle)]
pub extern "C" fn nova_mkdir_inode(
    alloc: Global,
    fs: &mut NovaFs,
    cpu: u64,
    directory: u64,
    name: &[u8],
    mode: u32,
    time: u64,
    inode: &mut u64,
) -> u32
    ensures allowed { IsOpen fs.old → result ≡ 0 → create_inode_refusal fs.old.mount cpu directory name.now ≡ Option.None }
    ensures refused { IsRunning fs.old → result ≢ 0 → TellsRefusal (IsRefusedBy (create_inode_refusal fs.old.mount cpu directory name.now)) result }
    ensures made { IsOpen fs.old → result ≡ 0 → MakesInodeIn Directory cpu mode time directory name.now fs.old.mount fs.new.mount inode.new }
    ensures unchanged { IsOpen fs.old → result ≢ 0 → SameMount fs.old.mount fs.new.mount }
    ensures untouched { result ≢ 0 → inode.new ≡ inode.old }
    ensures runs { IsRunning fs.old → IsRunning fs.new × (result ≢ 15) }
    ensures keeps { IsOpen fs.old → IsOpen fs.new × GrowsMount cpu fs.old.mount fs.new.mount }
    ensures any_stop { IsRunning fs.old → fs.old.mount.read_only ≡ false
        → LeavesOnly fs.new.mount.memory (as_it_reads fs.new.mount.memory) (StopGrows cpu fs.old.mount.memory fs.old.mount
        (created_in Directory (new_number fs.old.mount.layout fs.old.mount.rows cpu) directory name.now mode time (shown fs.old.mount))
        (logs_created_in Directory cpu mode time directory name.now fs.old.mount.memory fs.old.mount)) }
    ensures closed { IsClosed fs.old → TellsClosed fs.new result }
{
    match fs.take(alloc) {
        Some(mount) => {
            let mut mount = mount;
            let done = mount.mkdir_inode(Cpu(cpu), directory, name, mode, Time(time));
            fs.put(mount);
            match done {
                Ok(number) => {
                    *inode = number;
                    DONE
                }
                Err(refusal) => code(refusal),
            }
        }
        None => CLOSED,
    }
}

/// Takes a name of a file out of the directory of this number, and with the last one the file.
///
/// Statuses, the first that applies: 16 where the handle is closed, 13 where there is no CPU of that number, 10 where the mount
/// has faults, 6 where no path can say the name, 1 where no inode in use has the directory's number and 3 where a file has it,
/// 1 where no inode in use has the name, 4 for a directory, 7 where too few blocks are free. Besides these 14 where memory was
/// refused. All leave everything as it was.
#[unsafe(no_mangle)]
pub extern "C" fn nova_unlink_inode(
    alloc: Global,
    fs: &mut NovaFs,
    cpu: u64,
    directory: u64,
    name: &[u8],
    time: u64,
) -> u32
    ensures allowed { IsOpen fs.old → result ≡ 0 → unlink_inode_refusal fs.old.mount cpu directory name.now ≡ Option.None }
    ensures refused { IsRunning fs.old → result ≢ 0 → TellsRefusal (IsRefusedBy (unlink_inode_refusal fs.old.mount cpu directory name.now)) result }
    ensures changed { IsOpen fs.old → result ≡ 0 → SameTree (shown fs.new.mount) (unlinked_in directory name.now time (shown fs.old.mount)) }
    ensures logs { IsOpen fs.old → result ≡ 0 → LogsUnlinkedIn cpu time directory name.now fs.old.mount.memory fs.old.mount fs.new.mount.memory }
    ensures unchanged { IsOpen fs.old → result ≢ 0 → SameMount fs.old.mount fs.new.mount }
    ensures runs { IsRunning fs.old → IsRunning fs.new × (result ≢ 15) }
    ensures keeps { IsOpen fs.old → IsOpen fs.new × KeepsMount fs.old.mount fs.new.mount }
    ensures any_stop { IsRunning fs.old → fs.old.mount.read_only ≡ false
        → LeavesOnly fs.new.mount.memory (as_it_reads fs.new.mount.memory) (StopLeaves fs.old.mount.memory fs.old.mount.layout fs.old.mount.rows fs.old.mount.free.pools
        (unlinked_in directory name.now time (shown fs.old.mount)) (LogsUnlinkedIn cpu time directory name.now fs.old.mount.memory fs.old.mount)) }
    ensures closed { IsClosed fs.old → TellsClosed fs.new result }
{
    match fs.take(alloc) {
        Some(mount) => {
            let mut mount = mount;
            let done = mount.unlink_inode(Cpu(cpu), directory, name, Time(time));
            fs.put(mount);
            match done {
                Ok(()) => DONE,
                Err(refusal) => code(refusal),
            }
        }
        None => CLOSED,
    }
}

/// Takes a directory without names away, and its name in the directory of this number.
///
/// Statuses, the first that applies: 16 where the handle is closed, 13 where there is no CPU of that number, 10 where the mount
/// has faults, 6 where no path can say the name, 1 where no inode in use has the directory's number and 3 where a file has it,
/// 1 where no inode in use has the name, 3 for a file, 5 where names are in it, 7 where too few blocks are free. Besides these 14
/// where memory was refused. All leave everything as it was.
#[unsafe(no_mangle)]
pub extern "C" fn nova_rmdir_inode(
    alloc: Global,
    fs: &mut NovaFs,
    cpu: u64,
    directory: u64,
    name: &[u8],
    time: u64,
) -> u32
    ensures allowed { IsOpen fs.old → result ≡ 0 → rmdir_inode_refusal fs.old.mount cpu directory name.now ≡ Option.None }
    ensures refused { IsRunning fs.old → result ≢ 0 → TellsRefusal (IsRefusedBy (rmdir_inode_refusal fs.old.mount cpu directory name.now)) result }
    ensures changed { IsOpen fs.old → result ≡ 0 → SameTree (shown fs.new.mount) (removed_in directory name.now time (shown fs.old.mount)) }
    ensures logs { IsOpen fs.old → result ≡ 0 → logs_removed_in cpu time directory name.now fs.old.mount.memory fs.old.mount fs.new.mount.memory }
    ensures unchanged { IsOpen fs.old → result ≢ 0 → SameMount fs.old.mount fs.new.mount }
    ensures runs { IsRunning fs.old → IsRunning fs.new × (result ≢ 15) }
    ensures keeps { IsOpen fs.old → IsOpen fs.new × KeepsMount fs.old.mount fs.new.mount }
    ensures any_stop { IsRunning fs.old → fs.old.mount.read_only ≡ false
        → LeavesOnly fs.new.mount.memory (as_it_reads fs.new.mount.memory) (StopLeaves fs.old.mount.memory fs.old.mount.layout fs.old.mount.rows fs.old.mount.free.pools
        (removed_in directory name.now time (shown fs.old.mount)) (logs_removed_in cpu time directory name.now fs.old.mount.memory fs.old.mount)) }
    ensures closed { IsClosed fs.old → TellsClosed fs.new result }
{
    match fs.take(alloc) {
        Some(mount) => {
            let mut mount = mount;
            let done = mount.rmdir_inode(Cpu(cpu), directory, name, Time(time));
            fs.put(mount);
            match done {
                Ok(()) => DONE,
                Err(refusal) => code(refusal),
            }
        }
        None => CLOSED,
    }
}

/// Gives the file of this number one name more, in the directory of this number.
///
/// Statuses, the first that applies: 16 where the handle is closed, 13 where there is no CPU of that number, 10 where the mount
/// has faults, 6 where no path can say the name, 1 where no inode in use has the directory's number and 3 where a file has it,
/// 1 where no inode in use has the file's number and 4 where a directory has it, 2 where an inode in use has the name, 11 where the
/// file has 1,000 links, 7 where too few blocks are free. Besides these 14 where memory was refused. All leave everything as it was.
#[unsafe(no_mangle)]
pub extern "C" fn nova_link_inode(
    alloc: Global,
    fs: &mut NovaFs,
    cpu: u64,
    inode: u64,
    directory: u64,
    name: &[u8],
    time: u64,
) -> u32
    ensures allowed { IsOpen fs.old → result ≡ 0 → link_inode_refusal fs.old.mount cpu inode directory name.now ≡ Option.None }
    ensures refused { IsRunning fs.old → result ≢ 0 → TellsRefusal (IsRefusedBy (link_inode_refusal fs.old.mount cpu inode directory name.now)) result }
    ensures changed { IsOpen fs.old → result ≡ 0 → SameTree (shown fs.new.mount) (linked_in inode directory name.now time (shown fs.old.mount)) }
    ensures logs { IsOpen fs.old → result ≡ 0 → logs_linked_in cpu time inode directory name.now fs.old.mount.memory fs.old.mount fs.new.mount.memory }
    ensures unchanged { IsOpen fs.old → result ≢ 0 → SameMount fs.old.mount fs.new.mount }
    ensures runs { IsRunning fs.old → IsRunning fs.new × (result ≢ 15) }
    ensures keeps { IsOpen fs.old → IsOpen fs.new × KeepsMount fs.old.mount fs.new.mount }
    ensures any_stop { IsRunning fs.old → fs.old.mount.read_only ≡ false
        → LeavesOnly fs.new.mount.memory (as_it_reads fs.new.mount.memory) (StopLeaves fs.old.mount.memory fs.old.mount.layout fs.old.mount.rows fs.old.mount.free.pools
        (linked_in inode directory name.now time (shown fs.old.mount)) (logs_linked_in cpu time inode directory name.now fs.old.mount.memory fs.old.mount)) }
    ensures closed { IsClosed fs.old → TellsClosed fs.new result }
{
    match fs.take(alloc) {
        Some(mount) => {
            let mut mount = mount;
            let done = mount.link_inode(Cpu(cpu), inode, directory, name, Time(time));
            fs.put(mount);
            match done {
                Ok(()) => DONE,
                Err(refusal) => code(refusal),
            }
        }
        None => CLOSED,
    }
}
