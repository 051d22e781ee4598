//! The calls that read, for an inode's number in place of a path: also of one that no path leads to. `nova_lookup_inode` is given
//! that of a directory.

ghost use Rattle.std.specs.Prelude.{◌≡◌, ◌≢◌, ◌⊎◌, Option, IfOk, IfErr, OnOk, false};
ghost use Rattle.nv_tree.specs.Refusals.{IsReadRefusedBy};
ghost use Rattle.nv_calls.specs.ByNumber.{IsInodeReadInto};
ghost use Rattle.nova_c.specs.Codes.{TellsRefusal};
ghost use Rattle.nova_c.specs.Handles.{IsClosed, IsOpen, IsRunning, KeepsAll, TellsClosed, shown};
ghost use Rattle.nova_c.specs.Refused.{list_inode_refusal, lookup_inode_refusal, read_inode_refusal, stat_inode_refusal};
ghost use Rattle.nova_c.specs.Told.{LacksRoom, PutsBytes, TellsInodeNames, TellsInodeNumbers, TellsNamedNumbers};

use crate::codes::{CLOSED, DONE, MEMORY, code};
use crate::handle::{Mounted, NovaFs};
use crate::listing::{names_told, put_bytes};
use crate::numbers::{NovaNumbers, numbers_of};
use std::alloc::Global;

/// The numbers of the inode of this number.
///
/// Statuses, the first that applies, with `out` as before: 16 where the handle is closed, 1 where no inode in use has the number.
#[unsafe(no_mangle)]
pub extern "C" fn nova_stat_inode(
    alloc: Global,
    fs: &mut NovaFs,
    inode: u64,
    out: &mut NovaNumbers,
) -> u32
    ensures found { IsOpen fs.old → result ≡ 0 → TellsInodeNumbers (shown fs.old.mount) inode out.new }
    ensures allowed { IsOpen fs.old → result ≡ 0 → stat_inode_refusal fs.old.mount inode ≡ Option.None }
    ensures refused { IsRunning fs.old → result ≢ 0 → TellsRefusal (λ e. stat_inode_refusal fs.old.mount inode ≡ Option.Some e) result }
    ensures untouched { result ≢ 0 → out.new ≡ out.old }
    ensures same { IsOpen fs.old → KeepsAll fs.old fs.new }
    ensures closed { IsClosed fs.old → TellsClosed fs.new result }
{
    match fs.take(alloc) {
        Some(mount) => {
            let found = mount.stat_inode(inode);
            fs.put(mount);
            match found {
                Ok(stat) => {
                    *out = numbers_of(&stat);
                    DONE
                }
                Err(refusal) => code(refusal),
            }
        }
        None => CLOSED,
    }
}

/// The numbers of the inode that a name of the directory of this number stands for. It takes no memory.
///
/// Statuses, the first that applies, with `out` as before: 16 where the handle is closed, 6 where no path can say the name, 1 where
/// no inode in use has the directory's number and 3 where a file has it, 1 where no inode in use has the name.
#[unsafe(no_mangle)]
pub extern "C" fn nova_lookup_inode(
    alloc: Global,
    fs: &mut NovaFs,
    directory: u64,
    name: &[u8],
    out: &mut NovaNumbers,
) -> u32
    ensures found { IsOpen fs.old → result ≡ 0 → TellsNamedNumbers (shown fs.old.mount) directory name.now out.new }
    ensures allowed { IsOpen fs.old → result ≡ 0 → lookup_inode_refusal fs.old.mount directory name.now ≡ Option.None }
    ensures refused { IsRunning fs.old → result ≢ 0 → TellsRefusal (λ e. lookup_inode_refusal fs.old.mount directory name.now ≡ Option.Some e) result }
    ensures untouched { result ≢ 0 → out.new ≡ out.old }
    ensures same { IsOpen fs.old → KeepsAll fs.old fs.new }
    ensures closed { IsClosed fs.old → TellsClosed fs.new result }
{
    match fs.take(alloc) {
        Some(mount) => {
            let found = mount.lookup_inode(directory, name);
            fs.put(mount);
            match found {
                Ok(stat) => {
                    *out = numbers_of(&stat);
                    DONE
                }
                Err(refusal) => code(refusal),
            }
        }
        None => CLOSED,
    }
}

/// Puts the bytes of the file of this number into a buffer, from an offset on up to its size, as many as fit. `done` says how many
/// these are, and the rest of the buffer stays. It takes no memory.
///
/// Statuses, the first that applies, with buffer and `done` as before: 16 where the handle is closed, 1 where no inode in use has
/// the number, 4 for a directory.
#[unsafe(no_mangle)]
pub extern "C" fn nova_read_inode(
    alloc: Global,
    fs: &mut NovaFs,
    inode: u64,
    offset: u64,
    bytes: &mut [u8],
    done: &mut usize,
) -> u32
    ensures found { IsOpen fs.old → result ≡ 0 → IsInodeReadInto (shown fs.old.mount) inode offset bytes.old done.new bytes.new }
    ensures allowed { IsOpen fs.old → result ≡ 0 → read_inode_refusal fs.old.mount inode ≡ Option.None }
    ensures refused { IsRunning fs.old → result ≢ 0 → TellsRefusal (λ e. read_inode_refusal fs.old.mount inode ≡ Option.Some e) result }
    ensures untouched { result ≢ 0 → (bytes.new ≡ bytes.old) × (done.new ≡ done.old) }
    ensures same { IsOpen fs.old → KeepsAll fs.old fs.new }
    ensures closed { IsClosed fs.old → TellsClosed fs.new result }
{
    match fs.take(alloc) {
        Some(mount) => {
            let read = mount.read_inode_into(inode, offset, bytes);
            fs.put(mount);
            match read {
                Ok(count) => {
                    *done = count;
                    DONE
                }
                Err(refusal) => code(refusal),
            }
        }
        None => CLOSED,
    }
}

// The bytes of the names of a directory, or the status of a refusal.
fn names_in(alloc: Global, mount: &Mounted, inode: u64) -> Result<Vec<u8>, u32>
    ensures found { IfOk result (λ told. TellsInodeNames (shown mount.now) inode (λ bytes. told.items ≡ bytes)) }
    ensures allowed { OnOk result (list_inode_refusal mount.now inode ≡ Option.None) }
    ensures refused { mount.now.stopped ≡ false → IfErr result (TellsRefusal (IsReadRefusedBy (list_inode_refusal mount.now inode))) }
    ensures apart { IfErr result (λ status. (status ≢ 0) × (status ≢ 18)) }
{
    match mount.list_inode(inode) {
        Ok(listed) => match names_told(alloc, &listed) {
            Ok(told) => Ok(told),
            Err(_) => Err(MEMORY),
        },
        Err(refusal) => Err(code(refusal)),
    }
}

/// Puts the names of the directory of this number into a buffer, as `nova_list` does. `used` says how many bytes they take, also
/// where there is no room for them.
///
/// Statuses, the first that applies, with the buffer as before: 16 where the handle is closed, 1 where no inode in use has the
/// number, 3 for a file, 14 where memory was refused, 18 where the buffer is too small.
#[unsafe(no_mangle)]
pub extern "C" fn nova_list_inode(
    alloc: Global,
    fs: &mut NovaFs,
    inode: u64,
    names: &mut [u8],
    used: &mut usize,
) -> u32
    ensures found { IsOpen fs.old → result ≡ 0 → TellsInodeNames (shown fs.old.mount) inode (λ bytes. PutsBytes bytes names.old used.new names.new) }
    // A list that is cut off says so.
    ensures too_small { IsOpen fs.old → result ≡ 18 → TellsInodeNames (shown fs.old.mount) inode (λ bytes. LacksRoom bytes names.old used.new names.new) }
    ensures allowed { IsOpen fs.old → (result ≡ 0) ⊎ (result ≡ 18) → list_inode_refusal fs.old.mount inode ≡ Option.None }
    ensures refused { IsRunning fs.old → result ≢ 0 → result ≢ 18 → TellsRefusal (IsReadRefusedBy (list_inode_refusal fs.old.mount inode)) result }
    ensures untouched { result ≢ 0 → names.new ≡ names.old }
    ensures same { IsOpen fs.old → KeepsAll fs.old fs.new }
    ensures closed { IsClosed fs.old → TellsClosed fs.new result }
{
    match fs.take(alloc) {
        Some(mount) => {
            let listed = names_in(alloc, &mount, inode);
            fs.put(mount);
            match listed {
                Ok(told) => put_bytes(&told, names, used),
                Err(status) => status,
            }
        }
        None => CLOSED,
    }
}
