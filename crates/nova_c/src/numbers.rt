//! Numbers: those of an inode, and how much there is of what.

ghost use Rattle.std.specs.Prelude.{◌≡◌, ◌≢◌, ℕ, List, Option};
ghost use Rattle.nv_tree.specs.Path.{IsPath, Says};
ghost use Rattle.nv_tree.specs.Refusals.{Path};
ghost use Rattle.nova_c.specs.Codes.{TellsRefusal};
ghost use Rattle.nova_c.specs.Handles.{IsClosed, IsOpen, IsRunning, KeepsAll, TellsClosed, shown};
ghost use Rattle.nova_c.specs.Refused.{stat_refusal};
ghost use Rattle.nova_c.specs.Told.{TellsNumbers, TellsSpace, told};

use crate::codes::{CLOSED, DONE, code};
use crate::handle::{Mounted, NovaFs};
use nv_calls::Stat;
use nv_super::Kind;
use std::alloc::Global;

/// The numbers of an inode. A time is a number of the caller's.
#[repr(C)]
#[derive(Clone, Copy)]
pub struct NovaNumbers {
    pub inode: u64,
    /// In bytes.
    pub size: u64,
    pub time: u64,
    /// 1 for a directory, 0 for a file.
    pub is_directory: u32,
    pub mode: u32,
    pub owner: u32,
    pub group: u32,
    pub links: u32,
}

/// How much there is of what.
#[repr(C)]
#[derive(Clone, Copy)]
pub struct NovaSpace {
    /// Of 4096 bytes.
    pub blocks: u64,
    pub free_blocks: u64,
    pub cpus: u64,
    /// Of each CPU, with 32 inodes each.
    pub table_blocks: u64,
    /// How many inodes are in use.
    pub inodes: u64,
    /// How many faults the recovery found. Where there are any, the mount can only be read.
    pub faults: u64,
}

pub(crate) fn numbers_of(stat: &Stat) -> NovaNumbers
    ensures { result ≡ told stat.now }
{
    NovaNumbers {
        inode: stat.inode,
        size: stat.size,
        time: stat.time,
        is_directory: match stat.kind {
            Kind::Directory => 1,
            Kind::File => 0,
        },
        mode: stat.mode,
        owner: stat.owner,
        group: stat.group,
        links: stat.links,
    }
}

/// The numbers of the inode that a path leads to.
///
/// Statuses, the first that applies, with `out` as before: 16 where the handle is closed, 6 where the text is no path, 1 or 3 for
/// an inode on the way, 1 for the last name.
#[unsafe(no_mangle)]
pub extern "C" fn nova_stat(
    alloc: Global,
    fs: &mut NovaFs,
    path: &[u8],
    out: &mut NovaNumbers,
) -> u32
    ensures found { IsOpen fs.old → result ≡ 0 → (names : List (List ℕ)) → IsPath path.now names → TellsNumbers (shown fs.old.mount) names out.new }
    ensures allowed { IsOpen fs.old → result ≡ 0 → (p : Path) → Says path.now p → stat_refusal fs.old.mount p ≡ Option.None }
    ensures refused { IsRunning fs.old → result ≢ 0 → (p : Path) → Says path.now p → TellsRefusal (λ e. stat_refusal fs.old.mount p ≡ Option.Some e) result }
    ensures untouched { result ≢ 0 → out.new ≡ out.old }
    ensures same { IsOpen fs.old → KeepsAll fs.old fs.new }
    ensures closed { IsClosed fs.old → TellsClosed fs.new result }
{
    match fs.take(alloc) {
        Some(mount) => {
            let found = mount.stat(path);
            fs.put(mount);
            match found {
                Ok(stat) => {
                    *out = numbers_of(&stat);
                    DONE
                }
                Err(refusal) => code(refusal),
            }
        }
        None => CLOSED,
    }
}

fn space_of(mount: &Mounted) -> NovaSpace
    ensures { TellsSpace mount.now result }
{
    let sup = mount.superblock();
    NovaSpace {
        blocks: sup.blocks,
        free_blocks: mount.free().free_blocks(),
        cpus: sup.cpus,
        table_blocks: sup.table_blocks,
        inodes: mount.rows().len() as u64,
        faults: mount.faults().len() as u64,
    }
}

/// How much there is of what.
///
/// Status: 16 where the handle is closed, with `out` as before.
#[unsafe(no_mangle)]
pub extern "C" fn nova_space_of(alloc: Global, fs: &mut NovaFs, out: &mut NovaSpace) -> u32
    ensures told { IsOpen fs.old → (result ≡ 0) × TellsSpace fs.old.mount out.new }
    ensures untouched { result ≢ 0 → out.new ≡ out.old }
    ensures same { IsOpen fs.old → KeepsAll fs.old fs.new }
    ensures closed { IsClosed fs.old → TellsClosed fs.new result }
{
    match fs.take(alloc) {
        Some(mount) => {
            *out = space_of(&mount);
            fs.put(mount);
            DONE
        }
        None => CLOSED,
    }
}
