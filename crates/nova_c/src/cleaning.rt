//! The call that frees pages of logs.

ghost use Rattle.std.specs.Prelude.{◌≡◌, ◌≢◌, ℕ, List, Option, false};
ghost use Rattle.nv_region.specs.Stops.{LeavesOnly};
ghost use Rattle.nv_tree.specs.Path.{IsPath, Says};
ghost use Rattle.nv_tree.specs.Refusals.{Path, IsRefusedBy};
ghost use Rattle.nv_tree.specs.Tree.{SameTree};
ghost use Rattle.nv_calls.specs.Same.{KeepsMount, SameMount};
ghost use Rattle.nv_calls.specs.Stopped.{LeavesCall};
ghost use Rattle.nv_lent.specs.WordsState.{as_it_reads};
ghost use Rattle.nova_c.specs.Codes.{TellsRefusal};
ghost use Rattle.nova_c.specs.Handles.{IsClosed, IsOpen, IsRunning, TellsClosed, shown};
ghost use Rattle.nova_c.specs.Refused.{clean_refusal};
ghost use Rattle.nova_c.specs.Told.{gone};
ghost use Rattle.nv_calls.specs.Effects.{logs_clean, logs_page_less, makes_no_change};

use crate::codes::{CLOSED, DONE, code};
use crate::handle::NovaFs;
use std::alloc::Global;

/// What a cleaning has freed.
#[repr(C)]
#[derive(Clone, Copy)]
pub struct NovaCleaned {
    /// The block of the page that went, where one did.
    pub block: u64,
    /// 1 where a page went, 0 where the log needs each of its pages.
    pub has_freed: u32,
}

fn cleaned(freed: Option<u64>) -> NovaCleaned
    ensures { gone result ≡ freed }
{
    match freed {
        Some(block) => NovaCleaned {
            block,
            has_freed: 1,
        },
        None => NovaCleaned {
            block: 0,
            has_freed: 0,
        },
    }
}

/// Frees the first page that an inode's log can do without. The tree stays.
///
/// Statuses, the first that applies: 16 where the handle is closed, 10 where the mount has faults, 6 where the text is no path, 1 or
/// 3 for an inode on the way, 1 for the last name. Besides these 14 where memory was refused. All leave everything as it was.
#[unsafe(no_mangle)]
pub extern "C" fn nova_clean(
    alloc: Global,
    fs: &mut NovaFs,
    path: &[u8],
    out: &mut NovaCleaned,
) -> u32
    ensures allowed { IsOpen fs.old → result ≡ 0 → (p : Path) → Says path.now p → clean_refusal fs.old.mount p ≡ Option.None }
    ensures refused { IsRunning fs.old → result ≢ 0 → (p : Path) → Says path.now p → TellsRefusal (IsRefusedBy (clean_refusal fs.old.mount p)) result }
    ensures same_tree { IsOpen fs.old → result ≡ 0 → SameTree (shown fs.new.mount) (shown fs.old.mount) }
    // Which page went, by the log of the inode.
    ensures logs { IsOpen fs.old → result ≡ 0 → (names : List (List ℕ)) → IsPath path.now names → logs_clean (gone out.new) fs.old.mount.memory fs.old.mount names fs.new.mount.memory }
    // A refusal leaves the mount as it was, and what is told.
    ensures unchanged { (IsOpen fs.old → result ≢ 0 → SameMount fs.old.mount fs.new.mount) × (result ≢ 0 → out.new ≡ out.old) }
    ensures runs { IsRunning fs.old → IsRunning fs.new × (result ≢ 15) }
    ensures keeps { IsOpen fs.old → IsOpen fs.new × KeepsMount fs.old.mount fs.new.mount }
    ensures any_stop { IsRunning fs.old → fs.old.mount.read_only ≡ false → (names : List (List ℕ)) → IsPath path.now names
        → LeavesOnly fs.new.mount.memory (as_it_reads fs.new.mount.memory) (LeavesCall makes_no_change logs_page_less fs.old.mount.memory fs.old.mount names) }
    ensures closed { IsClosed fs.old → TellsClosed fs.new result }
{
    match fs.take(alloc) {
        Some(mount) => {
            let mut mount = mount;
            let done = mount.clean(path);
            fs.put(mount);
            match done {
                Ok(freed) => {
                    *out = cleaned(freed);
                    DONE
                }
                Err(refusal) => code(refusal),
            }
        }
        None => CLOSED,
    }
}
