//! The bytes of a file.

ghost use Rattle.std.specs.Prelude.{◌≡◌, ◌≢◌, ℕ, List, Option};
ghost use Rattle.nv_tree.specs.Path.{IsPath, Says};
ghost use Rattle.nv_tree.specs.Refusals.{Path};
ghost use Rattle.nv_calls.specs.Reading.{IsReadInto};
ghost use Rattle.nova_c.specs.Codes.{TellsRefusal};
ghost use Rattle.nova_c.specs.Handles.{IsClosed, IsOpen, IsRunning, KeepsAll, TellsClosed, shown};
ghost use Rattle.nova_c.specs.Refused.{read_refusal};

use crate::codes::{CLOSED, DONE, code};
use crate::handle::NovaFs;
use std::alloc::Global;

/// Puts the bytes of a file into a buffer, from an offset on up to its size, as many as fit. `done` says how many these are, and
/// the rest of the buffer stays. It takes no memory.
///
/// Statuses, the first that applies, with buffer and `done` as before: 16 where the handle is closed, 6 where the text is no path,
/// 1 or 3 for an inode on the way, 1 for the last name, 4 for a directory.
#[unsafe(no_mangle)]
pub extern "C" fn nova_read(
    alloc: Global,
    fs: &mut NovaFs,
    path: &[u8],
    offset: u64,
    bytes: &mut [u8],
    done: &mut usize,
) -> u32
    ensures found { IsOpen fs.old → result ≡ 0 → (names : List (List ℕ)) → IsPath path.now names → IsReadInto (shown fs.old.mount) names offset bytes.old done.new bytes.new }
    ensures allowed { IsOpen fs.old → result ≡ 0 → (p : Path) → Says path.now p → read_refusal fs.old.mount p ≡ Option.None }
    ensures refused { IsRunning fs.old → result ≢ 0 → (p : Path) → Says path.now p → TellsRefusal (λ e. read_refusal fs.old.mount p ≡ Option.Some e) result }
    ensures untouched { result ≢ 0 → (bytes.new ≡ bytes.old) × (done.new ≡ done.old) }
    ensures same { IsOpen fs.old → KeepsAll fs.old fs.new }
    ensures closed { IsClosed fs.old → TellsClosed fs.new result }
{
    match fs.take(alloc) {
        Some(mount) => {
            let read = mount.read_into(path, offset, bytes);
            fs.put(mount);
            match read {
                Ok(count) => {
                    *done = count;
                    DONE
                }
                Err(refusal) => code(refusal),
            }
        }
        None => CLOSED,
    }
}
