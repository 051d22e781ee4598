//! The bytes of the region.

ghost use Rattle.std.specs.Prelude.{◌≡◌, ◌≢◌, length};
ghost use Rattle.nv_region.specs.Region.{bytes_of, size};
ghost use Rattle.nova_c.specs.Handles.{IsClosed, IsOpen, KeepsAll, TellsClosed};

use crate::codes::{CLOSED, DONE, TOO_SMALL};
use crate::handle::{Mounted, NovaFs};
use nv_region::Pmem;
use std::alloc::Global;

// Puts the bytes of the region into a buffer of just their number.
fn save(mount: &Mounted, image: &mut [u8]) -> u32
    ensures saved { length image.old ≡ size mount.now.memory → (result ≡ 0) × (image.new ≡ bytes_of mount.now.memory) }
    ensures too_small { length image.old ≢ size mount.now.memory → (result ≡ 18) × (image.new ≡ image.old) }
{
    let memory = mount.memory();
    if memory.len() != image.len() as u64 {
        return TOO_SMALL;
    }
    memory.copy_to(image);
    DONE
}

/// Puts the bytes of the region into a buffer of just their number, 4096 for each block.
///
/// Statuses: 16 where the handle is closed; 18 where the buffer has another length.
#[unsafe(no_mangle)]
pub extern "C" fn nova_save(alloc: Global, fs: &mut NovaFs, image: &mut [u8]) -> u32
    ensures saved { IsOpen fs.old → length image.old ≡ size fs.old.mount.memory → (result ≡ 0) × (image.new ≡ bytes_of fs.old.mount.memory) }
    ensures too_small { IsOpen fs.old → length image.old ≢ size fs.old.mount.memory → (result ≡ 18) × (image.new ≡ image.old) }
    ensures same { IsOpen fs.old → KeepsAll fs.old fs.new }
    ensures closed { IsClosed fs.old → TellsClosed fs.new result }
{
    match fs.take(alloc) {
        Some(mount) => {
            let status = save(&mount, image);
            fs.put(mount);
            status
        }
        None => CLOSED,
    }
}
