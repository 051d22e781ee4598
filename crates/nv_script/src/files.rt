//! The region in a file.

ghost use Rattle.std.specs.Prelude.{◌≡◌, ◌<◌, ◌↔◌, ◌^◌, false, length, IfOk, IsErrOf};
ghost use Rattle.nv_region.specs.Region.{region_of, bytes_of};
ghost use Rattle.nv_session.specs.Sessions.{IsSettled};
ghost use Rattle.nv_region.specs.declared.memory.Fuse.TheVariants as fuses;
ghost use Rattle.nv_region.specs.declared.memory.RegionRefusal.TheVariants as refusals;

use nv_region::{MemRegion, RegionRefusal};
use std::alloc::Global;

/// The region of the bytes of a file, in memory. The bytes are let go.
///
/// Shorter files than those that are refused are taken, of any length: a script may have cut its region, and a recovery
/// says of each wrong length that it is no region's.
///
/// Errors: `Length` for more than 1,073,741,824 bytes; `Memory` where a growth was refused.
pub fn region_of_file(alloc: Global, bytes: Vec<u8>) -> Result<MemRegion, RegionRefusal>
    ensures region { IfOk result (λ m. m.region ≡ region_of bytes.items) }
    ensures bytes { IfOk result (λ m. bytes_of m.region ≡ bytes.items) }
    ensures settled { IfOk result (λ m. IsSettled m) }
    ensures fuse { IfOk result (λ m. (m.fuse ≡ fuses.Off) × (m.burnt ≡ false)) }
    ensures length { IsErrOf result refusals.Length ↔ (2 ^ 30 < length bytes.items) }
{
    MemRegion::from_bytes(alloc, &bytes)
}
