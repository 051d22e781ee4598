//! Where the slots lie: in the tables of all CPUs, which are one area behind the journals. The first slot there is that of
//! number 0, which no inode has.

ghost use Rattle.std.specs.Prelude.{◌≡◌, ◌<◌};
ghost use Rattle.nv_super.specs.Layout.{HasAreas, IsLayout, inode_limit};
ghost use Rattle.nv_inode.specs.Slot.{nth_slot};

use nv_super::{BLOCK_SIZE, SLOT_SIZE, Super};

/// The byte address of a slot by its place in the tables, from 0 on, where there are `inode_limit` slots, one behind
/// the other.
pub fn nth_slot(sup: &Super, place: u64) -> u64
    requires layout { IsLayout sup.now }
    requires place { place < inode_limit sup.now }
    ensures { result ≡ nth_slot sup.now place }
{
    first_slot(sup) + SLOT_SIZE * place
}

/// Where the tables begin.
pub(crate) fn first_slot(sup: &Super) -> u64
    requires { HasAreas sup.now }
    ensures { result ≡ nth_slot sup.now 0 }
{
    (1 + sup.cpus) * BLOCK_SIZE
}
