//! Where the slot of a row's inode stands.

ghost use Rattle.std.specs.Prelude.{◌≡◌, ◌↔◌, ◌+◌, ◌*◌, ◌%◌, ◌≤◌, ℕ, IsTrue, Some};
ghost use Rattle.nv_super.specs.declared.superblock.Super.{Super};
ghost use Rattle.nv_super.specs.Layout.{IsLayout, fixed_layout, is_number, slot_address, slot_of};
ghost use Rattle.nv_inode.specs.Numbers.{has_slot};
ghost use Rattle.nv_steps.specs.Slots.{slot_in};

use nv_inode::Tables;

/// The byte address of the slot of an inode, whose number has one: a multiple of 128. The slot stands behind the journals
/// and lies whole within the region. It takes constant time and no memory.
pub(crate) fn slot_of_row(tables: &Tables, inode: u64) -> u64
    requires { IsTrue (has_slot tables.now.layout inode) }
    ensures is { slot_of tables.now.layout inode ≡ Some result }
    ensures value { result ≡ slot_in tables.now.layout inode }
    ensures whole { result % 128 ≡ 0 }
    ensures inside { result + 128 ≤ 4096 * tables.now.layout.sup.blocks }
    ensures behind { (1 + tables.now.layout.sup.cpus) * 4096 ≤ result }
{
    tables.are_laid();
    // A number that has no slot has the address 0 here.
    tables.slot_address(inode).unwrap_or(0)
}

/// In fixed tables the numbers that have a slot are those of the tables, and each has it at its place in its CPU's table.
pub fn slots_of_fixed_tables()
    ensures numbers { (s : Super) (i : ℕ) → IsLayout s → (IsTrue (has_slot (fixed_layout s) i) ↔ IsTrue (is_number s i)) }
    ensures address { (s : Super) (i : ℕ) → IsLayout s → IsTrue (is_number s i) → slot_in (fixed_layout s) i ≡ slot_address s i }
{}
