//! Whose turn it is: the CPU in whose name calls are made.
//!
//! Where none is named, the CPUs take turns: an inode is made in the name of the next one whose table has an unused number, or in
//! version 2 can grow by one. So the blocks of what is made come from the pools of all.

ghost use Rattle.std.specs.Prelude.{◌≡◌, ◌⊎◌, ◌≤◌, ◌<◌, ℕ, IfSome, IsNone, None, is_some};
ghost use Rattle.nv_paths.specs.Seen.{tree_of};
ghost use Rattle.nv_changes.specs.Calls.{IsThere};
ghost use Rattle.nv_script.specs.Cleaning.{CanClean};
ghost use Rattle.nv_history.specs.Making.{lowest_unused};
ghost use Rattle.nv_unpack.specs.declared.maker.Maker.TheVariants as makers;
ghost use Rattle.nv_unpack.specs.Turns.{HasNumber, IsInodeMaker, IsMaker};

use crate::calls::is_there;
use crate::maker::Maker;
use nv_calls::Cpu;
use nv_region::MemRegion;
use nv_session::Fs;

/// The CPU in whose name calls for what stands at a place are made. The hint is the one whose turn is next.
pub(crate) fn cpu_at(mount: &Fs<MemRegion>, maker: Maker, hint: &mut u64, text: &[u8]) -> u64
    requires { CanClean mount.now }
    ensures { (IsThere (tree_of mount.now.memory.region mount.now.rows) text.now × IsMaker maker mount.now.sup result)
        ⊎ IsInodeMaker maker mount.now.sup (tree_of mount.now.memory.region mount.now.rows) result }
{
    if is_there(mount, text) {
        any_cpu(mount, maker, *hint)
    } else {
        inode_cpu(mount, maker, hint)
    }
}

/// The CPU in whose name an inode is made.
pub(crate) fn inode_cpu(mount: &Fs<MemRegion>, maker: Maker, hint: &mut u64) -> u64
    requires { CanClean mount.now }
    ensures { IsInodeMaker maker mount.now.sup (tree_of mount.now.memory.region mount.now.rows) result }
{
    match maker {
        Maker::Named(cpu) => cpu,
        Maker::Free => free_cpu(mount, hint),
    }
}

// A CPU in whose name calls are made that make no inode.
fn any_cpu(mount: &Fs<MemRegion>, maker: Maker, hint: u64) -> u64
    requires { CanClean mount.now }
    ensures { IsMaker maker mount.now.sup result }
{
    match maker {
        Maker::Named(cpu) => cpu,
        Maker::Free => {
            // The layout is asked for below.
            mount.keeps();
            hint % mount.superblock().cpus
        }
    }
}

// One whose table has an unused number or can get one, or, where there is none, the first.
fn free_cpu(mount: &Fs<MemRegion>, hint: &mut u64) -> u64
    requires { CanClean mount.now }
    ensures { IsInodeMaker makers.Free mount.now.sup (tree_of mount.now.memory.region mount.now.rows) result }
{
    // The layout is asked for below.
    mount.keeps();
    let sup = mount.superblock();
    let from = *hint % sup.cpus;
    match cpu_from(mount, from, sup.cpus) {
        Some(cpu) => {
            *hint = cpu + 1;
            cpu
        }
        None => 0,
    }
}

// One below the end whose table has an unused number or can get one, looked for from a CPU on first.
fn cpu_from(mount: &Fs<MemRegion>, from: u64, end: u64) -> Option<u64>
    requires can { CanClean mount.now }
    requires end { end ≤ mount.now.sup.cpus }
    ensures some { IfSome result (λ cpu. (cpu < end) × HasNumber mount.now.sup (tree_of mount.now.memory.region mount.now.rows) cpu) }
    ensures none { IsNone result → (cpu : ℕ) → cpu < end → lowest_unused mount.now.sup (tree_of mount.now.memory.region mount.now.rows) cpu ≡ None }
{
    match cpu_between(mount, from, end) {
        Some(cpu) => Some(cpu),
        None => cpu_between(mount, 0, end),
    }
}

// The first from one CPU on up to another.
fn cpu_between(mount: &Fs<MemRegion>, from: u64, end: u64) -> Option<u64>
    requires can { CanClean mount.now }
    requires end { end ≤ mount.now.sup.cpus }
    ensures some { IfSome result (λ cpu. (cpu < end) × HasNumber mount.now.sup (tree_of mount.now.memory.region mount.now.rows) cpu) }
    ensures none { IsNone result → (cpu : ℕ) → from ≤ cpu → cpu < end → lowest_unused mount.now.sup (tree_of mount.now.memory.region mount.now.rows) cpu ≡ None }
{
    for cpu in from..end {
        if has_number(mount, cpu) {
            return Some(cpu);
        }
    }
    None
}

// Whether the table of a CPU has an unused number or can get one.
fn has_number(mount: &Fs<MemRegion>, cpu: u64) -> bool
    requires can { CanClean mount.now }
    requires cpu { cpu < mount.now.sup.cpus }
    ensures { result ≡ is_some (lowest_unused mount.now.sup (tree_of mount.now.memory.region mount.now.rows) cpu) }
{
    // While this is kept, the number is that by the superblock alone.
    mount.keeps();
    let number = mount.new_number(Cpu(cpu));
    number.is_some()
}
