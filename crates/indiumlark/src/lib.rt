//! A file system for persistent memory, of which the mount after a crash and every call is proved: one crate to depend on.
//!
//! In crates.txt a program that stands on it has the line `NAME: indiumlark`. A first program:
//!
//! ```
//! let mut memory = MemRegion::new(alloc, 64)?;
//! format(&mut memory, 2, 1, 0)?;
//! let mut fs = Fs::mount(alloc, memory)?;
//! fs.create(Cpu(0), b"/hello", 420, Time(1))?;
//! fs.write(Cpu(0), b"/hello", 0, b"hi there\n", Time(2))?;
//! let bytes = fs.read(b"/hello", 0, 100)?;
//! ```
//!
//! The program `each_call` has an example for each call and each memory. A *region* is memory of 4096-byte blocks, a [`Pmem`]:
//! a [`MemRegion`], which a fuse can stop as a power cut does; a [`WordRegion`] over words that you lend; or one of your own.
//! What the calls promise, each in its contract:
//!
//! - [`format`] makes a region a file system with the root directory alone.
//! - [`Fs::mount`] takes any region, damaged or not. What it mounts is the outcome that is defined of the region as it came:
//!   every inode in use, every free block and every fault. With faults it can only be read. An error hands the memory back.
//!   [`Fs::mount_with`] does the same on threads.
//! - `read`, `stat` and `list` answer what the tree of the region has at a path; `read_inode`, `stat_inode` and `list_inode` what
//!   it has by a number, also where no path leads to it; `rows`, `free` and `faults` all that was found.
//! - `create`, `mkdir`, `write`, `set_size`, `set_attr`, `link`, `unlink`, `rmdir`, `rename` and `replace` make of the tree what
//!   is defined of each. A call that is refused changes nothing, and says by a [`Refusal`] why. `clean` frees log pages.
//!   After `upgrade` a full table grows for a new inode.
//! - A power cut at any store of a call leaves the tree of before the call, or the one that the call makes. Once it has
//!   answered `Ok`, the latter stays. After [`Refusal::Stopped`] every call answers it, until the region is mounted again:
//!   `Fs::into_memory` gives the memory back, and `MemRegion::after_stop` is what the power cut left of it.
//!
//! A [`Cpu`] is a number from 0 on; each has a pool of blocks and a table of inodes of its own. A [`Time`] is a number of the
//! caller's.
//! Laws about regions and calls are in [`laws`]. What contracts cite is handed on: `Rattle.indiumlark.specs.nv_tree` has the
//! definitions of the crate nv_tree, and so for each crate that a contract here speaks of.
#![tactic(auto)]

pub mod laws;

pub use nv_alloc::{Allocators, FreeRuns};
pub use nv_calls::{Cpu, Data, Fs, Stat, Time};
pub use nv_deadpages::DeadPages;
pub use nv_format::{FormatRefusal, format};
pub use nv_inode::Tables;
pub use nv_lent::WordRegion;
pub use nv_names::Named;
pub use nv_recover::{MOST_WORKERS, RecoverError};
pub use nv_region::{Fuse, ImageRegion, Keep, MemRegion, Pmem, RegionRefusal, Stopped};
pub use nv_rows::Rows;
pub use nv_scan::Row;
pub use nv_super::{Fault, Kind, Owner, Run, Super, SuperFault};
pub use nv_tree::Refusal;
