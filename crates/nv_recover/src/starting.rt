//! How each recovery begins: the number of workers is tested, the superblock and the tables are read, and
//! the journals are rolled back.

ghost use Rattle.std.specs.Prelude.{◌≡◌, ◌<◌, ◌≤◌, ℕ, List, IfOk, IfErr, IsTrue, false};
ghost use Rattle.nv_super.specs.Layout.{IsLayout};
ghost use Rattle.nv_journal.specs.Permitted.{slots_end};
ghost use Rattle.nv_recover.specs.declared.errors.RecoverError.TheVariants as errors;
ghost use Rattle.nv_recover.specs.Errors.{Fails, IsBadCount};
ghost use Rattle.nv_recover.specs.Keeping.{KeepsRecovering};
ghost use Rattle.nv_recover.specs.Started.{IsStarted};

use crate::errors::{MOST_WORKERS, RecoverError};
use nv_inode::{Tables, read_tables};
use nv_journal::undo_by;
use nv_region::Pmem;
use nv_super::{Fault, Super, WITH_CHAINS, read_super};
use std::alloc::Global;

/// The superblock's numbers, the tables, and what is wrong with the journals as the region came.
#[derive(Drop)]
pub(crate) struct Started {
    pub sup: Super,
    pub tables: Tables,
    pub journal: Vec<Fault>,
}

/// Whether there can be so many workers.
pub(crate) fn is_worker_count(workers: u64) -> bool
    ensures some { IsTrue result → (0 < workers) × (workers ≤ 64) }
    ensures good { IsTrue result → IsBadCount workers → ⊥ }
    ensures bad { result ≡ false → IsBadCount workers }
{
    (1..=MOST_WORKERS).contains(&workers)
}

/// How many of the first blocks slots can stand in. A recovery stores to no other: in version 1 to no data block.
pub fn slots_end(sup: &Super) -> u64
    requires { IsLayout sup.now }
    ensures value { result ≡ slots_end sup.now }
    ensures inside { result ≤ sup.now.blocks }
{
    if sup.version == WITH_CHAINS {
        sup.blocks
    } else {
        sup.system_blocks()
    }
}

/// Reads the superblock and the tables, and rolls the journals back, which leaves the tables as they are. What comes after
/// it only reads.
pub(crate) fn start<P: Pmem>(alloc: Global, memory: &mut P) -> Result<Started, RecoverError>
    ensures ok { IfOk result (λ started. IsStarted (P.region memory.old) (P.region memory.new) started) }
    ensures err { (workers : ℕ) (schedule : List ℕ) → IfErr result (λ e. Fails workers schedule e (P.region memory.old) (P.region memory.new)) }
    // What it stores, what a stop leaves, and when it is stopped.
    ensures kept { KeepsRecovering P.region P.may_hold P.fuse memory.old memory.new result }
{
    let sup = read_super(memory)?;
    let tables = read_tables(alloc, memory, &sup)?;
    let journal = undo_by(alloc, memory, &sup, &tables)?;
    Ok(Started {
        sup,
        tables,
        journal,
    })
}
