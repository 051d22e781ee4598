//! A mounted file system: the memory, and what recovery found in its region.

ghost use Rattle.std.specs.Prelude.{◌≡◌, ◌<◌, ℕ, List, IsTrue, IfOk, Result, false};
ghost use Rattle.std.specs.Result.{result_err};
ghost use Rattle.std.specs.List.{Contains};
ghost use Rattle.nv_region.specs.Stops.{LeavesOnly, NothingPending};
ghost use Rattle.nv_journal.specs.Undo.{undone};
ghost use Rattle.nv_rows.specs.RowList.{HasNumbersOf};
ghost use Rattle.nv_rows.specs.Unused.{unused_number};
ghost use Rattle.nv_alloc.specs.Taking.{pool_at};
ghost use Rattle.nv_outcome.specs.Outcome.{IsOutcome};
ghost use Rattle.nv_outcome.specs.Same.{lasting_outcome};
ghost use Rattle.nv_outcome.specs.Answer.{outcome_of};
ghost use Rattle.nv_tree.specs.Path.{IsPath, Says};
ghost use Rattle.nv_tree.specs.Refusals.{Path, first_refusal, stat_tests};
ghost use Rattle.nv_tree.specs.declared.refusal.Refusal.{Refusal as RefusalValue};
ghost use Rattle.nv_paths.specs.Seen.{node_of, LeadsTo};
ghost use Rattle.nv_paths.specs.Spots.{new_number};
ghost use Rattle.nv_calls.specs.Mount.{IsKept, shown};
ghost use Rattle.nv_calls.specs.Mounting.{IsMountOf};
ghost use Rattle.nv_calls.specs.Stopped.{LeavesMounted};

use crate::arguments::Cpu;
use nv_alloc::{Allocators, FreeRuns};
use nv_inode::Tables;
use nv_mounted::Recovered;
use nv_paths::{new_number, row_at};
use nv_region::{Fuse, MemRegion, Pmem};
use nv_rows::Rows;
use nv_scan::Row;
use nv_super::{Fault, Super};
use nv_tree::Refusal;
use std::alloc::Global;
use std::marker::Model;

/// A mounted file system.
///
/// Until a call answers `Stopped`, its rows, free lists and faults are what recovery would find in its region, but for the
/// faults of pending records, which the recovery that it was opened with has rolled back. Between calls nothing is pending:
/// a power cut then leaves the region as it reads.
#[derive(Drop)]
pub struct Fs<P: Pmem + Drop> {
    pub(crate) alloc: Global,
    pub(crate) memory: P,
    pub(crate) tables: Tables,
    pub(crate) rows: Rows,
    pub(crate) free: Allocators,
    faults: Vec<Fault>,
    pub(crate) read_only: bool,
    pub(crate) stopped: bool,
}

impl<P: Pmem + Drop> Model for Fs<P> {
    ghost use Rattle.std.specs.Prelude.{◌≡◌, false};
    ghost use Rattle.nv_region.specs.Stops.{NothingPending};
    ghost use Rattle.nv_rows.specs.RowList.{HasNumbersOf};
    ghost use Rattle.nv_calls.specs.Mount.{Mount, IsKept};

    ghost Value = { Mount P };

    ghost view = { λ a. record {
      memory = a.memory;
      sup = a.tables.layout.sup;
      layout = a.tables.layout;
      rows = a.rows.items;
      free = a.free;
      faults = a.faults.items;
      read_only = a.read_only;
      stopped = a.stopped;
    } };

    ghost invariant = { λ a. IsKept (P.region a.memory) a.tables.layout.sup a.tables.layout a.rows.items a.free a.faults.items a.read_only a.stopped × HasNumbersOf a.tables.layout a.rows
        × (a.stopped ≡ false → NothingPending (P.region a.memory) (P.may_hold a.memory)) };
}

impl<P: Pmem + Drop> Fs<P> {
    /// Mounts a region that was recovered, and of which nothing is pending: read-only where faults were found. It takes no
    /// memory.
    pub fn open(alloc: Global, memory: P, recovered: Recovered) -> Fs<P>
        requires outcome { IsOutcome (P.region memory) (lasting_outcome (outcome_of recovered)) }
        requires lists { recovered.free.sup ≡ recovered.sup }
        requires tables { recovered.tables.layout.sup ≡ recovered.sup }
        requires numbers { HasNumbersOf recovered.tables.layout recovered.rows }
        requires own { undone recovered.sup (P.region memory) ≡ P.region memory }
        requires settled { NothingPending (P.region memory) (P.may_hold memory) }
        ensures { IsMountOf memory recovered result }
    {
        let Recovered {
            sup: _,
            tables,
            rows,
            free,
            doubled: _,
            faults,
        } = recovered;
        let read_only = !faults.is_empty();
        Fs {
            alloc,
            memory,
            tables,
            rows,
            free,
            faults,
            read_only,
            stopped: false,
        }
    }

    /// The memory again.
    pub fn into_memory(self) -> P
        ensures { result ≡ self.memory }
    {
        self.memory
    }

    /// The memory.
    pub fn memory(&self) -> &P
        ensures { result.now ≡ self.now.memory }
    {
        &self.memory
    }

    /// The superblock's numbers.
    pub fn superblock(&self) -> &Super
        ensures { result.now ≡ self.now.sup }
    {
        self.tables.sup()
    }

    /// The tables in which the slots of the inodes stand.
    pub fn tables(&self) -> &Tables
        ensures { result.now.layout ≡ self.now.layout }
    {
        &self.tables
    }

    /// The rows of the inodes in use, rising by number.
    pub fn rows(&self) -> &Rows
        ensures { result.now.items ≡ self.now.rows }
    {
        &self.rows
    }

    /// The lowest number of a CPU's table that no inode in use has. It looks at one word for 64 numbers.
    pub fn unused_number(&self, cpu: Cpu) -> Option<u64>
        requires { cpu < self.now.sup.cpus }
        ensures { result ≡ unused_number self.now.layout self.now.rows cpu }
    {
        self.rows.lowest_unused(cpu.0)
    }

    /// The number that a new inode gets in the name of a CPU: the lowest of the CPU's table that no inode in use has. Where there
    /// is none it is, in version 2, the first number behind the table, which grows for it.
    pub fn new_number(&self, cpu: Cpu) -> Option<u64>
        requires { cpu < self.now.sup.cpus }
        ensures { result ≡ new_number self.now.layout self.now.rows cpu }
    {
        new_number(&self.rows, &self.tables, cpu.0)
    }

    /// The free blocks of each CPU's pool.
    pub fn free(&self) -> &Allocators
        ensures { result.now ≡ self.now.free }
    {
        &self.free
    }

    /// The runs of the free blocks of a CPU's pool, in blocks, rising. It takes no memory.
    pub fn free_runs(&self, cpu: Cpu) -> FreeRuns<'_>
        requires { cpu < self.now.sup.cpus }
        ensures { result ≡ pool_at self.now.free.pools cpu }
    {
        self.free.runs(cpu.0)
    }

    /// The faults that were found when it was recovered.
    pub fn faults(&self) -> &[Fault]
        ensures { result.now ≡ self.now.faults }
    {
        self.faults.as_slice()
    }

    /// What a mounted file system always keeps, for those who see only its parts. It does nothing.
    pub fn keeps(&self)
        ensures { IsKept (P.region self.now.memory) self.now.sup self.now.layout self.now.rows self.now.free self.now.faults self.now.read_only self.now.stopped }
    {
        // Its type's promise is known where a field is used.
        let _ = &self.tables;
    }

    /// Between calls nothing is pending. It does nothing.
    pub fn nothing_is_pending(&self)
        ensures { self.now.stopped ≡ false → NothingPending (P.region self.now.memory) (P.may_hold self.now.memory) }
    {
        let _ = &self.tables;
    }

    /// Whatever a stop leaves between calls, as after one that answered `Ok`: recovery finds what is mounted, without faults.
    /// It does nothing.
    pub fn recovers_as_mounted(&self)
        ensures { self.now.stopped ≡ false → self.now.read_only ≡ false → LeavesOnly (P.region self.now.memory) (P.may_hold self.now.memory) (LeavesMounted (P.region self.now.memory) self.now) }
    {
        self.keeps();
        self.nothing_is_pending();
    }

    /// The row of the inode in use that a path leads to, or the refusal that `stat` has.
    pub(crate) fn target(&self, path: &[u8]) -> Result<&Row, Refusal>
        ensures stopped { IsTrue self.now.stopped → result ≡ Result.Err RefusalValue.Stopped }
        ensures row { (names : List (List ℕ)) → IsPath path.now names → IfOk result (λ r. LeadsTo (shown P.region self.now) names r.now.inode (node_of (P.region self.now.memory) r.now)) }
        ensures held { IfOk result (λ r. Contains self.now.rows r.now) }
        ensures refused { self.now.stopped ≡ false → (p : Path) → Says path.now p → first_refusal (stat_tests (shown P.region self.now) p) ≡ result_err result }
    {
        if self.stopped {
            return Err(Refusal::Stopped);
        }
        row_at(&self.rows, path)
    }
}

impl Fs<MemRegion> {
    /// Puts another fuse into the memory, which counts as not burnt then, and changes nothing else. A mount that was stopped
    /// stays so.
    pub fn set_fuse(&mut self, fuse: Fuse)
        ensures { self.new ≡ record self.old { memory = record self.old.memory { fuse = fuse; burnt = false } } }
    {
        self.memory.set_fuse(fuse);
    }
}
