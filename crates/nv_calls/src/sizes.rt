//! `set_size`: the size of a file.

ghost use Rattle.std.specs.Prelude.{◌≡◌, ◌<◌, ◌≤◌, ◌∷◌, ◌++◌, [], ℕ, List, Option, Result, IfOk, IfErr, OnOk, false};
ghost use Rattle.std.specs.Result.{result_err};
ghost use Rattle.nv_region.specs.Region.{Region};
ghost use Rattle.nv_region.specs.Stops.{LeavesOnly, NothingPending};
ghost use Rattle.nv_super.specs.Layout.{most_size};
ghost use Rattle.nv_super.specs.declared.kind.Kind.TheVariants.{File};
ghost use Rattle.nv_rows.specs.Rows.{row_of};
ghost use Rattle.nv_mounted.specs.Held.{Held, Store};
ghost use Rattle.nv_mounted.specs.Mounted.{ShowsSound};
ghost use Rattle.nv_tree.specs.Path.{IsPath, Says};
ghost use Rattle.nv_tree.specs.Tree.{Node, SameTree, is_directory};
ghost use Rattle.nv_tree.specs.Calls.{edit, resized, with_size};
ghost use Rattle.nv_tree.specs.Refusals.{Path, first_refusal, is_dir, is_too_large, set_size_tests, stat_tests, IsRefusedBy};
ghost use Rattle.nv_tree.specs.declared.refusal.Refusal.{Refusal as RefusalValue};
ghost use Rattle.nv_calls.specs.ChangesByNumber.{logs_inode_size, resize_inode_tests, resized_inode_blocks, set_size_inode_tests};
ghost use Rattle.nv_calls.specs.Effects.{logs_size, makes_size};
ghost use Rattle.nv_calls.specs.Stopped.{LeavesCall, StopLeaves};
ghost use Rattle.nv_paths.specs.Seen.{LeadsTo, node_of, tree_of};
ghost use Rattle.nv_calls.specs.SizeCall.{ShowsResizedLog, resized_blocks};
ghost use Rattle.nv_calls.specs.World.{world_of};
ghost use Rattle.nv_steps.specs.Stores.{StoresIn, one_log};
ghost use Rattle.nv_calls.specs.Mount.{shown};
ghost use Rattle.nv_calls.specs.Keeping.{IsNoPath, KeepsCall, SettlesCall};

use crate::Fs;
use crate::arguments::{Cpu, Time};
use crate::writing::is_stop;
use nv_entry::AttrEntry;
use nv_paths::row_at;
use nv_region::Pmem;
use nv_rows::Rows;
use nv_scan::Row;
use nv_steps::resize;
use nv_super::{Kind, MOST_FILE_BYTES};
use nv_tree::Refusal;

impl<P: Pmem + Drop> Fs<P> {
    /// Sets the size and the time of the file that a path leads to: it is cut, or lengthened by zeros.
    ///
    /// Errors, the first that applies:
    /// - `Stopped` after a stop
    /// - `BadCpu` where there is no CPU of that number
    /// - `ReadOnly` where the region was mounted with faults
    /// - `BadName` where the text is no path
    /// - `NotFound` or `NotDirectory` for an inode on the way
    /// - `NotFound` for the last name
    /// - `IsDirectory` for a directory
    /// - `TooLarge` for more bytes than a file can have
    /// - `NoSpace` where fewer blocks are free than it needs
    ///
    /// Besides these `Memory` where a growth was refused, and `Stopped` where the fuse burns. All but `Stopped` leave
    /// everything as it was.
    pub fn set_size(&mut self, cpu: Cpu, path: &[u8], size: u64, time: Time) -> Result<(), Refusal>
        ensures allowed { (p : Path) → Says path.now p
            → OnOk result (first_refusal (set_size_tests (world_of self.old) (shown P.region self.old) cpu p size (resized_blocks self.old.rows (shown P.region self.old) p size)) ≡ Option.None) }
        ensures refused { self.old.stopped ≡ false → (p : Path) → Says path.now p
            → IfErr result (IsRefusedBy (first_refusal (set_size_tests (world_of self.old) (shown P.region self.old) cpu p size (resized_blocks self.old.rows (shown P.region self.old) p size)))) }
        ensures changed { (names : List (List ℕ)) → IsPath path.now names
            → OnOk result (SameTree (shown P.region self.new) (resized names size time (shown P.region self.old))) }
        // The log of the file has the entries for its size, and no other log has changed.
        ensures log { (names : List (List ℕ)) (i : ℕ) (node : Node) (held : Store) (h : Held) → IsPath path.now names → LeadsTo (shown P.region self.old) names i node
            → ShowsSound (P.region self.old.memory) self.old.layout held → held i ≡ Option.Some h
            → OnOk result (ShowsResizedLog (P.region self.new.memory) self.old.layout self.old.free.pools cpu held i h node size time) }
        // What every call that writes keeps.
        ensures call { SettlesCall P.region P.may_hold P.fuse (IsNoPath path.now) self.old self.new result }
        // Every word outside these places is as it was.
        ensures wrote { (names : List (List ℕ)) (i : ℕ) (node : Node) (held : Store) → IsPath path.now names → LeadsTo (shown P.region self.old) names i node
            → ShowsSound (P.region self.old.memory) self.old.layout held → StoresIn self.old.layout held (one_log self.old.layout i) (P.region self.old.memory) (P.region self.new.memory) }
        // Whatever a stop leaves, at any exit: recovery finds what was mounted, or what the call makes, without faults.
        ensures any_stop { (names : List (List ℕ)) → IsPath path.now names → self.old.stopped ≡ false → self.old.read_only ≡ false
            → LeavesOnly (P.region self.new.memory) (P.may_hold self.new.memory) (LeavesCall (makes_size size time) (logs_size cpu size time) (P.region self.old.memory) self.old names) }
    {
        self.writable(cpu.0)?;
        let inode = resizable_at(&self.rows, path, size)?.inode;
        self.set_size_inode(cpu, inode, size, time)
    }

    /// Does what `set_size` does, for the file of this number.
    ///
    /// Errors, the first that applies:
    /// - `Stopped` after a stop
    /// - `BadCpu` where there is no CPU of that number
    /// - `ReadOnly` where the region was mounted with faults
    /// - `NotFound` where no inode in use has the number
    /// - `IsDirectory` for a directory
    /// - `TooLarge` for more bytes than a file can have
    /// - `NoSpace` where fewer blocks are free than it needs
    ///
    /// Besides these `Memory` where a growth was refused, and `Stopped` where the fuse burns. All but `Stopped` leave
    /// everything as it was.
    pub fn set_size_inode(
        &mut self,
        cpu: Cpu,
        inode: u64,
        size: u64,
        time: Time,
    ) -> Result<(), Refusal>
        ensures allowed { OnOk result (first_refusal (set_size_inode_tests (world_of self.old) (shown P.region self.old) cpu inode size
            (resized_inode_blocks self.old.rows inode size)) ≡ Option.None) }
        ensures refused { self.old.stopped ≡ false
            → IfErr result (IsRefusedBy (first_refusal (set_size_inode_tests (world_of self.old) (shown P.region self.old) cpu inode size (resized_inode_blocks self.old.rows inode size)))) }
        ensures changed { OnOk result (SameTree (shown P.region self.new) (edit inode (with_size size time) (shown P.region self.old))) }
        // The log of the file has the entries for its size, and no other log has changed.
        ensures log { (node : Node) (held : Store) (h : Held) → shown P.region self.old inode ≡ Option.Some node → ShowsSound (P.region self.old.memory) self.old.layout held
            → held inode ≡ Option.Some h → OnOk result (ShowsResizedLog (P.region self.new.memory) self.old.layout self.old.free.pools cpu held inode h node size time) }
        // What every call that writes keeps.
        ensures call { KeepsCall P.region P.fuse self.old self.new result }
        ensures settled { OnOk result (NothingPending (P.region self.new.memory) (P.may_hold self.new.memory)) }
        // Every word outside these places is as it was.
        ensures wrote { (held : Store) → ShowsSound (P.region self.old.memory) self.old.layout held
            → StoresIn self.old.layout held (one_log self.old.layout inode) (P.region self.old.memory) (P.region self.new.memory) }
        // Whatever a stop leaves, at any exit: recovery finds what was mounted, or what the call makes, without faults.
        ensures any_stop { self.old.stopped ≡ false → self.old.read_only ≡ false
            → LeavesOnly (P.region self.new.memory) (P.may_hold self.new.memory) (StopLeaves (P.region self.old.memory) self.old.layout self.old.rows self.old.free.pools
            (edit inode (with_size size time) (shown P.region self.old)) (logs_inode_size cpu size time inode (P.region self.old.memory) self.old)) }
    {
        self.writable(cpu.0)?;
        resizable_inode(&self.rows, inode, size)?;
        let mut row = self.rows.lend(self.alloc, inode);
        let attributes = AttrEntry {
            mode: row.numbers.mode,
            size,
            time: time.0,
            owner: row.numbers.owner,
            group: row.numbers.group,
        };
        let resized = resize(
            self.alloc,
            &mut self.memory,
            &self.tables,
            &mut self.free,
            cpu.0,
            &mut row,
            attributes,
        );
        self.rows.give_back(row);
        match resized {
            Ok(()) => Ok(()),
            Err(refusal) => {
                self.stopped = is_stop(refusal);
                Err(refusal)
            }
        }
    }
}

/// The row of the file that a path leads to, where it can get a size. The refusals are those of `stat`, and then
/// those of `can_have_size`.
pub(crate) fn resizable_at<'a>(rows: &'a Rows, path: &[u8], size: u64) -> Result<&'a Row, Refusal>
    ensures row { (region : Region) (names : List (List ℕ)) → IsPath path.now names → IfOk result (λ r. LeadsTo (tree_of region rows.now.items) names r.now.inode (node_of region r.now)) }
    ensures held { IfOk result (λ r. row_of rows.now.items r.now.inode ≡ Option.Some r.now) }
    ensures file { IfOk result (λ r. r.now.kind ≡ File) }
    ensures most { OnOk result (size ≤ most_size) }
    ensures refused { (region : Region) (p : Path) → Says path.now p
        → first_refusal (stat_tests (tree_of region rows.now.items) p ++ is_dir (tree_of region rows.now.items) p ∷ is_too_large size ∷ []) ≡ result_err result }
{
    let row = row_at(rows, path)?;
    can_have_size(row, size)?;
    Ok(row)
}

/// The row of the file of this number, where it can get a size: `NotFound` where no inode in use has the number, and then what
/// `can_have_size` refuses.
pub(crate) fn resizable_inode(rows: &Rows, inode: u64, size: u64) -> Result<&Row, Refusal>
    ensures row { IfOk result (λ r. row_of rows.now.items inode ≡ Option.Some r.now) }
    ensures file { IfOk result (λ r. r.now.kind ≡ File) }
    ensures most { OnOk result (size ≤ most_size) }
    ensures refused { (region : Region) → first_refusal (resize_inode_tests (tree_of region rows.now.items) inode size) ≡ result_err result }
{
    let row = row_in_use(rows, inode)?;
    can_have_size(row, size)?;
    Ok(row)
}

fn row_in_use(rows: &Rows, inode: u64) -> Result<&Row, Refusal>
    ensures row { IfOk result (λ r. row_of rows.now.items inode ≡ Option.Some r.now) }
    ensures missing { IfErr result (λ e. (e ≡ RefusalValue.NotFound) × (row_of rows.now.items inode ≡ Option.None)) }
{
    match rows.get(inode) {
        Some(row) => Ok(row),
        None => Err(Refusal::NotFound),
    }
}

/// Whether an inode can get a size: `IsDirectory` for a directory, `TooLarge` for more bytes than a file can have.
fn can_have_size(row: &Row, size: u64) -> Result<(), Refusal>
    ensures { first_refusal ((is_directory row.now.kind, RefusalValue.IsDirectory) ∷ is_too_large size ∷ []) ≡ result_err result }
{
    if row.kind == Kind::Directory {
        return Err(Refusal::IsDirectory);
    }
    if size > MOST_FILE_BYTES {
        return Err(Refusal::TooLarge);
    }
    Ok(())
}
