//! The calls that read, for an inode's number in place of a path: also of one that no path leads to.

ghost use Rattle.std.specs.Prelude.{◌≡◌, map, IsTrue, IfOk, IfErr, OnOk, OnErr, Option, Result, false};
ghost use Rattle.std.specs.List.{Contains};
ghost use Rattle.nv_tree.specs.Refusals.{first_refusal, IsReadRefusedBy};
ghost use Rattle.nv_tree.specs.declared.refusal.Refusal.{Refusal};
ghost use Rattle.nv_paths.specs.Seen.{node_of};
ghost use Rattle.nv_calls.specs.ByNumber.{IsInodeRead, IsInodeReadInto, IsInodeStat, ListsInode, list_inode_tests, read_inode_tests, stat_inode_tests};
ghost use Rattle.nv_calls.specs.Listing.{name_and_inode};
ghost use Rattle.nv_calls.specs.Mount.{shown};
ghost use Rattle.nv_calls.specs.NamesByNumber.{IsStatNamed, lookup_inode_tests};

use crate::Fs;
use nv_names::Named;
use nv_paths::row_named;
use nv_region::Pmem;
use nv_rows::stat_of;
use nv_scan::Row;
use nv_super::Kind;
use nv_tree::{Refusal, Stat};

impl<P: Pmem + Drop> Fs<P> {
    /// The numbers of the inode of this number. It takes no memory.
    ///
    /// Errors, the first that applies: `Stopped` after a stop, `NotFound` where no inode in use has the number.
    pub fn stat_inode(&self, inode: u64) -> Result<Stat, Refusal>
        ensures stopped { IsTrue self.now.stopped → result ≡ Result.Err Refusal.Stopped }
        ensures ok { IfOk result (IsInodeStat (shown P.region self.now) inode) }
        ensures allowed { OnOk result (first_refusal (stat_inode_tests (shown P.region self.now) inode) ≡ Option.None) }
        ensures refused { self.now.stopped ≡ false → IfErr result (λ e. first_refusal (stat_inode_tests (shown P.region self.now) inode) ≡ Option.Some e) }
    {
        Ok(stat_of(self.row_of(inode)?))
    }

    /// The bytes of the file of this number, from an offset on up to its size, at most so many.
    ///
    /// Errors, the first that applies: `Stopped` after a stop, `NotFound` where no inode in use has the number, `IsDirectory`
    /// for a directory. `Memory` where a growth was refused.
    pub fn read_inode(&self, inode: u64, offset: u64, count: u64) -> Result<Vec<u8>, Refusal>
        ensures stopped { IsTrue self.now.stopped → result ≡ Result.Err Refusal.Stopped }
        ensures ok { IfOk result (λ bytes. IsInodeRead (shown P.region self.now) inode offset count bytes.items) }
        ensures allowed { OnOk result (first_refusal (read_inode_tests (shown P.region self.now) inode) ≡ Option.None) }
        ensures refused { self.now.stopped ≡ false → IfErr result (IsReadRefusedBy (first_refusal (read_inode_tests (shown P.region self.now) inode))) }
    {
        let row = self.row_of(inode)?;
        if row.kind == Kind::Directory {
            return Err(Refusal::IsDirectory);
        }
        match self.bytes_of(row, offset, count) {
            Ok(bytes) => Ok(bytes),
            Err(_) => Err(Refusal::Memory),
        }
    }

    /// Puts the bytes of the file of this number into a buffer, from an offset on up to its size, as many as fit, and answers how
    /// many these are. The rest of the buffer stays. It takes no memory.
    ///
    /// Errors, the first that applies, with the buffer as before: `Stopped` after a stop, `NotFound` where no inode in use has
    /// the number, `IsDirectory` for a directory.
    pub fn read_inode_into(
        &self,
        inode: u64,
        offset: u64,
        buffer: &mut [u8],
    ) -> Result<usize, Refusal>
        ensures stopped { IsTrue self.now.stopped → result ≡ Result.Err Refusal.Stopped }
        ensures ok { IfOk result (λ count. IsInodeReadInto (shown P.region self.now) inode offset buffer.old count buffer.new) }
        ensures allowed { OnOk result (first_refusal (read_inode_tests (shown P.region self.now) inode) ≡ Option.None) }
        ensures refused { self.now.stopped ≡ false → IfErr result (λ e. first_refusal (read_inode_tests (shown P.region self.now) inode) ≡ Option.Some e) }
        ensures unchanged { OnErr result (buffer.new ≡ buffer.old) }
    {
        let row = self.row_of(inode)?;
        match row.kind {
            Kind::File => Ok(self.fill_from(row, offset, buffer)),
            Kind::Directory => Err(Refusal::IsDirectory),
        }
    }

    /// The names of the directory of this number, rising by bytes.
    ///
    /// Errors, the first that applies: `Stopped` after a stop, `NotFound` where no inode in use has the number, `NotDirectory`
    /// for a file. `Memory` where a growth was refused.
    pub fn list_inode(&self, inode: u64) -> Result<Vec<Named<'_>>, Refusal>
        ensures stopped { IsTrue self.now.stopped → result ≡ Result.Err Refusal.Stopped }
        ensures ok { IfOk result (λ listed. ListsInode (shown P.region self.now) inode (map name_and_inode listed.items)) }
        ensures allowed { OnOk result (first_refusal (list_inode_tests (shown P.region self.now) inode) ≡ Option.None) }
        ensures refused { self.now.stopped ≡ false → IfErr result (IsReadRefusedBy (first_refusal (list_inode_tests (shown P.region self.now) inode))) }
    {
        let row = self.row_of(inode)?;
        if row.kind == Kind::File {
            return Err(Refusal::NotDirectory);
        }
        match row.names.list() {
            Ok(listed) => Ok(listed),
            Err(_) => Err(Refusal::Memory),
        }
    }

    /// The numbers of the inode that a name of the directory of this number stands for. It takes no memory.
    ///
    /// Errors, the first that applies:
    /// - `Stopped` after a stop
    /// - `BadName` where no path can say the name
    /// - `NotFound` where no inode in use has the directory's number, and `NotDirectory` where a file has it
    /// - `NotFound` where no inode in use has the name
    pub fn lookup_inode(&self, directory: u64, name: &[u8]) -> Result<Stat, Refusal>
        ensures stopped { IsTrue self.now.stopped → result ≡ Result.Err Refusal.Stopped }
        ensures ok { IfOk result (IsStatNamed (shown P.region self.now) directory name.now) }
        ensures allowed { OnOk result (first_refusal (lookup_inode_tests (shown P.region self.now) directory name.now) ≡ Option.None) }
        ensures refused { self.now.stopped ≡ false → IfErr result (λ e. first_refusal (lookup_inode_tests (shown P.region self.now) directory name.now) ≡ Option.Some e) }
    {
        if self.stopped {
            return Err(Refusal::Stopped);
        }
        Ok(stat_of(row_named(&self.rows, directory, name)?))
    }

    // The row of the inode in use of this number.
    fn row_of(&self, inode: u64) -> Result<&Row, Refusal>
        ensures stopped { IsTrue self.now.stopped → result ≡ Result.Err Refusal.Stopped }
        ensures runs { OnOk result (self.now.stopped ≡ false) }
        ensures row { IfOk result (λ r. shown P.region self.now inode ≡ Option.Some (node_of (P.region self.now.memory) r.now)) }
        ensures number { IfOk result (λ r. r.now.inode ≡ inode) }
        ensures held { IfOk result (λ r. Contains self.now.rows r.now) }
        ensures refused { self.now.stopped ≡ false → IfErr result (λ e. (e ≡ Refusal.NotFound) × (shown P.region self.now inode ≡ Option.None)) }
    {
        if self.stopped {
            return Err(Refusal::Stopped);
        }
        match self.rows.get(inode) {
            Some(row) => Ok(row),
            None => Err(Refusal::NotFound),
        }
    }
}
