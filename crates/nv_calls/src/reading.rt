//! `read` and `read_into`: the bytes of a file, in a list or in a buffer.

ghost use Rattle.std.specs.Prelude.{◌≡◌, ℕ, List, ◌++◌, drop, length, IsTrue, IfOk, IfErr, OnOk, OnErr, Option, Result, false};
ghost use Rattle.std.specs.List.{Contains};
ghost use Rattle.nv_tree.specs.Path.{IsPath, Says};
ghost use Rattle.nv_tree.specs.Calls.{bytes_read};
ghost use Rattle.nv_tree.specs.Refusals.{Path, first_refusal, read_tests, IsReadRefusedBy};
ghost use Rattle.nv_tree.specs.declared.refusal.Refusal.{Refusal};
ghost use Rattle.nv_paths.specs.Seen.{node_of};
ghost use Rattle.nv_calls.specs.Reading.{IsRead, IsReadInto};
ghost use Rattle.nv_calls.specs.Mount.{shown};

use crate::Fs;
use nv_bytes::{fill_bytes, read_bytes};
use nv_region::Pmem;
use nv_scan::Row;
use nv_super::Kind;
use nv_tree::Refusal;
use std::alloc::AllocError;

impl<P: Pmem + Drop> Fs<P> {
    /// The bytes of the file that a path leads to, from an offset on up to its size, at most so many.
    ///
    /// Errors, the first that applies: `Stopped` after a stop, `BadName` where the text is no path, `NotFound` or
    /// `NotDirectory` for an inode on the way, `NotFound` for the last name, `IsDirectory` for a directory. `Memory` where
    /// a growth was refused.
    pub fn read(&self, path: &[u8], offset: u64, count: u64) -> Result<Vec<u8>, Refusal>
        ensures stopped { IsTrue self.now.stopped → result ≡ Result.Err Refusal.Stopped }
        ensures ok { (names : List (List ℕ)) → IsPath path.now names
            → IfOk result (λ bytes. IsRead (shown P.region self.now) names offset count bytes.items) }
        ensures allowed { (p : Path) → Says path.now p → OnOk result (first_refusal (read_tests (shown P.region self.now) p) ≡ Option.None) }
        ensures refused { self.now.stopped ≡ false → (p : Path) → Says path.now p
            → IfErr result (IsReadRefusedBy (first_refusal (read_tests (shown P.region self.now) p))) }
    {
        let row = self.target(path)?;
        if row.kind == Kind::Directory {
            return Err(Refusal::IsDirectory);
        }
        match self.bytes_of(row, offset, count) {
            Ok(bytes) => Ok(bytes),
            Err(_) => Err(Refusal::Memory),
        }
    }

    /// Puts the bytes of the file that a path leads to into a buffer, from an offset on up to its size, as many as fit, and
    /// answers how many these are. The rest of the buffer stays. It takes no memory.
    ///
    /// Errors, the first that applies, with the buffer as before: `Stopped` after a stop, `BadName` where the text is no
    /// path, `NotFound` or `NotDirectory` for an inode on the way, `NotFound` for the last name, `IsDirectory` for a
    /// directory.
    pub fn read_into(&self, path: &[u8], offset: u64, buffer: &mut [u8]) -> Result<usize, Refusal>
        ensures stopped { IsTrue self.now.stopped → result ≡ Result.Err Refusal.Stopped }
        ensures ok { (names : List (List ℕ)) → IsPath path.now names
            → IfOk result (λ count. IsReadInto (shown P.region self.now) names offset buffer.old count buffer.new) }
        ensures allowed { (p : Path) → Says path.now p → OnOk result (first_refusal (read_tests (shown P.region self.now) p) ≡ Option.None) }
        ensures refused { self.now.stopped ≡ false → (p : Path) → Says path.now p
            → IfErr result (λ e. first_refusal (read_tests (shown P.region self.now) p) ≡ Option.Some e) }
        ensures unchanged { OnErr result (buffer.new ≡ buffer.old) }
    {
        let row = self.target(path)?;
        match row.kind {
            Kind::File => Ok(self.fill_from(row, offset, buffer)),
            Kind::Directory => Err(Refusal::IsDirectory),
        }
    }

    /// Puts the bytes of an inode, by its row, into a buffer, and answers how many these are.
    pub(crate) fn fill_from(&self, row: &Row, offset: u64, buffer: &mut [u8]) -> usize
        requires held { Contains self.now.rows row.now }
        requires runs { self.now.stopped ≡ false }
        ensures count { result ≡ length (bytes_read offset (length buffer.old) (node_of (P.region self.now.memory) row.now)) }
        ensures bytes { buffer.new ≡ bytes_read offset (length buffer.old) (node_of (P.region self.now.memory) row.now) ++ drop result buffer.old }
    {
        let size = row.numbers.size;
        let count = (buffer.len() as u64).min(size.saturating_sub(offset)) as usize;
        fill_bytes(
            &self.memory,
            &row.index,
            offset.min(size),
            &mut buffer[..count],
        );
        count
    }

    /// The bytes of an inode, by its row.
    pub(crate) fn bytes_of(&self, row: &Row, offset: u64, count: u64) -> Result<Vec<u8>, AllocError>
        requires held { Contains self.now.rows row.now }
        requires runs { self.now.stopped ≡ false }
        ensures { IfOk result (λ bytes. bytes.items ≡ bytes_read offset count (node_of (P.region self.now.memory) row.now)) }
    {
        let size = row.numbers.size;
        let count = count.min(size.saturating_sub(offset));
        read_bytes(
            self.alloc,
            &self.memory,
            &row.index,
            offset.min(size),
            count,
        )
    }
}
