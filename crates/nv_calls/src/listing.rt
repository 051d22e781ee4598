//! `list`: the names of a directory.

ghost use Rattle.std.specs.Prelude.{◌≡◌, ℕ, List, map, IsTrue, IfOk, IfErr, OnOk, Option, Result, false};
ghost use Rattle.nv_tree.specs.Path.{IsPath, Says};
ghost use Rattle.nv_tree.specs.Refusals.{Path, first_refusal, list_tests, IsReadRefusedBy};
ghost use Rattle.nv_tree.specs.declared.refusal.Refusal.{Refusal};
ghost use Rattle.nv_calls.specs.Listing.{name_and_inode, ListsNamesIn};
ghost use Rattle.nv_calls.specs.Mount.{shown};

use crate::Fs;
use nv_names::Named;
use nv_region::Pmem;
use nv_super::Kind;
use nv_tree::Refusal;

impl<P: Pmem + Drop> Fs<P> {
    /// The names of the directory that a path leads to, rising by bytes.
    ///
    /// Errors, the first that applies: `Stopped` after a stop, `BadName` where the text is no path, `NotFound` or
    /// `NotDirectory` for an inode on the way, `NotFound` for the last name, `NotDirectory` for a file. `Memory` where a
    /// growth was refused.
    pub fn list(&self, path: &[u8]) -> Result<Vec<Named<'_>>, Refusal>
        ensures stopped { IsTrue self.now.stopped → result ≡ Result.Err Refusal.Stopped }
        ensures ok { (names : List (List ℕ)) → IsPath path.now names
            → IfOk result (λ listed. ListsNamesIn (shown P.region self.now) names (map name_and_inode listed.items)) }
        ensures allowed { (p : Path) → Says path.now p → OnOk result (first_refusal (list_tests (shown P.region self.now) p) ≡ Option.None) }
        ensures refused { self.now.stopped ≡ false → (p : Path) → Says path.now p
            → IfErr result (IsReadRefusedBy (first_refusal (list_tests (shown P.region self.now) p))) }
    {
        let row = self.target(path)?;
        if row.kind == Kind::File {
            return Err(Refusal::NotDirectory);
        }
        match row.names.list() {
            Ok(listed) => Ok(listed),
            Err(_) => Err(Refusal::Memory),
        }
    }
}
