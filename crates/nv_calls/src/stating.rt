//! `stat`: the numbers of an inode.

ghost use Rattle.std.specs.Prelude.{◌≡◌, ℕ, List, IsTrue, IfOk, IfErr, OnOk, Option, Result, false};
ghost use Rattle.nv_tree.specs.Path.{IsPath, Says};
ghost use Rattle.nv_tree.specs.Refusals.{Path, first_refusal, stat_tests};
ghost use Rattle.nv_tree.specs.declared.refusal.Refusal.{Refusal};
ghost use Rattle.nv_tree.specs.Stat.{IsStat};
ghost use Rattle.nv_calls.specs.Mount.{shown};

use crate::Fs;
use nv_region::Pmem;
use nv_rows::stat_of;
use nv_tree::{Refusal, Stat};

impl<P: Pmem + Drop> Fs<P> {
    /// The numbers of the inode that a path leads to. It takes no memory.
    ///
    /// Errors, the first that applies: `Stopped` after a stop, `BadName` where the text is no path, `NotFound` or
    /// `NotDirectory` for an inode on the way, `NotFound` for the last name.
    pub fn stat(&self, path: &[u8]) -> Result<Stat, Refusal>
        ensures stopped { IsTrue self.now.stopped → result ≡ Result.Err Refusal.Stopped }
        ensures ok { (names : List (List ℕ)) → IsPath path.now names → IfOk result (λ s. IsStat (shown P.region self.now) names s) }
        ensures allowed { (p : Path) → Says path.now p → OnOk result (first_refusal (stat_tests (shown P.region self.now) p) ≡ Option.None) }
        ensures refused { self.now.stopped ≡ false → (p : Path) → Says path.now p
            → IfErr result (λ e. first_refusal (stat_tests (shown P.region self.now) p) ≡ Option.Some e) }
    {
        Ok(stat_of(self.target(path)?))
    }
}
