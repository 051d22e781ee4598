//! The way through the directories, with what waits to be looked at on a stack: what a directory names comes before what waited
//! before it.

ghost use Rattle.std.specs.Prelude.{◌≡◌, ◌++◌, ◌∷◌, [], ℕ, IfOk, OnOk, Some, map};
ghost use Rattle.std.specs.Option.{option_map};
ghost use Rattle.std.specs.BTreeSet.{contains};
ghost use Rattle.std.specs.Ordering.{nat_cmp};
ghost use Rattle.nv_members.specs.Members.{kind_of};
ghost use Rattle.nv_folders.specs.Folders.{AreAllFolders, spot_of};
ghost use Rattle.nv_folders.specs.Walk.{IsReady, LeadsOn};

use crate::below::folders_in;
use crate::folder::Folder;
use nv_members::Inodes;
use nv_super::Kind;
use std::alloc::{AllocError, Global};
use std::collections::BTreeSet;

// The directories so far, those that wait, and the numbers of the first.
#[derive(Drop)]
struct Walk {
    folders: Vec<Folder>,
    pending: Vec<Folder>,
    seen: BTreeSet<u64>,
}

impl Walk {
    // Looks at what waited on top: it stands behind the others, if it doesn't stand yet, and what it names waits then.
    fn enter<S: Inodes>(
        &mut self,
        alloc: Global,
        source: &S,
        next: Folder,
    ) -> Result<(), AllocError>
        requires { IsReady (S.tree source.now) self.old.folders.items (self.old.pending.items ++ next ∷ []) (contains nat_cmp self.old.seen) }
        ensures ready { OnOk result (IsReady (S.tree source.now) self.new.folders.items self.new.pending.items (contains nat_cmp self.new.seen)) }
        ensures leads { OnOk result (LeadsOn (S.tree source.now) self.old.folders.items self.new.folders.items (self.old.pending.items ++ next ∷ []) self.new.pending.items) }
    {
        if self.seen.contains(&next.inode) {
            return Ok(());
        }
        let mut below = folders_in(alloc, source, &next)?;
        below.reverse();
        self.pending.append(&mut below)?;
        self.seen.insert(next.inode)?;
        self.folders.push(next)?;
        Ok(())
    }

    // Looks at all that waits. No turn is the last that can be counted.
    fn finish<S: Inodes>(&mut self, alloc: Global, source: &S) -> Result<(), AllocError>
        requires { IsReady (S.tree source.now) self.old.folders.items self.old.pending.items (contains nat_cmp self.old.seen) }
        ensures leads { OnOk result (LeadsOn (S.tree source.now) self.old.folders.items self.new.folders.items self.old.pending.items self.new.pending.items) }
        ensures done { OnOk result (self.new.pending.items ≡ []) }
    {
        'turns: for _ in 0..u64::MAX {
            let Some(next) = self.pending.pop() else {
                return Ok(());
            };
            self.enter(alloc, source, next)?;
        }
        Err(AllocError)
    }
}

/// A directory in use and all directories that it leads to by names, each with its path: it, and then with each of its names, rising
/// by bytes, what that leads to.
///
/// Each directory stands once, at its first path, so a ring of directories ends where it comes back. One whose path would have more
/// than 4,096 bytes is left out. The error is a refused growth.
pub fn folders_of<S: Inodes>(
    alloc: Global,
    source: &S,
    start: Folder,
) -> Result<Vec<Folder>, AllocError>
    requires { option_map kind_of (S.tree source.now start.inode) ≡ Some Kind.Directory }
    ensures { IfOk result (λ folders. AreAllFolders (S.tree source.now) (spot_of start) (map spot_of folders.items)) }
{
    let mut pending = Vec::new(alloc);
    pending.push(start)?;
    let mut walk = Walk {
        folders: Vec::new(alloc),
        pending,
        seen: BTreeSet::new(alloc),
    };
    walk.finish(alloc, source)?;
    Ok(walk.folders)
}
