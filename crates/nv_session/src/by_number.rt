//! What the file calls that read print of an inode that its number names, also of one that no path leads to.

ghost use Rattle.std.specs.Prelude.{◌≡◌, false, is_some, IfOk, string_bytes};
ghost use Rattle.nv_tree.specs.Refusals.{first_refusal};
ghost use Rattle.nv_calls.specs.ByNumber.{list_inode_tests, stat_inode_tests};
ghost use Rattle.nv_session.specs.ByNumber.{TellsInodeNames, TellsInodeStat};
ghost use Rattle.nv_calls.specs.Mount.{shown};

use crate::files::{CallText, answered, lines_text, numbers_text, refused};
use nv_calls::Fs;
use nv_region::Pmem;
use std::alloc::{AllocError, Global};

/// The names of the directory of this number, a line for each, or the line of the refusal. Of a mount that was stopped
/// nothing is said.
///
/// Errors: `AllocError` where a growth was refused.
pub fn list_inode_text<P: Pmem + Drop>(
    alloc: Global,
    mount: &Fs<P>,
    inode: u64,
) -> Result<CallText, AllocError>
    ensures text { IfOk result (λ told. mount.now.stopped ≡ false → TellsInodeNames (shown P.region mount.now) inode (string_bytes told.text)) }
    ensures refused { IfOk result (λ told. mount.now.stopped ≡ false → told.is_refused ≡ is_some (first_refusal (list_inode_tests (shown P.region mount.now) inode))) }
{
    match mount.list_inode(inode) {
        Ok(listed) => Ok(answered(lines_text(alloc, &listed)?)),
        Err(refusal) => refused(alloc, refusal),
    }
}

/// The numbers of the inode of this number, or the line of the refusal. Of a mount that was stopped nothing is said.
///
/// Errors: `AllocError` where a growth was refused.
pub fn stat_inode_text<P: Pmem + Drop>(
    alloc: Global,
    mount: &Fs<P>,
    inode: u64,
) -> Result<CallText, AllocError>
    ensures text { IfOk result (λ told. mount.now.stopped ≡ false → TellsInodeStat (shown P.region mount.now) inode (string_bytes told.text)) }
    ensures refused { IfOk result (λ told. mount.now.stopped ≡ false → told.is_refused ≡ is_some (first_refusal (stat_inode_tests (shown P.region mount.now) inode))) }
{
    match mount.stat_inode(inode) {
        Ok(stat) => Ok(answered(numbers_text(alloc, stat)?)),
        Err(refusal) => refused(alloc, refusal),
    }
}
