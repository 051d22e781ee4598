//! Writing the archive of what is chosen.

ghost use Rattle.std.specs.Prelude.{OnOk, IfErr};
ghost use Rattle.nv_rows.specs.Rows.{IsInUse};
ghost use Rattle.nv_archive.specs.Chosen.{IsNamedBy};
ghost use Rattle.nv_archive.specs.Shown.{AreKnown, AreSmallRows, shown_tree};
ghost use Rattle.nv_archive.specs.Archiving.{FailsArchiveOf, WritesArchiveOf};

use crate::chosen::{Chosen, base_of};
use crate::shown::Shown;
use nv_metadata::Blocks;
use nv_rows::Rows;
use nv_tar::{TarError, Tops, write_tar};
use std::alloc::Global;
use std::io::Write;

/// Writes the archive of all that the chosen inode holds among these rows, and with `all` of all else that is in use, under
/// `lost+found`.
///
/// It holds the members, and at most 256 KiB of a file at a time. Errors: `Read` where the reader fails, which doesn't happen
/// where its bytes are known; `Answer` with `Memory` where a growth was refused, and with `Write` where the writer failed. A front
/// of the archive was written then, or nothing.
pub fn write_archive<B: Blocks, W: Write>(
    alloc: Global,
    source: &B,
    rows: &Rows,
    inode: u64,
    chosen: Chosen<'_>,
    all: bool,
    writer: &mut W,
) -> Result<(), TarError>
    requires small { AreSmallRows rows.now.items }
    requires used { IsInUse rows.now.items inode }
    requires named { IsNamedBy chosen inode }
    ensures ok { AreKnown (B.bytes source.now) rows.now.items
        → OnOk result (WritesArchiveOf (shown_tree (B.bytes source.now) rows.now.items) chosen.entry inode all (W.contents writer.old) (W.contents writer.new)) }
    ensures err { AreKnown (B.bytes source.now) rows.now.items
        → IfErr result (λ e. FailsArchiveOf (shown_tree (B.bytes source.now) rows.now.items) chosen.entry inode all e (W.contents writer.old) (W.contents writer.new)) }
{
    let base = base_of(alloc, chosen)?;
    let tops = Tops {
        base: &base,
        lost: b"lost+found",
    };
    let shown = Shown {
        alloc,
        source,
        rows,
    };
    write_tar(alloc, &shown, inode, tops, all, writer)
}
