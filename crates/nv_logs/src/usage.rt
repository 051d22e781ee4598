//! How many blocks an inode takes, with all below it: a region is recovered, and the text is made and written.

ghost use Rattle.std.specs.Prelude.{◌≡◌, ◌≢◌, IfOk, IfErr, string_bytes};
ghost use Rattle.nv_region.specs.Region.{Region, region_of};
ghost use Rattle.nv_rows.specs.Rows.{IsInUse};
ghost use Rattle.nv_metadata.specs.Gathered.{AreGathered, IsOpen};
ghost use Rattle.nv_logs.specs.Usage.{IsUsageLook, TellsCount, TellsUsage};
ghost use Rattle.nv_logs.specs.Writing.{WritesTold, FailsTold};

use crate::asking::row_asked;
use crate::inode::Inode;
use crate::looking::{Look, refused_look};
use crate::telling::{Teller, tell_gathered, tell_image};
use nv_image_check::Answered;
use nv_metadata::Gathered;
use nv_report::{Last, Recovered};
use nv_rows::Rows;
use nv_stream::ScriptError;
use nv_usage::{blocks_below, push_usage};
use std::alloc::{AllocError, Global};
use std::io::Write;

/// Writes how many blocks an inode takes in the region of these bytes, with all that it leads to by names and each inode once, or
/// `refused NAME` to the errors, as `stat` is refused. Errors as of `log_image`.
pub fn usage_image<W: Write, E: Write>(
    alloc: Global,
    bytes: &[u8],
    inode: &Inode,
    writer: &mut W,
    errors: &mut E,
) -> Result<Answered, ScriptError>
    ensures ok { IfOk result (λ answered. WritesTold (IsUsageLook inode.now (region_of bytes.now)) (W.contents writer.old) (W.contents writer.new) (E.contents errors.old)
        (E.contents errors.new) answered) }
    ensures err { IfErr result (λ e. FailsTold (IsUsageLook inode.now (region_of bytes.now)) (W.contents writer.old) (W.contents writer.new) (E.contents errors.old) (E.contents errors.new) e) }
{
    tell_image(alloc, bytes, &Count { inode }, writer, errors)
}

/// The same of the region of which this was gathered. Its text, its status and its errors are those of `usage_image` for all its
/// bytes.
pub fn usage_gathered<W: Write, E: Write>(
    alloc: Global,
    gathered: Gathered,
    inode: &Inode,
    writer: &mut W,
    errors: &mut E,
) -> Result<Answered, ScriptError>
    requires { IsOpen gathered }
    ensures ok { (R : Region) → AreGathered R gathered
        → IfOk result (λ answered. WritesTold (IsUsageLook inode.now R) (W.contents writer.old) (W.contents writer.new) (E.contents errors.old) (E.contents errors.new) answered) }
    ensures err { (R : Region) → AreGathered R gathered → IfErr result (λ e. FailsTold (IsUsageLook inode.now R) (W.contents writer.old) (W.contents writer.new) (E.contents errors.old)
        (E.contents errors.new) e) }
    ensures unread { IfErr result (λ e. e ≢ ScriptError.Read) }
{
    tell_gathered(alloc, gathered, &Count { inode }, writer, errors)
}

// How many blocks an inode takes.
#[derive(Drop)]
struct Count<'a> {
    inode: &'a Inode,
}

impl Teller for Count<'_> {
    ghost tells = { λ l t rows text status. TellsUsage t rows l.inode.now text status };

    fn look(&self, alloc: Global, found: &Recovered) -> Result<Look, AllocError> {
        let faults = found.faults.len();
        match row_asked(&found.rows, self.inode) {
            Ok(row) => count_look(alloc, &found.rows, row.inode, faults),
            Err(refusal) => refused_look(alloc, refusal, faults),
        }
    }
}

fn count_look(alloc: Global, rows: &Rows, inode: u64, faults: usize) -> Result<Look, AllocError>
    requires { IsInUse rows.now.items inode }
    ensures told { IfOk result (λ look. TellsCount rows.now.items inode (string_bytes look.text) look.answered.status) }
    ensures faults { IfOk result (λ look. look.answered.faults ≡ faults) }
{
    let mut text = String::new(alloc);
    push_usage(&mut text, blocks_below(alloc, rows, inode)?)?;
    Ok(Look {
        text,
        answered: Answered {
            status: Last::Sound.status(),
            faults,
        },
    })
}
