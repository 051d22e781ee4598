//! The names of a directory with the numbers of their inodes: a region is recovered, and the text is made and written.

ghost use Rattle.std.specs.Prelude.{◌≡◌, ◌≢◌, IfOk, IfErr, string_bytes};
ghost use Rattle.nv_region.specs.Region.{Region, region_of};
ghost use Rattle.nv_listing.specs.Long.{IsLongText};
ghost use Rattle.nv_metadata.specs.Gathered.{AreGathered, IsOpen};
ghost use Rattle.nv_logs.specs.Listing.{IsListLook, TellsList, TellsRow};
ghost use Rattle.nv_logs.specs.Writing.{WritesTold, FailsTold};

use crate::asking::row_asked;
use crate::inode::Inode;
use crate::looking::{Look, refused_look};
use crate::telling::{Teller, tell_gathered, tell_image};
use nv_image_check::Answered;
use nv_listing::push_long_list;
use nv_metadata::Gathered;
use nv_report::{Last, Recovered};
use nv_rows::Rows;
use nv_scan::Row;
use nv_stream::ScriptError;
use nv_super::Kind;
use nv_tree::Refusal;
use std::alloc::{AllocError, Global};
use std::io::Write;

/// Writes the names of a directory in the region of these bytes, each behind the numbers of its inode, or `refused NAME` to the
/// errors, as `list` is refused. Errors as of `log_image`.
pub fn list_long_image<W: Write, E: Write>(
    alloc: Global,
    bytes: &[u8],
    inode: &Inode,
    writer: &mut W,
    errors: &mut E,
) -> Result<Answered, ScriptError>
    ensures ok { IfOk result (λ answered. WritesTold (IsListLook inode.now (region_of bytes.now)) (W.contents writer.old) (W.contents writer.new) (E.contents errors.old)
        (E.contents errors.new) answered) }
    ensures err { IfErr result (λ e. FailsTold (IsListLook inode.now (region_of bytes.now)) (W.contents writer.old) (W.contents writer.new) (E.contents errors.old) (E.contents errors.new) e) }
{
    tell_image(alloc, bytes, &LongList { inode }, writer, errors)
}

/// The same of the region of which this was gathered. Its text, its status and its errors are those of `list_long_image` for all
/// its bytes.
pub fn list_long_gathered<W: Write, E: Write>(
    alloc: Global,
    gathered: Gathered,
    inode: &Inode,
    writer: &mut W,
    errors: &mut E,
) -> Result<Answered, ScriptError>
    requires { IsOpen gathered }
    ensures ok { (R : Region) → AreGathered R gathered
        → IfOk result (λ answered. WritesTold (IsListLook inode.now R) (W.contents writer.old) (W.contents writer.new) (E.contents errors.old) (E.contents errors.new) answered) }
    ensures err { (R : Region) → AreGathered R gathered → IfErr result (λ e. FailsTold (IsListLook inode.now R) (W.contents writer.old) (W.contents writer.new) (E.contents errors.old)
        (E.contents errors.new) e) }
    ensures unread { IfErr result (λ e. e ≢ ScriptError.Read) }
{
    tell_gathered(alloc, gathered, &LongList { inode }, writer, errors)
}

// The names of a directory with the numbers of their inodes.
#[derive(Drop)]
struct LongList<'a> {
    inode: &'a Inode,
}

impl Teller for LongList<'_> {
    ghost tells = { λ l t rows text status. TellsList t rows l.inode.now text status };

    fn look(&self, alloc: Global, found: &Recovered) -> Result<Look, AllocError> {
        let faults = found.faults.len();
        match row_asked(&found.rows, self.inode) {
            Ok(row) => row_look(alloc, &found.rows, row, faults),
            Err(refusal) => refused_look(alloc, refusal, faults),
        }
    }
}

fn row_look(alloc: Global, rows: &Rows, row: &Row, faults: usize) -> Result<Look, AllocError>
    ensures told { IfOk result (λ look. TellsRow rows.now.items row.now (string_bytes look.text) look.answered.status) }
    ensures faults { IfOk result (λ look. look.answered.faults ≡ faults) }
{
    match row.kind {
        Kind::Directory => Ok(Look {
            text: long_text(alloc, rows, row)?,
            answered: Answered {
                status: Last::Sound.status(),
                faults,
            },
        }),
        Kind::File => refused_look(alloc, Refusal::NotDirectory, faults),
    }
}

fn long_text(alloc: Global, rows: &Rows, row: &Row) -> Result<String, AllocError>
    ensures { IfOk result (λ text. IsLongText rows.now.items row.now (string_bytes text)) }
{
    let mut text = String::new(alloc);
    push_long_list(&mut text, rows, row)?;
    Ok(text)
}
