//! The logs of all inodes in use: a region is recovered, and their texts are made and written, one after another.

ghost use Rattle.std.specs.Prelude.{◌≡◌, ◌≢◌, IfOk, IfErr, OnOk, length, string_bytes};
ghost use Rattle.nv_region.specs.Region.{Region, HasBlocks, region_of};
ghost use Rattle.nv_super.specs.Layout.{IsLayout};
ghost use Rattle.nv_inode.specs.Chains.{layout_of};
ghost use Rattle.nv_report.specs.Texts.{AddsText};
ghost use Rattle.nv_metadata.specs.Gathered.{AreGathered, IsOpen};
ghost use Rattle.nv_logs.specs.All.{AreLogTexts, IsLogsLook};
ghost use Rattle.nv_logs.specs.Writing.{WritesTold, FailsTold};

use crate::looking::{Look, unaccepted_look};
use crate::writing::write_look;
use nv_image_check::{Answered, GatheredImage, Image, let_go, recover_gathered, recover_image};
use nv_inode::{Tables, read_tables};
use nv_inspect::push_log;
use nv_metadata::Gathered;
use nv_region::Pmem;
use nv_report::{Last, Recovered};
use nv_rows::Rows;
use nv_stream::ScriptError;
use std::alloc::{AllocError, Global};
use std::io::Write;

/// Writes the log of each inode in use in the region of these bytes, rising by number and each as `log_image` writes it, or
/// `refused NAME` to the errors. Errors as of `log_image`.
pub fn logs_image<W: Write, E: Write>(
    alloc: Global,
    bytes: &[u8],
    writer: &mut W,
    errors: &mut E,
) -> Result<Answered, ScriptError>
    ensures ok { IfOk result (λ answered. WritesTold (IsLogsLook (region_of bytes.now)) (W.contents writer.old) (W.contents writer.new) (E.contents errors.old) (E.contents errors.new) answered) }
    ensures err { IfErr result (λ e. FailsTold (IsLogsLook (region_of bytes.now)) (W.contents writer.old) (W.contents writer.new) (E.contents errors.old) (E.contents errors.new) e) }
{
    let look = look_at_image(alloc, bytes)?;
    write_look(&look, writer, errors)?;
    Ok(look.answered)
}

/// The same of the region of which this was gathered. Its text, its status and its errors are those of `logs_image` for all its
/// bytes.
pub fn logs_gathered<W: Write, E: Write>(
    alloc: Global,
    gathered: Gathered,
    writer: &mut W,
    errors: &mut E,
) -> Result<Answered, ScriptError>
    requires { IsOpen gathered }
    ensures ok { (R : Region) → AreGathered R gathered
        → IfOk result (λ answered. WritesTold (IsLogsLook R) (W.contents writer.old) (W.contents writer.new) (E.contents errors.old) (E.contents errors.new) answered) }
    ensures err { (R : Region) → AreGathered R gathered → IfErr result (λ e. FailsTold (IsLogsLook R) (W.contents writer.old) (W.contents writer.new) (E.contents errors.old)
        (E.contents errors.new) e) }
    ensures unread { IfErr result (λ e. e ≢ ScriptError.Read) }
{
    let look = look_at_gathered(alloc, gathered)?;
    write_look(&look, writer, errors)?;
    Ok(look.answered)
}

fn look_at_image(alloc: Global, bytes: &[u8]) -> Result<Look, AllocError>
    ensures { IfOk result (λ look. IsLogsLook (region_of bytes.now) (string_bytes look.text) look.answered) }
{
    let image = recover_image(alloc, bytes)?;
    match image {
        Image::Recovered(memory, found) => {
            let look = look_in(alloc, &memory, &found);
            let_go(memory, found);
            look
        }
        Image::Refused(refusal) => unaccepted_look(alloc, refusal),
    }
}

fn look_at_gathered(alloc: Global, gathered: Gathered) -> Result<Look, AllocError>
    requires { IsOpen gathered }
    ensures { (R : Region) → AreGathered R gathered → IfOk result (λ look. IsLogsLook R (string_bytes look.text) look.answered) }
{
    let image = recover_gathered(alloc, gathered)?;
    match image {
        GatheredImage::Recovered(memory, found) => {
            let look = look_in(alloc, &memory, &found);
            let_go(memory, found);
            look
        }
        GatheredImage::Refused(refusal) => unaccepted_look(alloc, refusal),
    }
}

// All logs in a memory where this was found.
fn look_in<P: Pmem>(alloc: Global, memory: &P, found: &Recovered) -> Result<Look, AllocError>
    requires layout { IsLayout found.now.sup }
    requires blocks { HasBlocks (P.region memory.now) found.now.sup.blocks }
    ensures text { IfOk result (λ look. AreLogTexts (P.region memory.now) (layout_of found.now.sup (P.region memory.now)) found.now.rows.items (string_bytes look.text)) }
    ensures status { IfOk result (λ look. look.answered.status ≡ 0) }
    ensures faults { IfOk result (λ look. look.answered.faults ≡ length found.now.faults.items) }
{
    let faults = found.faults.len();
    let tables = read_tables(alloc, memory, &found.sup)?;
    let mut text = String::new(alloc);
    push_logs(&mut text, alloc, memory, &tables, &found.rows)?;
    Ok(Look {
        text,
        answered: Answered {
            status: Last::Sound.status(),
            faults,
        },
    })
}

// The logs of these rows, one after another.
fn push_logs<P: Pmem>(
    out: &mut String,
    alloc: Global,
    memory: &P,
    tables: &Tables,
    rows: &Rows,
) -> Result<(), AllocError>
    requires blocks { HasBlocks (P.region memory.now) tables.now.layout.sup.blocks }
    ensures { OnOk result (AddsText (AreLogTexts (P.region memory.now) tables.now.layout rows.now.items) (string_bytes out.old) (string_bytes out.new)) }
{
    for (_, row) in rows.iter() {
        push_log(out, alloc, memory, tables, row)?;
    }
    Ok(())
}
