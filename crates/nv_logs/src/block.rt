//! What a block of an image is: a region is recovered, and the text is made and written.

ghost use Rattle.std.specs.Prelude.{◌≡◌, ◌<◌, ◌≤◌, ◌^◌, ◌++◌, IfOk, IfErr, OnOk, length, string_bytes};
ghost use Rattle.nv_region.specs.Region.{Region};
ghost use Rattle.nv_outcome.specs.Outcome.{AreRows};
ghost use Rattle.nv_logs.specs.Block.{IsBlockLook, IsShown, TellsBlock, bytes_text};
ghost use Rattle.nv_logs.specs.Writing.{WritesTold, FailsTold};

use crate::looking::{Look, refused_look, unaccepted_look};
use crate::writing::write_look;
use nv_block::{block_bytes, push_block, push_hex_rows};
use nv_image_check::{Answered, Image, let_go, recover_image};
use nv_report::{Last, Recovered};
use nv_stream::ScriptError;
use nv_super::BLOCK_SIZE;
use nv_tree::Refusal;
use std::alloc::{AllocError, Global};
use std::io::Write;

/// Writes what a block is in the region of these bytes: a part of the areas in front, each of its owners, or that it is free; and
/// with `hex` its bytes in rows, as they stand in the image. Writes `refused NAME` to the errors where the region isn't accepted or
/// has no such block.
///
/// The region is recovered over the bytes, and its journals are rolled back in memory. Errors as of `log_image`.
pub fn block_image<W: Write, E: Write>(
    alloc: Global,
    bytes: &[u8],
    block: u64,
    hex: bool,
    writer: &mut W,
    errors: &mut E,
) -> Result<Answered, ScriptError>
    ensures ok { IfOk result (λ answered. WritesTold (IsBlockLook bytes.now block hex) (W.contents writer.old) (W.contents writer.new) (E.contents errors.old) (E.contents errors.new) answered) }
    ensures err { IfErr result (λ e. FailsTold (IsBlockLook bytes.now block hex) (W.contents writer.old) (W.contents writer.new) (E.contents errors.old) (E.contents errors.new) e) }
{
    let look = look_at_block(alloc, bytes, block, hex)?;
    write_look(&look, writer, errors)?;
    Ok(look.answered)
}

fn look_at_block(alloc: Global, bytes: &[u8], block: u64, hex: bool) -> Result<Look, AllocError>
    ensures { IfOk result (λ look. IsBlockLook bytes.now block hex (string_bytes look.text) look.answered) }
{
    let image = recover_image(alloc, bytes)?;
    match image {
        Image::Recovered(memory, found) => {
            let look = look_in(alloc, bytes, &found, block, hex);
            let_go(memory, found);
            look
        }
        Image::Refused(refusal) => unaccepted_look(alloc, refusal),
    }
}

// What the block is by what was found, or why it isn't told.
fn look_in(
    alloc: Global,
    bytes: &[u8],
    found: &Recovered,
    block: u64,
    hex: bool,
) -> Result<Look, AllocError>
    requires { (region : Region) × AreRows region found.now.tables.layout found.now.rows.items }
    ensures told { (region : Region) → AreRows region found.now.tables.layout found.now.rows.items
        → IfOk result (λ look. TellsBlock region found.now.tables.layout bytes.now block hex (string_bytes look.text) look.answered.status) }
    ensures faults { IfOk result (λ look. look.answered.faults ≡ length found.now.faults.items) }
{
    let faults = found.faults.len();
    let sup = found.tables.sup();
    if block >= sup.blocks {
        return refused_look(alloc, Refusal::NotFound, faults);
    }
    Ok(Look {
        text: shown_text(alloc, bytes, found, block, hex)?,
        answered: Answered {
            status: Last::Sound.status(),
            faults,
        },
    })
}

fn shown_text(
    alloc: Global,
    bytes: &[u8],
    found: &Recovered,
    block: u64,
    hex: bool,
) -> Result<String, AllocError>
    requires rows { (region : Region) × AreRows region found.now.tables.layout found.now.rows.items }
    requires block { block < found.now.tables.layout.sup.blocks }
    ensures { (region : Region) → AreRows region found.now.tables.layout found.now.rows.items
        → IfOk result (λ text. IsShown region found.now.tables.layout bytes.now block hex (string_bytes text)) }
{
    found.tables.are_laid();
    let mut text = String::new(alloc);
    push_block(&mut text, alloc, &found.tables, &found.rows, block)?;
    push_bytes(&mut text, bytes, block, hex)?;
    Ok(text)
}

// The bytes of a block, where they are asked for.
fn push_bytes(out: &mut String, bytes: &[u8], block: u64, hex: bool) -> Result<(), AllocError>
    requires { block ≤ 2 ^ 32 }
    ensures { OnOk result (string_bytes out.new ≡ string_bytes out.old ++ bytes_text bytes.now block hex) }
{
    if hex {
        return push_hex_rows(out, block * BLOCK_SIZE, block_bytes(bytes, block));
    }
    Ok(())
}
