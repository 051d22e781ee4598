//! The text of a map: 64 cells in a line, a letter or sign for each, and a line that says what they mean.

ghost use Rattle.std.specs.Prelude.{◌≡◌, ◌++◌, IfOk, OnOk, string_bytes};
ghost use Rattle.nv_map.specs.Text.{letters, lines_of, legend, map_text, shows_table, table_word};

use crate::cells::Cells;
use crate::uses::BlockUse;
use std::alloc::{AllocError, Global};
use std::fmt::Write;

/// How many cells stand in a line.
const CELLS_IN_LINE: usize = 64;

/// The lines of the cells, and below them what the letters mean and how many blocks a cell has.
/// Errors: where a growth was refused.
pub fn cells_text(alloc: Global, cells: &Cells) -> Result<String, AllocError>
    ensures { IfOk result (λ text. string_bytes text ≡ map_text cells.now) }
{
    let mut text = String::new(alloc);
    push_lines(&mut text, &cells.uses)?;
    push_legend(&mut text, &cells.uses, cells.each)?;
    Ok(text)
}

fn push_lines(out: &mut String, uses: &[BlockUse]) -> Result<(), AllocError>
    ensures { OnOk result (string_bytes out.new ≡ string_bytes out.old ++ lines_of uses.now) }
{
    for line in uses.chunks(CELLS_IN_LINE) {
        push_letters(out, line)?;
        out.push_str("\n")?;
    }
    Ok(())
}

fn push_letters(out: &mut String, uses: &[BlockUse]) -> Result<(), AllocError>
    ensures { OnOk result (string_bytes out.new ≡ string_bytes out.old ++ letters uses.now) }
{
    for kind in uses {
        out.push_str(kind.letter())?;
    }
    Ok(())
}

fn push_legend(out: &mut String, uses: &[BlockUse], each: u64) -> Result<(), AllocError>
    ensures { OnOk result (string_bytes out.new ≡ string_bytes out.old ++ legend uses.now each) }
{
    let table = table_word(uses);
    writeln!(
        out,
        "blocks in a cell {each}: . free, S system, {table}D data, L log, ! doubled"
    )
}

// What the letter of tables means, where a cell has it.
fn table_word(uses: &[BlockUse]) -> &'static str
    ensures { result.now ≡ table_word uses.now }
{
    if shows_table(uses) { "T table, " } else { "" }
}

fn shows_table(uses: &[BlockUse]) -> bool
    ensures { result ≡ shows_table uses.now }
{
    uses.iter()
        .any(|told| told.rank() == BlockUse::Table.rank())
}
