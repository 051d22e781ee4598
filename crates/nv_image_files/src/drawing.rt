//! The drawing of a map: a square for each cell, and beside each row the number of its first block.
//!
//! The square has the colour of the last use that one of its blocks has, paler where few of them have it, and a title that
//! counts them.

ghost use Rattle.std.specs.Prelude.{◌≡◌, ◌++◌, ◌+◌, ◌*◌, ◌/◌, ◌<◌, ◌≤◌, ◌^◌, IfOk, OnOk, length, string_bytes};
ghost use Rattle.nv_image_files.specs.Drawing.{colour, use_name, use_phrase, told_use, shaded_blocks, shade_text, head_line, square_line, number_line, number_at, title_text, range_text, free_text};
ghost use Rattle.nv_image_files.specs.Drawing.{place_text, part_text, kind_text, parts_text, cell_line, words_line, each_line, cell_lines, use_lines, legend_lines, rows_height, drawing, has_tables, told_uses};

use nv_map::{BlockUse, Cells, Share};
use std::alloc::{AllocError, Global};
use std::fmt::Write;

/// How many cells stand side by side.
const COLUMNS: usize = 64;

/// How many units a cell is wide and high.
const SIDE: usize = 10;

/// How many units there are beside the rows, for the numbers of their first blocks.
const MARGIN: usize = 40;

/// How many cells wide what a use's colour means is in the line below.
const LEGEND_CELLS: usize = 8;

const USES: [BlockUse; 5] = [
    BlockUse::Free,
    BlockUse::System,
    BlockUse::Data,
    BlockUse::Log,
    BlockUse::Doubled,
];

// The same where a table has a chain.
const USES_WITH_TABLES: [BlockUse; 6] = [
    BlockUse::Free,
    BlockUse::System,
    BlockUse::Table,
    BlockUse::Data,
    BlockUse::Log,
    BlockUse::Doubled,
];

// In the order in which a title has them, before the free ones.
const COUNTED: [BlockUse; 5] = [
    BlockUse::Doubled,
    BlockUse::Log,
    BlockUse::Data,
    BlockUse::Table,
    BlockUse::System,
];

/// The cells as an SVG, with a line below that says what the colours mean. Errors: `AllocError` where a growth was refused.
pub fn svg_text(alloc: Global, cells: &Cells) -> Result<String, AllocError>
    ensures { IfOk result (λ text. string_bytes text ≡ drawing cells.now) }
{
    let mut out = String::new(alloc);
    let height = rows_height(cells.shares.len());
    push_head(&mut out, height)?;
    push_cells(&mut out, &cells.shares)?;
    push_legend(
        &mut out,
        height + SIDE,
        told_uses(&cells.shares),
        cells.each,
    )?;
    out.push_str("</svg>\n")?;
    Ok(out)
}

// How high the rows of so many cells are in all.
fn rows_height(count: usize) -> usize
    ensures height { result ≡ rows_height count }
    ensures bound { result < 2 ^ 62 }
{
    count.div_ceil(COLUMNS) * SIDE
}

fn push_head(out: &mut String, height: usize) -> Result<(), AllocError>
    requires { height < 2 ^ 62 }
    ensures { OnOk result (string_bytes out.new ≡ string_bytes out.old ++ head_line height) }
{
    let whole = height + 3 * SIDE;
    writeln!(
        out,
        "<svg xmlns=\"http://www.w3.org/2000/svg\" viewBox=\"0 0 690 {whole}\" width=\"690\" height=\"{whole}\" font-family=\"sans-serif\" font-size=\"12\">\n<rect width=\"690\" height=\"{whole}\" fill=\"#ffffff\"/>"
    )
}

fn push_cells(out: &mut String, shares: &[Share]) -> Result<(), AllocError>
    ensures { OnOk result (string_bytes out.new ≡ string_bytes out.old ++ cell_lines 0 shares.now) }
{
    for (place, share) in shares.iter().enumerate() {
        push_number_at(out, place, share.first)?;
        push_cell(
            out,
            MARGIN + place % COLUMNS * SIDE,
            place / COLUMNS * SIDE,
            share,
        )?;
    }
    Ok(())
}

// The number of the first block of a row, where the cell of this place is the first of one.
fn push_number_at(out: &mut String, place: usize, first: u64) -> Result<(), AllocError>
    ensures { OnOk result (string_bytes out.new ≡ string_bytes out.old ++ number_at place first) }
{
    if place % COLUMNS == 0 {
        push_number(out, place / COLUMNS * SIDE, first)?;
    }
    Ok(())
}

fn push_number(out: &mut String, y: usize, number: u64) -> Result<(), AllocError>
    requires { y < 2 ^ 63 }
    ensures { OnOk result (string_bytes out.new ≡ string_bytes out.old ++ number_line y number) }
{
    let base = y + 8;
    writeln!(
        out,
        "<text x=\"34\" y=\"{base}\" font-size=\"9\" text-anchor=\"end\">{number}</text>"
    )
}

// The square of a cell, with its title.
fn push_cell(out: &mut String, x: usize, y: usize, share: &Share) -> Result<(), AllocError>
    ensures { OnOk result (string_bytes out.new ≡ string_bytes out.old ++ cell_line x y share.now) }
{
    let kind = told_use(share);
    push_place(out, x, y, kind)?;
    push_shade(out, shaded_blocks(share, kind), share.blocks)?;
    push_text(out, "\"><title>")?;
    push_title(out, share)?;
    push_text(out, "</title></rect>\n")
}

fn push_text(out: &mut String, text: &str) -> Result<(), AllocError>
    ensures { OnOk result (string_bytes out.new ≡ string_bytes out.old ++ text.now) }
{
    out.push_str(text)
}

// Where a square is, and its colour.
fn push_place(out: &mut String, x: usize, y: usize, kind: BlockUse) -> Result<(), AllocError>
    ensures { OnOk result (string_bytes out.new ≡ string_bytes out.old ++ place_text x y kind) }
{
    let colour = colour(kind);
    write!(
        out,
        "<rect x=\"{x}\" y=\"{y}\" width=\"9\" height=\"9\" fill=\"{colour}\" fill-opacity=\""
    )
}

// The last use that one of the blocks has.
fn told_use(share: &Share) -> BlockUse
    ensures { result ≡ told_use share.now }
{
    if share.doubled > 0 {
        BlockUse::Doubled
    } else if share.logs > 0 {
        BlockUse::Log
    } else if share.files > 0 {
        BlockUse::Data
    } else if share.tables > 0 {
        BlockUse::Table
    } else if share.system > 0 {
        BlockUse::System
    } else {
        BlockUse::Free
    }
}

// By how many of its blocks a cell is shaded. Doubled ones are shown as clearly as if all were.
fn shaded_blocks(share: &Share, kind: BlockUse) -> u64
    ensures { result ≡ shaded_blocks share.now kind }
{
    match kind {
        BlockUse::Doubled => share.blocks,
        _ => share.count(kind),
    }
}

// How opaque a square is in hundredths, of which so many of its blocks have the use that is told: 20 for none, and 100 for all.
fn push_shade(out: &mut String, count: u64, blocks: u64) -> Result<(), AllocError>
    ensures { OnOk result (string_bytes out.new ≡ string_bytes out.old ++ shade_text count blocks) }
{
    if count >= blocks {
        out.push_str("1")
    } else {
        let hundredths = 20 + u128::from(count) * 80 / u128::from(blocks);
        write!(out, ".{hundredths}")
    }
}

// Which blocks a cell has, and how many of them have each use.
#[tactic(auto, unfolding(crate::specs::Drawing::title_text))]
fn push_title(out: &mut String, share: &Share) -> Result<(), AllocError>
    ensures { OnOk result (string_bytes out.new ≡ string_bytes out.old ++ title_text share.now) }
{
    push_range(out, share.first, share.last)?;
    push_parts(out, share, &COUNTED)?;
    push_free(out, share.free)
}

#[tactic(auto, unfolding(crate::specs::Drawing::range_text))]
fn push_range(out: &mut String, first: u64, last: u64) -> Result<(), AllocError>
    ensures { OnOk result (string_bytes out.new ≡ string_bytes out.old ++ range_text first last) }
{
    write!(out, "blocks {first} to {last}: ")
}

#[tactic(auto, unfolding(crate::specs::Drawing::free_text))]
fn push_free(out: &mut String, free: u64) -> Result<(), AllocError>
    ensures { OnOk result (string_bytes out.new ≡ string_bytes out.old ++ free_text free) }
{
    write!(out, "{free} free")
}

fn push_parts(out: &mut String, share: &Share, kinds: &[BlockUse]) -> Result<(), AllocError>
    ensures { OnOk result (string_bytes out.new ≡ string_bytes out.old ++ parts_text share.now kinds.now) }
{
    for kind in kinds {
        push_kind(out, share, *kind)?;
    }
    Ok(())
}

// How many of a cell's blocks have a use, where some do.
fn push_kind(out: &mut String, share: &Share, kind: BlockUse) -> Result<(), AllocError>
    ensures { OnOk result (string_bytes out.new ≡ string_bytes out.old ++ kind_text share.now kind) }
{
    push_part(out, share.count(kind), phrase(kind))
}

// How many blocks have a use, where some do.
fn push_part(out: &mut String, count: u64, phrase: &str) -> Result<(), AllocError>
    ensures { OnOk result (string_bytes out.new ≡ string_bytes out.old ++ part_text count phrase.now) }
{
    if count > 0 {
        write!(out, "{count} {phrase}, ")?;
    }
    Ok(())
}

fn push_square(out: &mut String, x: usize, y: usize, kind: BlockUse) -> Result<(), AllocError>
    ensures { OnOk result (string_bytes out.new ≡ string_bytes out.old ++ square_line x y kind) }
{
    let colour = colour(kind);
    writeln!(
        out,
        "<rect x=\"{x}\" y=\"{y}\" width=\"9\" height=\"9\" fill=\"{colour}\"/>"
    )
}

fn push_words(out: &mut String, x: usize, y: usize, words: &str) -> Result<(), AllocError>
    requires { y < 2 ^ 63 }
    ensures { OnOk result (string_bytes out.new ≡ string_bytes out.old ++ words_line x y words.now) }
{
    let base = y + 9;
    writeln!(out, "<text x=\"{x}\" y=\"{base}\">{words}</text>")
}

// The uses whose colours are told: that of tables where a cell has it.
fn told_uses(shares: &[Share]) -> &'static [BlockUse]
    ensures { result.now ≡ told_uses shares.now }
{
    if has_tables(shares) {
        &USES_WITH_TABLES
    } else {
        &USES
    }
}

fn has_tables(shares: &[Share]) -> bool
    ensures { result ≡ has_tables shares.now }
{
    shares.iter().any(|share| share.tables > 0)
}

// What the colours of these uses mean, and how many blocks a cell has.
fn push_legend(out: &mut String, y: usize, uses: &[BlockUse], each: u64) -> Result<(), AllocError>
    requires height { y < 2 ^ 63 }
    requires few { length uses.now ≤ 6 }
    ensures { OnOk result (string_bytes out.new ≡ string_bytes out.old ++ legend_lines y uses.now each) }
{
    push_uses(out, y, uses)?;
    push_each(out, y, uses.len(), each)
}

fn push_each(out: &mut String, y: usize, count: usize, each: u64) -> Result<(), AllocError>
    requires height { y < 2 ^ 63 }
    requires few { count ≤ 6 }
    ensures { OnOk result (string_bytes out.new ≡ string_bytes out.old ++ each_line y count each) }
{
    let x = MARGIN + count * LEGEND_CELLS * SIDE;
    let base = y + 9;
    writeln!(
        out,
        "<text x=\"{x}\" y=\"{base}\">blocks in a cell: {each}</text>"
    )
}

fn push_uses(out: &mut String, y: usize, uses: &[BlockUse]) -> Result<(), AllocError>
    requires height { y < 2 ^ 63 }
    requires few { length uses.now ≤ 6 }
    ensures { OnOk result (string_bytes out.new ≡ string_bytes out.old ++ use_lines y 0 uses.now) }
{
    for (place, kind) in uses.iter().enumerate() {
        let x = MARGIN + place * LEGEND_CELLS * SIDE;
        push_square(out, x, y, *kind)?;
        push_words(out, x + 14, y, name(*kind))?;
    }
    Ok(())
}

fn colour(kind: BlockUse) -> &'static str
    ensures { result.now ≡ colour kind }
{
    match kind {
        BlockUse::Free => "#e6e6e6",
        BlockUse::System => "#7f7f7f",
        BlockUse::Table => "#b07aa1",
        BlockUse::Data => "#4c8ed9",
        BlockUse::Log => "#59a14f",
        BlockUse::Doubled => "#d62728",
    }
}

fn name(kind: BlockUse) -> &'static str
    ensures { result.now ≡ use_name kind }
{
    match kind {
        BlockUse::Free => "free",
        BlockUse::System => "system",
        BlockUse::Table => "table",
        BlockUse::Data => "data",
        BlockUse::Log => "log",
        BlockUse::Doubled => "doubled",
    }
}

// What a title calls blocks of a use.
fn phrase(kind: BlockUse) -> &'static str
    ensures { result.now ≡ use_phrase kind }
{
    match kind {
        BlockUse::Free => "free",
        BlockUse::System => "of the system",
        BlockUse::Table => "of tables",
        BlockUse::Data => "of data",
        BlockUse::Log => "of logs",
        BlockUse::Doubled => "doubled",
    }
}
