//! The lines that tell what a block is.

ghost use Rattle.std.specs.Prelude.{◌≡◌, ◌<◌, ◌++◌, ◌*◌, OnOk, flat_map, string_bytes};
ghost use Rattle.nv_region.specs.Region.{Region};
ghost use Rattle.nv_super.specs.Layout.{IsLayout, system_blocks};
ghost use Rattle.nv_outcome.specs.Outcome.{AreRows};
ghost use Rattle.nv_report.specs.Texts.{AddsText};
ghost use Rattle.nv_block.specs.Block.{IsBlockText, block_head, owner_line, owners_text, system_line, table_text};

use crate::owners::owners_of;
use nv_inode::Tables;
use nv_rows::Rows;
use nv_super::{Owner, Super};
use std::alloc::{AllocError, Global};
use std::fmt::Write;

/// Puts what a block is to a text: the superblock, the journal of a CPU, a block of a CPU's table by its place there, a line for
/// each owner, or that it is free. The tables and the rows of the inodes in use are those of one region.
///
/// Errors: `AllocError` where a growth was refused; of the text nothing is said then.
pub fn push_block(
    out: &mut String,
    alloc: Global,
    tables: &Tables,
    rows: &Rows,
    block: u64,
) -> Result<(), AllocError>
    requires { (region : Region) × AreRows region tables.now.layout rows.now.items }
    ensures { (region : Region) → AreRows region tables.now.layout rows.now.items → OnOk result (AddsText (IsBlockText region tables.now.layout block) (string_bytes out.old) (string_bytes out.new)) }
{
    tables.are_laid();
    let sup = tables.sup();
    if block < sup.system_blocks() {
        return push_system(out, sup, block);
    }
    let owners = owners_of(alloc, tables, rows, block)?;
    push_owners(out, block, &owners)
}

// The line of a block in front of the data blocks.
fn push_system(out: &mut String, sup: &Super, block: u64) -> Result<(), AllocError>
    requires layout { IsLayout sup.now }
    requires front { block < system_blocks sup.now }
    ensures { OnOk result (string_bytes out.new ≡ string_bytes out.old ++ system_line sup.now block) }
{
    push_head(out, block)?;
    if block == 0 {
        return out.push_str("superblock\n");
    }
    let cpu = block - 1;
    if block <= sup.cpus {
        return writeln!(out, "journal {cpu}");
    }
    push_table(out, sup, cpu - sup.cpus)?;
    out.push_str("\n")
}

// The table block of this number among all.
fn push_table(out: &mut String, sup: &Super, number: u64) -> Result<(), AllocError>
    requires { IsLayout sup.now }
    ensures { OnOk result (string_bytes out.new ≡ string_bytes out.old ++ table_text sup.now number) }
{
    let cpu = number / sup.table_blocks;
    let place = number % sup.table_blocks;
    write!(out, "table {cpu} {place}")
}

// The lines of the owners of a data block.
fn push_owners(out: &mut String, block: u64, owners: &[Owner]) -> Result<(), AllocError>
    ensures { OnOk result (string_bytes out.new ≡ string_bytes out.old ++ owners_text block owners.now) }
{
    if owners.is_empty() {
        push_head(out, block)?;
        return out.push_str("free\n");
    }
    push_each(out, block, owners)
}

fn push_each(out: &mut String, block: u64, owners: &[Owner]) -> Result<(), AllocError>
    ensures { OnOk result (string_bytes out.new ≡ string_bytes out.old ++ flat_map (owner_line block) owners.now) }
{
    for owner in owners {
        push_owner(out, block, owner)?;
    }
    Ok(())
}

fn push_owner(out: &mut String, block: u64, owner: &Owner) -> Result<(), AllocError>
    ensures { OnOk result (string_bytes out.new ≡ string_bytes out.old ++ owner_line block owner.now) }
{
    push_head(out, block)?;
    writeln!(out, "{owner}")
}

fn push_head(out: &mut String, block: u64) -> Result<(), AllocError>
    ensures { OnOk result (string_bytes out.new ≡ string_bytes out.old ++ block_head block) }
{
    write!(out, "block {block} ")
}
