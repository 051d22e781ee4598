//! The owners of a block among the tables of the CPUs and the inodes in use.

ghost use Rattle.std.specs.Prelude.{◌≡◌, ◌∷◌, [], ◌++◌, OnOk, IfOk};
ghost use Rattle.std.specs.List.{All};
ghost use Rattle.nv_region.specs.Region.{Region};
ghost use Rattle.nv_super.specs.Order.{Lists, owner_key};
ghost use Rattle.nv_radix.specs.Pages.{block_at};
ghost use Rattle.nv_scan.specs.Claims.{AreSmall, IsSmall, data_claims, log_claims};
ghost use Rattle.nv_scan.specs.ChainBlocks.{chain_claims, claims_of_chains};
ghost use Rattle.nv_scan.specs.Owners.{Owns};
ghost use Rattle.nv_outcome.specs.Outcome.{AreRows};
ghost use Rattle.nv_scan.specs.declared.piece.Row.{Row as RowValue};
ghost use Rattle.nv_block.specs.Owned.{AddsOwners, AddsOwnersOf, has_block, owners_at, run_owners};

use nv_inode::Tables;
use nv_radix::Extent;
use nv_rows::Rows;
use nv_scan::Row;
use nv_super::Owner;
use std::alloc::{AllocError, Global};

/// All owners of a data block, each once and in their order: chains of tables, pages of logs and pages of files. A block with
/// none is free. The tables and the rows are those of one region.
///
/// Errors: `AllocError` where a growth was refused.
pub fn owners_of(
    alloc: Global,
    tables: &Tables,
    rows: &Rows,
    block: u64,
) -> Result<Vec<Owner>, AllocError>
    requires { (region : Region) × AreRows region tables.now.layout rows.now.items }
    ensures { (region : Region) → AreRows region tables.now.layout rows.now.items → IfOk result (λ owners. Lists owner_key (Owns region tables.now.layout block) owners.items) }
{
    tables.are_laid();
    let mut owners = Vec::new(alloc);
    push_tables(&mut owners, tables, block)?;
    push_rows(&mut owners, rows, block)?;
    Ok(owners)
}

// The places of the block in the chains of all tables.
fn push_tables(owners: &mut Vec<Owner>, tables: &Tables, block: u64) -> Result<(), AllocError>
    ensures { OnOk result (owners.new.items ≡ owners.old.items ++ owners_at block (claims_of_chains tables.now.layout tables.now.layout.sup.cpus)) }
{
    for cpu in 0..tables.cpus() {
        push_chain(owners, cpu, tables.chain(cpu), block)?;
    }
    Ok(())
}

// Those in the chain of one CPU.
fn push_chain(
    owners: &mut Vec<Owner>,
    cpu: u64,
    chain: &[u64],
    block: u64,
) -> Result<(), AllocError>
    ensures { OnOk result (owners.new.items ≡ owners.old.items ++ owners_at block (chain_claims cpu 0 chain.now)) }
{
    for place in 0..chain.len() {
        let owner = Owner::Table {
            cpu,
            place: place as u64,
        };
        push_claim(owners, chain[place], owner, block)?;
    }
    Ok(())
}

// The owners that are of inodes.
fn push_rows(owners: &mut Vec<Owner>, rows: &Rows, block: u64) -> Result<(), AllocError>
    requires { All (λ (row : RowValue). AreSmall (block_at row.index)) rows.now.items }
    ensures { OnOk result (AddsOwnersOf rows.now.items block owners.old.items owners.new.items) }
{
    for (_, row) in rows.iter() {
        push_row(owners, row, block)?;
    }
    Ok(())
}

// Those that are of one inode.
fn push_row(owners: &mut Vec<Owner>, row: &Row, block: u64) -> Result<(), AllocError>
    requires { AreSmall (block_at row.now.index) }
    ensures { OnOk result (AddsOwners row.now block owners.old.items owners.new.items) }
{
    push_pages(owners, row.inode, &row.pages, block)?;
    let runs = row.index.runs()?;
    push_runs(owners, row.inode, &runs, block)
}

// The pages of a log that lie in the block.
fn push_pages(
    owners: &mut Vec<Owner>,
    inode: u64,
    pages: &[u64],
    block: u64,
) -> Result<(), AllocError>
    ensures { OnOk result (owners.new.items ≡ owners.old.items ++ owners_at block (log_claims inode 0 pages.now)) }
{
    for place in 0..pages.len() {
        let owner = Owner::Log {
            inode,
            page: place as u64,
        };
        push_claim(owners, pages[place], owner, block)?;
    }
    Ok(())
}

// The owner of a claim, if it is of the block.
fn push_claim(
    owners: &mut Vec<Owner>,
    claimed: u64,
    owner: Owner,
    block: u64,
) -> Result<(), AllocError>
    ensures { OnOk result (owners.new.items ≡ owners.old.items ++ owners_at block ((claimed, owner) ∷ [])) }
{
    if claimed == block {
        owners.push(owner)?;
    }
    Ok(())
}

// The pages of a file that lie there.
fn push_runs(
    owners: &mut Vec<Owner>,
    inode: u64,
    runs: &[Extent],
    block: u64,
) -> Result<(), AllocError>
    requires { All IsSmall runs.now }
    ensures { OnOk result (owners.new.items ≡ owners.old.items ++ owners_at block (data_claims inode runs.now)) }
{
    for run in runs {
        push_run(owners, inode, run, block)?;
    }
    Ok(())
}

fn push_run(owners: &mut Vec<Owner>, inode: u64, run: &Extent, block: u64) -> Result<(), AllocError>
    requires { IsSmall run.now }
    ensures { OnOk result (owners.new.items ≡ owners.old.items ++ run_owners inode run.now block) }
{
    if !has_block(run, block) {
        return Ok(());
    }
    let page = run.page + (block - run.block);
    owners.push(Owner::Data { inode, page })?;
    Ok(())
}

fn has_block(run: &Extent, block: u64) -> bool
    ensures { result ≡ has_block run.now block }
{
    run.block <= block && block - run.block < run.count
}
