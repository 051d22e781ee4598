//! All claims of a region, for a caller that kept none: those of the tables' chains, and those of the inodes of its rows.

ghost use Rattle.std.specs.Prelude.{◌≡◌, ◌<◌, ◌++◌, ℕ, List, IfOk, OnOk};
ghost use Rattle.std.specs.List.{All};
ghost use Rattle.nv_region.specs.Region.{Region};
ghost use Rattle.nv_super.specs.declared.owners.Owner.{Owner as OwnerValue};
ghost use Rattle.nv_radix.specs.Pages.{block_at};
ghost use Rattle.nv_scan.specs.ChainBlocks.{chain_claims, claims_of_chains};
ghost use Rattle.nv_scan.specs.Claims.{AreClaimsOf, AreSmall};
ghost use Rattle.nv_scan.specs.Owners.{AreAllClaims};
ghost use Rattle.nv_scan.specs.Rows.{HasRows};
ghost use Rattle.nv_scan.specs.declared.piece.Row.{Row as RowValue};

use crate::claims::Claims;
use crate::piece::Row;
use nv_claimmap::ClaimedRuns;
use nv_inode::Tables;
use nv_numbered::Chunks;
use nv_super::{Owner, Run};
use std::alloc::{AllocError, Global};

/// Each block that is owned in a region with each of its owners, by the region's tables and the rows of its inodes in use,
/// which may stand in any order.
///
/// Errors: `AllocError` where a growth was refused.
pub fn claims_of(
    alloc: Global,
    tables: &Tables,
    rows: &Chunks<Row>,
) -> Result<ClaimedRuns, AllocError>
    requires rows { (region : Region) × HasRows region tables.now.layout rows.now.items }
    ensures { IfOk result (λ claims. (region : Region) → HasRows region tables.now.layout rows.now.items → AreAllClaims region tables.now.layout claims.items) }
{
    tables.are_laid();
    let mut claims = ClaimedRuns::new(alloc);
    add_chains(&mut claims, tables)?;
    add_rows(alloc, &mut claims, rows)?;
    Ok(claims)
}

// Puts the blocks of all chains to the end of others.
fn add_chains(claims: &mut ClaimedRuns, tables: &Tables) -> Result<(), AllocError>
    ensures { OnOk result (claims.new.items ≡ claims.old.items ++ claims_of_chains tables.now.layout tables.now.layout.sup.cpus) }
{
    for cpu in 0..tables.cpus() {
        add_chain(claims, cpu, tables.chain(cpu))?;
    }
    Ok(())
}

// Puts the blocks of a CPU's chain to the end of others.
fn add_chain(claims: &mut ClaimedRuns, cpu: u64, blocks: &[u64]) -> Result<(), AllocError>
    ensures { OnOk result (claims.new.items ≡ claims.old.items ++ chain_claims cpu 0 blocks.now) }
{
    let mut place = 0;
    for block in blocks {
        let run = Run {
            start: *block,
            count: 1,
        };
        claims.push(run, Owner::Table { cpu, place })?;
        place += 1;
    }
    Ok(())
}

// Puts what the inodes of these rows claim to the end of others, one row after the other.
fn add_rows(alloc: Global, claims: &mut ClaimedRuns, rows: &Chunks<Row>) -> Result<(), AllocError>
    requires { All (λ (row : RowValue). AreSmall (block_at row.index)) rows.now.items }
    ensures { OnOk result ((own : List (ℕ × OwnerValue)) × (claims.new.items ≡ claims.old.items ++ own) × AreClaimsOf rows.now.items own) }
{
    for place in 0..rows.len() {
        let own = Claims::of_row(alloc, rows.at(place))?;
        own.add_to(claims)?;
    }
    Ok(())
}
