//! Claiming the blocks of pieces at the map of a recovery.

ghost use Rattle.std.specs.Prelude.{◌≡◌, OnOk};
ghost use Rattle.std.specs.List.{All};
ghost use Rattle.nv_claimcore.specs.Spans.{Adds};
ghost use Rattle.nv_scan.specs.ChainBlocks.{table_claims};
ghost use Rattle.nv_scan.specs.Claims.{log_claims, data_claims};
ghost use Rattle.nv_scan.specs.Claiming.{IsClaimable};
ghost use Rattle.nv_scan.specs.Work.{claims_among};

use crate::chain_block::ChainBlock;
use crate::claims::Claims;
use nv_claimmap::{ClaimMap, ClaimSeat};
use nv_radix::Extent;
use nv_super::{Owner, Run};
use std::alloc::AllocError;

/// Claims what each of some inodes claims, one after the other. Where a growth is refused, what stands before it is claimed.
pub(crate) fn claim_each(
    map: &ClaimMap,
    seat: &mut ClaimSeat,
    each: &[Claims],
) -> Result<(), AllocError>
    requires own { seat.old.map ≡ map.now }
    requires each { All (IsClaimable map.now.sizes.blocks) (claims_among each.now) }
    ensures same { (seat.new.map ≡ seat.old.map) × (seat.new.number ≡ seat.old.number) × (seat.new.view.seats ≡ seat.old.view.seats) }
    ensures ok { OnOk result (Adds (claims_among each.now) seat.old.view seat.new.view) }
{
    for claims in each {
        claim_all(map, seat, claims)?;
    }
    Ok(())
}

/// Claims what an inode claims, in its order: the map takes a run of a file's pages in few steps. Where a growth is refused,
/// what stands before it is claimed.
fn claim_all(map: &ClaimMap, seat: &mut ClaimSeat, claims: &Claims) -> Result<(), AllocError>
    requires own { seat.old.map ≡ map.now }
    requires each { All (IsClaimable map.now.sizes.blocks) claims.now.items }
    ensures same { (seat.new.map ≡ seat.old.map) × (seat.new.number ≡ seat.old.number) × (seat.new.view.seats ≡ seat.old.view.seats) }
    ensures ok { OnOk result (Adds claims.now.items seat.old.view seat.new.view) }
{
    let (table, inode, pages, runs) = claims.parts();
    claim_table(map, seat, table)?;
    claim_pages(map, seat, inode, pages)?;
    claim_runs(map, seat, inode, runs)
}

/// Claims the block of a chain, if there is one.
fn claim_table(
    map: &ClaimMap,
    seat: &mut ClaimSeat,
    table: Option<ChainBlock>,
) -> Result<(), AllocError>
    requires own { seat.old.map ≡ map.now }
    requires each { All (IsClaimable map.now.sizes.blocks) (table_claims table) }
    ensures same { (seat.new.map ≡ seat.old.map) × (seat.new.number ≡ seat.old.number) × (seat.new.view.seats ≡ seat.old.view.seats) }
    ensures ok { OnOk result (Adds (table_claims table) seat.old.view seat.new.view) }
{
    match table {
        None => Ok(()),
        Some(table) => map.claim(seat, table.run(), table.owner()),
    }
}

/// Claims the pages of a log.
fn claim_pages(
    map: &ClaimMap,
    seat: &mut ClaimSeat,
    inode: u64,
    pages: &[u64],
) -> Result<(), AllocError>
    requires own { seat.old.map ≡ map.now }
    requires each { All (IsClaimable map.now.sizes.blocks) (log_claims inode 0 pages.now) }
    ensures same { (seat.new.map ≡ seat.old.map) × (seat.new.number ≡ seat.old.number) × (seat.new.view.seats ≡ seat.old.view.seats) }
    ensures ok { OnOk result (Adds (log_claims inode 0 pages.now) seat.old.view seat.new.view) }
{
    let mut page = 0;
    for block in pages {
        let run = Run {
            start: *block,
            count: 1,
        };
        map.claim(seat, run, Owner::Log { inode, page })?;
        page += 1;
    }
    Ok(())
}

/// Claims the runs of a file.
fn claim_runs(
    map: &ClaimMap,
    seat: &mut ClaimSeat,
    inode: u64,
    runs: &[Extent],
) -> Result<(), AllocError>
    requires own { seat.old.map ≡ map.now }
    requires each { All (IsClaimable map.now.sizes.blocks) (data_claims inode runs.now) }
    ensures same { (seat.new.map ≡ seat.old.map) × (seat.new.number ≡ seat.old.number) × (seat.new.view.seats ≡ seat.old.view.seats) }
    ensures ok { OnOk result (Adds (data_claims inode runs.now) seat.old.view seat.new.view) }
{
    for extent in runs {
        let run = Run {
            start: extent.block,
            count: extent.count,
        };
        let owner = Owner::Data {
            inode,
            page: extent.page,
        };
        map.claim(seat, run, owner)?;
    }
    Ok(())
}
