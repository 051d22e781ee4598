//! The blocks that an inode claims.

ghost use Rattle.std.specs.Prelude.{◌≡◌, ◌*◌, ◌+◌, ◌<◌, ◌++◌, ℕ, List, [], None, IfOk, OnOk};
ghost use Rattle.std.specs.List.{All};
ghost use Rattle.nv_super.specs.Order.{Lists, owner_key};
ghost use Rattle.nv_radix.specs.Pages.{block_at};
ghost use Rattle.nv_radix.specs.Runs.{block_by};
ghost use Rattle.nv_scan.specs.ChainBlocks.{table_claims};
ghost use Rattle.nv_scan.specs.Claims.{AreClaimsBy, AreSmall, IsClaim, log_claims, data_claims, IsSmall};

use crate::chain_block::ChainBlock;
use crate::piece::{LogPages, Row, set_pages};
use nv_claimmap::ClaimedRuns;
use nv_radix::{Extent, ExtentMap, FileIndex};
use nv_super::{Owner, Run};
use std::alloc::{AllocError, Global};
use std::marker::Model;

/// What an inode claims, as the pages of its log and the runs of its file, and the block of a chain that is told with it.
/// Contracts see each block with its owner: first comes that of the chain, then the pages of the log in their order, and
/// then the blocks of the file, by page.
#[derive(Drop)]
pub struct Claims {
    inode: u64,
    table: Option<ChainBlock>,
    pages: LogPages,
    runs: Vec<Extent>,
}

impl Model for Claims {
    ghost use Rattle.std.specs.Prelude.{◌++◌};
    ghost use Rattle.std.specs.List.{All};
    ghost use Rattle.nv_scan.specs.ClaimList.{ClaimList};

    ghost Value = { ClaimList };

    ghost use Rattle.nv_scan.specs.ChainBlocks.{table_claims};
    ghost use Rattle.nv_scan.specs.Claims.{log_claims, data_claims, IsSmall};

    ghost view = { λ a. record { items = table_claims a.table ++ (log_claims a.inode 0 a.pages.items ++ data_claims a.inode a.runs.items) } };

    ghost invariant = { λ a. All IsSmall a.runs.items };
}

impl Claims {
    /// No claims. It takes no memory.
    pub fn new(alloc: Global) -> Claims
        ensures { result.items ≡ [] }
    {
        Claims {
            inode: 0,
            table: None,
            pages: LogPages::new(alloc),
            runs: Vec::new(alloc),
        }
    }

    /// The block of a chain, if there is one; the inode, the blocks of its log's pages in their order, and the runs of its
    /// file by page. What a run ends before, in blocks and in pages, is at most 2^64.
    pub fn parts(&self) -> (Option<ChainBlock>, u64, &[u64], &[Extent])
        ensures claims { self.now.items ≡ table_claims result.0 ++ (log_claims result.1 0 result.2.now ++ data_claims result.1 result.3.now) }
        ensures small { All IsSmall result.3.now }
    {
        (self.table, self.inode, &self.pages, &self.runs)
    }

    /// Each block with its owner.
    ///
    /// Errors: `AllocError` where the list's memory was refused.
    pub fn to_list(&self, alloc: Global) -> Result<Vec<(u64, Owner)>, AllocError>
        ensures { IfOk result (λ list. list.items ≡ self.now.items) }
    {
        let mut runs = ClaimedRuns::new(alloc);
        self.add_to(&mut runs)?;
        runs.to_list(alloc)
    }

    /// Puts the claims to the end of others. Each page of the log is a run of one block there.
    ///
    /// Errors: `AllocError` where a growth was refused; of the others nothing is said then.
    pub fn add_to(&self, others: &mut ClaimedRuns) -> Result<(), AllocError>
        ensures { OnOk result (others.new.items ≡ others.old.items ++ self.now.items) }
    {
        add_table(others, self.table)?;
        add_pages(others, self.inode, &self.pages)?;
        add_runs(others, self.inode, &self.runs)
    }

    /// Claims the block of a chain alone, if there is one. What memory there was is used again.
    pub(crate) fn begin(&mut self, table: Option<ChainBlock>)
        ensures { self.new.items ≡ table_claims table }
    {
        self.table = table;
        self.pages.clear();
        self.runs.clear();
    }

    /// Puts what an inode claims in place of what was claimed here, and its memory: the block of a chain that is told with it,
    /// the pages of its log, and the longest extents of its file. The pages of the file are mapped in an index that maps none.
    ///
    /// Errors: `AllocError` where a growth was refused; of the claims and the index nothing is said then.
    pub(crate) fn set(
        &mut self,
        inode: u64,
        table: Option<ChainBlock>,
        pages: &[u64],
        extents: &ExtentMap,
        index: &mut FileIndex,
    ) -> Result<(), AllocError>
        requires small { AreSmall (block_by extents.now) }
        requires none { (p : ℕ) → block_at index.old p ≡ None }
        ensures index { OnOk result ((p : ℕ) → block_at index.new p ≡ block_by extents.now p) }
        ensures claims { OnOk result (AreClaimsBy table inode pages.now index.new self.new.items) }
    {
        self.inode = inode;
        self.table = table;
        set_pages(&mut self.pages, pages)?;
        // The extents are made where they stay, and moved no more.
        match extents.fill_index(index, &mut self.runs) {
            Ok(()) => Ok(()),
            Err(AllocError) => {
                self.runs.clear();
                Err(AllocError)
            }
        }
    }

    /// What the inode of a row claims, without the block of a chain that may be told with it.
    pub(crate) fn of_row(alloc: Global, row: &Row) -> Result<Claims, AllocError>
        requires { AreSmall (block_at row.now.index) }
        ensures { IfOk result (λ claims. Lists (λ x. owner_key x.1) (IsClaim row.now.inode row.now.pages.items row.now.index) claims.items) }
    {
        Ok(Claims {
            inode: row.inode,
            table: None,
            pages: LogPages::from_slice(alloc, &row.pages)?,
            runs: row.index.runs()?,
        })
    }
}

fn add_table(claims: &mut ClaimedRuns, table: Option<ChainBlock>) -> Result<(), AllocError>
    ensures { OnOk result (claims.new.items ≡ claims.old.items ++ table_claims table) }
{
    match table {
        None => Ok(()),
        Some(table) => claims.push(table.run(), table.owner()),
    }
}

fn add_pages(claims: &mut ClaimedRuns, inode: u64, pages: &[u64]) -> Result<(), AllocError>
    ensures { OnOk result (claims.new.items ≡ claims.old.items ++ log_claims inode 0 pages.now) }
{
    let mut page = 0;
    for block in pages {
        let run = Run {
            start: *block,
            count: 1,
        };
        claims.push(run, Owner::Log { inode, page })?;
        page += 1;
    }
    Ok(())
}

fn add_runs(claims: &mut ClaimedRuns, inode: u64, runs: &[Extent]) -> Result<(), AllocError>
    requires { All IsSmall runs.now }
    ensures { OnOk result (claims.new.items ≡ claims.old.items ++ data_claims inode runs.now) }
{
    for extent in runs {
        let run = Run {
            start: extent.block,
            count: extent.count,
        };
        let owner = Owner::Data {
            inode,
            page: extent.page,
        };
        claims.push(run, owner)?;
    }
    Ok(())
}
