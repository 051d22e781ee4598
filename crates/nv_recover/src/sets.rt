//! The blocks that are claimed, and those that are claimed twice or more, as sets: block b is bit `b % 64` of word
//! `b / 64`.

ghost use Rattle.std.specs.Prelude.{◌≡◌, ◌/◌, ◌*◌, ◌<◌, ℕ, List, [], IfOk, IsTrue, length, false};
ghost use Rattle.std.specs.List.{All};
ghost use Rattle.nv_blockset.specs.BlockSet.{with_block};
ghost use Rattle.nv_region.specs.Region.{Region};
ghost use Rattle.nv_super.specs.declared.owners.Owner.{Owner as OwnerValue};
ghost use Rattle.nv_scan.specs.ChainBlocks.{table_claims};
ghost use Rattle.nv_scan.specs.Claims.{log_claims, run_claims, data_claims, IsSmall};
ghost use Rattle.nv_scan.specs.Work.{claims_among, claims_in};
ghost use Rattle.nv_scan.specs.declared.piece.Piece.{Piece};
ghost use Rattle.nv_cross_check.specs.Doubled.{AreDoubled};
ghost use Rattle.nv_outcome.specs.Parts.{AreMaps};
ghost use Rattle.nv_recover.specs.Scanned.{AreOwned, AreSetsOf, Cover, Fits, TakeIn, second_after};

use crate::scanned::Owned;
use nv_blockset::{contains, first_set, insert, insert_row, words_for};
use nv_claimmap::Claimed;
use nv_inode::Tables;
use nv_numbered::Chunks;
use nv_outcome::doubled;
use nv_radix::Extent;
use nv_scan::{ChainBlock, Claims, Row, claims_of};
use nv_super::{MOST_BLOCKS, Owner, Super};
use std::alloc::{AllocError, Global};

/// A run of so many blocks goes into the sets by whole words.
const LONG: u64 = 64;

/// The blocks that were claimed so far, and those that were claimed twice or more.
#[derive(Drop)]
pub(crate) struct Sets {
    pub first: Vec<u64>,
    pub second: Vec<u64>,
}

impl Sets {
    /// Nothing is claimed. There is a bit for each block of the region.
    pub fn new(alloc: Global, sup: &Super) -> Result<Sets, AllocError>
        ensures maps { IfOk result (λ sets. AreMaps [] sets.first.items sets.second.items) }
        ensures cover { IfOk result (λ sets. Cover sup.now sets.first.items sets.second.items) }
    {
        let words = words_for(sup.blocks);
        Ok(Sets {
            first: vec![in alloc; 0u64; words]?,
            second: vec![in alloc; 0u64; words]?,
        })
    }

    /// Puts the blocks of the claims of several inodes into the sets.
    pub fn claim_each(&mut self, each: &[Claims])
        requires within { All (Fits self.old.first.items self.old.second.items) (claims_among each.now) }
        ensures maps { TakeIn (claims_among each.now) self.old.first.items self.old.second.items self.new.first.items self.new.second.items }
        ensures as_long { (length self.new.first.items ≡ length self.old.first.items) × (length self.new.second.items ≡ length self.old.second.items) }
    {
        for claims in each {
            self.claim_all(claims);
        }
    }

    /// Puts the blocks of these claims into the sets.
    fn claim_all(&mut self, claims: &Claims)
        requires within { All (Fits self.old.first.items self.old.second.items) claims.now.items }
        ensures maps { TakeIn claims.now.items self.old.first.items self.old.second.items self.new.first.items self.new.second.items }
        ensures as_long { (length self.new.first.items ≡ length self.old.first.items) × (length self.new.second.items ≡ length self.old.second.items) }
    {
        fill(&mut self.first, &mut self.second, claims);
    }

    /// What the chains of these tables and the inodes of these rows own, where the sets are those of their claims.
    pub fn owned(
        self,
        alloc: Global,
        tables: &Tables,
        rows: &Chunks<Row>,
    ) -> Result<Owned, AllocError>
        requires { (region : Region) × (pieces : List Piece) × AreSetsOf region tables.now.layout pieces rows.now.items self.first.items self.second.items }
        ensures { IfOk result (λ owned. (region : Region) (pieces : List Piece) → AreSetsOf region tables.now.layout pieces rows.now.items self.first.items self.second.items
            → AreOwned tables.now.layout.sup pieces owned) }
    {
        let doubled = doubled_in(alloc, tables, rows, &self.second)?;
        Ok(Owned {
            blocks: self.first,
            doubled,
        })
    }
}

/// What was claimed by workers, in whatever order.
pub(crate) fn owned_of(alloc: Global, claimed: Claimed) -> Result<Owned, AllocError>
    requires covers { All (λ (x : ℕ × OwnerValue). x.0 < 64 * length claimed.second.items) claimed.claims.items }
    ensures first { IfOk result (λ owned. owned.blocks ≡ claimed.first) }
    ensures doubled { IfOk result (λ owned. AreDoubled claimed.claims.items claimed.second.items owned.doubled.items) }
{
    let doubled = doubled(alloc, &claimed.claims, &claimed.second)?;
    Ok(Owned {
        blocks: claimed.first,
        doubled,
    })
}

// The claims of the blocks in the second set. Only where there is such a block, all claims are listed.
fn doubled_in(
    alloc: Global,
    tables: &Tables,
    rows: &Chunks<Row>,
    second: &[u64],
) -> Result<Vec<(u64, Owner)>, AllocError>
    requires { (region : Region) × (pieces : List Piece) × (first : List ℕ) × AreSetsOf region tables.now.layout pieces rows.now.items first second.now }
    ensures { IfOk result (λ found. (region : Region) (pieces : List Piece) (first : List ℕ) → AreSetsOf region tables.now.layout pieces rows.now.items first second.now
        → AreDoubled (claims_in pieces) second.now found.items) }
{
    tables.are_laid();
    let blocks = tables.sup().blocks;
    if first_set(second, 0, blocks) == blocks {
        return Ok(Vec::new(alloc));
    }
    let claims = claims_of(alloc, tables, rows)?;
    doubled(alloc, &claims, second)
}

// Puts the blocks of these claims into the sets.
fn fill(first: &mut [u64], second: &mut [u64], claims: &Claims)
    requires within { All (Fits first.old second.old) claims.now.items }
    ensures maps { TakeIn claims.now.items first.old second.old first.new second.new }
    ensures as_long { (length first.new ≡ length first.old) × (length second.new ≡ length second.old) }
{
    let (table, inode, pages, runs) = claims.parts();
    fill_table(first, second, table);
    fill_pages(first, second, inode, pages);
    fill_runs(first, second, inode, runs);
}

// Puts the block of a chain into the sets, if there is one.
fn fill_table(first: &mut [u64], second: &mut [u64], table: Option<ChainBlock>)
    requires within { All (Fits first.old second.old) (table_claims table) }
    ensures maps { TakeIn (table_claims table) first.old second.old first.new second.new }
    ensures as_long { (length first.new ≡ length first.old) × (length second.new ≡ length second.old) }
{
    if let Some(table) = table {
        claim(first, second, table.block);
    }
}

// Puts the pages of an inode's log into the sets.
fn fill_pages(first: &mut [u64], second: &mut [u64], _inode: u64, pages: &[u64])
    requires within { All (Fits first.old second.old) (log_claims _inode 0 pages.now) }
    ensures maps { TakeIn (log_claims _inode 0 pages.now) first.old second.old first.new second.new }
    ensures as_long { (length first.new ≡ length first.old) × (length second.new ≡ length second.old) }
{
    for block in pages {
        claim(first, second, *block);
    }
}

// Puts the runs of an inode's file into the sets.
fn fill_runs(first: &mut [u64], second: &mut [u64], inode: u64, runs: &[Extent])
    requires within { All (Fits first.old second.old) (data_claims inode runs.now) }
    requires small { All IsSmall runs.now }
    ensures maps { TakeIn (data_claims inode runs.now) first.old second.old first.new second.new }
    ensures as_long { (length first.new ≡ length first.old) × (length second.new ≡ length second.old) }
{
    for run in runs {
        fill_run(first, second, inode, run);
    }
}

// Puts the blocks of one run into the sets.
fn fill_run(first: &mut [u64], second: &mut [u64], inode: u64, run: &Extent)
    requires within { All (Fits first.old second.old) (run_claims inode run.now) }
    requires small { IsSmall run.now }
    ensures maps { TakeIn (run_claims inode run.now) first.old second.old first.new second.new }
    ensures as_long { (length first.new ≡ length first.old) × (length second.new ≡ length second.old) }
{
    if !fill_words(first, second, inode, run) {
        fill_blocks(first, second, inode, run);
    }
}

// Puts the blocks of a long run that nobody claimed before into the first set, a word at a time. Where the run is short, or
// one of its blocks is claimed, it answers false, and changes nothing.
fn fill_words(first: &mut [u64], _second: &[u64], _inode: u64, run: &Extent) -> bool
    requires { All (Fits first.old _second.now) (run_claims _inode run.now) }
    ensures maps { IsTrue result → TakeIn (run_claims _inode run.now) first.old _second.now first.new _second.now }
    ensures same { result ≡ false → first.new ≡ first.old }
    ensures as_long { length first.new ≡ length first.old }
{
    if run.count < LONG || run.count > MOST_BLOCKS || run.block > MOST_BLOCKS {
        return false;
    }
    let end = run.block + run.count;
    let claimed = first_set(first, run.block, end);
    if claimed < end {
        return false;
    }
    insert_row(first, run.block, end);
    true
}

// Puts the blocks of one run into the sets, one after the other.
fn fill_blocks(first: &mut [u64], second: &mut [u64], _inode: u64, run: &Extent)
    requires within { All (Fits first.old second.old) (run_claims _inode run.now) }
    requires small { IsSmall run.now }
    ensures maps { TakeIn (run_claims _inode run.now) first.old second.old first.new second.new }
    ensures as_long { (length first.new ≡ length first.old) × (length second.new ≡ length second.old) }
{
    for by in 0..run.count {
        claim(first, second, run.block + by);
    }
}

// Puts a block into the first set, and into the second where it stood in the first already.
fn claim(first: &mut [u64], second: &mut [u64], block: u64)
    requires { (block / 64 < length first.old) × (block / 64 < length second.old) }
    ensures first { first.new ≡ with_block first.old block }
    ensures second { second.new ≡ second_after first.old second.old block }
{
    if contains(first, block) {
        insert(second, block);
    }
    insert(first, block);
}
