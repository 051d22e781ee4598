//! Counting the blocks of all that an inode leads to.

ghost use Rattle.std.specs.Prelude.{◌≡◌, ◌+◌, ◌<◌, ◌++◌, IfOk, OnOk, Some, length, slice_get, string_bytes};
ghost use Rattle.nv_rows.specs.Rows.{IsInUse};
ghost use Rattle.nv_usage.specs.Usage.{AreUsed, Counts, IsAdded, IsCount, IsRowBlocks, IsUsage, blocks_in, usage_line};

use crate::named::NamedRows;
use nv_members::{Member, members_of};
use nv_radix::Extent;
use nv_rows::Rows;
use nv_scan::Row;
use std::alloc::{AllocError, Global};
use std::fmt::Write;

/// How many blocks are taken by an inode in use and all that it leads to by names: the pages of logs and of files. An inode with
/// several names counts once, and one that no name reaches from there doesn't.
///
/// Errors: `AllocError` where a growth was refused.
pub fn blocks_below(alloc: Global, rows: &Rows, inode: u64) -> Result<u64, AllocError>
    requires { IsInUse rows.now.items inode }
    ensures { IfOk result (IsUsage rows.now.items inode) }
{
    let named = NamedRows { rows };
    let members = members_of(alloc, &named, inode, false)?;
    count_blocks(rows, &members)
}

// What these members take.
fn count_blocks(rows: &Rows, members: &[Member<'_>]) -> Result<u64, AllocError>
    requires { AreUsed rows.now.items members.now }
    ensures { IfOk result (IsCount rows.now.items members.now (length members.now)) }
{
    let mut count = 0;
    for place in 0..members.len() {
        count = count_member(rows, member_at(members, place), place, count)?;
    }
    Ok(count)
}

fn member_at<'a>(members: &[Member<'a>], place: usize) -> Member<'a>
    requires { place < length members.now }
    ensures { slice_get members.now place ≡ Some result }
{
    members[place]
}

// What the member at a place takes is counted where it is the first one of its inode.
fn count_member(
    rows: &Rows,
    member: Member<'_>,
    place: usize,
    count: u64,
) -> Result<u64, AllocError>
    requires { IsInUse rows.now.items member.inode }
    ensures { IfOk result (Counts rows.now.items place member.entry count) }
{
    if member.first == place {
        return add_blocks(count, rows.row(member.inode));
    }
    Ok(count)
}

fn add_blocks(count: u64, row: &Row) -> Result<u64, AllocError>
    ensures { IfOk result (IsAdded row.now count) }
{
    more_blocks(count, row_blocks(row)?)
}

// What the inode of a row takes.
fn row_blocks(row: &Row) -> Result<u64, AllocError>
    ensures { IfOk result (IsRowBlocks row.now) }
{
    let extents = row.index.runs()?;
    more_blocks(row.pages.len() as u64, blocks_in(&extents)?)
}

fn blocks_in(extents: &[Extent]) -> Result<u64, AllocError>
    ensures { IfOk result (λ blocks. blocks ≡ blocks_in extents.now) }
{
    let mut blocks = 0;
    for extent in extents {
        blocks = more_blocks(blocks, extent.count)?;
    }
    Ok(blocks)
}

// No region has so many blocks that the sum is too large.
fn more_blocks(count: u64, more: u64) -> Result<u64, AllocError>
    ensures { IfOk result (λ sum. sum ≡ count + more) }
{
    match count.checked_add(more) {
        Some(sum) => Ok(sum),
        None => Err(AllocError),
    }
}

/// Puts the line of a count to a text. Errors: `AllocError` where a growth was refused.
pub fn push_usage(out: &mut String, blocks: u64) -> Result<(), AllocError>
    ensures { OnOk result (string_bytes out.new ≡ string_bytes out.old ++ usage_line blocks) }
{
    writeln!(out, "blocks {blocks}")
}
