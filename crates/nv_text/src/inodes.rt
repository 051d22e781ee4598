//! The lines of an inode: its numbers, its log, and the extents of a file.

ghost use Rattle.std.specs.Prelude.{◌≡◌, ◌++◌, OnOk, string_bytes, flat_map, codes, decimal};
ghost use Rattle.nv_text.specs.Report.{inode_head, inode_tail, inode_line, stat_line, log_line, page_line};

use crate::fields::push_field;
use nv_tree::Stat;
use std::alloc::AllocError;
use std::fmt::Write;

fn push_inode_head(out: &mut String, stat: &Stat) -> Result<(), AllocError>
    ensures { OnOk result (string_bytes out.new ≡ string_bytes out.old ++ inode_head stat.now) }
{
    let Stat {
        inode,
        kind,
        mode,
        owner,
        group,
        ..
    } = *stat;
    push_field(out, "inode ", inode)?;
    write!(out, " {kind}")?;
    push_field(out, " mode ", u64::from(mode))?;
    push_field(out, " owner ", u64::from(owner))?;
    push_field(out, " group ", u64::from(group))
}

fn push_inode_tail(out: &mut String, stat: &Stat) -> Result<(), AllocError>
    ensures { OnOk result (string_bytes out.new ≡ string_bytes out.old ++ inode_tail stat.now) }
{
    let Stat {
        size,
        links,
        time,
        ..
    } = *stat;
    push_field(out, " size ", size)?;
    push_field(out, " links ", u64::from(links))?;
    push_field(out, " time ", time)?;
    out.push_str("\n")
}

/// `inode I KIND mode M owner U group G size Z links L time T`.
pub fn push_inode_line(out: &mut String, stat: &Stat) -> Result<(), AllocError>
    ensures { OnOk result (string_bytes out.new ≡ string_bytes out.old ++ inode_line stat.now) }
{
    push_inode_head(out, stat)?;
    push_inode_tail(out, stat)
}

/// `stat ` and the first line of the inode.
pub fn push_stat_line(out: &mut String, stat: &Stat) -> Result<(), AllocError>
    ensures { OnOk result (string_bytes out.new ≡ string_bytes out.old ++ stat_line stat.now) }
{
    out.push_str("stat ")?;
    push_inode_line(out, stat)
}

fn push_log_pages(out: &mut String, pages: &[u64]) -> Result<(), AllocError>
    ensures { OnOk result (string_bytes out.new ≡ string_bytes out.old ++ flat_map (λ page. codes " " ++ decimal page) pages.now) }
{
    for page in pages {
        push_field(out, " ", *page)?;
    }
    Ok(())
}

/// `  log`, the blocks of the log's pages in the order in which they are read, `tail` and the tail word.
pub fn push_log_line(out: &mut String, pages: &[u64], tail: u64) -> Result<(), AllocError>
    ensures { OnOk result (string_bytes out.new ≡ string_bytes out.old ++ log_line pages.now tail) }
{
    out.push_str("  log")?;
    push_log_pages(out, pages)?;
    push_field(out, " tail ", tail)?;
    out.push_str("\n")
}

/// `  page P COUNT BLOCK`: `count` pages of a file from `page` on lie in the blocks from `block` on.
pub fn push_page_line(out: &mut String, page: u64, count: u64, block: u64) -> Result<(), AllocError>
    ensures { OnOk result (string_bytes out.new ≡ string_bytes out.old ++ page_line page count block) }
{
    push_field(out, "  page ", page)?;
    push_field(out, " ", count)?;
    push_field(out, " ", block)?;
    out.push_str("\n")
}
