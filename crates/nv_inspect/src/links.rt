//! The links between the pages of a log.

ghost use Rattle.std.specs.Prelude.{◌≡◌, ◌++◌, OnOk, IfOk, string_bytes};
ghost use Rattle.nv_inspect.specs.Log.{link_line, link_place, link_to_first, links_of, links_to, pages_from};

use std::alloc::AllocError;
use std::fmt::Write;

/// Puts the links to a text that lead from the first of these pages to this one, and answers the pages from this one on. Where it
/// isn't among them these are all links, and no page.
pub(crate) fn push_links_to<'a>(
    out: &mut String,
    pages: &'a [u64],
    page: u64,
) -> Result<&'a [u64], AllocError>
    ensures text { OnOk result (string_bytes out.new ≡ string_bytes out.old ++ links_to page pages.entry.now) }
    ensures rest { IfOk result (λ rest. rest.now ≡ pages_from page pages.entry.now) }
{
    let mut left = pages;
    while let [first, rest @ ..] = left {
        if *first == page {
            break;
        }
        push_link_to_first(out, *first, rest)?;
        left = rest;
    }
    Ok(left)
}

/// Puts all links from the first of these pages on to a text.
pub(crate) fn push_links(out: &mut String, pages: &[u64]) -> Result<(), AllocError>
    ensures { OnOk result (string_bytes out.new ≡ string_bytes out.old ++ links_of pages.now) }
{
    let mut left = pages;
    while let [first, rest @ ..] = left {
        push_link_to_first(out, *first, rest)?;
        left = rest;
    }
    Ok(())
}

// The link of a page to the first of those behind it, if there is one.
fn push_link_to_first(out: &mut String, page: u64, behind: &[u64]) -> Result<(), AllocError>
    ensures { OnOk result (string_bytes out.new ≡ string_bytes out.old ++ link_to_first page behind.now) }
{
    match behind {
        [next, ..] => push_link(out, page, *next),
        [] => Ok(()),
    }
}

fn push_link(out: &mut String, page: u64, next: u64) -> Result<(), AllocError>
    ensures { OnOk result (string_bytes out.new ≡ string_bytes out.old ++ link_line page next) }
{
    push_link_place(out, page)?;
    writeln!(out, " next page block {next}")
}

// Where the link of a page stands.
fn push_link_place(out: &mut String, page: u64) -> Result<(), AllocError>
    ensures { OnOk result (string_bytes out.new ≡ string_bytes out.old ++ link_place page) }
{
    write!(out, "  block {page} offset 4064")
}
