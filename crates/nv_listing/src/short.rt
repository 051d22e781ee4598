//! The lines of names, each with its inode.

ghost use Rattle.std.specs.Prelude.{◌≡◌, ◌++◌, OnOk, map, string_bytes};
ghost use Rattle.nv_names.specs.Names.{line_of};
ghost use Rattle.nv_listing.specs.Folders.{short_lines};

use nv_names::Named;
use nv_text::push_list_line;
use std::alloc::AllocError;

/// Puts names to a text, a line each, with its inode.
pub(crate) fn push_short_names(out: &mut String, listed: &[Named<'_>]) -> Result<(), AllocError>
    ensures { OnOk result (string_bytes out.new ≡ string_bytes out.old ++ short_lines (map line_of listed.now)) }
{
    for named in listed {
        push_list_line(out, named.name, named.inode)?;
    }
    Ok(())
}
