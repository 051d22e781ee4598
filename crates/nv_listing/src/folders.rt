//! The names of several directories, each with its path.

ghost use Rattle.std.specs.Prelude.{◌≡◌, ◌++◌, OnOk, codes, map, string_bytes};
ghost use Rattle.nv_folders.specs.Folders.{spot_of};
ghost use Rattle.nv_names.specs.Names.{line_of};
ghost use Rattle.nv_report.specs.Texts.{AddsText};
ghost use Rattle.nv_rows.specs.Rows.{row_of};
ghost use Rattle.nv_text.specs.Answers.{line};
ghost use Rattle.nv_listing.specs.Folders.{AreFolderTexts, AreMoreTexts, IsFolderText, IsNamesText, lines_of, shown_path};

use crate::long::push_names;
use crate::short::push_short_names;
use nv_folders::Folder;
use nv_names::Named;
use nv_rows::Rows;
use nv_text::push_escaped;
use std::alloc::AllocError;

/// Puts directories to a text, with an empty line between two: the path with a colon, and then the names, a line each and rising by
/// bytes, each with its inode, and with `long` behind the numbers of its inode.
///
/// Errors: `AllocError` where a growth was refused; of the text nothing is said then.
pub fn push_folders(
    out: &mut String,
    rows: &Rows,
    folders: &[Folder],
    long: bool,
) -> Result<(), AllocError>
    ensures { OnOk result (AddsText (AreFolderTexts long rows.now.items (map spot_of folders.now)) (string_bytes out.old) (string_bytes out.new)) }
{
    match folders {
        [first, others @ ..] => {
            push_folder(out, rows, first, long)?;
            push_more(out, rows, others, long)
        }
        [] => Ok(()),
    }
}

// Directories, each behind an empty line.
fn push_more(
    out: &mut String,
    rows: &Rows,
    folders: &[Folder],
    long: bool,
) -> Result<(), AllocError>
    ensures { OnOk result (AddsText (AreMoreTexts long rows.now.items (map spot_of folders.now)) (string_bytes out.old) (string_bytes out.new)) }
{
    for folder in folders {
        out.push_str("\n")?;
        push_folder(out, rows, folder, long)?;
    }
    Ok(())
}

fn push_folder(out: &mut String, rows: &Rows, folder: &Folder, long: bool) -> Result<(), AllocError>
    ensures { OnOk result (AddsText (IsFolderText long rows.now.items (spot_of folder.now)) (string_bytes out.old) (string_bytes out.new)) }
{
    push_path(out, &folder.path)?;
    push_names_of(out, rows, folder.inode, long)
}

// The path with a colon.
fn push_path(out: &mut String, path: &[u8]) -> Result<(), AllocError>
    ensures { OnOk result (string_bytes out.new ≡ string_bytes out.old ++ line (shown_path path.now ++ codes ":")) }
{
    if path.is_empty() {
        out.push_str("/")?;
    } else {
        push_escaped(out, path)?;
    }
    out.push_str(":\n")
}

fn push_names_of(out: &mut String, rows: &Rows, inode: u64, long: bool) -> Result<(), AllocError>
    ensures { OnOk result (AddsText (IsNamesText long rows.now.items (row_of rows.now.items inode)) (string_bytes out.old) (string_bytes out.new)) }
{
    match rows.get(inode) {
        Some(row) => push_lines(out, rows, &row.names.list()?, long),
        None => Ok(()),
    }
}

fn push_lines(
    out: &mut String,
    rows: &Rows,
    listed: &[Named<'_>],
    long: bool,
) -> Result<(), AllocError>
    ensures { OnOk result (string_bytes out.new ≡ string_bytes out.old ++ lines_of long rows.now.items (map line_of listed.now)) }
{
    if long {
        push_names(out, rows, listed)
    } else {
        push_short_names(out, listed)
    }
}
