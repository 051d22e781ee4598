//! The names of a directory and of all directories below it: a region is recovered, and the text is made and written.

ghost use Rattle.std.specs.Prelude.{◌≡◌, ◌≢◌, ◌++◌, ℕ, List, Some, IfOk, IfErr, codes, decimal, map, string_bytes};
ghost use Rattle.nv_region.specs.Region.{Region, region_of};
ghost use Rattle.nv_folders.specs.Folders.{spot_of};
ghost use Rattle.nv_rows.specs.Rows.{row_of};
ghost use Rattle.nv_tree.specs.Path.{IsPath, spelled};
ghost use Rattle.nv_metadata.specs.Gathered.{AreGathered, IsOpen};
ghost use Rattle.nv_logs.specs.Folders.{AreFoldersBelow, IsFoldersLook, IsFoldersText, IsTop, TellsFolders, TellsFoldersOf};
ghost use Rattle.nv_logs.specs.Writing.{WritesTold, FailsTold};

use crate::asking::row_asked;
use crate::inode::Inode;
use crate::looking::{Look, refused_look};
use crate::telling::{Teller, tell_gathered, tell_image};
use nv_folders::{Folder, folders_of};
use nv_image_check::Answered;
use nv_listing::push_folders;
use nv_metadata::Gathered;
use nv_report::{Last, Recovered};
use nv_rows::Rows;
use nv_scan::Row;
use nv_stream::ScriptError;
use nv_super::Kind;
use nv_tree::Refusal;
use nv_usage::named_rows;
use std::alloc::{AllocError, Global};
use std::io::Write;

/// Writes the names of a directory in the region of these bytes and of all directories that it leads to by paths of at most 4,096
/// bytes, each directory behind its path, and with `long` each name behind the numbers of its inode; or `refused NAME` to the
/// errors, as `list` is refused. Errors as of `log_image`.
pub fn folders_image<W: Write, E: Write>(
    alloc: Global,
    bytes: &[u8],
    inode: &Inode,
    long: bool,
    writer: &mut W,
    errors: &mut E,
) -> Result<Answered, ScriptError>
    ensures ok { IfOk result (λ answered. WritesTold (IsFoldersLook inode.now long (region_of bytes.now)) (W.contents writer.old) (W.contents writer.new) (E.contents errors.old)
        (E.contents errors.new) answered) }
    ensures err { IfErr result (λ e. FailsTold (IsFoldersLook inode.now long (region_of bytes.now)) (W.contents writer.old) (W.contents writer.new) (E.contents errors.old) (E.contents errors.new) e) }
{
    tell_image(alloc, bytes, &Folders { inode, long }, writer, errors)
}

/// The same of the region of which this was gathered. Its text, its status and its errors are those of `folders_image` for all
/// its bytes.
pub fn folders_gathered<W: Write, E: Write>(
    alloc: Global,
    gathered: Gathered,
    inode: &Inode,
    long: bool,
    writer: &mut W,
    errors: &mut E,
) -> Result<Answered, ScriptError>
    requires { IsOpen gathered }
    ensures ok { (R : Region) → AreGathered R gathered
        → IfOk result (λ answered. WritesTold (IsFoldersLook inode.now long R) (W.contents writer.old) (W.contents writer.new) (E.contents errors.old) (E.contents errors.new) answered) }
    ensures err { (R : Region) → AreGathered R gathered → IfErr result (λ e. FailsTold (IsFoldersLook inode.now long R) (W.contents writer.old) (W.contents writer.new) (E.contents errors.old)
        (E.contents errors.new) e) }
    ensures unread { IfErr result (λ e. e ≢ ScriptError.Read) }
{
    tell_gathered(alloc, gathered, &Folders { inode, long }, writer, errors)
}

// The names of a directory and of all directories below it.
#[derive(Drop)]
struct Folders<'a> {
    inode: &'a Inode,
    long: bool,
}

impl Teller for Folders<'_> {
    ghost tells = { λ l t rows text status. TellsFolders t rows l.inode.now l.long text status };

    fn look(&self, alloc: Global, found: &Recovered) -> Result<Look, AllocError> {
        let faults = found.faults.len();
        match row_asked(&found.rows, self.inode) {
            Ok(row) => row_look(alloc, &found.rows, row, self.inode, self.long, faults),
            Err(refusal) => refused_look(alloc, refusal, faults),
        }
    }
}

fn row_look(
    alloc: Global,
    rows: &Rows,
    row: &Row,
    inode: &Inode,
    long: bool,
    faults: usize,
) -> Result<Look, AllocError>
    requires { row_of rows.now.items row.now.inode ≡ Some row.now }
    ensures told { IfOk result (λ look. TellsFoldersOf rows.now.items row.now inode.now long (string_bytes look.text) look.answered.status) }
    ensures faults { IfOk result (λ look. look.answered.faults ≡ faults) }
{
    match row.kind {
        Kind::Directory => Ok(Look {
            text: folders_text(alloc, rows, row, inode, long)?,
            answered: Answered {
                status: Last::Sound.status(),
                faults,
            },
        }),
        Kind::File => refused_look(alloc, Refusal::NotDirectory, faults),
    }
}

fn folders_text(
    alloc: Global,
    rows: &Rows,
    row: &Row,
    inode: &Inode,
    long: bool,
) -> Result<String, AllocError>
    requires among { row_of rows.now.items row.now.inode ≡ Some row.now }
    requires directory { row.now.kind ≡ Kind.Directory }
    ensures { IfOk result (λ text. IsFoldersText rows.now.items row.now.inode inode.now long (string_bytes text)) }
{
    let folders = folders_below(alloc, rows, row, inode)?;
    let mut text = String::new(alloc);
    push_folders(&mut text, rows, &folders, long)?;
    Ok(text)
}

fn folders_below(
    alloc: Global,
    rows: &Rows,
    row: &Row,
    inode: &Inode,
) -> Result<Vec<Folder>, AllocError>
    requires among { row_of rows.now.items row.now.inode ≡ Some row.now }
    requires directory { row.now.kind ≡ Kind.Directory }
    ensures { IfOk result (λ folders. AreFoldersBelow rows.now.items row.now.inode inode.now (map spot_of folders.items)) }
{
    let named = named_rows(rows);
    let path = top_of(alloc, inode)?;
    let start = Folder {
        path,
        inode: row.inode,
    };
    folders_of(alloc, &named, start)
}

// What stands before the paths of all below.
fn top_of(alloc: Global, inode: &Inode) -> Result<Vec<u8>, AllocError>
    ensures { IfOk result (λ top. IsTop inode.now top.items) }
{
    match inode {
        Inode::Path(path) => Vec::from_slice(alloc, top_of_path(path)),
        Inode::Number(number) => top_of_number(alloc, *number),
    }
}

// Nothing for the root, and else the path itself.
fn top_of_path(path: &[u8]) -> &[u8]
    ensures { (names : List (List ℕ)) → IsPath path.now names → result.now ≡ spelled names }
{
    if path.len() < 2 { b"" } else { path }
}

fn top_of_number(alloc: Global, number: u64) -> Result<Vec<u8>, AllocError>
    ensures { IfOk result (λ top. top.items ≡ codes "#" ++ decimal number) }
{
    let text = format!(in alloc; "#{number}")?;
    Vec::from_slice(alloc, text.as_bytes())
}
