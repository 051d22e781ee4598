//! What is chosen for an archive: the inode, and the path that it has there.

ghost use Rattle.std.specs.Prelude.{◌≡◌, ◌<◌, ◌++◌, ℕ, List, IfOk, length, codes, decimal};
ghost use Rattle.std.specs.Result.{result_err};
ghost use Rattle.nv_region.specs.Region.{Region};
ghost use Rattle.nv_rows.specs.Rows.{IsInUse};
ghost use Rattle.nv_tree.specs.Path.{IsPath, last_name};
ghost use Rattle.nv_tree.specs.Names.{Spells};
ghost use Rattle.nv_tree.specs.Refusals.{Tests, first_refusal};
ghost use Rattle.nv_paths.specs.Seen.{tree_of};
ghost use Rattle.nv_archive.specs.Chosen.{AreTests, IsBase, IsFoundBy, base_of};

use nv_paths::row_at;
use nv_rows::Rows;
use nv_tree::{Refusal, split_name};
use std::alloc::{AllocError, Global};

/// What is put into an archive.
#[derive(Clone, Copy)]
pub enum Chosen<'a> {
    /// What a path leads to.
    Path(&'a [u8]),
    /// The inode of a number.
    Number(u64),
}

/// The inode in use that is chosen, or the refusal that `stat` has.
pub fn inode_of(rows: &Rows, chosen: Chosen<'_>) -> Result<u64, Refusal>
    ensures found { (R : Region) → IfOk result (IsFoundBy (tree_of R rows.now.items) chosen.entry) }
    ensures used { IfOk result (IsInUse rows.now.items) }
    ensures tests { (R : Region) (tests : Tests) → AreTests (tree_of R rows.now.items) chosen.entry tests → first_refusal tests ≡ result_err result }
{
    match chosen {
        Chosen::Path(path) => Ok(row_at(rows, path)?.inode),
        Chosen::Number(number) => match rows.get(number) {
            Some(_) => Ok(number),
            None => Err(Refusal::NotFound),
        },
    }
}

/// What the path of the first member is.
pub(crate) fn base_of(alloc: Global, chosen: Chosen<'_>) -> Result<Vec<u8>, AllocError>
    ensures { IfOk result (λ base. IsBase chosen.entry base.items) }
{
    match chosen {
        Chosen::Path(path) => Vec::from_slice(alloc, base_of_path(path)),
        Chosen::Number(number) => base_of_number(alloc, number),
    }
}

// `.` for the root, and else the last name.
fn base_of_path<'a>(path: &'a [u8]) -> &'a [u8]
    ensures { (names : List (List ℕ)) → IsPath path.now names → result.now ≡ base_of names }
{
    if path.len() < 2 {
        b"."
    } else {
        last_name(path)
    }
}

// The last of the names of a path.
fn last_name(path: &[u8]) -> &[u8]
    requires { 0 < length path.now }
    ensures { (names : List (List ℕ)) → Spells path.now names → result.now ≡ last_name names }
{
    let mut rest = path;
    loop {
        let (name, others) = split_name(rest);
        if others.is_empty() {
            return name;
        }
        rest = others;
    }
}

// `#` and the number.
fn base_of_number(alloc: Global, number: u64) -> Result<Vec<u8>, AllocError>
    ensures { IfOk result (λ base. base.items ≡ codes "#" ++ decimal number) }
{
    let text = format!(in alloc; "#{number}")?;
    Vec::from_slice(alloc, text.as_bytes())
}
