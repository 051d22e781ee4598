//! The directories that a directory names.

ghost use Rattle.std.specs.Prelude.{◌≡◌, ◌++◌, IfOk, OnOk, Some, map, flat_map};
ghost use Rattle.std.specs.Option.{option_map};
ghost use Rattle.nv_members.specs.Members.{kind_of, name_and_inode};
ghost use Rattle.nv_tree.specs.Refusals.{is_directory_at};
ghost use Rattle.nv_folders.specs.Folders.{AreBelow, path_in, spot_of, spots_of};

use crate::folder::Folder;
use nv_members::Inodes;
use nv_names::Named;
use nv_super::Kind;
use std::alloc::{AllocError, Global};

/// The most bytes of a path.
const MOST_PATH: usize = 4096;

/// The directories that the names of a directory lead to, in the order of the names.
pub(crate) fn folders_in<S: Inodes>(
    alloc: Global,
    source: &S,
    above: &Folder,
) -> Result<Vec<Folder>, AllocError>
    requires { option_map kind_of (S.tree source.now above.now.inode) ≡ Some Kind.Directory }
    ensures { IfOk result (λ below. AreBelow (S.tree source.now) (spot_of above.now) (map spot_of below.items)) }
{
    let listed = source.names_of(above.inode)?;
    let mut below = Vec::new(alloc);
    push_each(alloc, source, &above.path, &listed, &mut below)?;
    Ok(below)
}

fn push_each<S: Inodes>(
    alloc: Global,
    source: &S,
    above: &[u8],
    listed: &[Named<'_>],
    below: &mut Vec<Folder>,
) -> Result<(), AllocError>
    ensures { OnOk result (map spot_of below.new.items ≡ map spot_of below.old.items ++ flat_map (spots_of (S.tree source.now) above.now) (map name_and_inode listed.now)) }
{
    for named in listed {
        push_folder(alloc, source, above, named, below)?;
    }
    Ok(())
}

// What a name leads to, where that is a directory in use and the path isn't too long.
fn push_folder<S: Inodes>(
    alloc: Global,
    source: &S,
    above: &[u8],
    named: &Named<'_>,
    below: &mut Vec<Folder>,
) -> Result<(), AllocError>
    ensures { OnOk result (map spot_of below.new.items ≡ map spot_of below.old.items ++ spots_of (S.tree source.now) above.now (name_and_inode named.now)) }
{
    if is_folder(source, named.inode) && above.len() + named.name.len() < MOST_PATH {
        let path = path_in(alloc, above, named.name)?;
        below.push(Folder {
            path,
            inode: named.inode,
        })?;
    }
    Ok(())
}

/// Whether a number is that of a directory in use.
pub(crate) fn is_folder<S: Inodes>(source: &S, inode: u64) -> bool
    ensures { result ≡ is_directory_at (S.tree source.now) inode }
{
    match source.kind_of(inode) {
        Some(Kind::Directory) => true,
        Some(Kind::File) | None => false,
    }
}

fn path_in(alloc: Global, above: &[u8], name: &[u8]) -> Result<Vec<u8>, AllocError>
    ensures { IfOk result (λ path. path.items ≡ path_in above.now name.now) }
{
    let mut path = Vec::from_slice(alloc, above)?;
    path.push(b'/')?;
    path.extend_from_slice(name)?;
    Ok(path)
}
