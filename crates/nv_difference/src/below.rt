//! The pairs of directories that the names of a pair lead to.

ghost use Rattle.std.specs.Prelude.{◌≡◌, ◌++◌, ◌&&◌, IfOk, OnOk, Some, map, flat_map};
ghost use Rattle.std.specs.Option.{option_map};
ghost use Rattle.nv_members.specs.Members.{kind_of, name_and_inode};
ghost use Rattle.nv_tree.specs.Refusals.{is_directory_at};
ghost use Rattle.nv_folders.specs.Folders.{path_in};
ghost use Rattle.nv_difference.specs.Pairs.{ArePairsBelow, both_of, pairs_of};

use crate::contents::Contents;
use crate::pair::Pair;
use nv_names::Named;
use nv_super::Kind;
use std::alloc::{AllocError, Global};

/// The most bytes of a path.
pub(crate) const MOST_PATH: usize = 4096;

/// The pairs of directories that the names of a pair lead to, in the order of the names.
pub(crate) fn pairs_below<S: Contents, T: Contents>(
    alloc: Global,
    first: &S,
    second: &T,
    above: &Pair,
) -> Result<Vec<Pair>, AllocError>
    requires { option_map kind_of (S.tree first.now above.now.a) ≡ Some Kind.Directory }
    ensures { IfOk result (λ below. ArePairsBelow (S.tree first.now) (T.tree second.now) (both_of above.now) (map both_of below.items)) }
{
    let listed = first.names_of(above.a)?;
    let mut below = Vec::new(alloc);
    push_each(alloc, first, second, above, &listed, &mut below)?;
    Ok(below)
}

fn push_each<S: Contents, T: Contents>(
    alloc: Global,
    first: &S,
    second: &T,
    above: &Pair,
    listed: &[Named<'_>],
    below: &mut Vec<Pair>,
) -> Result<(), AllocError>
    ensures { OnOk result (map both_of below.new.items
        ≡ map both_of below.old.items ++ flat_map (pairs_of (S.tree first.now) (T.tree second.now) (both_of above.now)) (map name_and_inode listed.now)) }
{
    for named in listed {
        push_pair(alloc, first, second, above, named, below)?;
    }
    Ok(())
}

// What a name leads to, where these are directories in use and the path isn't too long.
fn push_pair<S: Contents, T: Contents>(
    alloc: Global,
    first: &S,
    second: &T,
    above: &Pair,
    named: &Named<'_>,
    below: &mut Vec<Pair>,
) -> Result<(), AllocError>
    ensures { OnOk result (map both_of below.new.items ≡ map both_of below.old.items ++ pairs_of (S.tree first.now) (T.tree second.now) (both_of above.now) (name_and_inode named.now)) }
{
    let Some(b) = second.named(above.b, named.name) else {
        return Ok(());
    };
    if are_folders(first, second, named.inode, b)
        && above.path.len() + named.name.len() < MOST_PATH
    {
        let path = path_in(alloc, &above.path, named.name)?;
        below.push(Pair {
            path,
            a: named.inode,
            b,
        })?;
    }
    Ok(())
}

/// Whether two numbers are those of directories in use.
pub(crate) fn are_folders<S: Contents, T: Contents>(first: &S, second: &T, a: u64, b: u64) -> bool
    ensures { result ≡ (is_directory_at (S.tree first.now) a && is_directory_at (T.tree second.now) b) }
{
    is_folder(first, a) && is_folder(second, b)
}

fn is_folder<S: Contents>(source: &S, inode: u64) -> bool
    ensures { result ≡ is_directory_at (S.tree source.now) inode }
{
    match source.kind_of(inode) {
        Some(Kind::Directory) => true,
        Some(Kind::File) | None => false,
    }
}

/// The path of a name in a directory.
pub(crate) fn path_in(alloc: Global, above: &[u8], name: &[u8]) -> Result<Vec<u8>, AllocError>
    ensures { IfOk result (λ path. path.items ≡ path_in above.now name.now) }
{
    let mut path = Vec::from_slice(alloc, above)?;
    path.push(b'/')?;
    path.extend_from_slice(name)?;
    Ok(path)
}
