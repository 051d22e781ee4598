//! What is told of the inodes to which one path leads.

ghost use Rattle.std.specs.Prelude.{◌≡◌, OnOk, Some, string_bytes};
ghost use Rattle.std.specs.Option.{option_and_then};
ghost use Rattle.nv_tree.specs.Tree.{Node};
ghost use Rattle.nv_difference.specs.Inodes.{IsBytesText, IsContentText, IsInodeText, IsShown, IsSide};
ghost use Rattle.nv_difference.specs.Texts.{Adds};

use crate::bytes::parting;
use crate::contents::{Contents, Numbers};
use crate::lines::{push_kinds, push_numbers, push_only_a, push_only_b, push_place};
use nv_super::Kind;
use std::alloc::AllocError;

/// An inode in use.
#[derive(Clone, Copy)]
pub(crate) struct Side {
    inode: u64,
    numbers: Numbers,
}

/// What is told of the inodes of one path, where they are in use.
pub(crate) fn push_inode<S: Contents, T: Contents>(
    out: &mut String,
    first: &S,
    second: &T,
    path: &[u8],
    a: Option<u64>,
    b: Option<u64>,
) -> Result<(), AllocError>
    ensures { OnOk result (Adds (IsInodeText path.now (option_and_then (S.tree first.now) a) (option_and_then (T.tree second.now) b)) (string_bytes out.old) (string_bytes out.new)) }
{
    match (side_of(first, a), side_of(second, b)) {
        (Some(a), Some(b)) => push_both(out, first, second, path, a, b),
        (Some(_), None) => push_only_a(out, path),
        (None, Some(_)) => push_only_b(out, path),
        (None, None) => Ok(()),
    }
}

fn side_of<S: Contents>(source: &S, inode: Option<u64>) -> Option<Side>
    ensures { IsSide (option_and_then (S.tree source.now) inode) inode result }
{
    let inode = inode?;
    let numbers = source.numbers_of(inode)?;
    Some(Side { inode, numbers })
}

// The same of two inodes in use.
fn push_both<S: Contents, T: Contents>(
    out: &mut String,
    first: &S,
    second: &T,
    path: &[u8],
    a: Side,
    b: Side,
) -> Result<(), AllocError>
    requires first { IsShown (S.tree first.now) a }
    requires second { IsShown (T.tree second.now) b }
    ensures { (x y : Node) → S.tree first.now a.inode ≡ Some x → T.tree second.now b.inode ≡ Some y
        → OnOk result (Adds (IsContentText x.kind y.kind path.now x y) (string_bytes out.old) (string_bytes out.new)) }
{
    match (a.numbers.kind, b.numbers.kind) {
        (Kind::File, Kind::File) => {
            push_numbers(out, path, &a.numbers, &b.numbers)?;
            push_bytes(out, first, second, path, a, b)
        }
        (Kind::Directory, Kind::Directory) => push_numbers(out, path, &a.numbers, &b.numbers),
        (Kind::File, Kind::Directory) | (Kind::Directory, Kind::File) => {
            push_kinds(out, path, a.numbers.kind, b.numbers.kind)
        }
    }
}

// Where the bytes of two files part below both sizes.
fn push_bytes<S: Contents, T: Contents>(
    out: &mut String,
    first: &S,
    second: &T,
    path: &[u8],
    a: Side,
    b: Side,
) -> Result<(), AllocError>
    requires first { IsShown (S.tree first.now) a }
    requires second { IsShown (T.tree second.now) b }
    requires files { (a.numbers.kind ≡ Kind.File) × (b.numbers.kind ≡ Kind.File) }
    ensures { (x y : Node) → S.tree first.now a.inode ≡ Some x → T.tree second.now b.inode ≡ Some y
        → OnOk result (Adds (IsBytesText path.now x y) (string_bytes out.old) (string_bytes out.new)) }
{
    let end = a.numbers.size.min(b.numbers.size);
    match parting(first, second, a.inode, b.inode, end) {
        Some(place) => push_place(out, path, place),
        None => Ok(()),
    }
}
