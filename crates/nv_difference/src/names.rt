//! What is told of the names of two directories.

ghost use Rattle.std.specs.Prelude.{◌≡◌, OnOk, Some, map, string_bytes};
ghost use Rattle.std.specs.Option.{option_map};
ghost use Rattle.nv_members.specs.Members.{kind_of};
ghost use Rattle.nv_difference.specs.Names.{AreNamesTexts, IsNameText, IsVisitText, name_bytes};
ghost use Rattle.nv_difference.specs.Pairs.{both_of};
ghost use Rattle.nv_difference.specs.Texts.{Adds, AreTexts};
ghost use Rattle.nv_difference.specs.Walk.{IsVisitable, visit_of};

use crate::below::{MOST_PATH, path_in};
use crate::contents::Contents;
use crate::inodes::push_inode;
use crate::lines::push_passed;
use crate::merging::merged;
use crate::pair::{Pair, Visit};
use nv_names::Named;
use nv_super::Kind;
use std::alloc::{AllocError, Global};

/// What is told of a pair of directories.
pub(crate) fn push_visit<S: Contents, T: Contents>(
    out: &mut String,
    alloc: Global,
    first: &S,
    second: &T,
    visit: &Visit,
) -> Result<(), AllocError>
    requires { IsVisitable (S.tree first.now) (T.tree second.now) (visit_of visit.now) }
    ensures { OnOk result (Adds (IsVisitText (S.tree first.now) (T.tree second.now) (visit_of visit.now)) (string_bytes out.old) (string_bytes out.new)) }
{
    if visit.compared {
        push_names_of(out, alloc, first, second, &visit.pair)
    } else {
        push_passed(out, &visit.pair.path)
    }
}

// What is told of all names of two directories.
fn push_names_of<S: Contents, T: Contents>(
    out: &mut String,
    alloc: Global,
    first: &S,
    second: &T,
    pair: &Pair,
) -> Result<(), AllocError>
    requires first { option_map kind_of (S.tree first.now pair.now.a) ≡ Some Kind.Directory }
    requires second { option_map kind_of (T.tree second.now pair.now.b) ≡ Some Kind.Directory }
    ensures { OnOk result (Adds (AreNamesTexts (S.tree first.now) (T.tree second.now) (both_of pair.now)) (string_bytes out.old) (string_bytes out.new)) }
{
    let a = first.names_of(pair.a)?;
    let b = second.names_of(pair.b)?;
    let names = merged(alloc, &a, &b)?;
    push_names(out, alloc, first, second, pair, &names)
}

fn push_names<S: Contents, T: Contents>(
    out: &mut String,
    alloc: Global,
    first: &S,
    second: &T,
    pair: &Pair,
    names: &[Named<'_>],
) -> Result<(), AllocError>
    ensures { OnOk result (Adds (AreTexts (IsNameText (S.tree first.now) (T.tree second.now) (both_of pair.now)) (map name_bytes names.now)) (string_bytes out.old) (string_bytes out.new)) }
{
    for named in names {
        push_name(out, alloc, first, second, pair, named.name)?;
    }
    Ok(())
}

// What is told of a name of two directories, if its path isn't too long.
fn push_name<S: Contents, T: Contents>(
    out: &mut String,
    alloc: Global,
    first: &S,
    second: &T,
    pair: &Pair,
    name: &[u8],
) -> Result<(), AllocError>
    ensures { OnOk result (Adds (IsNameText (S.tree first.now) (T.tree second.now) (both_of pair.now) name.now) (string_bytes out.old) (string_bytes out.new)) }
{
    if pair.path.len() + name.len() >= MOST_PATH {
        return Ok(());
    }
    let path = path_in(alloc, &pair.path, name)?;
    let a = first.named(pair.a, name);
    let b = second.named(pair.b, name);
    push_inode(out, first, second, &path, a, b)
}
