//! The names of two directories as one list.

ghost use Rattle.std.specs.Prelude.{◌≡◌, ◌⊎◌, ◌∷◌, [], IfOk, MatchOption, map};
ghost use Rattle.nv_super.specs.Order.{Rises};
ghost use Rattle.nv_difference.specs.Names.{by_bytes, name_bytes};
ghost use Rattle.nv_difference.specs.Merging.{AreMerged, AreNone, IsLeast, IsUpTo, behind};

use nv_names::Named;
use std::alloc::{AllocError, Global};
use std::cmp::Ordering;

/// The names of two lists that rise by bytes, each once and rising.
pub(crate) fn merged<'a>(
    alloc: Global,
    a: &[Named<'a>],
    b: &[Named<'a>],
) -> Result<Vec<Named<'a>>, AllocError>
    requires first { Rises by_bytes (map name_bytes a.now) }
    requires second { Rises by_bytes (map name_bytes b.now) }
    ensures { IfOk result (λ names. AreMerged (map name_bytes a.now) (map name_bytes b.now) (map name_bytes names.items)) }
{
    let mut left = a;
    let mut right = b;
    let mut names = Vec::new(alloc);
    while let Some(least) = least(left, right) {
        names.push(least)?;
        left = behind(left, least.name);
        right = behind(right, least.name);
    }
    Ok(names)
}

// The least of the names.
fn least<'a>(left: &[Named<'a>], right: &[Named<'a>]) -> Option<Named<'a>>
    ensures { MatchOption result (AreNone left.now right.now) (IsLeast left.now right.now) }
{
    match (left, right) {
        ([x, ..], [y, ..]) => Some(lesser(*x, *y)),
        ([x, ..], []) => Some(*x),
        ([], [y, ..]) => Some(*y),
        ([], []) => None,
    }
}

// The one whose name comes first, or the first of two of one name.
fn lesser<'a>(x: Named<'a>, y: Named<'a>) -> Named<'a>
    ensures among { (result ≡ x.entry) ⊎ (result ≡ y.entry) }
    ensures first { IsUpTo (name_bytes result) (x.entry ∷ []) }
    ensures second { IsUpTo (name_bytes result) (y.entry ∷ []) }
{
    match x.name.cmp(y.name) {
        Ordering::Less => x,
        Ordering::Equal => x,
        Ordering::Greater => y,
    }
}

// What is left without this name, if it is the first.
fn behind<'a, 'b>(names: &'b [Named<'a>], least: &[u8]) -> &'b [Named<'a>]
    ensures { result.now ≡ behind names.now least.now }
{
    match names {
        [first, others @ ..] if first.name == least => others,
        _ => names,
    }
}
