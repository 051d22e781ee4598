//! The names that a directory of the host lists.

ghost use Rattle.std.specs.Prelude.{◌≡◌, ◌∷◌, [], ◌++◌, map, IfOk, OnOk};
ghost use Rattle.std.specs.List.{filter, position};
ghost use Rattle.nv_host.specs.Names.{ListsNames, ends_name, is_name, names_listed};

use std::alloc::{AllocError, Global};

/// The names in a listing, which has them one behind the other, each ended by a byte 0, in whatever order: those of what stands
/// below the directory, rising by bytes.
pub(crate) fn names_in(alloc: Global, listing: &[u8]) -> Result<Vec<&[u8]>, AllocError>
    ensures { IfOk result (λ names. ListsNames listing.entry.now (map (λ name. name.now) names.items)) }
{
    let mut names = Vec::new(alloc);
    push_names(&mut names, listing)?;
    names.sort_unstable();
    Ok(names)
}

// The names in their order there.
fn push_names<'a>(names: &mut Vec<&'a [u8]>, listing: &'a [u8]) -> Result<(), AllocError>
    ensures { OnOk result (map (λ name. name.now) names.new.items ≡ map (λ name. name.now) names.old.items ++ names_listed listing.entry.now) }
{
    let mut left = listing;
    while let Some(at) = first_end(left) {
        let (name, rest) = left.split_at(at);
        push_name(names, name)?;
        left = &rest[1..];
    }
    push_name(names, left)
}

fn first_end(listing: &[u8]) -> Option<usize>
    ensures { result ≡ position ends_name listing.now }
{
    listing.iter().position(|byte| *byte == 0)
}

// A name, where it is one of something below.
fn push_name<'a>(names: &mut Vec<&'a [u8]>, name: &'a [u8]) -> Result<(), AllocError>
    ensures { OnOk result (map (λ name. name.now) names.new.items ≡ map (λ name. name.now) names.old.items ++ filter is_name (name.entry.now ∷ [])) }
{
    if is_name(name) {
        names.push(name)?;
    }
    Ok(())
}

// The directory itself and the one above it are listed too, as `.` and `..`.
fn is_name(name: &[u8]) -> bool
    ensures { result ≡ is_name name.now }
{
    match name {
        [] => false,
        [first] => *first != b'.',
        [first, second] => *first != b'.' || *second != b'.',
        _ => true,
    }
}
