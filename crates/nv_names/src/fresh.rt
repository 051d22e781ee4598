//! The names beside the buckets: a list of the few that were added since room was last made.

ghost use Rattle.std.specs.Prelude.{◌≡◌, ◌≤◌, ◌++◌, [], map, not, OnOk, nat_eq};
ghost use Rattle.std.specs.List.{filter};
ghost use Rattle.std.specs.Option.{option_map};
ghost use Rattle.std.specs.Cmp.Lexicographic.{pointwise};
ghost use Rattle.std.specs.Vec.{vec_len, vec_capacity};
ghost use Rattle.nv_names.specs.Names.{found_in, inode_and_place, line_of};
ghost use Rattle.nv_names.specs.Table.{fresh_line, FindSame, AreBeside};

use crate::buckets::Buckets;
use crate::name::Name;
use crate::{Named, Target};
use std::alloc::{AllocError, Global};

/// A name, and what it stands for.
pub(crate) type Fresh = (Name, Target);

/// What a name of a list stands for, if it is there.
pub(crate) fn target_of(list: &[Fresh], name: &[u8]) -> Option<Target>
    ensures { option_map inode_and_place result ≡ found_in (map fresh_line list.now) name.now }
{
    for (held, target) in list {
        if name == held.as_bytes() {
            return Some(*target);
        }
    }
    None
}

/// Takes a name out of a list, if it is there.
pub(crate) fn forget(list: &mut Vec<Fresh>, name: &[u8])
    ensures others { list.new.items ≡ filter (λ e. not (pointwise nat_eq e.0 name.now)) list.old.items }
    ensures len { vec_len list.new ≤ vec_len list.old }
    ensures capacity { vec_capacity list.new ≡ vec_capacity list.old }
{
    match target_of(list.as_slice(), name) {
        Some(_) => list.retain(|entry| is_other(entry, name)),
        None => {}
    }
}

/// Whether an entry is of another name.
fn is_other(entry: &Fresh, name: &[u8]) -> bool
    ensures { result ≡ not (pointwise nat_eq entry.now.0 name.now) }
{
    entry.0.as_bytes() != name
}

/// Moves the names of a list into the buckets that it stands beside, the last one first. An error leaves the names that both
/// have together.
///
/// A name is let go only once a bucket has it. So it is never moved as a value, which has room for the longest name.
pub(crate) fn settle(
    alloc: Global,
    buckets: &mut Buckets,
    fresh: &mut Vec<Fresh>,
) -> Result<(), AllocError>
    requires { AreBeside buckets.old (map fresh_line fresh.old.items) }
    ensures beside { AreBeside buckets.new (map fresh_line fresh.new.items) }
    ensures names { FindSame (buckets.old ++ map fresh_line fresh.old.items) (buckets.new ++ map fresh_line fresh.new.items) }
    ensures ok { OnOk result (fresh.new.items ≡ []) }
    ensures len { vec_len fresh.new ≤ vec_len fresh.old }
    ensures capacity { vec_capacity fresh.new ≡ vec_capacity fresh.old }
{
    while let Some(entry) = fresh.last() {
        let _had = buckets.put(alloc, entry.0.as_bytes(), entry.1)?;
        fresh.truncate(fresh.len() - 1);
    }
    Ok(())
}

/// Puts a line for each name of a list at the end of a listing.
pub(crate) fn push_fresh<'a>(
    listed: &mut Vec<Named<'a>>,
    list: &'a [Fresh],
) -> Result<(), AllocError>
    ensures { OnOk result (map line_of listed.new.items ≡ map line_of listed.old.items ++ map fresh_line list.now) }
{
    for (name, target) in list {
        listed.push(Named {
            name: name.as_bytes(),
            inode: target.inode,
            place: target.place,
        })?;
    }
    Ok(())
}
