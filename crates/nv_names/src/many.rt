//! Many buckets, of which each has the names whose keys have its place.

ghost use Rattle.std.specs.Prelude.{◌≡◌, ◌<◌, ◌+◌, ◌++◌, length, map, if◌then◌else◌, is_some, IfOk, OnOk, OnErr, Some, None};
ghost use Rattle.std.specs.Option.{option_map};
ghost use Rattle.nv_names.specs.Buckets.{place_of, all_lines, AreMany};
ghost use Rattle.nv_names.specs.Keys.{key_of};
ghost use Rattle.nv_names.specs.Names.{found_in, line_of, inode_and_place};
ghost use Rattle.nv_names.specs.Table.{PutsAt, FindSame};

use crate::bucket::Bucket;
use crate::{Named, Target};
use std::alloc::{AllocError, Global};

/// How many buckets a directory of many names has. A division by it is a mask.
pub(crate) const MANY: usize = 32;

/// So many keys in a row have one place. Names that differ in their last two bytes alone have mostly keys of one such row: so
/// names that come by number are put in, found and taken out side by side.
const ROW: u64 = 65_536;

/// The place of a key's bucket among so many.
fn place_of(key: u64, buckets: usize) -> usize
    requires { 0 < buckets }
    ensures place { result ≡ place_of key buckets }
    ensures within { result < buckets }
{
    let row = key / ROW;
    match buckets {
        MANY => (row % MANY as u64) as usize,
        _ => (row % buckets as u64) as usize,
    }
}

/// What a name stands for, if it is in its bucket.
pub(crate) fn find_among(buckets: &[Bucket], key: u64, name: &[u8]) -> Option<Target>
    requires some { 0 < length buckets.now }
    requires key { key ≡ key_of name.now }
    requires many { AreMany buckets.now }
    ensures { option_map inode_and_place result ≡ found_in (all_lines buckets.now) name.now }
{
    buckets[place_of(key, buckets.len())].find(key, name)
}

/// Puts a name into its bucket, in place of what it stood for, which it answers.
pub(crate) fn put_among(
    alloc: Global,
    buckets: &mut [Bucket],
    key: u64,
    name: &[u8],
    target: Target,
) -> Result<Option<Target>, AllocError>
    requires some { 0 < length buckets.old }
    requires key { key ≡ key_of name.now }
    requires many { AreMany buckets.old }
    ensures many { AreMany buckets.new }
    ensures had { IfOk result (λ had. option_map inode_and_place had ≡ found_in (all_lines buckets.old) name.now) }
    ensures ok { OnOk result (PutsAt (all_lines buckets.old) (all_lines buckets.new) name.now (Some (inode_and_place target))) }
    ensures err { OnErr result (FindSame (all_lines buckets.old) (all_lines buckets.new)) }
    ensures more { IfOk result (λ had. length (all_lines buckets.new) ≡ length (all_lines buckets.old) + (if is_some had then 0 else 1)) }
    ensures no_more { OnErr result (length (all_lines buckets.new) ≡ length (all_lines buckets.old)) }
{
    let bucket = &mut buckets[place_of(key, buckets.len())];
    let had = bucket.put(alloc, key, name, target);
    let _each_once = bucket.len();
    had
}

/// Takes a name out of its bucket, and answers whether it was there.
pub(crate) fn take_from(buckets: &mut [Bucket], key: u64, name: &[u8]) -> bool
    requires some { 0 < length buckets.old }
    requires key { key ≡ key_of name.now }
    requires many { AreMany buckets.old }
    ensures many { AreMany buckets.new }
    ensures names { PutsAt (all_lines buckets.old) (all_lines buckets.new) name.now None }
    ensures less { length (all_lines buckets.new) + (if result then 1 else 0) ≡ length (all_lines buckets.old) }
{
    let bucket = &mut buckets[place_of(key, buckets.len())];
    let had = bucket.take_out(key, name);
    let _each_once = bucket.len();
    had
}

/// Puts a line for each name of each bucket at the end of a listing.
pub(crate) fn push_each<'a>(
    listed: &mut Vec<Named<'a>>,
    buckets: &'a [Bucket],
) -> Result<(), AllocError>
    ensures { OnOk result (map line_of listed.new.items ≡ map line_of listed.old.items ++ all_lines buckets.now) }
{
    for bucket in buckets {
        bucket.push_lines(listed)?;
    }
    Ok(())
}
