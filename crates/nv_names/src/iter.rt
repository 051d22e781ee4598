//! The iterators over the names of a bucket and of an index.

ghost use Rattle.std.specs.Prelude.{◌≡◌, ◌++◌, [], length, map};
ghost use Rattle.std.specs.Iterator.{YieldsFirstBy, item_count};
ghost use Rattle.nv_names.specs.Bucket.{lines_of};
ghost use Rattle.nv_names.specs.Left.{YieldsLine, left_in};
ghost use Rattle.nv_names.specs.Buckets.{all_lines};
ghost use Rattle.nv_names.specs.Names.{line_of};
ghost use Rattle.nv_names.specs.Table.{fresh_line};

use crate::bucket::Bucket;
use crate::fresh::Fresh;
use crate::held::Held;
use crate::{Named, Target};
use std::collections::{btree_map, hash_map};
use std::marker::Model;

/// The names of a bucket that are left, in no order that a caller can rest on.
#[derive(Drop)]
pub(crate) struct BucketIter<'a> {
    first: hash_map::Iter<'a, u64, Held>,
    others: btree_map::Iter<'a, Vec<u8>, Target>,
}

impl<'a> Model for BucketIter<'a> {
    ghost use Rattle.std.specs.Prelude.{List, ℕ};
    ghost use Rattle.nv_names.specs.Bucket.{lines_of};

    ghost Value = { List (List ℕ × ℕ × ℕ) };

    ghost view = { λ it. lines_of it.first it.others };
}

impl<'a> BucketIter<'a> {
    pub(crate) fn new(
        first: hash_map::Iter<'a, u64, Held>,
        others: btree_map::Iter<'a, Vec<u8>, Target>,
    ) -> BucketIter<'a>
        ensures { result ≡ lines_of first.entry others.entry }
    {
        BucketIter { first, others }
    }

    /// The next name, if one is left.
    fn next(&mut self) -> Option<Named<'a>>
        ensures { YieldsLine self.old result self.new }
    {
        if let Some((_, held)) = self.first.next() {
            let target = held.target();
            return Some(Named {
                name: held.name(),
                inode: target.inode,
                place: target.place,
            });
        }
        match self.others.next() {
            Some((name, target)) => Some(Named {
                name: name.as_slice(),
                inode: target.inode,
                place: target.place,
            }),
            None => None,
        }
    }
}

/// The names of an index that are left, in no order that a caller can rest on. It takes no memory.
#[derive(Drop)]
pub struct Iter<'a> {
    // The bucket in hand, if there is one.
    bucket: Option<BucketIter<'a>>,
    // Those behind it.
    buckets: &'a [Bucket],
    // The names beside the buckets.
    fresh: &'a [Fresh],
}

impl<'a> Model for Iter<'a> {
    ghost use Rattle.std.specs.Prelude.{List, ℕ, ◌++◌, map};
    ghost use Rattle.nv_names.specs.Left.{left_in};
    ghost use Rattle.nv_names.specs.Table.{fresh_line};

    ghost Value = { List (List ℕ × ℕ × ℕ) };

    ghost view = { λ it. left_in it.bucket it.buckets.now ++ map fresh_line it.fresh.now };
}

impl<'a> Iter<'a> {
    /// No name.
    pub(crate) fn none() -> Iter<'a>
        ensures { result ≡ [] }
    {
        Iter {
            bucket: None,
            buckets: &[],
            fresh: &[],
        }
    }

    /// The names of a bucket, those of buckets behind it, and those beside them.
    pub(crate) fn new(bucket: BucketIter<'a>, buckets: &'a [Bucket], fresh: &'a [Fresh]) -> Iter<'a>
        ensures { result ≡ (bucket.entry ++ all_lines buckets.now) ++ map fresh_line fresh.now }
    {
        Iter {
            bucket: Some(bucket),
            buckets,
            fresh,
        }
    }
}

impl<'a> Iterator for Iter<'a> {
    type Item = Named<'a>;

    ghost next_gives = { YieldsFirstBy line_of (λ left. left) };

    ghost remaining = { item_count (λ left. left) };

    fn next(&mut self) -> Option<Named<'a>> {
        match next_in(&mut self.bucket, &mut self.buckets) {
            Some(named) => Some(named),
            None => next_beside(&mut self.fresh),
        }
    }
}

/// The next name of the bucket in hand, or of the first bucket behind it that has one.
fn next_in<'a>(bucket: &mut Option<BucketIter<'a>>, buckets: &mut &'a [Bucket]) -> Option<Named<'a>>
    ensures { YieldsLine (left_in bucket.old buckets.old.now) result (left_in bucket.new buckets.new.now) }
{
    loop {
        if let Some(named) = next_of(bucket) {
            return Some(named);
        }
        let (first, behind) = buckets.split_first()?;
        *bucket = Some(first.iter());
        *buckets = behind;
    }
}

/// The next name of a bucket in hand, if there is one.
fn next_of<'a>(bucket: &mut Option<BucketIter<'a>>) -> Option<Named<'a>>
    ensures { YieldsLine (left_in bucket.old []) result (left_in bucket.new []) }
{
    match bucket {
        Some(bucket) => bucket.next(),
        None => None,
    }
}

/// The next name beside the buckets.
fn next_beside<'a>(fresh: &mut &'a [Fresh]) -> Option<Named<'a>>
    ensures { YieldsLine (map fresh_line fresh.old.now) result (map fresh_line fresh.new.now) }
{
    let ((name, target), behind) = fresh.split_first()?;
    *fresh = behind;
    Some(Named {
        name: name.as_bytes(),
        inode: target.inode,
        place: target.place,
    })
}
