//! The names of a directory in buckets: in one where they are few, and else in many, among which a name's key chooses. It takes
//! memory for each name that it is given.

ghost use Rattle.std.specs.Prelude.{◌≡◌, ◌^◌, ◌<◌, ◌+◌, ◌++◌, [], List, ℕ, length, map, if◌then◌else◌, is_some, IfOk, OnOk, OnErr, Some, None, nat_eq};
ghost use Rattle.std.specs.Option.{option_map};
ghost use Rattle.std.specs.List.{IsDistinct};
ghost use Rattle.std.specs.Cmp.Lexicographic.{pointwise};
ghost use Rattle.nv_names.specs.Buckets.{lines_in, AreBuckets};
ghost use Rattle.nv_names.specs.Names.{found_in, names_of, line_of, inode_and_place};
ghost use Rattle.nv_names.specs.Table.{PutsAt, FindSame, fresh_line};

use crate::bucket::Bucket;
use crate::fresh::Fresh;
use crate::iter::Iter;
use crate::key::key_of;
use crate::many::{find_among, push_each, put_among, take_from};
use crate::spreading::make_room;
use crate::{Named, Target};
use std::alloc::{AllocError, Global};
use std::marker::Model;

/// From here on the buckets take no name: no memory holds so many, and their number still fits a word.
const MOST: usize = 0x7FFF_FFFF_FFFF_FFFF;

/// A map from names to what they stand for.
///
/// It begins with one bucket. Once that takes no more by their keys, its names move into many buckets, and it has none from
/// then on.
#[derive(Drop)]
pub(crate) struct Buckets {
    one: Bucket,
    many: Vec<Bucket>,
    count: usize,
}

impl Model for Buckets {
    ghost use Rattle.std.specs.Prelude.{List, ℕ};
    ghost use Rattle.nv_names.specs.Buckets.{lines_in, AreCounted};

    ghost Value = { List (List ℕ × ℕ × ℕ) };

    ghost view = { λ a. lines_in a.one a.many.items };

    ghost invariant = { λ a. AreCounted a.one a.many.items a.count };
}

impl Buckets {
    /// Buckets with no name. They take no memory.
    pub(crate) fn new(alloc: Global) -> Buckets
        ensures { result ≡ [] }
    {
        Buckets {
            one: Bucket::new(alloc),
            many: Vec::new(alloc),
            count: 0,
        }
    }

    /// What a name stands for, if it is in a bucket.
    pub(crate) fn find(&self, name: &[u8]) -> Option<Target>
        ensures { option_map inode_and_place result ≡ found_in self.now name.now }
    {
        let key = key_of(name);
        if self.many.is_empty() {
            return self.one.find(key, name);
        }
        find_among(self.many.as_slice(), key, name)
    }

    /// Puts a name into its bucket, in place of what it stood for, which it answers.
    ///
    /// Where the one bucket takes no more by their keys, its names first move into many buckets. This happens once.
    pub(crate) fn put(
        &mut self,
        alloc: Global,
        name: &[u8],
        target: Target,
    ) -> Result<Option<Target>, AllocError>
        ensures had { IfOk result (λ had. option_map inode_and_place had ≡ found_in self.old name.now) }
        ensures ok { OnOk result (PutsAt self.old self.new name.now (Some (inode_and_place target))) }
        ensures err { OnErr result (FindSame self.old self.new) }
    {
        if self.count >= MOST {
            return Err(AllocError);
        }
        make_room(alloc, &mut self.one, &mut self.many)?;
        let had = put_in(alloc, &mut self.one, &mut self.many, name, target)?;
        if had.is_none() {
            self.count += 1;
        }
        Ok(had)
    }

    /// Takes a name out of its bucket, if it is there.
    pub(crate) fn take_out(&mut self, name: &[u8])
        ensures { PutsAt self.old self.new name.now None }
    {
        if take_out_of(&mut self.one, &mut self.many, name) {
            self.count -= 1;
        }
    }

    /// How many names there are.
    pub(crate) fn len(&self) -> usize
        ensures exact { result ≡ length self.now }
        ensures small { result < 2 ^ 63 }
        ensures each_once { IsDistinct (pointwise nat_eq) (names_of self.now) }
    {
        self.count
    }

    /// The names, and those beside them, in no order that a caller can rest on.
    pub(crate) fn iter<'a>(&'a self, fresh: &'a [Fresh]) -> Iter<'a>
        ensures { result ≡ self.now ++ map fresh_line fresh.now }
    {
        Iter::new(self.one.iter(), self.many.as_slice(), fresh)
    }

    /// Puts a line for each name at the end of a listing.
    pub(crate) fn push_lines<'a>(&'a self, listed: &mut Vec<Named<'a>>) -> Result<(), AllocError>
        ensures { OnOk result (map line_of listed.new.items ≡ map line_of listed.old.items ++ self.now) }
    {
        self.one.push_lines(listed)?;
        push_each(listed, self.many.as_slice())
    }
}

/// Puts a name into its bucket, which is the one where there are not many, and answers what it stood for.
fn put_in(
    alloc: Global,
    one: &mut Bucket,
    many: &mut Vec<Bucket>,
    name: &[u8],
    target: Target,
) -> Result<Option<Target>, AllocError>
    requires { AreBuckets one.old many.old.items }
    ensures buckets { AreBuckets one.new many.new.items }
    ensures had { IfOk result (λ had. option_map inode_and_place had ≡ found_in (lines_in one.old many.old.items) name.now) }
    ensures ok { OnOk result (PutsAt (lines_in one.old many.old.items) (lines_in one.new many.new.items) name.now (Some (inode_and_place target))) }
    ensures err { OnErr result (FindSame (lines_in one.old many.old.items) (lines_in one.new many.new.items)) }
    ensures more { IfOk result (λ had. length (lines_in one.new many.new.items) ≡ length (lines_in one.old many.old.items) + (if is_some had then 0 else 1)) }
    ensures no_more { OnErr result (length (lines_in one.new many.new.items) ≡ length (lines_in one.old many.old.items)) }
{
    let key = key_of(name);
    if many.is_empty() {
        let had = one.put(alloc, key, name, target);
        let _each_once = one.len();
        return had;
    }
    put_among(alloc, many.as_mut_slice(), key, name, target)
}

/// Takes a name out of its bucket, and answers whether it was there.
fn take_out_of(one: &mut Bucket, many: &mut Vec<Bucket>, name: &[u8]) -> bool
    requires { AreBuckets one.old many.old.items }
    ensures buckets { AreBuckets one.new many.new.items }
    ensures names { PutsAt (lines_in one.old many.old.items) (lines_in one.new many.new.items) name.now None }
    ensures less { length (lines_in one.new many.new.items) + (if result then 1 else 0) ≡ length (lines_in one.old many.old.items) }
{
    let key = key_of(name);
    if many.is_empty() {
        let had = one.take_out(key, name);
        let _each_once = one.len();
        return had;
    }
    take_from(many.as_mut_slice(), key, name)
}
