//! A bucket of names, which are found by their keys. It takes memory for each name that it is given.

ghost use Rattle.std.specs.Prelude.{◌≡◌, ◌^◌, ◌<◌, ◌≤◌, ◌+◌, ◌++◌, [], List, ℕ, length, map, cond, if◌then◌else◌, is_some, IsSome, IfOk, OnOk, OnErr, Some, None, false, nat_eq};
ghost use Rattle.std.specs.Option.{option_map};
ghost use Rattle.std.specs.Map.{lookup, keys_of};
ghost use Rattle.std.specs.List.{IsDistinct};
ghost use Rattle.std.specs.Cmp.Lexicographic.{pointwise};
ghost use Rattle.nv_names.specs.Keys.{key_of};
ghost use Rattle.nv_names.specs.Names.{found_in, names_of, line_of, inode_and_place};
ghost use Rattle.nv_names.specs.Table.{PutsAt, FindSame};
ghost use Rattle.nv_names.specs.Bucket.{first_line, other_line, AreKeyed, IsBucket};

use crate::held::Held;
use crate::iter::BucketIter;
use crate::{Named, Target};
use std::alloc::{AllocError, Global};
use std::collections::{BTreeMap, HashMap};
use std::hash::{BuildHasherDefault, FoldHasher};
use std::marker::Model;

/// The names that came first with their keys.
type First = HashMap<u64, Held, BuildHasherDefault<FoldHasher>, Global>;

/// What other names stand for.
type Others = BTreeMap<Vec<u8>, Target>;

/// At most so many names stand by their keys. The map of keys hashes with a fixed seed, so a call may look at all of its
/// names, if somebody picked them for that.
pub(crate) const MOST_BY_KEY: usize = 4096;

/// A map of fewer names by their keys is small: it grows to four times its size, and a larger one to twice its size.
const FEW: usize = 128;

/// A small map gets room for at least so many names more, where it has some.
const LEAST_MORE: usize = 63;

/// From here on the bucket takes no name: no memory holds so many, and their number still fits a word.
const MOST: usize = 0x7FFF_FFFF_FFFF_FFFF;

/// A map from names to what they stand for.
///
/// A name stands by its key, or by itself where another name has its key already, or where so many stand by their keys
/// already. Those that stand by themselves are ordered. So no choice of names makes a call look at every name.
#[derive(Drop)]
pub(crate) struct Bucket {
    first: First,
    others: Others,
}

impl Model for Bucket {
    ghost use Rattle.std.specs.Prelude.{List, ℕ};
    ghost use Rattle.nv_names.specs.Bucket.{lines_of, IsBucket};

    ghost Value = { List (List ℕ × ℕ × ℕ) };

    ghost view = { λ a. lines_of a.first.entries a.others.entries };

    ghost invariant = { λ a. IsBucket a.first.entries a.others.entries };
}

impl Bucket {
    /// A bucket with no name. It takes no memory.
    pub(crate) fn new(alloc: Global) -> Bucket
        ensures { result ≡ [] }
    {
        Bucket {
            first: HashMap::new(alloc),
            others: BTreeMap::new(alloc),
        }
    }

    /// What a name stands for, if it is in the bucket.
    pub(crate) fn find(&self, key: u64, name: &[u8]) -> Option<Target>
        requires { key ≡ key_of name.now }
        ensures { option_map inode_and_place result ≡ found_in self.now name.now }
    {
        match find_first(&self.first, key, name) {
            Some(target) => Some(target),
            None => find_other(&self.others, name),
        }
    }

    /// Puts a name into the bucket, in place of what it stood for, which it answers.
    pub(crate) fn put(
        &mut self,
        alloc: Global,
        key: u64,
        name: &[u8],
        target: Target,
    ) -> Result<Option<Target>, AllocError>
        requires { key ≡ key_of name.now }
        ensures had { IfOk result (λ had. option_map inode_and_place had ≡ found_in self.old name.now) }
        ensures ok { OnOk result (PutsAt self.old self.new name.now (Some (inode_and_place target))) }
        ensures err { OnErr result (FindSame self.old self.new) }
        ensures more { IfOk result (λ had. length self.new ≡ length self.old + (if is_some had then 0 else 1)) }
        ensures no_more { OnErr result (length self.new ≡ length self.old) }
    {
        self.make_room()?;
        self.put_by_key(alloc, key, name, target)
    }

    /// Makes room for names by their keys, where there is none.
    fn make_room(&mut self) -> Result<(), AllocError>
        ensures names { FindSame self.old self.new }
        ensures len { length self.new ≡ length self.old }
    {
        grow(&mut self.first)
    }

    /// Puts a name into the bucket, by its key or among the others, and answers what it stood for.
    fn put_by_key(
        &mut self,
        alloc: Global,
        key: u64,
        name: &[u8],
        target: Target,
    ) -> Result<Option<Target>, AllocError>
        requires { key ≡ key_of name.now }
        ensures had { IfOk result (λ had. option_map inode_and_place had ≡ found_in self.old name.now) }
        ensures ok { OnOk result (PutsAt self.old self.new name.now (Some (inode_and_place target))) }
        ensures err { OnErr result (FindSame self.old self.new) }
        ensures more { IfOk result (λ had. length self.new ≡ length self.old + (if is_some had then 0 else 1)) }
        ensures no_more { OnErr result (length self.new ≡ length self.old) }
    {
        if self.first.len() + self.others.len() >= MOST {
            return Err(AllocError);
        }
        if !takes(&self.first, key) {
            return put_other(alloc, &mut self.others, name, target);
        }
        let held = Held::new(alloc, name, target)?;
        match self.first.insert(key, held)? {
            None => Ok(take_other(&mut self.others, name)),
            Some(before) => {
                if before.is_of(name) {
                    return Ok(Some(before.target()));
                }
                put_back(&mut self.first, key, before);
                put_other(alloc, &mut self.others, name, target)
            }
        }
    }

    /// Takes a name out of the bucket, and answers whether it was there.
    pub(crate) fn take_out(&mut self, key: u64, name: &[u8]) -> bool
        requires { key ≡ key_of name.now }
        ensures had { result ≡ is_some (found_in self.old name.now) }
        ensures names { PutsAt self.old self.new name.now None }
        ensures less { length self.new + (if result then 1 else 0) ≡ length self.old }
    {
        match find_first(&self.first, key, name) {
            Some(_) => {
                take_first(&mut self.first, key);
                true
            }
            None => take_other(&mut self.others, name).is_some(),
        }
    }

    /// How many names there are.
    pub(crate) fn len(&self) -> usize
        ensures exact { result ≡ length self.now }
        ensures small { result < 2 ^ 63 }
        ensures each_once { IsDistinct (pointwise nat_eq) (names_of self.now) }
    {
        self.first.len() + self.others.len()
    }

    /// The names, in no order that a caller can rest on.
    pub(crate) fn iter(&self) -> BucketIter<'_>
        ensures { result ≡ self.now }
    {
        BucketIter::new(self.first.iter(), self.others.iter())
    }

    /// Puts a line for each name at the end of a listing.
    pub(crate) fn push_lines<'a>(&'a self, listed: &mut Vec<Named<'a>>) -> Result<(), AllocError>
        ensures { OnOk result (map line_of listed.new.items ≡ map line_of listed.old.items ++ self.now) }
    {
        push_first(listed, &self.first)?;
        push_others(listed, &self.others)
    }
}

/// Makes room for more names, where there are some and room for no more: the fewer times a map grows, the fewer times names move.
/// A small one grows faster, since each growth asks for memory four times.
fn grow(first: &mut First) -> Result<(), AllocError>
    requires keyed { AreKeyed first.old.entries }
    ensures keyed { AreKeyed first.new.entries }
    ensures once { IsDistinct nat_eq (keys_of first.new.entries) }
    ensures len { length first.new.entries ≡ length first.old.entries }
    ensures same { (k : ℕ) → lookup (nat_eq k) first.new.entries ≡ lookup (nat_eq k) first.old.entries }
{
    let len = first.len();
    if len == 0 || len < first.capacity() {
        return Ok(());
    }
    let more = if len < FEW {
        (3 * len).max(LEAST_MORE)
    } else {
        len
    };
    first.reserve(more)
}

/// Whether a name may stand by this key: the map has it already, or takes one more.
fn takes(first: &First, key: u64) -> bool
    ensures { result ≡ false → lookup (nat_eq key) first.now.entries ≡ None }
{
    first.len() < MOST_BY_KEY || first.contains_key(&key)
}

/// What a name stands for, if it came first with its key.
fn find_first(first: &First, key: u64, name: &[u8]) -> Option<Target>
    requires key { key ≡ key_of name.now }
    requires keyed { AreKeyed first.now.entries }
    requires once { IsDistinct nat_eq (keys_of first.now.entries) }
    ensures { option_map inode_and_place result ≡ found_in (map first_line first.now.entries) name.now }
{
    match first.get(&key) {
        Some(held) => {
            if held.is_of(name) {
                return Some(held.target());
            }
            None
        }
        None => None,
    }
}

/// What a name stands for, if it is one of the others.
fn find_other(others: &Others, name: &[u8]) -> Option<Target>
    ensures { option_map inode_and_place result ≡ found_in (map other_line others.now.entries) name.now }
{
    others.get(name).copied()
}

/// Takes out the name of a key.
fn take_first(first: &mut First, key: u64)
    requires keyed { AreKeyed first.old.entries }
    requires there { IsSome (lookup (nat_eq key) first.old.entries) }
    ensures keyed { AreKeyed first.new.entries }
    ensures once { IsDistinct nat_eq (keys_of first.new.entries) }
    ensures len { length first.new.entries + 1 ≡ length first.old.entries }
    ensures taken { (k : ℕ) → lookup (nat_eq k) first.new.entries
        ≡ cond (nat_eq key k) None (lookup (nat_eq k) first.old.entries) }
{
    let _had = first.remove(&key);
}

/// Gives a key its name again, where another was put.
#[inline(never)]
fn put_back(first: &mut First, key: u64, before: Held)
    requires keyed { AreKeyed first.old.entries }
    requires key { key ≡ key_of before.0 }
    requires there { IsSome (lookup (nat_eq key) first.old.entries) }
    ensures keyed { AreKeyed first.new.entries }
    ensures once { IsDistinct nat_eq (keys_of first.new.entries) }
    ensures len { length first.new.entries ≡ length first.old.entries }
    ensures put { (k : ℕ) → lookup (nat_eq k) first.new.entries
        ≡ cond (nat_eq key k) (Some before) (lookup (nat_eq k) first.old.entries) }
{
    let _other = first.insert(key, before);
}

/// Takes a name out of the others, and answers what it stood for.
#[inline(always)]
fn take_other(others: &mut Others, name: &[u8]) -> Option<Target>
    ensures had { option_map inode_and_place result ≡ found_in (map other_line others.old.entries) name.now }
    ensures names { PutsAt (map other_line others.old.entries) (map other_line others.new.entries) name.now None }
    ensures len { length others.new.entries + (if is_some result then 1 else 0) ≡ length others.old.entries }
{
    if others.is_empty() {
        return None;
    }
    remove_other(others, name)
}

/// Takes a name out of the others, of which there are some mostly.
#[inline(never)]
fn remove_other(others: &mut Others, name: &[u8]) -> Option<Target>
    ensures had { option_map inode_and_place result ≡ found_in (map other_line others.old.entries) name.now }
    ensures names { PutsAt (map other_line others.old.entries) (map other_line others.new.entries) name.now None }
    ensures len { length others.new.entries + (if is_some result then 1 else 0) ≡ length others.old.entries }
{
    others.remove(name)
}

/// Puts a name among the others, and answers what it stood for.
#[inline(never)]
fn put_other(
    alloc: Global,
    others: &mut Others,
    name: &[u8],
    target: Target,
) -> Result<Option<Target>, AllocError>
    ensures had { IfOk result (λ had. option_map inode_and_place had ≡ found_in (map other_line others.old.entries) name.now) }
    ensures ok { OnOk result (PutsAt (map other_line others.old.entries) (map other_line others.new.entries) name.now (Some (inode_and_place target))) }
    ensures err { OnErr result (others.new.entries ≡ others.old.entries) }
    ensures more { IfOk result (λ had. length others.new.entries ≡ length others.old.entries + (if is_some had then 0 else 1)) }
    ensures len { length others.new.entries ≤ length others.old.entries + 1 }
{
    let bytes = Vec::from_slice(alloc, name)?;
    Ok(others.insert(bytes, target)?)
}

/// Puts a line for each name that came first at the end of a listing.
fn push_first<'a>(listed: &mut Vec<Named<'a>>, first: &'a First) -> Result<(), AllocError>
    ensures { OnOk result (map line_of listed.new.items ≡ map line_of listed.old.items ++ map first_line first.now.entries) }
{
    for (_, held) in first {
        let target = held.target();
        listed.push(Named {
            name: held.name(),
            inode: target.inode,
            place: target.place,
        })?;
    }
    Ok(())
}

/// Puts a line for each other name at the end of a listing.
fn push_others<'a>(listed: &mut Vec<Named<'a>>, others: &'a Others) -> Result<(), AllocError>
    ensures { OnOk result (map line_of listed.new.items ≡ map line_of listed.old.items ++ map other_line others.now.entries) }
{
    for (name, target) in others {
        listed.push(Named {
            name: name.as_slice(),
            inode: target.inode,
            place: target.place,
        })?;
    }
    Ok(())
}
