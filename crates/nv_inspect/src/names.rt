//! The names of a directory as its log is read: what each stands for, and the entry that holds it, which is the one without which it
//! would stand for something else.

ghost use Rattle.std.specs.Prelude.{◌≡◌, ℕ, List, if◌then◌else◌, nat_eq, None, Some, IfOk, OnOk};
ghost use Rattle.std.specs.Cmp.Lexicographic.{pointwise};
ghost use Rattle.std.specs.Option.{option_map};
ghost use Rattle.nv_names.specs.Names.{inode_and_place, name_at, IsName};
ghost use Rattle.nv_scan.specs.State.{name_in, named_by};
ghost use Rattle.nv_inspect.specs.Held.{first_of, name_holder, IsTaken, Loses, Marks, Says};

use crate::word::mark;
use nv_entry::{Entry, NameEntry, Operation};
use nv_names::{NameIndex, Target};
use std::alloc::{AllocError, Global};

/// The names, and who holds each of them, as the place of the entry for an inode.
#[derive(Drop)]
pub(crate) struct HeldNames {
    pub targets: NameIndex,
    pub holders: NameIndex,
}

impl HeldNames {
    /// The names of which no entry said anything.
    pub fn new(alloc: Global) -> HeldNames
        ensures names { (q : List ℕ) → name_at result.targets q ≡ None }
        ensures holders { (q : List ℕ) → name_holder result q ≡ None }
    {
        HeldNames {
            targets: NameIndex::new(alloc),
            holders: NameIndex::new(alloc),
        }
    }

    /// Marks the entries that hold a name.
    ///
    /// Errors: `AllocError` where a growth was refused.
    pub fn mark_holders(&self, by: u64, marks: &mut [Option<u64>]) -> Result<(), AllocError>
        ensures { OnOk result (Marks by (λ (k : ℕ). (q : List ℕ) × (name_holder self.now q ≡ Some k)) marks.old marks.new) }
    {
        let listed = self.holders.walk()?;
        for k in 0..listed.len() {
            let line = listed[k];
            mark(marks, Some(line.inode), by);
        }
        Ok(())
    }

    /// Takes what the entry at place `by` among the entries, which stands at this address, says of its name, and marks the entry
    /// that held the name.
    ///
    /// Errors: `AllocError` where a growth was refused; of the names nothing is said then.
    pub fn say_name(
        &mut self,
        e: &NameEntry,
        at: u64,
        by: u64,
        takers: &mut [Option<u64>],
    ) -> Result<(), AllocError>
        requires { IsName e.now.name }
        ensures names { OnOk result ((q : List ℕ) → Says by (name_in q at (Entry.Name e.now)) (name_at self.old.targets q) (name_holder self.old q)
            (name_at self.new.targets q) (name_holder self.new q)) }
        ensures marks { OnOk result (Marks by (λ (k : ℕ). (q : List ℕ) × Loses (name_in q at (Entry.Name e.now)) (name_holder self.old q) k) takers.old takers.new) }
    {
        let name = e.name.as_slice();
        let said = said_of(e, at);
        let before = set(&mut self.targets, name, said)?;
        let holder = taken(before, said, by);
        let last = hold(&mut self.holders, name, holder)?;
        mark(takers, last, by);
        Ok(())
    }
}

/// What an entry at an address says of its name: what it stands for, or that it isn't there.
fn said_of(e: &NameEntry, at: u64) -> Option<Target>
    ensures { option_map inode_and_place result ≡ named_by at e.now.inode e.now.operation }
{
    match e.operation {
        Operation::Add => Some(Target {
            inode: e.inode,
            place: at,
        }),
        Operation::Remove => None,
    }
}

/// Lets a name stand for this, or takes it out, and answers what it stood for before.
fn set(
    targets: &mut NameIndex,
    name: &[u8],
    said: Option<Target>,
) -> Result<Option<Target>, AllocError>
    requires { IsName name.now }
    ensures set { OnOk result ((q : List ℕ) → name_at targets.new q ≡ (if pointwise nat_eq q name.now then option_map inode_and_place said else name_at targets.old q)) }
    ensures had { IfOk result (λ had. option_map inode_and_place had ≡ name_at targets.old name.now) }
{
    match said {
        Some(Target { inode, place }) => targets.put(name, inode, place),
        None => {
            let had = targets.get(name);
            targets.remove(name);
            Ok(had)
        }
    }
}

/// Lets this entry hold a name, or none, and answers the place of the one that held it before.
fn hold(holders: &mut NameIndex, name: &[u8], by: Option<u64>) -> Result<Option<u64>, AllocError>
    requires { IsName name.now }
    ensures hold { OnOk result ((q : List ℕ) → option_map first_of (name_at holders.new q) ≡ (if pointwise nat_eq q name.now then by else option_map first_of (name_at holders.old q))) }
    ensures had { IfOk result (λ had. had ≡ option_map first_of (name_at holders.old name.now)) }
{
    match by {
        Some(place) => Ok(place_of(holders.put(name, place, 0)?)),
        None => {
            let had = holders.get(name);
            holders.remove(name);
            Ok(place_of(had))
        }
    }
}

/// The place of an entry, which stands as an inode.
fn place_of(had: Option<Target>) -> Option<u64>
    ensures { result ≡ option_map first_of (option_map inode_and_place had) }
{
    match had {
        Some(target) => Some(target.inode),
        None => None,
    }
}

/// Who holds a name that stood for the first and stands for the second by this entry.
fn taken(before: Option<Target>, said: Option<Target>, by: u64) -> Option<u64>
    ensures { IsTaken by (option_map inode_and_place before) (option_map inode_and_place said) result }
{
    let is_same = match (before, said) {
        (Some(before), Some(said)) => before.inode == said.inode && before.place == said.place,
        (None, None) => true,
        _ => false,
    };
    if is_same { None } else { Some(by) }
}
