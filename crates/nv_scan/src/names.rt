//! What the entries of a log make of a directory's names.

ghost use Rattle.std.specs.Prelude.{◌≡◌, ℕ, List, unwrap_or, if◌then◌else◌, nat_eq, None, IfOk, OnOk};
ghost use Rattle.std.specs.Cmp.Lexicographic.{pointwise};
ghost use Rattle.nv_entry.specs.Light.{with_name};
ghost use Rattle.nv_entry.specs.Name.{IsName};
ghost use Rattle.nv_names.specs.Names.{name_at};
ghost use Rattle.nv_scan.specs.State.{name_in};
ghost use Rattle.nv_scan.specs.Fold.{clash, name_fault, told};

use nv_entry::{ContentFault, Entry, LightName, Operation};
use nv_names::NameIndex;
use nv_super::Fault;
use std::alloc::AllocError;

/// Adds the name of a good entry of an inode at a place, or takes it out. The fault is that of the entry beside the names
/// before it: an add of a name that is there, or a removal of one that isn't.
pub(crate) fn apply_name(
    names: &mut NameIndex,
    inode: u64,
    at: u64,
    e: &LightName,
    name: &[u8],
) -> Result<Option<Fault>, AllocError>
    requires { IsName name.now }
    ensures names { OnOk result ((q : List ℕ) → name_at names.new q ≡ unwrap_or (name_in q at (Entry.Name (with_name e.now name.now))) (name_at names.old q)) }
    ensures fault { IfOk result (λ fault. fault ≡ name_fault inode (name_at names.old) at (Entry.Name (with_name e.now name.now))) }
{
    Ok(match e.operation {
        Operation::Add => match names.put(name, e.inode, at)? {
            Some(_) => Some(Fault::E3 { inode, at }),
            None => None,
        },
        Operation::Remove => remove_name(names, inode, at, name),
    })
}

/// Takes a name out that an entry at a place removes.
fn remove_name(names: &mut NameIndex, inode: u64, at: u64, name: &[u8]) -> Option<Fault>
    ensures names { (q : List ℕ) → name_at names.new q ≡ (if pointwise nat_eq q name.now then None else name_at names.old q) }
    ensures fault { result ≡ clash Operation.Remove inode at (name_at names.old name.now) }
{
    match names.get(name) {
        Some(_) => {
            names.remove(name);
            None
        }
        None => Some(Fault::E4 { inode, at }),
    }
}

/// A fault in what an entry of an inode says.
pub(crate) fn told(fault: ContentFault, inode: u64, at: u64) -> Fault
    ensures { result ≡ told fault inode at }
{
    match fault {
        ContentFault::OutOfRange => Fault::E1 { inode, at },
        ContentFault::WrongKind => Fault::E2 { inode, at },
    }
}
