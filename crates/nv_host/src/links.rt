//! Which entries of a tree are further names of a file.

ghost use Rattle.std.specs.Prelude.{◌≡◌, ◌∷◌, [], ◌++◌, List, length, map, IfOk, OnOk};
ghost use Rattle.nv_host.specs.declared.walking.HostEntry.{HostEntry as EntryValue};
ghost use Rattle.nv_host.specs.Links.{Keeps, first_name, is_shared, links_said, path_of};

use crate::found::{Found, HostKind};
use crate::walking::HostEntry;
use std::alloc::{AllocError, Global};
use std::collections::BTreeMap;

// The path of the first name of each file that has several, by device and inode.
type Firsts<'a> = BTreeMap<(u64, u64), &'a str>;

/// For each entry the path of the first name of its file, where that stands before it.
pub fn links_of<'a>(
    alloc: Global,
    entries: &'a [HostEntry],
) -> Result<Vec<Option<&'a str>>, AllocError>
    ensures links { IfOk result (λ links. map path_of links.items ≡ links_said entries.entry.now) }
    ensures count { IfOk result (λ links. length links.items ≡ length entries.entry.now) }
{
    let mut links = Vec::new(alloc);
    let mut firsts = BTreeMap::new(alloc);
    for entry in entries {
        links.push(link_of(&mut firsts, entry)?)?;
    }
    Ok(links)
}

// The path of the first name of an entry's file, or else the entry's own path is kept as that.
fn link_of<'a>(firsts: &mut Firsts<'a>, entry: &'a HostEntry) -> Result<Option<&'a str>, AllocError>
    ensures link { (before : List EntryValue) → Keeps before firsts.old → IfOk result (λ link. path_of link ≡ first_name before entry.entry.now.found) }
    ensures keeps { (before : List EntryValue) → Keeps before firsts.old → OnOk result (Keeps (before ++ entry.entry.now ∷ []) firsts.new) }
{
    if !is_shared(&entry.found) {
        return Ok(None);
    }
    let key = (entry.found.device, entry.found.inode);
    match firsts.get(&key) {
        Some(path) => Ok(Some(*path)),
        None => {
            firsts.insert(key, entry.path.as_str())?;
            Ok(None)
        }
    }
}

fn is_shared(found: &Found) -> bool
    ensures { result ≡ is_shared found.now }
{
    found.kind == HostKind::File && found.links > 1
}
