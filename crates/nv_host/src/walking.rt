//! What stands in a tree of the host, found level by level.

ghost use Rattle.std.specs.Prelude.{◌≡◌, ◌<◌, ℕ, ◌+◌, ◌++◌, List, length, map, slice_get, IfOk, OnOk, Option, string_bytes};
ghost use Rattle.nv_host.specs.Places.{with_slash};
ghost use Rattle.nv_host.specs.Walking.{AreIn, AreNamed, IsTop, IsWalked};
ghost use Rattle.nv_host.specs.declared.walking.HostEntry.{HostEntry as Entry};

use crate::errors::{HostError, Misfit};
use crate::found::{Found, HostKind, found_of};
use crate::listing::read_listing;
use crate::names::names_in;
use crate::places::{below, with_slash};
use nv_stream::Unread;
use std::alloc::Global;
use std::fs::Metadata;
use std::io::Error;
use std::rt::Files;

// As many entries as an archive of a gibibyte has members.
const MOST_ENTRIES: usize = 1 << 21;

// The path of a tree's own directory, or of a file that is the whole tree.
const TOP: &str = ".";

/// A file or directory of a tree.
#[derive(Drop)]
pub struct HostEntry {
    /// Its path in the tree: `.` for what the tree begins with, and `./a/b` below it.
    pub path: String,
    /// Its path on the host.
    pub place: String,
    pub found: Found,
}

/// What stands in the tree at a path of the host: itself, and each name below it. A directory comes before what stands in it, and
/// the names of one rise by bytes. Links are followed at the path itself alone.
///
/// Errors: `At` the first place that doesn't fit or can't be read, `TooLarge` with more than 2,097,152 names, and `Memory`.
pub fn walk<H: Files + AllocGlobal>(rt: &H, root: &str) -> Result<Vec<HostEntry>, HostError>
    ensures { IfOk result (λ entries. IsWalked root.now entries.items (length entries.items)) }
{
    let mut entries = Vec::new(rt.alloc());
    entries.push(first_entry(rt, root)?)?;
    for next in 0..MOST_ENTRIES {
        if next >= entries.len() {
            return Ok(entries);
        }
        pass(rt, &mut entries, next)?;
    }
    Err(HostError::TooLarge)
}

// What the tree begins with.
fn first_entry<H: Files + AllocGlobal>(rt: &H, root: &str) -> Result<HostEntry, HostError>
    ensures { IfOk result (λ top. IsTop root.now top) }
{
    let alloc = rt.alloc();
    let found = found_at(alloc, root, rt.metadata(root))?;
    let place = match found.kind {
        HostKind::Directory => with_slash(alloc, root)?,
        HostKind::File => String::from_str(alloc, root)?,
    };
    let path = String::from_str(alloc, TOP)?;
    Ok(HostEntry { path, place, found })
}

// Passes an entry: what stands in a directory is added.
fn pass<H: Files + AllocGlobal>(
    rt: &H,
    entries: &mut Vec<HostEntry>,
    at: usize,
) -> Result<(), HostError>
    requires { at < length entries.old.items }
    ensures { OnOk result ((root : List ℕ) → IsWalked root entries.old.items at → IsWalked root entries.new.items (at + 1)) }
{
    match entries[at].found.kind {
        HostKind::Directory => push_below(rt, entries, at),
        HostKind::File => Ok(()),
    }
}

// Adds what stands in a directory.
fn push_below<H: Files + AllocGlobal>(
    rt: &H,
    entries: &mut Vec<HostEntry>,
    at: usize,
) -> Result<(), HostError>
    requires { at < length entries.old.items }
    ensures { OnOk result ((folder : Entry) → slice_get entries.old.items at ≡ Option.Some folder
        → (inside : List Entry) × (entries.new.items ≡ entries.old.items ++ inside) × AreIn folder inside) }
{
    let alloc = rt.alloc();
    let path = String::from_str(alloc, entries[at].path.as_str())?;
    let place = String::from_str(alloc, entries[at].place.as_str())?;
    let listing = listing_of(rt, place.as_str())?;
    let names = names_in(alloc, &listing)?;
    push_named(rt, entries, path.as_str(), place.as_str(), &names)
}

// Adds what has these names in a directory.
fn push_named<H: Files + AllocGlobal>(
    rt: &H,
    entries: &mut Vec<HostEntry>,
    path: &str,
    place: &str,
    names: &[&[u8]],
) -> Result<(), HostError>
    ensures { OnOk result ((inside : List Entry) × (entries.new.items ≡ entries.old.items ++ inside) × AreNamed path.now place.now (map (λ name. name.now) names.now) inside) }
{
    for name in names {
        entries.push(entry_below(rt, path, place, name)?)?;
    }
    Ok(())
}

fn listing_of<H: Files + AllocGlobal>(rt: &H, place: &str) -> Result<Vec<u8>, HostError> {
    let alloc = rt.alloc();
    let names = match rt.open_dir(place) {
        Ok(names) => names,
        Err(error) => return Err(unreadable(alloc, place, error)),
    };
    match read_listing(alloc, names) {
        Ok(Some(listing)) => Ok(listing),
        Ok(None) => Err(HostError::TooLarge),
        Err(Unread::Unreadable(error)) => Err(unreadable(alloc, place, error)),
        Err(Unread::Memory) => Err(HostError::Memory),
    }
}

fn entry_below<H: Files + AllocGlobal>(
    rt: &H,
    path: &str,
    place: &str,
    name: &[u8],
) -> Result<HostEntry, HostError>
    ensures path { IfOk result (λ entry. string_bytes entry.path ≡ with_slash path.now ++ name.now) }
    ensures place { IfOk result (λ entry. string_bytes entry.place ≡ with_slash place.now ++ name.now) }
{
    let alloc = rt.alloc();
    let Ok(text) = std::str::from_utf8(name) else {
        let mut place = bytes_of(alloc, with_slash(alloc, place)?.as_str())?;
        place.extend_from_slice(name)?;
        return Err(HostError::At(place, Misfit::NameNotUtf8));
    };
    let path = below(alloc, path, text)?;
    let place = below(alloc, place, text)?;
    let found = found_at(alloc, place.as_str(), rt.symlink_metadata(place.as_str()))?;
    Ok(HostEntry { path, place, found })
}

// What stands at a place, where it fits.
fn found_at(
    alloc: Global,
    place: &str,
    metadata: Result<Metadata, Error>,
) -> Result<Found, HostError> {
    let misfit = match metadata {
        Ok(metadata) => match found_of(&metadata) {
            Ok(found) => return Ok(found),
            Err(misfit) => misfit,
        },
        Err(error) => Misfit::System(error),
    };
    Err(misfit_at(alloc, place, misfit))
}

fn unreadable(alloc: Global, place: &str, error: Error) -> HostError {
    misfit_at(alloc, place, Misfit::System(error))
}

/// The error of a place, or want of memory.
pub(crate) fn misfit_at(alloc: Global, place: &str, misfit: Misfit) -> HostError {
    match bytes_of(alloc, place) {
        Ok(place) => HostError::At(place, misfit),
        Err(_) => HostError::Memory,
    }
}

fn bytes_of(alloc: Global, text: &str) -> Result<Vec<u8>, std::alloc::AllocError> {
    Vec::from_slice(alloc, text.as_bytes())
}
