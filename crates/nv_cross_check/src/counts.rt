//! Whether inodes have as many names as they should.

ghost use Rattle.std.specs.Prelude.{◌≡◌, ◌+◌, ◌++◌, ◌<◌, length, map, IfOk, OnOk};
ghost use Rattle.std.specs.List.{filter_map};
ghost use Rattle.nv_cross_check.specs.Listing.{Listing};
ghost use Rattle.nv_cross_check.specs.Listings.{target};
ghost use Rattle.nv_cross_check.specs.Steps.{IsAt, ArePlaces, IsTable, CountsMore, unused_of, unused_faults, AreNumbersOfNames, count_fault, count_fault_of};

use crate::listing::Listings;
use crate::places::Places;
use nv_scan::RowHead;
use nv_super::{Fault, Kind};
use std::alloc::{AllocError, Global};

/// How often each row's inode is named, and the faults of names whose inode isn't in use.
///
/// Errors: `AllocError` where a growth was refused, or where 64 bits can't count the names of one inode.
pub(crate) fn count_names(
    alloc: Global,
    places: &Places,
    listings: &Listings<'_>,
) -> Result<(Vec<u64>, Vec<Fault>), AllocError>
    requires { ArePlaces listings.now places.now }
    ensures counts { IfOk result (λ found. AreNumbersOfNames listings.now found.0.items) }
    ensures unused { IfOk result (λ found. found.1.items ≡ unused_faults places.now listings.now) }
{
    let mut counts = vec![in alloc; 0; listings.len()]?;
    let mut unused = Vec::new(alloc);
    for place in 0..listings.len() {
        count_names_of(&mut counts, &mut unused, places, listings, place)?;
    }
    Ok((counts, unused))
}

/// Counts each name of the row at a place at the place of its inode, or tells of it where its inode isn't in use.
fn count_names_of(
    counts: &mut Vec<u64>,
    unused: &mut Vec<Fault>,
    places: &Places,
    listings: &Listings<'_>,
    place: usize,
) -> Result<(), AllocError>
    requires table { IsTable (length counts.old.items) places.now }
    requires within { place < length listings.now }
    ensures counts { OnOk result ((l : Listing) → IsAt listings.now place l → CountsMore places.now (map target l.names) counts.old.items counts.new.items) }
    ensures unused { OnOk result ((l : Listing) → IsAt listings.now place l → unused.new.items ≡ unused.old.items ++ unused_of places.now l) }
{
    for name in listings.names(place) {
        match places.find(name.inode) {
            Some(named) => counts[named] = one_more(counts[named])?,
            None => unused.push(Fault::C1 {
                directory: listings.head(place).inode,
                at: name.place,
            })?,
        }
    }
    Ok(())
}

/// The count with one name more.
///
/// Errors: `AllocError` where 64 bits can't hold it. No memory holds so many names.
fn one_more(count: u64) -> Result<u64, AllocError>
    ensures { IfOk result (λ more. more ≡ count + 1) }
{
    count.checked_add(1).ok_or(AllocError)
}

/// Faults of inodes that don't have as many names as they should.
pub(crate) fn push_counts(
    faults: &mut Vec<Fault>,
    listings: &Listings<'_>,
    counts: &[u64],
) -> Result<(), AllocError>
    requires { AreNumbersOfNames listings.now counts.now }
    ensures { OnOk result (faults.new.items ≡ faults.old.items ++ filter_map (count_fault listings.now) listings.now) }
{
    for place in 0..listings.len() {
        if let Some(fault) = fault_of(listings.head(place), counts[place]) {
            faults.push(fault)?;
        }
    }
    Ok(())
}

/// The fault of an inode that has so many names.
pub(crate) fn fault_of(head: RowHead, names: u64) -> Option<Fault>
    ensures { result ≡ count_fault_of head.kind head.inode head.links names }
{
    let inode = head.inode;
    match head.kind {
        Kind::Directory => {
            let wanted = if inode == 1 { 0 } else { 1 };
            if names == wanted {
                None
            } else {
                Some(Fault::C2 { inode })
            }
        }
        Kind::File => {
            if u64::from(head.links) == names {
                None
            } else {
                Some(Fault::C3 { inode })
            }
        }
    }
}
