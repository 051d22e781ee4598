//! Which inodes are reached by names from the root.

ghost use Rattle.std.specs.Prelude.{◌≡◌, ◌<◌, ◌++◌, [], ◌∷◌, length, map, replicate, false, OnOk, IfOk};
ghost use Rattle.std.specs.List.{list_any};
ghost use Rattle.nv_cross_check.specs.Listings.{target};
ghost use Rattle.nv_cross_check.specs.Steps.{Spreads, IsTable, ArePlaces, AreReached, Reaching, Adds, IsUnmarkedBelow, IsFar, is_root, root_faults};

use crate::listing::Listings;
use crate::places::Places;
use nv_names::Named;
use nv_super::{Fault, Kind};
use std::alloc::{AllocError, Global};

/// Faults of inodes that aren't reached from the root, and of a root that is no directory in use.
pub(crate) fn push_far(
    alloc: Global,
    faults: &mut Vec<Fault>,
    places: &Places,
    listings: &Listings<'_>,
) -> Result<(), AllocError>
    requires { ArePlaces listings.now places.now }
    ensures { OnOk result (Adds (IsFar listings.now) faults.old.items faults.new.items) }
{
    let marks = reach(alloc, listings, places)?;
    push_unreached(faults, listings, &marks)?;
    push_no_root(faults, places, listings)
}

/// Which of the rows are reached by names from the root. Each row's names are followed once at most.
pub(crate) fn reach(
    alloc: Global,
    listings: &Listings<'_>,
    places: &Places,
) -> Result<Vec<bool>, AllocError>
    requires { ArePlaces listings.now places.now }
    ensures { IfOk result (λ marks. AreReached listings.now marks.items) }
{
    let mut marks = vec![in alloc; false; listings.len()]?;
    let mut todo = Vec::new(alloc);
    mark_root(listings, places, &mut marks, &mut todo)?;
    while let Some(place) = todo.pop() {
        spread(
            listings,
            places,
            listings.names(place),
            &mut marks,
            &mut todo,
        )?;
    }
    Ok(marks)
}

/// Marks the root, where it is a directory.
fn mark_root(
    listings: &Listings<'_>,
    places: &Places,
    marks: &mut Vec<bool>,
    todo: &mut Vec<usize>,
) -> Result<(), AllocError>
    requires places { ArePlaces listings.now places.now }
    requires clear { marks.old.items ≡ replicate (length listings.now) false }
    requires none { todo.old.items ≡ [] }
    ensures { OnOk result (Reaching listings.now places.now marks.new.items todo.new.items) }
{
    if let Some(place) = places.find(1) {
        match listings.head(place).kind {
            Kind::Directory => {
                todo.push(place)?;
                marks[place] = true;
            }
            Kind::File => {}
        }
    }
    Ok(())
}

/// Faults of inodes that aren't marked.
pub(crate) fn push_unreached(
    faults: &mut Vec<Fault>,
    listings: &Listings<'_>,
    marks: &[bool],
) -> Result<(), AllocError>
    requires { length marks.now ≡ length listings.now }
    ensures { OnOk result (Adds (IsUnmarkedBelow listings.now marks.now (length listings.now)) faults.old.items faults.new.items) }
{
    for place in 0..listings.len() {
        if !marks[place] {
            faults.push(Fault::C4 {
                inode: listings.head(place).inode,
            })?;
        }
    }
    Ok(())
}

/// The fault of a region whose inode 1 isn't a directory in use.
fn push_no_root(
    faults: &mut Vec<Fault>,
    places: &Places,
    listings: &Listings<'_>,
) -> Result<(), AllocError>
    requires { ArePlaces listings.now places.now }
    ensures { OnOk result (faults.new.items ≡ faults.old.items ++ root_faults listings.now) }
{
    if !has_root(places, listings) {
        faults.push(Fault::C5)?;
    }
    Ok(())
}

/// Whether inode 1 is a directory in use.
fn has_root(places: &Places, listings: &Listings<'_>) -> bool
    requires { ArePlaces listings.now places.now }
    ensures { result ≡ list_any is_root listings.now }
{
    match places.find(1) {
        Some(place) => match listings.head(place).kind {
            Kind::Directory => true,
            Kind::File => false,
        },
        None => false,
    }
}

/// Marks what the names name, and opens it where it wasn't marked and has names.
fn spread(
    listings: &Listings<'_>,
    places: &Places,
    names: &[Named<'_>],
    marks: &mut Vec<bool>,
    todo: &mut Vec<usize>,
) -> Result<(), AllocError>
    requires table { IsTable (length marks.old.items) places.now }
    requires same { length marks.old.items ≡ length listings.now }
    ensures { OnOk result (Spreads listings.now places.now (map target names.now) marks.old.items todo.old.items marks.new.items todo.new.items) }
{
    for name in names {
        spread_to(listings, places, name.inode, marks, todo)?;
    }
    Ok(())
}

/// Marks an inode, and opens it where it wasn't marked and has names. A row without names leads nowhere.
fn spread_to(
    listings: &Listings<'_>,
    places: &Places,
    inode: u64,
    marks: &mut Vec<bool>,
    todo: &mut Vec<usize>,
) -> Result<(), AllocError>
    requires table { IsTable (length marks.old.items) places.now }
    requires same { length marks.old.items ≡ length listings.now }
    ensures { OnOk result (Spreads listings.now places.now (inode ∷ []) marks.old.items todo.old.items marks.new.items todo.new.items) }
{
    if let Some(place) = places.find(inode) {
        if !marks[place] {
            marks[place] = true;
            if listings.has_names(place) {
                todo.push(place)?;
            }
        }
    }
    Ok(())
}
