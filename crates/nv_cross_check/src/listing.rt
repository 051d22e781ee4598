//! The rows with their names listed, once for all checks.

ghost use Rattle.std.specs.Prelude.{◌≡◌, ◌<◌, [], length, map, false, IfOk, OnOk};
ghost use Rattle.nv_cross_check.specs.Listings.{AreListings};
ghost use Rattle.nv_cross_check.specs.NameLists.{AreNamed, Extends, HasEmpty, IsNamedAt, is_list};
ghost use Rattle.nv_cross_check.specs.Steps.{HasHead, HasNamesAt, IsNameless};

use nv_names::Named;
use nv_scan::{RowHead, RowList};
use std::alloc::{AllocError, Global};
use std::marker::Model;

/// The rows as the checks read them: each with its names listed, once and in no order. What a head says of a row isn't
/// copied.
#[derive(Drop)]
pub(crate) struct Listings<'a> {
    rows: &'a RowList,
    // Of each row, whether it has names: a byte for each, since that is asked for each name.
    named: Vec<bool>,
    // Of each row, the place of its list. The first list is that of the rows without names.
    places: Vec<usize>,
    lists: Vec<Vec<Named<'a>>>,
}

impl<'a> Model for Listings<'a> {
    ghost use Rattle.std.specs.Prelude.{List};
    ghost use Rattle.nv_cross_check.specs.Listing.{Listing};

    ghost Value = { List Listing };

    ghost use Rattle.nv_cross_check.specs.NameLists.{listings_in, AreLists};

    ghost view = { λ t. listings_in t.rows.now.items t.places.items t.lists.items };

    ghost invariant = { λ t. AreLists t.rows.now.items t.named.items t.places.items t.lists.items };
}

impl<'a> Listings<'a> {
    /// How many rows there are.
    pub(crate) fn len(&self) -> usize
        ensures { result ≡ length self.now }
    {
        self.rows.len()
    }

    /// What is read of the row at a place, but for its names.
    pub(crate) fn head(&self, place: usize) -> RowHead
        requires { place < length self.now }
        ensures { HasHead self.now place result }
    {
        self.rows.head(place)
    }

    /// Whether the row at a place has names. It doesn't read them.
    pub(crate) fn has_names(&self, place: usize) -> bool
        requires { place < length self.now }
        ensures { result ≡ false → IsNameless self.now place }
    {
        self.named[place]
    }

    /// The names of the row at a place.
    pub(crate) fn names(&self, place: usize) -> &[Named<'a>]
        requires { place < length self.now }
        ensures { HasNamesAt self.now place result.now }
    {
        &self.lists[self.places[place]]
    }
}

/// The rows with their names listed. A row without names isn't read.
pub(crate) fn listings_of<'a>(alloc: Global, rows: &'a RowList) -> Result<Listings<'a>, AllocError>
    ensures { IfOk result (λ listings. AreListings rows.now.items listings) }
{
    let mut named = Vec::with_capacity(alloc, rows.len())?;
    let mut places = Vec::with_capacity(alloc, rows.len())?;
    let mut lists = Vec::new(alloc);
    lists.push(Vec::new(alloc))?;
    push_all(&mut named, &mut places, &mut lists, rows)?;
    Ok(Listings {
        rows,
        named,
        places,
        lists,
    })
}

/// Lists the names of all rows, and tells of each row which list is its own.
fn push_all<'a>(
    named: &mut Vec<bool>,
    places: &mut Vec<usize>,
    lists: &mut Vec<Vec<Named<'a>>>,
    rows: &'a RowList,
) -> Result<(), AllocError>
    requires none { (named.old.items ≡ []) × (places.old.items ≡ []) }
    requires empty { HasEmpty lists.old.items }
    ensures lists { OnOk result (AreNamed rows.now.items places.new.items lists.new.items) }
    ensures empty { OnOk result (HasEmpty lists.new.items) }
    ensures named { OnOk result (named.new.items ≡ map is_list places.new.items) }
{
    for place in 0..rows.len() {
        let list = push_names(lists, rows, place)?;
        named.push(list != 0)?;
        places.push(list)?;
    }
    Ok(())
}

/// Lists the names of the row at a place, if it has some, and answers which list is its own. The row is read where it has
/// names.
fn push_names<'a>(
    lists: &mut Vec<Vec<Named<'a>>>,
    rows: &'a RowList,
    place: usize,
) -> Result<usize, AllocError>
    requires within { place < length rows.now.items }
    requires empty { HasEmpty lists.old.items }
    ensures list { IfOk result (λ list. IsNamedAt lists.new.items rows.now.items place list) }
    ensures others { OnOk result (Extends lists.old.items lists.new.items) }
{
    if !rows.head(place).has_names {
        return Ok(0);
    }
    let list = lists.len();
    lists.push(rows.at(place).names.walk()?)?;
    Ok(list)
}
