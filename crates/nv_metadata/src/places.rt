//! Where the bytes of blocks stand: for each block the number of a place, and behind that the places of those that were read.
//!
//! A table of numbers takes 4 bytes for each block of the region, and the places grow with what is read.

ghost use Rattle.std.specs.Prelude.{◌≡◌, ◌≤◌, ◌<◌, ◌+◌, ◌^◌, ℕ, IfOk, OnOk, OnErr, length, map, get_or, set, replicate};
ghost use Rattle.nv_metadata.specs.Places.{nowhere, numbered, behind_parts, taken, taken_number};
ghost use Rattle.nv_metadata.specs.declared.places.Place.{Place as PlaceValue};

use std::alloc::{AllocError, Global};
use std::marker::Model;

/// Where the bytes of a block stand: in which part, from where on, and how many. So many are known of it: those behind what
/// stands there are zeros.
#[derive(Clone, Copy)]
pub(crate) struct Place {
    pub part: u32,
    pub start: u32,
    pub count: u32,
    pub known: u32,
}

// The place of a block of which nothing is held.
const NOWHERE: Place = Place {
    part: 0,
    start: 0,
    count: 0,
    known: 0,
};

/// The places of blocks, seen as their list.
#[derive(Drop)]
pub(crate) struct Places {
    // For each block the number of its place: 0 where nothing is held of it.
    numbers: Vec<u32>,
    // The first is that of a block of which nothing is held.
    places: Vec<Place>,
}

impl Model for Places {
    ghost use Rattle.std.specs.Prelude.{List};
    ghost use Rattle.nv_metadata.specs.Places.{table, AreNumbered};
    ghost use Rattle.nv_metadata.specs.declared.places.Place.{Place as PlaceValue};

    ghost Value = { List PlaceValue };

    ghost view = { λ t. table t.numbers.items t.places.items };

    ghost invariant = { AreNumbered };
}

impl Places {
    /// Those of so many blocks of which nothing is held.
    pub fn none(alloc: Global, blocks: usize) -> Result<Places, AllocError>
        ensures { IfOk result (λ places. places ≡ replicate blocks nowhere) }
    {
        let mut places = Vec::with_capacity(alloc, 1)?;
        places.push(NOWHERE)?;
        Ok(Places {
            numbers: vec![in alloc; 0; blocks]?,
            places,
        })
    }

    /// The place of a block.
    pub fn at(&self, block: usize) -> Place
        requires { block < length self.now }
        ensures { result ≡ get_or self.now block nowhere }
    {
        self.places[self.numbers[block] as usize]
    }

    /// Gives a block this place.
    ///
    /// Errors: `AllocError` where a growth was refused; all stays as it was.
    pub fn put(&mut self, block: usize, place: Place) -> Result<(), AllocError>
        requires { block < length self.old }
        ensures put { OnOk result (self.new ≡ set self.old block place) }
        ensures refused { OnErr result (self.new ≡ self.old) }
    {
        let number = narrow(self.places.len())?;
        self.places.push(place)?;
        self.numbers[block] = number;
        Ok(())
    }

    /// Gives each block from one on the place that it has among others, where more of it is held there. The parts of those stand
    /// behind so many now.
    ///
    /// Errors: `AllocError` where a growth was refused; all stays as it was.
    pub fn take_more(
        &mut self,
        alloc: Global,
        others: &Places,
        from: usize,
        before: u32,
    ) -> Result<(), AllocError>
        requires as_many { length others.now ≡ length self.old }
        requires from { from ≤ length self.old }
        requires few { (b : ℕ) → before + (get_or others.now b nowhere).part < 2 ^ 32 }
        ensures as_many { length self.new ≡ length self.old }
        ensures taken { OnOk result ((b : ℕ) → get_or self.new b nowhere ≡ taken from before b (get_or self.old b nowhere) (get_or others.now b nowhere)) }
        ensures refused { OnErr result (self.new ≡ self.old) }
    {
        let base = narrow(self.places.len())?;
        let _all = narrow(self.places.len() + others.places.len())?;
        let mut more = behind_parts(alloc, &others.places, before)?;
        self.places.append(&mut more)?;
        take_numbers(
            &mut self.numbers,
            &others.numbers,
            &self.places,
            &others.places,
            from,
            base,
        );
        Ok(())
    }
}

// These places where their parts stand behind so many.
fn behind_parts(alloc: Global, places: &[Place], before: u32) -> Result<Vec<Place>, AllocError>
    ensures { IfOk result (λ behind. behind.items ≡ map (behind_parts before) places.now) }
{
    let mut behind = Vec::with_capacity(alloc, places.len())?;
    for place in places {
        behind.push(behind_part(*place, before))?;
    }
    Ok(behind)
}

// The place where its part stands behind so many. A place that no block has any more may be told wrong.
fn behind_part(place: Place, before: u32) -> Place
    ensures { result ≡ behind_parts before place }
{
    Place {
        part: before.saturating_add(place.part),
        start: place.start,
        count: place.count,
        known: place.known,
    }
}

// Gives each block from one on its number among others, where more of it is held by that: those places begin at `base` here.
fn take_numbers(
    numbers: &mut [u32],
    others: &[u32],
    here: &[Place],
    there: &[Place],
    from: usize,
    base: u32,
)
    requires as_many { length others.now ≡ length numbers.old }
    requires from { from ≤ length numbers.old }
    requires here { (b : ℕ) → get_or numbers.old b 0 < length here.now }
    requires there { (b : ℕ) → get_or others.now b 0 < length there.now }
    requires none { (numbered there.now 0).known ≡ 0 }
    requires small { base + length there.now < 2 ^ 32 }
    ensures as_many { length numbers.new ≡ length numbers.old }
    ensures taken { (b : ℕ) → get_or numbers.new b 0 ≡ taken_number from base b here.now there.now (get_or numbers.old b 0) (get_or others.now b 0) }
{
    for block in from..numbers.len() {
        let other = others[block];
        if there[other as usize].known > here[numbers[block] as usize].known {
            numbers[block] = base + other;
        }
    }
}

/// A number in 32 bits: an image has fewer bytes by far. Errors: `AllocError` where it has no room there.
pub(crate) fn narrow(count: usize) -> Result<u32, AllocError>
    ensures { IfOk result (λ narrow. narrow ≡ count) }
{
    match u32::try_from(count) {
        Ok(narrow) => Ok(narrow),
        Err(_) => Err(AllocError),
    }
}
