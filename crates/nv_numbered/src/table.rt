//! Values by number: a place for each number that may have one, and the values side by side, each with its number.
//! Only `new`, `from_values`, `reserve`, `lengthen` and `push` take memory.

ghost use Rattle.std.specs.Prelude.{◌≡◌, ◌+◌, ◌-◌, ◌++◌, ◌<◌, ◌≤◌, ◌^◌, ◌↔◌, [], ℕ, length, IsTrue, IsOk, IsSome, IfOk, IfErr, OnOk, OnErr, OnSome, Some, None, Contains, option_copied, slice_get, slice_index};
ghost use Rattle.std.specs.Prelude.{replicate, slice_set};
ghost use Rattle.std.specs.Option.{option_copied_mut};
ghost use Rattle.std.specs.Ordering.{nat_cmp};
ghost use Rattle.std.specs.List.Sorted.{IsStrictlySortedBy};
ghost use Rattle.std.specs.Map.{keys_of};
ghost use Rattle.std.specs.Borrow.{sem};
ghost use Rattle.nv_numbered.specs.Values.{AreNumbersBelow, value_at, limit_of, entries};
ghost use Rattle.nv_numbered.specs.Table.{slot_of};

use crate::{Chunks, Iter, Leaves};
use std::alloc::{AllocError, AllocFailed, Global};
use std::marker::Model;

/// Values, each under a number below a limit.
///
/// Each value takes four bytes more than its own. Numbers stand in leaves of 4,096, of 16 KiB each: as many leaves have
/// memory as there are values and room for more, but never more than the numbers below the limit fill. Removing a value
/// moves the last one into its place, so the values lie in no order.
#[derive(Drop)]
pub struct Numbered<T> {
    // Of each number, one more than the index of its value, and 0 where it has none.
    places: Leaves,
    // The number of each value.
    numbers: Vec<u32>,
    values: Chunks<T>,
}

impl<T> Model for Numbered<T> {
    ghost use Rattle.std.specs.Prelude.{◌-◌, min, vec_len, vec_capacity};
    ghost use Rattle.nv_numbered.specs.Values.{Values, values_code};

    ghost Value = { Values T };

    ghost coded = { values_code T.code };

    ghost use Rattle.nv_numbered.specs.Table.{slots_of, IsSound};

    ghost view = { λ t. record {
      slots = slots_of t.places.items t.values.items;
      room = min (min (vec_capacity t.numbers - vec_len t.numbers) t.values.room) t.places.room;
    } };

    ghost invariant = { λ t. IsSound t.places.items t.numbers.items t.values.items };
}

// The value that a place stands for.
pub(crate) fn value_of<T>(values: &Chunks<T>, place: u32) -> Option<&T>
    ensures { option_copied result ≡ slot_of values.now.items place }
{
    if place == 0 {
        return None;
    }
    values.get(place as usize - 1)
}

impl<T> Numbered<T> {
    ghost use Rattle.nv_numbered.specs.Lends.{lends_value, lends_get};

    /// No values, each of which is to have a number below the limit. It takes 28 bytes for 4,096 numbers.
    pub fn new(alloc: Global, limit: u64) -> Result<Numbered<T>, AllocError>
        requires { limit < 2 ^ 32 }
        ensures empty { IfOk result (λ v. (number : ℕ) → value_at v number ≡ None) }
        ensures limit { IfOk result (λ v. limit_of v ≡ limit) }
    {
        Ok(Numbered {
            places: Leaves::new(alloc, limit, 0)?,
            numbers: Vec::new(alloc),
            values: Chunks::new(alloc),
        })
    }

    /// Values in any order, each under the number at its place among `numbers`. It moves no value.
    ///
    /// Errors: `AllocError` where there is no memory for the places of these numbers.
    pub fn from_values(
        alloc: Global,
        values: Chunks<T>,
        numbers: Vec<u32>,
        limit: u64,
    ) -> Result<Numbered<T>, AllocError>
    where
        T: Drop,
        requires limit { limit < 2 ^ 32 }
        requires as_many { length values.items ≡ length numbers.items }
        requires numbers { AreNumbersBelow limit numbers.items }
        ensures limit { IfOk result (λ v. limit_of v ≡ limit) }
        ensures values { IfOk result (λ v. (number : ℕ) (value : T) →
            (value_at v number ≡ Some value) ↔ ((k : ℕ) × (slice_index numbers.items k ≡ number) × (slice_get values.items k ≡ Some value))) }
    {
        let mut places = Leaves::new(alloc, limit, numbers.len())?;
        for (index, number) in numbers.iter().enumerate() {
            places.insert(*number as u64, index as u32 + 1);
        }
        Ok(Numbered {
            places,
            numbers,
            values,
        })
    }

    /// The value of a number, if it has one.
    pub fn get(&self, number: u64) -> Option<&T>
        ensures { option_copied result ≡ value_at self.now number }
    {
        value_of(&self.values, self.places.get(number))
    }

    /// The value of a number for writing, if it has one.
    pub fn get_mut(&mut self, number: u64) -> Option<&mut T>
        ensures* writes_back { sem 𝓛 (lends_get T.row self.entry number result) }
        ensures value { option_copied_mut result ≡ value_at self.old number }
    {
        if self.get(number).is_some() {
            Some(self.value_mut(number))
        } else {
            None
        }
    }

    fn value_mut(&mut self, number: u64) -> &mut T
        requires { IsSome (value_at self.old number) }
        ensures* writes_back { sem 𝓛 (lends_value T.row self.entry number result) }
        ensures value { value_at self.old number ≡ Some result.now }
    {
        let place = self.places.get(number);
        self.values.at_mut(place as usize - 1)
    }

    /// How many numbers have a value.
    pub fn len(&self) -> usize
        ensures { result ≡ length (entries self.now) }
    {
        self.values.len()
    }

    /// Whether no number has a value.
    pub fn is_empty(&self) -> bool
        ensures { IsTrue result ↔ (entries self.now ≡ []) }
    {
        self.values.is_empty()
    }

    /// The values with their numbers, rising by number. It looks at all those of 4,096 numbers of which one has a value.
    pub fn iter(&self) -> Iter<'_, T>
        ensures listed { result ≡ entries self.now }
        ensures rising { IsStrictlySortedBy nat_cmp (keys_of result) }
        ensures each { (number : ℕ) (value : T) →
            Contains result (number, value) ↔ (value_at self.now number ≡ Some value) }
    {
        Iter {
            places: &self.places,
            number: 0,
            values: &self.values,
        }
    }

    /// Makes room for `more` calls of `insert`. The values stay, whatever it answers.
    ///
    /// Errors: `AllocError` where a growth was refused. It doesn't come where there is room already.
    pub fn reserve(&mut self, more: usize) -> Result<(), AllocError>
        ensures values { self.new.slots ≡ self.old.slots }
        ensures ready { OnOk result (more ≤ self.new.room) }
        ensures succeeds { more ≤ self.old.room → IsOk result }
        ensures room { self.old.room ≤ self.new.room }
    {
        self.numbers.reserve(more)?;
        self.values.reserve(more)?;
        self.places.reserve(more)
    }

    /// Lets the numbers below a limit have a value, which is at most 4,096 above the old one. The values stay, whatever it
    /// answers.
    ///
    /// Errors: `AllocError` where a growth was refused.
    pub fn lengthen(&mut self, limit: u64) -> Result<(), AllocError>
        requires few { limit ≤ limit_of self.old + 4096 }
        requires small { limit < 2 ^ 32 }
        ensures ok { OnOk result (self.new.slots ≡ self.old.slots ++ replicate (limit - limit_of self.old) None) }
        ensures err { OnErr result (self.new.slots ≡ self.old.slots) }
        ensures room { self.old.room ≤ self.new.room }
    {
        self.places.lengthen(limit)?;
        Ok(())
    }

    /// Gives a value to a number that has none. It takes no memory.
    pub fn insert(&mut self, number: u64, value: T)
        requires within { number < limit_of self.old }
        requires vacant { value_at self.old number ≡ None }
        requires room { 0 < self.old.room }
        ensures values { self.new.slots ≡ slice_set self.old.slots number (Some value) }
        ensures room { self.old.room ≡ self.new.room + 1 }
    {
        self.numbers.push_reserved(number as u32);
        self.values.push_reserved(value);
        self.places.insert(number, self.values.len() as u32);
    }

    /// As `insert`, where no room need have been made. Where a growth was refused the value comes back, and the values
    /// stay as they were. That doesn't happen where there is room already.
    pub fn push(&mut self, number: u64, value: T) -> Result<(), AllocFailed<T>>
        requires within { number < limit_of self.old }
        requires vacant { value_at self.old number ≡ None }
        ensures ok { OnOk result (self.new.slots ≡ slice_set self.old.slots number (Some value)) }
        ensures err { OnErr result (self.new.slots ≡ self.old.slots) }
        ensures value_returned { IfErr result (λ failed. failed.value ≡ value) }
        ensures succeeds { 0 < self.old.room → IsOk result }
        ensures room { self.old.room ≤ self.new.room + 1 }
    {
        if self.reserve(1).is_err() {
            return Err(AllocFailed { value });
        }
        self.insert(number, value);
        Ok(())
    }

    /// Takes the value of a number out, if it has one. It takes no memory.
    pub fn remove(&mut self, number: u64) -> Option<T>
        ensures value { result ≡ value_at self.old number }
        ensures values { self.new.slots ≡ slice_set self.old.slots number None }
        ensures room { self.old.room ≤ self.new.room }
        ensures freed { OnSome result (self.new.room ≡ self.old.room + 1) }
    {
        let place = self.places.get(number);
        if place == 0 {
            return None;
        }
        let moved = self.numbers[self.numbers.len() - 1];
        // The last value comes to this place. Where it is the one that goes, the second write has the last word.
        self.places.replace(moved as u64, place);
        self.places.remove(number);
        let index = place as usize - 1;
        let _number = self.numbers.swap_remove(index);
        Some(self.values.swap_remove(index))
    }
}
