//! The iterator over numbered values.

ghost use Rattle.std.specs.Iterator.{YieldsFirstBy, item_count};

use crate::{Chunks, Leaves};
use std::marker::Model;

/// The values with their numbers, rising by number, seen as the list of those that are left.
#[derive(Drop)]
pub struct Iter<'a, T> {
    pub(crate) places: &'a Leaves,
    // The first number that is left.
    pub(crate) number: u64,
    pub(crate) values: &'a Chunks<T>,
}

impl<'a, T> Model for Iter<'a, T> {
    ghost use Rattle.std.specs.Prelude.{ℕ, List, drop};

    ghost Value = { List (ℕ × T) };

    ghost use Rattle.nv_numbered.specs.Values.{entries_from};
    ghost use Rattle.nv_numbered.specs.Table.{slots_of, LeadToValues};

    ghost view = { λ it. entries_from it.number (drop it.number (slots_of it.places.now.items it.values.now.items)) };

    ghost invariant = { λ it. LeadToValues it.places.now.items it.values.now.items };
}

impl<'a, T> Iterator for Iter<'a, T> {
    type Item = (u64, &'a T);

    ghost next_gives = { YieldsFirstBy (λ item. (item.0, item.1.now)) (λ rest. rest) };

    ghost remaining = { item_count (λ rest. rest) };

    fn next(&mut self) -> Option<(u64, &'a T)> {
        match self.places.next_used(self.number) {
            None => None,
            Some(number) => {
                self.number = number + 1;
                let place = self.places.get(number);
                Some((number, self.values.at(place as usize - 1)))
            }
        }
    }
}
