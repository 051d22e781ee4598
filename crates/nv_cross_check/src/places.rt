//! Where the row of each inode stands.

ghost use Rattle.std.specs.Prelude.{◌≡◌, ◌<◌, ◌^◌, IfOk};
ghost use Rattle.nv_numbered.specs.Values.{AreNumbersBelow};
ghost use Rattle.nv_cross_check.specs.Listings.{inodes_of};
ghost use Rattle.nv_cross_check.specs.Steps.{place_of, ArePlaces};

use crate::listing::Listings;
use nv_numbered::Leaves;
use std::alloc::{AllocError, Global};
use std::marker::Model;

/// The place of each inode's row, by the inode's number: four bytes for a place, since a region has fewer inodes, and
/// none for 4,096 numbers of which none has a row.
#[derive(Drop)]
pub(crate) struct Places {
    // Of each number, one more than the place of its row, and 0 where it has none.
    words: Leaves,
}

impl Model for Places {
    ghost use Rattle.std.specs.Prelude.{ℕ, List, Option};

    ghost Value = { List (Option ℕ) };

    ghost use Rattle.nv_cross_check.specs.Words.{places_in};

    ghost view = { λ p. places_in p.words.items };
}

impl Places {
    /// The place of an inode's row, if it is in use.
    pub(crate) fn find(&self, inode: u64) -> Option<usize>
        ensures { result ≡ place_of self.now inode }
    {
        let word = self.words.get(inode);
        if word == 0 {
            return None;
        }
        Some(word as usize - 1)
    }
}

/// The places of these rows, whose inodes have numbers below an end.
pub(crate) fn places_of(
    alloc: Global,
    end: u64,
    listings: &Listings<'_>,
) -> Result<Places, AllocError>
    requires small { end < 2 ^ 32 }
    requires apart { AreNumbersBelow end (inodes_of listings.now) }
    ensures { IfOk result (λ places. ArePlaces listings.now places) }
{
    let mut words = Leaves::new(alloc, end, listings.len())?;
    for place in 0..listings.len() {
        words.insert(listings.head(place).inode, place as u32 + 1);
    }
    Ok(Places { words })
}
