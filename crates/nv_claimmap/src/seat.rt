//! A worker's place at the map: what it drew and claimed there.

ghost use Rattle.std.specs.Prelude.{◌≡◌, ◌<◌, ◌^◌, [], IfOk};
ghost use Rattle.std.specs.Vec.{vec_len};
ghost use Rattle.nv_claimcore.specs.Claims.{nothing};
ghost use Rattle.nv_claimmap.specs.Held.{Held, held, map_id, fresh};
ghost use Rattle.nv_claimmap.specs.Inside.{IsSeat};

use crate::claimed_runs::ClaimedRuns;
use crate::rule::{Cut, Law};
use atomic_table::{Seat, Shared};
use nv_claimcore::{Sizes, View};
use std::alloc::{AllocError, Global};
use std::marker::Model;

/// A seat at a claim map. A thread that owns it draws and claims by it. It may cross threads.
#[derive(Drop)]
pub struct ClaimSeat {
    pub(crate) seat: Seat<u8, View>,
    pub(crate) sizes: Sizes,
    pub(crate) number: u32,
    // A number past the end of the tickets was drawn.
    pub(crate) ended: bool,
    // What was claimed, in the order of the claims.
    pub(crate) claims: ClaimedRuns,
}

impl Model for ClaimSeat {
    ghost Value = { Held };

    ghost view = { λ s. held (map_id s.seat.table_id s.sizes) s.number s.seat.me.0 };

    ghost invariant = { IsSeat };
}

impl ClaimSeat {
    /// The seat's number, from 0 on, below the number of workers. A joined seat has that of the first one.
    pub fn number(&self) -> u32
        ensures { result ≡ self.now.number }
    {
        self.number
    }

    // A seat that has drawn and claimed nothing.
    fn new(alloc: Global, seat: Seat<u8, View>, sizes: Sizes, number: u32) -> ClaimSeat
        requires { seat.me ≡ (nothing 1, []) }
        ensures { result ≡ held (map_id seat.table_id sizes) number (nothing 1) }
    {
        ClaimSeat {
            seat,
            sizes,
            number,
            ended: false,
            claims: ClaimedRuns::new(alloc),
        }
    }
}

// Cuts the first seat of a table into one for each worker.
pub(crate) fn seat_all(
    alloc: Global,
    shared: &Shared<u8, View, Sizes, Law>,
    mut last: Seat<u8, View>,
    sizes: Sizes,
) -> Result<Vec<ClaimSeat>, AllocError>
    requires seat { (last.table_id ≡ shared.now.table_id) × (last.me ≡ (nothing sizes.workers, [])) }
    requires table { (shared.now.key ≡ sizes) × (0 < shared.now.table_id.words) }
    requires workers { (0 < sizes.workers) × (sizes.workers < 2 ^ 32) }
    ensures { IfOk result (λ v. v.items ≡ fresh (map_id shared.now.table_id sizes) sizes.workers × (vec_len v ≡ sizes.workers)) }
{
    let mut seats = Vec::with_capacity(alloc, sizes.workers as usize)?;
    let others = sizes.workers as u32 - 1;
    for number in 0..others {
        let seat = shared.split_seat::<Cut>(&mut last);
        seats.push_reserved(ClaimSeat::new(alloc, seat, sizes, number));
    }
    seats.push_reserved(ClaimSeat::new(alloc, last, sizes, others));
    Ok(seats)
}
