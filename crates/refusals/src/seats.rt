//! The two seats of a claim map, and their join.

ghost use Rattle.std.specs.Prelude.{◌≡◌, ◌+◌, ◌<◌, ◌^◌, IfOk};
ghost use Rattle.nv_claimcore.specs.Claims.{nothing, both_views};

use nv_claimcore::Sizes;
use nv_claimmap::{ClaimMap, ClaimSeat};
use std::alloc::{AllocError, Global};

/// A map of these sizes, with two seats.
pub(crate) fn opened(
    alloc: Global,
    sizes: Sizes,
) -> Result<(ClaimMap, ClaimSeat, ClaimSeat), AllocError>
    requires two { sizes.workers ≡ 2 }
    requires numbers { sizes.tickets + 2 < 2 ^ 64 }
    ensures sizes { IfOk result (λ r. r.0.sizes ≡ sizes) }
    ensures maps { IfOk result (λ r. (r.1.map ≡ r.0) × (r.2.map ≡ r.0)) }
    ensures views { IfOk result (λ r. (r.1.view ≡ nothing 1) × (r.2.view ≡ nothing 1)) }
{
    let (map, mut seats) = ClaimMap::open(alloc, sizes)?;
    let (Some(two), Some(one)) = (seats.pop(), seats.pop()) else {
        unreachable!()
    };
    Ok((map, one, two))
}

/// Joins two seats, and whether that was refused once. Both came back then, and are joined by a second try.
pub(crate) fn joined(
    map: &ClaimMap,
    one: ClaimSeat,
    other: ClaimSeat,
) -> Result<(ClaimSeat, bool), AllocError>
    requires { (one.map ≡ map.now) × (other.map ≡ map.now) }
    ensures { IfOk result (λ s. (s.0.map ≡ one.map) × (s.0.view ≡ both_views one.view other.view)) }
{
    match map.join(one, other) {
        Ok(both) => Ok((both, false)),
        Err((one, other)) => match map.join(one, other) {
            Ok(both) => Ok((both, true)),
            Err(_) => Err(AllocError),
        },
    }
}
