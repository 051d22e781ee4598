//! A whole list of events, one after the other.

ghost use Rattle.std.specs.Prelude.{◌≡◌, true, IfOk, IfErr};
ghost use Rattle.nv_claimcore.specs.Claims.{Legal};
ghost use Rattle.nv_claimcore.specs.Events.{start, all_allowed, after_all};
ghost use Rattle.nv_claimcore.specs.Refused.{Refuses};

use crate::event::Event;
use crate::refusal::CoreRefusal;
use crate::state::ClaimState;
use crate::view::Sizes;
use std::alloc::Global;

/// The state after the events, from the one in which nothing was drawn or claimed, with so many blocks, tickets and
/// workers.
///
/// A draw and a mark look through that worker's numbers or records.
///
/// Errors: `NotAllowed` with the place of the first event that is not allowed, where one isn't; `Memory` where a growth
/// was refused, of which no clause says more.
pub fn run(alloc: Global, sizes: Sizes, events: &[Event]) -> Result<ClaimState, CoreRefusal>
    ensures allowed { IfOk result (λ _. all_allowed sizes (start sizes) events.now ≡ true) }
    ensures state { IfOk result (λ s. s ≡ after_all (start sizes) events.now) }
    ensures legal { IfOk result (Legal sizes) }
    ensures refused { IfErr result (Refuses sizes events.now) }
{
    let mut state = ClaimState::new(alloc, sizes)?;
    for place in 0..events.len() {
        if !state.allows(sizes, events[place]) {
            return Err(CoreRefusal::NotAllowed { place });
        }
        state.step(sizes, events[place])?;
    }
    Ok(state)
}
