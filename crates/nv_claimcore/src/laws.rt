//! Laws of the core over every list of events, each as the contract of a function with nothing to do.

ghost use Rattle.std.specs.Prelude.{◌≡◌, ℕ, ◌+◌, ◌-◌, ◌≤◌, List, true, min};
ghost use Rattle.nv_blockset.specs.BlockSet.{has};
ghost use Rattle.nv_super.specs.declared.owners.Owner.{Owner};
ghost use Rattle.nv_claimcore.specs.declared.view.Sizes.{Sizes};
ghost use Rattle.nv_claimcore.specs.declared.event.Event.{Event};
ghost use Rattle.nv_claimcore.specs.Claims.{State, Legal};
ghost use Rattle.nv_claimcore.specs.Events.{start, all_allowed, after_all};
ghost use Rattle.nv_claimcore.specs.Finished.{Finished, works_of};
ghost use Rattle.nv_claimcore.specs.Replay.{RunInOrder};

/// After every list of allowed events the state is legal.
pub fn every_list_is_legal()
    ensures { (z : Sizes) (events : List Event) → all_allowed z (start z) events ≡ true → Legal z (after_all (start z) events) }
{}

/// In a legal state the cursor is at most the tickets and the workers together.
#[tactic(auto, using(crate::proofs::Lists::cursor_bound))]
pub fn cursor_is_bounded()
    ensures { (z : Sizes) (s : State) → Legal z s → s.cursor ≤ z.tickets + z.workers }
{}

/// A legal state that is finished for some work has the work's blocks in its first set, and in its second set those
/// that stand in the work twice or more.
#[tactic(auto, using(crate::proofs::Ends::finished_first, crate::proofs::Ends::finished_second))]
pub fn finished_sets()
    ensures { (z : Sizes) (s : State) (work : List (List (ℕ × Owner))) → Legal z s → Finished s work → (b : ℕ)
        → (has s.first b ≡ min 1 (works_of b work)) × (has s.second b ≡ min 1 (works_of b work - 1)) }
{}

/// Workers that run to their ends in rising order take just one list of steps, so a schedule names one state.
#[tactic(auto, using(crate::proofs::Single::one_order))]
pub fn one_order_of_ends()
    ensures { (work : List (List (ℕ × Owner))) (s : State) (n : ℕ) (one other : List Event) → RunInOrder work s n one → RunInOrder work s n other → one ≡ other }
{}
