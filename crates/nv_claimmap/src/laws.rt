//! Laws of the map's steps, each as the contract of a function with nothing to do.

ghost use Rattle.std.specs.Prelude.{ℕ, ◌/◌, ◌<◌, length};
ghost use Rattle.nv_super.specs.declared.owners.Owner.{Owner};
ghost use Rattle.nv_super.specs.declared.owners.Run.{Run};
ghost use Rattle.nv_super.specs.Owners.{pairs};
ghost use Rattle.nv_claimcore.specs.declared.view.Sizes.{Sizes};
ghost use Rattle.nv_claimcore.specs.Claims.{State};
ghost use Rattle.nv_claimcore.specs.Events.{view_of};
ghost use Rattle.nv_claimcore.specs.Spans.{lost_in, AreUnmarked};
ghost use Rattle.nv_claimmap.specs.Inside.{InWord};
ghost use Rattle.nv_claimmap.specs.Events.{IsClaimStep, IsMarkStep};

/// A step of a seat with a mask is a list of events of the claim core: on the first set the claims that `claim_span`
/// names, and on the second the marks that `mark_span` names.
pub fn steps_are_events()
    ensures claims { (z : Sizes) (s : State) (seat : ℕ) (run : Run) (o : Owner) → seat < length s.views → run.start / 64 < length s.first → InWord run.start run.count z.blocks
        → IsClaimStep z s seat run o }
    ensures marks { (z : Sizes) (s : State) (seat found : ℕ) (run : Run) (o : Owner) → seat < length s.views → run.start / 64 < length s.second → InWord run.start run.count z.blocks
        → AreUnmarked (lost_in found (pairs run.start o run.count)) (view_of s seat) → IsMarkStep z s seat found run o }
{}
