//! The way through the pairs of directories of two trees, with what waits to be looked at on a stack: what a pair leads to comes
//! before what waited before it.

ghost use Rattle.std.specs.Prelude.{◌≡◌, ◌↔◌, ◌&&◌, ◌++◌, ◌∷◌, [], ℕ, IsTrue, IfOk, OnOk, Some, None, is_none, true, map};
ghost use Rattle.std.specs.BTreeMap.{get};
ghost use Rattle.std.specs.Ordering.{nat_cmp};
ghost use Rattle.nv_difference.specs.Pairs.{AreVisited, are_new, both_of};
ghost use Rattle.nv_difference.specs.Walk.{AreDirectories, IsReady, LeadsOn, seen_in, visit_of, waiting};

use crate::below::pairs_below;
use crate::contents::Contents;
use crate::pair::{Pair, Visit};
use std::alloc::{AllocError, Global};
use std::collections::BTreeMap;

// The pairs so far, those that wait, and of each directory of either tree what it was compared with.
#[derive(Drop)]
struct Walk {
    visits: Vec<Visit>,
    pending: Vec<Pair>,
    partners: BTreeMap<u64, u64>,
    owners: BTreeMap<u64, u64>,
}

impl Walk {
    // Some pairs wait, and no directory was compared.
    fn new(alloc: Global, pending: Vec<Pair>) -> Walk
        ensures visits { result.visits.items ≡ [] }
        ensures pending { result.pending.items ≡ pending.items }
        ensures partners { (i : ℕ) → get nat_cmp result.partners i ≡ None }
        ensures owners { (i : ℕ) → get nat_cmp result.owners i ≡ None }
    {
        Walk {
            visits: Vec::new(alloc),
            pending,
            partners: BTreeMap::new(alloc),
            owners: BTreeMap::new(alloc),
        }
    }

    // Looks at what waited on top. If neither directory was compared yet, what the two lead to waits then.
    fn enter<S: Contents, T: Contents>(
        &mut self,
        alloc: Global,
        first: &S,
        second: &T,
        next: Pair,
    ) -> Result<(), AllocError>
        requires { IsReady (S.tree first.now) (T.tree second.now) self.old.visits.items (self.old.pending.items ++ next ∷ []) (get nat_cmp self.old.partners) (get nat_cmp self.old.owners) }
        ensures ready { OnOk result (IsReady (S.tree first.now) (T.tree second.now) self.new.visits.items self.new.pending.items (get nat_cmp self.new.partners) (get nat_cmp self.new.owners)) }
        ensures leads { OnOk result (LeadsOn (S.tree first.now) (T.tree second.now) self.old.visits.items self.new.visits.items (self.old.pending.items ++ next ∷ []) self.new.pending.items) }
    {
        let partner = number_at(&self.partners, next.a);
        if is_number(partner, next.b) {
            return Ok(());
        }
        let owner = number_at(&self.owners, next.b);
        if are_new(partner, owner) {
            return self.compare(alloc, first, second, next);
        }
        self.visits.push(Visit {
            pair: next,
            compared: false,
        })?;
        Ok(())
    }

    // The pair is compared, and what it leads to waits.
    fn compare<S: Contents, T: Contents>(
        &mut self,
        alloc: Global,
        first: &S,
        second: &T,
        next: Pair,
    ) -> Result<(), AllocError>
        requires ready { IsReady (S.tree first.now) (T.tree second.now) self.old.visits.items (self.old.pending.items ++ next ∷ []) (get nat_cmp self.old.partners) (get nat_cmp self.old.owners) }
        requires new { are_new (seen_in self.old.visits.items) (both_of next) ≡ true }
        ensures ready { OnOk result (IsReady (S.tree first.now) (T.tree second.now) self.new.visits.items self.new.pending.items (get nat_cmp self.new.partners) (get nat_cmp self.new.owners)) }
        ensures leads { OnOk result (LeadsOn (S.tree first.now) (T.tree second.now) self.old.visits.items self.new.visits.items (self.old.pending.items ++ next ∷ []) self.new.pending.items) }
    {
        let mut below = pairs_below(alloc, first, second, &next)?;
        below.reverse();
        self.pending.append(&mut below)?;
        self.partners.insert(next.a, next.b)?;
        self.owners.insert(next.b, next.a)?;
        self.visits.push(Visit {
            pair: next,
            compared: true,
        })?;
        Ok(())
    }

    // Looks at all that waits. No turn is the last that can be counted.
    fn finish<S: Contents, T: Contents>(
        &mut self,
        alloc: Global,
        first: &S,
        second: &T,
    ) -> Result<(), AllocError>
        requires { IsReady (S.tree first.now) (T.tree second.now) self.old.visits.items self.old.pending.items (get nat_cmp self.old.partners) (get nat_cmp self.old.owners) }
        ensures leads { OnOk result (LeadsOn (S.tree first.now) (T.tree second.now) self.old.visits.items self.new.visits.items self.old.pending.items self.new.pending.items) }
        ensures done { OnOk result (self.new.pending.items ≡ []) }
    {
        'turns: for _ in 0..u64::MAX {
            let Some(next) = self.pending.pop() else {
                return Ok(());
            };
            self.enter(alloc, first, second, next)?;
        }
        Err(AllocError)
    }
}

// What stands in a table by a number, if anything does.
fn number_at(table: &BTreeMap<u64, u64>, number: u64) -> Option<u64>
    ensures { result ≡ get nat_cmp table.now number }
{
    match table.get(&number) {
        Some(known) => Some(*known),
        None => None,
    }
}

fn is_number(known: Option<u64>, number: u64) -> bool
    ensures { IsTrue result ↔ (known ≡ Some number) }
{
    match known {
        Some(other) => other == number,
        None => false,
    }
}

// Whether neither of two directories was compared with one.
fn are_new(partner: Option<u64>, owner: Option<u64>) -> bool
    ensures { result ≡ (is_none partner && is_none owner) }
{
    partner.is_none() && owner.is_none()
}

/// The pairs of directories that some of two trees lead to by the same names, in the order in which they are told of.
///
/// Each directory is compared once, at its first path, so rings of directories end where they come back. The error is a refused growth.
pub(crate) fn visits_from<S: Contents, T: Contents>(
    alloc: Global,
    first: &S,
    second: &T,
    pending: Vec<Pair>,
) -> Result<Vec<Visit>, AllocError>
    requires { AreDirectories (S.tree first.now) (T.tree second.now) (waiting pending.items) }
    ensures { IfOk result (λ visits. AreVisited (S.tree first.now) (T.tree second.now) [] (waiting pending.items) (map visit_of visits.items)) }
{
    let mut walk = Walk::new(alloc, pending);
    walk.finish(alloc, first, second)?;
    Ok(walk.visits)
}
