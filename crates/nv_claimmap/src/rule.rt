//! The rule of the table, and what each step on it tells its caller.

ghost use Rattle.std.specs.Prelude.{ℕ, List, []};
ghost use Rattle.nv_super.specs.declared.owners.Owner.{Owner};
ghost use Rattle.nv_claimcore.specs.Claims.{nothing, both_views};
ghost use Rattle.nv_claimmap.specs.Rule.{Kept, one_less, drawn, claimed, marked, looked};

use atomic_table::{Join, Play, Split, TableRule};
use nv_claimcore::{Sizes, View};
use std::marker::{Brand, PhantomData};

/// The words and all views are a legal state of the claim core.
pub struct Law;

impl TableRule<u8, View, Sizes> for Law {
    ghost holds = { Kept };

    ghost first = { λ z. nothing z.workers };
}

/// A seat is cut off one that has seen nothing.
pub struct Cut;

impl Split<View> for Cut {
    ghost left = { one_less };

    ghost right = { λ _. nothing 1 };
}

/// A seat takes in what another has seen, and the other is left with nothing.
pub struct Both;

impl Join<View> for Both {
    ghost both = { both_views };

    ghost spent = { nothing 0 };
}

/// The cursor's number is drawn.
pub struct Draw;

impl Play<u8, View> for Draw {
    ghost then = { drawn };
}

/// The blocks that one step is about, each with the owner that it is claimed for.
pub trait Intent {
    ghost claims: { List (ℕ × Owner) };
}

impl Intent for Brand {
    ghost claims = { [] };
}

/// The blocks of the intent are claimed.
pub struct Claim<I> {
    intent: PhantomData<I>,
}

impl<I: Intent> Play<u8, View> for Claim<I> {
    ghost then = { claimed I.claims };
}

/// The lost claims of the intent's blocks are marked.
pub struct Mark<I> {
    intent: PhantomData<I>,
}

impl<I: Intent> Play<u8, View> for Mark<I> {
    ghost then = { marked I.claims };
}

/// A word is read for what the rule says of the seat.
pub struct Look;

impl Play<u8, View> for Look {
    ghost then = { looked };
}
