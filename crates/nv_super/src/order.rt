//! The order of owners and of faults: both are compared by a key, whose numbers are compared from left to right.

ghost use Rattle.std.specs.Prelude.{◌≡◌};

use crate::faults::Fault;
use crate::owners::Owner;
use std::cmp::Ordering;

/// Tables before inodes; then by CPU and place, or by inode, log before data, and page.
#[derive(Clone, Copy, Debug, PartialEq, Eq, PartialOrd, Ord)]
pub(crate) struct OwnerKey {
    pub(crate) kind: u64,
    pub(crate) first: u64,
    pub(crate) second: u64,
    pub(crate) third: u64,
}

/// By class, then by the fields from left to right.
#[derive(Clone, Copy, Debug, PartialEq, Eq, PartialOrd, Ord)]
pub(crate) struct FaultKey {
    pub(crate) class: u64,
    pub(crate) first: u64,
    pub(crate) second: u64,
    pub(crate) third: u64,
    pub(crate) fourth: u64,
    pub(crate) fifth: u64,
}

pub(crate) fn short_key(class: u64, first: u64, second: u64) -> FaultKey
    ensures { result ≡ record { class = class; first = first; second = second; third = 0; fourth = 0; fifth = 0 } }
{
    FaultKey {
        class,
        first,
        second,
        third: 0,
        fourth: 0,
        fifth: 0,
    }
}

impl Owner {
    ghost use Rattle.std.specs.Prelude.{◌≡◌};
    ghost use Rattle.nv_super.specs.Order.{owner_key};
    ghost use Rattle.nv_super.specs.Keys.{owner_fields};

    /// What owners are compared by.
    pub(crate) fn key(&self) -> OwnerKey
        ensures { owner_fields result ≡ owner_key self.now }
    {
        match self {
            Owner::Table { cpu, place } => OwnerKey {
                kind: 0,
                first: *cpu,
                second: *place,
                third: 0,
            },
            Owner::Log { inode, page } => OwnerKey {
                kind: 1,
                first: *inode,
                second: 0,
                third: *page,
            },
            Owner::Data { inode, page } => OwnerKey {
                kind: 1,
                first: *inode,
                second: 1,
                third: *page,
            },
        }
    }
}

impl PartialEq for Owner {
    ghost use Rattle.std.specs.Prelude.{nat_eq};
    ghost use Rattle.std.specs.Cmp as Cmp;
    ghost use Rattle.std.specs.Cmp.{on_equiv};
    ghost use Rattle.std.specs.Cmp.Lexicographic.{pointwise, nat_list_eq_equiv};
    ghost use Rattle.nv_super.specs.Order.{owner_key};

    ghost eq = { λ a b. pointwise nat_eq (owner_key a) (owner_key b) };

    ghost laws = { Cmp.partial_equiv_from_equiv (on_equiv owner_key nat_list_eq_equiv) };

    fn eq(&self, other: &Owner) -> bool {
        self.key() == other.key()
    }
}

impl Eq for Owner {
    ghost use Rattle.std.specs.Cmp.{on_equiv};
    ghost use Rattle.std.specs.Cmp.Lexicographic.{nat_list_eq_equiv};
    ghost use Rattle.nv_super.specs.Order.{owner_key};

    ghost laws = { on_equiv owner_key nat_list_eq_equiv };
}

impl Ord for Owner {
    ghost use Rattle.std.specs.Ordering.{nat_cmp};
    ghost use Rattle.std.specs.Cmp.Lexicographic.{slice_cmp, on_texts, texts_ties};
    ghost use Rattle.nv_super.specs.Order.{owner_key};
    ghost use Rattle.std.proofs.Common.{refl};

    ghost cmp = { λ a b. slice_cmp nat_cmp (owner_key a) (owner_key b) };

    ghost total = { on_texts owner_key };

    ghost matches_partial_cmp = { λ a b. refl };

    ghost matches_eq = { λ a b. texts_ties (owner_key a) (owner_key b) };

    fn cmp(&self, other: &Owner) -> Ordering {
        self.key().cmp(&other.key())
    }
}

impl PartialOrd for Owner {
    ghost use Rattle.std.specs.Prelude.{Some};
    ghost use Rattle.std.specs.Ordering.{nat_cmp};
    ghost use Rattle.std.specs.Cmp.{partial_order_from_agreeing_total};
    ghost use Rattle.std.specs.Cmp.Lexicographic.{slice_cmp, on_texts, texts_ties};
    ghost use Rattle.nv_super.specs.Order.{owner_key};
    ghost use Rattle.std.proofs.Common.{refl};

    ghost partial_cmp = { λ a b. Some (slice_cmp nat_cmp (owner_key a) (owner_key b)) };

    ghost laws = { partial_order_from_agreeing_total (λ a b. slice_cmp nat_cmp (owner_key a) (owner_key b)) (on_texts owner_key) (λ a b. refl) (λ a b. texts_ties (owner_key a) (owner_key b)) };

    fn partial_cmp(&self, other: &Owner) -> Option<Ordering> {
        Some(self.cmp(other))
    }
}

impl PartialEq for Fault {
    ghost use Rattle.std.specs.Prelude.{nat_eq};
    ghost use Rattle.std.specs.Cmp as Cmp;
    ghost use Rattle.std.specs.Cmp.{on_equiv};
    ghost use Rattle.std.specs.Cmp.Lexicographic.{pointwise, nat_list_eq_equiv};
    ghost use Rattle.nv_super.specs.Order.{fault_key};

    ghost eq = { λ a b. pointwise nat_eq (fault_key a) (fault_key b) };

    ghost laws = { Cmp.partial_equiv_from_equiv (on_equiv fault_key nat_list_eq_equiv) };

    fn eq(&self, other: &Fault) -> bool {
        self.key() == other.key()
    }
}

impl Eq for Fault {
    ghost use Rattle.std.specs.Cmp.{on_equiv};
    ghost use Rattle.std.specs.Cmp.Lexicographic.{nat_list_eq_equiv};
    ghost use Rattle.nv_super.specs.Order.{fault_key};

    ghost laws = { on_equiv fault_key nat_list_eq_equiv };
}

impl Ord for Fault {
    ghost use Rattle.std.specs.Ordering.{nat_cmp};
    ghost use Rattle.std.specs.Cmp.Lexicographic.{slice_cmp, on_texts, texts_ties};
    ghost use Rattle.nv_super.specs.Order.{fault_key};
    ghost use Rattle.std.proofs.Common.{refl};

    ghost cmp = { λ a b. slice_cmp nat_cmp (fault_key a) (fault_key b) };

    ghost total = { on_texts fault_key };

    ghost matches_partial_cmp = { λ a b. refl };

    ghost matches_eq = { λ a b. texts_ties (fault_key a) (fault_key b) };

    fn cmp(&self, other: &Fault) -> Ordering {
        self.key().cmp(&other.key())
    }
}

impl PartialOrd for Fault {
    ghost use Rattle.std.specs.Prelude.{Some};
    ghost use Rattle.std.specs.Ordering.{nat_cmp};
    ghost use Rattle.std.specs.Cmp.{partial_order_from_agreeing_total};
    ghost use Rattle.std.specs.Cmp.Lexicographic.{slice_cmp, on_texts, texts_ties};
    ghost use Rattle.nv_super.specs.Order.{fault_key};
    ghost use Rattle.std.proofs.Common.{refl};

    ghost partial_cmp = { λ a b. Some (slice_cmp nat_cmp (fault_key a) (fault_key b)) };

    ghost laws = { partial_order_from_agreeing_total (λ a b. slice_cmp nat_cmp (fault_key a) (fault_key b)) (on_texts fault_key) (λ a b. refl) (λ a b. texts_ties (fault_key a) (fault_key b)) };

    fn partial_cmp(&self, other: &Fault) -> Option<Ordering> {
        Some(self.cmp(other))
    }
}
