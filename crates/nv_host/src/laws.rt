//! A law of names.

ghost use Rattle.std.specs.Prelude.{◌≡◌, ℕ, List};
ghost use Rattle.std.specs.List.Sorted.{IsPermutation};
ghost use Rattle.nv_host.specs.Names.{ListsNames, names_listed};

/// In whatever order a directory lists its names, they are taken in one order.
pub fn names_have_one_order()
    ensures { (a b : List ℕ) (x y : List (List ℕ)) → IsPermutation (names_listed a) (names_listed b) → ListsNames a x → ListsNames b y → x ≡ y }
{}
