//! The name in an entry.

ghost use Rattle.std.specs.Prelude.{◌≡◌, ◌<◌, ◌≤◌, ◌↔◌, length, nat_eq, IsSome, IfSome};
ghost use Rattle.std.specs.Cmp.{nat_eq_equiv, partial_equiv_from_equiv};
ghost use Rattle.std.specs.Cmp.Lexicographic.{pointwise, lists_per, lists_equiv};
ghost use Rattle.nv_entry.specs.Name.{IsName};

use arrayvec::ArrayVec;
use std::marker::Model;

/// A name of 1 to 255 bytes, kept in place.
#[derive(Drop)]
pub struct FileName {
    bytes: ArrayVec<u8, 255>,
}

impl Model for FileName {
    ghost use Rattle.std.specs.Prelude.{List, ℕ};
    ghost use Rattle.nv_entry.specs.Name.{IsName};

    ghost Value = { List ℕ };

    ghost view = { λ a. a.bytes.items };

    ghost invariant = { λ a. IsName a.bytes.items };
}

impl FileName {
    /// The name of these bytes, if there are 1 to 255.
    pub fn new(bytes: &[u8]) -> Option<FileName>
        ensures fits { IsSome result ↔ (0 < length bytes.now) × (length bytes.now ≤ 255) }
        ensures name { IfSome result (λ name. name ≡ bytes.now) }
    {
        if bytes.is_empty() {
            return None;
        }
        let mut name: ArrayVec<u8, 255> = ArrayVec::new();
        name.try_extend_from_slice(bytes).ok()?;
        Some(FileName { bytes: name })
    }

    /// The name of bytes that are already in place.
    pub(crate) fn from_bytes(bytes: ArrayVec<u8, 255>) -> FileName
        requires { IsName bytes.items }
        ensures { result ≡ bytes.items }
    {
        FileName { bytes }
    }

    /// Its bytes, 1 to 255.
    pub fn as_slice(&self) -> &[u8]
        ensures value { result.now ≡ self.now }
        ensures is_name { IsName self.now }
    {
        self.bytes.as_slice()
    }
}

impl PartialEq for FileName {
    ghost eq = { pointwise nat_eq };

    ghost laws = { lists_per (partial_equiv_from_equiv nat_eq_equiv) };

    fn eq(&self, other: &Self) -> bool {
        self.as_slice() == other.as_slice()
    }
}

impl Eq for FileName {
    ghost laws = { lists_equiv nat_eq_equiv };
}
