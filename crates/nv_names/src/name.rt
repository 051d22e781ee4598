//! A name that lies in the value itself, so that a list with room can hold it with no memory of its own.

ghost use Rattle.std.specs.Prelude.{◌≡◌, ◌≤◌, length};

use arrayvec::ArrayVec;
use std::marker::Model;

/// The most bytes of a name.
const LONGEST: usize = 255;

/// The bytes of a name.
#[derive(Drop)]
pub(crate) struct Name {
    bytes: ArrayVec<u8, LONGEST>,
}

impl Model for Name {
    ghost use Rattle.std.specs.Prelude.{List, ℕ};

    ghost Value = { List ℕ };

    ghost view = { λ a. a.bytes.items };
}

impl Name {
    /// A copy of these bytes.
    pub(crate) fn new(bytes: &[u8]) -> Name
        requires { length bytes.now ≤ 255 }
        ensures { result ≡ bytes.now }
    {
        let mut held = ArrayVec::new();
        let _fits = held.try_extend_from_slice(bytes);
        Name { bytes: held }
    }

    pub(crate) fn as_bytes(&self) -> &[u8]
        ensures bytes { result.now ≡ self.now }
        ensures short { length result.now ≤ 255 }
    {
        self.bytes.as_slice()
    }
}
