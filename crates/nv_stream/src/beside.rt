//! The names of new files beside their places.

use std::fmt;

/// The most bytes of a place's own name in that of a new file beside it: a name has at most 255, with what stands after it.
const MOST_BYTES: usize = 247;

/// The path of a new file beside a place: that of the place, whose name is cut where it is too long, `.new-` and a number.
#[derive(Clone, Copy)]
pub struct Beside<'a> {
    pub path: &'a str,
    pub number: u32,
}

impl fmt::Display for Beside<'_> {
    fn fmt<W: fmt::Write>(&self, f: &mut fmt::Formatter<W>) -> fmt::Result {
        write!(f, "{}.new-{}", self.front(), self.number)
    }
}

impl<'a> Beside<'a> {
    /// The path, of whose last name only so much is kept as the new file's name has room for.
    pub fn front(&self) -> &'a str {
        let start = match self.path.rfind('/') {
            Some(slash) => slash.saturating_add(1),
            None => 0,
        };
        let end = (self.path).floor_char_boundary(start.saturating_add(MOST_BYTES));
        match self.path.split_at_checked(end) {
            Some((front, _)) => front,
            None => self.path,
        }
    }
}
