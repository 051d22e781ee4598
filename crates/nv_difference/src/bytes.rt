//! Where the bytes of two files part.

ghost use Rattle.std.specs.Prelude.{◌≡◌, ◌+◌, ◌<◌, ◌^◌, MatchOption, Some, length};
ghost use Rattle.nv_tree.specs.Tree.{Node};
ghost use Rattle.nv_difference.specs.Bytes.{AreSameBelow, AreSameFrom, IsFileOf, PartBelow, PartFrom, PartWithin};

use crate::contents::Contents;
use nv_super::Kind;

/// How many bytes are compared at once.
const PIECE: usize = 4096;

/// The first place below an end where the bytes of two files differ.
pub(crate) fn parting<S: Contents, T: Contents>(
    first: &S,
    second: &T,
    a: u64,
    b: u64,
    end: u64,
) -> Option<u64>
    requires first { IsFileOf (S.tree first.now) a end }
    requires second { IsFileOf (T.tree second.now) b end }
    ensures { (x y : Node) → S.tree first.now a ≡ Some x → T.tree second.now b ≡ Some y → MatchOption result (AreSameBelow x y end) (PartBelow x y end) }
{
    let mut left = [0; PIECE];
    let mut right = [0; PIECE];
    let mut at = 0;
    while at < end {
        let count = (end - at).min(PIECE as u64) as usize;
        let (left, right) = (&mut left[..count], &mut right[..count]);
        let place = parting_in(first, second, a, b, at, left, right);
        if place.is_some() {
            return place;
        }
        at += count as u64;
    }
    None
}

// The same of a piece from a place on, by two buffers as long as the piece.
fn parting_in<S: Contents, T: Contents>(
    first: &S,
    second: &T,
    a: u64,
    b: u64,
    at: u64,
    left: &mut [u8],
    right: &mut [u8],
) -> Option<u64>
    requires first { IsFileOf (S.tree first.now) a (at + length left.old) }
    requires second { IsFileOf (T.tree second.now) b (at + length left.old) }
    requires long { length left.old ≡ length right.old }
    requires small { at + length left.old < 2 ^ 64 }
    ensures { (x y : Node) → S.tree first.now a ≡ Some x → T.tree second.now b ≡ Some y
        → MatchOption result (AreSameFrom x y at (at + length left.old)) (PartFrom x y at (at + length left.old)) }
{
    first.read(a, at, left);
    second.read(b, at, right);
    match first_apart(left, right) {
        Some(place) => Some(at + place as u64),
        None => None,
    }
}

// The first place where two pieces as long as each other differ.
fn first_apart(a: &[u8], b: &[u8]) -> Option<usize>
    requires { length a.now ≡ length b.now }
    ensures { MatchOption result (a.now ≡ b.now) (PartWithin a.now b.now) }
{
    if a == b {
        return None;
    }
    for place in 0..a.len() {
        if a[place] != b[place] {
            return Some(place);
        }
    }
    None
}
