//! Paths as byte texts: whether a text is a path, and its names one after the other.
//!
//! No call takes memory.

ghost use Rattle.std.specs.Prelude.{◌≡◌, ◌<◌, ◌↔◌, ℕ, All, List, [], ◌∷◌, length, None, IsTrue, IsFalse};
ghost use Rattle.std.specs.List.{position, position_or_len};
ghost use Rattle.nv_tree.specs.Path.{IsPathName, spelled, IsPath, Says, is_slash, first_name, behind_name};
ghost use Rattle.nv_tree.specs.Names.{Spells};

use nv_entry::{has_bad_byte, is_dots};

const MOST_BYTES: usize = 4096;

const MOST_NAME_BYTES: usize = 255;

/// Whether the text is a path.
pub fn is_path(text: &[u8]) -> bool
    ensures some { IsTrue result → (names : List (List ℕ)) × IsPath text.now names }
    ensures none { IsFalse result → Says text.now None }
{
    if is_root(text) {
        return true;
    }
    !text.is_empty() && text.len() <= MOST_BYTES && are_names(text)
}

/// Whether the text is `/`.
fn is_root(text: &[u8]) -> bool
    ensures { IsTrue result ↔ (text.now ≡ 47 ∷ []) }
{
    match text {
        [byte] => *byte == b'/',
        _ => false,
    }
}

/// Whether a path can say this name.
pub fn is_path_name(name: &[u8]) -> bool
    ensures { IsTrue result ↔ IsPathName name.now }
{
    !name.is_empty() && name.len() <= MOST_NAME_BYTES && !has_bad_byte(name) && !is_dots(name)
}

/// The first name of a text of names, each behind a `/`, and the text of the others.
pub fn split_name(text: &[u8]) -> (&[u8], &[u8])
    requires { 0 < length text.now }
    ensures first { result.0.now ≡ first_name text.now }
    ensures others { result.1.now ≡ behind_name text.now }
    ensures names { (name : List ℕ) (names : List (List ℕ)) → All IsPathName (name ∷ names) → text.now ≡ spelled (name ∷ names) → (result.0.now ≡ name) × (result.1.now ≡ spelled names) }
{
    let text = &text[1..];
    text.split_at(name_length(text))
}

/// How many bytes stand before the next `/`.
fn name_length(bytes: &[u8]) -> usize
    ensures { result ≡ position_or_len is_slash bytes.now }
{
    first_slash(bytes).unwrap_or(bytes.len())
}

fn first_slash(bytes: &[u8]) -> Option<usize>
    ensures { result ≡ position is_slash bytes.now }
{
    bytes.iter().position(|byte| *byte == b'/')
}

/// Whether the text is names that a path can say, each behind a `/`.
fn are_names(text: &[u8]) -> bool
    ensures some { IsTrue result → (names : List (List ℕ)) × Spells text.now names }
    ensures none { IsFalse result → (names : List (List ℕ)) → Spells text.now names → ⊥ }
{
    let mut rest = text;
    while !rest.is_empty() {
        let (name, others) = split_name(rest);
        if rest[0] != b'/' || !is_path_name(name) {
            return false;
        }
        rest = others;
    }
    true
}
