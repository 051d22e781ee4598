//! Names read back from the text in which they are printed.

ghost use Rattle.std.specs.Prelude.{◌≡◌, ◌+◌, ◌*◌, ◌<◌, ℕ, List, length, IfOk, IfSome, IfNone, Some, SomeIff, option_map};
ghost use Rattle.std.specs.Char.{digit_value};
ghost use Rattle.nv_text.specs.Escapes.{SpellsHex, SpellsEscape, SpellsByte, BeginsWith, SpellsName, AreBytes};
ghost use Rattle.nv_text.specs.Names.{escaped};

use std::alloc::{AllocError, Global};

/// The name that a text with escapes spells. `\x` and two hexadecimal digits, of either case, stand for the byte of that
/// number, `\\` stands for a backslash, and every other byte for itself. So each name that is printed is read back.
///
/// Answers `None` where a backslash begins no escape. The error is a refused growth of the name.
pub fn unescaped(alloc: Global, text: &[u8]) -> Result<Option<Vec<u8>>, AllocError>
    // What is found is spelled so.
    ensures found { IfOk result (λ found. IfSome found (λ name. SpellsName text.now name.items)) }
    // What is spelled so is found, and no other name.
    ensures only { IfOk result (λ found. (name : List ℕ) → SpellsName text.now name → option_map (λ found. found.items) found ≡ Some name) }
    // A name is read back from the text in which it is printed.
    ensures printed { IfOk result (λ found. (name : List ℕ) → AreBytes name → text.now ≡ escaped name → option_map (λ found. found.items) found ≡ Some name) }
{
    let mut name = Vec::new(alloc);
    let mut rest = text;
    while !rest.is_empty() {
        let Some((byte, behind)) = first_byte(rest) else {
            return Ok(None);
        };
        name.push(byte)?;
        rest = behind;
    }
    Ok(Some(name))
}

/// The byte that a text spells first, and the text behind its spelling.
fn first_byte(text: &[u8]) -> Option<(u8, &[u8])>
    ensures found { IfSome result (λ first. BeginsWith SpellsByte text.now first.0 first.1.now) }
    ensures shorter { IfSome result (λ first. length first.1.now < length text.now) }
    ensures none { IfNone result ((byte : ℕ) (rest : List ℕ) → BeginsWith SpellsByte text.now byte rest → ⊥) }
{
    let [first, behind @ ..] = text else {
        return None;
    };
    if *first == b'\\' {
        first_escape(behind)
    } else {
        Some((*first, behind))
    }
}

/// The byte of the escape whose backslash stands before a text, and the text behind the escape.
fn first_escape(text: &[u8]) -> Option<(u8, &[u8])>
    ensures found { IfSome result (λ first. BeginsWith SpellsEscape text.now first.0 first.1.now) }
    ensures shorter { IfSome result (λ first. length first.1.now < length text.now) }
    ensures none { IfNone result ((byte : ℕ) (rest : List ℕ) → BeginsWith SpellsEscape text.now byte rest → ⊥) }
{
    let [kind, behind @ ..] = text else {
        return None;
    };
    match *kind {
        b'\\' => Some((b'\\', behind)),
        b'x' => first_hex(behind),
        _ => None,
    }
}

/// The byte of the two hexadecimal digits that a text begins with, and the text behind them.
fn first_hex(text: &[u8]) -> Option<(u8, &[u8])>
    ensures found { IfSome result (λ first. BeginsWith SpellsHex text.now first.0 first.1.now) }
    ensures shorter { IfSome result (λ first. length first.1.now < length text.now) }
    ensures none { IfNone result ((byte : ℕ) (rest : List ℕ) → BeginsWith SpellsHex text.now byte rest → ⊥) }
{
    let [high, low, behind @ ..] = text else {
        return None;
    };
    Some((hex_value(*high, *low)?, behind))
}

/// The number of two hexadecimal digits, each of either case.
fn hex_value(high: u8, low: u8) -> Option<u8>
    ensures { SomeIff result ((digit_value high < 16) × (digit_value low < 16)) (16 * digit_value high + digit_value low) }
{
    let high = char::from(high).to_digit(16)?;
    let low = char::from(low).to_digit(16)?;
    Some((16 * high + low) as u8)
}

/// No text spells two names.
pub fn one_name()
    ensures { (text a b : List ℕ) → SpellsName text a → SpellsName text b → a ≡ b }
{}
