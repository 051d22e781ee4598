//! A number in decimal, below 2^64: the only form in which a script writes one.

ghost use Rattle.std.specs.Prelude.{◌≡◌, ℕ, IfSome, Some};
ghost use Rattle.std.specs.Char.{is_ascii_digit};
ghost use Rattle.std.specs.List.{list_all};
ghost use Rattle.nv_line.specs.Reading.{is_numeral, number_of};
ghost use Rattle.nv_line.specs.Spelling.{Writes};

use std::str;

fn has_digits_only(word: &[u8]) -> bool
    ensures { result ≡ list_all is_ascii_digit word.now }
{
    word.iter().all(|byte| byte.is_ascii_digit())
}

#[tactic(auto, unfolding(crate::specs::Reading::is_numeral))]
pub(crate) fn is_numeral(word: &[u8]) -> bool
    ensures { result ≡ is_numeral word.now }
{
    has_digits_only(word) && (word.len() == 1 || (word.len() > 1 && word[0] != b'0'))
}

/// `number`, stated by the value of the digits.
#[tactic(auto, using(crate::proofs::Numbers::number_of_not))]
pub(crate) fn read_number(word: &[u8]) -> Option<u64>
    ensures { result ≡ number_of word.now }
{
    if !is_numeral(word) {
        return None;
    }
    str::from_utf8(word).ok()?.parse().ok()
}

/// The number that a word writes in decimal, with no sign and no leading zero, if it is below 2^64.
pub fn number(word: &[u8]) -> Option<u64>
    // The word is the number's decimal.
    ensures found { IfSome result (Writes word.now) }
    // Such a word is read, and as no other number.
    ensures only { (n : ℕ) → Writes word.now n → result ≡ Some n }
{
    read_number(word)
}
