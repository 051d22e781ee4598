//! The keys of a bucket: a name's bytes are the digits of a number. Each of them counts, since 257 is odd.

ghost use Rattle.std.specs.Prelude.{◌≡◌, ◌*◌, ◌/◌, length, drop};
ghost use Rattle.std.specs.List.{fold};
ghost use Rattle.nv_names.specs.Keys.{with_digit, key_of};

/// What a digit is worth more than the one to its right.
const BASE: u64 = 257;

/// What a digit is worth more than the fourth to its right.
const BASE_OF_FOUR: u64 = BASE * BASE * BASE * BASE;

/// The key of a name.
pub(crate) fn key_of(name: &[u8]) -> u64
    ensures { result ≡ key_of name.now }
{
    let fours = name.len() / 4 * 4;
    key_from(key_of_fours(name), &name[fours..])
}

/// The key of a name's first bytes, as many as make fours: each number waits for the one before it, so four digits at a
/// time are quicker than one.
fn key_of_fours(name: &[u8]) -> u64
    ensures { fold with_digit result (drop (length name.now / 4 * 4) name.now) ≡ key_of name.now }
{
    let mut key: u64 = 0;
    for four in 0..name.len() / 4 {
        let at = 4 * four;
        key = with_four(key, name[at], name[at + 1], name[at + 2], name[at + 3]);
    }
    key
}

/// A number with a digit more for each of these bytes.
fn key_from(number: u64, bytes: &[u8]) -> u64
    ensures { result ≡ fold with_digit number bytes.now }
{
    let mut key = number;
    for byte in bytes {
        key = with_digit(key, *byte);
    }
    key
}

/// A number with one more digit.
fn with_digit(number: u64, byte: u8) -> u64
    ensures { result ≡ with_digit number byte }
{
    number.wrapping_mul(BASE).wrapping_add(byte as u64)
}

/// A number with four more digits.
fn with_four(number: u64, one: u8, two: u8, three: u8, four: u8) -> u64
    ensures { result ≡ with_digit (with_digit (with_digit (with_digit number one) two) three) four }
{
    let digits = ((one as u64 * BASE + two as u64) * BASE + three as u64) * BASE + four as u64;
    number.wrapping_mul(BASE_OF_FOUR).wrapping_add(digits)
}
