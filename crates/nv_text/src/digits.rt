//! The hexadecimal digits of bytes, put in a place that is there for them.

ghost use Rattle.std.specs.Prelude.{◌≡◌, ◌<◌, ◌*◌, [], ◌∷◌, length, false, flat_map};
ghost use Rattle.std.specs.Fmt.{digits};
ghost use Rattle.nv_text.specs.Names.{hex_byte};

/// Puts two lower-case hexadecimal digits for each byte into a place that has room for just these.
pub fn put_digits(bytes: &[u8], digits: &mut [u8])
    requires { length digits.old ≡ 2 * length bytes.now }
    ensures { digits.new ≡ flat_map hex_byte bytes.now }
{
    for (index, byte) in bytes.iter().enumerate() {
        digits[2 * index] = digit(*byte / 16);
        digits[2 * index + 1] = digit(*byte % 16);
    }
}

// The digit of a number.
fn digit(number: u8) -> u8
    requires { number < 16 }
    ensures { digits 16 false number ≡ result ∷ [] }
{
    if number < 10 {
        b'0' + number
    } else {
        b'a' + (number - 10)
    }
}
