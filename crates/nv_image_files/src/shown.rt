//! Words of a user as they are shown again: control characters, which a terminal would obey, as escapes.

ghost use Rattle.std.specs.Prelude.{◌≡◌};
ghost use Rattle.nv_image_files.specs.Shown.{may_have_controls, shown_text};

use nv_stream::Beside;
use std::fmt;

/// A path or another word, in which each byte of a control character is shown as `\x` and two hexadecimal digits.
#[derive(Clone, Copy)]
pub struct Shown<'a>(pub &'a str);

impl fmt::Display for Shown<'_> {
    ghost output = { λ shown. shown_text shown.0.now };

    fn fmt<W: fmt::Write>(&self, f: &mut fmt::Formatter<W>) -> fmt::Result {
        if may_have_controls(self.0) {
            self.write_escaped(f)
        } else {
            f.write_str(self.0)
        }
    }
}

// Whether a byte is that of a control character, or may be the first of one.
fn may_have_controls(text: &str) -> bool
    ensures { result ≡ may_have_controls text.now }
{
    text.as_bytes()
        .iter()
        .any(|byte| *byte < 32 || *byte == 127 || *byte == 194)
}

impl Shown<'_> {
    fn write_escaped<W: fmt::Write>(&self, f: &mut fmt::Formatter<W>) -> fmt::Result {
        for letter in self.0.chars() {
            let code = letter as u32;
            if code < 32 || code == 127 {
                write!(f, "\\x{code:02x}")?;
            } else if 128 <= code && code < 160 {
                // Two bytes, of which the second is the character's number.
                write!(f, "\\xc2\\x{code:02x}")?;
            } else {
                f.write_char(letter)?;
            }
        }
        Ok(())
    }
}

/// The path of a new file beside a place, shown in the same way.
#[derive(Clone, Copy)]
pub struct ShownBeside<'a>(pub Beside<'a>);

impl fmt::Display for ShownBeside<'_> {
    fn fmt<W: fmt::Write>(&self, f: &mut fmt::Formatter<W>) -> fmt::Result {
        write!(f, "{}.new-{}", Shown(self.0.front()), self.0.number)
    }
}
