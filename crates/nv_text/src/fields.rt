//! Numbers in a line.

ghost use Rattle.std.specs.Prelude.{◌≡◌, ◌++◌, OnOk, string_bytes, decimal};

use itoa::Buffer;
use std::alloc::AllocError;

/// A label, and a number in decimal. A report can have half a million of them, which `write!` takes longer for.
pub(crate) fn push_field(out: &mut String, label: &str, number: u64) -> Result<(), AllocError>
    ensures { OnOk result (string_bytes out.new ≡ string_bytes out.old ++ label.now ++ decimal number) }
{
    let mut buffer = Buffer::new();
    out.push_str(label)?;
    out.push_str(buffer.format(number))
}
