//! Paths in an image as a user writes them.

ghost use Rattle.std.specs.Prelude.{IfOk};
ghost use Rattle.nv_text.specs.Escapes.{SpellsName};

use nv_image_files::Failure;
use nv_text::unescaped;
use std::alloc::Global;

/// The path that a word spells: `\x` and two hexadecimal digits stand for the byte of that number, `\\` for a backslash, and
/// each other byte for itself.
///
/// Errors: `BadEscape` where a backslash begins no escape, and want of memory.
pub(crate) fn path_of<'a>(alloc: Global, word: &'a str) -> Result<Vec<u8>, Failure<'a>>
    ensures { IfOk result (λ path. SpellsName word.entry.now path.items) }
{
    match unescaped(alloc, word.as_bytes())? {
        Some(path) => Ok(path),
        None => Err(Failure::BadEscape(word)),
    }
}
