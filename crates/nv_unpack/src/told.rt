//! How the refusal of an item is told.

ghost use Rattle.std.specs.Prelude.{◌≡◌, ◌++◌, IfOk, OnOk, string_bytes};
ghost use Rattle.nv_text.specs.Names.{escaped};
ghost use Rattle.nv_untar.specs.Items.{item_of, joined};
ghost use Rattle.nv_unpack.specs.Told.{refused_item};

use nv_session::{CallRefusal, refused_call_text};
use nv_text::push_escaped;
use nv_untar::Item;
use std::alloc::{AllocError, Global};

/// The line of a refusal, and that of the path of its item. Errors: as `refused_call_text`.
pub(crate) fn refused_item_text(
    alloc: Global,
    item: Item<'_>,
    refusal: CallRefusal,
) -> Result<String, AllocError>
    ensures { IfOk result (λ text. string_bytes text ≡ refused_item (item_of item.entry).path refusal) }
{
    let mut text = refused_call_text(alloc, refusal)?;
    text.push_str("member ")?;
    push_joined(&mut text, item.prefix, item.path)?;
    text.push_str("\n")?;
    Ok(text)
}

// A path behind its prefix, with its escapes.
fn push_joined(text: &mut String, prefix: &[u8], path: &[u8]) -> Result<(), AllocError>
    ensures { OnOk result (string_bytes text.new ≡ string_bytes text.old ++ escaped (joined prefix.now path.now)) }
{
    if !prefix.is_empty() {
        push_escaped(text, prefix)?;
        push_escaped(text, b"/")?;
    }
    push_escaped(text, path)
}
