//! Where the path of an item leads.

ghost use Rattle.std.specs.Prelude.{◌≡◌, ◌++◌, OnOk, IfOk};
ghost use Rattle.std.specs.List.{position};
ghost use Rattle.nv_tree.specs.Path.{is_slash};
ghost use Rattle.nv_untar.specs.Items.{joined};
ghost use Rattle.nv_unpack.specs.Places.{says_nothing, part_text, parts_text, or_root, place};

use std::alloc::{AllocError, Global};

/// The text of the place to which a path behind its prefix leads below a base. Errors: `AllocError` where a growth was refused.
pub(crate) fn place(
    alloc: Global,
    base: &[u8],
    prefix: &[u8],
    path: &[u8],
) -> Result<Vec<u8>, AllocError>
    ensures { IfOk result (λ text. text.items ≡ place base.now (joined prefix.now path.now)) }
{
    let mut text = Vec::new(alloc);
    push_parts(&mut text, base)?;
    push_parts(&mut text, prefix)?;
    push_parts(&mut text, path)?;
    or_root(text)
}

fn or_root(mut text: Vec<u8>) -> Result<Vec<u8>, AllocError>
    ensures { IfOk result (λ whole. whole.items ≡ or_root text.items) }
{
    if text.is_empty() {
        text.push(b'/')?;
    }
    Ok(text)
}

// Adds the parts of a path.
fn push_parts(text: &mut Vec<u8>, path: &[u8]) -> Result<(), AllocError>
    ensures { OnOk result (text.new.items ≡ text.old.items ++ parts_text path.entry.now) }
{
    let mut left = path;
    while let Some(at) = first_slash(left) {
        push_part(text, &left[..at])?;
        left = &left[at + 1..];
    }
    push_part(text, left)
}

fn first_slash(path: &[u8]) -> Option<usize>
    ensures { result ≡ position is_slash path.now }
{
    path.iter().position(|byte| *byte == b'/')
}

fn push_part(text: &mut Vec<u8>, part: &[u8]) -> Result<(), AllocError>
    ensures { OnOk result (text.new.items ≡ text.old.items ++ part_text part.now) }
{
    if says_nothing(part) {
        return Ok(());
    }
    text.push(b'/')?;
    text.extend_from_slice(part)?;
    Ok(())
}

fn says_nothing(part: &[u8]) -> bool
    ensures { result ≡ says_nothing part.now }
{
    match part {
        [] => true,
        [byte] => *byte == b'.',
        _ => false,
    }
}
