//! Paths of what stands in a tree of the host.

ghost use Rattle.std.specs.Prelude.{◌≡◌, ◌++◌, ◌∷◌, [], IfOk, string_bytes};
ghost use Rattle.nv_host.specs.Places.{ends_with_slash, with_slash};

use std::alloc::{AllocError, Global};

/// The path of a name in a directory.
pub(crate) fn below(alloc: Global, folder: &str, name: &str) -> Result<String, AllocError>
    ensures { IfOk result (λ path. string_bytes path ≡ with_slash folder.now ++ name.now) }
{
    let mut path = with_slash(alloc, folder)?;
    path.push_str(name)?;
    Ok(path)
}

/// The path of a directory, which ends with a slash: the system follows a link that stands there.
pub(crate) fn with_slash(alloc: Global, folder: &str) -> Result<String, AllocError>
    ensures { IfOk result (λ path. string_bytes path ≡ with_slash folder.now) }
{
    let mut path = String::from_str(alloc, folder)?;
    if !ends_with_slash(folder) {
        path.push_str("/")?;
    }
    Ok(path)
}

fn ends_with_slash(path: &str) -> bool
    ensures { result ≡ ends_with_slash path.now }
{
    let bytes = path.as_bytes();
    !bytes.is_empty() && bytes[bytes.len() - 1] == b'/'
}
