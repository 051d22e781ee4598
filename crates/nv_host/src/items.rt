//! The items of a tree of the host.

ghost use Rattle.std.specs.Prelude.{◌≡◌, map, IfOk};
ghost use Rattle.nv_untar.specs.Items.{item_of};
ghost use Rattle.nv_host.specs.Items.{item_said, kind_said};
ghost use Rattle.nv_host.specs.Links.{path_of};

use crate::found::HostKind;
use crate::held::Held;
use nv_untar::{Item, ItemKind};
use std::alloc::{AllocError, Global};

/// The items of entries, in their order: at this time or, without one, each at its own. Errors: `AllocError` where a growth was
/// refused.
pub fn items_of<'a>(
    alloc: Global,
    held: &'a [Held<'a>],
    time: Option<u64>,
) -> Result<Vec<Item<'a>>, AllocError>
    ensures { IfOk result (λ items. map item_of items.items ≡ map (item_said time) held.entry.now) }
{
    let mut items = Vec::new(alloc);
    for one in held {
        items.push(item_of(one, time))?;
    }
    Ok(items)
}

fn item_of<'a>(held: &'a Held<'a>, time: Option<u64>) -> Item<'a>
    ensures { item_of result ≡ item_said time held.entry.now }
{
    let found = &held.entry.found;
    Item {
        prefix: b"",
        path: held.entry.path.as_bytes(),
        kind: kind_of(held),
        mode: found.mode,
        owner: found.owner,
        group: found.group,
        time: time.unwrap_or(found.time),
        link: held.link.unwrap_or("").as_bytes(),
        bytes: &held.bytes,
    }
}

fn kind_of(held: &Held<'_>) -> ItemKind
    ensures { result ≡ kind_said (path_of held.now.link) held.now.entry.now.found.kind }
{
    match (held.link, held.entry.found.kind) {
        (Some(_), _) => ItemKind::Link,
        (None, HostKind::File) => ItemKind::File,
        (None, HostKind::Directory) => ItemKind::Directory,
    }
}
