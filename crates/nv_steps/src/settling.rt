//! What a row says once the log of its inode has grown. Nothing is stored here, and no memory is taken.

ghost use Rattle.std.specs.Prelude.{◌≡◌, ◌+◌, ◌++◌, length};
ghost use Rattle.smallvec.specs.SmallVec.{HasRoomFor};
ghost use Rattle.nv_steps.specs.Grown.{HasGrown};

use nv_entry::AttrEntry;
use nv_scan::{LogPages, Numbers, Row};

/// Puts the new pages and the new tail of its log into a row, which has room for them.
pub(crate) fn settle_log(row: &mut Row, fresh: &[u64], end: u64)
    requires { HasRoomFor row.old.pages (length fresh.now) }
    ensures { HasGrown row.old fresh.now end row.new }
{
    push_all(&mut row.pages, fresh);
    row.tail = end;
}

/// Puts pages behind those of a log, where there is room for them.
fn push_all(pages: &mut LogPages, more: &[u64])
    requires { HasRoomFor pages.old (length more.now) }
    ensures { pages.new.items ≡ pages.old.items ++ more.now }
{
    for page in more {
        pages.push_reserved(*page);
    }
}

/// The numbers with what an attributes entry says.
pub(crate) fn numbers_with(numbers: Numbers, attributes: AttrEntry) -> Numbers
    ensures { result ≡ record { size = attributes.size; mode = attributes.mode; owner = attributes.owner; group = attributes.group; links = numbers.links; time = attributes.time } }
{
    Numbers {
        size: attributes.size,
        mode: attributes.mode,
        owner: attributes.owner,
        group: attributes.group,
        links: numbers.links,
        time: attributes.time,
    }
}
