//! What a row says once a name came or went, or its inode counts another number of links. Nothing is stored here, and no
//! memory is taken.

ghost use Rattle.std.specs.Prelude.{◌<◌, ◌≤◌};
ghost use Rattle.nv_names.specs.Names.{EachOnce, IsName};
ghost use Rattle.nv_steps.specs.MoreNames.{AddsName, CountsLinks};
ghost use Rattle.nv_steps.specs.Unlinks.{DropsName};

use nv_scan::Row;

/// Puts a name of an inode, whose entry stands at a place, and the time into a directory's row, which has room for it.
pub(crate) fn add_name(directory: &mut Row, name: &[u8], inode: u64, place: u64, time: u64)
    requires room { 0 < directory.old.names.room }
    requires name { IsName name.now }
    ensures row { AddsName directory.old name.now inode place time directory.new }
    ensures once { EachOnce directory.new.names }
{
    directory.names.add(name, inode, place);
    directory.numbers.time = time;
    // A name index says of itself that it has no name twice.
    let _names = directory.names.len();
}

/// Takes a name out of a directory's row, and puts the time in.
pub(crate) fn remove_name(directory: &mut Row, name: &[u8], time: u64)
    ensures row { DropsName directory.old name.now time directory.new }
    ensures room { directory.old.names.room ≤ directory.new.names.room }
    ensures once { EachOnce directory.new.names }
{
    directory.names.remove(name);
    directory.numbers.time = time;
    // A name index says of itself that it has no name twice.
    let _names = directory.names.len();
}

/// Puts a link count and the time into a file's row.
pub(crate) fn set_links(file: &mut Row, links: u32, time: u64)
    ensures { CountsLinks file.old links time file.new }
{
    file.numbers.links = links;
    file.numbers.time = time;
}
