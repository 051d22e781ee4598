//! Whether what an entry says can be.
//!
//! Tests an entry by itself, against its inode's kind and the superblock's numbers. What it says together with other
//! entries, as two adds of one name, is no matter of this file.

ghost use Rattle.std.specs.Prelude.{◌≡◌, ◌+◌, ◌*◌, ◌<◌, is_none, if◌then◌else◌, Some, None};
ghost use Rattle.nv_super.specs.Layout.{HasAreas};
ghost use Rattle.nv_entry.specs.Light.{bare, with_name};
ghost use Rattle.nv_entry.specs.declared.entry.NameEntry.{NameEntry as NameValue};
ghost use Rattle.nv_entry.specs.Content.{is_wrong_kind, is_out_of_range, is_write_out_of_range, is_attr_out_of_range, is_name_out_of_range, is_links_out_of_range, is_dots, has_bad_byte};
ghost use Rattle.nv_entry.specs.Content.{content_fault, is_good};

use crate::entry::{AttrEntry, Entry, LinksEntry, WriteEntry};
use crate::light::{LightEntry, LightName};
use nv_super::{BLOCK_SIZE, Kind, MOST_FILE_BYTES, MOST_FILE_PAGES, MOST_LINKS, Super};

const MOST_MODE: u32 = 4095;

/// What is wrong with what an entry says.
#[derive(Clone, Copy, PartialEq, Eq)]
pub enum ContentFault {
    /// A number or a name that can't be.
    OutOfRange,
    /// An entry that an inode of this kind can't have.
    WrongKind,
}

/// The fault in what an entry says, or `None` where the entry is good. The wrong kind is tested first.
pub fn check_content(sup: &Super, kind: Kind, entry: &Entry) -> Option<ContentFault>
    requires { HasAreas sup.now }
    ensures fault { result ≡ content_fault sup.now kind entry.now }
    ensures good { is_none result ≡ is_good sup.now kind entry.now }
{
    if is_wrong_kind(entry, kind) {
        Some(ContentFault::WrongKind)
    } else if is_out_of_range(sup, kind, entry) {
        Some(ContentFault::OutOfRange)
    } else {
        None
    }
}

/// The fault in what a name entry of this name says, or `None` where it is good.
pub fn check_name(sup: &Super, kind: Kind, e: &LightName, name: &[u8]) -> Option<ContentFault>
    requires { HasAreas sup.now }
    ensures fault { result ≡ content_fault sup.now kind (Entry.Name (with_name e.now name.now)) }
    ensures good { is_none result ≡ is_good sup.now kind (Entry.Name (with_name e.now name.now)) }
{
    match kind {
        Kind::File => Some(ContentFault::WrongKind),
        Kind::Directory => out_of_range_if(is_name_out_of_range(sup, e.inode, name)),
    }
}

/// The fault in what a write entry says, or `None` where it is good.
pub fn check_write(sup: &Super, kind: Kind, e: &WriteEntry) -> Option<ContentFault>
    requires { HasAreas sup.now }
    ensures fault { result ≡ content_fault sup.now kind (Entry.Write e.now) }
    ensures good { is_none result ≡ is_good sup.now kind (Entry.Write e.now) }
{
    match kind {
        Kind::File => out_of_range_if(is_write_out_of_range(sup, e)),
        Kind::Directory => Some(ContentFault::WrongKind),
    }
}

/// The fault in what a light entry says by itself, or `None` where it is good. A name entry is not looked at: it counts
/// as good here, in a file too.
pub fn check_bare(sup: &Super, kind: Kind, entry: &LightEntry) -> Option<ContentFault>
    requires { HasAreas sup.now }
    ensures fault { result ≡ content_fault sup.now kind (bare entry.now) }
    ensures good { is_none result ≡ is_good sup.now kind (bare entry.now) }
{
    match (entry, kind) {
        (LightEntry::Links(_), Kind::Directory) => Some(ContentFault::WrongKind),
        (LightEntry::Write(e), _) => check_write(sup, kind, e),
        (LightEntry::Links(e), Kind::File) => out_of_range_if(is_links_out_of_range(e)),
        (LightEntry::Attr(e), _) => out_of_range_if(is_attr_out_of_range(kind, e)),
        (LightEntry::NextPage, _) => None,
        (LightEntry::Name(_), _) => None,
    }
}

fn out_of_range_if(holds: bool) -> Option<ContentFault>
    ensures { result ≡ if holds then Some ContentFault.OutOfRange else None }
{
    holds.then_some(ContentFault::OutOfRange)
}

/// Whether it is a write or links entry of a directory, or a name entry of a file.
pub fn is_wrong_kind(entry: &Entry, kind: Kind) -> bool
    ensures { result ≡ is_wrong_kind entry.now kind }
{
    match (entry, kind) {
        (Entry::Write(_), Kind::Directory) => true,
        (Entry::Links(_), Kind::Directory) => true,
        (Entry::Name(_), Kind::File) => true,
        _ => false,
    }
}

/// Whether a number or the name that it says can't be in an inode of this kind.
pub fn is_out_of_range(sup: &Super, kind: Kind, entry: &Entry) -> bool
    requires { HasAreas sup.now }
    ensures { result ≡ is_out_of_range sup.now kind entry.now }
{
    match entry {
        Entry::NextPage => false,
        Entry::Write(e) => is_write_out_of_range(sup, e),
        Entry::Attr(e) => is_attr_out_of_range(kind, e),
        Entry::Name(e) => is_name_out_of_range(sup, e.inode, e.name.as_slice()),
        Entry::Links(e) => is_links_out_of_range(e),
    }
}

fn is_write_out_of_range(sup: &Super, e: &WriteEntry) -> bool
    requires { HasAreas sup.now }
    ensures { result ≡ is_write_out_of_range sup.now e.now }
{
    let count = e.count as u64;
    // Each sum is made where both its parts are small, so none wraps. A last page that begins below a size of at most
    // `MOST_FILE_BYTES` is below `MOST_FILE_PAGES`, so that needs no test of its own.
    count == 0
        || e.offset > MOST_FILE_PAGES
        || e.block < sup.system_blocks()
        || e.block > sup.blocks
        || e.block + count > sup.blocks
        || e.size > MOST_FILE_BYTES
        || (e.offset + count - 1) * BLOCK_SIZE >= e.size
}

fn is_attr_out_of_range(kind: Kind, e: &AttrEntry) -> bool
    ensures { result ≡ is_attr_out_of_range kind e.now }
{
    e.mode > MOST_MODE
        || match kind {
            Kind::File => e.size > MOST_FILE_BYTES,
            Kind::Directory => e.size != 0,
        }
}

/// Whether no path can say the name, or no name may say the number.
fn is_name_out_of_range(sup: &Super, inode: u64, name: &[u8]) -> bool
    requires { HasAreas sup.now }
    ensures { (e : NameValue) → e.inode ≡ inode → e.name ≡ name.now → result ≡ is_name_out_of_range sup.now e }
{
    has_bad_byte(name) || is_dots(name) || !sup.is_name_number(inode)
}

/// Whether it has a byte 0 or a `/`.
pub fn has_bad_byte(name: &[u8]) -> bool
    ensures { result ≡ has_bad_byte name.now }
{
    name.iter().any(|byte| *byte == 0 || *byte == b'/')
}

/// Whether it is `.` or `..`.
pub fn is_dots(name: &[u8]) -> bool
    ensures { result ≡ is_dots name.now }
{
    match name {
        [first] => *first == b'.',
        [first, second] => *first == b'.' && *second == b'.',
        _ => false,
    }
}

fn is_links_out_of_range(e: &LinksEntry) -> bool
    ensures { result ≡ is_links_out_of_range e.now }
{
    e.count == 0 || e.count > MOST_LINKS
}
