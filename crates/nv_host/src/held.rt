//! The bytes of the files of a tree.

ghost use Rattle.std.specs.Prelude.{◌≡◌, ◌≤◌, length, map, IfOk};

use crate::errors::{HostError, Misfit};
use crate::found::HostKind;
use crate::walking::{HostEntry, misfit_at};
use nv_stream::{Contents, Opened, Unread, contents_of, open_at};
use std::rt::Files;

/// How many bytes of files are held at most: as many as a region has.
const MOST_BYTES: usize = 1 << 30;

/// An entry of a tree, with the path of the first name of its file where it is a further one, and else with the bytes of a file.
#[derive(Drop)]
pub struct Held<'a> {
    pub entry: &'a HostEntry,
    pub link: Option<&'a str>,
    pub bytes: Vec<u8>,
}

/// The entries with their links, and with the bytes of each file, which are read once for all of its names.
///
/// Errors: `At` the first place that can't be read, `TooLarge` with more than 1,073,741,824 bytes, and `Memory`.
pub fn hold_files<'a, H: Files + AllocGlobal>(
    rt: &H,
    entries: &'a [HostEntry],
    links: &[Option<&'a str>],
) -> Result<Vec<Held<'a>>, HostError>
    requires { length links.now ≡ length entries.now }
    ensures entries { IfOk result (λ held. map (λ h. h.entry.now) held.items ≡ entries.entry.now) }
    ensures links { IfOk result (λ held. map (λ h. h.link) held.items ≡ links.now) }
{
    let alloc = rt.alloc();
    let mut room = MOST_BYTES;
    let mut held = Vec::new(alloc);
    for at in 0..entries.len() {
        let entry = &entries[at];
        let link = links[at];
        let bytes = if entry.found.kind == HostKind::File && link.is_none() {
            read_file(rt, entry, room)?
        } else {
            Vec::new(alloc)
        };
        room -= bytes.len();
        held.push(Held { entry, link, bytes })?;
    }
    Ok(held)
}

// The bytes of a file, where there are no more than so many.
fn read_file<H: Files + AllocGlobal>(
    rt: &H,
    entry: &HostEntry,
    room: usize,
) -> Result<Vec<u8>, HostError>
    requires { room ≤ MOST_BYTES }
    ensures { IfOk result (λ bytes. length bytes.items ≤ room) }
{
    let alloc = rt.alloc();
    let place = entry.place.as_str();
    let opened = match open_at(rt, place) {
        Ok(opened) => opened,
        Err(error) => return Err(misfit_at(alloc, place, Misfit::System(error))),
    };
    if !is_found(&opened, entry) {
        return Err(misfit_at(alloc, place, Misfit::Replaced));
    }
    match contents_of(alloc, opened, room) {
        Ok(Contents::Whole(bytes)) => Ok(bytes),
        Ok(Contents::Longer(_)) => Err(HostError::TooLarge),
        Err(Unread::Unreadable(error)) => { Err(misfit_at(alloc, place, Misfit::System(error))) }
        Err(Unread::Memory) => Err(HostError::Memory),
    }
}

// Whether it is the file that the walk found.
fn is_found<F: Drop>(opened: &Opened<F>, entry: &HostEntry) -> bool {
    opened.stamp.device == entry.found.device && opened.stamp.inode == entry.found.inode
}
