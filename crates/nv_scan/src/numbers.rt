//! The numbers of an inode, by the last entry that gives each.

ghost use Rattle.std.specs.Prelude.{◌≡◌, unwrap_or};
ghost use Rattle.nv_scan.specs.State.{says_size, says_mode, says_owner, says_group, says_links, says_time};
ghost use Rattle.nv_scan.specs.Light.{bare_placed};

use nv_entry::{LightEntry, WriteEntry};
use nv_logpage::LightPlaced;

/// An inode's size in bytes, mode, owner, group, link count and time.
#[derive(Clone, Copy, Debug, PartialEq, Eq)]
pub struct Numbers {
    pub size: u64,
    pub mode: u32,
    pub owner: u32,
    pub group: u32,
    pub links: u32,
    pub time: u64,
}

impl Numbers {
    /// The numbers of an inode with no entry: one link, the time of creation, and zeros.
    pub fn new(created: u64) -> Numbers
        ensures { result ≡ record { size = 0; mode = 0; owner = 0; group = 0; links = 1; time = created } }
    {
        Numbers {
            size: 0,
            mode: 0,
            owner: 0,
            group: 0,
            links: 1,
            time: created,
        }
    }

    /// Takes what an entry says by itself. One with a name changes nothing.
    pub fn apply(&mut self, placed: &LightPlaced)
        ensures size { self.new.size ≡ unwrap_or (says_size (bare_placed placed.now)) self.old.size }
        ensures mode { self.new.mode ≡ unwrap_or (says_mode (bare_placed placed.now)) self.old.mode }
        ensures owner { self.new.owner ≡ unwrap_or (says_owner (bare_placed placed.now)) self.old.owner }
        ensures group { self.new.group ≡ unwrap_or (says_group (bare_placed placed.now)) self.old.group }
        ensures links { self.new.links ≡ unwrap_or (says_links (bare_placed placed.now)) self.old.links }
        ensures time { self.new.time ≡ unwrap_or (says_time (bare_placed placed.now)) self.old.time }
    {
        match &placed.entry {
            LightEntry::NextPage | LightEntry::Name(_) => {}
            LightEntry::Write(e) => self.apply_write(e),
            LightEntry::Attr(e) => {
                self.size = e.size;
                self.mode = e.mode;
                self.owner = e.owner;
                self.group = e.group;
                self.time = e.time;
            }
            LightEntry::Links(e) => {
                self.links = e.count;
                self.time = e.time;
            }
        }
    }

    /// Takes what a write entry says.
    pub(crate) fn apply_write(&mut self, e: &WriteEntry)
        ensures { self.new ≡ record self.old { size = e.now.size; time = e.now.time } }
    {
        self.size = e.size;
        self.time = e.time;
    }
}
