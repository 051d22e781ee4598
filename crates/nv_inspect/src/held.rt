//! All that a log says of its inode so far, and for each subject the entry that holds it: the one without which it would be another.

ghost use Rattle.std.specs.Prelude.{◌≡◌, [], ℕ, OnOk, true, false};
ghost use Rattle.nv_entry.specs.Content.{is_good, is_write_out_of_range};
ghost use Rattle.nv_super.specs.Layout.{HasAreas};
ghost use Rattle.nv_super.specs.declared.superblock.Super.{Super as SuperValue};
ghost use Rattle.nv_super.specs.declared.kind.Kind.{Kind as KindValue};
ghost use Rattle.nv_logpage.specs.Reads.{placed};
ghost use Rattle.nv_names.specs.Names.{IsName};
ghost use Rattle.nv_inspect.specs.Held.{HasName, HoldsAll, HoldsOne, LosesOne, Marks, TakesGood};

use crate::names::HeldNames;
use crate::pages::{cut_pages, mark_pages, write_pages};
use crate::pieces::Pieces;
use crate::word::{Word, mark};
use nv_entry::{AttrEntry, Entry, LinksEntry, NameEntry, WriteEntry};
use nv_logpage::Placed;
use nv_super::{Kind, Super};
use std::alloc::{AllocError, Global};
use std::collections::BTreeMap;

/// The subjects of an inode, each with the place of the entry that holds it.
#[derive(Drop)]
pub(crate) struct Held {
    pub size: Word,
    pub mode: Word,
    pub owner: Word,
    pub group: Word,
    pub links: Word,
    pub time: Word,
    pub pages: Pieces,
    pub names: HeldNames,
}

impl Held {
    /// Before the first entry, of an inode that was created then.
    pub fn new(alloc: Global, created: u64) -> Held
        ensures { (s : SuperValue) (kind : KindValue) → HoldsAll s kind created [] result }
    {
        Held {
            size: Word::new(0),
            mode: Word::new(0),
            owner: Word::new(0),
            group: Word::new(0),
            links: Word::new(1),
            time: Word::new(created),
            pages: BTreeMap::new(alloc),
            names: HeldNames::new(alloc),
        }
    }

    /// Takes a good entry, which has this place among the entries, and marks the entries that held what it speaks of.
    ///
    /// Errors: `AllocError` where a growth was refused; of what is held nothing is said then.
    pub fn take(
        &mut self,
        sup: &Super,
        _kind: Kind,
        placed: &Placed,
        by: u64,
        takers: &mut [Option<u64>],
    ) -> Result<(), AllocError>
        requires areas { HasAreas sup.now }
        requires good { is_good sup.now _kind placed.now.entry ≡ true }
        requires name { HasName placed.now.entry }
        ensures takes { OnOk result (TakesGood by placed.now self.old self.new) }
        ensures marks { OnOk result (Marks by (LosesOne placed.now self.old) takers.old takers.new) }
    {
        match &placed.entry {
            Entry::NextPage => Ok(()),
            Entry::Write(e) => self.take_write(sup, placed.at, e, by, takers),
            Entry::Attr(e) => self.take_attributes(placed.at, e, by, takers),
            Entry::Name(e) => self.take_name(placed.at, e, by, takers),
            Entry::Links(e) => {
                self.take_links(placed.at, e, by, takers);
                Ok(())
            }
        }
    }

    fn take_write(
        &mut self,
        sup: &Super,
        _at: u64,
        e: &WriteEntry,
        by: u64,
        takers: &mut [Option<u64>],
    ) -> Result<(), AllocError>
        requires areas { HasAreas sup.now }
        requires good { is_write_out_of_range sup.now e.now ≡ false }
        ensures takes { OnOk result (TakesGood by (placed _at (Entry.Write e.now)) self.old self.new) }
        ensures marks { OnOk result (Marks by (LosesOne (placed _at (Entry.Write e.now)) self.old) takers.old takers.new) }
    {
        self.size.say(Some(e.size), by, takers);
        self.time.say(Some(e.time), by, takers);
        write_pages(&mut self.pages, sup, e, by, takers)?;
        Ok(())
    }

    fn take_attributes(
        &mut self,
        _at: u64,
        e: &AttrEntry,
        by: u64,
        takers: &mut [Option<u64>],
    ) -> Result<(), AllocError>
        ensures takes { OnOk result (TakesGood by (placed _at (Entry.Attr e.now)) self.old self.new) }
        ensures marks { OnOk result (Marks by (LosesOne (placed _at (Entry.Attr e.now)) self.old) takers.old takers.new) }
    {
        self.size.say(Some(e.size), by, takers);
        self.mode.say(Some(e.mode as u64), by, takers);
        self.owner.say(Some(e.owner as u64), by, takers);
        self.group.say(Some(e.group as u64), by, takers);
        self.time.say(Some(e.time), by, takers);
        cut_pages(&mut self.pages, e.size, by, takers)?;
        Ok(())
    }

    fn take_name(
        &mut self,
        at: u64,
        e: &NameEntry,
        by: u64,
        takers: &mut [Option<u64>],
    ) -> Result<(), AllocError>
        requires { IsName e.now.name }
        ensures takes { OnOk result (TakesGood by (placed at (Entry.Name e.now)) self.old self.new) }
        ensures marks { OnOk result (Marks by (LosesOne (placed at (Entry.Name e.now)) self.old) takers.old takers.new) }
    {
        self.time.say(Some(e.time), by, takers);
        self.names.say_name(e, at, by, takers)?;
        Ok(())
    }

    fn take_links(&mut self, _at: u64, e: &LinksEntry, by: u64, takers: &mut [Option<u64>])
        ensures takes { TakesGood by (placed _at (Entry.Links e.now)) self.old self.new }
        ensures marks { Marks by (LosesOne (placed _at (Entry.Links e.now)) self.old) takers.old takers.new }
    {
        self.links.say(Some(e.count as u64), by, takers);
        self.time.say(Some(e.time), by, takers);
    }

    /// Marks the entries that hold a subject.
    ///
    /// Errors: `AllocError` where a growth was refused.
    pub fn mark_holders(&self, by: u64, marks: &mut [Option<u64>]) -> Result<(), AllocError>
        ensures { OnOk result (Marks by (HoldsOne self.now) marks.old marks.new) }
    {
        mark(marks, self.size.holder, by);
        mark(marks, self.mode.holder, by);
        mark(marks, self.owner.holder, by);
        mark(marks, self.group.holder, by);
        mark(marks, self.links.holder, by);
        mark(marks, self.time.holder, by);
        mark_pages(&self.pages, 0, None, by, marks);
        self.names.mark_holders(by, marks)?;
        Ok(())
    }
}
