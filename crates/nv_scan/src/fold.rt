//! The state of an inode as its log is read: one entry at a time, of which none is kept.

ghost use Rattle.std.specs.Prelude.{◌≡◌, ◌++◌, ℕ, OnErr, OnOk, [], true, is_none};
ghost use Rattle.std.specs.List.{cons_option};
ghost use Rattle.nv_entry.specs.Content.{content_fault};
ghost use Rattle.nv_entry.specs.Light.{bare, name_in, with_name, CanBeRead, HasName};
ghost use Rattle.nv_entry.specs.Name.{IsName};
ghost use Rattle.nv_logpage.specs.Reads.{placed};
ghost use Rattle.nv_logpage.specs.Light.{placed_in};
ghost use Rattle.nv_super.specs.Layout.{HasAreas};
ghost use Rattle.nv_super.specs.declared.superblock.Super.{Super as SuperValue};
ghost use Rattle.nv_super.specs.declared.kind.Kind.{Kind as KindValue};
ghost use Rattle.nv_scan.specs.Fold.{Takes, Holds};
ghost use Rattle.nv_scan.specs.Light.{bare_placed};

use crate::names::{apply_name, told};
use crate::numbers::Numbers;
use crate::pages::{apply_pages, write_pages};
use arrayvec::ArrayVec;
use nv_entry::{Entry, LightEntry, LightName, WriteEntry, check_bare, check_name, check_write};
use nv_logpage::LightPlaced;
use nv_names::NameIndex;
use nv_radix::ExtentMap;
use nv_region::Pmem;
use nv_super::{Fault, Kind, Super};
use std::alloc::{AllocError, Global};

/// Where a name is read. Whoever reads many logs keeps one, since to clear a new one costs more than most names do.
pub type NameRoom = ArrayVec<u8, 255>;

/// What the entries read so far say, by the last word of each, and what is wrong with them.
#[derive(Drop)]
pub struct Fold {
    pub numbers: Numbers,
    pub extents: ExtentMap,
    pub names: NameIndex,
    pub faults: Vec<Fault>,
}

impl Fold {
    /// Before the first entry. It takes no memory.
    pub fn new(alloc: Global, created: u64) -> Fold
        ensures { (s : SuperValue) (kind : KindValue) (inode : ℕ) → Holds s kind inode created [] result }
    {
        Fold {
            numbers: Numbers::new(created),
            extents: ExtentMap::new(alloc),
            names: NameIndex::new(alloc),
            faults: Vec::new(alloc),
        }
    }

    /// Takes one entry more, and reads its name, if it has one, in place of what is in `name`. An entry that says what can't
    /// be is told as a fault, and changes nothing else. Errors: `AllocError` where a growth was refused.
    pub fn take<P: Pmem>(
        &mut self,
        memory: &P,
        sup: &Super,
        kind: Kind,
        inode: u64,
        placed: &LightPlaced,
        name: &mut NameRoom,
    ) -> Result<(), AllocError>
        requires areas { HasAreas sup.now }
        requires name { CanBeRead (P.region memory.now) placed.now.entry }
        ensures { OnOk result (Takes sup.now kind inode (placed_in (P.region memory.now) placed.now) self.old self.new) }
    {
        match &placed.entry {
            LightEntry::Name(e) => self.take_name(memory, sup, kind, inode, placed.at, e, name),
            LightEntry::Write(e) => self.take_write(sup, kind, inode, placed.at, e),
            LightEntry::NextPage | LightEntry::Attr(_) | LightEntry::Links(_) => self.take_bare(
                sup, kind, inode, placed,
            ),
        }
    }

    /// Takes a write entry at a place.
    // Most entries are writes, and a call for each would cost as much as its work.
    #[inline(always)]
    pub(crate) fn take_write(
        &mut self,
        sup: &Super,
        kind: Kind,
        inode: u64,
        at: u64,
        e: &WriteEntry,
    ) -> Result<(), AllocError>
        requires { HasAreas sup.now }
        ensures { OnOk result (Takes sup.now kind inode (placed at (Entry.Write e.now)) self.old self.new) }
    {
        match check_write(sup, kind, e) {
            Some(fault) => {
                self.faults.push(told(fault, inode, at))?;
                Ok(())
            }
            None => self.take_good_write(sup, kind, inode, at, e),
        }
    }

    /// Takes a good write entry.
    #[inline(always)]
    fn take_good_write(
        &mut self,
        sup: &Super,
        _kind: Kind,
        _inode: u64,
        _at: u64,
        e: &WriteEntry,
    ) -> Result<(), AllocError>
        requires areas { HasAreas sup.now }
        requires good { is_none (content_fault sup.now _kind (Entry.Write e.now)) ≡ true }
        ensures { OnOk result (Takes sup.now _kind _inode (placed _at (Entry.Write e.now)) self.old self.new) }
    {
        self.numbers.apply_write(e);
        write_pages(&mut self.extents, sup, e)
    }

    /// Takes an entry without a name.
    fn take_bare(
        &mut self,
        sup: &Super,
        kind: Kind,
        inode: u64,
        placed: &LightPlaced,
    ) -> Result<(), AllocError>
        requires { HasAreas sup.now }
        ensures { OnOk result (Takes sup.now kind inode (bare_placed placed.now) self.old self.new) }
    {
        match check_bare(sup, kind, &placed.entry) {
            Some(fault) => {
                self.faults.push(told(fault, inode, placed.at))?;
                Ok(())
            }
            None => self.take_good(sup, kind, inode, placed),
        }
    }

    /// Takes a good entry without a name.
    fn take_good(
        &mut self,
        sup: &Super,
        kind: Kind,
        _inode: u64,
        placed: &LightPlaced,
    ) -> Result<(), AllocError>
        requires areas { HasAreas sup.now }
        requires good { is_none (content_fault sup.now kind (bare placed.now.entry)) ≡ true }
        ensures { OnOk result (Takes sup.now kind _inode (bare_placed placed.now) self.old self.new) }
    {
        self.numbers.apply(placed);
        apply_pages(&mut self.extents, sup, kind, placed)
    }

    /// Takes a name entry at a place, and reads its name in place of what is in `name`.
    fn take_name<P: Pmem>(
        &mut self,
        memory: &P,
        sup: &Super,
        kind: Kind,
        inode: u64,
        at: u64,
        e: &LightName,
        name: &mut NameRoom,
    ) -> Result<(), AllocError>
        requires areas { HasAreas sup.now }
        requires name { HasName (P.region memory.now) e.now }
        ensures { OnOk result (Takes sup.now kind inode (placed at (Entry.Name (name_in (P.region memory.now) e.now))) self.old self.new) }
    {
        e.read_name(memory, name);
        match check_name(sup, kind, e, name) {
            Some(fault) => {
                self.faults.push(told(fault, inode, at))?;
                Ok(())
            }
            None => self.take_good_name(sup, kind, inode, at, e, name),
        }
    }

    /// Takes a good name entry.
    fn take_good_name(
        &mut self,
        _sup: &Super,
        _kind: Kind,
        inode: u64,
        at: u64,
        e: &LightName,
        name: &[u8],
    ) -> Result<(), AllocError>
        requires good { is_none (content_fault _sup.now _kind (Entry.Name (with_name e.now name.now))) ≡ true }
        requires name { IsName name.now }
        ensures { OnOk result (Takes _sup.now _kind inode (placed at (Entry.Name (with_name e.now name.now))) self.old self.new) }
    {
        let fault = apply_name(&mut self.names, inode, at, e, name)?;
        self.numbers.time = e.time;
        push_fault(&mut self.faults, fault)
    }
}

/// Puts a fault behind the others, if there is one.
pub(crate) fn push_fault(faults: &mut Vec<Fault>, fault: Option<Fault>) -> Result<(), AllocError>
    ensures pushed { OnOk result (faults.new.items ≡ faults.old.items ++ cons_option fault []) }
    ensures refused { OnErr result (faults.new.items ≡ faults.old.items) }
{
    if let Some(fault) = fault {
        faults.push(fault)?;
    }
    Ok(())
}
