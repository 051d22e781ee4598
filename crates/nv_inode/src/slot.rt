//! The slot of an inode: whether it is in use, of which kind, and where its log begins and ends.
//!
//! A damaged region may hold any words, so a slot is kept as it was read, and its methods say what is wrong with it.

ghost use Rattle.std.specs.Prelude.{◌≡◌, ◌≢◌, ◌↔◌};
ghost use Rattle.nv_super.specs.Layout.{HasAreas};
ghost use Rattle.nv_inode.specs.Slot.{state_of, kind_of, kind_in, is_right_log};

use nv_super::{BLOCK_SIZE, Kind, Super};

/// The offset in bytes of a log page's link, where the room for its entries ends.
pub const LINK: u64 = 4064;

const FIRST_TAIL: u64 = 8;

// The offsets of a slot's words.
pub(crate) const VALID: u64 = 0;

pub(crate) const KIND: u64 = 8;

pub(crate) const HEAD: u64 = 16;

pub(crate) const TAIL: u64 = 24;

pub(crate) const CREATED: u64 = 32;

/// The words of a slot: valid, kind, head and tail of the log (byte addresses), creation time.
#[derive(Clone, Copy, PartialEq, Eq)]
pub struct Slot {
    pub valid: u64,
    pub kind: u64,
    pub head: u64,
    pub tail: u64,
    pub created: u64,
}

/// Whether a slot is in use, and if not, why.
#[derive(Clone, Copy, PartialEq, Eq)]
pub enum SlotState {
    /// The valid word is 0.
    Unused,
    /// The valid word is neither 0 nor 1.
    BadValid,
    /// The valid word is 1, and the kind word is that of no kind.
    BadKind,
    /// The valid word is 1, and the kind word that of this kind.
    InUse(Kind),
}

impl Slot {
    /// The state of the slot, by its valid and kind words.
    pub fn state(&self) -> SlotState
        ensures value { result ≡ state_of self.now }
        ensures unused { (result ≡ SlotState.Unused) ↔ (self.now.valid ≡ 0) }
        ensures bad_valid { (result ≡ SlotState.BadValid) ↔ ((self.now.valid ≢ 0) × (self.now.valid ≢ 1)) }
        ensures bad_kind { (result ≡ SlotState.BadKind) ↔ ((self.now.valid ≡ 1) × (self.now.kind ≢ 1) × (self.now.kind ≢ 2)) }
        ensures in_use { kind_in result ≡ kind_of self.now }
    {
        match (self.valid, self.kind) {
            (0, _) => SlotState::Unused,
            (1, 1) => SlotState::InUse(Kind::File),
            (1, 2) => SlotState::InUse(Kind::Directory),
            (1, _) => SlotState::BadKind,
            _ => SlotState::BadValid,
        }
    }

    /// Whether the log begins at the start of a data block, and ends in a data block, at a word whose offset there is 8
    /// to 4064 bytes.
    pub fn has_right_log(&self, sup: &Super) -> bool
        requires { HasAreas sup.now }
        ensures { result ≡ is_right_log sup.now self.now.head self.now.tail }
    {
        let block = self.tail / BLOCK_SIZE;
        let offset = self.tail % BLOCK_SIZE;
        sup.is_page_start(self.head)
            && sup.system_blocks() <= block
            && block < sup.blocks
            && self.tail % 8 == 0
            && FIRST_TAIL <= offset
            && offset <= LINK
    }
}
