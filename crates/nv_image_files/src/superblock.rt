//! What is said of an image whose superblock isn't accepted: the words that were found, and those that are taken.

ghost use Rattle.std.specs.Prelude.{◌≡◌, ◌≤◌, ◌⊎◌, ◌+◌, ℕ, List, IfSome, IsNone, Some, drop, length};
ghost use Rattle.byteorder.specs.Endian.{little_number};
ghost use Rattle.nv_region.specs.Region.{region_of};
ghost use Rattle.nv_super.specs.Super.{Applies, IsRefused};
ghost use Rattle.nv_super.specs.declared.superblock.SuperFault.{SuperFault};
ghost use Rattle.nv_super.specs.declared.superblock.SuperFault.TheVariants.{Length};
ghost use Rattle.nv_image_files.specs.Superblocks.{said_of, bad_super_text, is_gzip, is_xfs, is_ext, known_content, content_text, Begins};

use byteorder::{ByteOrder, LittleEndian};
use nv_region::Pmem;
use nv_super::{BLOCK_SIZE, SuperFault, read_super};
use std::fmt;

/// The words of a superblock for which it isn't accepted, by the first fault that applies.
#[derive(Clone, Copy, PartialEq, Eq)]
pub enum BadSuper {
    /// The first word.
    Magic(u64),
    Version(u64),
    Cpus(u64),
    /// The number of blocks that the superblock tells, and that of the file.
    Blocks { told: u64, held: u64 },
    /// The number of table blocks of each CPU, that of CPUs, and that of blocks.
    Tables { tables: u64, cpus: u64, blocks: u64 },
    State(u64),
}

/// What isn't accepted of the superblock of a region, but for the region's length.
pub(crate) fn bad_super<P: Pmem>(memory: &P) -> Option<BadSuper>
    ensures some { IfSome result (λ bad. (fault : SuperFault) × IsRefused (P.region memory.now) fault × (said_of (P.region memory.now) fault ≡ Some bad)) }
    ensures none { IsNone result → ((fault : SuperFault) → Applies (P.region memory.now) fault → ⊥) ⊎ Applies (P.region memory.now) Length }
{
    if memory.len() < BLOCK_SIZE {
        return None;
    }
    match read_super(memory) {
        Ok(_) | Err(SuperFault::Length) => None,
        Err(SuperFault::Magic) => Some(BadSuper::Magic(memory.load(0))),
        Err(SuperFault::Version) => Some(BadSuper::Version(memory.load(8))),
        Err(SuperFault::Cpus) => Some(BadSuper::Cpus(memory.load(16))),
        Err(SuperFault::Blocks) => Some(BadSuper::Blocks {
            told: memory.load(24),
            held: memory.len() / BLOCK_SIZE,
        }),
        Err(SuperFault::Tables) => Some(BadSuper::Tables {
            tables: memory.load(32),
            cpus: memory.load(16),
            blocks: memory.load(24),
        }),
        Err(SuperFault::State) => Some(BadSuper::State(memory.load(40))),
    }
}

/// What isn't accepted of the superblock of a file of so many bytes, which begins with these, where this fault is the first that
/// applies; but for the file's length.
pub(crate) fn bad_first(fault: SuperFault, count: u64, first: &[u8]) -> Option<BadSuper>
    ensures { (file : List ℕ) → Begins file count first.now → IsRefused (region_of file) fault → result ≡ said_of (region_of file) fault }
{
    match fault {
        SuperFault::Length => None,
        SuperFault::Magic => Some(BadSuper::Magic(word_in(first, 0))),
        SuperFault::Version => Some(BadSuper::Version(word_in(first, 8))),
        SuperFault::Cpus => Some(BadSuper::Cpus(word_in(first, 16))),
        SuperFault::Blocks => Some(BadSuper::Blocks {
            told: word_in(first, 24),
            held: count / BLOCK_SIZE,
        }),
        SuperFault::Tables => Some(BadSuper::Tables {
            tables: word_in(first, 32),
            cpus: word_in(first, 16),
            blocks: word_in(first, 24),
        }),
        SuperFault::State => Some(BadSuper::State(word_in(first, 40))),
    }
}

// The word of the eight bytes at an address, or 0 where they aren't there.
fn word_in(bytes: &[u8], at: usize) -> u64
    requires { at ≤ 40 }
    ensures { at + 8 ≤ length bytes.now → result ≡ little_number 8 (drop at bytes.now) }
{
    if bytes.len() < at + 8 {
        return 0;
    }
    LittleEndian::read_u64(&bytes[at..])
}

impl fmt::Display for BadSuper {
    ghost output = { λ bad. Some (bad_super_text bad) };

    fn fmt<W: fmt::Write>(&self, f: &mut fmt::Formatter<W>) -> fmt::Result {
        match self {
            BadSuper::Magic(word) => write!(
                f,
                "its first word is {word}; that of a region is 3544417913829478222, the text NOVAPM01"
            ),
            BadSuper::Version(version) => write!(f, "its version is {version}; 1 and 2 are taken"),
            BadSuper::Cpus(cpus) => write!(f, "it has {cpus} CPUs; a region has 1 to 64"),
            BadSuper::Blocks { told, held } => {
                write!(
                    f,
                    "it was cut or made longer: it tells {told} blocks, and has {held}"
                )
            }
            BadSuper::Tables {
                tables,
                cpus,
                blocks,
            } => {
                write!(
                    f,
                    "a CPU has 1 to 64 table blocks, and a block is left for data; it has {cpus} CPUs, {tables} table blocks for each, and {blocks} blocks"
                )
            }
            BadSuper::State(state) => write!(f, "its state is {state}; 0 and 1 are taken"),
        }
    }
}

/// What a file holds in place of a region, by its first bytes.
#[derive(Clone, Copy, PartialEq, Eq)]
pub enum Content {
    Gzip,
    Xfs,
    Ext,
}

fn is_gzip(bytes: &[u8]) -> bool
    ensures { result ≡ is_gzip bytes.now }
{
    bytes.starts_with(b"\x1f\x8b")
}

fn is_xfs(bytes: &[u8]) -> bool
    ensures { result ≡ is_xfs bytes.now }
{
    bytes.starts_with(b"XFSB")
}

fn is_ext(bytes: &[u8]) -> bool
    ensures { result ≡ is_ext bytes.now }
{
    bytes.len() > 1081 && bytes[1080] == 0x53 && bytes[1081] == 0xef
}

/// What is recognized by the first bytes of a file.
pub(crate) fn known_content(bytes: &[u8]) -> Option<Content>
    ensures { result ≡ known_content bytes.now }
{
    if is_gzip(bytes) {
        Some(Content::Gzip)
    } else if is_xfs(bytes) {
        Some(Content::Xfs)
    } else if is_ext(bytes) {
        Some(Content::Ext)
    } else {
        None
    }
}

impl fmt::Display for Content {
    ghost output = { λ content. Some (content_text content) };

    fn fmt<W: fmt::Write>(&self, f: &mut fmt::Formatter<W>) -> fmt::Result {
        f.write_str(match self {
            Content::Gzip => "by its first bytes it is compressed by gzip",
            Content::Xfs => "by its first bytes it is an image of XFS",
            Content::Ext => "by its first bytes it is an image of ext2, ext3 or ext4",
        })
    }
}
