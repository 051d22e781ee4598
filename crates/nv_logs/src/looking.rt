//! Looking at a log: a region is recovered, and the text of the log is made, or the refusal.
//!
//! What is found wrong doesn't keep a log from being shown; the answer tells of it.

ghost use Rattle.std.specs.Prelude.{◌≡◌, IfOk, length, string_bytes};
ghost use Rattle.nv_region.specs.Region.{Region, HasBlocks, region_of};
ghost use Rattle.nv_super.specs.Layout.{IsLayout};
ghost use Rattle.nv_inode.specs.Chains.{layout_of};
ghost use Rattle.nv_text.specs.Refusals.{refusal_name};
ghost use Rattle.nv_paths.specs.Seen.{tree_of};
ghost use Rattle.nv_tree.specs.Refusals.{refusal_word};
ghost use Rattle.nv_inspect.specs.Log.{IsLogText};
ghost use Rattle.nv_metadata.specs.Gathered.{AreGathered, IsOpen};
ghost use Rattle.nv_image_check.specs.Checking.{IsRefusal};
ghost use Rattle.nv_logs.specs.Looking.{IsLogLook, TellsLog};

use crate::asking::row_asked;
use crate::inode::Inode;
use nv_image_check::{Answered, GatheredImage, Image, let_go, recover_gathered, recover_image};
use nv_inode::read_tables;
use nv_inspect::push_log;
use nv_metadata::Gathered;
use nv_region::Pmem;
use nv_report::{Last, Recovered, refused_text};
use nv_scan::Row;
use nv_super::Super;
use nv_text::Refusal;
use std::alloc::{AllocError, Global};

/// What is printed, and what came of it.
#[derive(Drop)]
pub(crate) struct Look {
    pub text: String,
    pub answered: Answered,
}

/// The log of an inode in the region of these bytes, which is recovered over them.
pub(crate) fn look_at_image(alloc: Global, bytes: &[u8], inode: &Inode) -> Result<Look, AllocError>
    ensures { IfOk result (λ look. IsLogLook inode.now (region_of bytes.now) (string_bytes look.text) look.answered) }
{
    let image = recover_image(alloc, bytes)?;
    match image {
        Image::Recovered(memory, found) => {
            let look = look_in(alloc, &memory, &found, inode);
            let_go(memory, found);
            look
        }
        Image::Refused(refusal) => unaccepted_look(alloc, refusal),
    }
}

/// The same of the region of which this was gathered.
pub(crate) fn look_at_gathered(
    alloc: Global,
    gathered: Gathered,
    inode: &Inode,
) -> Result<Look, AllocError>
    requires { IsOpen gathered }
    ensures { (R : Region) → AreGathered R gathered → IfOk result (λ look. IsLogLook inode.now R (string_bytes look.text) look.answered) }
{
    let image = recover_gathered(alloc, gathered)?;
    match image {
        GatheredImage::Recovered(memory, found) => {
            let look = look_in(alloc, &memory, &found, inode);
            let_go(memory, found);
            look
        }
        GatheredImage::Refused(refusal) => unaccepted_look(alloc, refusal),
    }
}

// The log of an inode in a memory where this was found.
fn look_in<P: Pmem>(
    alloc: Global,
    memory: &P,
    found: &Recovered,
    inode: &Inode,
) -> Result<Look, AllocError>
    requires layout { IsLayout found.now.sup }
    requires blocks { HasBlocks (P.region memory.now) found.now.sup.blocks }
    ensures told { (R : Region)
        → IfOk result (λ look. TellsLog (tree_of R found.now.rows.items) (P.region memory.now) found.now.sup found.now.rows.items inode.now (string_bytes look.text) look.answered.status) }
    ensures faults { IfOk result (λ look. look.answered.faults ≡ length found.now.faults.items) }
{
    let faults = found.faults.len();
    match row_asked(&found.rows, inode) {
        Ok(row) => shown_look(alloc, memory, &found.sup, row, faults),
        Err(refusal) => refused_look(alloc, refusal, faults),
    }
}

fn shown_look<P: Pmem>(
    alloc: Global,
    memory: &P,
    sup: &Super,
    row: &Row,
    faults: usize,
) -> Result<Look, AllocError>
    requires layout { IsLayout sup.now }
    requires blocks { HasBlocks (P.region memory.now) sup.now.blocks }
    ensures text { IfOk result (λ look. IsLogText (P.region memory.now) (layout_of sup.now (P.region memory.now)) row.now (string_bytes look.text)) }
    ensures status { IfOk result (λ look. look.answered.status ≡ 0) }
    ensures faults { IfOk result (λ look. look.answered.faults ≡ faults) }
{
    let tables = read_tables(alloc, memory, sup)?;
    let mut text = String::new(alloc);
    push_log(&mut text, alloc, memory, &tables, row)?;
    Ok(Look {
        text,
        answered: Answered {
            status: Last::Sound.status(),
            faults,
        },
    })
}

/// What is told of a call that is refused.
pub(crate) fn refused_look(
    alloc: Global,
    refusal: nv_tree::Refusal,
    faults: usize,
) -> Result<Look, AllocError>
    ensures refused { IfOk result (λ look. IsRefusal (refusal_word refusal) (string_bytes look.text) look.answered.status) }
    ensures faults { IfOk result (λ look. look.answered.faults ≡ faults) }
{
    Ok(Look {
        text: refused_text(alloc, Refusal::Call(refusal))?,
        answered: Answered {
            status: Last::Refused.status(),
            faults,
        },
    })
}

/// What is told of a region whose superblock isn't accepted.
pub(crate) fn unaccepted_look(alloc: Global, refusal: Refusal) -> Result<Look, AllocError>
    ensures { IfOk result (λ look. IsRefusal (refusal_name refusal) (string_bytes look.text) look.answered.status × (look.answered.faults ≡ 0)) }
{
    Ok(Look {
        text: refused_text(alloc, refusal)?,
        answered: Answered {
            status: Last::Refused.status(),
            faults: 0,
        },
    })
}
