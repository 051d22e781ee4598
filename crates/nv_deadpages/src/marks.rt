//! A list of blocks that grows.

ghost use Rattle.std.specs.Prelude.{◌≡◌, ◌⊎◌, ℕ, OnOk, IsTrue};
ghost use Rattle.std.specs.List.{Contains};

use nv_blockset::BlockList;
use nv_super::Super;
use std::alloc::AllocError;

/// Whether a block is in a list.
pub(crate) fn has_block(blocks: &BlockList, sup: &Super, block: u64) -> bool
    requires { blocks.now.bound ≡ sup.now.blocks }
    ensures { IsTrue result → Contains blocks.now.blocks block }
{
    block < sup.blocks && blocks.contains(block)
}

/// Adds a block to a list, if it isn't there, and if it lies in the region.
pub(crate) fn add_block(blocks: &mut BlockList, sup: &Super, block: u64) -> Result<(), AllocError>
    requires { blocks.old.bound ≡ sup.now.blocks }
    ensures bound { blocks.new.bound ≡ sup.now.blocks }
    ensures only { OnOk result ((b : ℕ) → Contains blocks.new.blocks b → (b ≡ block) ⊎ Contains blocks.old.blocks b) }
{
    if block < sup.blocks && !blocks.contains(block) {
        blocks.push(block)?;
    }
    Ok(())
}

/// Adds each of these blocks.
pub(crate) fn add_blocks(
    blocks: &mut BlockList,
    sup: &Super,
    more: &[u64],
) -> Result<(), AllocError>
    requires { blocks.old.bound ≡ sup.now.blocks }
    ensures bound { blocks.new.bound ≡ sup.now.blocks }
    ensures only { OnOk result ((b : ℕ) → Contains blocks.new.blocks b → Contains more.now b ⊎ Contains blocks.old.blocks b) }
{
    for k in 0..more.len() {
        add_block(blocks, sup, more[k])?;
    }
    Ok(())
}
