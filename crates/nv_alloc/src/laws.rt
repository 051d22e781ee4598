//! What follows from the definitions alone.

ghost use Rattle.std.specs.Prelude.{ℕ, ◌<◌, ◌≤◌, List};
ghost use Rattle.nv_super.specs.Layout.{system_blocks};
ghost use Rattle.nv_super.specs.declared.owners.Run.{Run as RunValue};
ghost use Rattle.nv_alloc.specs.FreeValue.{FreeLists};
ghost use Rattle.nv_alloc.specs.FreeLists.{IsFreeIn, IsSound, Leave, TakeThenGiveRestores, TakenCanJoin, SetsDetermineLists, SingleTakesLeave};
ghost use Rattle.nv_alloc.specs.Taking.{HasBlock, TakeExists, TakeIsOne, SingleTakesAreOne, SingleTakesSplit};

/// Where all pools together have n blocks or more, there is something that a take of n gives, from whichever pool on.
pub fn a_take_exists()
    ensures { TakeExists }
{}

/// What a take gives and leaves is decided by the pools, the CPU and the number of blocks.
pub fn a_take_is_one()
    ensures { TakeIsOne }
{}

/// Which blocks are taken one by one, and what is left, is decided by the pools, the CPU and their number.
pub fn single_takes_are_one()
    ensures { SingleTakesAreOne }
{}

/// Blocks are taken one by one just where the first of them are, and then the others from what these leave.
pub fn single_takes_split()
    ensures { SingleTakesSplit }
{}

/// From sound lists, blocks that are taken one by one were free, no two are the same, and just they aren't free any more.
pub fn single_takes_leave()
    ensures { SingleTakesLeave }
{}

/// Giving back all that a take gave, one run after another, restores the lists. Of the room nothing is said.
pub fn take_then_give_restores()
    ensures { TakeThenGiveRestores }
{}

/// What a take gave can be given back, one run after another.
pub fn taken_can_join()
    ensures { TakenCanJoin }
{}

/// From sound lists, the blocks that a take gave are data blocks, and none of them is free in the lists that it left.
pub fn taken_blocks_are_data_blocks()
    ensures { (old new : FreeLists) (n : ℕ) (runs : List RunValue) (b : ℕ) → IsSound old → Leave old n runs new → HasBlock runs b
        → (system_blocks old.sup ≤ b) × (b < old.sup.blocks) × ((cpu : ℕ) → IsFreeIn new cpu b → ⊥) }
{}

/// Sound lists of one superblock are determined by the sets of free blocks of their pools.
pub fn sets_determine_lists()
    ensures { SetsDetermineLists }
{}
