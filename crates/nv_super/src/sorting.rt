//! Lists of faults and of claims, in order and each once.

ghost use Rattle.nv_super.specs.Order.{fault_key, claim_key, SortedOf};

use crate::faults::Fault;
use crate::owners::Owner;

/// Puts the faults in their order and leaves each once. It takes no memory.
pub fn sort_faults(faults: &mut Vec<Fault>)
    ensures { SortedOf fault_key faults.old.items faults.new.items }
{
    faults.sort_unstable();
    faults.dedup();
}

/// Puts claims, each a block and an owner of it, in order of block and owner and leaves each once. It takes no memory.
pub fn sort_claims(claims: &mut Vec<(u64, Owner)>)
    ensures { SortedOf claim_key claims.old.items claims.new.items }
{
    claims.sort_unstable();
    claims.dedup();
}
