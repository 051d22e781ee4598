//! The faults, each with the fields of its class.

ghost use Rattle.std.specs.Prelude.{◌≡◌, IfOk, map};
ghost use Rattle.serde_json.specs.View.{view};
ghost use Rattle.nv_super.specs.declared.faults.Fault.TheVariants.{J1, J2, C5, B1};
ghost use Rattle.nv_json.specs.Json.{fault_data, chain_fault, inode_fault, place_fault, owned_fault, table_fault, array_of};

use crate::lists::list_value;
use nv_super::{Fault, Owner};
use serde_json::{Value, json};
use std::alloc::{AllocError, Global};

/// All faults, in their order.
pub(crate) fn faults_value(alloc: Global, faults: &[Fault]) -> Result<Value, AllocError>
    ensures { IfOk result (λ v. view v ≡ array_of (map fault_data faults.now)) }
{
    let mut items = Vec::new(alloc);
    for fault in faults {
        items.push(fault_value(alloc, *fault)?)?;
    }
    Ok(list_value(items))
}

fn fault_value(alloc: Global, fault: Fault) -> Result<Value, AllocError>
    ensures { IfOk result (λ v. view v ≡ fault_data fault) }
{
    match fault {
        Fault::J1 { cpu } => journal_fault(alloc, cpu),
        Fault::J2 { cpu, record } => record_fault(alloc, cpu, record),
        Fault::H1 { cpu, at } => chain_fault(alloc, "H1", cpu, at),
        Fault::H2 { cpu, at } => chain_fault(alloc, "H2", cpu, at),
        Fault::I1 { inode } => inode_fault(alloc, "I1", inode),
        Fault::I2 { inode } => inode_fault(alloc, "I2", inode),
        Fault::I3 { inode } => inode_fault(alloc, "I3", inode),
        Fault::L1 { inode, at } => place_fault(alloc, "L1", inode, at),
        Fault::L2 { inode, at } => place_fault(alloc, "L2", inode, at),
        Fault::L3 { inode, at } => place_fault(alloc, "L3", inode, at),
        Fault::L4 { inode, at } => place_fault(alloc, "L4", inode, at),
        Fault::E1 { inode, at } => place_fault(alloc, "E1", inode, at),
        Fault::E2 { inode, at } => place_fault(alloc, "E2", inode, at),
        Fault::E3 { inode, at } => place_fault(alloc, "E3", inode, at),
        Fault::E4 { inode, at } => place_fault(alloc, "E4", inode, at),
        Fault::C1 { directory, at } => place_fault(alloc, "C1", directory, at),
        Fault::C2 { inode } => inode_fault(alloc, "C2", inode),
        Fault::C3 { inode } => inode_fault(alloc, "C3", inode),
        Fault::C4 { inode } => inode_fault(alloc, "C4", inode),
        Fault::C5 => root_fault(alloc),
        Fault::B1 { block, owner } => owned_fault(alloc, block, owner),
    }
}

// The fault of a CPU's journal.
fn journal_fault(alloc: Global, cpu: u64) -> Result<Value, AllocError>
    ensures { IfOk result (λ v. view v ≡ fault_data (J1 cpu)) }
{
    json!(in alloc; {"cpu": cpu, "class": "J1"})
}

// The fault of a record of it.
fn record_fault(alloc: Global, cpu: u64, record: u64) -> Result<Value, AllocError>
    ensures { IfOk result (λ v. view v ≡ fault_data (J2 cpu «record»)) }
{
    json!(in alloc; {"record": record, "cpu": cpu, "class": "J2"})
}

// The fault of a region without a root.
fn root_fault(alloc: Global) -> Result<Value, AllocError>
    ensures { IfOk result (λ v. view v ≡ fault_data C5) }
{
    json!(in alloc; {"class": "C5"})
}

// A fault at a place in the chain of a CPU's table.
fn chain_fault(alloc: Global, class: &str, cpu: u64, at: u64) -> Result<Value, AllocError>
    ensures { IfOk result (λ v. view v ≡ chain_fault class.now cpu at) }
{
    json!(in alloc; {"cpu": cpu, "class": class, "at": at})
}

// A fault of an inode.
fn inode_fault(alloc: Global, class: &str, inode: u64) -> Result<Value, AllocError>
    ensures { IfOk result (λ v. view v ≡ inode_fault class.now inode) }
{
    json!(in alloc; {"inode": inode, "class": class})
}

// A fault at a place in the log of an inode.
fn place_fault(alloc: Global, class: &str, inode: u64, at: u64) -> Result<Value, AllocError>
    ensures { IfOk result (λ v. view v ≡ place_fault class.now inode at) }
{
    json!(in alloc; {"inode": inode, "class": class, "at": at})
}

// A block that this owner has beside another.
fn owned_fault(alloc: Global, block: u64, owner: Owner) -> Result<Value, AllocError>
    ensures { IfOk result (λ v. view v ≡ fault_data (B1 block owner)) }
{
    match owner {
        Owner::Table { cpu, place } => table_fault(alloc, block, cpu, place),
        Owner::Log { inode, page } => page_fault(alloc, block, "log", inode, page),
        Owner::Data { inode, page } => page_fault(alloc, block, "data", inode, page),
    }
}

// A block of the chain of a CPU's table.
fn table_fault(alloc: Global, block: u64, cpu: u64, place: u64) -> Result<Value, AllocError>
    ensures { IfOk result (λ v. view v ≡ table_fault block cpu place) }
{
    json!(in alloc; {"place": place, "owner": "table", "cpu": cpu, "class": "B1", "block": block})
}

// A page of an inode's log, or of its data.
fn page_fault(
    alloc: Global,
    block: u64,
    owner: &str,
    inode: u64,
    page: u64,
) -> Result<Value, AllocError>
    ensures { IfOk result (λ v. view v ≡ owned_fault block owner.now inode page) }
{
    json!(in alloc; {"page": page, "owner": owner, "inode": inode, "class": "B1", "block": block})
}
