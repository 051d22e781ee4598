//! What a worker knows, as plain data.
use nv_super::Owner;
use std::collections::LinkedList;

/// One claim of a block for an owner. It won where the block was not in the first set; a lost one is marked once its
/// worker has put the block into the second set for it.
#[derive(Clone, Copy, PartialEq, Eq, Drop)]
pub struct Record {
    pub block: u64,
    pub owner: Owner,
    pub won: bool,
    pub marked: bool,
}

/// What contracts see of a worker: the numbers drawn and the records of the claims, each in the order in which they
/// were made, and the number of seats that it was joined of, which is 1 in the core. No value of it is made.
pub struct View {
    pub seats: u64,
    pub numbers: LinkedList<u64>,
    pub records: LinkedList<Record>,
}

/// How many blocks, tickets and workers there are. Each counts from 0.
#[derive(Clone, Copy, PartialEq, Eq, Drop)]
pub struct Sizes {
    pub blocks: u64,
    pub tickets: u64,
    pub workers: u64,
}
