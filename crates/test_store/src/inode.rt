//! Slots of a small region, and the words of its tables.

ghost use Rattle.nv_region.specs.Region.{HasBlocks};

use crate::chains::tables_of;
use crate::checks::{check, check_at};
use crate::small::{SMALL, Word, assert_words, small_region};
use nv_inode::{Slot, SlotState, read_slot_at, set_word, store_slot};
use nv_region::{MemRegion, Stopped};
use nv_super::Kind;
use std::process::Abort;

const ROOT: Slot = Slot {
    valid: 1,
    kind: 2,
    head: 12288,
    tail: 12320,
    created: 7,
};

const ROOT_AT_8320: [Word; 6] = [
    (8320, 1),
    (8328, 2),
    (8336, 12288),
    (8344, 12320),
    (8352, 7),
    (8360, 0),
];

/// Puts the root into slot 1, all but its valid word.
fn put_root(memory: &mut MemRegion) -> Result<(), Stopped>
    requires { HasBlocks memory.old.region 16 }
    ensures { HasBlocks memory.new.region 16 }
{
    store_slot(memory, 8320, &ROOT)
}

fn validate_root(memory: &mut MemRegion) -> Result<(), Stopped>
    requires { HasBlocks memory.old.region 16 }
    ensures { HasBlocks memory.new.region 16 }
{
    set_word(memory, 8320, 1)
}

fn assert_put(rt: &impl Abort, memory: &mut MemRegion)
    requires { HasBlocks memory.old.region 16 }
{
    check(rt, put_root(memory).is_ok(), "the root is put");
    assert_words(rt, memory, &[(8320, 0)]);
    check(rt, validate_root(memory).is_ok(), "it is made valid");
    check(rt, read_slot_at(memory, 8320) == ROOT, "slot 1");
    assert_words(rt, memory, &ROOT_AT_8320);
}

#[test]
fn a_slot_is_read_as_it_was_put(rt: HostRuntime) {
    let mut memory = small_region(&rt, rt.alloc(), &[]);
    assert_put(&rt, &mut memory);
}

const STATES: [(u64, u64, SlotState); 7] = [
    (0, 2, SlotState::Unused),
    (1, 1, SlotState::InUse(Kind::File)),
    (1, 2, SlotState::InUse(Kind::Directory)),
    (1, 0, SlotState::BadKind),
    (1, 3, SlotState::BadKind),
    (2, 1, SlotState::BadValid),
    (u64::MAX, 0, SlotState::BadValid),
];

#[test]
fn a_slot_is_in_use_where_it_is_valid_and_of_a_kind(rt: HostRuntime) {
    for &(valid, kind, state) in STATES.iter() {
        let slot = Slot {
            valid,
            kind,
            ..ROOT
        };
        check_at(&rt, slot.state() == state, "a state, by kind", kind);
    }
}

const LOGS: [(u64, u64, bool); 11] = [
    (12288, 12296, true),
    (61440, 61440 + 4064, true),
    (12288, 12288, false),
    (12288, 12288 + 4072, false),
    (12288, 12300, false),
    (12288, 8200, false),
    (12288, 65544, false),
    (8192, 12320, false),
    (12296, 12320, false),
    (65536, 12320, false),
    (u64::MAX, u64::MAX, false),
];

#[test]
fn a_log_is_right_within_the_data_blocks(rt: HostRuntime) {
    for &(head, tail, right) in LOGS.iter() {
        let slot = Slot { head, tail, ..ROOT };
        check_at(&rt, slot.has_right_log(&SMALL) == right, "a log", tail);
    }
}

const NAMED: [(u64, bool); 15] = [
    (8320, true),
    (8336, true),
    (8344, true),
    (12160, true),
    (12184, true),
    (8328, false),
    (8352, false),
    (8321, false),
    (8192, false),
    (8208, false),
    (8216, false),
    (12288, false),
    (4096, false),
    (0, false),
    (u64::MAX, false),
];

#[test]
fn a_journal_may_name_valid_word_head_and_tail(rt: HostRuntime) {
    let memory = small_region(&rt, rt.alloc(), &[]);
    let tables = tables_of(&rt, rt.alloc(), &memory, &SMALL);
    for &(at, named) in NAMED.iter() {
        check_at(&rt, tables.permits(at) == named, "a word", at);
    }
}
