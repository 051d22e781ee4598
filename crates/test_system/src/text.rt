//! Lines of worked scripts, each from its values.

use nv_format::FormatRefusal;
use nv_super::{Fault, Kind, Owner, Run, Super, SuperFault};
use nv_text::*;
use nv_tree::{Refusal as CallRefusal, Stat};
use std::alloc::{AllocError, Global};
use std::process::Abort;

fn push_answers(out: &mut String) -> Result<(), AllocError> {
    push_ok(out)?;
    push_stopped(out)?;
    push_bad_line(out, 8)?;
    push_recovered(out, 3, 54, 4)?;
    push_word(out, 18446744073709551615)
}

const ANSWERS: &str = "ok\nstopped\nbad line 8\nrecovered inodes 3 free 54 faults 4\n\
     word 18446744073709551615\n";

const REFUSALS: [(Refusal, &str); 29] = [
    (Refusal::NoRegion, "refused NoRegion\n"),
    (Refusal::NotMounted, "refused NotMounted\n"),
    (Refusal::Address, "refused Address\n"),
    (Refusal::Length, "refused Length\n"),
    (Refusal::Format(FormatRefusal::Cpus), "refused Cpus\n"),
    (Refusal::Format(FormatRefusal::Tables), "refused Tables\n"),
    (Refusal::Workers, "refused Workers\n"),
    (Refusal::Schedule, "refused Schedule\n"),
    (Refusal::Super(SuperFault::Length), "refused S1\n"),
    (Refusal::Super(SuperFault::Magic), "refused S2\n"),
    (Refusal::Super(SuperFault::Version), "refused S3\n"),
    (Refusal::Super(SuperFault::Cpus), "refused S4\n"),
    (Refusal::Super(SuperFault::Blocks), "refused S5\n"),
    (Refusal::Super(SuperFault::Tables), "refused S6\n"),
    (Refusal::Super(SuperFault::State), "refused S7\n"),
    (Refusal::Call(CallRefusal::NotFound), "refused NotFound\n"),
    (Refusal::Call(CallRefusal::Exists), "refused Exists\n"),
    (
        Refusal::Call(CallRefusal::NotDirectory),
        "refused NotDirectory\n",
    ),
    (
        Refusal::Call(CallRefusal::IsDirectory),
        "refused IsDirectory\n",
    ),
    (Refusal::Call(CallRefusal::NotEmpty), "refused NotEmpty\n"),
    (Refusal::Call(CallRefusal::BadName), "refused BadName\n"),
    (Refusal::Call(CallRefusal::NoSpace), "refused NoSpace\n"),
    (Refusal::Call(CallRefusal::NoInodes), "refused NoInodes\n"),
    (Refusal::Call(CallRefusal::TooLarge), "refused TooLarge\n"),
    (Refusal::Call(CallRefusal::ReadOnly), "refused ReadOnly\n"),
    (Refusal::Call(CallRefusal::LinkLimit), "refused LinkLimit\n"),
    (
        Refusal::Call(CallRefusal::IntoItself),
        "refused IntoItself\n",
    ),
    (Refusal::Call(CallRefusal::BadCpu), "refused BadCpu\n"),
    (
        Refusal::Call(CallRefusal::IsVersion2),
        "refused IsVersion2\n",
    ),
];

const NUMBERS: Super = Super {
    version: 1,
    cpus: 64,
    blocks: 65536,
    table_blocks: 63,
    state: 0,
};

const ROOT: Stat = Stat {
    inode: 1,
    kind: Kind::Directory,
    mode: 493,
    owner: 0,
    group: 0,
    size: 0,
    links: 1,
    time: 18446744073709551615,
};

const FILE: Stat = Stat {
    inode: 14,
    kind: Kind::File,
    mode: 4095,
    owner: 4294967295,
    group: 7,
    size: 6000,
    links: 2,
    time: 446929405319,
};

fn push_inodes(out: &mut String) -> Result<(), AllocError> {
    push_inode_line(out, &ROOT)?;
    push_log_line(out, &[3, 4], 20488)?;
    push_stat_line(out, &FILE)?;
    push_log_line(out, &[], 24648)?;
    push_page_line(out, 0, 2, 7)
}

const INODES: &str = "\
inode 1 dir mode 493 owner 0 group 0 size 0 links 1 time 18446744073709551615
  log 3 4 tail 20488
stat inode 14 file mode 4095 owner 4294967295 group 7 size 6000 links 2 time 446929405319
  log tail 24648
  page 0 2 7
";

const NAMES: [(&[u8], &str); 9] = [
    (b"a", "  name a 3\n"),
    (b"..a", "  name ..a 3\n"),
    (b"#", "  name # 3\n"),
    (b"!~", "  name !~ 3\n"),
    (b"a b", "  name a\\x20b 3\n"),
    (b"x\\y", "  name x\\x5cy 3\n"),
    (b"\x01\x7f", "  name \\x01\\x7f 3\n"),
    (b"\xc3\xa9", "  name \\xc3\\xa9 3\n"),
    (b"\xff", "  name \\xff 3\n"),
];

fn push_contents(out: &mut String) -> Result<(), AllocError> {
    push_list_line(out, b"x", 6)?;
    push_data_line(out, b"AAA\x00\x0a\xff")?;
    push_data_line(out, b"")
}

/// The runs of two pools, of which the second has none.
fn two_pools(alloc: Global) -> Result<Vec<Vec<Run>>, AllocError> {
    let mut runs = Vec::new(alloc);
    for (start, count) in [(11, 1), (32, 1), (35, 19), (55, 9), (65, 1), (67, 3)].iter() {
        runs.push(Run {
            start: *start,
            count: *count,
        })?;
    }
    let mut pools = Vec::new(alloc);
    pools.push(runs)?;
    pools.push(Vec::new(alloc))?;
    Ok(pools)
}

const ONE_RUN: [Run; 1] = [Run {
    start: 4,
    count: 12,
}];

fn push_pools(alloc: Global, out: &mut String) -> Result<(), AllocError> {
    push_free_lines(out, &two_pools(alloc)?)?;
    push_free_line(out, 7, &ONE_RUN)
}

const FAULTS: [(Fault, &str); 23] = [
    (Fault::J1 { cpu: 1 }, "fault J1 cpu 1\n"),
    (
        Fault::J2 {
            cpu: 0,
            record: 251,
        },
        "fault J2 cpu 0 record 251\n",
    ),
    (Fault::H1 { cpu: 0, at: 4112 }, "fault H1 cpu 0 at 4112\n"),
    (
        Fault::H2 { cpu: 63, at: 40960 },
        "fault H2 cpu 63 at 40960\n",
    ),
    (Fault::I1 { inode: 15 }, "fault I1 inode 15\n"),
    (Fault::I2 { inode: 10 }, "fault I2 inode 10\n"),
    (Fault::I3 { inode: 11 }, "fault I3 inode 11\n"),
    (
        Fault::L1 {
            inode: 1,
            at: 24544,
        },
        "fault L1 inode 1 at 24544\n",
    ),
    (
        Fault::L2 {
            inode: 3,
            at: 57312,
        },
        "fault L2 inode 3 at 57312\n",
    ),
    (
        Fault::L3 {
            inode: 1,
            at: 12320,
        },
        "fault L3 inode 1 at 12320\n",
    ),
    (
        Fault::L4 {
            inode: 1,
            at: 110592,
        },
        "fault L4 inode 1 at 110592\n",
    ),
    (
        Fault::E1 {
            inode: 1,
            at: 12544,
        },
        "fault E1 inode 1 at 12544\n",
    ),
    (
        Fault::E2 {
            inode: 1,
            at: 61504,
        },
        "fault E2 inode 1 at 61504\n",
    ),
    (
        Fault::E3 {
            inode: 1,
            at: 20576,
        },
        "fault E3 inode 1 at 20576\n",
    ),
    (
        Fault::E4 {
            inode: 1,
            at: 20512,
        },
        "fault E4 inode 1 at 20512\n",
    ),
    (
        Fault::C1 {
            directory: 1,
            at: 12352,
        },
        "fault C1 inode 1 at 12352\n",
    ),
    (Fault::C2 { inode: 11 }, "fault C2 inode 11\n"),
    (Fault::C3 { inode: 12 }, "fault C3 inode 12\n"),
    (Fault::C4 { inode: 2 }, "fault C4 inode 2\n"),
    (Fault::C5, "fault C5\n"),
    (
        Fault::B1 {
            block: 11,
            owner: Owner::Log { inode: 1, page: 0 },
        },
        "fault B1 block 11 log 1 0\n",
    ),
    (
        Fault::B1 {
            block: 8,
            owner: Owner::Data { inode: 2, page: 1 },
        },
        "fault B1 block 8 data 2 1\n",
    ),
    (
        Fault::B1 {
            block: 9,
            owner: Owner::Table { cpu: 1, place: 2 },
        },
        "fault B1 block 9 table 1 2\n",
    ),
];

fn push_both_faults(out: &mut String) -> Result<(), AllocError> {
    push_faults(out, &[])?;
    push_faults(out, &[Fault::C3 { inode: 8 }, Fault::C5])
}

/// What is shown.
#[derive(Clone, Copy)]
enum Shown<'a> {
    Answers,
    Region,
    Inodes,
    Contents,
    Pools,
    /// None, and then two.
    Faults,
    Refusal(Refusal),
    Name(&'a [u8]),
    Fault(&'a Fault),
}

fn push(alloc: Global, out: &mut String, shown: Shown<'_>) -> Result<(), AllocError> {
    match shown {
        Shown::Answers => push_answers(out),
        Shown::Region => push_region_line(out, &NUMBERS),
        Shown::Inodes => push_inodes(out),
        Shown::Contents => push_contents(out),
        Shown::Pools => push_pools(alloc, out),
        Shown::Faults => push_both_faults(out),
        Shown::Refusal(refusal) => push_refused(out, refusal),
        Shown::Name(name) => push_name_line(out, name, 3),
        Shown::Fault(fault) => push_fault_line(out, fault),
    }
}

/// It has this text.
fn is_shown(
    rt: &impl Abort,
    alloc: Global,
    shown: Shown<'_>,
    text: &str,
) -> Result<(), AllocError> {
    let mut out = String::new(alloc);
    push(alloc, &mut out, shown)?;
    assert!(rt; out.as_str() == text, "{text}");
    Ok(())
}

const TEXTS: [(Shown<'static>, &str); 6] = [
    (Shown::Answers, ANSWERS),
    (
        Shown::Region,
        "region version 1 cpus 64 blocks 65536 tables 63 state 0\n",
    ),
    (Shown::Inodes, INODES),
    (Shown::Contents, "x 6\ndata 414141000aff\ndata\n"),
    (
        Shown::Pools,
        "free 0 11 32 35-53 55-63 65 67-69\nfree 1\nfree 7 4-15\n",
    ),
    (Shown::Faults, "no faults\nfault C3 inode 8\nfault C5\n"),
];

#[test]
fn values_have_their_lines(rt: HostRuntime) -> Result<(), AllocError> {
    for (shown, text) in TEXTS.iter() {
        is_shown(&rt, rt.alloc(), *shown, text)?;
    }
    Ok(())
}

#[test]
fn each_refusal_has_its_name(rt: HostRuntime) -> Result<(), AllocError> {
    for (refusal, line) in REFUSALS.iter() {
        is_shown(&rt, rt.alloc(), Shown::Refusal(*refusal), line)?;
    }
    Ok(())
}

#[test]
fn a_byte_that_could_be_mistaken_is_escaped(rt: HostRuntime) -> Result<(), AllocError> {
    for (name, line) in NAMES.iter() {
        is_shown(&rt, rt.alloc(), Shown::Name(name), line)?;
    }
    Ok(())
}

#[test]
fn each_class_of_fault_has_its_line(rt: HostRuntime) -> Result<(), AllocError> {
    for (fault, line) in FAULTS.iter() {
        is_shown(&rt, rt.alloc(), Shown::Fault(fault), line)?;
    }
    Ok(())
}
