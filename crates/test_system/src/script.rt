//! Scripts with all that they print and their exit statuses.

use crate::broken_streams::{Closing, Failing};
use crate::damage::{CHAINS, JOURNALS, LOGS, NAMES, REPLAYED};
use crate::first_reasons::FIRST_REASONS;
use crate::written::{REFUSED, STOPPED, WRITTEN};
use nv_script::{ScriptError, run_script};
use std::alloc::{AllocError, Global};
use std::process::Abort;
use std::test::Fail;
use std::thread::Threads;

// Regions of one and of more CPUs, a large one, and one without a free block.
const FIRST_PATH: [(&str, &str, u8); 7] = [
    (
        "format 64 130 1\nrecover 1\nfree\n",
        "ok\nrecovered inodes 1 free 0 faults 0\nfree 0\nfree 1\nfree 2\nfree 3\nfree 4\nfree 5\n\
             free 6\nfree 7\nfree 8\nfree 9\nfree 10\nfree 11\nfree 12\nfree 13\nfree 14\nfree 15\nfree 16\n\
             free 17\nfree 18\nfree 19\nfree 20\nfree 21\nfree 22\nfree 23\nfree 24\nfree 25\nfree 26\n\
             free 27\nfree 28\nfree 29\nfree 30\nfree 31\nfree 32\nfree 33\nfree 34\nfree 35\nfree 36\n\
             free 37\nfree 38\nfree 39\nfree 40\nfree 41\nfree 42\nfree 43\nfree 44\nfree 45\nfree 46\n\
             free 47\nfree 48\nfree 49\nfree 50\nfree 51\nfree 52\nfree 53\nfree 54\nfree 55\nfree 56\n\
             free 57\nfree 58\nfree 59\nfree 60\nfree 61\nfree 62\nfree 63\n",
        0,
    ),
    (
        "format 64 65536 64\nrecover 1\nreport\n",
        "ok\nrecovered inodes 1 free 61374 faults 0\n\
             region version 1 cpus 64 blocks 65536 tables 64 state 0\n\
             inode 1 dir mode 493 owner 0 group 0 size 0 links 1 time 0\n  log 4161 tail 17043488\n\
             free 0 4162-5118\nfree 1 5119-6077\nfree 2 6078-7036\nfree 3 7037-7995\nfree 4 7996-8954\n\
             free 5 8955-9913\nfree 6 9914-10872\nfree 7 10873-11831\nfree 8 11832-12790\n\
             free 9 12791-13749\nfree 10 13750-14708\nfree 11 14709-15667\nfree 12 15668-16626\n\
             free 13 16627-17585\nfree 14 17586-18544\nfree 15 18545-19503\nfree 16 19504-20462\n\
             free 17 20463-21421\nfree 18 21422-22380\nfree 19 22381-23339\nfree 20 23340-24298\n\
             free 21 24299-25257\nfree 22 25258-26216\nfree 23 26217-27175\nfree 24 27176-28134\n\
             free 25 28135-29093\nfree 26 29094-30052\nfree 27 30053-31011\nfree 28 31012-31970\n\
             free 29 31971-32929\nfree 30 32930-33888\nfree 31 33889-34847\nfree 32 34848-35806\n\
             free 33 35807-36765\nfree 34 36766-37724\nfree 35 37725-38683\nfree 36 38684-39642\n\
             free 37 39643-40601\nfree 38 40602-41560\nfree 39 41561-42519\nfree 40 42520-43478\n\
             free 41 43479-44437\nfree 42 44438-45396\nfree 43 45397-46355\nfree 44 46356-47314\n\
             free 45 47315-48273\nfree 46 48274-49232\nfree 47 49233-50191\nfree 48 50192-51150\n\
             free 49 51151-52109\nfree 50 52110-53068\nfree 51 53069-54027\nfree 52 54028-54986\n\
             free 53 54987-55945\nfree 54 55946-56904\nfree 55 56905-57863\nfree 56 57864-58822\n\
             free 57 58823-59781\nfree 58 59782-60740\nfree 59 60741-61699\nfree 60 61700-62658\n\
             free 61 62659-63617\nfree 62 63618-64576\nfree 63 64577-65535\nno faults\n",
        0,
    ),
    (
        "format 1 7 1\nformat 0 16 1\nformat 1 8 6\n",
        "refused Length\nrefused Cpus\nrefused Tables\n",
        0,
    ),
    (
        "format 1 16 1\nrecover 1\nreport\n",
        "ok\nrecovered inodes 1 free 12 faults 0\nregion version 1 cpus 1 blocks 16 tables 1 state 0\n\
             inode 1 dir mode 493 owner 0 group 0 size 0 links 1 time 0\n  log 3 tail 12320\nfree 0 4-15\n\
             no faults\n",
        0,
    ),
    (
        "time 7\nformat 1 16 1\nrecover 1\ntree\n",
        "ok\nok\nrecovered inodes 1 free 12 faults 0\n\
             inode 1 dir mode 493 owner 0 group 0 size 0 links 1 time 7\n  log 3 tail 12320\n",
        0,
    ),
    (
        "format 2 64 1\nrecover 1\nfree\n",
        "ok\nrecovered inodes 1 free 58 faults 0\nfree 0 6-33\nfree 1 34-63\n",
        0,
    ),
    (
        "format 2 64 1\nrecover 1\ntree\n",
        "ok\nrecovered inodes 1 free 58 faults 0\n\
             inode 1 dir mode 493 owner 0 group 0 size 0 links 1 time 0\n  log 5 tail 20512\n",
        0,
    ),
];

// Lines that are skipped, and lines that are no command.
const LINES: [(&str, &str, u8); 23] = [
    ("", "", 0),
    ("# a\n\ntime 7", "ok\n", 0),
    ("time 18446744073709551615\n", "ok\n", 0),
    ("time 18446744073709551616\ntime 1\n", "bad line 1\n", 2),
    ("time 07\ntime 7\n", "bad line 1\n", 2),
    ("time 1\n# c\n\n time 2\ntime 3\n", "ok\nbad line 4\n", 2),
    ("tree \n", "bad line 1\n", 2),
    ("time  1\n", "bad line 1\n", 2),
    ("TREE\n", "bad line 1\n", 2),
    ("recover 1\r\n", "bad line 1\n", 2),
    ("peek -1\n", "bad line 1\n", 2),
    ("peek +1\n", "bad line 1\n", 2),
    ("format 1 16\n", "bad line 1\n", 2),
    ("format 1 16 1 1\n", "bad line 1\n", 2),
    ("move 0 /a /b\n", "bad line 1\n", 2),
    ("link 0 /a\n", "bad line 1\n", 2),
    ("rmdir 0 /a /b\n", "bad line 1\n", 2),
    ("create 0\n", "bad line 1\n", 2),
    ("attr 0 / 4294967296 0 0\n", "bad line 1\n", 2),
    ("attr 0 / 0 0 4294967296\n", "bad line 1\n", 2),
    ("write 0 /a 0 1073741825 0\n", "bad line 1\n", 2),
    ("write 0 /a 0 1 256\n", "bad line 1\n", 2),
    (
        "format 1 16 1\nrecover 1\n\t\nreport\n",
        "ok\nrecovered inodes 1 free 12 faults 0\nbad line 3\n",
        2,
    ),
];

// Each refusal, and what it leaves.
const REFUSALS: [(&str, &str, u8); 16] = [
    ("recover 1\n", "refused NoRegion\n", 2),
    ("recover 65\n", "refused NoRegion\n", 2),
    ("peek 4\n", "refused NoRegion\n", 0),
    (
        "tree\nfree\nfaults\nreport\n",
        "refused NotMounted\nrefused NotMounted\nrefused NotMounted\nrefused NotMounted\n",
        0,
    ),
    ("format 1 16 1\ntree\n", "ok\nrefused NotMounted\n", 0),
    (
        "format 1 16 1\nrecover 0\nrecover 65\nrecover 64\n",
        "ok\nrefused Workers\nrefused Workers\nrecovered inodes 1 free 12 faults 0\n",
        0,
    ),
    (
        "format 1 16 1\nrecover 18446744073709551615\n",
        "ok\nrefused Workers\n",
        2,
    ),
    (
        "format 1 16 1\nrecover 1\nrecover 65\ntree\n",
        "ok\nrecovered inodes 1 free 12 faults 0\nrefused Workers\nrefused NotMounted\n",
        2,
    ),
    (
        "format 1 16 1\nrecover 1\nrecover 0\ntime 1\nformat 1 16 1\n",
        "ok\nrecovered inodes 1 free 12 faults 0\nrefused Workers\nok\nok\n",
        2,
    ),
    (
        "format 1 16 1\nrecover 1\nformat 1 7 1\nfree\n",
        "ok\nrecovered inodes 1 free 12 faults 0\nrefused Length\nfree 0 4-15\n",
        0,
    ),
    (
        "format 1 16 1\nrecover 1\nformat 0 16 1\ntree\n",
        "ok\nrecovered inodes 1 free 12 faults 0\nrefused Cpus\n\
             inode 1 dir mode 493 owner 0 group 0 size 0 links 1 time 0\n  log 3 tail 12320\n",
        0,
    ),
    (
        "format 1 16 1\nrecover 1\nformat 1 16 1\nfree\n",
        "ok\nrecovered inodes 1 free 12 faults 0\nok\nrefused NotMounted\n",
        0,
    ),
    (
        "format 0 0 0\nformat 0 7 0\nformat 1 262145 1\n\
             format 1 18446744073709551615 1\n",
        "refused Length\nrefused Length\nrefused Length\nrefused Length\n",
        0,
    ),
    (
        "format 0 16 0\nformat 65 16 1\nformat 18446744073709551615 16 1\n",
        "refused Cpus\nrefused Cpus\nrefused Cpus\n",
        0,
    ),
    (
        "format 1 16 0\nformat 1 16 65\nformat 64 130 2\nformat 1 16 14\n",
        "refused Tables\nrefused Tables\nrefused Tables\nrefused Tables\n",
        0,
    ),
    ("format 1 16 13\n", "ok\n", 0),
];

// The words of a region after format: its superblock, a journal and slots, and the entry of the root.
const WORDS: [(&str, &str, u8); 5] = [
    (
        "time 5\nformat 1 16 1\npeek 0\npeek 8\npeek 16\npeek 24\npeek 32\npeek 40\n",
        "ok\nok\nword 3544417913829478222\nword 1\nword 1\nword 16\nword 1\nword 0\n",
        0,
    ),
    (
        "time 5\nformat 1 16 1\npeek 4096\npeek 4104\npeek 8192\npeek 8320\npeek 8328\npeek 8336\n\
             peek 8344\npeek 8352\npeek 8448\n",
        "ok\nok\nword 0\nword 0\nword 0\nword 1\nword 2\nword 12288\nword 12320\nword 5\nword 0\n",
        0,
    ),
    (
        "time 5\nformat 1 16 1\npeek 12288\npeek 12296\npeek 12304\npeek 12312\npeek 12320\n",
        "ok\nok\nword 2117420974082\nword 0\nword 5\nword 0\nword 0\n",
        0,
    ),
    (
        "format 1 16 1\npeek 65528\npeek 65536\npeek 65532\npeek 4\npeek 18446744073709551608\n\
             peek 18446744073709551615\n",
        "ok\nword 0\nrefused Address\nrefused Address\nrefused Address\nrefused Address\n\
             refused Address\n",
        0,
    ),
    (
        "format 1 16 1\nrecover 1\npeek 0\npeek 1\nfree\n",
        "ok\nrecovered inodes 1 free 12 faults 0\nword 3544417913829478222\nrefused Address\n\
             free 0 4-15\n",
        0,
    ),
];

// What `poke`, `cut` and `replay` are refused, and what they leave, where nothing is recovered.
const CHANGES: [(&str, &str, u8); 7] = [
    (
        "poke 1 1\ncut 0\nreplay 1\nreplay 0 5\n",
        "refused NoRegion\nrefused NoRegion\nrefused NoRegion\nrefused NoRegion\n",
        2,
    ),
    (
        "format 1 16 1\npoke 4 1\npoke 65536 1\npoke 65532 1\npoke 18446744073709551608 1\ncut 65537\n\
             cut 18446744073709551615\n",
        "ok\nrefused Address\nrefused Address\nrefused Address\nrefused Address\nrefused Length\n\
             refused Length\n",
        0,
    ),
    (
        "format 1 16 1\nreplay 0 5\nreplay 65\nreplay 2 0 1 2\nreplay 64 64\nreplay 1 4294967296\n\
             replay 1 18446744073709551615\n",
        "ok\nrefused Workers\nrefused Workers\nrefused Schedule\nrefused Schedule\nrefused Schedule\n\
             refused Schedule\n",
        2,
    ),
    (
        "format 1 16 1\npoke 0 7\npeek 0\npoke 65528 18446744073709551615\npeek 65528\n",
        "ok\nok\nword 7\nok\nword 18446744073709551615\n",
        0,
    ),
    (
        "format 1 16 1\ncut 65535\npeek 65520\npeek 65528\npoke 65528 1\ncut 8\npeek 0\npeek 8\ncut 7\n\
             peek 0\ncut 0\ncut 0\npeek 0\ncut 1\n",
        "ok\nok\nword 0\nrefused Address\nrefused Address\nok\nword 3544417913829478222\n\
             refused Address\nok\nrefused Address\nok\nok\nrefused Address\nrefused Length\n",
        0,
    ),
    (
        "format 1 16 1\ncut 65536\ntree\n",
        "ok\nok\nrefused NotMounted\n",
        0,
    ),
    (
        "format 1 16 1\ncut 4096\nrecover 1\nrecover 0\nreplay 1 1\ntime 1\n",
        "ok\nok\nrefused S1\nrefused Workers\nrefused Schedule\nok\n",
        2,
    ),
];

// What `poke` and `cut` do to a mount, and what a status outlives.
const MOUNTS: [(&str, &str, u8); 5] = [
    (
        "format 1 16 1\nrecover 1\npoke 4 0\ncut 65537\nfree\npoke 65528 0\nfree\n",
        "ok\nrecovered inodes 1 free 12 faults 0\nrefused Address\nrefused Length\nfree 0 4-15\nok\n\
             refused NotMounted\n",
        0,
    ),
    (
        "format 1 16 1\nrecover 1\ncut 65536\nfaults\nreplay 2 1 0\nfaults\n",
        "ok\nrecovered inodes 1 free 12 faults 0\nok\nrefused NotMounted\n\
             recovered inodes 1 free 12 faults 0\nno faults\n",
        0,
    ),
    (
        "time 9\nformat 1 16 1\npoke 8 3\ncut 65536\nrecover 1\nformat 1 16 1\nrecover 1\ntree\n",
        "ok\nok\nok\nok\nrefused S3\nok\nrecovered inodes 1 free 12 faults 0\n\
             inode 1 dir mode 493 owner 0 group 0 size 0 links 1 time 9\n  log 3 tail 12320\n",
        0,
    ),
    (
        "format 1 16 1\npoke 8320 0\nrecover 1\nformat 1 16 1\n",
        "ok\nok\nrecovered inodes 0 free 13 faults 1\nok\n",
        1,
    ),
    (
        "format 1 16 1\nrecover 1\nreplay 1 1\nfree\n",
        "ok\nrecovered inodes 1 free 12 faults 0\nrefused Schedule\nrefused NotMounted\n",
        2,
    ),
];

// Calls that read a mounted region.
const FILES: [(&str, &str, u8); 4] = [
    (
        "stat /\nlist /\nread / 0 1\n",
        "refused NotMounted\nrefused NotMounted\nrefused NotMounted\n",
        0,
    ),
    (
        "time 9\nformat 1 16 1\nrecover 1\nstat /\nlist /\ntree\n",
        "ok\nok\nrecovered inodes 1 free 12 faults 0\n\
             stat inode 1 dir mode 493 owner 0 group 0 size 0 links 1 time 9\n\
             inode 1 dir mode 493 owner 0 group 0 size 0 links 1 time 9\n  log 3 tail 12320\n",
        0,
    ),
    (
        "format 1 16 1\nrecover 1\nstat /a\nlist /a\nstat /a/b\nstat a\nlist //\nstat /..\n",
        "ok\nrecovered inodes 1 free 12 faults 0\nrefused NotFound\nrefused NotFound\n\
             refused NotFound\nrefused BadName\nrefused BadName\nrefused BadName\n",
        0,
    ),
    // A file of six bytes, whose block goes on behind them.
    (
        "format 1 16 1\npoke 12320 4297064707\npoke 12328 2\npoke 12344 97\npoke 8344 12352\n\
             poke 16384 1803888361474\npoke 16416 4297588737\npoke 16432 5\npoke 16440 6\n\
             poke 16448 4\npoke 20480 9423910034499944\npoke 8456 1\npoke 8464 16384\npoke 8472 16456\n\
             poke 8448 1\nrecover 1\nlist /\nstat /a\nread /a 0 99\nread /a 4 1\nread /a 6 1\n\
             read /a 5 18446744073709551615\nread /a 0 0\nread / 0 1\nread /b 0 1\nlist /a\nread /a/b 0 1\n",
        "ok\nok\nok\nok\nok\nok\nok\nok\nok\nok\nok\nok\nok\nok\nok\n\
             recovered inodes 2 free 10 faults 0\na 2\n\
             stat inode 2 file mode 420 owner 0 group 0 size 6 links 1 time 4\n\
             data 6869000aff7a\ndata ff\ndata\ndata 7a\ndata\nrefused IsDirectory\n\
             refused NotFound\nrefused NotDirectory\nrefused NotDirectory\n",
        0,
    ),
];

// A format of so few blocks stores and fences 53 times; the magic is the last store before the last fence.
const STOPS: [(&str, &str, u8); 8] = [
    (
        "stop after 0 all\nformat 1 16 1\npeek 0\npeek 8\nrecover 1\n",
        "ok\nstopped\nword 0\nword 0\nrefused S2\n",
        2,
    ),
    (
        "stop after 52 none\nformat 1 16 1\nrecover 1\npeek 8\n",
        "ok\nstopped\nrefused S2\nword 1\n",
        2,
    ),
    (
        "stop after 52 all\nformat 1 16 1\nrecover 1\n",
        "ok\nstopped\nrecovered inodes 1 free 12 faults 0\n",
        0,
    ),
    (
        "stop after 53 none\nformat 1 16 1\nstop at 24 none\nrecover 1\n",
        "ok\nok\nok\nrecovered inodes 1 free 12 faults 0\n",
        0,
    ),
    (
        "stop after 0 none\ntime 1\nformat 1 16 1\nstop after 0 none\nformat 1 7 1\nformat 1 16 1\n",
        "ok\nok\nok\nok\nrefused Length\nok\n",
        0,
    ),
    (
        "format 1 16 1\nrecover 1\nstop at 24 none\nformat 1 32 1\nstat /\npeek 65536\n",
        "ok\nrecovered inodes 1 free 12 faults 0\nok\nstopped\nrefused NotMounted\nword 0\n",
        0,
    ),
    // A record of a journal is pending: the root's tail is to be rolled back.
    (
        "format 1 16 1\npoke 4160 8344\npoke 4168 12320\npoke 8344 12352\npoke 4104 1\n\
             stop after 0 all\nrecover 1\npeek 8344\nstop after 1 all\nreplay 1 0\npeek 8344\ntree\n\
             recover 1\n",
        "ok\nok\nok\nok\nok\nok\nstopped\nword 12352\nok\nstopped\nword 12320\nrefused NotMounted\n\
             recovered inodes 1 free 12 faults 0\n",
        0,
    ),
    (
        "format 1 16 1\npoke 4160 8344\npoke 4168 12320\npoke 4104 1\nstop at 8344 none\nrecover 2\n",
        "ok\nok\nok\nok\nok\nstopped\n",
        2,
    ),
];

/// A script prints this, and ends with this status.
pub fn check_row<H: AllocGlobal + Abort + Threads + Sync>(
    rt: &H,
    script: &[u8],
    output: &str,
    status: u8,
) -> Result<(), Fail> {
    let mut out = Vec::new(rt.alloc());
    let answer = run_script(rt, rt.alloc(), script, &mut out)?;
    assert!(rt; out.as_slice() == output.as_bytes(), "{output}");
    assert!(rt; answer == status, "the status behind {output}");
    Ok(())
}

fn check_rows<H: AllocGlobal + Abort + Threads + Sync>(
    rt: &H,
    rows: &[(&str, &str, u8)],
) -> Result<(), Fail> {
    for (script, output, status) in rows {
        check_row(rt, script.as_bytes(), output, *status)?;
    }
    Ok(())
}

const ALL_ROWS: [&[(&str, &str, u8)]; 17] = [
    &FIRST_PATH,
    &LINES,
    &REFUSALS,
    &WORDS,
    &CHANGES,
    &MOUNTS,
    &FILES,
    &WRITTEN,
    &STOPPED,
    &REFUSED,
    &FIRST_REASONS,
    &STOPS,
    &LOGS,
    &CHAINS,
    &JOURNALS,
    &NAMES,
    &REPLAYED,
];

#[test]
fn scripts_print_what_is_due(rt: HostRuntime) -> Result<(), Fail> {
    for rows in ALL_ROWS.iter() {
        check_rows(&rt, rows)?;
    }
    Ok(())
}

/// A comment of so many bytes, and a command behind it.
fn long_script(alloc: Global, count: usize) -> Result<Vec<u8>, AllocError> {
    let mut script = vec![in alloc; b'#'; count]?;
    script.extend_from_slice(b"\ntime 1\n")?;
    Ok(script)
}

#[test]
fn a_line_of_more_than_4096_bytes_is_bad(rt: HostRuntime) -> Result<(), Fail> {
    check_row(&rt, &long_script(rt.alloc(), 4096)?, "ok\n", 0)?;
    check_row(&rt, &long_script(rt.alloc(), 4097)?, "bad line 1\n", 2)
}

/// What a script prints that reads two A's behind so many zeros.
fn long_output(alloc: Global, zeros: usize) -> Result<String, AllocError> {
    let mut output = String::new(alloc);
    output.push_str("ok\nrecovered inodes 1 free 12 faults 0\nok\nok\ndata ")?;
    for _ in 0..zeros {
        output.push_str("00")?;
    }
    output.push_str("4141\n")?;
    Ok(output)
}

// It is read a piece at a time; the first has all bytes but the last.
#[test]
fn a_long_read_prints_each_byte_once(rt: HostRuntime) -> Result<(), Fail> {
    const SCRIPT: &[u8] =
        b"format 1 16 1\nrecover 1\ncreate 0 /a\nwrite 0 /a 131071 2 65\nread /a 0 200000\n";
    check_row(&rt, SCRIPT, &long_output(rt.alloc(), 131_071)?, 0)
}

#[test]
fn a_reader_that_fails_keeps_the_output_of_the_lines_before(rt: HostRuntime) {
    let reader = Failing::new(b"time 1\nformat 1 16 1\nrecov");
    let mut out = Vec::new(rt.alloc());
    let answer = run_script(&rt, rt.alloc(), reader, &mut out);
    assert!(rt; answer == Err(ScriptError::Read));
    assert!(rt; out.as_slice() == b"ok\nok\n".as_slice());
}

#[test]
fn a_writer_that_closes_has_the_front(rt: HostRuntime) {
    let mut out = Closing::new(rt.alloc(), 12);
    let script = b"format 1 16 1\nrecover 1\nreport\n".as_slice();
    let answer = run_script(&rt, rt.alloc(), script, &mut out);
    assert!(rt; answer == Err(ScriptError::Write));
    assert!(rt; out.taken() == b"ok\nrecovered".as_slice());
}

// What the first lines of a script print, for each number of lines.
const FRONTS: [&str; 4] = [
    "",
    "ok\n",
    "ok\nrecovered inodes 1 free 58 faults 0\n",
    "ok\nrecovered inodes 1 free 58 faults 0\nfree 0 6-33\nfree 1 34-63\n",
];

fn is_one_of(out: &[u8], fronts: &[&str]) -> bool {
    for front in fronts {
        if out == front.as_bytes() {
            return true;
        }
    }
    false
}

// The script ends with `Memory` after whole lines, or all is printed.
fn assert_whole(rt: &impl Abort, answer: Result<u8, ScriptError>, out: &[u8]) {
    match answer {
        Ok(status) => assert!(rt; status == 0 && out == FRONTS[3].as_bytes()),
        Err(error) => assert!(rt; error == ScriptError::Memory && is_one_of(out, &FRONTS)),
    }
}

// An allocation may be made to fail that wasn't needed.
#[test]
fn want_of_memory_prints_whole_answers_alone(rt: HostRuntime) {
    let Ok(mut out) = Vec::with_capacity(rt.alloc(), 256) else {
        return;
    };
    let script = b"format 2 64 1\nrecover 1\nfree\n".as_slice();
    let answer = run_script(&rt, rt.alloc(), script, &mut out);
    assert_whole(&rt, answer, &out);
}

// What the lines before a long read print, for each number of lines.
const BEFORE_READING: [&str; 5] = [
    "",
    "ok\n",
    "ok\nrecovered inodes 1 free 12 faults 0\n",
    "ok\nrecovered inodes 1 free 12 faults 0\nok\n",
    "ok\nrecovered inodes 1 free 12 faults 0\nok\nok\n",
];

#[test]
fn want_of_memory_prints_nothing_of_a_long_read(rt: HostRuntime) {
    // Room for all that is printed, so that the writer wants no memory.
    let Ok(mut out) = Vec::with_capacity(rt.alloc(), 300_000) else {
        return;
    };
    let script =
        b"format 1 16 1\nrecover 1\ncreate 0 /a\nsize 0 /a 131073\nread /a 0 131073\n".as_slice();
    match run_script(&rt, rt.alloc(), script, &mut out) {
        Ok(status) => assert!(rt; status == 0 && out.len() == 45 + 5 + 262_146 + 1),
        Err(error) => {
            assert!(rt; error == ScriptError::Memory && is_one_of(&out, &BEFORE_READING));
        }
    }
}
