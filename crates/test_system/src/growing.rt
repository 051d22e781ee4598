//! A table of version 2 that is full grows by a block for a new inode. The words of that block, which was used before, are
//! compared with the format.

use crate::script::check_row;
use std::alloc::{AllocError, Global};
use std::test::Fail;

/// Words stand in block 34, where its link and the valid word of its second slot will be.
const BEGIN: &str = "format 1 64 1\npoke 139264 7\npoke 139520 1\nrecover 1\nupgrade\n";

const BEGUN: &str = "ok\nok\nok\nrecovered inodes 1 free 60 faults 0\nok\n";

/// The new inode and its slot, the link to its block, and what a recovery finds. Its log is block 35.
const GROWN: &str =
    "create 0 /x\nstat /x\npeek 4112\npeek 139264\npeek 139392\npeek 139408\npeek 139520\nrecover 2\nfree\n";

const SEEN: &str =
    "ok\nstat inode 32 file mode 420 owner 0 group 0 size 0 links 1 time 0\nword 139264\nword 0\n\
     word 1\nword 143360\nword 0\nrecovered inodes 32 free 28 faults 0\nfree 0 36-63\n";

/// Files get all numbers of the table that the root doesn't have, and the blocks 4 to 33 for their logs.
fn script_of(alloc: Global) -> Result<String, AllocError> {
    let mut script = String::new(alloc);
    script.push_str(BEGIN)?;
    for number in 2..32u64 {
        script.push_str(format!(in alloc; "create 0 /{number}\n")?.as_str())?;
    }
    script.push_str(GROWN)?;
    Ok(script)
}

fn output_of(alloc: Global) -> Result<String, AllocError> {
    let mut output = String::new(alloc);
    output.push_str(BEGUN)?;
    for _ in 2..32u64 {
        output.push_str("ok\n")?;
    }
    output.push_str(SEEN)?;
    Ok(output)
}

#[test]
fn a_full_table_grows(rt: HostRuntime) -> Result<(), Fail> {
    let script = script_of(rt.alloc())?;
    let output = output_of(rt.alloc())?;
    check_row(&rt, script.as_bytes(), output.as_str(), 0)
}
