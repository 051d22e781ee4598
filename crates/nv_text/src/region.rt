//! The line of a region: the numbers of its superblock.

ghost use Rattle.std.specs.Prelude.{◌≡◌, ◌++◌, OnOk, string_bytes};
ghost use Rattle.nv_text.specs.Report.{region_line};

use nv_super::Super;
use std::alloc::AllocError;
use std::fmt::Write;

/// `region version V cpus C blocks N tables T state X`.
pub fn push_region_line(out: &mut String, sup: &Super) -> Result<(), AllocError>
    ensures { OnOk result (string_bytes out.new ≡ string_bytes out.old ++ region_line sup.now) }
{
    let Super {
        version,
        cpus,
        blocks,
        table_blocks,
        state,
    } = *sup;
    writeln!(
        out,
        "region version {version} cpus {cpus} blocks {blocks} tables {table_blocks} state {state}"
    )
}
