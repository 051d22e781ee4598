//! The lines of the faults.

ghost use Rattle.std.specs.Prelude.{◌≡◌, ◌++◌, OnOk, string_bytes, flat_map};
ghost use Rattle.nv_text.specs.Faults.{fault_line, faults_text};

use nv_super::Fault;
use std::alloc::AllocError;
use std::fmt::Write;

/// `fault`, its class and its fields.
pub fn push_fault_line(out: &mut String, fault: &Fault) -> Result<(), AllocError>
    ensures { OnOk result (string_bytes out.new ≡ string_bytes out.old ++ fault_line fault.now) }
{
    writeln!(out, "fault {fault}")
}

fn push_fault_lines(out: &mut String, faults: &[Fault]) -> Result<(), AllocError>
    ensures { OnOk result (string_bytes out.new ≡ string_bytes out.old ++ flat_map fault_line faults.now) }
{
    for fault in faults {
        push_fault_line(out, fault)?;
    }
    Ok(())
}

/// A line for each fault, or `no faults`.
pub fn push_faults(out: &mut String, faults: &[Fault]) -> Result<(), AllocError>
    ensures { OnOk result (string_bytes out.new ≡ string_bytes out.old ++ faults_text faults.now) }
{
    if faults.is_empty() {
        return out.push_str("no faults\n");
    }
    push_fault_lines(out, faults)
}
