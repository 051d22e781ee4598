//! What a call answers to C.

ghost use Rattle.std.specs.Prelude.{◌≡◌, ◌≢◌, ◌≤◌};
ghost use Rattle.nova_c.specs.Codes.{format_status, recover_status, status_of, super_status};

use nv_format::FormatRefusal;
use nv_recover::RecoverError;
use nv_region::RegionRefusal;
use nv_super::SuperFault;
use nv_tree::Refusal;

/// The call was made.
pub(crate) const DONE: u32 = 0;

/// Memory was refused.
pub(crate) const MEMORY: u32 = 14;

/// The memory was stopped. The memory of this library never is.
const STOPPED: u32 = 15;

/// The handle is closed.
pub(crate) const CLOSED: u32 = 16;

/// The handle is open already.
pub(crate) const BUSY: u32 = 17;

/// What is to be told doesn't fit into the caller's buffer.
pub(crate) const TOO_SMALL: u32 = 18;

/// The region's length is none that a superblock may have.
pub(crate) const BAD_LENGTH: u32 = 20;

/// The region's length is none that can be formatted.
pub(crate) const BAD_FORMAT_LENGTH: u32 = 30;

/// The status of a refused call: 1 to 15 and 19, in the order of `Refusal`.
pub(crate) fn code(refusal: Refusal) -> u32
    ensures says { result ≡ status_of refusal }
    ensures some { 1 ≤ result }
    ensures apart { result ≢ 18 }
{
    match refusal {
        Refusal::NotFound => 1,
        Refusal::Exists => 2,
        Refusal::NotDirectory => 3,
        Refusal::IsDirectory => 4,
        Refusal::NotEmpty => 5,
        Refusal::BadName => 6,
        Refusal::NoSpace => 7,
        Refusal::NoInodes => 8,
        Refusal::TooLarge => 9,
        Refusal::ReadOnly => 10,
        Refusal::LinkLimit => 11,
        Refusal::IntoItself => 12,
        Refusal::BadCpu => 13,
        Refusal::Memory => 14,
        Refusal::Stopped => 15,
        Refusal::IsVersion2 => 19,
    }
}

// The status of a region whose superblock isn't accepted, by its first fault: 20 to 26.
fn super_code(fault: SuperFault) -> u32
    ensures { result ≡ super_status fault }
{
    match fault {
        SuperFault::Length => BAD_LENGTH,
        SuperFault::Magic => 21,
        SuperFault::Version => 22,
        SuperFault::Cpus => 23,
        SuperFault::Blocks => 24,
        SuperFault::Tables => 25,
        SuperFault::State => 26,
    }
}

/// The status of a region that wasn't recovered.
pub(crate) fn recover_code(error: RecoverError) -> u32
    ensures { result ≡ recover_status error }
{
    match error {
        RecoverError::Super(fault) => super_code(fault),
        RecoverError::Memory => MEMORY,
        RecoverError::Stopped => STOPPED,
        RecoverError::Workers => 27,
        RecoverError::Schedule(_) => 28,
    }
}

/// The status of a region that wasn't formatted.
pub(crate) fn format_code(refusal: FormatRefusal) -> u32
    ensures { result ≡ format_status refusal }
{
    match refusal {
        FormatRefusal::Length => BAD_FORMAT_LENGTH,
        FormatRefusal::Cpus => 31,
        FormatRefusal::Tables => 32,
        FormatRefusal::Stopped => STOPPED,
    }
}

/// The status of a region that wasn't made, with that for its length.
pub(crate) fn region_code(refusal: RegionRefusal, length: u32) -> u32
    ensures length { refusal ≡ RegionRefusal.Length → result ≡ length }
    ensures memory { refusal ≡ RegionRefusal.Memory → result ≡ 14 }
{
    match refusal {
        RegionRefusal::Length => length,
        RegionRefusal::Memory => MEMORY,
    }
}
