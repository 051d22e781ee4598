//! Whether a text that a command printed tells its refusal.

ghost use Rattle.std.specs.Prelude.{◌≡◌, ◌<◌, ◌^◌, ◌++◌, ◌↔◌, ℕ, List, IsTrue, IfSome, IfNone, codes};
ghost use Rattle.nv_text.specs.Escapes.{AreBytes};
ghost use Rattle.nv_text.specs.Names.{list_line};
ghost use Rattle.nv_text.specs.RefusalLines.{IsRefusalLine, names_one};

use crate::refusals::Refusal;
use nv_format::FormatRefusal;
use nv_super::SuperFault;
use nv_tree::Refusal as CallRefusal;

// The refusals that are printed: all but a stop and want of memory.
const PRINTED: [Refusal; 30] = [
    Refusal::NoRegion,
    Refusal::NotMounted,
    Refusal::Address,
    Refusal::Length,
    Refusal::Workers,
    Refusal::Schedule,
    Refusal::Format(FormatRefusal::Length),
    Refusal::Format(FormatRefusal::Cpus),
    Refusal::Format(FormatRefusal::Tables),
    Refusal::Super(SuperFault::Length),
    Refusal::Super(SuperFault::Magic),
    Refusal::Super(SuperFault::Version),
    Refusal::Super(SuperFault::Cpus),
    Refusal::Super(SuperFault::Blocks),
    Refusal::Super(SuperFault::Tables),
    Refusal::Super(SuperFault::State),
    Refusal::Call(CallRefusal::NotFound),
    Refusal::Call(CallRefusal::Exists),
    Refusal::Call(CallRefusal::NotDirectory),
    Refusal::Call(CallRefusal::IsDirectory),
    Refusal::Call(CallRefusal::NotEmpty),
    Refusal::Call(CallRefusal::BadName),
    Refusal::Call(CallRefusal::NoSpace),
    Refusal::Call(CallRefusal::NoInodes),
    Refusal::Call(CallRefusal::TooLarge),
    Refusal::Call(CallRefusal::ReadOnly),
    Refusal::Call(CallRefusal::LinkLimit),
    Refusal::Call(CallRefusal::IntoItself),
    Refusal::Call(CallRefusal::BadCpu),
    Refusal::Call(CallRefusal::IsVersion2),
];

/// Whether a text is `refused NAME` and the end of a line, where NAME is the name of a refusal that is printed.
pub fn is_refusal_line(text: &[u8]) -> bool
    ensures { IsTrue result ↔ IsRefusalLine text.now }
{
    match refused_name(text) {
        Some(name) => is_name_of_one(&PRINTED, name),
        None => false,
    }
}

// What stands between `refused ` and the end of the line.
fn refused_name(text: &[u8]) -> Option<&[u8]>
    ensures some { IfSome result (λ name. text.now ≡ codes "refused " ++ name.now ++ codes "\n") }
    ensures none { IfNone result ((name : List ℕ) → text.now ≡ codes "refused " ++ name ++ codes "\n" → ⊥) }
{
    match text {
        [
            b'r',
            b'e',
            b'f',
            b'u',
            b's',
            b'e',
            b'd',
            b' ',
            name @ ..,
            b'\n',
        ] => Some(name),
        _ => None,
    }
}

// Whether this is the name of one of these.
#[tactic(auto, unfolding(crate::specs::RefusalLines::names_one))]
fn is_name_of_one(these: &[Refusal], name: &[u8]) -> bool
    ensures { result ≡ names_one these.now name.now }
{
    these
        .iter()
        .any(|refusal| refusal.name().as_bytes() == name)
}

/// What shows the names of a directory is never told as a refusal, whatever these are: not with this name as the first.
pub fn no_list_is_refused()
    ensures { (name more : List ℕ) (inode : ℕ) → AreBytes name → inode < 2 ^ 64 → IsRefusalLine (list_line name inode ++ more) → ⊥ }
{}
