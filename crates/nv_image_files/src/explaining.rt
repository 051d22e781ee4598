//! What each class of faults means. docs/FAULTS.md says the same, with an example of each.

ghost use Rattle.std.specs.Prelude.{◌≡◌, IfOk, IfErr, None, string_bytes};
ghost use Rattle.std.specs.Option.{option_map};
ghost use Rattle.nv_image_files.specs.Explaining.{class_named, explanation, IsUnexplained};

use crate::failure::Failure;
use nv_stream::write_text;
use nv_super::{FAULT_CLASSES, FaultClass};
use std::alloc::{AllocError, Global};
use std::fmt::Write;
use std::io;

/// Prints what the class of this name means, in upper or lower case. Answers the exit status 0.
///
/// Errors: `NoClass` where there is no such class, and want of memory or of a place to write to.
pub fn explain<'a, H: AllocGlobal + Print>(rt: &H, name: &'a str) -> Result<u8, Failure<'a>>
    ensures status { IfOk result (λ status. status ≡ 0) }
    ensures class { class_named name.now ≡ None → result ≡ Err (Failure.NoClass name.entry) }
    ensures error { IfErr result (IsUnexplained name.entry) }
{
    let Some(class) = class_of(name) else {
        return Err(Failure::NoClass(name));
    };
    let text = explanation_text(rt.alloc(), class)?;
    write_text(&mut io::writer(rt), text.as_bytes())?;
    Ok(0)
}

/// Prints the names of all classes on a line of standard error.
pub(crate) fn tell_classes<H: Eprint>(rt: &H) {
    let _ = eprint!(rt; "the classes are");
    for class in &FAULT_CLASSES {
        let _ = eprint!(rt; " {}", class.name);
    }
    let _ = eprintln!(rt; "");
}

// The class of this name, in upper or lower case.
fn class_of(name: &str) -> Option<FaultClass>
    ensures { option_map (λ class. class.name.now) result ≡ class_named name.now }
{
    for class in &FAULT_CLASSES {
        if class.name.eq_ignore_ascii_case(name) {
            return Some(*class);
        }
    }
    None
}

fn explanation_text(alloc: Global, class: FaultClass) -> Result<String, AllocError>
    ensures { IfOk result (λ text. string_bytes text ≡ explanation class.name.now class.title.now class.meaning.now) }
{
    let FaultClass {
        name,
        title,
        meaning,
    } = class;
    let mut text = String::new(alloc);
    writeln!(text, "{name}: {title}\n{meaning}")?;
    Ok(text)
}
