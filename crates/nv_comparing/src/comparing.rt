//! What is told of two images: both are recovered over their bytes, and the text is made, or the refusal.
//!
//! What is found wrong doesn't keep an image from being compared; the answer tells of it.

ghost use Rattle.std.specs.Prelude.{◌≡◌, IfOk, string_bytes};
ghost use Rattle.nv_region.specs.Region.{Region, region_of};
ghost use Rattle.nv_outcome.specs.Answer.{outcome_of};
ghost use Rattle.nv_outcome.specs.Outcome.{IsOutcome};
ghost use Rattle.nv_journal.specs.Undo.{undone};
ghost use Rattle.nv_text.specs.Refusals.{refusal_name};
ghost use Rattle.nv_difference.specs.Difference.{IsDifference};
ghost use Rattle.nv_comparing.specs.Shown.{AreHeld};
ghost use Rattle.nv_comparing.specs.Comparing.{IsImagesDifference, IsNamedRefusal, status_of};

use crate::shown::shown;
use nv_difference::{Contents, difference_text};
use nv_image_check::{Image, let_go, recover_image};
use nv_region::ImageRegion;
use nv_report::{Recovered, refused_text};
use nv_text::Refusal;
use std::alloc::{AllocError, Global};

const SAME_STATUS: u8 = 0;

const DIFFERENT_STATUS: u8 = 1;

const REFUSED_STATUS: u8 = 2;

/// What came of comparing two images: the exit status, 0 where nothing differs, 1 where something does and 2 where one is refused,
/// and how many faults each has, told as 0 where one is refused.
#[derive(Clone, Copy, PartialEq, Eq)]
pub struct Compared {
    pub status: u8,
    pub first_faults: usize,
    pub second_faults: usize,
}

/// What is printed, and what came of it.
#[derive(Drop)]
pub(crate) struct Look {
    pub(crate) text: String,
    pub(crate) compared: Compared,
}

/// What differs between the regions of these bytes, A and B.
pub(crate) fn look_at_images(alloc: Global, a: &[u8], b: &[u8]) -> Result<Look, AllocError>
    ensures { IfOk result (λ look. IsImagesDifference (region_of a.now) (region_of b.now) (string_bytes look.text) look.compared) }
{
    let image = recover_image(alloc, a)?;
    match image {
        Image::Recovered(memory, found) => {
            let look = look_beside(alloc, &memory, &found, b);
            let_go(memory, found);
            look
        }
        Image::Refused(refusal) => refused_look(alloc, "A", refusal),
    }
}

// The same where A was recovered.
fn look_beside(
    alloc: Global,
    memory: &ImageRegion<'_>,
    found: &Recovered,
    b: &[u8],
) -> Result<Look, AllocError>
    requires { AreHeld memory.now.region found.now.rows.items }
    ensures { (R : Region) → IsOutcome R (outcome_of found.now) → memory.now.region ≡ undone found.now.sup R
        → IfOk result (λ look. IsImagesDifference R (region_of b.now) (string_bytes look.text) look.compared) }
{
    let image = recover_image(alloc, b)?;
    match image {
        Image::Recovered(other, others) => {
            let first = shown(memory, &found.rows);
            let second = shown(&other, &others.rows);
            let faults = (found.faults.len(), others.faults.len());
            let look = compared_look(alloc, &first, &second, faults);
            let_go(other, others);
            look
        }
        Image::Refused(refusal) => refused_look(alloc, "B", refusal),
    }
}

fn compared_look<S: Contents, T: Contents>(
    alloc: Global,
    first: &S,
    second: &T,
    faults: (usize, usize),
) -> Result<Look, AllocError>
    ensures text { IfOk result (λ look. IsDifference (S.tree first.now) (T.tree second.now) (string_bytes look.text)) }
    ensures status { IfOk result (λ look. look.compared.status ≡ status_of (string_bytes look.text)) }
    ensures first { IfOk result (λ look. look.compared.first_faults ≡ faults.0) }
    ensures second { IfOk result (λ look. look.compared.second_faults ≡ faults.1) }
{
    let text = difference_text(alloc, first, second)?;
    let compared = Compared {
        status: status_of(&text),
        first_faults: faults.0,
        second_faults: faults.1,
    };
    Ok(Look { text, compared })
}

fn status_of(text: &str) -> u8
    ensures { result ≡ status_of text.now }
{
    if text.is_empty() {
        SAME_STATUS
    } else {
        DIFFERENT_STATUS
    }
}

// What is told of an image, by its letter, whose superblock isn't accepted.
fn refused_look(alloc: Global, letter: &str, refusal: Refusal) -> Result<Look, AllocError>
    ensures { IfOk result (λ look. IsNamedRefusal letter.now (refusal_name refusal) (string_bytes look.text) look.compared) }
{
    let told = refused_text(alloc, refusal)?;
    let mut text = String::new(alloc);
    text.push_str(letter)?;
    text.push_str(": ")?;
    text.push_str(&told)?;
    let compared = Compared {
        status: REFUSED_STATUS,
        first_faults: 0,
        second_faults: 0,
    };
    Ok(Look { text, compared })
}
