//! All that differs.

ghost use Rattle.std.specs.Prelude.{◌≡◌, [], IfOk, OnOk, map, reverse, Some, string_bytes};
ghost use Rattle.nv_difference.specs.Difference.{IsDifference};
ghost use Rattle.nv_difference.specs.Names.{IsVisitText};
ghost use Rattle.nv_difference.specs.Pairs.{both_of, pair_at};
ghost use Rattle.nv_difference.specs.Texts.{Adds, AreTexts};
ghost use Rattle.nv_difference.specs.Walk.{AreVisitable, visit_of};

use crate::below::are_folders;
use crate::contents::Contents;
use crate::inodes::push_inode;
use crate::names::push_visit;
use crate::pair::{Pair, Visit};
use crate::walk::visits_from;
use std::alloc::{AllocError, Global};

/// The number of the root.
const ROOT: u64 = 1;

/// What differs between two trees, A and B: of each path of at most 4,096 bytes that leads to an inode in use in one of them or
/// both, in the order of a list of all names.
///
/// - `only in A: PATH`, `only in B: PATH`: it leads to an inode in use in one alone. What lies below a directory isn't told then.
/// - `kind PATH: KIND, KIND`: to a file and a directory.
/// - `mode PATH: N, N`, and so `owner`, `group`, `size`, `links`, `time`: a number of the inode in A and in B.
/// - `bytes PATH: differ from byte N`: two files differ there, below both sizes. Holes are zeros.
/// - `names PATH: not compared, one directory has an earlier path`: only where a directory has several names.
///
/// It is empty where none of this differs: the numbers of inodes, and which names are of one file, aren't compared. Errors: `AllocError` where a growth was refused.
pub fn difference_text<S: Contents, T: Contents>(
    alloc: Global,
    first: &S,
    second: &T,
) -> Result<String, AllocError>
    ensures { IfOk result (λ text. IsDifference (S.tree first.now) (T.tree second.now) (string_bytes text)) }
{
    let pending = roots_of(alloc, first, second)?;
    let visits = visits_from(alloc, first, second, pending)?;
    let mut text = String::new(alloc);
    push_inode(&mut text, first, second, b"", Some(ROOT), Some(ROOT))?;
    push_visits(&mut text, alloc, first, second, &visits)?;
    Ok(text)
}

// The roots, if they are directories in use.
fn roots_of<S: Contents, T: Contents>(
    alloc: Global,
    first: &S,
    second: &T,
) -> Result<Vec<Pair>, AllocError>
    ensures { IfOk result (λ pending. reverse (map both_of pending.items) ≡ pair_at (S.tree first.now) (T.tree second.now) [] 1 (Some 1)) }
{
    let mut pending = Vec::new(alloc);
    if are_folders(first, second, ROOT, ROOT) {
        pending.push(Pair {
            path: Vec::new(alloc),
            a: ROOT,
            b: ROOT,
        })?;
    }
    Ok(pending)
}

fn push_visits<S: Contents, T: Contents>(
    out: &mut String,
    alloc: Global,
    first: &S,
    second: &T,
    visits: &[Visit],
) -> Result<(), AllocError>
    requires { AreVisitable (S.tree first.now) (T.tree second.now) (map visit_of visits.now) }
    ensures { OnOk result (Adds (AreTexts (IsVisitText (S.tree first.now) (T.tree second.now)) (map visit_of visits.now)) (string_bytes out.old) (string_bytes out.new)) }
{
    for visit in visits {
        push_visit(out, alloc, first, second, visit)?;
    }
    Ok(())
}
