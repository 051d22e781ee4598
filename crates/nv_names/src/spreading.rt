//! The names of one bucket move into many.

ghost use Rattle.std.specs.Prelude.{◌≡◌, ◌<◌, [], length, IfOk};
ghost use Rattle.std.specs.Vec.{vec_len};
ghost use Rattle.nv_names.specs.Buckets.{all_lines, lines_in, AreMany, AreBuckets};
ghost use Rattle.nv_names.specs.Table.{FindSame};

use crate::Target;
use crate::bucket::{Bucket, MOST_BY_KEY};
use crate::key::key_of;
use crate::many::{MANY, put_among};
use std::alloc::{AllocError, Global};

/// Moves the names of the one bucket into many, where it takes no more by their keys. An error leaves them as they are.
pub(crate) fn make_room(
    alloc: Global,
    one: &mut Bucket,
    many: &mut Vec<Bucket>,
) -> Result<(), AllocError>
    requires { AreBuckets one.old many.old.items }
    ensures buckets { AreBuckets one.new many.new.items }
    ensures names { FindSame (lines_in one.old many.old.items) (lines_in one.new many.new.items) }
    ensures len { length (lines_in one.new many.new.items) ≡ length (lines_in one.old many.old.items) }
{
    if many.is_empty() && one.len() >= MOST_BY_KEY {
        *many = spread(alloc, one)?;
        *one = Bucket::new(alloc);
    }
    Ok(())
}

/// Many buckets that have the names of one.
// It is called once for a directory, and its locals would be cleared for each name.
#[inline(never)]
fn spread(alloc: Global, one: &Bucket) -> Result<Vec<Bucket>, AllocError>
    ensures many { IfOk result (λ many. AreMany many.items) }
    ensures names { IfOk result (λ many. FindSame one.now (all_lines many.items)) }
    ensures len { IfOk result (λ many. length (all_lines many.items) ≡ length one.now) }
{
    let mut many = empty_buckets(alloc)?;
    let mut listed = Vec::with_capacity(alloc, one.len())?;
    one.push_lines(&mut listed)?;
    while let Some(line) = listed.pop() {
        let target = Target {
            inode: line.inode,
            place: line.place,
        };
        let _had = put_among(
            alloc,
            many.as_mut_slice(),
            key_of(line.name),
            line.name,
            target,
        )?;
    }
    Ok(many)
}

/// Many buckets with no name.
fn empty_buckets(alloc: Global) -> Result<Vec<Bucket>, AllocError>
    ensures many { IfOk result (λ many. AreMany many.items) }
    ensures some { IfOk result (λ many. 0 < vec_len many) }
    ensures none { IfOk result (λ many. all_lines many.items ≡ []) }
{
    let mut many = Vec::with_capacity(alloc, MANY)?;
    for _ in 0..MANY {
        many.push(Bucket::new(alloc))?;
    }
    Ok(many)
}
