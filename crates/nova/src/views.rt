//! The commands that look into images and leave them as they are.

use crate::archiving::archive;
use crate::blocks::show_block;
use crate::comparing::compare;
use crate::listing::{Told, tell};
use crate::logs::show_log;
use crate::show::{Shown, show};
use nv_args::{Todo, View};
use nv_image_check::Blocks;
use nv_image_files::{Failure, Lock};
use nv_pending::answer_check;
use std::io::Write;
use std::rt::Files;
use std::thread::Threads;

/// Shows what is in an image, where that is asked for; all else is what `nova_check` answers too. Answers the exit status.
pub(crate) fn look<'a, H: Files + AllocGlobal + Print + Eprint + Threads + Sync, E: Write>(
    rt: &H,
    errors: &mut E,
    todo: Todo<'a>,
) -> Result<u8, Failure<'a>>
where
    H::File: Blocks + Lock + Sync,
{
    match todo {
        Todo::Ls { image, which, long } if long => tell(rt, errors, image, which, Told::Names),
        Todo::Ls { image, which, .. } => show(rt, errors, image, which, Shown::Names),
        Todo::Stat { image, which } => show(rt, errors, image, which, Shown::Attributes),
        Todo::Cat { image, which } => show(rt, errors, image, which, Shown::Bytes),
        Todo::Tar { image, which, lost } => archive(rt, errors, image, which, lost),
        Todo::Log { image, which } => show_log(rt, errors, image, Some(which)),
        Todo::View(view) => show_view(rt, errors, view),
        todo => answer_check(rt, todo),
    }
}

// Takes a further look: `log --all`, `block`, `du`, `ls --recursive` and `diff`.
fn show_view<'a, H: Files + AllocGlobal + Print + Eprint + Threads + Sync, E: Write>(
    rt: &H,
    errors: &mut E,
    view: View<'a>,
) -> Result<u8, Failure<'a>>
where
    H::File: Blocks + Sync,
{
    match view {
        View::Logs { image } => show_log(rt, errors, image, None),
        View::Block { image, block, hex } => show_block(rt, errors, image, block, hex),
        View::Usage { image, which } => tell(rt, errors, image, which, Told::Blocks),
        View::Folders { image, which, long } => {
            tell(rt, errors, image, which, Told::Folders { long })
        }
        View::Difference { image, other } => compare(rt, errors, image, other),
    }
}
