//! The commands that make an image or change one.

use crate::changing::{Asked, change};
use crate::cleaning::clean;
use crate::putting::put_tree;
use crate::recovering::{recover, show_pending};
use crate::saving::mkfs;
use crate::unpacking::{Place, untar};
use crate::views::look;
use nv_args::Todo;
use nv_image_check::Blocks;
use nv_image_files::{Failure, Lock, Target};
use nv_script::suiting_areas;
use std::io::Write;
use std::rt::Files;
use std::thread::Threads;
use std::time::Clock;

/// Makes an image or puts what comes from elsewhere into one, where that is asked for; hands all else on. Answers the exit status.
pub(crate) fn edit<'a, H: Files + AllocGlobal + Clock + Print + Eprint + Threads + Sync, E: Write>(
    rt: &H,
    errors: &mut E,
    todo: Todo<'a>,
) -> Result<u8, Failure<'a>>
where
    H::File: Blocks + Lock + Sync,
{
    match todo {
        Todo::Mkfs {
            image,
            blocks,
            cpus,
            tables,
            layout,
            force,
        } => {
            let target = Target { path: image, force };
            let areas = suiting_areas(blocks, cpus, tables);
            mkfs(rt, target, blocks, areas, layout)
        }
        Todo::PutTree {
            image,
            host,
            path,
            cpu,
            time,
        } => put_tree(rt, errors, Place { image, path, cpu }, host, time),
        Todo::Untar { image, path, cpu } => untar(rt, errors, Place { image, path, cpu }),
        todo => edit_alone(rt, errors, todo),
    }
}

// Changes an image, where that is asked for, by what the words say alone; hands all else on.
fn edit_alone<'a, H: Files + AllocGlobal + Clock + Print + Eprint + Threads + Sync, E: Write>(
    rt: &H,
    errors: &mut E,
    todo: Todo<'a>,
) -> Result<u8, Failure<'a>>
where
    H::File: Blocks + Lock + Sync,
{
    match todo {
        Todo::Clean { image, path } => clean(rt, errors, image, path),
        Todo::Change {
            image,
            change: named,
            cpu,
            time,
        } => {
            let asked = Asked {
                change: named,
                cpu,
                time,
            };
            change(rt, errors, image, asked)
        }
        Todo::Recover { image, dry_run } if dry_run => show_pending(rt, errors, image),
        Todo::Recover { image, .. } => recover(rt, errors, image),
        todo => look(rt, errors, todo),
    }
}
