//! What `nova_check` can be asked to do, and `nova` too.

use crate::checking::check_journals;
use nv_args::{CheckOutput, Todo, VERSION};
use nv_image_check::{Blocks, Output, check_file, check_files, explain_file, map_file};
use nv_image_files::{Failure, Lock, Target, explain, print_line};
use std::rt::Files;
use std::thread::Threads;

// The status of a command that isn't one of these.
const OTHER_COMMAND: u8 = 2;

/// Does what is asked for, where it is the version, a check, a map or an explanation, and answers the exit status. Any other command
/// is refused.
pub fn answer_check<'a, H: Files + AllocGlobal + Print + Eprint + Threads + Sync>(
    rt: &H,
    todo: Todo<'a>,
) -> Result<u8, Failure<'a>>
where
    H::File: Blocks + Lock + Sync,
{
    match todo {
        Todo::Version => print_line(rt, VERSION),
        Todo::Check {
            paths,
            workers,
            output,
        } => check(rt, &paths, workers, output),
        Todo::Map { image, svg, force } => {
            map_file(rt, image, svg.map(|path| Target { path, force }))
        }
        Todo::Explain { class } => explain(rt, class),
        _ => {
            let _ = eprintln!(rt; "nova_check has the commands check, map and explain alone");
            Ok(OTHER_COMMAND)
        }
    }
}

// Checks the images in the files at these paths.
fn check<'a, H: Files + AllocGlobal + Print + Eprint + Threads + Sync>(
    rt: &H,
    paths: &[&'a str],
    workers: u32,
    output: CheckOutput,
) -> Result<u8, Failure<'a>>
where
    H::File: Blocks + Sync,
{
    match (paths, output) {
        ([path], CheckOutput::Written(output)) => check_file(rt, path, workers, output),
        ([path], CheckOutput::Explained) => explain_file(rt, path, workers),
        ([path], CheckOutput::Journal) => check_journals(rt, path, workers),
        (paths, CheckOutput::Written(output)) => check_files(rt, paths, workers, output),
        // Words ask for the others of one image alone.
        (paths, _) => check_files(rt, paths, workers, Output::Report),
    }
}
