//! What can be shown of images beside what one inode holds, and the words that ask for it.

ghost use Rattle.std.specs.Prelude.{◌≡◌, IfSome, IsNone, codes};
ghost use Rattle.clap.specs.Walk.{rows_of};
ghost use Rattle.clap.specs.Matches.{found_of};
ghost use Rattle.nv_args.specs.Words.{Asks};

use crate::reading::{is_given, number_of, text_of, which_of};
use crate::todo::{Todo, Which};
use clap::ArgMatches;

/// What is to be shown of an image.
#[derive(Clone, Copy)]
pub enum View<'a> {
    /// The logs of all inodes in use, entry by entry.
    Logs {
        image: &'a str,
    },
    /// What a block is, and its bytes if `hex` says so.
    Block {
        image: &'a str,
        block: u64,
        hex: bool,
    },
    /// How many blocks an inode takes, with all that it leads to by names.
    Usage {
        image: &'a str,
        which: Which<'a>,
    },
    /// The names of a directory and of all directories that it leads to by names, with the numbers of each inode if `long` says so.
    Folders {
        image: &'a str,
        which: Which<'a>,
        long: bool,
    },
    /// What differs between two images.
    Difference {
        image: &'a str,
        other: &'a str,
    },
}

/// What `ls` asks for: the names of one directory, or of all below it too.
pub(crate) fn ls_of<'a>(values: &ArgMatches<'a>) -> Option<Todo<'a>>
    ensures some { IfSome result (λ todo. Asks (codes "ls") (rows_of (found_of values.now)) todo) }
    ensures none { IsNone result → (todo : Todo) → ¬ Asks (codes "ls") (rows_of (found_of values.now)) todo }
{
    let image = text_of(values, "image")?;
    let which = which_of(text_of(values, "path").unwrap_or("/"));
    let long = is_given(values, "long");
    if is_given(values, "recursive") {
        Some(Todo::View(View::Folders { image, which, long }))
    } else {
        Some(Todo::Ls { image, which, long })
    }
}

/// What `log` asks for: the log of one inode, or of all.
pub(crate) fn log_of<'a>(values: &ArgMatches<'a>) -> Option<Todo<'a>>
    ensures some { IfSome result (λ todo. Asks (codes "log") (rows_of (found_of values.now)) todo) }
    ensures none { IsNone result → (todo : Todo) → ¬ Asks (codes "log") (rows_of (found_of values.now)) todo }
{
    let image = text_of(values, "image")?;
    match (text_of(values, "path"), is_given(values, "all")) {
        (Some(word), false) => Some(Todo::Log {
            image,
            which: which_of(word),
        }),
        (None, true) => Some(Todo::View(View::Logs { image })),
        _ => None,
    }
}

/// What `block` asks for.
pub(crate) fn block_of<'a>(values: &ArgMatches<'a>) -> Option<Todo<'a>>
    ensures some { IfSome result (λ todo. Asks (codes "block") (rows_of (found_of values.now)) todo) }
    ensures none { IsNone result → (todo : Todo) → ¬ Asks (codes "block") (rows_of (found_of values.now)) todo }
{
    let image = text_of(values, "image")?;
    let block = number_of(text_of(values, "block"))?;
    let hex = is_given(values, "hex");
    Some(Todo::View(View::Block { image, block, hex }))
}

/// What `du` asks for.
pub(crate) fn du_of<'a>(values: &ArgMatches<'a>) -> Option<Todo<'a>>
    ensures some { IfSome result (λ todo. Asks (codes "du") (rows_of (found_of values.now)) todo) }
    ensures none { IsNone result → (todo : Todo) → ¬ Asks (codes "du") (rows_of (found_of values.now)) todo }
{
    let image = text_of(values, "image")?;
    let which = which_of(text_of(values, "path").unwrap_or("/"));
    Some(Todo::View(View::Usage { image, which }))
}

/// What `diff` asks for.
pub(crate) fn diff_of<'a>(values: &ArgMatches<'a>) -> Option<Todo<'a>>
    ensures some { IfSome result (λ todo. Asks (codes "diff") (rows_of (found_of values.now)) todo) }
    ensures none { IsNone result → (todo : Todo) → ¬ Asks (codes "diff") (rows_of (found_of values.now)) todo }
{
    let image = text_of(values, "image")?;
    let other = text_of(values, "other")?;
    Some(Todo::View(View::Difference { image, other }))
}
