//! What the program can be asked to do.

use crate::change::NamedChange;
use crate::views::View;
use nv_text::Output;

/// What the program is to do.
#[derive(Drop)]
pub enum Todo<'a> {
    /// Tell the version.
    Version,
    /// Run the script in a file, or the one on standard input, on the region that an image holds, or on none, and save
    /// the region that it leaves, or none: over the file of the image, and over another only by force. A strict one ends at
    /// the first command that is refused.
    Run {
        script: Option<&'a str>,
        image: Option<&'a str>,
        save: Option<&'a str>,
        force: bool,
        strict: bool,
    },
    /// Run the commands that are typed on standard input on the region that an image holds, and save it where one asks for
    /// that: over the file of the image, and over another only by force.
    Shell {
        image: &'a str,
        force: bool,
    },
    /// Recover the images in the files at these paths, of which there is one at least, on so many threads, from 1 to 64, and
    /// print this of what they show.
    Check {
        paths: Vec<&'a str>,
        workers: u32,
        output: CheckOutput,
    },
    /// Write an image of a formatted region of this layout, over a file that is there only by force. What is left out suits the
    /// number of blocks.
    Mkfs {
        image: &'a str,
        blocks: u64,
        cpus: Option<u64>,
        tables: Option<u64>,
        layout: LayoutVersion,
        force: bool,
    },
    /// Take the pages out of the logs of an image that they can do without: of the inode that a path leads to, or of all.
    Clean {
        image: &'a str,
        path: Option<&'a str>,
    },
    /// Change an image by one call, in the name of this CPU, and at this time or, without one, now.
    Change {
        image: &'a str,
        change: NamedChange<'a>,
        cpu: u64,
        time: Option<u64>,
    },
    /// Put a directory of the host into an image with all that is below it, or a file, in the name of this CPU or, without one,
    /// of each that has an unused inode; at this time or, without one, each at its own.
    PutTree {
        image: &'a str,
        host: &'a str,
        path: &'a str,
        cpu: Option<u64>,
        time: Option<u64>,
    },
    /// Put the members of the archive on standard input into an image below a path, in the name of this CPU or, without one, of
    /// each that has an unused inode.
    Untar {
        image: &'a str,
        path: &'a str,
        cpu: Option<u64>,
    },
    /// Tell the pending records of the journals of an image, and roll them back unless it is a dry run.
    Recover {
        image: &'a str,
        dry_run: bool,
    },
    /// List a directory of an image, with the numbers of each inode if `long` says so.
    Ls {
        image: &'a str,
        which: Which<'a>,
        long: bool,
    },
    /// Tell the attributes of an inode of an image.
    Stat {
        image: &'a str,
        which: Which<'a>,
    },
    /// Print the bytes of a file of an image.
    Cat {
        image: &'a str,
        which: Which<'a>,
    },
    /// Write an archive of what an inode of an image holds, and of all else that is in use if `lost` says so.
    Tar {
        image: &'a str,
        which: Which<'a>,
        lost: bool,
    },
    /// Print the log of an inode of an image, entry by entry.
    Log {
        image: &'a str,
        which: Which<'a>,
    },
    /// Take a further look into an image.
    View(View<'a>),
    /// Tell what a class of faults means.
    Explain {
        class: &'a str,
    },
    /// Show which blocks of an image are what, and draw it in a file, over one that is there only by force, or nowhere.
    Map {
        image: &'a str,
        svg: Option<&'a str>,
        force: bool,
    },
}

impl<'a> Todo<'a> {
    ghost use Rattle.std.specs.Prelude.{◌≡◌, option_map};
    ghost use Rattle.nv_args.specs.Words.{checked_path};

    /// The path of a check of one image. Of its words only this can be one that isn't UTF-8.
    pub fn checked_path(&self) -> Option<&'a str>
        ensures { option_map (λ path. path.now) result ≡ checked_path self.now }
    {
        match self {
            Todo::Check { paths, .. } => match paths.as_slice() {
                [path] => Some(*path),
                _ => None,
            },
            _ => None,
        }
    }
}

/// The version of a new region's layout.
#[derive(Clone, Copy, PartialEq, Eq)]
pub enum LayoutVersion {
    /// Tables keep their blocks.
    One,
    /// Tables grow.
    Two,
}

/// An inode of an image, as a word names it.
#[derive(Clone, Copy, PartialEq, Eq)]
pub enum Which<'a> {
    /// The one that a path leads to: a word that is no number.
    Path(&'a str),
    /// The one of this number: `12` or `<12>`.
    Number(u64),
}

/// What a check prints.
#[derive(Clone, Copy, PartialEq, Eq)]
pub enum CheckOutput {
    /// Of each image this.
    Written(Output),
    /// Of one image the whole report, and of each fault what is wrong with which word.
    Explained,
    /// Of one image the whole report, and above it the pending records of the journals.
    Journal,
}
