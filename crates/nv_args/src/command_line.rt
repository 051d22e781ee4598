//! The command line of the program, with the help that a user reads.

ghost use Rattle.std.specs.Prelude.{◌≡◌, ◌∷◌, IfOk, map};
ghost use Rattle.std.specs.List.{AllByRecursion};
ghost use Rattle.clap.specs.Simple.{app_of};
ghost use Rattle.clap.specs.Walk.{rule_of};
ghost use Rattle.nv_args.specs.CommandLine.{bare_app, change_apps, check_app, image_apps, nova_app, run_app, shell_app, with_commands};
ghost use Rattle.nv_args.specs.Tables.{HasLocals, IsLocal, app_by, rule_by};

use crate::arguments::{Argument, Written, arg_of};
use crate::change_forms::CHANGES;
use clap::{Arg, Command};
use std::alloc::{AllocError, Global};

const RUN_NOTES: &str = "\
Exit status:
  0  the last recovery showed no faults, or there was none
  1  the last recovery showed faults
  2  a bad line, or with --strict a refused one; the last recovery was refused; the script, the image or the output failed; or memory ran out

docs/SCRIPT.md has the commands of a script and the lines that they print.";

const SHELL_NOTES: &str = "\
Exit status:
  0  the last recovery showed no faults
  1  the last recovery showed faults
  2  the last recovery was refused; a line was too long; the image or the output failed; or memory ran out

The command help lists all commands, and docs/SCRIPT.md describes them.";

const CHECK_NOTES: &str = "\
Exit status:
  0  the report shows no faults
  1  the report shows faults
  2  the image was refused; the file can't be read; the output failed; or memory ran out
Of several images it is the greatest one.

docs/SCRIPT.md has the lines of a report, docs/FAULTS.md what each fault means.";

const DIFF_NOTES: &str = "\
Exit status:
  0  nothing differs
  1  something differs
  2  an image was refused, or can't be read; the output failed; or memory ran out";

pub(crate) const NOTES: &str = "\
Exit status:
  0  done
  2  refused, or failed";

const IMAGE: &str = "The file that holds the image";

const SAVE_FORCE: &str =
    "Put the region in the place of a file that is there; over the one of --image that isn't needed";

/// A command, what a user reads of it, and its arguments.
pub(crate) struct CommandForm<'a> {
    pub(crate) name: &'a str,
    pub(crate) about: &'a str,
    pub(crate) notes: &'a str,
    pub(crate) arguments: &'a [Argument<'a>],
}

// In the order in which help lists them.
const COMMANDS: [CommandForm<'static>; 15] = [
    CommandForm {
        name: "run",
        about: "Runs a script and prints its answers",
        notes: RUN_NOTES,
        arguments: &[
            Argument {
                written: Written::ByPlace,
                name: "script",
                help: "The file that holds the script; standard input if left out",
            },
            Argument {
                written: Written::Option,
                name: "image",
                help: "The file whose region the script begins with; without it there is none at first",
            },
            Argument {
                written: Written::Option,
                name: "save",
                help: "The file that the region at the script's end is written to; without it no file is written",
            },
            Argument {
                written: Written::Flag,
                name: "force",
                help: SAVE_FORCE,
            },
            Argument {
                written: Written::Flag,
                name: "strict",
                help: "End at the first command that is refused, with exit status 2",
            },
        ],
    },
    CommandForm {
        name: "shell",
        about: "Mounts an image in memory and runs the commands of scripts that are typed",
        notes: SHELL_NOTES,
        arguments: &[
            Argument {
                written: Written::Needed,
                name: "image",
                help: "The file that holds the image, which is written by save alone",
            },
            Argument {
                written: Written::Flag,
                name: "force",
                help: "Let save PATH put the region in the place of a file that is there",
            },
        ],
    },
    CommandForm {
        name: "check",
        about: "Recovers an image in memory and prints its report; the file is never written",
        notes: CHECK_NOTES,
        arguments: &[
            Argument {
                written: Written::Several,
                name: "path",
                help: "The file that holds the image; of several files a line each",
            },
            Argument {
                written: Written::Workers,
                name: "workers",
                help: "The number of threads that recover it, from 1 to 64; 1 if left out",
            },
            Argument {
                written: Written::Flag,
                name: "summary",
                help: "Print one line of sums in place of the report",
            },
            Argument {
                written: Written::Flag,
                name: "only-faults",
                help: "Print the faults alone in place of the report",
            },
            Argument {
                written: Written::Flag,
                name: "json",
                help: "Print the report as JSON",
            },
            Argument {
                written: Written::Flag,
                name: "explain",
                help: "Say below the report of one image, of each fault, what is wrong with which word",
            },
            Argument {
                written: Written::Flag,
                name: "journal",
                help: "Print above the report of one image what its journals would roll back",
            },
        ],
    },
    CommandForm {
        name: "mkfs",
        about: "Writes the image of a formatted region",
        notes: NOTES,
        arguments: &[
            Argument {
                written: Written::Needed,
                name: "image",
                help: "The file to write",
            },
            Argument {
                written: Written::Number,
                name: "blocks",
                help: "The number of blocks of 4096 bytes, from 8 to 262144",
            },
            Argument {
                written: Written::Number,
                name: "cpus",
                help: "The number of CPUs, from 1 to 64; with --size it can be left out",
            },
            Argument {
                written: Written::Number,
                name: "tables",
                help: "The number of table blocks of each CPU, from 1 to 64; with --size it can be left out",
            },
            Argument {
                written: Written::Option,
                name: "size",
                help: "The size in place of --blocks: bytes, or a number with K, M or G, such as 64M",
            },
            Argument {
                written: Written::Version,
                name: "layout",
                help: "The version of its layout: 1, or 2, in which tables grow; 1 if left out",
            },
            Argument {
                written: Written::Flag,
                name: "force",
                help: "Put the image in the place of a file that is there",
            },
        ],
    },
    CommandForm {
        name: "clean",
        about: "Takes the pages out of the logs of an image that they can do without",
        notes: NOTES,
        arguments: &[
            Argument {
                written: Written::Needed,
                name: "image",
                help: "The file that holds the image, which is written anew if a page went",
            },
            Argument {
                written: Written::ByPlace,
                name: "path",
                help: "The path of the file or directory whose log is cleaned; all logs if it is left out",
            },
        ],
    },
    CommandForm {
        name: "ls",
        about: "Lists a directory of an image, each name with its inode",
        notes: NOTES,
        arguments: &[
            Argument {
                written: Written::Needed,
                name: "image",
                help: IMAGE,
            },
            Argument {
                written: Written::ByPlace,
                name: "path",
                help: "The path or the number of the directory; / if left out",
            },
            Argument {
                written: Written::LetterFlag('l'),
                name: "long",
                help: "Print the attributes of each inode before its name",
            },
            Argument {
                written: Written::LetterFlag('R'),
                name: "recursive",
                help: "List each directory below it too, with its path",
            },
        ],
    },
    CommandForm {
        name: "stat",
        about: "Prints the attributes of a file or directory of an image",
        notes: NOTES,
        arguments: &[
            Argument {
                written: Written::Needed,
                name: "image",
                help: IMAGE,
            },
            Argument {
                written: Written::Needed,
                name: "path",
                help: "The path in the image, or a number of an inode: 12 or <12>",
            },
        ],
    },
    CommandForm {
        name: "cat",
        about: "Prints the bytes of a file of an image",
        notes: NOTES,
        arguments: &[
            Argument {
                written: Written::Needed,
                name: "image",
                help: IMAGE,
            },
            Argument {
                written: Written::Needed,
                name: "path",
                help: "The path in the image, or a number of an inode: 12 or <12>",
            },
        ],
    },
    CommandForm {
        name: "du",
        about: "Counts the blocks that a file or directory takes, with all that is below",
        notes: NOTES,
        arguments: &[
            Argument {
                written: Written::Needed,
                name: "image",
                help: IMAGE,
            },
            Argument {
                written: Written::ByPlace,
                name: "path",
                help: "The path or the number of what is counted; / if left out",
            },
        ],
    },
    CommandForm {
        name: "tar",
        about: "Writes the files of an image as a tar archive to standard output",
        notes: NOTES,
        arguments: &[
            Argument {
                written: Written::Needed,
                name: "image",
                help: IMAGE,
            },
            Argument {
                written: Written::ByPlace,
                name: "path",
                help: "The path or the number of what is written; / if left out",
            },
            Argument {
                written: Written::Flag,
                name: "lost-found",
                help: "Put all else that is in use under lost+found",
            },
        ],
    },
    CommandForm {
        name: "log",
        about: "Prints the log of a file or directory of an image, entry by entry",
        notes: NOTES,
        arguments: &[
            Argument {
                written: Written::Needed,
                name: "image",
                help: IMAGE,
            },
            Argument {
                written: Written::ByPlace,
                name: "path",
                help: "The path in the image, or a number of an inode: 12 or <12>",
            },
            Argument {
                written: Written::Flag,
                name: "all",
                help: "Print the logs of all inodes in use, in place of one",
            },
        ],
    },
    CommandForm {
        name: "block",
        about: "Says what a block of an image is, and which files it belongs to",
        notes: NOTES,
        arguments: &[
            Argument {
                written: Written::Needed,
                name: "image",
                help: IMAGE,
            },
            Argument {
                written: Written::NeededNumber,
                name: "block",
                help: "The number of the block",
            },
            Argument {
                written: Written::Flag,
                name: "hex",
                help: "Print its bytes too",
            },
        ],
    },
    CommandForm {
        name: "diff",
        about: "Says what differs between two images: names, attributes and bytes",
        notes: DIFF_NOTES,
        arguments: &[
            Argument {
                written: Written::Needed,
                name: "image",
                help: "The file that holds the image A",
            },
            Argument {
                written: Written::Needed,
                name: "other",
                help: "The file that holds the image B",
            },
        ],
    },
    CommandForm {
        name: "explain",
        about: "Prints what a class of faults means",
        notes: NOTES,
        arguments: &[Argument {
            written: Written::Needed,
            name: "class",
            help: "The class as a report names it, in upper or lower case, such as L2",
        }],
    },
    CommandForm {
        name: "map",
        about: "Shows which blocks of an image are what",
        notes: NOTES,
        arguments: &[
            Argument {
                written: Written::Needed,
                name: "image",
                help: IMAGE,
            },
            Argument {
                written: Written::Option,
                name: "svg",
                help: "The file to write a drawing of it to",
            },
            Argument {
                written: Written::Flag,
                name: "force",
                help: "Put the drawing in the place of a file that is there",
            },
        ],
    },
];

// The table, with what its forms stand for.
fn forms() -> &'static [CommandForm<'static>]
    ensures { map app_by result.now ≡ run_app ∷ shell_app ∷ check_app ∷ image_apps }
{
    &COMMANDS
}

// The table of changes, with what its forms stand for.
fn change_forms() -> &'static [CommandForm<'static>]
    ensures { map app_by result.now ≡ change_apps }
{
    &CHANGES
}

// The arguments for `clap`.
fn arguments_of<'a>(alloc: Global, arguments: &[Argument<'a>]) -> Result<Vec<Arg<'a>>, AllocError>
    ensures local { IfOk result (λ made. AllByRecursion IsLocal made.items) }
    ensures rules { IfOk result (λ made. map rule_of made.items ≡ map rule_by arguments.now) }
{
    let mut made = Vec::new(alloc);
    for argument in arguments {
        made.push(arg_of(alloc, argument))?;
    }
    Ok(made)
}

// The command for `clap`.
fn command_of<'a>(alloc: Global, form: &CommandForm<'a>) -> Result<Command<'a>, AllocError>
    ensures local { IfOk result HasLocals }
    ensures shape { IfOk result (λ c. app_of c ≡ app_by form.now) }
{
    let arguments = arguments_of(alloc, form.arguments)?;
    Command::new(alloc, form.name)
        .about(form.about)
        .after_help(form.notes)
        .args(arguments)
}

// The commands for `clap`.
fn commands_of<'a>(alloc: Global, forms: &[CommandForm<'a>]) -> Result<Vec<Command<'a>>, AllocError>
    ensures local { IfOk result (λ made. AllByRecursion HasLocals made.items) }
    ensures shapes { IfOk result (λ made. map app_of made.items ≡ map app_by forms.now) }
{
    let mut made = Vec::new(alloc);
    for form in forms {
        made.push(command_of(alloc, form)?)?;
    }
    Ok(made)
}

// The program before its commands. Its name leads the usage of each command.
fn bare<'a>(alloc: Global) -> Result<Command<'a>, AllocError>
    ensures { IfOk result (λ c. app_of c ≡ bare_app) }
{
    Command::new(alloc, "nova")
        .about(
            "Makes, checks, cleans and shows images of the NOVA file system, and runs scripts on them",
        )
        .after_help("nova --version, or -V alone, prints the version. docs/nova.1 is the manual.")
        .no_binary_name(true)
        .subcommand_required(true)
        .bin_name("nova")
}

// The program with the commands that change no tree.
fn without_changes<'a>(alloc: Global) -> Result<Command<'a>, AllocError>
    ensures { IfOk result (λ c. app_of c ≡ with_commands bare_app (run_app ∷ shell_app ∷ check_app ∷ image_apps)) }
{
    let commands = commands_of(alloc, forms())?;
    bare(alloc)?.subcommands(commands)
}

/// The program's command line. Fails where memory is refused.
pub(crate) fn nova<'a>(alloc: Global) -> Result<Command<'a>, AllocError>
    ensures { IfOk result (λ c. app_of c ≡ nova_app) }
{
    let changes = commands_of(alloc, change_forms())?;
    without_changes(alloc)?.subcommands(changes)
}
