//! The commands that change an image, with the help that a user reads.

use crate::arguments::{Argument, Written};
use crate::command_line::{CommandForm, NOTES};

const IMAGE: Argument<'static> = Argument {
    written: Written::Needed,
    name: "image",
    help: "The file that holds the image, which is written anew",
};

const CPU: Argument<'static> = Argument {
    written: Written::Number,
    name: "cpu",
    help: "The number of the CPU whose journal, table and free blocks are used; 0 if left out",
};

const ANY_CPU: Argument<'static> = Argument {
    written: Written::Number,
    name: "cpu",
    help: "The number of the CPU whose journal, table and free blocks are used; any if left out",
};

const PUT_CPU: Argument<'static> = Argument {
    written: Written::Number,
    name: "cpu",
    help: "The number of the CPU whose journal, table and free blocks are used; if left out 0, or with -r any",
};

const TIME: Argument<'static> = Argument {
    written: Written::Number,
    name: "time",
    help: "The number of seconds since 1970 at which it is made; the clock's if left out",
};

/// In the order in which help lists them.
pub(crate) const CHANGES: [CommandForm<'static>; 11] = [
    CommandForm {
        name: "mkdir",
        about: "Makes a directory in an image",
        notes: NOTES,
        arguments: &[
            IMAGE,
            Argument {
                written: Written::Needed,
                name: "path",
                help: "The path of the directory",
            },
            CPU,
            TIME,
        ],
    },
    CommandForm {
        name: "rm",
        about: "Takes a name of a file of an image away, and with the last one the file",
        notes: NOTES,
        arguments: &[
            IMAGE,
            Argument {
                written: Written::Needed,
                name: "path",
                help: "The path of the file",
            },
            CPU,
            TIME,
        ],
    },
    CommandForm {
        name: "rmdir",
        about: "Takes a directory of an image away that has no names",
        notes: NOTES,
        arguments: &[
            IMAGE,
            Argument {
                written: Written::Needed,
                name: "path",
                help: "The path of the directory",
            },
            CPU,
            TIME,
        ],
    },
    CommandForm {
        name: "mv",
        about: "Gives a file or directory of an image another name",
        notes: NOTES,
        arguments: &[
            IMAGE,
            Argument {
                written: Written::Needed,
                name: "old",
                help: "The path of the file or directory",
            },
            Argument {
                written: Written::Needed,
                name: "new",
                help: "The path that it gets, which nothing has yet",
            },
            CPU,
            TIME,
        ],
    },
    CommandForm {
        name: "ln",
        about: "Gives a file of an image one more name",
        notes: NOTES,
        arguments: &[
            IMAGE,
            Argument {
                written: Written::Needed,
                name: "old",
                help: "A path of the file",
            },
            Argument {
                written: Written::Needed,
                name: "new",
                help: "The path that it gets too, which nothing has yet",
            },
            CPU,
            TIME,
        ],
    },
    CommandForm {
        name: "truncate",
        about: "Cuts a file of an image, or lengthens it by zeros",
        notes: NOTES,
        arguments: &[
            IMAGE,
            Argument {
                written: Written::Needed,
                name: "size",
                help: "The size that it gets, in bytes",
            },
            Argument {
                written: Written::Needed,
                name: "path",
                help: "The path of the file",
            },
            CPU,
            TIME,
        ],
    },
    CommandForm {
        name: "chmod",
        about: "Sets the mode of a file or directory of an image",
        notes: NOTES,
        arguments: &[
            IMAGE,
            Argument {
                written: Written::Needed,
                name: "mode",
                help: "The mode in octal, up to 7777",
            },
            Argument {
                written: Written::Needed,
                name: "path",
                help: "The path of the file or directory",
            },
            CPU,
            TIME,
        ],
    },
    CommandForm {
        name: "chown",
        about: "Sets the owner, or owner and group, of a file or directory of an image",
        notes: NOTES,
        arguments: &[
            IMAGE,
            Argument {
                written: Written::Needed,
                name: "owner",
                help: "The number of the owner, or both numbers as OWNER:GROUP",
            },
            Argument {
                written: Written::Needed,
                name: "path",
                help: "The path of the file or directory",
            },
            CPU,
            TIME,
        ],
    },
    CommandForm {
        name: "put",
        about: "Copies a file of the host into an image, or a directory with all that is below it",
        notes: NOTES,
        arguments: &[
            IMAGE,
            Argument {
                written: Written::Needed,
                name: "host",
                help: "The file of the host, or with -r the directory",
            },
            Argument {
                written: Written::Needed,
                name: "path",
                help: "The path that it gets; the bytes of a file that is there go",
            },
            Argument {
                written: Written::LetterFlag('r'),
                name: "recursive",
                help: "Copy a directory with all that is below it, and with modes, owners and times",
            },
            PUT_CPU,
            TIME,
        ],
    },
    CommandForm {
        name: "untar",
        about: "Puts the members of a tar archive on standard input into an image",
        notes: NOTES,
        arguments: &[
            IMAGE,
            Argument {
                written: Written::ByPlace,
                name: "path",
                help: "The path of the directory that they go to; / if left out",
            },
            ANY_CPU,
        ],
    },
    CommandForm {
        name: "recover",
        about: "Prints what the journals of an image roll back, and rolls it back",
        notes: NOTES,
        arguments: &[
            IMAGE,
            Argument {
                written: Written::Flag,
                name: "dry-run",
                help: "Print it alone, and leave the image as it is",
            },
        ],
    },
];
