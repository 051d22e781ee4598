//! The text for a user whose words ask for nothing, or for help.

ghost use Rattle.std.specs.Prelude.{◌≡◌};

use clap::Error;
use clap::error::ErrorKind;
use std::fmt;
use std::marker::Model;

const TWO_OUTPUTS: &str = "\
error: only one of the arguments '--summary', '--only-faults', '--json', '--explain' and '--journal' can be used, and '--explain' and '--journal' with one path alone

Usage: nova check [OPTIONS] <path>

For more information, try '--help'.
";

const NO_SIZE: &str = "\
error: either '--blocks <blocks>', '--cpus <cpus>' and '--tables <tables>' are needed, or '--size <size>', a multiple of 4096 such as 64M

Usage: nova mkfs [OPTIONS] <image>

For more information, try '--help'.
";

const NO_CHANGE: &str = "\
error: a size is a number of bytes, a mode an octal number up to 7777, an owner a number or two with a colon, such as 1000:100

Usage: nova truncate <image> <size> <path>
       nova chmod <image> <mode> <path>
       nova chown <image> <owner>[:<group>] <path>

For more information, try '--help'.
";

const NO_LOG: &str = "\
error: either '[path]' or '--all' is needed, and not both

Usage: nova log [OPTIONS] <image> [path]

For more information, try '--help'.
";

/// Why the words ask for nothing.
#[derive(Drop)]
pub(crate) enum Cause {
    /// They are no words of the command line, or they ask for help.
    Words(Error),
    /// A check is to print several things, or to explain several images.
    TwoOutputs,
    /// An image is to be made of no size, of two, or of one that can't be read.
    NoSize,
    /// A number can't be read that an image is to be changed by.
    NoChange,
    /// Neither an inode nor all is asked for, or both.
    NoLog,
    /// Memory was refused before there was a text.
    NoMemory,
}

/// Why the words ask for nothing, or the help that they ask for. Its text is for the user, and ends its last line.
#[derive(Drop)]
pub struct Usage {
    pub(crate) cause: Cause,
}

impl Model for Usage {
    ghost use Rattle.nv_args.specs.UsageValue.{UsageTold, told_by};

    ghost Value = { UsageTold };

    ghost view = { λ u. told_by u.cause };
}

impl Usage {
    /// Whether memory was refused, so that the words may well ask for something.
    pub fn is_out_of_memory(&self) -> bool
        ensures { result ≡ self.now.out_of_memory }
    {
        match &self.cause {
            Cause::Words(error) => error.kind() == ErrorKind::OutOfMemory,
            Cause::TwoOutputs | Cause::NoSize | Cause::NoChange | Cause::NoLog => false,
            Cause::NoMemory => true,
        }
    }
}

impl fmt::Display for Usage {
    fn fmt<W: fmt::Write>(&self, f: &mut fmt::Formatter<W>) -> fmt::Result {
        match &self.cause {
            Cause::Words(error) => write!(f, "{error}"),
            Cause::TwoOutputs => f.write_str(TWO_OUTPUTS),
            Cause::NoSize => f.write_str(NO_SIZE),
            Cause::NoChange => f.write_str(NO_CHANGE),
            Cause::NoLog => f.write_str(NO_LOG),
            Cause::NoMemory => writeln!(f, "out of memory"),
        }
    }
}
