//! The commands of a script, a row for each. A name and the words behind it are read by them.

ghost use Rattle.std.specs.Prelude.{◌≡◌, map, IfOk, option_map};
ghost use Rattle.nv_line.specs.Reading.{request_as};
ghost use Rattle.nv_line.specs.Reasons.{form_text};
ghost use Rattle.nv_line.specs.Table.{names, form_in};
ghost use Rattle.nv_line.specs.View.{view};

use crate::commands::Command;
use crate::reasons::Form;
use crate::shapes::{
    attribute_words, cpu_and_path, cpu_and_two_paths, cpu_path_and_number, no_words,
    number_and_numbers, one_number, one_path, path_and_two_numbers, stop_words, three_numbers,
    two_numbers, write_words,
};
use std::alloc::{AllocError, Global};

// The commands: each with its name, what a user reads of its words, and the values that the words behind the name write.
// Where reading these makes a list, the row ends with `growing`.
macro_rules! commands {
    ($columns:ident $($given:ident)*) => {
        $columns! {
            $($given)*;
            Format b"format" "format CPUS BLOCKS TABLES" three_numbers(cpus, blocks, table_blocks);
            Time b"time" "time T" one_number(time);
            Poke b"poke" "poke AT VALUE" two_numbers(at, value);
            Cut b"cut" "cut LENGTH" one_number(length);
            Recover b"recover" "recover WORKERS" one_number(workers);
            Replay b"replay" "replay WORKERS w w .." number_and_numbers(workers, schedule) growing;
            Tree b"tree" "tree" no_words();
            Free b"free" "free" no_words();
            Faults b"faults" "faults" no_words();
            Report b"report" "report" no_words();
            Peek b"peek" "peek AT" one_number(at);
            Stop b"stop" "stop after|at N none|all|alternate" stop_words(fuse, keep);
            ListNames b"list" "list PATH" one_path(path);
            Stat b"stat" "stat PATH" one_path(path);
            Read b"read" "read PATH OFFSET COUNT" path_and_two_numbers(path, offset, count);
            Create b"create" "create CPU PATH" cpu_and_path(cpu, path);
            MakeDirectory b"mkdir" "mkdir CPU PATH" cpu_and_path(cpu, path);
            Write b"write" "write CPU PATH OFFSET COUNT BYTE" write_words(cpu, path, offset, count, byte);
            SetSize b"size" "size CPU PATH N" cpu_path_and_number(cpu, path, size);
            SetAttributes b"attr" "attr CPU PATH MODE OWNER GROUP" attribute_words(cpu, path, mode, owner, group);
            Clean b"clean" "clean PATH" one_path(path);
            Upgrade b"upgrade" "upgrade" no_words();
            Link b"link" "link CPU OLD NEW" cpu_and_two_paths(cpu, old, new);
            Unlink b"unlink" "unlink CPU PATH" cpu_and_path(cpu, path);
            RemoveDirectory b"rmdir" "rmdir CPU PATH" cpu_and_path(cpu, path);
            Rename b"rename" "rename CPU OLD NEW" cpu_and_two_paths(cpu, old, new);
        }
    };
}

macro_rules! names {
    (; $($form:ident $name:literal $text:literal $read:ident($($value:ident),*) $($growing:ident)?;)*) => {
        [$(Named { name: $name, form: Form::$form }),*]
    };
}

macro_rules! texts {
    ($of:ident; $($form:ident $name:literal $text:literal $read:ident($($value:ident),*) $($growing:ident)?;)*) => {
        match $of {
            $(Form::$form => $text,)*
        }
    };
}

macro_rules! makers {
    ($alloc:ident $of:ident $words:ident; $($form:ident $name:literal $text:literal $read:ident($($value:ident),*) $($growing:ident)?;)*) => {
        match $of {
            $(Form::$form => match read!($alloc $read $words $($growing)?) {
                Some(($($value),*)) => Ok(Some(Command::$form { $($value),* })),
                None => Ok(None),
            },)*
        }
    };
}

macro_rules! read {
    ($alloc:ident $read:ident $words:ident) => { $read($words) };
    ($alloc:ident $read:ident $words:ident growing) => { $read($alloc, $words)? };
}

/// A command by its name.
#[derive(Clone, Copy)]
pub(crate) struct Named {
    pub name: &'static [u8],
    pub form: Form,
}

/// All commands.
pub(crate) const COMMANDS: [Named; 26] = commands!(names);

impl Form {
    /// The name of the command, and its words.
    #[tactic(auto, unfolding(crate::specs::Table::row_of))]
    pub fn text(self) -> &'static str
        ensures { result.now ≡ form_text self }
    {
        let form = self;
        commands!(texts form)
    }
}

/// The form of the command with this name, if there is one.
pub(crate) fn form_named(name: &[u8]) -> Option<Form>
    ensures { result ≡ form_in names name.now }
{
    for command in &COMMANDS {
        if name == command.name {
            return Some(command.form);
        }
    }
    None
}

/// The command of this form that the words behind its name make, if they are written so. The error is a refused growth of a
/// schedule.
#[tactic(auto, unfolding(crate::specs::Reading::request_as, crate::specs::Table::row_of))]
pub(crate) fn command_of<'a>(
    alloc: Global,
    form: Form,
    words: &[&'a [u8]],
) -> Result<Option<Command<'a>>, AllocError>
    ensures { IfOk result (λ found. option_map view found ≡ request_as form (map (λ word. word.now) words.now)) }
{
    commands!(makers alloc form words)
}
