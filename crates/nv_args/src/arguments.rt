//! The kinds of arguments that the commands take.

ghost use Rattle.std.specs.Prelude.{◌≡◌, ◌^◌, ◌-◌, false, pos};
ghost use Rattle.clap.specs.Walk.{rule_of};
ghost use Rattle.nv_args.specs.CommandLine.{place_rule, needed_rule, several_rule, option_rule, number_rule, flag_rule, letter_rule, needed_number_rule, threads_rule, version_rule};
ghost use Rattle.nv_args.specs.Tables.{rule_by};

use clap::builder::ValueParser;
use clap::{Arg, ArgAction, value_parser};
use std::alloc::Global;

/// How an argument is written.
#[derive(Clone, Copy)]
pub(crate) enum Written {
    /// By its place, where it isn't left out.
    ByPlace,
    /// By its place.
    Needed,
    /// By their places, one or more.
    Several,
    /// `--NAME TEXT`.
    Option,
    /// `--NAME`.
    Flag,
    /// `--NAME`, or this letter behind one `-`.
    LetterFlag(char),
    /// `--NAME N`.
    Number,
    /// A number, by its place.
    NeededNumber,
    /// `--NAME N`, where N is a number of threads.
    Workers,
    /// `--NAME N`, where N is a version of the layout.
    Version,
}

/// An argument, and what a user reads of it.
pub(crate) struct Argument<'a> {
    pub(crate) written: Written,
    pub(crate) name: &'a str,
    pub(crate) help: &'a str,
}

/// The argument for `clap`.
pub(crate) fn arg_of<'a>(alloc: Global, argument: &Argument<'a>) -> Arg<'a>
    ensures rule { rule_of result ≡ rule_by argument.now }
    ensures local { result.global ≡ false }
{
    let (name, help) = (argument.name, argument.help);
    match argument.written {
        Written::ByPlace => place(alloc, name, help),
        Written::Needed => needed(alloc, name, help),
        Written::Several => several(alloc, name, help),
        Written::Option => option(alloc, name, help),
        Written::Flag => flag(alloc, name, help),
        Written::LetterFlag(letter) => letter_flag(alloc, name, letter, help),
        Written::Number => number(alloc, name, help),
        Written::NeededNumber => needed_number(alloc, name, help),
        Written::Workers => workers(alloc, name, help),
        Written::Version => version(alloc, name, help),
    }
}

/// An argument that is written by its place, and may be left out.
fn place<'a>(alloc: Global, name: &'a str, help: &'a str) -> Arg<'a>
    ensures rule { rule_of result ≡ place_rule name.entry.now }
    ensures local { result.global ≡ false }
{
    Arg::new(alloc, name).help(help)
}

/// An argument that is written by its place.
fn needed<'a>(alloc: Global, name: &'a str, help: &'a str) -> Arg<'a>
    ensures rule { rule_of result ≡ needed_rule name.entry.now }
    ensures local { result.global ≡ false }
{
    Arg::new(alloc, name).required(true).help(help)
}

/// One argument or more, which are written by their places.
fn several<'a>(alloc: Global, name: &'a str, help: &'a str) -> Arg<'a>
    ensures rule { rule_of result ≡ several_rule name.entry.now }
    ensures local { result.global ≡ false }
{
    Arg::new(alloc, name)
        .required(true)
        .help(help)
        .action(ArgAction::Append)
}

/// `--NAME TEXT`.
fn option<'a>(alloc: Global, name: &'a str, help: &'a str) -> Arg<'a>
    ensures rule { rule_of result ≡ option_rule name.entry.now }
    ensures local { result.global ≡ false }
{
    Arg::new(alloc, name).long(name).help(help)
}

/// `--NAME`.
fn flag<'a>(alloc: Global, name: &'a str, help: &'a str) -> Arg<'a>
    ensures rule { rule_of result ≡ flag_rule name.entry.now }
    ensures local { result.global ≡ false }
{
    Arg::new(alloc, name)
        .long(name)
        .help(help)
        .action(ArgAction::SetTrue)
}

/// `--NAME`, or a letter behind one `-`.
fn letter_flag<'a>(alloc: Global, name: &'a str, letter: char, help: &'a str) -> Arg<'a>
    ensures rule { rule_of result ≡ letter_rule letter name.entry.now }
    ensures local { result.global ≡ false }
{
    flag(alloc, name, help).short(letter)
}

/// A number that is written by its place.
fn needed_number<'a>(alloc: Global, name: &'a str, help: &'a str) -> Arg<'a>
    ensures rule { rule_of result ≡ needed_number_rule name.entry.now }
    ensures local { result.global ≡ false }
{
    needed(alloc, name, help).value_parser(number_parser())
}

/// `--NAME N`.
fn number<'a>(alloc: Global, name: &'a str, help: &'a str) -> Arg<'a>
    ensures rule { rule_of result ≡ number_rule name.entry.now }
    ensures local { result.global ≡ false }
{
    Arg::new(alloc, name)
        .long(name)
        .help(help)
        .value_parser(number_parser())
}

/// `--NAME N`, where N is a number of threads.
fn workers<'a>(alloc: Global, name: &'a str, help: &'a str) -> Arg<'a>
    ensures rule { rule_of result ≡ threads_rule name.entry.now }
    ensures local { result.global ≡ false }
{
    Arg::new(alloc, name)
        .long(name)
        .help(help)
        .value_parser(workers_parser())
}

/// `--NAME N`, where N is a version of the layout.
fn version<'a>(alloc: Global, name: &'a str, help: &'a str) -> Arg<'a>
    ensures rule { rule_of result ≡ version_rule name.entry.now }
    ensures local { result.global ≡ false }
{
    Arg::new(alloc, name)
        .long(name)
        .help(help)
        .value_parser(version_parser())
}

fn number_parser<'a>() -> ValueParser<'a>
    ensures { result ≡ ValueParser.Unsigned 0 (2 ^ 64 - 1) }
{
    value_parser!(u64)
}

fn workers_parser<'a>() -> ValueParser<'a>
    ensures { result ≡ ValueParser.Signed (pos 1) (pos 64) }
{
    value_parser!(u32).range(1..=64)
}

fn version_parser<'a>() -> ValueParser<'a>
    ensures { result ≡ ValueParser.Signed (pos 1) (pos 2) }
{
    value_parser!(u32).range(1..=2)
}
