//! What the words of the command line ask for.

ghost use Rattle.std.specs.Prelude.{◌≡◌, ◌≢◌, ◌⊎◌, ◌↔◌, ℕ, Ok, Some, None, IfOk, IfErr, IfSome, IsNone, IsTrue, option_map, map, codes, List, Option};
ghost use Rattle.clap.specs.Walk.{first_of, all_of, rows_of};
ghost use Rattle.clap.specs.Simple.{subcommand_rows_of};
ghost use Rattle.clap.specs.Matches.{found_of};
ghost use Rattle.nv_args.specs.Words.{AreNumbers, AreWorkers, AskVersion, Asks, CommandSays, IsBetween, IsGiven, IsLayout, IsNumber, IsOutput, IsVersion, MayBeNumber, Names, Says, SizeOf, SpellsNumber};
ghost use Rattle.nv_args.specs.Words.{WordsSay, WantsMemory};

use crate::changing::{change_of, put_of, recover_of, untar_of};
use crate::command_line::nova;
use crate::sizes::size_of;
use crate::todo::{CheckOutput, LayoutVersion, Todo, Which};
use crate::usage::{Cause, Usage};
use crate::views::{block_of, diff_of, du_of, log_of, ls_of};
use clap::ArgMatches;
use nv_text::Output;
use std::alloc::{AllocError, Global};

// The text that is written for the argument of this name.
pub(crate) fn text_of<'a>(values: &ArgMatches<'a>, name: &str) -> Option<&'a str>
    ensures { first_of name.now (rows_of (found_of values.now)) ≡ option_map (λ text. text.now) result }
{
    values.get_str(name)
}

pub(crate) fn is_given(values: &ArgMatches<'_>, name: &str) -> bool
    ensures { IsTrue result ↔ IsGiven name.now (rows_of (found_of values.now)) }
{
    match text_of(values, name) {
        Some(text) => text == "true",
        None => false,
    }
}

// The texts that are written for the argument of this name, in their order.
fn texts_of<'a>(
    alloc: Global,
    values: &ArgMatches<'a>,
    name: &str,
) -> Result<Option<Vec<&'a str>>, AllocError>
    ensures { IfOk result (λ texts. all_of name.now (rows_of (found_of values.now)) ≡ option_map (λ texts. map (λ text. text.now) texts.items) texts) }
{
    match values.get_strs(name) {
        Some(texts) => Ok(Some(copies(alloc, texts)?)),
        None => Ok(None),
    }
}

fn copies<'a>(alloc: Global, texts: &[&'a str]) -> Result<Vec<&'a str>, AllocError>
    ensures { IfOk result (λ copies. copies.items ≡ texts.now) }
{
    let mut copies = Vec::new(alloc);
    copies.extend_from_slice(texts)?;
    Ok(copies)
}

// The number that the text writes, where it is one below 2^64.
pub(crate) fn number_of(text: Option<&str>) -> Option<u64>
    ensures some { IfSome result (λ number. IsNumber (option_map (λ text. text.now) text.entry) number) }
    ensures none { IsNone result → (number : ℕ) → ¬ IsNumber (option_map (λ text. text.now) text.entry) number }
{
    text?.parse().ok()
}

// The inode that a word names.
pub(crate) fn which_of<'a>(word: &'a str) -> Which<'a>
    ensures { Names word.entry.now result }
{
    match number_in(word) {
        Some(number) => Which::Number(number),
        None => Which::Path(word),
    }
}

// The number that a word spells, by itself or between `<` and `>`.
fn number_in(word: &str) -> Option<u64>
    ensures some { IfSome result (SpellsNumber word.now) }
    ensures none { IsNone result → (number : ℕ) → ¬ SpellsNumber word.now number }
{
    match number_of(Some(word)) {
        Some(number) => Some(number),
        None => number_of(between(word)),
    }
}

// The text between `<` and `>`.
fn between(word: &str) -> Option<&str>
    ensures some { IfSome result (λ inside. IsBetween word.now inside.now) }
    ensures none { IsNone result → (inside : List ℕ) → ¬ IsBetween word.now inside }
{
    word.strip_prefix('<')?.strip_suffix('>')
}

// The number of workers that the text writes, where it is one from 1 to 64.
fn worker_count(text: Option<&str>) -> Option<u32>
    ensures some { IfSome result (λ workers. AreWorkers (option_map (λ text. text.now) text.entry) workers) }
    ensures none { IsNone result → (workers : ℕ) → ¬ AreWorkers (option_map (λ text. text.now) text.entry) workers }
{
    let Some(text) = text else { return Some(1) };
    let workers: u32 = text.parse().ok()?;
    (1..=64).contains(&workers).then_some(workers)
}

// What a check of so many images is to print, unless that are several things.
fn output_of(values: &ArgMatches<'_>, images: usize) -> Option<CheckOutput>
    ensures some { IfSome result (λ output. IsOutput (rows_of (found_of values.now)) images output) }
    ensures none { IsNone result → (output : CheckOutput) → ¬ IsOutput (rows_of (found_of values.now)) images output }
{
    let summary = is_given(values, "summary");
    let only_faults = is_given(values, "only-faults");
    let json = is_given(values, "json");
    let explain = is_given(values, "explain");
    let journal = is_given(values, "journal");
    match (summary, only_faults, json, explain, journal) {
        (false, false, false, false, false) => Some(CheckOutput::Written(Output::Report)),
        (true, false, false, false, false) => Some(CheckOutput::Written(Output::Summary)),
        (false, true, false, false, false) => Some(CheckOutput::Written(Output::OnlyFaults)),
        (false, false, true, false, false) => Some(CheckOutput::Written(Output::Json)),
        (false, false, false, true, false) if images == 1 => Some(CheckOutput::Explained),
        (false, false, false, false, true) if images == 1 => Some(CheckOutput::Journal),
        _ => None,
    }
}

fn run_of<'a>(values: &ArgMatches<'a>) -> Todo<'a>
    ensures { Asks (codes "run") (rows_of (found_of values.now)) result }
{
    Todo::Run {
        script: text_of(values, "script"),
        image: text_of(values, "image"),
        save: text_of(values, "save"),
        force: is_given(values, "force"),
        strict: is_given(values, "strict"),
    }
}

fn shell_of<'a>(values: &ArgMatches<'a>) -> Option<Todo<'a>>
    ensures some { IfSome result (λ todo. Asks (codes "shell") (rows_of (found_of values.now)) todo) }
    ensures none { IsNone result → (todo : Todo) → ¬ Asks (codes "shell") (rows_of (found_of values.now)) todo }
{
    let image = text_of(values, "image")?;
    let force = is_given(values, "force");
    Some(Todo::Shell { image, force })
}

fn check_of<'a>(alloc: Global, values: &ArgMatches<'a>) -> Result<Option<Todo<'a>>, AllocError>
    ensures some { IfOk result (λ found. IfSome found (λ todo. Asks (codes "check") (rows_of (found_of values.now)) todo)) }
    ensures none { IfOk result (λ found. IsNone found → (todo : Todo) → ¬ Asks (codes "check") (rows_of (found_of values.now)) todo) }
{
    let Some(paths) = texts_of(alloc, values, "path")? else {
        return Ok(None);
    };
    let Some(workers) = worker_count(text_of(values, "workers")) else {
        return Ok(None);
    };
    let Some(output) = output_of(values, paths.len()) else {
        return Ok(None);
    };
    Ok(Some(Todo::Check {
        paths,
        workers,
        output,
    }))
}

fn mkfs_of<'a>(values: &ArgMatches<'a>) -> Option<Todo<'a>>
    ensures some { IfSome result (λ todo. Asks (codes "mkfs") (rows_of (found_of values.now)) todo) }
    ensures none { IsNone result → (todo : Todo) → ¬ Asks (codes "mkfs") (rows_of (found_of values.now)) todo }
{
    let image = text_of(values, "image")?;
    let Numbers {
        blocks,
        cpus,
        tables,
    } = numbers_of(values)?;
    let layout = layout_of(text_of(values, "layout"))?;
    let force = is_given(values, "force");
    Some(Todo::Mkfs {
        image,
        blocks,
        cpus,
        tables,
        layout,
        force,
    })
}

// The version of the layout that the text writes, where it is 1 or 2.
fn layout_of(text: Option<&str>) -> Option<LayoutVersion>
    ensures some { IfSome result (λ layout. IsLayout (option_map (λ text. text.now) text.entry) layout) }
    ensures none { IsNone result → (layout : LayoutVersion) → ¬ IsLayout (option_map (λ text. text.now) text.entry) layout }
{
    match may_be_number(text)? {
        None | Some(1) => Some(LayoutVersion::One),
        Some(2) => Some(LayoutVersion::Two),
        Some(_) => None,
    }
}

// The numbers of a new region; what is left out suits the number of blocks.
struct Numbers {
    blocks: u64,
    cpus: Option<u64>,
    tables: Option<u64>,
}

// The numbers that are written: all three, or a size in place of the blocks.
fn numbers_of(values: &ArgMatches<'_>) -> Option<Numbers>
    ensures some { IfSome result (λ found. AreNumbers (rows_of (found_of values.now)) found.blocks found.cpus found.tables) }
    ensures none { IsNone result → (blocks : ℕ) (cpus tables : Option ℕ) → ¬ AreNumbers (rows_of (found_of values.now)) blocks cpus tables }
{
    match (text_of(values, "blocks"), text_of(values, "size")) {
        (Some(blocks), None) => all_numbers(values, blocks),
        (None, Some(size)) => numbers_by_size(values, size),
        _ => None,
    }
}

// Those beside so many blocks.
fn all_numbers(values: &ArgMatches<'_>, blocks: &str) -> Option<Numbers>
    ensures some { IfSome result (λ found. IsNumber (Some blocks.now) found.blocks × ((c : ℕ) × (found.cpus ≡ Some c) × IsNumber (first_of (codes "cpus") (rows_of (found_of values.now))) c)
        × ((t : ℕ) × (found.tables ≡ Some t) × IsNumber (first_of (codes "tables") (rows_of (found_of values.now))) t)) }
    ensures none { IsNone result → (number c t : ℕ) → IsNumber (Some blocks.now) number → IsNumber (first_of (codes "cpus") (rows_of (found_of values.now))) c
        → ¬ IsNumber (first_of (codes "tables") (rows_of (found_of values.now))) t }
{
    let blocks = number_of(Some(blocks))?;
    let cpus = number_of(text_of(values, "cpus"))?;
    let tables = number_of(text_of(values, "tables"))?;
    Some(Numbers {
        blocks,
        cpus: Some(cpus),
        tables: Some(tables),
    })
}

// Those beside a size.
fn numbers_by_size(values: &ArgMatches<'_>, size: &str) -> Option<Numbers>
    ensures some { IfSome result (λ found. SizeOf size.now found.blocks × MayBeNumber (first_of (codes "cpus") (rows_of (found_of values.now))) found.cpus
        × MayBeNumber (first_of (codes "tables") (rows_of (found_of values.now))) found.tables) }
    ensures none { IsNone result → (blocks : ℕ) (cpus tables : Option ℕ) → SizeOf size.now blocks → MayBeNumber (first_of (codes "cpus") (rows_of (found_of values.now))) cpus
        → ¬ MayBeNumber (first_of (codes "tables") (rows_of (found_of values.now))) tables }
{
    let blocks = size_of(size)?;
    let cpus = may_be_number(text_of(values, "cpus"))?;
    let tables = may_be_number(text_of(values, "tables"))?;
    Some(Numbers {
        blocks,
        cpus,
        tables,
    })
}

// The number that is written, where one is; nothing where what is written is none.
pub(crate) fn may_be_number(text: Option<&str>) -> Option<Option<u64>>
    ensures some { IfSome result (MayBeNumber (option_map (λ text. text.now) text.entry)) }
    ensures none { IsNone result → (number : Option ℕ) → ¬ MayBeNumber (option_map (λ text. text.now) text.entry) number }
{
    match text {
        Some(text) => Some(Some(number_of(Some(text))?)),
        None => Some(None),
    }
}

fn clean_of<'a>(values: &ArgMatches<'a>) -> Option<Todo<'a>>
    ensures some { IfSome result (λ todo. Asks (codes "clean") (rows_of (found_of values.now)) todo) }
    ensures none { IsNone result → (todo : Todo) → ¬ Asks (codes "clean") (rows_of (found_of values.now)) todo }
{
    let image = text_of(values, "image")?;
    let path = text_of(values, "path");
    Some(Todo::Clean { image, path })
}

fn stat_of<'a>(values: &ArgMatches<'a>) -> Option<Todo<'a>>
    ensures some { IfSome result (λ todo. Asks (codes "stat") (rows_of (found_of values.now)) todo) }
    ensures none { IsNone result → (todo : Todo) → ¬ Asks (codes "stat") (rows_of (found_of values.now)) todo }
{
    let image = text_of(values, "image")?;
    let which = which_of(text_of(values, "path")?);
    Some(Todo::Stat { image, which })
}

fn cat_of<'a>(values: &ArgMatches<'a>) -> Option<Todo<'a>>
    ensures some { IfSome result (λ todo. Asks (codes "cat") (rows_of (found_of values.now)) todo) }
    ensures none { IsNone result → (todo : Todo) → ¬ Asks (codes "cat") (rows_of (found_of values.now)) todo }
{
    let image = text_of(values, "image")?;
    let which = which_of(text_of(values, "path")?);
    Some(Todo::Cat { image, which })
}

fn tar_of<'a>(values: &ArgMatches<'a>) -> Option<Todo<'a>>
    ensures some { IfSome result (λ todo. Asks (codes "tar") (rows_of (found_of values.now)) todo) }
    ensures none { IsNone result → (todo : Todo) → ¬ Asks (codes "tar") (rows_of (found_of values.now)) todo }
{
    let image = text_of(values, "image")?;
    let path = text_of(values, "path").unwrap_or("/");
    let which = which_of(path);
    let lost = is_given(values, "lost-found");
    Some(Todo::Tar { image, which, lost })
}

fn explain_of<'a>(values: &ArgMatches<'a>) -> Option<Todo<'a>>
    ensures some { IfSome result (λ todo. Asks (codes "explain") (rows_of (found_of values.now)) todo) }
    ensures none { IsNone result → (todo : Todo) → ¬ Asks (codes "explain") (rows_of (found_of values.now)) todo }
{
    let class = text_of(values, "class")?;
    Some(Todo::Explain { class })
}

fn map_of<'a>(values: &ArgMatches<'a>) -> Option<Todo<'a>>
    ensures some { IfSome result (λ todo. Asks (codes "map") (rows_of (found_of values.now)) todo) }
    ensures none { IsNone result → (todo : Todo) → ¬ Asks (codes "map") (rows_of (found_of values.now)) todo }
{
    let image = text_of(values, "image")?;
    let svg = text_of(values, "svg");
    let force = is_given(values, "force");
    Some(Todo::Map { image, svg, force })
}

fn todo_of<'a>(alloc: Global, matches: &ArgMatches<'a>) -> Result<Option<Todo<'a>>, AllocError>
    ensures some { IfOk result (λ found. IfSome found (λ todo. Says (subcommand_rows_of matches.now) todo)) }
    ensures none { IfOk result (λ found. IsNone found → (todo : Todo) → ¬ Says (subcommand_rows_of matches.now) todo) }
{
    match matches.subcommand() {
        Some(("check", values)) => check_of(alloc, values),
        Some((name, values)) => Ok(command_of(name, values)),
        None => Ok(None),
    }
}

// What a command other than `check` asks for.
fn command_of<'a>(name: &str, values: &ArgMatches<'a>) -> Option<Todo<'a>>
    ensures some { IfSome result (λ todo. Asks name.now (rows_of (found_of values.now)) todo) }
    ensures none { IsNone result → name.now ≢ codes "check" → (todo : Todo) → ¬ Asks name.now (rows_of (found_of values.now)) todo }
{
    match name {
        "run" => Some(run_of(values)),
        "shell" => shell_of(values),
        "mkfs" => mkfs_of(values),
        "clean" => clean_of(values),
        "ls" => ls_of(values),
        "stat" => stat_of(values),
        "cat" => cat_of(values),
        "du" => du_of(values),
        "tar" => tar_of(values),
        "log" => log_of(values),
        "block" => block_of(values),
        "diff" => diff_of(values),
        "explain" => explain_of(values),
        "map" => map_of(values),
        "put" => put_of(values),
        "untar" => untar_of(values),
        "recover" => recover_of(values),
        _ => change_of(name, values),
    }
}

// Whether the words ask for the version, and nothing else.
fn ask_version(words: &[&str]) -> bool
    ensures { IsTrue result ↔ AskVersion (map (λ word. word.now) words.now) }
{
    match words {
        [word] => is_version(word),
        _ => false,
    }
}

fn is_version(word: &str) -> bool
    ensures { IsTrue result ↔ IsVersion word.now }
{
    word == "--version" || word == "-V"
}

/// What the words, which come without the program's name, ask for: one of the commands of `Todo` with its arguments. A
/// number is decimal, and may have a plus sign and leading zeros: `+5` and `05` are 5. It is below 2^64, and a number of
/// workers, which is 1 where it is left out, from 1 to 64.
///
/// `--version` and `-V` alone ask for the version. All other words are answered by the text for the user, and so are words that
/// ask for help, and want of memory.
pub fn read_words<'a>(alloc: Global, words: &'a [&'a str]) -> Result<Todo<'a>, Usage>
    ensures ok { IfOk result (λ todo. WordsSay (map (λ word. word.now) words.entry.now) todo) }
    // Words that ask for something are refused only for want of memory.
    ensures err { IfErr result (λ usage. (todo : Todo) → WordsSay (map (λ word. word.now) words.entry.now) todo → WantsMemory usage) }
{
    if ask_version(words) {
        return Ok(Todo::Version);
    }
    read_command(alloc, words)
}

// What the words of a command ask for.
fn read_command<'a>(alloc: Global, words: &'a [&'a str]) -> Result<Todo<'a>, Usage>
    ensures ok { IfOk result (λ todo. CommandSays (map (λ word. word.now) words.entry.now) todo) }
    ensures err { IfErr result (λ usage. (todo : Todo) → CommandSays (map (λ word. word.now) words.entry.now) todo → WantsMemory usage) }
{
    let Ok(command) = nova(alloc) else {
        return Err(Usage {
            cause: Cause::NoMemory,
        });
    };
    match command.try_get_matches_from(words) {
        Ok(matches) => asked(todo_of(alloc, &matches), cause_of(&matches)),
        Err(error) => Err(Usage {
            cause: Cause::Words(error),
        }),
    }
}

// Why the words of a command that pass ask for nothing, where they do.
fn cause_of(matches: &ArgMatches<'_>) -> Cause {
    match matches.subcommand() {
        Some(("check", _)) => Cause::TwoOutputs,
        Some(("mkfs", _)) => Cause::NoSize,
        Some(("log", _)) => Cause::NoLog,
        _ => Cause::NoChange,
    }
}

// What words that pass ask for. Of these only a check that is to print several things, or to explain several images, a new
// image of no size, a log of no inode, and a change by what can't be read ask for nothing.
fn asked(found: Result<Option<Todo<'_>>, AllocError>, cause: Cause) -> Result<Todo<'_>, Usage>
    ensures ok { IfOk result (λ todo. found.entry ≡ Ok (Some todo)) }
    ensures err { IfErr result (λ usage. (found.entry ≡ Ok None) ⊎ WantsMemory usage) }
{
    match found {
        Ok(Some(todo)) => Ok(todo),
        Ok(None) => Err(Usage { cause }),
        Err(_) => Err(Usage {
            cause: Cause::NoMemory,
        }),
    }
}
