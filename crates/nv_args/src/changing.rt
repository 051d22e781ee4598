//! What the words of a command that changes an image ask for.

ghost use Rattle.std.specs.Prelude.{◌≡◌, ◌≢◌, ℕ, Some, Option, IfSome, IsNone, option_map, codes};
ghost use Rattle.clap.specs.Walk.{first_of, rows_of};
ghost use Rattle.clap.specs.Matches.{found_of};
ghost use Rattle.nv_args.specs.Words.{Asks, AsksChange, IsCpu, IsGiven, WritesMode, WritesOwners};
ghost use Rattle.nv_args.specs.declared.todo.Todo.{Todo as TodoValue};
ghost use Rattle.nv_args.specs.declared.change.NamedChange.{NamedChange as ChangeValue};

use crate::change::NamedChange;
use crate::owners::{Owners, mode_of, owners_of};
use crate::reading::{is_given, may_be_number, number_of, text_of};
use crate::todo::Todo;
use clap::ArgMatches;

/// What a command that changes an image asks for.
pub(crate) fn change_of<'a>(name: &str, values: &ArgMatches<'a>) -> Option<Todo<'a>>
    ensures some { IfSome result (λ todo. Asks name.now (rows_of (found_of values.now)) todo) }
    ensures none { IsNone result → (image : _) (change : ChangeValue) (cpu : ℕ) (time : Option ℕ) → ¬ Asks name.now (rows_of (found_of values.now)) (TodoValue.Change image change cpu time) }
{
    let image = text_of(values, "image")?;
    let change = named_change(name, values)?;
    let cpu = cpu_of(text_of(values, "cpu"))?;
    let time = may_be_number(text_of(values, "time"))?;
    Some(Todo::Change {
        image,
        change,
        cpu,
        time,
    })
}

/// What `put` asks for: one file, or a whole tree.
pub(crate) fn put_of<'a>(values: &ArgMatches<'a>) -> Option<Todo<'a>>
    ensures some { IfSome result (λ todo. Asks (codes "put") (rows_of (found_of values.now)) todo) }
    ensures none { IsNone result → (todo : TodoValue) → ¬ Asks (codes "put") (rows_of (found_of values.now)) todo }
{
    if is_given(values, "recursive") {
        put_tree_of(values)
    } else {
        change_of("put", values)
    }
}

fn put_tree_of<'a>(values: &ArgMatches<'a>) -> Option<Todo<'a>>
    requires { IsGiven (codes "recursive") (rows_of (found_of values.now)) }
    ensures some { IfSome result (λ todo. Asks (codes "put") (rows_of (found_of values.now)) todo) }
    ensures none { IsNone result → (todo : TodoValue) → ¬ Asks (codes "put") (rows_of (found_of values.now)) todo }
{
    let image = text_of(values, "image")?;
    let host = text_of(values, "host")?;
    let path = text_of(values, "path")?;
    let cpu = may_be_number(text_of(values, "cpu"))?;
    Some(Todo::PutTree {
        image,
        host,
        path,
        cpu,
        time: may_be_number(text_of(values, "time"))?,
    })
}

pub(crate) fn untar_of<'a>(values: &ArgMatches<'a>) -> Option<Todo<'a>>
    ensures some { IfSome result (λ todo. Asks (codes "untar") (rows_of (found_of values.now)) todo) }
    ensures none { IsNone result → (todo : TodoValue) → ¬ Asks (codes "untar") (rows_of (found_of values.now)) todo }
{
    let image = text_of(values, "image")?;
    let path = text_of(values, "path").unwrap_or("/");
    let cpu = may_be_number(text_of(values, "cpu"))?;
    Some(Todo::Untar { image, path, cpu })
}

pub(crate) fn recover_of<'a>(values: &ArgMatches<'a>) -> Option<Todo<'a>>
    ensures some { IfSome result (λ todo. Asks (codes "recover") (rows_of (found_of values.now)) todo) }
    ensures none { IsNone result → (todo : TodoValue) → ¬ Asks (codes "recover") (rows_of (found_of values.now)) todo }
{
    let image = text_of(values, "image")?;
    let dry_run = is_given(values, "dry-run");
    Some(Todo::Recover { image, dry_run })
}

// The number of a CPU that is written, or 0 where none is.
fn cpu_of(text: Option<&str>) -> Option<u64>
    ensures some { IfSome result (IsCpu (option_map (λ text. text.now) text.entry)) }
    ensures none { IsNone result → (cpu : ℕ) → ¬ IsCpu (option_map (λ text. text.now) text.entry) cpu }
{
    match text {
        Some(text) => number_of(Some(text)),
        None => Some(0),
    }
}

// The change that a command of this name asks for.
fn named_change<'a>(name: &str, values: &ArgMatches<'a>) -> Option<NamedChange<'a>>
    ensures some { IfSome result (AsksChange name.now (rows_of (found_of values.now))) }
    ensures none { IsNone result → (change : ChangeValue) → ¬ AsksChange name.now (rows_of (found_of values.now)) change }
{
    match name {
        "mkdir" => mkdir_of(values),
        "rm" => rm_of(values),
        "rmdir" => rmdir_of(values),
        "mv" => mv_of(values),
        "ln" => ln_of(values),
        "truncate" => truncate_of(values),
        "chmod" => chmod_of(values),
        "chown" => chown_of(values),
        "put" => put_file_of(values),
        _ => None,
    }
}

fn mkdir_of<'a>(values: &ArgMatches<'a>) -> Option<NamedChange<'a>>
    ensures some { IfSome result (AsksChange (codes "mkdir") (rows_of (found_of values.now))) }
    ensures none { IsNone result → (change : ChangeValue) → ¬ AsksChange (codes "mkdir") (rows_of (found_of values.now)) change }
{
    let path = text_of(values, "path")?;
    Some(NamedChange::Mkdir { path })
}

fn rm_of<'a>(values: &ArgMatches<'a>) -> Option<NamedChange<'a>>
    ensures some { IfSome result (AsksChange (codes "rm") (rows_of (found_of values.now))) }
    ensures none { IsNone result → (change : ChangeValue) → ¬ AsksChange (codes "rm") (rows_of (found_of values.now)) change }
{
    let path = text_of(values, "path")?;
    Some(NamedChange::Rm { path })
}

fn rmdir_of<'a>(values: &ArgMatches<'a>) -> Option<NamedChange<'a>>
    ensures some { IfSome result (AsksChange (codes "rmdir") (rows_of (found_of values.now))) }
    ensures none { IsNone result → (change : ChangeValue) → ¬ AsksChange (codes "rmdir") (rows_of (found_of values.now)) change }
{
    let path = text_of(values, "path")?;
    Some(NamedChange::Rmdir { path })
}

fn mv_of<'a>(values: &ArgMatches<'a>) -> Option<NamedChange<'a>>
    ensures some { IfSome result (AsksChange (codes "mv") (rows_of (found_of values.now))) }
    ensures none { IsNone result → (change : ChangeValue) → ¬ AsksChange (codes "mv") (rows_of (found_of values.now)) change }
{
    let old = text_of(values, "old")?;
    let new = text_of(values, "new")?;
    Some(NamedChange::Mv { old, new })
}

fn ln_of<'a>(values: &ArgMatches<'a>) -> Option<NamedChange<'a>>
    ensures some { IfSome result (AsksChange (codes "ln") (rows_of (found_of values.now))) }
    ensures none { IsNone result → (change : ChangeValue) → ¬ AsksChange (codes "ln") (rows_of (found_of values.now)) change }
{
    let old = text_of(values, "old")?;
    let new = text_of(values, "new")?;
    Some(NamedChange::Ln { old, new })
}

fn truncate_of<'a>(values: &ArgMatches<'a>) -> Option<NamedChange<'a>>
    ensures some { IfSome result (AsksChange (codes "truncate") (rows_of (found_of values.now))) }
    ensures none { IsNone result → (change : ChangeValue) → ¬ AsksChange (codes "truncate") (rows_of (found_of values.now)) change }
{
    let path = text_of(values, "path")?;
    let size = number_of(text_of(values, "size"))?;
    Some(NamedChange::Truncate { path, size })
}

fn chmod_of<'a>(values: &ArgMatches<'a>) -> Option<NamedChange<'a>>
    ensures some { IfSome result (AsksChange (codes "chmod") (rows_of (found_of values.now))) }
    ensures none { IsNone result → (change : ChangeValue) → ¬ AsksChange (codes "chmod") (rows_of (found_of values.now)) change }
{
    let path = text_of(values, "path")?;
    let mode = written_mode(text_of(values, "mode"))?;
    Some(NamedChange::Chmod { path, mode })
}

fn chown_of<'a>(values: &ArgMatches<'a>) -> Option<NamedChange<'a>>
    ensures some { IfSome result (AsksChange (codes "chown") (rows_of (found_of values.now))) }
    ensures none { IsNone result → (change : ChangeValue) → ¬ AsksChange (codes "chown") (rows_of (found_of values.now)) change }
{
    let path = text_of(values, "path")?;
    let Owners { owner, group } = written_owners(text_of(values, "owner"))?;
    Some(NamedChange::Chown { path, owner, group })
}

// A file alone.
fn put_file_of<'a>(values: &ArgMatches<'a>) -> Option<NamedChange<'a>>
    ensures some { IfSome result (AsksChange (codes "put") (rows_of (found_of values.now))) }
    ensures none { IsNone result → (change : ChangeValue) → ¬ AsksChange (codes "put") (rows_of (found_of values.now)) change }
{
    if is_given(values, "recursive") {
        return None;
    }
    let host = text_of(values, "host")?;
    let path = text_of(values, "path")?;
    Some(NamedChange::Put { host, path })
}

fn written_mode(text: Option<&str>) -> Option<u32>
    ensures some { IfSome result (WritesMode (option_map (λ text. text.now) text.entry)) }
    ensures none { IsNone result → (mode : ℕ) → ¬ WritesMode (option_map (λ text. text.now) text.entry) mode }
{
    mode_of(text?)
}

fn written_owners(text: Option<&str>) -> Option<Owners>
    ensures some { IfSome result (λ owners. WritesOwners (option_map (λ text. text.now) text.entry) owners.owner owners.group) }
    ensures none { IsNone result → (owner : ℕ) (group : Option ℕ) → ¬ WritesOwners (option_map (λ text. text.now) text.entry) owner group }
{
    owners_of(text?)
}
