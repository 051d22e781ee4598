//! The inodes in use: each with its attributes, its log, and its names or the extents of its pages.

ghost use Rattle.std.specs.Prelude.{◌≡◌, IfOk, map, List, string_bytes};
ghost use Rattle.nv_super.specs.Kind.{kind_word};
ghost use Rattle.nv_names.specs.Names.{line_of};
ghost use Rattle.nv_text.specs.Names.{escaped};
ghost use Rattle.serde_json.specs.Data.{Data};
ghost use Rattle.serde_json.specs.View.{view};
ghost use Rattle.nv_json.specs.Json.{name_data, AreNames, AreExtentsIn, IsRow, AreRows, attributes_data, array_of};

use crate::lists::{blocks_value, extents_value, list_value};
use nv_names::Named;
use nv_outcome::Rows;
use nv_scan::Row;
use nv_super::Kind;
use nv_text::push_escaped;
use serde_json::{Value, json};
use std::alloc::{AllocError, Global};

/// All inodes in use, rising by number.
pub(crate) fn rows_value(alloc: Global, rows: &Rows) -> Result<Value, AllocError>
    ensures { IfOk result (λ v. (ds : List Data) × AreRows rows.now.items ds × (view v ≡ array_of ds)) }
{
    let mut items = Vec::new(alloc);
    for (_, row) in rows.iter() {
        items.push(row_value(alloc, row)?)?;
    }
    Ok(list_value(items))
}

fn row_value(alloc: Global, row: &Row) -> Result<Value, AllocError>
    ensures { IfOk result (λ v. IsRow row.now (view v)) }
{
    // Each part is made where it is put in, and none is dropped because another is refused.
    json!(in alloc; {
        "tail": row.tail,
        "names": names_of(alloc, row)?,
        "log": blocks_value(alloc, &row.pages)?,
        "kind": kind_word(row.kind),
        "inode": row.inode,
        "extents": extents_of(alloc, row)?,
        "attributes": attributes_value(alloc, row)?
    })
}

fn attributes_value(alloc: Global, row: &Row) -> Result<Value, AllocError>
    ensures { IfOk result (λ v. view v ≡ attributes_data row.now) }
{
    let numbers = row.numbers;
    json!(in alloc; {
        "time": numbers.time,
        "size": numbers.size,
        "owner": numbers.owner,
        "mode": numbers.mode,
        "links": numbers.links,
        "group": numbers.group
    })
}

fn kind_word(kind: Kind) -> &'static str
    ensures { result.now ≡ kind_word kind }
{
    match kind {
        Kind::File => "file",
        Kind::Directory => "dir",
    }
}

// The names of a directory, and none of a file.
fn names_of(alloc: Global, row: &Row) -> Result<Value, AllocError>
    ensures { IfOk result (λ v. (ds : List Data) × AreNames row.now.kind row.now.names ds × (view v ≡ array_of ds)) }
{
    match row.kind {
        Kind::Directory => {
            let listed = row.names.list()?;
            names_value(alloc, &listed)
        }
        Kind::File => Ok(list_value(Vec::new(alloc))),
    }
}

// The extents of a file, and none of a directory.
fn extents_of(alloc: Global, row: &Row) -> Result<Value, AllocError>
    ensures { IfOk result (λ v. (ds : List Data) × AreExtentsIn row.now.kind row.now.index ds × (view v ≡ array_of ds)) }
{
    match row.kind {
        Kind::Directory => Ok(list_value(Vec::new(alloc))),
        Kind::File => {
            let extents = row.index.runs()?;
            extents_value(alloc, &extents)
        }
    }
}

fn names_value(alloc: Global, listed: &[Named<'_>]) -> Result<Value, AllocError>
    ensures { IfOk result (λ v. view v ≡ array_of (map name_data (map line_of listed.now))) }
{
    let mut items = Vec::new(alloc);
    for named in listed {
        items.push(name_value(alloc, named)?)?;
    }
    Ok(list_value(items))
}

fn name_value(alloc: Global, named: &Named<'_>) -> Result<Value, AllocError>
    ensures { IfOk result (λ v. view v ≡ name_data (line_of named.now)) }
{
    let name = name_text(alloc, named.name)?;
    json!(in alloc; {"name": name, "inode": named.inode})
}

// A name with its escapes, as it is printed.
fn name_text(alloc: Global, name: &[u8]) -> Result<String, AllocError>
    ensures { IfOk result (λ text. string_bytes text ≡ escaped name.now) }
{
    let mut text = String::new(alloc);
    push_escaped(&mut text, name)?;
    Ok(text)
}
