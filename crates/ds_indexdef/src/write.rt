//! Writing index files.
ghost use Rattle.std.specs.Prelude.{◌≡◌, ◌++◌, ◌&&◌, ◌||◌, not, bytes_eq, cond, IsTrue, IfOk, OnOk, Ok};
ghost use Rattle.std.specs.List.{flat_map, list_all};
ghost use Rattle.ds_indexdef.specs.Grammar.{lack, are_orderly};
ghost use Rattle.ds_indexdef.specs.Forms.{is_kind};
ghost use Rattle.ds_base.specs.KeyColumn.{key_name};
ghost use Rattle.ds_indexdef.specs.Reading.{yaml_of, is_bare};
ghost use Rattle.ds_indexdef.specs.Text.{line, column_lines, written_columns, def_lines, text_of};
ghost use Rattle.ds_indexdef.specs.Text.{has_property_names, can_write_def, can_write};

use crate::entry::is_bare;
use crate::form::{is_kind, is_property};
use crate::reading::{ends_in_key, is_builtin};
use crate::{Defs, IndexDef};
use ds_base::limits::MAX_DEFINITIONS;
use ds_base::{ByteString, Column, KEY_NAME, NoMemory, TextString, is_key_name};
use std::alloc::{AllocError, Global};

/// Whether `write_yaml` takes these definitions: they are at most 200; their kinds and properties are names of an index file,
/// which aren't reserved, but for `__key__` as the last property; no property stands twice in a definition; no definition ends in
/// `__key__` ascending; and none has the rows of a built-in index (one property, or `__key__` ascending alone, without ancestor).
/// It takes no memory.
pub fn can_write(defs: &Defs) -> bool
    ensures { result ≡ can_write defs.now }
{
    defs.len() <= MAX_DEFINITIONS && can_write_each(defs.as_slice())
}

fn can_write_each(defs: &[IndexDef]) -> bool
    ensures { result ≡ list_all can_write_def defs.now }
{
    defs.iter().all(|def| can_write_def(def))
}

fn can_write_def(def: &IndexDef) -> bool
    ensures { result ≡ can_write_def def.now }
{
    let columns = def.columns.as_slice();
    has_names(def) && are_orderly(columns) && !ends_in_key(columns) && !is_builtin(def)
}

fn has_names(def: &IndexDef) -> bool
    ensures { result ≡ (is_kind def.now.kind && has_property_names def.now.columns) }
{
    is_kind(def.kind.text()) && has_property_names(def.columns.as_slice())
}

fn has_property_names(columns: &[Column]) -> bool
    ensures { result ≡ has_property_names columns.now }
{
    columns.iter().all(|column| is_property(column.name.text()))
}

// Whether no property stands twice, and `__key__` only as the last.
fn are_orderly(columns: &[Column]) -> bool
    ensures { result ≡ are_orderly columns.now }
{
    let mut left = columns;
    while let [column, rest @ ..] = left {
        if !stands_before(&column.name, rest) {
            return false;
        }
        left = rest;
    }
    true
}

// Whether a property of this name may stand before these.
fn stands_before(name: &TextString, rest: &[Column]) -> bool
    ensures { result ≡ (lack rest.now name.now && (not (bytes_eq name.now key_name) || is_bare rest.now)) }
{
    lack(rest, name) && (!is_key_name(name) || is_bare(rest))
}

fn lack(columns: &[Column], name: &TextString) -> bool
    ensures { result ≡ lack columns.now name.now }
{
    columns.iter().all(|column| *name != column.name)
}

/// The text of an index file with these definitions: `indexes:`, and for each `- kind: K`, `  ancestor: yes` or `  ancestor: no`,
/// `  properties:`, and for each column `  - name: P` and `    direction: asc` or `    direction: desc`. A definition without
/// columns is written with the one column `__key__` ascending. The text is read as the same definitions.
///
/// It needs definitions that `can_write` takes. Its time and memory grow with the text.
pub fn write_yaml(alloc: Global, defs: &Defs) -> Result<ByteString, NoMemory>
    requires { IsTrue (can_write defs.now) }
    ensures text { IfOk result (λ text. text ≡ text_of defs.now) }
    ensures read { IfOk result (λ text. yaml_of text ≡ Ok defs.now) }
{
    write_lines(alloc, defs.as_slice())
}

fn write_lines(alloc: Global, defs: &[IndexDef]) -> Result<ByteString, AllocError>
    ensures { IfOk result (λ text. text ≡ text_of defs.now) }
{
    let mut text = ByteString::new(alloc);
    write_line(&mut text, b"indexes:", b"")?;
    for def in defs {
        write_def(&mut text, def)?;
    }
    Ok(text)
}

fn write_def(text: &mut ByteString, def: &IndexDef) -> Result<(), AllocError>
    ensures { OnOk result (text.new ≡ text.old ++ flat_map line (def_lines def.now)) }
{
    write_line(text, b"- kind: ", def.kind.bytes())?;
    write_choice(text, b"  ancestor: ", def.ancestor, b"yes", b"no")?;
    write_line(text, b"  properties:", b"")?;
    write_columns(text, def.columns.as_slice())
}

// Writes the columns, or `__key__` ascending where there are none.
fn write_columns(text: &mut ByteString, columns: &[Column]) -> Result<(), AllocError>
    ensures { OnOk result (text.new ≡ text.old ++ flat_map line (flat_map column_lines (written_columns columns.now))) }
{
    if is_bare(columns) {
        write_column(text, KEY_NAME.as_bytes(), false)
    } else {
        write_each(text, columns)
    }
}

fn write_each(text: &mut ByteString, columns: &[Column]) -> Result<(), AllocError>
    ensures { OnOk result (text.new ≡ text.old ++ flat_map line (flat_map column_lines columns.now)) }
{
    for column in columns {
        write_column(text, column.name.bytes(), column.descending)?;
    }
    Ok(())
}

fn write_column(text: &mut ByteString, name: &[u8], descending: bool) -> Result<(), AllocError>
    ensures { OnOk result (text.new ≡ text.old ++ flat_map line (column_lines (record { name = name.now; descending = descending }))) }
{
    write_line(text, b"  - name: ", name)?;
    write_choice(text, b"    direction: ", descending, b"desc", b"asc")
}

// Writes a line that begins with `start` and ends with one of two words.
fn write_choice(
    text: &mut ByteString,
    start: &[u8],
    first: bool,
    one: &[u8],
    other: &[u8],
) -> Result<(), AllocError>
    ensures { OnOk result (text.new ≡ text.old ++ line (start.now ++ cond first one.now other.now)) }
{
    if first {
        write_line(text, start, one)
    } else {
        write_line(text, start, other)
    }
}

// Writes a line of two pieces.
fn write_line(text: &mut ByteString, start: &[u8], end: &[u8]) -> Result<(), AllocError>
    ensures { OnOk result (text.new ≡ text.old ++ line (start.now ++ end.now)) }
{
    text.append(start)?;
    text.append(end)?;
    text.append(b"\n")
}
