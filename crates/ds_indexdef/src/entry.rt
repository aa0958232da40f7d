//! The entry of an index file whose columns are being read.
ghost use Rattle.std.specs.Prelude.{◌≡◌, ◌||◌, [], true, false, IfOk, bytes_eq};
ghost use Rattle.ds_base.specs.KeyColumn.{key_name};
ghost use Rattle.ds_indexdef.specs.Reading.{is_bare, takes, turned, turned_columns, with_column};

use crate::IndexDef;
use ds_base::{Column, Columns, TextString, TryCopy, is_key_name};
use std::alloc::{AllocError, Global};
use std::collections::BTreeSet;
use std::marker::Model;

/// An entry with the columns so far and the set of their names. Contracts see the definition.
#[derive(Drop)]
pub(crate) struct Entry {
    def: IndexDef,
    names: BTreeSet<TextString>,
    // Whether `__key__` is among the names.
    key: bool,
}

impl Model for Entry {
    ghost use Rattle.ds_indexdef.specs.declared.IndexDef.{IndexDef};
    ghost use Rattle.ds_indexdef.specs.Names.{AreNamesOf};

    ghost Value = { IndexDef };

    ghost view = { λ e. e.def };

    ghost invariant = { λ e. AreNamesOf e.def.columns e.names.keys e.key };
}

impl Entry {
    /// An entry without columns. It takes no memory.
    pub(crate) fn new(alloc: Global, kind: TextString, ancestor: bool) -> Entry
        ensures { result ≡ record { kind = kind; ancestor = ancestor; columns = [] } }
    {
        let columns = Columns::new(alloc);
        Entry {
            def: IndexDef {
                kind,
                ancestor,
                columns,
            },
            names: BTreeSet::new(alloc),
            key: false,
        }
    }

    /// Whether there is no column yet.
    pub(crate) fn is_bare(&self) -> bool
        ensures { result ≡ is_bare self.now.columns }
    {
        is_bare(self.def.columns.as_slice())
    }

    /// Whether a property of this name may follow: it doesn't stand there yet, and `__key__` doesn't.
    pub(crate) fn takes(&self, name: &TextString) -> bool
        ensures { result ≡ takes self.now name.now }
    {
        !self.key && !self.names.contains(name)
    }

    /// The entry with an ascending column more. `Err` means out of memory.
    pub(crate) fn with_column(self, alloc: Global, name: TextString) -> Result<Entry, AllocError>
        ensures { IfOk result (λ more. more ≡ with_column self (record { name = name; descending = false })) }
    {
        let Entry {
            def,
            mut names,
            key,
        } = self;
        let copy = name.copy(alloc)?;
        names.insert(copy)?;
        let key = is_key_or(key, &name);
        let def = with_column(def, name)?;
        Ok(Entry { def, names, key })
    }

    /// The entry with this direction of its last column.
    pub(crate) fn turned(self, descending: bool) -> Entry
        ensures { result ≡ turned self descending }
    {
        let Entry { def, names, key } = self;
        let def = turned(def, descending);
        Entry { def, names, key }
    }

    /// The definition, moved out.
    pub(crate) fn into_def(self) -> IndexDef
        ensures { result ≡ self }
    {
        self.def
    }
}

// Whether the flag is set or the name is that of the column of keys.
fn is_key_or(key: bool, name: &TextString) -> bool
    ensures { result ≡ (key || bytes_eq name.now key_name) }
{
    key || is_key_name(name)
}

// The entry with an ascending column more.
fn with_column(entry: IndexDef, name: TextString) -> Result<IndexDef, AllocError>
    ensures { IfOk result (λ more. more ≡ with_column entry (record { name = name; descending = false })) }
{
    let IndexDef {
        kind,
        ancestor,
        mut columns,
    } = entry;
    let column = Column {
        name,
        descending: false,
    };
    match columns.push(column) {
        Ok(()) => Ok(IndexDef {
            kind,
            ancestor,
            columns,
        }),
        Err(_) => Err(AllocError),
    }
}

/// The entry with this direction of its last column.
pub(crate) fn turned(entry: IndexDef, descending: bool) -> IndexDef
    ensures { result ≡ turned entry descending }
{
    let IndexDef {
        kind,
        ancestor,
        columns,
    } = entry;
    let columns = turned_columns(columns, descending);
    IndexDef {
        kind,
        ancestor,
        columns,
    }
}

fn turned_columns(columns: Columns, descending: bool) -> Columns
    ensures { result ≡ turned_columns columns descending }
{
    let mut columns = columns.into_vec();
    let count = columns.len();
    if count > 0 {
        let last = &mut columns[count - 1];
        last.descending = descending;
    }
    Columns::from(columns)
}

/// Whether no property stands there yet.
pub(crate) fn is_bare(columns: &[Column]) -> bool
    ensures { result ≡ is_bare columns.now }
{
    match columns {
        [] => true,
        _ => false,
    }
}
