//! Reading an index file line by line: the definitions so far, and the part of the file that the last lines belong to.
ghost use Rattle.std.specs.Prelude.{◌≡◌, ◌<◌, ◌||◌, cond, IsTrue, IfOk, Ok, Err, length, is_some, map, Result};
ghost use Rattle.std.specs.Option.{option_map};
ghost use Rattle.std.specs.List.{list_any};
ghost use Rattle.ds_indexdef.specs.Refusals.{GivesUnlessNoMemory};
ghost use Rattle.ds_indexdef.specs.Reading.{Reading, next, step, read_line, finish, gone_on, closed, refused, begins, may_become};
ghost use Rattle.ds_indexdef.specs.Reading.{definition_of, is_builtin, are_builtin, adds_nothing, with_entry};
ghost use Rattle.ds_indexdef.specs.Reading.{ends_in_key, without_key};

use crate::defs::contains;
use crate::entry::turned;
use crate::form::Form;
use crate::part::{Moved, Part, next};
use crate::{Defs, IndexDef, YamlRefused};
use ds_base::limits::MAX_DEFINITIONS;
use ds_base::{Column, Columns, TextString, TryCopy, is_ascending_key, is_key_name};
use std::alloc::{AllocError, Global};
use std::marker::Model;

/// What was read so far.
#[derive(Drop)]
pub(crate) struct Progress {
    // The definitions of the entries before the last.
    defs: Defs,
    // The part of the file that the last lines belong to.
    part: Part,
    // The number of the last line that isn't empty.
    last: u64,
}

impl Model for Progress {
    ghost Value = { Reading };

    ghost view = { λ p. record { defs = p.defs; part = p.part; last = p.last } };
}

impl Progress {
    ghost use Rattle.std.specs.Prelude.{[]};
    ghost use Rattle.ds_indexdef.specs.declared.part.Part.TheVariants.{Start};

    /// Nothing yet.
    pub(crate) fn new(alloc: Global) -> Progress
        ensures { result ≡ record { defs = []; part = Start; last = 0 } }
    {
        Progress {
            defs: Defs::new(alloc),
            part: Part::Start,
            last: 0,
        }
    }

    /// What was read with line `n`; or the line that is refused. An empty line changes nothing.
    pub(crate) fn step(self, alloc: Global, n: u64, form: Form) -> Result<Progress, YamlRefused>
        ensures { GivesUnlessNoMemory result (read_line self n form) }
    {
        match form {
            Form::Blank => Ok(self),
            Form::Kind(kind) => self.open(n, kind),
            other => self.go_on(alloc, n, other),
        }
    }

    // With line `n`, which is the first of an entry.
    fn open(self, n: u64, kind: TextString) -> Result<Progress, YamlRefused>
        ensures { GivesUnlessNoMemory result (step self n (Form.Kind kind)) }
    {
        let Progress { defs, part, last } = self;
        if let Part::Start = part {
            return Err(YamlRefused::Line(n));
        }
        match closed(part, defs, last)? {
            Some(defs) => Ok(Progress {
                defs,
                part: Part::Headed(kind),
                last: n,
            }),
            None => Err(YamlRefused::Line(n)),
        }
    }

    // With line `n`, which is neither empty nor the first of an entry.
    fn go_on(self, alloc: Global, n: u64, form: Form) -> Result<Progress, YamlRefused>
        ensures { GivesUnlessNoMemory result (gone_on (next self.part form) self.defs self.last n) }
    {
        let Progress { defs, part, last } = self;
        match next(alloc, part, form)? {
            Moved::On(part) => Ok(Progress {
                defs,
                part,
                last: n,
            }),
            Moved::Stuck(part) => Err(YamlRefused::Line(refused(alloc, part, defs, last, n)?)),
        }
    }

    /// The definitions at the end of the text, where the line after the last is `n`; or the line that is refused.
    pub(crate) fn finish(self, n: u64) -> Result<Defs, YamlRefused>
        ensures { GivesUnlessNoMemory result (finish self n) }
    {
        let Progress { defs, part, last } = self;
        match closed(part, defs, last)? {
            Some(defs) => Ok(defs),
            None => Err(YamlRefused::Line(n)),
        }
    }
}

// The definitions where a file or an entry may end; `None` where neither may. An entry that would be the 201st definition refuses
// its last line.
fn closed(part: Part, defs: Defs, last: u64) -> Result<Option<Defs>, YamlRefused>
    ensures { GivesUnlessNoMemory result (closed part defs last) }
{
    match part {
        Part::Start | Part::Listed => Ok(Some(defs)),
        Part::Headed(_) | Part::Flagged(_, _) => Ok(None),
        Part::Filled(entry, _) => {
            if entry.is_bare() {
                return Ok(None);
            }
            match with_entry(defs, entry.into_def())? {
                Some(defs) => Ok(Some(defs)),
                None => Err(YamlRefused::Line(last)),
            }
        }
    }
}

// The definitions with that of an entry; `None` where it would be the 201st.
fn with_entry(defs: Defs, entry: IndexDef) -> Result<Option<Defs>, AllocError>
    ensures { IfOk result (λ more. more ≡ with_entry defs entry) }
{
    let def = definition_of(entry);
    if adds_nothing(&defs, &def) {
        return Ok(Some(defs));
    }
    if defs.len() >= MAX_DEFINITIONS {
        return Ok(None);
    }
    let mut defs = defs;
    match defs.push(def) {
        Ok(()) => Ok(Some(defs)),
        Err(_) => Err(AllocError),
    }
}

// The definition of an entry: a final `__key__` ascending is dropped.
fn definition_of(entry: IndexDef) -> IndexDef
    ensures { result ≡ definition_of entry }
{
    let IndexDef {
        kind,
        ancestor,
        columns,
    } = entry;
    let columns = without_key(columns);
    IndexDef {
        kind,
        ancestor,
        columns,
    }
}

// The columns without a final `__key__` ascending.
fn without_key(columns: Columns) -> Columns
    ensures { result ≡ without_key columns }
{
    if !ends_in_key(columns.as_slice()) {
        return columns;
    }
    let mut columns = columns.into_vec();
    columns.truncate(columns.len() - 1);
    Columns::from(columns)
}

/// Whether the last column is `__key__` ascending.
pub(crate) fn ends_in_key(columns: &[Column]) -> bool
    ensures value { result ≡ ends_in_key columns.now }
    ensures some { IsTrue result → 0 < length columns.now }
{
    match columns {
        [.., last] => is_ascending_key(last),
        [] => false,
    }
}

// Whether the definition adds nothing to these: its rows are those of a built-in index, or it is there.
fn adds_nothing(defs: &Defs, def: &IndexDef) -> bool
    ensures { result ≡ adds_nothing defs.now def.now }
{
    is_builtin(def) || contains(defs.as_slice(), def)
}

/// Whether its rows are those of a built-in index: one property ascending or descending, or `__key__` ascending alone, without
/// ancestor.
pub(crate) fn is_builtin(def: &IndexDef) -> bool
    ensures { result ≡ is_builtin def.now }
{
    !def.ancestor && are_builtin(def.columns.as_slice())
}

fn are_builtin(columns: &[Column]) -> bool
    ensures { result ≡ are_builtin columns.now }
{
    match columns {
        [] => true,
        [column] => !is_key_name(&column.name),
        _ => false,
    }
}

// The line that is refused where line `n` is wrong behind a part: `n`, but where the entry before it would be the 201st definition,
// however it went on, the last line of that.
fn refused(alloc: Global, part: Part, defs: Defs, last: u64, n: u64) -> Result<u64, AllocError>
    ensures { IfOk result (λ line. line ≡ refused part defs last n) }
{
    let Part::Filled(entry, fresh) = part else {
        return Ok(n);
    };
    if entry.is_bare() {
        return Ok(n);
    }
    refused_behind(alloc, entry.into_def(), fresh, defs, last, n)
}

// The same behind an entry that may be whole.
fn refused_behind(
    alloc: Global,
    entry: IndexDef,
    fresh: bool,
    defs: Defs,
    last: u64,
    n: u64,
) -> Result<u64, AllocError>
    ensures { IfOk result (λ line. line ≡ cond (may_become defs entry fresh || is_some (with_entry defs entry)) n last) }
{
    if may_become(alloc, &defs, &entry, fresh)? {
        return Ok(n);
    }
    match with_entry(defs, entry)? {
        Some(_) => Ok(n),
        None => Ok(last),
    }
}

// Whether the entry may become one of these definitions by lines that are still to come.
fn may_become(alloc: Global, defs: &Defs, entry: &IndexDef, fresh: bool) -> Result<bool, AllocError>
    ensures { IfOk result (λ r. r ≡ may_become defs.now entry.now fresh) }
{
    if begins_any(entry, defs.as_slice()) {
        return Ok(true);
    }
    if !fresh {
        return Ok(false);
    }
    let turned = turned(entry.copy(alloc)?, true);
    Ok(begins_any(&turned, defs.as_slice()))
}

fn begins_any(entry: &IndexDef, defs: &[IndexDef]) -> bool
    ensures { result ≡ list_any (begins entry.now) defs.now }
{
    defs.iter().any(|def| begins(entry, def))
}

// Whether an entry that begins so may go on to be this definition.
fn begins(entry: &IndexDef, def: &IndexDef) -> bool
    ensures { result ≡ begins entry.now def.now }
{
    entry.kind == def.kind
        && entry.ancestor == def.ancestor
        && def.columns.as_slice().starts_with(entry.columns.as_slice())
}
