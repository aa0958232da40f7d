//! The parts of an index file, and how its lines follow one another.
ghost use Rattle.std.specs.Prelude.{◌≡◌, [], false, IfOk};
ghost use Rattle.ds_indexdef.specs.Reading.{next};

use crate::entry::Entry;
use crate::form::Form;
use ds_base::TextString;
use std::alloc::{AllocError, Global};

/// The part of an index file that a line belongs to.
#[derive(Drop)]
pub(crate) enum Part {
    /// No line yet.
    Start,
    /// `indexes:`, and no entry yet.
    Listed,
    /// The first line of an entry, of this kind.
    Headed(TextString),
    /// An entry's line on the ancestor, behind its kind.
    Flagged(TextString, bool),
    /// An entry with the columns so far; whether the direction of the last may follow.
    Filled(Entry, bool),
}

/// Where a line leads from a part of the file.
#[derive(Drop)]
pub(crate) enum Moved {
    /// To this part, which the line belongs to.
    On(Part),
    /// Nowhere: the line is wrong behind this part.
    Stuck(Part),
}

/// Where a line leads that is neither empty nor the first of an entry. A refusal means out of memory.
pub(crate) fn next(alloc: Global, part: Part, form: Form) -> Result<Moved, AllocError>
    ensures { IfOk result (λ r. r ≡ next part form) }
{
    match part {
        Part::Start => Ok(match form {
            Form::Indexes => Moved::On(Part::Listed),
            _ => Moved::Stuck(Part::Start),
        }),
        Part::Listed => Ok(Moved::Stuck(Part::Listed)),
        Part::Headed(kind) => Ok(after_kind(alloc, kind, form)),
        Part::Flagged(kind, ancestor) => Ok(match form {
            Form::Properties => Moved::On(empty_entry(alloc, kind, ancestor)),
            _ => Moved::Stuck(Part::Flagged(kind, ancestor)),
        }),
        Part::Filled(entry, fresh) => after_column(alloc, entry, fresh, form),
    }
}

fn after_kind(alloc: Global, kind: TextString, form: Form) -> Moved
    ensures { result ≡ next (Part.Headed kind) form }
{
    match form {
        Form::Ancestor(ancestor) => Moved::On(Part::Flagged(kind, ancestor)),
        Form::Properties => Moved::On(empty_entry(alloc, kind, false)),
        _ => Moved::Stuck(Part::Headed(kind)),
    }
}

// An entry whose properties follow.
fn empty_entry(alloc: Global, kind: TextString, ancestor: bool) -> Part
    ensures { result ≡ Part.Filled (record { kind = kind; ancestor = ancestor; columns = [] }) false }
{
    Part::Filled(Entry::new(alloc, kind, ancestor), false)
}

fn after_column(alloc: Global, entry: Entry, fresh: bool, form: Form) -> Result<Moved, AllocError>
    ensures { IfOk result (λ r. r ≡ next (Part.Filled entry fresh) form) }
{
    match form {
        Form::Name(name) => {
            if entry.takes(&name) {
                let entry = entry.with_column(alloc, name)?;
                Ok(Moved::On(Part::Filled(entry, true)))
            } else {
                Ok(Moved::Stuck(Part::Filled(entry, fresh)))
            }
        }
        Form::Direction(descending) => {
            if fresh {
                Ok(Moved::On(Part::Filled(entry.turned(descending), false)))
            } else {
                Ok(Moved::Stuck(Part::Filled(entry, fresh)))
            }
        }
        _ => Ok(Moved::Stuck(Part::Filled(entry, fresh))),
    }
}
