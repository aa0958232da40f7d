//! Composite index definitions, and the index file in which they stand: the kind, the ancestor flag and the columns of an index,
//! lists of distinct ones, and reading and writing them as `index.yaml`.
//!
//! It stands on `ds_base`, whose `Column` is a column of an index too. Begin with `defs`, then `read` and `write`; a line of the file
//! goes through `lines` (cutting), `form` (what it says), `part` and `entry` (where it stands) and `reading` (the definitions so
//! far). The definitions that the contracts cite are in `specs/`: `Definitions` (when two definitions are the same, and what a list
//! of them keeps), `Lines`, `Forms` and `Reading` (what an index file gives, line by line), `Grammar` (which lines are a file, and
//! which line another is refused at), `Text` (what is written, and of which definitions), `Names` (the names of an entry's columns)
//! and `Refusals`. `proofs/` shows that what is read is what the grammar says.
#![tactic(auto)]

ghost use Rattle.std.specs.Prelude.{◌≡◌, ◌↔◌, IsTrue};
ghost use Rattle.std.specs.Cmp.{partial_equiv_from_equiv};
ghost use Rattle.ds_indexdef.specs.Definitions.{same_def};
ghost use Rattle.ds_indexdef.specs.DefinitionLaws.{same_def-equiv};

pub mod defs;
mod entry;
mod form;
mod lines;
mod part;
pub mod read;
mod reading;
mod refused;
pub mod write;

pub use defs::Defs;
use ds_base::{Columns, TextString, TryCopy};
pub use read::read_yaml;
pub use refused::YamlRefused;
use std::alloc::{AllocError, Global};
pub use write::{can_write, write_yaml};

/// A composite index: over the entities of a kind, with a row for each combination of its properties' values, and for
/// each path element where `ancestor` is set, in the order of its columns and then by key.
///
/// Two definitions are equal exactly where kind, flag and columns are.
#[derive(Drop)]
pub struct IndexDef {
    /// The kind whose entities it holds, in every namespace; 1 to 1,500 bytes.
    pub kind: TextString,
    /// Whether it has a row for each element of an entity's path, so that it finds the descendants of a key.
    pub ancestor: bool,
    /// The properties that it holds and their directions, the first to sort by first.
    pub columns: Columns,
}

impl TryCopy for IndexDef {
    fn copy(&self, alloc: Global) -> Result<IndexDef, AllocError> {
        Ok(IndexDef {
            kind: self.kind.copy(alloc)?,
            ancestor: self.ancestor,
            columns: self.columns.copy(alloc)?,
        })
    }
}

impl PartialEq for IndexDef {
    ghost eq = { same_def };

    ghost laws = { partial_equiv_from_equiv same_def-equiv };

    fn eq(&self, other: &IndexDef) -> bool
        ensures value { result ≡ same_def self.now other.now }
        ensures same { IsTrue result ↔ (self.now ≡ other.now) }
    {
        compare_defs(self, other)
    }
}

impl Eq for IndexDef {
    ghost laws = { same_def-equiv };
}

fn compare_defs(a: &IndexDef, b: &IndexDef) -> bool
    ensures { result ≡ same_def a.now b.now }
{
    a.kind == b.kind && a.ancestor == b.ancestor && a.columns.as_slice() == b.columns.as_slice()
}
