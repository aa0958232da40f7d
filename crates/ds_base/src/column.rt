//! The columns of an index or of a query.
ghost use Rattle.std.specs.Prelude.{◌≡◌, ◌↔◌, IsTrue};
ghost use Rattle.std.specs.Cmp.{partial_equiv_from_equiv};
ghost use Rattle.ds_base.specs.Columns.{same_column};
ghost use Rattle.ds_base.specs.ColumnLaws.{same_column-equiv};

use crate::sequence::{Sequence, TryCopy};
use crate::text::TextString;
use std::alloc::{AllocError, Global};

/// A column of an index or of a query: a property or `__key__`, and its direction.
#[derive(Drop)]
pub struct Column {
    /// The property's name, or `__key__` for the column of keys.
    pub name: TextString,
    /// Whether its values go from the greatest to the least.
    pub descending: bool,
}

/// Columns, the first to sort by first.
pub type Columns = Sequence<Column>;

impl TryCopy for Column {
    fn copy(&self, alloc: Global) -> Result<Column, AllocError> {
        Ok(Column {
            name: self.name.copy(alloc)?,
            descending: self.descending,
        })
    }
}

impl PartialEq for Column {
    ghost eq = { same_column };

    ghost laws = { partial_equiv_from_equiv same_column-equiv };

    fn eq(&self, other: &Column) -> bool
        ensures value { result ≡ same_column self.now other.now }
        ensures same { IsTrue result ↔ (self.now ≡ other.now) }
    {
        compare_columns(self, other)
    }
}

impl Eq for Column {
    ghost laws = { same_column-equiv };
}

fn compare_columns(a: &Column, b: &Column) -> bool
    ensures { result ≡ same_column a.now b.now }
{
    a.name == b.name && a.descending == b.descending
}
