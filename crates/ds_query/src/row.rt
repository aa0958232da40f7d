//! Rows: what a query sorts and pages by.
use ds_base::{ByteString, IndexValues, Key, Sequence, TryCopy};
use std::alloc::{AllocError, Global};

/// A row as its encoded bytes, the columns in their directions: where a page ends and the next one begins.
#[derive(Drop)]
pub struct Place {
    /// The encoded values of the row's columns, and then the key's.
    pub bytes: ByteString,
}

/// An entity's key with one indexed value per column other than `__key__`.
#[derive(Drop)]
pub struct Row {
    /// The value of the column `__key__`.
    pub key: Key,
    /// The values of the other columns, in their order.
    pub values: IndexValues,
    /// The row's bytes, its columns in their directions; of several branches, the merged columns.
    pub place: Place,
}

/// Rows in their order.
pub type RowList = Sequence<Row>;

/// Lists of rows, one per branch.
pub type RowLists = Sequence<RowList>;

impl TryCopy for Place {
    fn copy(&self, alloc: Global) -> Result<Place, AllocError> {
        Ok(Place {
            bytes: self.bytes.copy(alloc)?,
        })
    }
}

impl TryCopy for Row {
    fn copy(&self, alloc: Global) -> Result<Row, AllocError> {
        Ok(Row {
            key: self.key.copy(alloc)?,
            values: self.values.copy(alloc)?,
            place: self.place.copy(alloc)?,
        })
    }
}
