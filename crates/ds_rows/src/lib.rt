//! The index rows of an entity: how many there are, and what they are as bytes; and the tables that hold them.
//!
//! Every write turns into rows of the tables, and a query reads nothing else. It stands on `ds_base` for entities and on
//! `ds_indexdef` for definitions of composite indexes; the bytes of values and keys are those of `ds_bytes`, and `ds_io`
//! counts the steps of those who seek in tables. Begin with `specs/`: `IndexedValues` says what the indexes hold of an
//! entity, `Counts` how many rows it has, `Indexes` which indexes there are, `Rows` what the rows are, `Laws` what is claimed
//! of their bytes, and `Versions` what tables stand for. `count` counts the rows and `rows` writes them, those of the composite
//! indexes by `composite`; `fronts` writes what the rows of an index begin with; `ways` writes one row for each combination of
//! values. `laws` has the laws as calls, and `tables` is what queries are answered from. What is proved of the definitions stands
//! apart, in the files whose names end in `Laws`.
#![tactic(auto)]

mod composite;
pub mod count;
pub mod fronts;
pub mod indexed;
pub mod laws;
pub mod refused;
mod row_set;
pub mod rows;
pub mod tables;
mod ways;

pub use count::count_rows;
pub use indexed::{indexed_values, kind_of};
pub use laws::{
    rows_are_apart, rows_are_counted, rows_are_its_own, rows_are_ordered, rows_stand_together,
};
pub use refused::RowsRefused;
pub use row_set::RowSet;
pub use rows::rows_of;
pub use tables::Tables;
