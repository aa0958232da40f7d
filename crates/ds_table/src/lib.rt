//! Rows of bytes with lifetimes, as the rows of an index have them: each is seen from the stamp at which it was added, up to the
//! stamp at which it was closed, and a seek finds the least row of a range that is seen at a stamp. The form is our own; what
//! it is for are the index tables of the Datastore, read at an older state while newer entries are applied.
//!
//! The crate stands on `ds_base` for the order of bytes, on `ds_io` for counted steps, and on `ds_lanes` for the search of the
//! columns of stamps and for what rows have in common. Begin with `Table`, in `table`, and `TableView`, in `view`. What each call
//! makes of the versions is said in `specs/Versions`, how they are kept in blocks in `specs/Blocks`, and how the rows of a block
//! are found by a few of their bytes in `specs/Heads`.
#![tactic(auto)]

mod adding;
mod block;
mod change;
mod joining;
mod places;
mod rows;
mod table;
mod view;

pub use table::Table;
pub use view::TableView;
