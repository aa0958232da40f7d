//! Cursors: places in the results of a query, as texts that no other query takes.
//!
//! It stands on `ds_query` (branches and places) and `ds_bytes` (their encodings). Begin with `writer` and `reader`; `rows`
//! tells whether bytes are a row of columns. The definitions stand in `specs/`: `QueryBytes` (what tells queries apart),
//! `RowsOfColumns` (which bytes are a row) and `Cursors` (what a cursor is as text, and what a text is to a branch).
#![tactic(auto)]

pub mod cursor;
mod query_bytes;
pub mod reader;
mod rows;
pub mod writer;

pub use cursor::CursorRefused;
pub use reader::read;
pub use writer::write;
