//! Rows with their places: of each result the first row, and the page that a window gives of them.
//!
//! It stands on `ds_query` (rows, branches and windows) and `ds_bytes` (the encoding of values and keys). Begin with `paging`, whose calls
//! give the page of rows in any order; `first_rows` keeps of rows that come one by one the first of each result, `marks` tells what
//! makes two rows one result, `joining` joins lists, `pages` skips and takes, `places` writes a row's place, and `extending` puts a
//! branch's row into the merged columns. The definitions stand in `specs/`: `Columns` (a row's values by name), `Places` (the order of
//! rows, as bytes), `Pages` (first occurrence and windows), `Extended` (merged columns), and `Marks`, `Slots` and `FirstRows` for the code.
#![tactic(auto)]

pub mod extending;
mod first_rows;
mod firsts;
pub mod joining;
mod mark_order;
mod marks;
mod pages;
pub mod paging;
pub mod places;
pub mod row_page;

pub use extending::extended_values;
pub use first_rows::FirstRows;
pub use joining::joined;
pub use paging::{page_of_results, page_of_rows};
pub use places::{Directions, directions_of, place_of, placed};
pub use row_page::RowPage;
