//! Ranges of an index's rows as ordered sources of strings that can be joined: the scans of a plan. The Datastore's
//! documentation calls such a join "zigzag"; how a range is cut out of a table of rows is our own profile.
//!
//! The rows of an index that meet a filter begin alike, and what stands behind that beginning is the string by which the
//! results are ordered. So a `RangeScan` gives, of the rows that begin with a prefix, what follows the prefix, and two of
//! them are joined by `ds_zigzag` wherever the same string follows both prefixes. It seeks in `Rows`, a table of rows at one
//! stamp: `TableRows` is that of a table of `ds_table`, and whoever keeps rows otherwise writes an own one. The crate stands
//! on `ds_table` for the rows seen and unseen, on `ds_zigzag` for `Scan`, on `ds_io` for counted steps and on `ds_base` for
//! byte strings. Begin with `Rows`, in `rows`, and `RangeScan`, in `range`. The definitions that the contracts cite are in
//! `specs/Ranges`, and what follows from them, for whoever joins ranges, in `specs/RangeLaws`.
//!
//! `scans_of` makes the scans of a plan (`ds_planner`) for a branch of a query (`ds_query`) over any tables of `ds_rows` at a stamp,
//! which are `StampedTables`: `prefixes` says what the rows of a planned scan begin with, `bounds` from where to where the rows of
//! the branch stand, and `ranging` puts both together. Their definitions are in `specs/Ranging`, `specs/Prefixes` and `specs/Bounds`.
#![tactic(auto)]

mod bounds;
mod end;
mod prefixes;
mod range;
mod ranging;
mod rows;
mod stamped;
mod table_rows;

pub use end::end_of_prefix;
pub use range::RangeScan;
pub use ranging::scans_of;
pub use rows::Rows;
pub use stamped::StampedTables;
pub use table_rows::TableRows;
