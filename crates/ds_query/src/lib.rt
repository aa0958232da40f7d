//! Queries as they are written, and the branches and windows that they are answered by.
//!
//! It stands on `ds_base`. Begin with `query` (what a request asks), then `normal` (which takes a query apart), `branch`
//! (what an engine answers) and `row` (what a query sorts and pages by). The definitions are in `specs/`: `Filters` and
//! `Reasons` (what is refused), `ColumnLists` (what rows are sorted by), `Branching` (how `!=` and `in` are taken apart),
//! `Normals` (the normal form), `Lawful` (what each branch and normal form keeps) and `RowValues` (a row's values by name).
#![tactic(auto)]

pub mod branch;
mod columns;
pub mod conditions;
pub mod field;
mod filters;
mod names;
pub mod normal;
mod pair_order;
pub mod query;
mod reasons;
pub mod refusal;
pub mod row;
mod row_values;
mod splitting;

pub use branch::{Bound, Branch, Branches, Normal, Pair, Pairs, Range, Window};
pub use field::Field;
pub use normal::normalize;
pub use query::{Filter, Filters, Op, Query, Select};
pub use refusal::{Constraint, QueryRefused, Reason};
pub use row::{Place, Row, RowList, RowLists};
pub use row_values::{asked_value, value_named};
