//! What a query finds over a list of entities, by filtering and sorting: the reference that every other engine is held against.
//!
//! It stands on `ds_model`, whose `result` it computes, on `ds_pages` for places, merged columns and pages of rows, and on `ds_rows` for
//! what indexes hold of an entity. Begin with `answering`, whose calls give the page of a query; `found` has the rows of one branch,
//! `matching` tells which entities count and which values are in range, and `ways` takes one value for each column.
#![tactic(auto)]

pub mod answering;
mod found;
mod matching;
mod ways;

pub use answering::{Plain, answer, answer_of, branch_lists, rows_between};
