//! What the lines of an input ask, by round and by client.
//!
//! It stands on `ds_rounds` (rounds of lines) and on `ds_protocol` (what a line asks). `lines` has what the lines of one round ask,
//! `input` what those of a whole input do. The definitions that the contracts cite are in `specs/AskedLines`.
#![tactic(auto)]

pub mod input;
pub mod lines;

pub use input::asked_of_input;
pub use lines::{Asked, asked_by_client, asked_line};
