//! Whether a reply that tells what was read is an answer.
//!
//! It stands on `ds_judging_lines`, which has a line with its reply and what each client has seen; on the definitions (`ds_model`), on the
//! protocol's two sides without any store (`ds_protocol`), on `ds_plain` for what a query finds, and on `ds_history` for the journal that
//! replies are held against. Begin with `reads` (gets, queries and statements); `pages` has the page of a search by as few entities as fill
//! it. In `specs/`, `Reading` has what is told of reads, and `Filling` which pages are filled so.
#![tactic(auto)]

mod pages;
pub mod reads;

pub use reads::{judge_get, judge_search};
