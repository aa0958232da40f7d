//! Plans: which indexes a branch is answered from, or what no index serves.
//!
//! It stands on `ds_query` (branches) and `ds_indexdef` (composite definitions). Begin with `planned` (what a plan is), then
//! `planning` (which makes one) and `suiting` (which tests one). The definitions stand in `specs/`: `Indexes` (what an index is to a
//! branch), `Parts` (what a branch asks for, part by part), `Suits` and `Lean` (what a plan has to be), `Missing` (what no
//! index serves, and which definition would) and `Choices` (which of all suiting plans is made).
#![tactic(auto)]

mod candidates;
mod choices;
mod indexes;
mod key_columns;
pub mod laws;
mod missing;
mod pairs;
pub mod planned;
pub mod planning;
pub mod suiting;

pub use planned::{PlannedIndex, PlannedScan, PlannedScans, ScanPlan};
pub use planning::{PlanRefused, plan};
pub use suiting::suits;
