//! The cut of a run whose index definitions change while clients run: the clients go from a first store to a second one, which was fed with
//! the commits of the first (`ds_feeding`), and later rounds are served by it.
//!
//! Begin with `cutting`: `cut_over` brings clients over, once the rounds before the cut were served; `end_uncut` ends a run that has
//! stopped before that. `later` serves the rounds behind the cut, `plan` holds what a run is asked for, and `outcome` what it gives.
//! `ds_serve_cut` stands on them, with the words and the rounds before the cut.
//!
//! In `specs/`, `LegalCut` says what a legal run is over which the definitions change, and `CutRuns` what a run of such a server is.
#![tactic(auto)]

pub mod cutting;
mod later;
pub mod outcome;
pub mod plan;

pub use cutting::{AtCut, cut_over, end_uncut};
pub use outcome::{CutRun, CutStatus, nothing_run};
pub use plan::{Host, Plan};
