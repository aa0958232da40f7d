//! A run over a kept journal begins behind it: `fitting` looks whether what is kept fits the run's index file, and `restoring` loads a
//! store with the kept journal and id counter, from which the sessions begin.
//!
//! It stands on `ds_row_limit`, which counts the index rows of a commit's puts, on `ds_store`, which loads a store before it is shared,
//! and on `ds_serving`, with which any run begins. Begin with `specs/Fitting` and `specs/Restored`; `specs/LegalFrom` says what a legal
//! run behind a kept journal is. How the kept journal grows while a run serves stands in `ds_keeping`, and the run in `ds_durable`.
#![tactic(auto)]

pub mod fitting;
pub mod restoring;

pub use fitting::{Unfit, check_rows};
pub use restoring::{Ready, restore};
