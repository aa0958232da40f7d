//! The server: from the bytes of its input to the bytes of its output, with the main theorem.
//!
//! Begin with `top`: `serve` reads the words and the index file (by `ds_serving`), opens a store, and picks its names; `running` makes the
//! store, serves its rounds with appliers beside them, and closes it at the end; `serving` has each round read and run (by `ds_serving`)
//! and writes its replies (by `ds_clients`) before the next one is read: all that are left, or so many, so that others can serve an input
//! over two stores, one after the other. `outcome` holds what a run gives, `stopped` how it stops. In
//! `specs/`, `Runs` has the words of the main theorem; `RunSteps` has those of its proof.
#![tactic(auto)]

pub mod outcome;
pub mod running;
pub mod serving;
pub mod stopped;
pub mod top;

pub use ds_clients::Unsent;
pub use ds_words::Status;
pub use outcome::Run;
pub use running::serve_beside;
pub use serving::{serve_rounds, serve_some};
pub use stopped::{RoundOutcome, Stopped};
pub use top::serve;
