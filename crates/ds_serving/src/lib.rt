//! What every server of this workspace does, whatever else it does with its rounds: it is set up by words and an index file, begins with a
//! store and its sessions, runs one round after another, and has appliers beside them.
//!
//! Begin with `serving`: a `Serving` is what stays the same over the rounds of a run. `working` has the same with workers: `run_next` reads
//! the next round and runs it. What becomes of the replies is the caller's: `ds_serve` writes them at once. `settings` reads the words and
//! the index file, `begun` makes what a run begins with, and `appliers` apply entries beside it, each in a thread of its own.
//!
//! In `specs/`, `Settings` has what is set up, `Runs` which rounds were run and what was written by how a run ended, and `Rounds` what is
//! said of rounds so far; `proofs/RoundLaws` leads from one round to the next and to the end, whatever is said of the rounds that were run.
#![tactic(auto)]

mod appliers;
pub mod begun;
pub mod serving;
pub mod settings;
pub mod working;

pub use begun::{Begun, begin};
pub use ds_words::Status;
pub use serving::{NextRound, Serving};
pub use settings::{Setting, Start, read_indexes, set_up};
pub use working::ServingWithWorkers;
