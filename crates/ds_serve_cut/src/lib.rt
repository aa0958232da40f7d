//! A server whose index definitions change while clients run: rounds 1 to N are served by a first index file, and later ones by a second.
//!
//! Begin with `top`: `serve_cut` reads the words and both index files, opens two stores, and picks their names. `running` makes both
//! stores, and feeds the second one with the commits of the first (`ds_feeder`) while `before` serves the rounds before the cut;
//! `ds_cutting` brings clients over and serves the later rounds. `words` reads the words, and `setting` both files.
//!
//! In `specs/`, `CutWords` says what the words are, and `CutSettings` what they and the files set up; what a run is stands in `ds_cutting`.
#![tactic(auto)]

mod before;
mod running;
mod setting;
pub mod top;
pub mod words;

pub use ds_cutting::{CutRun, CutStatus};
pub use top::serve_cut;
