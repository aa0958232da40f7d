//! A server whose journal outlives a crash: at every moment each image that a crash could leave of its disk stands for a journal with all
//! that was acknowledged.
//!
//! Begin with `top`: `serve_kept` reads the words (`words`) and the index file, opens the disk by `ds_keep`, and looks whether what it
//! keeps fits the index file. `running` has a store loaded with the kept journal (by `ds_restoring`), serves the input's rounds (by
//! `ds_kept_rounds`, which keeps each by `ds_keeping` before it sends its replies), and closes the store. `outcome` has what a run gives.
//!
//! In `specs/`, `KeptRuns` and `KeptReplies` have the words of the theorem, over `KeptSettings` and `KeptWords`, over `Moments` of
//! `ds_keeping`, and over `LegalFrom` and `Fitting` of `ds_restoring`; `Behind` has those of its proof.
#![tactic(auto)]

pub mod outcome;
mod running;
pub mod top;
pub mod words;

pub use ds_keeping::send;
pub use ds_kept_rounds::KeptStatus;
pub use ds_output::Unsent;
pub use ds_words::Status;
pub use outcome::KeptRun;
pub use top::serve_kept;
pub use words::{KeptWords, kept_words};
