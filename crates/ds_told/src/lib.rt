//! The numbers that the replies of a run tell together, and whether they are those of a legal run.
//!
//! It stands on `ds_model`, whose `Legal` says which numbers may be told, and on `ds_reply` and `ds_request`. Begin with `Told`, in
//! `told`; `draws` says which replies tell drawn ids, and `ranges` whether numbers or ranges of ids are all from a first one on. The
//! definitions that the contracts cite are in `specs/Told`; `proofs/ToldLaws` leads from them to `Legal`.
#![tactic(auto)]

pub mod draws;
mod ranges;
pub mod told;

pub use draws::Draws;
pub use told::{Tally, Told};
