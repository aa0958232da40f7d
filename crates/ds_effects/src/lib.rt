//! What a reply changes of its client's session and of the store, and what an open request gathers by the steps of its client.
//!
//! Begin with `gathered`: the five steps, and what of a request is known by them. `effect` has what a reply says and what it changes; what a
//! client has seen stands in `ds_protocol`. Which step is missing and what a reply is stands in `ds_machine`.
#![tactic(auto)]

pub mod effect;
pub mod gathered;

pub use effect::{Due, Effect, Plan};
pub use gathered::{Gathered, Step};
