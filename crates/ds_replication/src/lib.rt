//! A script of events for replicated group logs: read, run by Paxos, and told by what each replica holds.
//!
//! It stands on `ds_base`, `ds_io` and `ds_paxos`. Begin with `replicating`, where the top call stands; `script` runs the lines of a
//! script, `line` reads one, `reading` takes the input and `printing` writes the output. The definitions that the contracts cite are in
//! `specs/`: `Lines` (the form of a line), `Scripts` (how a script runs), `Printing` (what is printed) and `Replicating` (how a run ends,
//! and why).
#![tactic(auto)]

mod agreeing;
mod line;
mod printing;
mod reading;
mod replicating;
mod script;
mod status;

pub use agreeing::scripts_agree;
pub use replicating::replicate;
pub use status::ReplicaStatus;
