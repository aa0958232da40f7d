//! Group logs on several replicas: Paxos as a pure machine, one instance a log and position.
//!
//! Megastore keeps each entity group's log on several replicas, and decides by Paxos which entry stands at a position. Here is that
//! protocol (Lamport, "Paxos Made Simple") as a world that three events change: a member proposes an entry, any message that was ever
//! sent is delivered, again and in any order, or a member restarts. A message that is lost is one that is never delivered. It stands on
//! `ds_base`. Begin with `world`; the definitions that its contract cites are in `specs/`: `Rules` (what an event does at a member),
//! `Members` (what a member keeps), `Worlds` (the step of a world) and `Runs` (lists of events, and what is proved of each).
#![tactic(auto)]

mod change;
mod cluster;
mod entry;
mod event;
mod instance;
mod member;
mod message;
mod rules;
mod safety;
mod world;

pub use change::Change;
pub use entry::Entry;
pub use event::{Event, StepRefused};
pub use instance::{Attempt, Instance};
pub use message::{Content, Message, Place, Promised, Proposal};
pub use safety::{agreement, next_ballots};
pub use world::{Held, World};
