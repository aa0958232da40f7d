//! A run over single events: one store in one thread, sixteen clients, and the atomic steps of a store that many clients use at once.
//!
//! What an open request waits for, and its reply as soon as nothing is missing, is told by `ds_machine`. Begin with `running`, which has
//! `run`: its clause `legal` says that what was asked and said is one legal round of the definitions, `happened` how it came about, and
//! `serial` that its commits are one serial history. `machine` opens requests, takes steps and replies, and `finishing` takes the steps
//! that are missing at the end.
//!
//! Of the definitions begin with `specs/Courses`, which says what has happened in a run, step by step: `Happenings` has what one step is
//! and what there was before and after it, `Takings` which steps take effect and when a request is replied to, `Timelines` what each step
//! may change and at which steps the numbers of a reply were read, and `Witnesses` how that is kept.
//!
//! Single events are run at once, `Event { step: Step::Touch, client, begins: Some(request) }` and so on:
//!
//!     let transcript = run(alloc, events, shards, defs)?;
#![tactic(auto)]

mod clients;
pub mod event;
mod finishing;
mod holding;
mod machine;
mod opened;
mod running;

pub use ds_effects::Step;
pub use event::{Event, Events, Replies, Requests, Transcript};
pub use running::run;
