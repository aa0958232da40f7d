//! The rounds of an input over a kept journal: each is read and run, what it committed and drew is kept, and only then its replies are
//! written.
//!
//! It stands on `ds_serving`, which reads and runs a round, and on `ds_keeping`, which keeps it and sends its replies. Begin with
//! `beside`, whose call serves an input while appliers run; `serving` has one round after another, `stopped` how they stop, and `status`
//! how a run ends. In `specs/`, `Ending` says what the rounds leave, `Going` what holds between them, and `KeptEnds` what a run's end
//! tells. What a run begins with, and its close, stand in `ds_durable`.
#![tactic(auto)]

pub mod beside;
pub mod serving;
pub mod status;
pub mod stopped;

pub use beside::serve_beside;
pub use serving::Running;
pub use status::KeptStatus;
pub use stopped::Stopped;
