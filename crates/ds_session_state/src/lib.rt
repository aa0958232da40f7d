//! What a client's session is made of: what a line is answered from, and what it leaves.
//!
//! `state` holds a client's parts, `refusing` tells refusals that nothing of the store decides, and `standing` says where a strong read
//! stands. The crates that answer a line work on a `State`: `ds_session_reads` what reads, `ds_session_writes` what writes, and
//! `ds_session` makes a `Session` of one.
//!
//! `specs/` has what a session is to contracts (`Sessions`), what an answered line leaves (`Answering`, `Replying`, `Refusing`), and where
//! a strong read is asked for (`Standing`). `proofs/`: `GrowthLaws`, what a pass has seen begins what it sees later; `SeeingLaws`, a client
//! stays within its pass; `SayingLaws`, `ReplyLaws`, `StateLaws`, `LaterReplies`, what is said after calls of the store; `ReadLaws` and
//! `StandingLaws`, reads of a group.
#![tactic(auto)]

mod refusing;
mod standing;
mod state;

pub use standing::{touch_place, touched};
pub use state::{ReplyTo, State};
