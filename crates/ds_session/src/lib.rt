//! A client's session over the running store.
//!
//! A `Session` is a client's: what it has seen, its transaction, and its replies, over a pass of the store. `Session::answer` answers one
//! line by one call of the store.
//!
//! Begin with `session`; `answering` says what answers a request: what reads stands in `ds_session_reads`, what writes in
//! `ds_session_writes`, and a client's parts in `ds_session_state`. How a reply is told and a text written stands in `ds_output`; rounds of
//! all clients stand in `ds_clients`.
//!
//! `specs/` has the room for replies that there was no memory (`Room`), what a session takes of what others have seen (`Meeting`), and that
//! lines which were answered over what a pass has seen are so over all that goes on from it (`GoingOnLaws`); it hands on what a session is
//! to contracts (`Sessions`), what an answered line leaves (`Answering`, `Replying`, `Refusing`), how many steps it takes (`Steps`), which
//! search goes over all shards at once (`Wide`), and where a strong read is asked for (`Standing`). What lines ask stands in `ds_asked`.
//!
//! `proofs/`: `TellingLaws` and `StepLaws`, from one reply to an answered line; `LineLaws`, lines of one client, one after another;
//! `MeetingLaws`, a session that has met others; `MovingLaws`, one that goes on over another store.
#![tactic(auto)]

mod answering;
mod moving;
mod session;

pub use session::Session;
