//! One client of a server: its session, what that one has yet to take of what other clients were shown, and what its lines of a round ask.
//!
//! Begin with `client`. A `Client` is handed its lines (`take_on`), makes room for replies, meets what others have seen, which is noted in
//! `missed` until its session takes it, and answers its lines in their order (`run`). How one line is answered stands in `ds_session`;
//! rounds of all clients stand in `ds_clients`.
//!
//! `specs/Clients` has what contracts see of a client and what its answered lines leave. `proofs/`: `OwnLaws` its lines one after another,
//! `MissedLaws` that what a session takes later it has taken in contracts' eyes at once.
#![tactic(auto)]

mod client;
mod missed;

pub use client::Client;
pub use ds_session::Session;
pub use missed::Missed;
