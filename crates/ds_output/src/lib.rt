//! From what is to be told to the output: replies put into a client's text, with the room for them taken before, and texts written to
//! a sink.
//!
//! `telling` puts a reply into a text, or that there was no memory, for which there is room; `bounds` makes room for a reply before what it
//! tells is done, and `specs/Room` says which replies fit; `written` and `searched` have what replies to writes and searches say; `writing`
//! writes a text to a sink, and `unsent` hands out what a sink didn't take of all clients' texts. It knows no store: it stands on
//! `ds_protocol` (how a reply is written) and `ds_io` (sinks).
#![tactic(auto)]

mod bounds;
mod searched;
mod telling;
mod unsent;
mod written;

pub use bounds::{make_room_for_numbers, make_room_for_write, prepare_key};
pub use searched::{counts_in, found_body, place_in};
pub use telling::{tell, tell_last, tell_no_memory};
pub use unsent::{Texts, Unsent, no_texts};
pub use written::{body_of, body_with};
