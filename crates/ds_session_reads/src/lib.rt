//! What answers a line that reads: gets, searches, settles and applies.
//!
//! Begin with `reads`. `searches` answers queries and statements (`wide` says which go over all shards at once), `counting` settles and
//! applies. Each works on the `State` of a session (`ds_session_state`) and tells a reply, by one call of the store.
//!
//! `specs/` has how many steps an answered line takes (`Steps`), and which search goes over all shards at once (`Wide`). `proofs/` has a
//! law for each kind of request, from the store's clause to the reply: `CountLaws`, `SearchLaws` and `FoundLaws`, `RefusedSearches`, and
//! `WideLaws`.
#![tactic(auto)]

mod counting;
mod reads;
mod searches;
mod wide;

pub use counting::{apply, settle};
pub use reads::get;
pub use searches::find;
