//! What answers a line that writes: puts and deletes, transactions, and drawn ids.
//!
//! Begin with `writes`: outside a transaction a write is a commit of its own, and in one it waits behind others (`writes_inside`).
//! `transactions` begins, commits and ends one, and `drawing` draws ids. Each works on the `State` of a session (`ds_session_state`) and
//! tells a reply, by one call of the store.
//!
//! `specs/` has the commit that a transaction asks for (`Committing`) and the group of a touch (`Touched`). `proofs/` has a law for each
//! kind of request, from the store's clause to the reply: `AloneLaws`, `InsideLaws`, `TransactionLaws`, `IdLaws`, with `WriteLaws` and
//! `WrittenLaws` below them.
#![tactic(auto)]

mod drawing;
mod transactions;
mod writes;
mod writes_inside;

pub use drawing::allocate;
pub use transactions::{begin, commit, rollback};
pub use writes::{put_new, write};
