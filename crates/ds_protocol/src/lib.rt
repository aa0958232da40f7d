//! What a line asks, what a request means, and how its reply is written: the protocol's two sides, for any server. It knows no store.
//!
//! It stands on `ds_request` and `ds_gql` (how lines and statements are read), on `ds_query`, `ds_cursor` and `ds_planner` (normal forms,
//! cursors, plans), on `ds_txn` and `ds_journal` (transactions, and commits before a journal takes them), and on `ds_reply` (replies as
//! text); its contracts are the definitions of `ds_model`. Follow a line: `ask` gives its request, `operation_of` takes it apart,
//! `refusal_of` is the first refusal of what is no search, and `prepare` the normal form, the window and the plans of a search or its first
//! refusal. `OpenTransaction` is a client's transaction and `Watermark` what it has seen, with the rules by which replies raise it; a
//! `Session` is both. A server then asks its store; `draft_of_write` and `draft_of_transaction` are the commits that are asked for, `finish` makes the body of a
//! search's rows, and `say_if_room` writes a reply, or `say_no_memory` into room that was taken before.
#![tactic(auto)]

mod asking;
mod drafting;
mod finishing;
mod ids;
mod operations;
mod preparing;
mod refusing;
mod saying;
mod searching;
mod seen;
mod session;
mod transaction;
mod watermark;

pub use asking::{Refused, ask};
pub use drafting::{draft_of_transaction, draft_of_write};
pub use finishing::finish;
pub use ids::{first_unissued, next_above};
pub use operations::{Operation, OperationRefused, operation_of};
pub use preparing::{Ready, prepare};
pub use refusing::refusal_of;
pub use saying::{say_if_room, say_no_memory};
pub use searching::{Search, group_of};
pub use seen::{CountSeen, CountsSeen, GroupRead};
pub use session::Session;
pub use transaction::OpenTransaction;
pub use watermark::Watermark;
