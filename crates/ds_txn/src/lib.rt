//! A transaction before its commit: the groups that it touched, each with its touch place, and its writes.
//!
//! It stands on `ds_log`, whose definitions `Touches` and `Conflicts` say what a touch and a conflict are. Begin with
//! `transaction`: `Txn` and its calls. `refusals` has the answers of those that refuse; `specs/Transactions` says when.
#![tactic(auto)]

pub mod refusals;
pub mod transaction;

pub use ds_log::Conflict;
pub use refusals::{TxnRefused, WriteCause, WriteRefused};
pub use transaction::{Parts, Txn};
