//! The lines of replies: a text apart into lines, whether a line is the reply that says this, and the numbers that a line tells as JSON.
//!
//! It stands on `ds_reply` (what is written for a reply), on `ds_journal_text` (that plain JSON is read back) and on `serde_json`. Begin
//! with `lines` and `saying`; `members` reads what a line tells. The definitions that the contracts cite are in `specs/ReplyLines`, and
//! `proofs/RepliesBack` has the law by which the members that are read from a reply's line are the reply's own.
#![tactic(auto)]

pub mod lines;
pub mod members;
pub mod saying;

pub use lines::whole_lines;
pub use members::Members;
pub use saying::says;
