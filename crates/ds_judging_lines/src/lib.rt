//! One line of a run with its reply, what its client has seen, and whether a reply that tells what was applied is an answer.
//!
//! It stands on the definitions (`ds_model`), on `ds_protocol` for a client's session, on `ds_history` for the journal that replies are
//! held against, and on `ds_reply_lines` for the lines of replies. Of the definitions begin with `specs/Deciding` (when a reply is the
//! answer, and no other one has its line). Of the code begin with `turn`, a line with its reply, and `sessions`, those of all clients;
//! `counts` judges settle and apply, and `lawful` has what the types of a search and of a journal keep. Reads are judged in
//! `ds_judging_reads`, writes in `ds_judging_writes`.
#![tactic(auto)]

pub mod counts;
pub mod lawful;
pub mod sessions;
pub mod turn;

pub use counts::{copy_counts, judge_apply, judge_settle, see_count, see_counts};
pub use lawful::{asks_are_lawful, journal_is_held, select_is_lawful};
pub use sessions::{first_sessions, meet, seen_count, seen_next, seen_place};
pub use turn::{Run, Turn, tells_error};
