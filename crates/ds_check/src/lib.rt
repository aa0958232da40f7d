//! Whether the lines that any server wrote are those of a legal run.
//!
//! It stands on the definitions (`ds_model`), on `ds_judging` for whether one reply is an answer to its line, on `ds_history` for the
//! journal that replies are held against, on `ds_asked` for what the lines ask, on `ds_reply_lines` for the lines of replies, on `ds_told`
//! for the numbers that all replies tell together, and on `ds_journal_text` for journals as text, which it hands on. Of the definitions
//! begin with `specs/Verdicts`. Of the code begin with `checking`; `walk` goes from one reply to the next, by the steps of a run in
//! `steps`.
#![tactic(auto)]

pub mod checking;
mod steps;
mod walk;

pub use checking::{Verdict, check};
pub use ds_journal_text::{JournalRefused, read_journal, write_commit, write_journal};
