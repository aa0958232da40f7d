//! A load: numbered items that four clients put, and behind them a settle and a query; and what the answer to that query tells.
//!
//! It stands on `ds_model` (what a legal run is), on `ds_journal_text` and `ds_reply_lines` (that JSON is read back as it was written) and
//! on the crates below them; it runs nothing itself. Begin with `writing`, which makes the load's text, and `reading`, which reads the
//! text of a run's replies. In `specs/`, `Input` has the text, `Matches` what is told of it as a definition of the number of items alone,
//! and `Telling` what a reply tells. That the two meet, of whatever legal run, is shown in `proofs/Conclusions`.
#![tactic(auto)]

pub mod reading;
pub mod writing;

pub use reading::{Summary, read_summary};
pub use writing::{append_number, write_load};
