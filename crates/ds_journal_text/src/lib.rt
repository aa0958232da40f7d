//! A journal as text, for whoever keeps one or doubts one.
//!
//! It stands on `ds_log` (commits), on `ds_reply` and `ds_request` (how keys and entities are shown and read), and on `serde_json`. Of the
//! definitions begin with `specs/Texts` (the text of a journal, and which line is the first wrong one); `specs/Reading` says how a commit
//! is read from JSON, and `specs/Lawful` which commits there are. Of the code begin with `writing` and `reading`; `forms` has a rule for
//! each part of a commit. A commit that was read is written again and compared, so a line that is read is just the commit's text. `lawful`
//! walks over a commit for the proofs' sake, and `laws` says that keys and entities that are shown are read back.
//!
//! A caller keeps a journal as text, and gets it back or the first wrong line:
//!
//!     let text = write_journal(alloc, &journal)?;
//!     match read_journal(alloc, text.bytes()) {
//!         Ok(again) => compare(&again, &journal),
//!         Err(JournalRefused::Line(number)) => complain(number),
//!         Err(JournalRefused::NoMemory) => give_up(),
//!     }
#![tactic(auto)]

mod forms;
pub mod lawful;
pub mod laws;
pub mod reading;
pub mod writing;

pub use lawful::{commit_is_lawful, entity_is_lawful, key_is_lawful, writes_are_lawful};
pub use reading::{JournalRefused, parse, read_commit, read_journal};
pub use writing::{write_commit, write_journal};
