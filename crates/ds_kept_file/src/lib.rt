//! The file of a kept journal: its format, read and written as bytes, without a disk.
//!
//! It stands on `ds_journal_text` (the line of a commit), on `ds_journal` (the book that tells which commit may follow), and on
//! `serde_json`. Of the definitions begin with `specs/Files`: what a batch is, which batches may follow, and what a file stands for. Of the
//! code begin with `reading`, which walks over a file; `body` reads the body of one batch, `counter` the line of its id counter, and
//! `writing` writes a batch.
//!
//!     let read = read_file(alloc, file)?;
//!     if read.damaged {
//!         complain(read.gate);
//!     }
//!     print(&read.journal);
#![tactic(auto)]

pub mod body;
pub mod counter;
pub mod parts;
pub mod reading;
pub mod writing;

pub use reading::{FileRead, read_file};
pub use writing::write_batch;
