//! The book of commits: the journal, the heads of the groups' logs and the id counter, which a lock keeps together.
//!
//! A commit is prepared as a `Draft`, which takes what memory it can before the lock is held, and appended by
//! `Book::commit` where it conflicts with nothing. The book keeps that its journal is one serial history: what conflicts are
//! is said in `ds_log`'s `Conflicts`, what a book keeps in `specs/Books`. Begin with `book`; `ids` tells which ids a counter
//! has left, and which may be written.
#![tactic(auto)]

pub mod book;
pub mod draft;
pub mod ids;
pub mod refusals;

pub use book::Book;
pub use draft::Draft;
pub use ds_log::Conflict;
pub use refusals::{CommitCause, CommitRefused, IdNotIssued, IdsExhausted};
