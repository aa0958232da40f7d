//! What a book answers where it records nothing.
use crate::draft::Draft;
use ds_log::Conflict;

/// Why a commit isn't appended.
#[derive(Drop)]
pub enum CommitCause {
    /// A commit after a touched group's touch place wrote that group.
    Conflict(Conflict),
    /// There was no memory, or the journal has 2^48 commits.
    NoMemory,
}

/// A commit that isn't appended; the book is as it was.
#[derive(Drop)]
pub struct CommitRefused {
    /// The draft, handed back.
    pub draft: Draft,
    /// Why.
    pub cause: CommitCause,
}

/// So many ids can't be drawn: the last of them would be above 2^63 - 2.
#[derive(Drop, Clone, Copy, Debug)]
pub struct IdsExhausted {
    /// The id counter.
    pub next: u64,
}

/// An id of 2^52 or more that was not drawn yet.
#[derive(Drop, Clone, Copy, Debug)]
pub struct IdNotIssued {
    /// The id.
    pub id: u64,
    /// The id counter, which it isn't below.
    pub next: u64,
}
