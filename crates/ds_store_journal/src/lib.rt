//! What commits: the journal's desk of a running store, which stands under one lock.
//!
//! A `JournalDesk` has the book of all commits (`ds_journal`), the writer of the hub that tells them, and a keeper's seats on the two words
//! from which passes draw. A call under the lock shows a pass all commits, draws ids for it, or appends a commit of its own: the draft is
//! checked for conflicts, room is taken, the commit is told to the journal's readers and put into the book, and the pass draws its number.
//!
//! Begin with `desk`; `handing_out` gives commits to a caller that keeps them elsewhere, and `ending` is what is known of all passes once
//! the journal's writer has confirmed them. What each call answers is defined in `ds_store_passes`.
#![tactic(auto)]

mod desk;
mod ending;
mod handing_out;

pub use desk::{JournalDesk, Words};
pub use ending::confirm_journal;
