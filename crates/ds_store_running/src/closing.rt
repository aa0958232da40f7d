//! How a store ends.
ghost use Rattle.std.specs.Prelude.{◌≡◌, length};
ghost use Rattle.ds_store_passes.specs.Ending.{HaveEnded};

use crate::store::Store;
use ds_log::Journal;
use ds_store_hubs::{Names, SeatRoom};
use ds_store_journal::{JournalDesk, confirm_journal};
use ds_store_passes::{Passes, all_seats};
use ds_store_shards::confirm_shards;
use std::mem::forget;
use std::sync::Wait;

/// What a store was when it closed.
#[derive(Drop)]
pub struct Closed {
    /// All commits.
    pub journal: Journal,
    /// The id counter.
    pub next: u64,
}

impl<J: Names, H: Wait + Drop> Store<J, H> {
    /// Closes the store, and uses its passes up, which are all that were made with it: all that they saw is in the journal, their own
    /// commits are its commits, each once, and the ids that they drew are all below the counter, each once. It takes no memory. A program
    /// ends with its store, so the memory of the shards is left to the end of the process: the system takes it back at once.
    pub fn close<R: Wait>(self, rt: &R, passes: Passes<J>) -> Closed
        requires { length passes ≡ self.passes }
        ensures { HaveEnded self.shards passes result.journal result.next }
    {
        let Store {
            journal,
            shards,
            words,
            definitions: _definitions,
            window: _,
            passes: many,
            uncounted: _uncounted,
            seats,
            changed: _changed,
            alloc: _,
        } = self;
        let room = seats.into_inner();
        room.is_for(rt, many);
        let SeatRoom {
            passes: _,
            commits: commit_seats,
            ids: id_seats,
        } = room;
        let desk = journal.into_inner();
        confirm_journal(rt, &desk, passes.as_slice());
        confirm_shards(rt, &desk.writer.writer, shards, passes.as_slice());
        let JournalDesk {
            book,
            writer: _writer,
            commits: commit_keeper,
            ids: id_keeper,
            of: _,
        } = desk;
        let (commits, ids) = all_seats(commit_seats, id_seats, passes, commit_keeper, id_keeper);
        words.commits.close(commits);
        let next = words.ids.close(ids);
        Closed {
            journal: book.end(),
            next,
        }
    }

    /// Uses up a store whose journal isn't asked for any more, with its passes. The memory of the shards is left to the end of the process,
    /// as after `close`. There is nothing that a clause could say: nothing is handed back, and `close` is the call that tells what was
    /// committed.
    pub fn end<R: Wait>(self, _rt: &R, _passes: Passes<J>) {
        let Store {
            journal: _journal,
            shards,
            words: _words,
            definitions: _definitions,
            window: _,
            passes: _,
            uncounted: _uncounted,
            seats: _seats,
            changed: _changed,
            alloc: _,
        } = self;
        forget(shards);
    }
}
