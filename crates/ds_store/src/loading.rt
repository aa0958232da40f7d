//! A store that is loaded before it is shared.
ghost use Rattle.std.specs.Prelude.{◌≡◌, ◌-◌, ◌≤◌, ◌++◌, ◌∷◌, [], IfOk, OnErr, OnOk, length, replicate};
ghost use Rattle.ds_base.specs.Limits.{first_drawn_id, greatest_id};
ghost use Rattle.ds_log.specs.Conflicts.{IsCommitted};
ghost use Rattle.ds_log.specs.Ids.{AreIssued};
ghost use Rattle.ds_store_hubs.specs.Opening.{AreNamesOf, AreBegun};
ghost use Rattle.ds_store_passes.specs.Loads.{loaded};
ghost use Rattle.ds_store_passes.specs.Passes.{nothing_seen};

use crate::making::Made;
use crate::parts::{Parts, first_desk, make_parts};
use ds_base::NoMemory;
use ds_draw::Drawn;
use ds_indexdef::Defs;
use ds_journal::Draft;
use ds_store_hubs::{Ledgers, Names, Opened, SeatRoom};
use ds_store_journal::{JournalDesk, Words};
use ds_store_passes::{Pass, Passes};
use ds_store_reads::Uncounted;
use ds_store_running::{Store, Unshared};
use ds_store_shards::ShardDesk;
use std::alloc::{AllocError, Global};
use std::marker::{Model, PhantomData};
use std::sync::{Mutex, Wait};

/// A store that nobody shares yet, so that what it holds is known exactly: the commits of a journal, with the numbers 1, 2, .., and ids
/// that are drawn up to a counter. Once it is shared, any thread may commit at any time.
#[derive(Drop)]
pub struct Loading<J: Names, H: Wait + Drop> {
    desk: JournalDesk<J, H>,
    /// The pass that loads.
    pass: Pass<J>,
    /// The other passes, with room for this one.
    others: Vec<Pass<J>>,
    shards: Vec<Mutex<ShardDesk<J, H>>>,
    words: Words<J>,
    definitions: Defs,
    window: u64,
    passes: u32,
    ledgers: Ledgers<J>,
    seats: SeatRoom,
    alloc: Global,
}

impl<J: Names, H: Wait + Drop> Model for Loading<J, H> {
    ghost use Rattle.std.specs.Prelude.{◌≡◌, ◌+◌, ◌-◌, ◌<◌, ◌≤◌, length, replicate};
    ghost use Rattle.std.specs.Vec.{vec_capacity};
    ghost use Rattle.ds_base.specs.Limits.{first_drawn_id, greatest_id};
    ghost use Rattle.ds_store_passes.specs.Loads.{LoadingParts, loaded};
    ghost use Rattle.ds_store_passes.specs.Passes.{nothing_seen};

    ghost Value = { LoadingParts };

    ghost view = { λ l. record {
      shards = length l.shards.items;
      passes = l.passes;
      journal = l.desk.book.journal;
      next = l.pass.next;
    } };

    ghost invariant = { λ l. (l.pass ≡ loaded (length l.shards.items) l.desk.book.journal l.pass.next)
        × (l.pass.next ≤ l.desk.book.next) × ((first_drawn_id ≤ l.pass.next) × (l.pass.next ≤ greatest_id))
        × ((l.others.items ≡ replicate (l.passes - 1) (nothing_seen (length l.shards.items)))
        × (length l.others.items < vec_capacity l.others) × (1 ≤ l.passes))
        × ((length l.shards.items ≡ length J.shards) × ((1 ≤ length J.shards) × (length J.shards ≤ 16))
        × (l.definitions ≡ J.definitions) × (l.window ≡ J.window) × ((1 ≤ J.window) × (J.window ≤ 65536))
        × ((l.words.commits.seats ≡ l.passes + 1) × (l.words.ids.seats ≡ l.passes + 1))) };
}

impl<J: Names, H: Wait + Drop> Loading<J, H> {
    /// Makes an empty store of what was opened, whose names these are. The last of its passes loads it. A refusal means out of memory.
    pub fn make(alloc: Global, opened: Opened<H>) -> Result<Loading<J, H>, NoMemory>
        requires names { AreNamesOf opened J.journal J.shards J.commits J.ids J.definitions J.window J.ledger }
        requires begun { AreBegun opened }
        ensures { IfOk result (λ l. l ≡ record {
          shards = length opened.shards;
          passes = opened.passes;
          journal = [];
          next = first_drawn_id;
        }) }
    {
        let seats = SeatRoom::for_passes(alloc, opened.passes)?;
        let Opened {
            journal,
            readers,
            shards,
            commits,
            ids,
            definitions,
            window,
            ledger,
            passes,
        } = opened;
        let Drawn {
            word: commit_word,
            seats: commit_seats,
        } = commits;
        let Drawn {
            word: id_word,
            seats: id_seats,
        } = ids;
        let parts = make_parts(alloc, readers, shards, commit_seats, id_seats, passes)?;
        let Parts {
            pass,
            others,
            shards,
            commits,
            ids,
        } = parts;
        let desk = first_desk(alloc, journal, commits, ids);
        Ok(Loading {
            desk,
            pass,
            others,
            shards,
            words: Words {
                commits: commit_word,
                ids: id_word,
                of: PhantomData,
            },
            definitions,
            window,
            passes,
            ledgers: Ledgers::new(ledger),
            seats,
            alloc,
        })
    }

    /// Draws all ids from the counter up to but without `next`, which is the counter then. It takes no memory.
    pub fn draw_up_to<R: Wait>(&mut self, rt: &R, next: u64)
        requires rises { self.old.next ≤ next }
        requires bounded { next ≤ greatest_id }
        ensures { self.new ≡ record self.old { next = next } }
    {
        let before = self.pass.next();
        if before == next {
            return;
        }
        self.pass.draw_ids(rt, &self.words.ids, next - before);
        self.desk.catch_up(rt, &self.words.ids, next);
    }

    /// Appends the draft as the next commit. Its touch places are at most the number of commits so far, no later commit wrote one of its
    /// groups, and each id of 2^52 or more in a written key is below the counter: so it has no conflict. A refusal means out of memory, or
    /// comes where there are 2^48 commits, and changes nothing.
    pub fn commit<R: Wait>(&mut self, rt: &R, draft: Draft) -> Result<(), NoMemory>
        requires committed { IsCommitted self.old.journal draft }
        requires issued { AreIssued self.old.next draft.writes }
        ensures ok { OnOk result (self.new ≡ record self.old { journal = self.old.journal ++ draft ∷ [] }) }
        ensures err { OnErr result (self.new ≡ self.old) }
    {
        match self.desk.commit(rt, &self.words, &mut self.pass, draft) {
            Ok(_) => Ok(()),
            Err(_) => Err(AllocError),
        }
    }

    /// How many commits there are. It takes no memory.
    pub fn len(&self) -> u64
        ensures { result ≡ length self.now.journal }
    {
        self.desk.len()
    }

    /// The id counter, 2^52 at first. It takes no memory.
    pub fn next(&self) -> u64
        ensures value { result ≡ self.now.next }
        ensures within { (first_drawn_id ≤ self.now.next) × (self.now.next ≤ greatest_id) }
    {
        self.pass.next()
    }

    /// The store, for all threads, with its passes: the last one is the one that loaded, and the others have seen nothing. It takes no
    /// memory.
    pub fn share(self) -> Made<J, H>
        ensures store { (result.store.shards ≡ self.shards) × (result.store.passes ≡ self.passes) }
        ensures passes { result.passes ≡ replicate (self.passes - 1) (nothing_seen self.shards)
            ++ loaded self.shards self.journal self.next ∷ [] }
        ensures some { 1 ≤ self.passes }
    {
        let Loading {
            desk,
            pass,
            mut others,
            shards,
            words,
            definitions,
            window,
            passes,
            ledgers,
            seats,
            alloc,
        } = self;
        others.push_reserved(pass);
        let (store, tail) = Store::share(Unshared {
            desk,
            shards,
            words,
            definitions,
            window,
            passes,
            uncounted: Uncounted::new(ledgers.again()),
            seats,
            alloc,
        });
        Made {
            store,
            tail,
            ledgers,
            passes: Passes::from(others),
        }
    }
}
