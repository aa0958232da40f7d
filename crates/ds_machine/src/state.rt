//! The store, and what its shards have applied.
ghost use Rattle.std.specs.Prelude.{◌≡◌, ◌≤◌, [], length, IfOk};

use ds_applied::Applied;
use ds_base::NoMemory;
use ds_indexdef::Defs;
use ds_journal::Book;
use ds_log::Journal;
use std::alloc::Global;
use std::marker::Model;

/// The index definitions, the book of commits with the id counter, and what the shards have applied of the book.
#[derive(Drop)]
pub struct State {
    pub shards: u32,
    pub defs: Defs,
    pub book: Book,
    pub applied: Applied,
}

impl Model for State {
    ghost use Rattle.ds_machine.specs.States.{StateParts, IsState};

    ghost Value = { StateParts };

    ghost view = { λ s. record {
      store = record { definitions = s.defs; shards = s.shards; journal = s.book.journal; next = s.book.next };
      applied = s.applied;
    } };

    ghost invariant = { λ s. IsState (record {
      store = record { definitions = s.defs; shards = s.shards; journal = s.book.journal; next = s.book.next };
      applied = s.applied;
    }) };
}

impl State {
    ghost use Rattle.std.specs.Prelude.{replicate};
    ghost use Rattle.ds_base.specs.Limits.{first_drawn_id, most_shards};
    ghost use Rattle.ds_machine.specs.States.{StateParts, IsState};

    /// Nothing committed. A refusal means out of memory.
    #[tactic(auto, using(crate::proofs::Citing::first_laws))]
    pub fn make(alloc: Global, shards: u32, defs: Defs) -> Result<State, NoMemory>
        requires least { 1 ≤ shards }
        requires most { shards ≤ most_shards }
        ensures store { IfOk result (λ s. s.store ≡ record { definitions = defs; shards = shards; journal = []; next = first_drawn_id }) }
        ensures counts { IfOk result (λ s. s.applied.counts ≡ replicate shards 0) }
    {
        let applied = Applied::make(alloc, shards)?;
        Ok(State {
            shards,
            defs,
            book: Book::make(alloc),
            applied,
        })
    }

    /// How many shards there are, 1 to 16; each has a count.
    pub fn shards(&self) -> u32
        ensures value { result ≡ self.now.store.shards }
        ensures counts { length self.now.applied.counts ≡ self.now.store.shards }
    {
        let _applied = self.applied.shards();
        self.shards
    }

    /// The journal, moved out.
    pub fn end(self) -> Journal
        ensures { result ≡ self.store.journal }
    {
        let State { book, .. } = self;
        book.end()
    }
}
