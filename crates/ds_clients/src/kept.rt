//! What whoever keeps the journal asks of the sessions: that they begin behind what is kept, what they show, and that their replies
//! are held back.
ghost use Rattle.std.specs.Prelude.{◌≡◌, ◌+◌, ◌<◌, ◌≤◌, All, None, OnErr, OnOk, fold, map, max, replicate};
ghost use Rattle.ds_base.specs.Limits.{first_drawn_id, greatest_client};
ghost use Rattle.ds_clients.specs.Clients.{AreAlike, AreNew};
ghost use Rattle.ds_clients.specs.Runs.{AreWritten, IsIdle, seen_of, texts_of};
ghost use Rattle.ds_clients.specs.Showing.{next_shown, place_shown};

use crate::clients::meet_all;
use crate::output::Cut;
use crate::rounds::Sessions;
use ds_base::NoMemory;
use ds_client::Client;
use ds_output::Unsent;
use ds_protocol::Watermark;
use ds_store::{Names, Shown, Store};
use std::sync::Wait;

impl<J: Names> Sessions<J> {
    /// New sessions begin behind a place and an id counter: each client has seen both, and of each shard nothing that it counts. A refusal
    /// means out of memory, and leaves the sessions as they were.
    pub fn begin_behind<H: Wait + Drop>(
        &mut self,
        store: &Store<J, H>,
        place: u64,
        next: u64,
    ) -> Result<(), NoMemory>
        requires new { AreNew store.now.shards self.old }
        requires next { first_drawn_id ≤ next }
        ensures seen { OnOk result (seen_of self.new ≡ replicate (greatest_client + 1) (record {
          place = place;
          counts = replicate store.now.shards 0;
          next_id = next;
          transaction = None;
        })) }
        ensures idle { OnOk result (All (λ s. IsIdle s.pass) self.new) }
        ensures written { OnOk result (AreWritten self.new) }
        ensures err { OnErr result (self.new ≡ self.old) }
    {
        let mut seen = Watermark::first(self.alloc, store.shards())?;
        seen.see_place(place);
        seen.see_next(next);
        meet_all(&mut self.clients, &seen);
        Ok(())
    }

    /// The greatest place and the greatest id counter that one of their passes shows. None of the passes' own commits is above that place,
    /// and each id that they drew is below that counter. It takes no memory.
    pub fn shown(&self) -> Shown
        ensures place { result.place ≡ place_shown self.now }
        ensures next { result.next ≡ next_shown self.now }
        ensures commits { All (λ s. All (λ n. n ≤ result.place) s.pass.commits) self.now }
        ensures draws { All (λ s. All (λ id. id < result.next) s.pass.draws) self.now }
    {
        shown_by(self.clients())
    }

    /// Takes all replies out, of which nothing is written, and gives them. It takes no memory.
    pub fn hold_back(&mut self) -> Unsent
        ensures unsent { result ≡ texts_of self.old }
        ensures alike { AreAlike self.old self.new }
        ensures written { AreWritten self.new }
    {
        // For the proof alone: there is a first client.
        let _ = &self.clients;
        self.take_unsent(Cut {
            client: 0,
            taken: 0,
        })
    }
}

/// What the passes of these clients show.
fn shown_by<J: Names>(clients: &[Client<J>]) -> Shown
    ensures place { result.place ≡ place_shown (map (λ c. c.session) clients.now) }
    ensures next { result.next ≡ next_shown (map (λ c. c.session) clients.now) }
    ensures commits { All (λ s. All (λ n. n ≤ result.place) s.pass.commits) (map (λ c. c.session) clients.now) }
    ensures draws { All (λ s. All (λ id. id < result.next) s.pass.draws) (map (λ c. c.session) clients.now) }
{
    let mut greatest = Shown { place: 0, next: 0 };
    for client in clients {
        let shown = client.pass().shown();
        greatest.place = greatest.place.max(shown.place);
        greatest.next = greatest.next.max(shown.next);
    }
    greatest
}
