//! What one caller of the store has seen.
ghost use Rattle.std.specs.Prelude.{◌≡◌, ◌+◌, ◌^◌, ◌<◌, ◌≤◌, ◌++◌, ◌∷◌, [], All, None, Some, max, length, slice_get, slice_set};
ghost use Rattle.std.specs.Option.{option_map};
ghost use mathlib.Core.List.{IsPrefix};
ghost use Rattle.ds_base.specs.Limits.{first_drawn_id};
ghost use Rattle.ds_draw.specs.Draws.{numbers};
ghost use Rattle.ds_hub.specs.Growing.{AreLonger};
ghost use Rattle.ds_store_passes.specs.Passes.{OwnSeen};

use ds_draw::{Seat, Word};
use ds_hub::{Reader, Slot, Writer};
use ds_log::Entry;
use ds_shard::ShardState;
use ds_store_hubs::{JournalState, Names, draw_one, look_up_to, see_all, see_shard_in};
use std::marker::{Model, PhantomData};
use std::sync::Wait;

/// What one caller has seen: a reader of the journal and one of each shard, the place of the greatest commit that was shown, and
/// the seats with which numbers of commits and ids are drawn. Contracts see `PassParts`.
#[derive(Drop)]
pub struct Pass<J: Names> {
    pub journal: Reader<(), JournalState>,
    pub shards: Vec<Slot<Entry, ShardState>>,
    pub place: u64,
    pub commits: Seat,
    pub ids: Seat,
    /// The counter of the seat on the word of ids, which itself takes no bytes.
    pub next: u64,
    pub of: PhantomData<J>,
}

impl<J: Names> Model for Pass<J> {
    ghost use Rattle.std.specs.Prelude.{◌≡◌, ◌<◌, ◌≤◌, All, length, map};
    ghost use Rattle.ds_base.specs.Limits.{first_drawn_id, most_shards};
    ghost use Rattle.ds_hub.specs.Holding.{hub_in, known_in};
    ghost use Rattle.ds_store_hubs.specs.Origins.{origins};
    ghost use Rattle.ds_store_passes.specs.Passes.{PassParts, OwnSeen};

    ghost Value = { PassParts };

    ghost view = { λ p. record {
      journal = p.journal.known;
      lists = map known_in p.shards.items;
      place = p.place;
      next = p.next;
      commits = p.commits.draws;
      draws = p.ids.draws;
    } };

    ghost invariant = { λ p. (p.journal.hub ≡ J.journal)
        × (map hub_in p.shards.items ≡ origins J.ledger J.definitions J.window J.shards)
        × ((p.commits.word ≡ J.commits) × (p.ids.word ≡ J.ids)) × (p.next ≡ p.ids.counter)
        × (OwnSeen p.commits.draws p.journal.known × All (λ n. n ≤ p.place) p.commits.draws × All (λ id. id < p.next) p.ids.draws)
        × ((1 ≤ length J.shards) × (length J.shards ≤ most_shards)) × (first_drawn_id ≤ p.next) };
}

/// What a pass was shown: the place of the greatest commit, and the id counter.
#[derive(Clone, Copy)]
pub struct Shown {
    /// The place.
    pub place: u64,
    /// The id counter.
    pub next: u64,
}

impl<J: Names> Pass<J> {
    /// The place and the id counter that were shown. None of the pass's own commits is above that place, and each id that it drew is below
    /// that counter. It takes no memory.
    pub fn shown(&self) -> Shown
        ensures place { result.place ≡ self.now.place }
        ensures next { result.next ≡ self.now.next }
        ensures commits { All (λ n. n ≤ self.now.place) self.now.commits }
        ensures draws { All (λ id. id < self.now.next) self.now.draws }
    {
        Shown {
            place: self.place,
            next: self.next,
        }
    }

    /// The place of the greatest commit that was shown, 0 at first. It takes no memory.
    pub fn place(&self) -> u64
        ensures { result ≡ self.now.place }
    {
        self.place
    }

    /// How many shards there are. It takes no memory.
    pub fn shards(&self) -> u32
        ensures { result ≡ length self.now.lists }
    {
        self.shards.len() as u32
    }

    /// How many entries of a shard were shown; `None` exactly where there is no such shard. It takes no memory.
    pub fn count(&self, shard: u32) -> Option<u64>
        ensures { result ≡ option_map length (slice_get self.now.lists shard) }
    {
        self.shards.get(shard as usize).map(|slot| slot.len())
    }

    /// The id counter, 2^52 at first: no id from here on was shown. It takes no memory.
    pub fn next(&self) -> u64
        ensures value { result ≡ self.now.next }
        ensures least { first_drawn_id ≤ self.now.next }
    {
        self.next
    }

    /// Sees all commits that the journal's writer has published, and stands at the last of them.
    pub fn see_journal<R: Wait>(&mut self, rt: &R, writer: &mut Writer<(), JournalState>)
        requires hub { writer.old.hub ≡ J.journal }
        requires bounded { length writer.old.published < 2 ^ 62 }
        requires place { self.old.place ≤ length writer.old.published }
        ensures writer { writer.new ≡ writer.old }
        ensures pass { self.new ≡ record self.old { journal = writer.old.published; place = length writer.old.published } }
        ensures grown { IsPrefix self.old.journal self.new.journal }
    {
        see_all(rt, writer, &mut self.journal);
        self.place = writer.published();
    }

    /// Sees all entries of a shard that its writer has published.
    pub fn see_shard<R: Wait>(
        &mut self,
        rt: &R,
        shard: usize,
        writer: &mut Writer<Entry, ShardState>,
    )
        requires hub { slice_get J.shards shard ≡ Some writer.old.hub }
        ensures writer { writer.new ≡ writer.old }
        ensures pass { self.new ≡ record self.old { lists = slice_set self.old.lists shard writer.old.published } }
        ensures grown { AreLonger self.old.lists self.new.lists }
        ensures seen { slice_get self.new.lists shard ≡ Some writer.old.published }
    {
        see_shard_in(rt, writer, &mut self.shards[shard]);
    }

    /// Stands no lower than at a place.
    pub fn stand(&mut self, place: u64)
        ensures { self.new ≡ record self.old { place = max self.old.place place } }
    {
        self.place = self.place.max(place);
    }

    /// Looks at the word of ids: the id counter rises to what it finds.
    pub fn look(&mut self, ids: &Word)
        requires { ids.now.name ≡ J.ids }
        ensures pass { self.new ≡ record self.old { next = self.new.next } }
        ensures risen { self.old.next ≤ self.new.next }
        ensures limit { self.new.next < 2 ^ 63 }
    {
        self.next = ids.look(&mut self.ids);
    }

    /// Looks at the word of ids until it isn't below a number.
    pub fn look_past<R: Wait>(&mut self, rt: &R, ids: &Word, least: u64)
        requires { ids.now.name ≡ J.ids }
        ensures pass { self.new ≡ record self.old { next = self.new.next } }
        ensures risen { (self.old.next ≤ self.new.next) × (least ≤ self.new.next) }
        ensures limit { self.new.next < 2 ^ 63 }
    {
        self.next = look_up_to(rt, ids, &mut self.ids, least);
    }

    /// Draws the number of the last commit that the journal's writer has published, and sees all commits.
    pub fn own<R: Wait>(&mut self, rt: &R, commits: &Word, writer: &mut Writer<(), JournalState>)
        requires name { commits.now.name ≡ J.commits }
        requires hub { writer.old.hub ≡ J.journal }
        requires bounded { (0 < length writer.old.published) × (length writer.old.published < 2 ^ 62) }
        ensures writer { writer.new ≡ writer.old }
        ensures pass { self.new ≡ record self.old {
          journal = writer.old.published;
          place = length writer.old.published;
          commits = self.old.commits ++ length writer.old.published ∷ [];
        } }
        ensures grown { IsPrefix self.old.journal self.new.journal }
    {
        let number = writer.published();
        see_all(rt, writer, &mut self.journal);
        draw_one(rt, commits, &mut self.commits, number);
        self.place = number;
    }

    /// Draws so many ids, once the word of ids comes to stand at the id counter.
    pub fn draw_ids<R: Wait>(&mut self, rt: &R, ids: &Word, count: u64)
        requires name { ids.now.name ≡ J.ids }
        requires some { 0 < count }
        requires limit { self.old.next + count < 2 ^ 63 }
        ensures { self.new ≡ record self.old {
          next = self.old.next + count;
          draws = self.old.draws ++ numbers self.old.next (self.old.next + count);
        } }
    {
        ids.draw_at(rt, &mut self.ids, self.next, count);
        self.next += count;
    }
}
