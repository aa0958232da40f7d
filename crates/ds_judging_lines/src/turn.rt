//! One line and its reply, as they are judged.
ghost use Rattle.std.specs.Prelude.{◌≡◌, ◌<◌, ◌≤◌, ◌↔◌, codes, length, option_map, take, Some, IfNone, IfOk, IfSome, IsTrue, OnOk};
ghost use Rattle.ds_log.specs.Shards.{shard_of};
ghost use Rattle.ds_log.specs.Logs.{shard_list};
ghost use Rattle.ds_model.specs.Answers.{CountsWithin};
ghost use Rattle.ds_model.specs.Groups.{IsSeenPlace, StandsAt, place_in};
ghost use Rattle.ds_model.specs.Worlds.{entries_up_to, shard_lists};
ghost use Rattle.ds_reply_lines.specs.ReplyLines.{number_at, numbers_at, told_by};
ghost use Rattle.ds_judging_lines.specs.Deciding.{IsCountWithin, IsOnlyTold, IsSession, SaidIs, told_in, world_in};

use crate::sessions::{seen_counts, seen_place};
use ds_base::{Key, NoMemory};
use ds_history::History;
use ds_indexdef::Defs;
use ds_log::shard_of;
use ds_protocol::Session;
use ds_reply::Body;
use ds_reply_lines::{Members, says};
use std::alloc::{AllocError, Global};

/// What a run is about.
#[derive(Drop)]
pub struct Run<'a> {
    /// The journal that replies are held against, with the number of shards.
    pub history: History<'a>,
    /// The index definitions.
    pub defs: &'a Defs,
    /// How many entries a shard keeps the versions of.
    pub window: u64,
}

/// A line's client and number, and the line of its reply.
#[derive(Drop)]
pub struct Turn<'a> {
    /// Where memory is taken.
    pub alloc: Global,
    /// What the run is about.
    pub run: &'a Run<'a>,
    /// The client, from 0 to 15.
    pub client: u32,
    /// The number of its line, from 1 through the whole input.
    pub number: u64,
    /// The reply's line, without the byte that ends it.
    pub line: &'a [u8],
    /// What that line tells as JSON.
    pub told: Members,
}

impl<'a> Turn<'a> {
    /// The body, where the reply says this.
    pub fn said(&self, body: Body) -> Result<Option<Body>, NoMemory>
        ensures { IfOk result (SaidIs self.now body) }
    {
        says(self.alloc, self.client, self.number, body, self.line)
    }

    /// The body of a refusal, where the reply says this; lack of memory is none.
    pub fn say_refusal(&self, body: Body) -> Result<Option<Body>, NoMemory>
        ensures said { IfOk result (SaidIs self.now body) }
        ensures memory { OnOk result (body ≡ Body.NoMemory → ⊥) }
    {
        match body {
            Body::NoMemory => Err(AllocError),
            body => self.said(body),
        }
    }

    /// The told place, where it is one that the client may be shown.
    pub fn place(&self, session: &Session) -> Option<u64>
        ensures { IsOnlyTold (IsSeenPlace self.now.run.now.history.journal session.now)
            (number_at (codes "place") (told_in self.now)) result }
    {
        let Some(place) = self.told.number("place") else {
            return None;
        };
        if place < seen_place(session) {
            return None;
        }
        self.within(place)
    }

    /// The place, where the journal reaches to it.
    fn within(&self, place: u64) -> Option<u64>
        ensures within { IfSome result (λ m. (m ≡ place) × (m ≤ length self.now.run.now.history.journal)) }
        ensures beyond { IfNone result (place ≤ length self.now.run.now.history.journal → ⊥) }
    {
        if place <= self.run.history.commits() {
            Some(place)
        } else {
            None
        }
    }

    /// Where a group stands: at its touch place, or at the told one.
    pub fn group_place(&self, session: &Session, group: &Key) -> Option<u64>
        ensures { IsOnlyTold (StandsAt self.now.run.now.history.journal session.now
            (place_in session.now.transaction group.now)) (number_at (codes "place") (told_in self.now)) result }
    {
        match session.touch_place(group) {
            Some(place) => self.within(place),
            None => self.place(session),
        }
    }

    /// The shard of a group.
    pub fn shard(&self, group: &Key) -> Result<u32, NoMemory>
        ensures value { IfOk result (λ shard. shard ≡ shard_of group.now self.now.run.now.history.shards) }
        ensures within { IfOk result (λ shard. shard < self.now.run.now.history.shards) }
    {
        shard_of(self.alloc, group, self.run.history.shards())
    }

    /// The counts of all shards that are told, where each is one that the client may be shown, and no lower than the entries of the first
    /// `place` commits.
    pub fn counts(&self, session: &Session, place: u64) -> Result<Option<Vec<u64>>, NoMemory>
        requires session { IsSession self.now session.now }
        requires place { place ≤ length self.now.run.now.history.journal }
        ensures { IfOk result (λ found. IsOnlyTold (CountsWithin (entries_up_to (world_in self.now) place) 0 session.now.counts
            (shard_lists self.now.run.now.history.shards self.now.run.now.history.journal))
            (numbers_at (codes "applied") (told_in self.now)) (option_map (λ counts. counts.items) found)) }
    {
        let Some(counts) = self.told.numbers(self.alloc, "applied")? else {
            return Ok(None);
        };
        let seen = seen_counts(session);
        if are_within(&self.run.history, seen, counts.as_slice(), place) {
            Ok(Some(counts))
        } else {
            Ok(None)
        }
    }
}

/// Whether there is a count for each shard, none below what was seen or below the entries of the first `place` commits, and none above
/// the shard's entries.
fn are_within(history: &History<'_>, seen: &[u64], counts: &[u64], place: u64) -> bool
    requires { place ≤ length history.now.journal }
    ensures { IsTrue result ↔ CountsWithin (λ shard. length (shard_list (take place history.now.journal) shard history.now.shards)) 0
        seen.now (shard_lists history.now.shards history.now.journal) counts.now }
{
    let shards = history.shards();
    if seen.len() != shards as usize || counts.len() != shards as usize {
        return false;
    }
    for shard in 0..shards {
        if !is_within(
            history,
            shard,
            place,
            seen[shard as usize],
            counts[shard as usize],
        ) {
            return false;
        }
    }
    true
}

/// The same of one shard's count.
fn is_within(history: &History<'_>, shard: u32, place: u64, seen: u64, count: u64) -> bool
    requires shard { shard < history.now.shards }
    requires place { place ≤ length history.now.journal }
    ensures { IsTrue result ↔ IsCountWithin (λ k. length (shard_list (take place history.now.journal) k history.now.shards))
        (shard_lists history.now.shards history.now.journal) shard seen count }
{
    seen <= count && history.entries_up_to(shard, place) <= count && count <= history.entries(shard)
}

/// Whether the reply tells this error.
pub fn tells_error(turn: &Turn<'_>, error: u64) -> bool
    ensures { IsTrue result ↔ (number_at (codes "error") (told_by turn.now.told) ≡ Some error) }
{
    match turn.told.number("error") {
        Some(told) => told == error,
        None => false,
    }
}
