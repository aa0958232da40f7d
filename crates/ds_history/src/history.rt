//! A journal as replies are held against it.
ghost use Rattle.std.specs.Prelude.{◌≡◌, ◌<◌, ◌≤◌, ◌^◌, List, [], None, Some, fold, map, length, take, IfNone, IfOk, IfSome, OnOk};
ghost use Rattle.std.specs.Option.{option_copied};
ghost use Rattle.ds_entity.specs.EntityOrder.{sorted_by_key};
ghost use Rattle.ds_base.specs.Limits.{most_shards};
ghost use Rattle.ds_entity.specs.Entities.{EntityParts};
ghost use Rattle.ds_log.specs.After.{after, apply_write};
ghost use Rattle.ds_log.specs.UpTo.{count_up_to};
ghost use Rattle.ds_log.specs.Conflicts.{after_place, conflict_from, conflict_of, last_writer};
ghost use Rattle.ds_log.specs.Logs.{shard_list, writes_of};
ghost use Rattle.ds_model.specs.Results.{entity_of};
ghost use Rattle.ds_model.specs.Sessions.{counted_place, last_commit, list_of};
ghost use Rattle.ds_model.specs.Views.{strong_view};
ghost use Rattle.ds_model.specs.Worlds.{shard_lists};
ghost use Rattle.ds_applied.specs.AppliedLists.{AreCounts, shard_views};
ghost use Rattle.ds_history.specs.Versions.{of_kind};
ghost use Rattle.ds_history.specs.Writers.{commits_at, if_there, last_of, left_at, nth_commit, writers_of, writing};

use crate::reads::left_at;
use crate::seeing::{no_entities, none_counted, seen_in};
use crate::versions::{Kinds, versions_of};
use crate::writers::{Writers, writers_of};
use ds_applied::{AllVisible, Applied, EntityMap};
use ds_base::{Key, NoMemory, TextString};
use ds_entity::Entity;
use ds_log::{Commit, Conflict, Journal, ShardCommits, Touch};
use std::alloc::Global;
use std::marker::Model;

/// A journal, the entries that it gives each shard, and of each entity group the commits that wrote it. Contracts see the journal and the
/// number of shards.
#[derive(Drop)]
pub struct History<'a> {
    journal: &'a Journal,
    applied: Applied,
    writers: Writers,
    kinds: Kinds,
}

impl<'a> Model for History<'a> {
    ghost use Rattle.ds_history.specs.Histories.{HistoryParts, IsHistory};

    ghost Value = { HistoryParts };

    ghost view = { λ h. record { journal = h.journal.now; shards = h.applied.shards } };

    ghost invariant = { λ h. IsHistory h.journal.now h.applied h.writers.entries h.kinds.entries };
}

impl<'a> History<'a> {
    /// That of a journal, for 1 to 16 shards. It is linear in the journal's writes. A refusal means out of memory.
    pub fn make(alloc: Global, journal: &'a Journal, shards: u32) -> Result<History<'a>, NoMemory>
        requires least { 1 ≤ shards }
        requires most { shards ≤ most_shards }
        ensures { IfOk result (λ h. h ≡ record { journal = journal.now; shards = shards }) }
    {
        let mut applied = Applied::make(alloc, shards)?;
        applied.pull(alloc, journal.as_slice())?;
        let writers = writers_of(alloc, journal.as_slice())?;
        let kinds = versions_of(alloc, journal, shards)?;
        Ok(History {
            journal,
            applied,
            writers,
            kinds,
        })
    }

    /// How many commits the journal has.
    pub fn commits(&self) -> u64
        ensures { result ≡ length self.now.journal }
    {
        self.journal.len() as u64
    }

    /// The commit of a number, which counts from 1; `None` exactly where there is none.
    pub fn commit(&self, number: u64) -> Option<&Commit>
        ensures { option_copied result ≡ nth_commit self.now.journal number }
    {
        if number == 0 || number > self.commits() {
            return None;
        }
        self.journal.get((number - 1) as usize)
    }

    // ---- shards

    /// How many shards there are, 1 to 16.
    pub fn shards(&self) -> u32
        ensures value { result ≡ self.now.shards }
        ensures least { 1 ≤ self.now.shards }
        ensures most { self.now.shards ≤ most_shards }
    {
        self.applied.shards()
    }

    /// How many entries a shard has.
    pub fn entries(&self, shard: u32) -> u64
        requires { shard < self.now.shards }
        ensures { result ≡ length (list_of (shard_lists self.now.shards self.now.journal) shard) }
    {
        self.applied.entries(shard)
    }

    /// How many entries of a shard are of the journal's first `place` commits. It bisects.
    pub fn entries_up_to(&self, shard: u32, place: u64) -> u64
        requires shard { shard < self.now.shards }
        requires place { place ≤ length self.now.journal }
        ensures value { result ≡ length (shard_list (take place self.now.journal) shard self.now.shards) }
        ensures within { result ≤ length (list_of (shard_lists self.now.shards self.now.journal) shard) }
    {
        self.applied.entries_up_to(shard, place)
    }

    /// The commit of the last of a shard's first `count` entries; 0 where there is none.
    pub fn last_commit(&self, shard: u32, count: u64) -> u64
        requires shard { shard < self.now.shards }
        requires count { count ≤ length (list_of (shard_lists self.now.shards self.now.journal) shard) }
        ensures { result ≡ last_commit (take count (list_of (shard_lists self.now.shards self.now.journal) shard)) }
    {
        self.applied.last_commit(shard, count)
    }

    /// The greatest commit of the shards' last counted entries, at a count for each shard, shard 0 first; 0 where none is counted.
    pub fn counted_place(&self, counts: &[u64]) -> u64
        requires { AreCounts (shard_lists self.now.shards self.now.journal) counts.now }
        ensures { result ≡ counted_place (shard_lists self.now.shards self.now.journal) counts.now }
    {
        self.applied.counted_place(counts)
    }

    /// The entities of all shards at a count for each, shard 0 first. It is linear in the counted entries' writes. A refusal is want of
    /// memory.
    pub fn counted(&self, alloc: Global, counts: &[u64]) -> Result<AllVisible<'_>, NoMemory>
        requires { AreCounts (shard_lists self.now.shards self.now.journal) counts.now }
        ensures { IfOk result (λ v. v ≡ shard_views (shard_lists self.now.shards self.now.journal) counts.now) }
    {
        self.applied.all_visible(alloc, counts)
    }

    /// The entities of a kind at a count of entries for each shard, shard 0 first, by key. It looks at the keys of this kind alone, of each
    /// from the last version on, and at none where nothing is counted; it rebuilds nothing. A refusal means out of memory.
    pub fn seen(
        &self,
        alloc: Global,
        kind: &TextString,
        counts: &[u64],
    ) -> Result<Vec<&Entity>, NoMemory>
        ensures { IfOk result (λ es. map (λ e. e.now) es.items
            ≡ of_kind (Some kind.now) (sorted_by_key (shard_views (shard_lists self.now.shards self.now.journal) counts.now))) }
    {
        if none_counted(counts) {
            return Ok(no_entities(alloc));
        }
        match self.kinds.get(kind) {
            Some(keys) => seen_in(alloc, keys, kind, counts),
            None => Ok(Vec::new(alloc)),
        }
    }

    // ---- groups

    /// The numbers of the commits that wrote a group; none where none did.
    fn numbers(&self, group: &Key) -> Option<&ShardCommits>
        ensures some { IfSome result (λ n. n.now.commits ≡ writers_of group.now self.now.journal) }
        ensures none { IfNone result (writers_of group.now self.now.journal ≡ []) }
    {
        self.writers.get(group)
    }

    /// The last of the first `place` commits that wrote a group; `None` exactly where none did. It bisects.
    pub fn last_writer(&self, group: &Key, place: u64) -> Option<u64>
        ensures { result ≡ last_writer (take place self.now.journal) group.now }
    {
        match self.numbers(group) {
            Some(numbers) => last_up_to(numbers, place),
            None => None,
        }
    }

    /// The last writer of a touched group among the first `place` commits, where it comes after the touch place.
    fn later_writer(&self, touch: &Touch, place: u64) -> Option<u64>
        ensures { result ≡ after_place touch.now.place (last_writer (take place self.now.journal) touch.now.group) }
    {
        match self.last_writer(&touch.group, place) {
            Some(commit) if touch.place < commit => Some(commit),
            _ => None,
        }
    }

    /// The conflict of touched groups with the first `place` commits: the first group that one of these wrote after its touch place;
    /// `None` exactly where there is none.
    pub fn conflict(&self, touched: &[Touch], place: u64) -> Option<Conflict>
        requires few { length touched.now < 2 ^ 32 }
        requires place { place ≤ length self.now.journal }
        ensures { result ≡ conflict_of (take place self.now.journal) touched.now }
    {
        self.conflict_at(touched, place)
    }

    /// The same, told of a place.
    fn conflict_at(&self, touched: &[Touch], place: u64) -> Option<Conflict>
        requires { length touched.now < 2 ^ 32 }
        ensures { result ≡ conflict_from (last_writer (take place self.now.journal)) place 0 touched.now }
    {
        for (i, touch) in touched.iter().enumerate() {
            if let Some(commit) = self.later_writer(touch, place) {
                return Some(Conflict {
                    group: i as u32,
                    commit,
                    place,
                });
            }
        }
        None
    }

    /// The entity of a key that the first `place` commits leave; `None` exactly where they leave none. It looks at the commits that wrote
    /// the key's group. A refusal means out of memory.
    pub fn entity(&self, alloc: Global, key: &Key, place: u64) -> Result<Option<&Entity>, NoMemory>
        ensures { IfOk result (λ found. option_copied found ≡ entity_of (strong_view self.now.journal place) key.now) }
    {
        let group = key.root(alloc)?;
        match self.numbers(&group) {
            Some(numbers) => Ok(self.entity_by(numbers, key, place)),
            None => Ok(None),
        }
    }

    /// The entity that the commits of these numbers up to a place leave at a key.
    fn entity_by<'b>(&'b self, numbers: &ShardCommits, key: &Key, place: u64) -> Option<&'b Entity>
        ensures { option_copied result
            ≡ fold (left_at key.now) None (writes_of (commits_at self.now.journal
            (take (count_up_to place numbers.now.commits) numbers.now.commits))) }
    {
        let mut found = None;
        for i in 0..numbers.up_to(place) {
            found = self.left_by(numbers.commit_of(i + 1), key, found);
        }
        found
    }

    /// The entity that a commit leaves at a key, where this one was there before.
    fn left_by<'b>(
        &'b self,
        number: u64,
        key: &Key,
        earlier: Option<&'b Entity>,
    ) -> Option<&'b Entity>
        ensures { option_copied result
            ≡ fold (left_at key.now) (option_copied earlier.entry) (writes_of (if_there (nth_commit self.now.journal number))) }
    {
        match self.commit(number) {
            Some(commit) => left_at(commit.writes.as_slice(), key, earlier),
            None => earlier,
        }
    }

    /// The entities that those of the first `place` commits leave which wrote a group: of the group all that the journal leaves there. It
    /// is linear in these commits' writes. A refusal means out of memory.
    pub fn group_view(&self, alloc: Global, group: &Key, place: u64) -> Result<EntityMap, NoMemory>
        ensures { IfOk result (λ v. v ≡ sorted_by_key (after (writes_of (writing group.now (take place self.now.journal))))) }
    {
        match self.numbers(group) {
            Some(numbers) => self.view_by(alloc, numbers, place),
            None => Ok(EntityMap::new(alloc)),
        }
    }

    /// The entities that the commits of these numbers up to a place leave.
    fn view_by(
        &self,
        alloc: Global,
        numbers: &ShardCommits,
        place: u64,
    ) -> Result<EntityMap, NoMemory>
        ensures { IfOk result (λ v. v
            ≡ sorted_by_key (after (writes_of (commits_at self.now.journal
            (take (count_up_to place numbers.now.commits) numbers.now.commits))))) }
    {
        let mut view = EntityMap::new(alloc);
        for i in 0..numbers.up_to(place) {
            self.apply(alloc, numbers.commit_of(i + 1), &mut view)?;
        }
        Ok(view)
    }

    /// Applies the writes of a commit, if there is one of this number.
    fn apply(&self, alloc: Global, number: u64, view: &mut EntityMap) -> Result<(), NoMemory>
        ensures { OnOk result ((es : List EntityParts) → view.old ≡ sorted_by_key es
            → view.new ≡ sorted_by_key (fold apply_write es (writes_of (if_there (nth_commit self.now.journal number))))) }
    {
        match self.commit(number) {
            Some(commit) => view.apply_all(alloc, commit.writes.as_slice()),
            None => Ok(()),
        }
    }
}

/// The last of numbers that isn't above a place.
fn last_up_to(numbers: &ShardCommits, place: u64) -> Option<u64>
    ensures { result ≡ last_of (take (count_up_to place numbers.now.commits) numbers.now.commits) }
{
    let count = numbers.up_to(place);
    if count == 0 {
        None
    } else {
        Some(numbers.commit_of(count))
    }
}
