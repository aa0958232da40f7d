//! What lies under a shard's lock.
ghost use Rattle.std.specs.Prelude.{◌≡◌, ◌+◌, ◌≤◌, ◌<◌, ◌++◌, [], Some, length, take, slice_get, slice_set, IfOk, IsTrue, OnOk, MatchBool};
ghost use mathlib.Core.List.{IsPrefix};
ghost use Rattle.ds_log.specs.Logs.{shard_list};
ghost use Rattle.ds_log.specs.UpTo.{commits_of};
ghost use Rattle.ds_model.specs.Sessions.{list_of};
ghost use Rattle.ds_store_passes.specs.Passes.{HasRead};
ghost use Rattle.ds_shard.specs.Shards.{last_commit};
ghost use Rattle.ds_shard.specs.States.{begun};
ghost use Rattle.ds_store_shards.specs.Applying.{IsFew};

use ds_base::NoMemory;
use ds_hub::{HeldWriter, Reader, Writer};
use ds_log::{Commit, Entry, ShardCommits};
use ds_shard::ShardState;
use ds_store_hubs::{JournalState, Names, later_entries, publish_waiting, take_in};
use ds_store_passes::Pass;
use std::alloc::Global;
use std::collections::VecDeque;
use std::marker::PhantomData;
use std::sync::Wait;

/// Under a shard's lock: its number, the writer of its hub, its own reader of the journal, the numbers of the commits of its entries,
/// and the entries that wait to be applied.
#[derive(Drop)]
pub struct ShardDesk<J: Names, H: Wait + Drop> {
    /// The shard's number.
    pub number: u32,
    /// How many shards there are.
    pub shards: u32,
    /// The writer of its hub.
    pub writer: HeldWriter<Entry, ShardState, H>,
    /// Its own reader of the journal.
    pub journal: Reader<(), JournalState>,
    /// The numbers of the commits of its entries.
    pub commits: ShardCommits,
    /// The entries that wait to be applied.
    pub waiting: VecDeque<Entry>,
    /// The store's names.
    pub of: PhantomData<J>,
    pub ghost of_shard: { slice_get J.shards number ≡ Some writer.writer.hub },
    pub ghost begun: { writer.writer.start
        ≡ Some (begun J.ledger (record { shards = shards; number = number }) J.definitions J.window) },
    pub ghost of_journal: { journal.hub ≡ J.journal },
    pub ghost of_all: { (shards ≡ length J.shards) × (1 ≤ shards) × (shards ≤ 16) },
    pub ghost list: { (writer.writer.published ++ writer.writer.pending) ++ waiting.items ≡ shard_list journal.known number shards },
    pub ghost numbers: { commits.commits ≡ commits_of (shard_list journal.known number shards) },
}

impl<J: Names, H: Wait + Drop> ShardDesk<J, H> {
    /// Takes the entries of all commits of the journal that it hasn't seen yet, to be applied later: the journal's writer tells them.
    /// `Err` means out of memory, and takes none.
    pub fn fetch<R: Wait>(
        &mut self,
        rt: &R,
        alloc: Global,
        journal: &[Commit],
        writer: &mut Writer<(), JournalState>,
    ) -> Result<(), NoMemory>
        requires hub { writer.old.hub ≡ J.journal }
        requires told { writer.old.published ≡ journal.now }
        ensures writer { writer.new ≡ writer.old }
        ensures seen { OnOk result (self.new.journal.known ≡ journal.now) }
        ensures same { (self.new.number ≡ self.old.number) × (self.new.shards ≡ self.old.shards)
            × (self.new.writer.writer ≡ self.old.writer.writer) }
    {
        writer.confirm(rt, &self.journal);
        let entries = later_entries(
            alloc,
            journal,
            self.journal.len() as usize,
            self.number,
            self.shards,
        )?;
        self.waiting.reserve(entries.len())?;
        self.commits.make_room(entries.len())?;
        take_in(&mut self.waiting, &mut self.commits, entries);
        self.journal.learn(writer.tell());
        Ok(())
    }

    /// Whether there is an entry that isn't published yet.
    pub fn is_behind(&self) -> bool
        ensures { MatchBool result (0 < length self.now.writer.writer.pending + length self.now.waiting.items)
            (self.now.writer.writer.published ≡ shard_list self.now.journal.known self.now.number self.now.shards) }
    {
        self.writer.writer.pending() > 0 || !self.waiting.is_empty()
    }

    /// How many entries the first `place` commits give the shard.
    pub fn entries_up_to(&self, place: u64) -> u64
        ensures is { result ≡ length (shard_list (take place self.now.journal.known) self.now.number self.now.shards) }
        ensures within { result ≤ length (shard_list self.now.journal.known self.now.number self.now.shards) }
    {
        self.commits.up_to(place)
    }

    /// The commit of the last published entry, 0 where there is none.
    pub fn last(&self) -> u64
        ensures { result ≡ last_commit self.now.writer.writer.published }
    {
        self.commits.commit_of(self.writer.writer.published())
    }

    /// Shows the pass all that is published.
    pub fn show<R: Wait>(&mut self, rt: &R, pass: &mut Pass<J>)
        ensures desk { (self.new.number ≡ self.old.number) × (self.new.shards ≡ self.old.shards) × (self.new.journal ≡ self.old.journal)
            × (self.new.writer.writer ≡ self.old.writer.writer) }
        ensures pass { pass.new ≡ record pass.old { lists = slice_set pass.old.lists self.old.number self.old.writer.writer.published } }
        ensures seen { slice_get pass.new.lists self.old.number ≡ Some self.old.writer.writer.published }
        ensures before { IsPrefix (list_of pass.old.lists self.old.number) self.old.writer.writer.published }
        ensures read { HasRead pass.old pass.new }
    {
        pass.see_shard(rt, self.number as usize, &mut self.writer.writer);
    }

    /// Shows that a pass has seen no entry of the shard that isn't published.
    pub fn confirm_pass<R: Wait>(&self, rt: &R, pass: &Pass<J>)
        ensures { IsPrefix (list_of pass.now.lists self.now.number) self.now.writer.writer.published }
    {
        let slot = &pass.shards[self.number as usize];
        let note = slot.tell();
        self.writer.writer.confirm_note(rt, &note);
    }

    /// Applies the entries up to the `count`-th; those behind them stay waiting. `Err` means out of memory; it may then have applied some.
    pub fn apply_up_to<R: Wait>(&mut self, rt: &R, count: u64) -> Result<(), NoMemory>
        requires { count ≤ length (shard_list self.old.journal.known self.old.number self.old.shards) }
        ensures same { (self.new.number ≡ self.old.number) × (self.new.shards ≡ self.old.shards) × (self.new.journal ≡ self.old.journal) }
        ensures applied { OnOk result (count ≤ length self.new.writer.writer.published) }
    {
        let missing = count.saturating_sub(self.writer.writer.published());
        if missing == 0 {
            return Ok(());
        }
        let missing = missing.saturating_sub(self.writer.writer.pending());
        publish_waiting(rt, &mut self.waiting, &mut self.writer.writer, missing)
    }

    /// Applies the next entries that wait, if there are any, and says whether there were: `most` at most. What a call before added and
    /// couldn't publish is published first, and isn't counted. `Err` means out of memory; then none that waits is applied.
    pub fn apply_next<R: Wait>(&mut self, rt: &R, most: u64) -> Result<bool, NoMemory>
        requires { 1 ≤ most }
        ensures same { (self.new.number ≡ self.old.number) × (self.new.shards ≡ self.old.shards) × (self.new.journal ≡ self.old.journal) }
        ensures moved { IfOk result (λ moved. MatchBool moved (length self.old.writer.writer.published < length
            self.new.writer.writer.published)
            (self.new.writer.writer.published ≡ shard_list self.old.journal.known self.old.number self.old.shards)) }
        ensures few { IfOk result (λ moved. IsTrue moved → IsFew (length self.old.writer.writer.published
            + length self.old.writer.writer.pending) (length self.new.writer.writer.published) most) }
    {
        publish_pending(rt, &mut self.writer.writer)?;
        if !self.is_behind() {
            return Ok(false);
        }
        let count = few(self.waiting.len() as u64, most);
        publish_waiting(rt, &mut self.waiting, &mut self.writer.writer, count)?;
        Ok(true)
    }
}

/// Publishes what is pending. A refusal means out of memory, and publishes nothing.
fn publish_pending<R: Wait>(rt: &R, writer: &mut Writer<Entry, ShardState>) -> Result<(), NoMemory>
    ensures same { (writer.new.hub ≡ writer.old.hub) × (writer.new.start ≡ writer.old.start) }
    ensures kept { writer.new.published ++ writer.new.pending ≡ writer.old.published ++ writer.old.pending }
    ensures none { OnOk result (writer.new.pending ≡ []) }
    ensures published { OnOk result (length writer.new.published ≡ length writer.old.published + length writer.old.pending) }
{
    writer.publish(rt)
}

/// How many of the entries that wait are applied next: as many as are asked for at most.
fn few(waiting: u64, most: u64) -> u64
    requires { 1 ≤ most }
    ensures within { (result ≤ waiting) × (result ≤ most) }
    ensures some { 0 < waiting → 0 < result }
{
    waiting.min(most)
}
