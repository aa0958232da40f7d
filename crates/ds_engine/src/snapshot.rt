//! A shard at one of the stamps that it keeps.
ghost use Rattle.std.specs.Prelude.{◌≡◌, ◌+◌, ◌≤◌, ◌<◌, All, false, length, map, None, IfOk, IfSome, OnErr, OnOk, MatchOption};
ghost use Rattle.ds_query.specs.Lawful.{IsLawfulBranch};
ghost use Rattle.ds_pages.specs.Places.{IsPlaced, placed};
ghost use Rattle.ds_branch.specs.Behind.{ArePlaces, IsCollected};
ghost use Rattle.ds_model.specs.Results.{entity_of};
ghost use Rattle.ds_engine.specs.Plans.{IsPlanFor};
ghost use Rattle.ds_engine.specs.Searches.{bound_in, given_in, most_of};
ghost use Rattle.ds_engine.specs.Snapshots.{entities_in};

use crate::planned::PlannedQuery;
use ds_base::{ByteString, Key, NoMemory, copy_of};
use ds_branch::{RowsBehind, answer, answer_behind};
use ds_entity::Entity;
use ds_io::Steps;
use ds_planner::ScanPlan;
use ds_query::{Branch, RowList};
use ds_rows::Tables;
use ds_shard::ShardTables;
use std::alloc::Global;
use std::marker::Model;
use std::sync::ledger::Ledger;

/// A shard at one of the stamps that it keeps, whose seeks and look-ups count on one ledger. Contracts see shard and stamp.
#[derive(Drop)]
pub struct ShardSnapshot<'a, L: Ledger> {
    shard: ShardTables<'a, L>,
    stamp: u64,
}

impl<'a, L: Ledger> Model for ShardSnapshot<'a, L> {
    ghost use Rattle.std.specs.Prelude.{IsTrue};
    ghost use Rattle.ds_shard.specs.Shards.{keeps};
    ghost use Rattle.ds_engine.specs.Snapshots.{SnapshotParts};

    ghost Value = { SnapshotParts };

    ghost view = { λ s. record { shard = s.shard; stamp = s.stamp } };

    ghost invariant = { λ s. IsTrue (keeps s.shard s.stamp) };
}

impl<'a, L: Ledger> ShardSnapshot<'a, L> {
    /// The shard at a stamp up to its count; `None` exactly where its window, which is of so many stamps, doesn't reach back to it. It
    /// takes no memory.
    pub fn of(shard: &ShardTables<'a, L>, stamp: u64, window: u64) -> Option<ShardSnapshot<'a, L>>
        requires window { window ≡ shard.now.window }
        requires given { stamp ≤ shard.now.count }
        ensures kept { MatchOption result (stamp + window ≤ shard.now.count) (λ s. shard.now.count < stamp + window) }
        ensures snapshot { IfSome result (λ s. s ≡ record { shard = shard.now; stamp = stamp }) }
    {
        if shard.count() - stamp < window {
            Some(ShardSnapshot {
                shard: shard.counting_on::<L>(),
                stamp,
            })
        } else {
            None
        }
    }

    /// The shard with all entries that it has absorbed. It takes no memory.
    pub fn newest(shard: &ShardTables<'a, L>) -> ShardSnapshot<'a, L>
        requires { 1 ≤ shard.now.window }
        ensures { result ≡ record { shard = shard.now; stamp = shard.now.count } }
    {
        ShardSnapshot {
            shard: shard.counting_on::<L>(),
            stamp: shard.count(),
        }
    }

    /// The same snapshot, counted on another ledger of the store, which is cut into as many parts. It takes no memory.
    pub fn counting_on<M: Ledger>(&self) -> ShardSnapshot<'a, M>
        requires parts { M.parts ≡ L.parts }
        ensures { result ≡ self.now }
    {
        ShardSnapshot {
            shard: self.shard.counting_on::<M>(),
            stamp: self.stamp,
        }
    }

    /// How many of the shard's entries are seen. It takes no memory.
    pub fn stamp(&self) -> u64
        ensures { result ≡ self.now.stamp }
    {
        self.stamp
    }

    /// The commit of the last entry that the shard absorbed, 0 where there is none. It takes no memory.
    pub fn last(&self) -> u64
        ensures { result ≡ self.now.shard.last }
    {
        self.shard.last()
    }

    /// The entity of a key, if there is one, which shares its properties. It takes one step. A refusal means out of memory.
    pub fn entity(
        &self,
        alloc: Global,
        key: &Key,
        steps: &mut Steps<L>,
    ) -> Result<Option<Entity>, NoMemory>
        ensures found { IfOk result (λ found. found ≡ entity_of (entities_in self.now) key.now) }
        ensures steps { steps.new ≡ steps.old + 1 }
    {
        let tables = self.tables();
        copy_of(alloc, tables.entity(self.stamp, key, steps))
    }

    /// The first results of a branch by its plan, as many as the page may need.
    pub(crate) fn answer(
        &self,
        alloc: Global,
        query: &PlannedQuery<'_>,
        branch: &Branch,
        plan: &ScanPlan,
        steps: &mut Steps<L>,
    ) -> Result<RowList, NoMemory>
        requires lawful { IsLawfulBranch branch.now }
        requires definitions { query.now.defs.now ≡ self.now.shard.definitions }
        requires plan { IsPlanFor query.now.defs.now branch.now plan.now }
        ensures rows { IfOk result (λ rows. rows ≡ map (placed branch.now.columns)
            (given_in query.now.normal.now query.now.window.now branch.now self.now)) }
        ensures placed { IfOk result (λ rows. All (IsPlaced branch.now.columns) rows) }
        ensures steps { OnOk result (steps.new ≤ steps.old
            + bound_in query.now.window.now (most_of query.now.normal.now query.now.window.now) branch.now self.now) }
        ensures refused { OnErr result (steps.new ≤ steps.old + bound_in query.now.window.now None branch.now self.now) }
        ensures a_step_for_each { IfOk result (λ rows. steps.old + length rows ≤ steps.new) }
    {
        let tables = self.tables();
        let start = query.window.start.as_ref();
        let end = query.window.end.as_ref();
        let most = query.most();
        answer(
            alloc, &tables, self.stamp, branch, query.defs, plan, start, end, most, steps,
        )
    }

    /// The same results without those before the page's offset, which are counted and not kept.
    pub(crate) fn answer_behind(
        &self,
        alloc: Global,
        query: &PlannedQuery<'_>,
        branch: &Branch,
        plan: &ScanPlan,
        steps: &mut Steps<L>,
    ) -> Result<RowsBehind, NoMemory>
        requires lawful { IsLawfulBranch branch.now }
        requires definitions { query.now.defs.now ≡ self.now.shard.definitions }
        requires plan { IsPlanFor query.now.defs.now branch.now plan.now }
        ensures rows { IfOk result (IsCollected branch.now.columns query.now.window.now.offset false (map (placed branch.now.columns)
            (given_in query.now.normal.now query.now.window.now branch.now self.now))) }
        ensures steps { OnOk result (steps.new ≤ steps.old
            + bound_in query.now.window.now (most_of query.now.normal.now query.now.window.now) branch.now self.now) }
        ensures refused { OnErr result (steps.new ≤ steps.old + bound_in query.now.window.now None branch.now self.now) }
        ensures a_step_for_each { IfOk result (λ found. steps.old + found.count ≤ steps.new) }
    {
        let tables = self.tables();
        let start = query.window.start.as_ref();
        let end = query.window.end.as_ref();
        let most = query.most();
        let skip = query.window.offset;
        answer_behind(
            alloc, &tables, self.stamp, branch, query.defs, plan, start, end, most, skip, false,
            steps,
        )
    }

    /// The places of the same results.
    pub(crate) fn places(
        &self,
        alloc: Global,
        query: &PlannedQuery<'_>,
        branch: &Branch,
        plan: &ScanPlan,
        steps: &mut Steps<L>,
    ) -> Result<Vec<ByteString>, NoMemory>
        requires lawful { IsLawfulBranch branch.now }
        requires definitions { query.now.defs.now ≡ self.now.shard.definitions }
        requires plan { IsPlanFor query.now.defs.now branch.now plan.now }
        ensures places { IfOk result (λ places. ArePlaces branch.now.columns
            (given_in query.now.normal.now query.now.window.now branch.now self.now) places.items) }
        ensures steps { OnOk result (steps.new ≤ steps.old
            + bound_in query.now.window.now (most_of query.now.normal.now query.now.window.now) branch.now self.now) }
        ensures refused { OnErr result (steps.new ≤ steps.old + bound_in query.now.window.now None branch.now self.now) }
        ensures a_step_for_each { IfOk result (λ places. steps.old + length places.items ≤ steps.new) }
    {
        let tables = self.tables();
        let start = query.window.start.as_ref();
        let end = query.window.end.as_ref();
        let most = query.most();
        let found = answer_behind(
            alloc,
            &tables,
            self.stamp,
            branch,
            query.defs,
            plan,
            start,
            end,
            most,
            u32::MAX,
            true,
            steps,
        )?;
        Ok(found.places)
    }

    /// The shard, as tables.
    pub(crate) fn tables(&self) -> ShardTables<'a, L>
        ensures { result ≡ self.now.shard }
    {
        self.shard.counting_on::<L>()
    }
}
