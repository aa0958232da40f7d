//! Queries and statements.
ghost use Rattle.std.specs.Prelude.{◌≡◌, None, map, IfOk};
ghost use Rattle.ds_query.specs.Lawful.{IsLawfulNormal};
ghost use Rattle.ds_request.specs.declared.call.Call.{Call};
ghost use Rattle.ds_applied.specs.AppliedLists.{AreCounts, shard_views};
ghost use Rattle.ds_entity.specs.EntityOrder.{sorted_by_key};
ghost use Rattle.ds_protocol.specs.Finishing.{AreByKey};
ghost use Rattle.ds_protocol.specs.Quiet.{IsQuiet};
ghost use Rattle.ds_protocol.specs.Searches.{IsSearchOf};
ghost use Rattle.ds_machine.specs.Queries.{IsGroupSearch, IsPrepared, told_over};
ghost use Rattle.ds_machine.specs.Told.{IsTouchedPlace};
ghost use Rattle.ds_machine.specs.Turns.{IsDueIn, IsToldIn, IsTurn};

use crate::due::Turn;
use crate::state::State;
use ds_base::{Counts, NoMemory, TryCopy};
use ds_effects::effect::{Effect, Plan};
use ds_entity::{Entity, Seen};
use ds_plain::answer_of;
use ds_protocol::{GroupRead, Operation, Ready, Search, finish};
use ds_reply::Body;
use std::alloc::Global;

impl State {
    /// What a search finds is told, whose group's shard has applied its entries up to the place.
    #[tactic(auto, using(crate::proofs::QueryPlans::view_by_key))]
    pub(crate) fn find_in_group(
        &self,
        alloc: Global,
        turn: &Turn,
        search: &Search,
        ready: &Ready,
        read: GroupRead,
    ) -> Plan
        requires prepared { IsPrepared self.now turn.now.session.now search.now ready.now }
        requires reached { IsGroupSearch self.now turn.now.session.now search.now read }
        requires place { IsTouchedPlace turn.now.session.now turn.now.gathered.now read.place }
        ensures plan { (call : Call) → IsSearchOf call search.now → IsDueIn self.now turn.now call result }
        ensures told { IsToldIn self.now turn.now result }
    {
        let Ok(visible) = self.applied.visible(alloc, read.shard, read.entries) else {
            return Plan::no_memory();
        };
        let Ok(entities) = visible.entities(alloc) else {
            return Plan::no_memory();
        };
        let seen = Seen::Place(read.place);
        match find(alloc, search, ready, entities.as_slice(), seen) {
            Ok(body) => Plan {
                body,
                effect: Effect::ReadGroup(read),
            },
            Err(_) => Plan::no_memory(),
        }
    }

    /// What a search without an ancestor finds is told, at the counts that were viewed.
    pub(crate) fn find_in_all(
        &self,
        alloc: Global,
        turn: &Turn,
        search: &Search,
        ready: &Ready,
    ) -> Plan
        requires turn { IsTurn self.now turn.now (Operation.Find search.now) }
        requires prepared { IsPrepared self.now turn.now.session.now search.now ready.now }
        requires group { search.now.query.ancestor ≡ None }
        ensures plan { (call : Call) → IsSearchOf call search.now → IsDueIn self.now turn.now call result }
        ensures told { IsToldIn self.now turn.now result }
    {
        // the state's invariant: its shards follow the journal
        let _ = &self.shards;
        let Some(seen) = self.counts_viewed(alloc, turn) else {
            return Plan::no_memory();
        };
        let Ok(counts) = seen.counts.copy(alloc) else {
            return Plan::no_memory();
        };
        match self.find_at_counts(alloc, search, ready, counts) {
            Ok(body) => Plan {
                body,
                effect: Effect::SeeCounts(seen),
            },
            Err(_) => Plan::no_memory(),
        }
    }

    /// What the reply says of the results among the entities of all shards at these counts. A refusal means out of memory.
    fn find_at_counts(
        &self,
        alloc: Global,
        search: &Search,
        ready: &Ready,
        counts: Counts,
    ) -> Result<Body, NoMemory>
        requires lawful { IsLawfulNormal ready.now.normal }
        requires counts { AreCounts self.now.applied.lists counts }
        ensures found { IfOk result (λ b. b ≡ told_over search.now ready.now.normal ready.now.window
            (sorted_by_key (shard_views self.now.applied.lists counts)) (Seen.Counts counts)) }
        ensures quiet { IfOk result IsQuiet }
    {
        let visible = self.applied.all_visible(alloc, counts.as_slice())?;
        let entities = visible.entities(alloc)?;
        let seen = Seen::Counts(counts);
        find(alloc, search, ready, entities.as_slice(), seen)
    }
}

/// What the reply says of the results of a prepared search over entities, which stand by key. A refusal means out of memory.
fn find(
    alloc: Global,
    search: &Search,
    ready: &Ready,
    entities: &[&Entity],
    seen: Seen,
) -> Result<Body, NoMemory>
    requires lawful { IsLawfulNormal ready.now.normal }
    requires by_key { AreByKey (map (λ e. e.now) entities.now) }
    ensures found { IfOk result (λ b. b ≡ told_over search.now ready.now.normal ready.now.window (map (λ e. e.now) entities.now) seen) }
    ensures quiet { IfOk result IsQuiet }
{
    let page = answer_of(alloc, entities, &ready.normal, &ready.window)?;
    finish(
        alloc,
        search,
        &ready.normal,
        entities,
        page.rows,
        page.next.as_ref(),
        seen,
    )
}
