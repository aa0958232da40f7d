//! The replies to open gets and searches, as soon as nothing is missing.
ghost use Rattle.std.specs.Prelude.{◌≡◌, None, Some, IfOk, IfSome};
ghost use Rattle.std.specs.Option.{option_map};
ghost use Rattle.ds_base.specs.Keys.{root_of};
ghost use Rattle.ds_log.specs.Shards.{shard_of};
ghost use Rattle.ds_model.specs.Groups.{IsSeenPlace, ReadsAt, group_refusal};
ghost use Rattle.ds_machine.specs.Missing.{missing_read, place_read, shown};
ghost use Rattle.ds_machine.specs.Opening.{IsReadyFor};
ghost use Rattle.ds_machine.specs.Queries.{IsPrepared};
ghost use Rattle.ds_machine.specs.ReadDues.{IsNextRead, IsReadDue};
ghost use Rattle.ds_machine.specs.Reads.{IsPulled};
ghost use Rattle.ds_machine.specs.States.{IsSession};
ghost use Rattle.ds_machine.specs.Told.{IsTouchedPlace};
ghost use Rattle.ds_machine.specs.Turns.{ComesTo, IsTurn};

use crate::due::Turn;
use crate::state::State;
use ds_base::{Key, NoMemory, TryCopy};
use ds_effects::Step;
use ds_effects::effect::{Due, Effect, Plan};
use ds_log::shard_of;
use ds_protocol::{CountsSeen, GroupRead, Operation, Ready, Search, group_of};
use std::alloc::Global;

/// What the read of a group comes to at a step.
#[derive(Drop)]
pub(crate) enum ReadDue {
    /// Nothing is missing.
    Read(GroupRead),
    /// This step is missing.
    Waits(Step),
}

impl State {
    /// A get waits for a Touch, unless its group is touched, and for a View of its shard that covers its place.
    pub(crate) fn get_due(&self, alloc: Global, turn: &Turn, key: &Key) -> Due
        requires { IsTurn self.now turn.now (Operation.Get key.now) }
        ensures { ComesTo self.now turn.now (Operation.Get key.now) result }
    {
        let Ok(group) = key.root(alloc) else {
            return Due::Reply(Plan::no_memory());
        };
        match self.group_due(alloc, turn, group) {
            Ok(ReadDue::Read(read)) => Due::Reply(self.get_reached(alloc, turn, key, read)),
            Ok(ReadDue::Waits(step)) => Due::Waits(step),
            Err(_) => Due::Reply(Plan::no_memory()),
        }
    }

    /// The read of a group, as soon as it misses neither a Touch, unless the group is touched, nor a View of its shard that covers the
    /// place. An error means out of memory.
    fn group_due(&self, alloc: Global, turn: &Turn, group: Key) -> Result<ReadDue, NoMemory>
        requires pulled { IsPulled self.now }
        requires allowed { group_refusal turn.now.session.now.transaction (Some group) ≡ None }
        requires seen { IsSession self.now turn.now.session.now }
        requires place { IfSome turn.now.gathered.now.place (IsSeenPlace self.now.store.journal turn.now.session.now) }
        ensures read { IfOk result (IsReadDue self.now turn.now.session.now turn.now.gathered.now group) }
        ensures next { IfOk result (IsNextRead (missing_read (shown self.now) (shard_of group self.now.store.shards)
            (place_read turn.now.session.now turn.now.gathered.now group) turn.now.taken)) }
    {
        let Some(place) = self.place_due(turn, &group) else {
            return Ok(ReadDue::Waits(Step::Touch));
        };
        let shard = shard_of(alloc, &group, self.applied.shards())?;
        let entries = self.applied.entries_up_to(shard, place);
        if self.applied.count(shard) < entries {
            return Ok(ReadDue::Waits(Step::Apply { shard }));
        }
        if !turn.taken.is_view(shard) {
            return Ok(ReadDue::Waits(Step::View { shard }));
        }
        Ok(ReadDue::Read(GroupRead {
            group,
            place,
            shard,
            entries,
        }))
    }

    /// Where a group stands that is read or written, as soon as that is known: at its touch place, or at that of the request's Touch.
    #[tactic(auto, using(crate::proofs::Citing::place_laws))]
    pub(crate) fn place_due(&self, turn: &Turn, group: &Key) -> Option<u64>
        requires seen { IsSession self.now turn.now.session.now }
        requires place { IfSome turn.now.gathered.now.place (IsSeenPlace self.now.store.journal turn.now.session.now) }
        ensures value { result ≡ place_read turn.now.session.now turn.now.gathered.now group.now }
        ensures stands { IfSome result (λ m. ReadsAt self.now.store.journal turn.now.session.now group.now m) }
        ensures told { IfSome result (IsTouchedPlace turn.now.session.now turn.now.gathered.now) }
    {
        match turn.session.touch_place(group) {
            Some(place) => Some(place),
            None => turn.gathered.place(),
        }
    }

    /// What a search finds, which was made ready at its opening.
    pub(crate) fn found_due(
        &self,
        alloc: Global,
        turn: &Turn,
        search: &Search,
        ready: &Option<Ready>,
    ) -> Due
        requires turn { IsTurn self.now turn.now (Operation.Find search.now) }
        requires ready { IsReadyFor self.now turn.now.session.now (Operation.Find search.now) ready.now }
        ensures { ComesTo self.now turn.now (Operation.Find search.now) result }
    {
        let Some(ready) = ready else {
            unreachable!();
        };
        match group_of(alloc, search) {
            Ok(Some(group)) => self.in_group_due(alloc, turn, search, ready, group),
            Ok(None) => self.in_all_due(alloc, turn, search, ready),
            Err(_) => Due::Reply(Plan::no_memory()),
        }
    }

    /// A search with an ancestor waits for a Touch, unless its group is touched, and for a View of its shard that covers its place.
    fn in_group_due(
        &self,
        alloc: Global,
        turn: &Turn,
        search: &Search,
        ready: &Ready,
        group: Key,
    ) -> Due
        requires turn { IsTurn self.now turn.now (Operation.Find search.now) }
        requires ready { IsReadyFor self.now turn.now.session.now (Operation.Find search.now) (Some ready.now) }
        requires group { Some group ≡ option_map root_of search.now.query.ancestor }
        ensures { ComesTo self.now turn.now (Operation.Find search.now) result }
    {
        match self.group_due(alloc, turn, group) {
            Ok(ReadDue::Read(read)) => {
                Due::Reply(self.find_in_group(alloc, turn, search, ready, read))
            }
            Ok(ReadDue::Waits(step)) => Due::Waits(step),
            Err(_) => Due::Reply(Plan::no_memory()),
        }
    }

    /// A search without an ancestor waits for a View of each shard, and is told at the viewed counts.
    fn in_all_due(&self, alloc: Global, turn: &Turn, search: &Search, ready: &Ready) -> Due
        requires turn { IsTurn self.now turn.now (Operation.Find search.now) }
        requires prepared { IsPrepared self.now turn.now.session.now search.now ready.now }
        requires group { search.now.query.ancestor ≡ None }
        ensures { ComesTo self.now turn.now (Operation.Find search.now) result }
    {
        match turn.gathered.unviewed() {
            Some(shard) => {
                // the state's invariant bounds the shards, and so the number
                let _ = &self.shards;
                Due::Waits(Step::View {
                    shard: shard as u32,
                })
            }
            None => Due::Reply(self.find_in_all(alloc, turn, search, ready)),
        }
    }
}
