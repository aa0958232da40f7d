//! The replies to open puts and deletes, as soon as nothing is missing.
ghost use Rattle.std.specs.Prelude.{◌≡◌, true, false, None, IfOk, IfSome};
ghost use Rattle.ds_base.specs.Keys.{root_of};
ghost use Rattle.ds_log.specs.declared.Write.TheVariants as write;
ghost use Rattle.ds_reply.specs.declared.reply.Body.TheVariants as body;
ghost use Rattle.ds_model.specs.Groups.{IsSeenPlace};
ghost use Rattle.ds_machine.specs.Missing.{IfReply, IsNext, missing_write, unless};
ghost use Rattle.ds_machine.specs.States.{IsSession};
ghost use Rattle.ds_machine.specs.Turns.{ComesTo, IsToldIn, IsTurn};
ghost use Rattle.ds_machine.specs.WritePlans.{IsWritable, SaysWrite};

use crate::due::Turn;
use crate::state::State;
use ds_base::{Key, NoMemory, TryCopy};
use ds_effects::Step;
use ds_effects::effect::{Due, Plan};
use ds_entity::Entity;
use ds_protocol::Operation;
use std::alloc::Global;

impl State {
    /// A put waits for its Issue, where its key is incomplete, and then for a Commit outside a transaction, and for a Touch inside one.
    pub(crate) fn put_due(
        &self,
        alloc: Global,
        turn: &Turn,
        entity: &Entity,
        incomplete: bool,
    ) -> Due
        requires { IsTurn self.now turn.now (Operation.Put entity.now incomplete) }
        ensures { ComesTo self.now turn.now (Operation.Put entity.now incomplete) result }
    {
        if incomplete {
            self.put_numbered_due(alloc, turn, entity)
        } else {
            self.put_complete_due(alloc, turn, entity)
        }
    }

    /// A put of a complete key.
    fn put_complete_due(&self, alloc: Global, turn: &Turn, entity: &Entity) -> Due
        requires { IsTurn self.now turn.now (Operation.Put entity.now false) }
        ensures { ComesTo self.now turn.now (Operation.Put entity.now false) result }
    {
        self.say_put_due(alloc, turn, entity)
    }

    /// A put of an incomplete key waits for its Issue. The drawn id completes the key; it is told where none is left.
    fn put_numbered_due(&self, alloc: Global, turn: &Turn, entity: &Entity) -> Due
        requires { IsTurn self.now turn.now (Operation.Put entity.now true) }
        ensures { ComesTo self.now turn.now (Operation.Put entity.now true) result }
    {
        let Some(id) = turn.gathered.first() else {
            return self.ids_due(1, turn.taken);
        };
        // the state's invariant bounds the counter
        let _ = &self.shards;
        let Ok(mut numbered) = entity.copy(alloc) else {
            return Due::Reply(Plan::no_memory());
        };
        numbered.renumber(id);
        self.say_put_due(alloc, turn, &numbered)
    }

    /// Says that an entity is put whose ids are drawn, as soon as nothing is missing for its write.
    fn say_put_due(&self, alloc: Global, turn: &Turn, entity: &Entity) -> Due
        requires place { IfSome turn.now.gathered.now.place (IsSeenPlace self.now.store.journal turn.now.session.now) }
        requires writable { IsWritable self.now turn.now.session.now (write.Put entity.now) }
        requires seen { IsSession self.now turn.now.session.now }
        ensures says { IfReply result (λ p. SaysWrite body.Put self.now turn.now.session.now turn.now.client (write.Put entity.now)
            p.body p.effect) }
        ensures told { IfReply result (IsToldIn self.now turn.now) }
        ensures next { IsNext (missing_write turn.now.session.now turn.now.gathered.now (root_of entity.now.key) turn.now.taken) result }
    {
        match write_missing(alloc, turn, entity.key()) {
            Ok(Some(step)) => Due::Waits(step),
            Ok(None) => Due::Reply(self.say_put(alloc, turn, entity)),
            Err(_) => Due::Reply(Plan::no_memory()),
        }
    }

    /// A delete waits for a Commit outside a transaction, and for a Touch inside one.
    #[tactic(auto, using(crate::proofs::PutPlans::delete_due))]
    pub(crate) fn delete_due(&self, alloc: Global, turn: &Turn, key: &Key) -> Due
        requires { IsTurn self.now turn.now (Operation.Delete key.now) }
        ensures { ComesTo self.now turn.now (Operation.Delete key.now) result }
    {
        match write_missing(alloc, turn, key) {
            Ok(Some(step)) => Due::Waits(step),
            Ok(None) => Due::Reply(self.say_delete(alloc, turn, key)),
            Err(_) => Due::Reply(Plan::no_memory()),
        }
    }
}

/// The step that is missing for the write of a key: outside a transaction a Commit, and inside one a Touch, unless its group is touched. A
/// refusal means out of memory.
fn write_missing(alloc: Global, turn: &Turn, key: &Key) -> Result<Option<Step>, NoMemory>
    ensures { IfOk result (λ o. o ≡ missing_write turn.now.session.now turn.now.gathered.now (root_of key.now) turn.now.taken) }
{
    if !turn.session.in_transaction() {
        return Ok(unless(turn.taken.is_commit(), Step::Commit));
    }
    let group = key.root(alloc)?;
    let placed = turn.gathered.place().is_some() || turn.session.touch_place(&group).is_some();
    Ok(unless(placed, Step::Touch))
}

/// The step, unless nothing is missing.
fn unless(done: bool, step: Step) -> Option<Step>
    ensures { result ≡ unless done step }
{
    if done { None } else { Some(step) }
}
