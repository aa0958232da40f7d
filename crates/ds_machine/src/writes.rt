//! Puts and deletes.
ghost use Rattle.std.specs.Prelude.{◌≡◌};
ghost use Rattle.ds_log.specs.declared.Write.TheVariants as write;
ghost use Rattle.ds_machine.specs.Turns.{IsToldIn, IsWriteDue};
ghost use Rattle.ds_machine.specs.WritePlans.{SaysWrite};

use crate::due::Turn;
use crate::placing::WritePlan;
use crate::state::State;
use ds_base::{Key, TryCopy};
use ds_effects::effect::Plan;
use ds_entity::Entity;
use ds_log::Write;
use ds_reply::Body;
use std::alloc::Global;

impl State {
    /// Says that an entity is put.
    pub(crate) fn say_put(&self, alloc: Global, turn: &Turn, entity: &Entity) -> Plan
        requires { IsWriteDue self.now turn.now (write.Put entity.now) }
        ensures says { SaysWrite Body.Put self.now turn.now.session.now turn.now.client (write.Put entity.now) result.body result.effect }
        ensures told { IsToldIn self.now turn.now result }
    {
        let Ok(written) = entity.copy(alloc) else {
            return Plan::no_memory();
        };
        let Ok(key) = entity.key().copy(alloc) else {
            return Plan::no_memory();
        };
        match self.place_write(alloc, turn, Write::Put(written)) {
            Some(WritePlan { at, effect }) => Plan {
                body: Body::Put { key, at },
                effect,
            },
            None => Plan::no_memory(),
        }
    }

    /// Says that the entity of a key is deleted, if there is one.
    pub(crate) fn say_delete(&self, alloc: Global, turn: &Turn, key: &Key) -> Plan
        requires { IsWriteDue self.now turn.now (write.Delete key.now) }
        ensures says { SaysWrite Body.Delete self.now turn.now.session.now turn.now.client (write.Delete key.now)
            result.body result.effect }
        ensures told { IsToldIn self.now turn.now result }
    {
        let Ok(written) = key.copy(alloc) else {
            return Plan::no_memory();
        };
        let Ok(told) = key.copy(alloc) else {
            return Plan::no_memory();
        };
        match self.place_write(alloc, turn, Write::Delete(written)) {
            Some(WritePlan { at, effect }) => Plan {
                body: Body::Delete { key: told, at },
                effect,
            },
            None => Plan::no_memory(),
        }
    }
}
