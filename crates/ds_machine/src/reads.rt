//! Reads of one entity, and how far the journal was looked at.
ghost use Rattle.std.specs.Prelude.{◌≡◌, OnOk};
ghost use Rattle.ds_base.specs.Keys.{root_of};
ghost use Rattle.ds_request.specs.declared.call.Call.{Call};
ghost use Rattle.ds_machine.specs.Reads.{IsPulled};
ghost use Rattle.ds_machine.specs.Told.{IsGroupRead};
ghost use Rattle.ds_machine.specs.Turns.{IsDueIn, IsToldIn};

use crate::due::Turn;
use crate::state::State;
use ds_base::{Key, NoMemory, copy_of};
use ds_effects::effect::{Effect, Plan};
use ds_protocol::GroupRead;
use ds_reply::Body;
use std::alloc::Global;

impl State {
    /// The entity of a key is told, whose shard has applied its entries up to the place.
    #[tactic(auto, using(crate::proofs::ReadPlans::get_due))]
    pub(crate) fn get_reached(&self, alloc: Global, turn: &Turn, key: &Key, read: GroupRead) -> Plan
        requires { IsGroupRead self.now turn.now.session.now turn.now.gathered.now (root_of key.now) read }
        ensures plan { IsDueIn self.now turn.now (Call.Get key.now) result }
        ensures told { IsToldIn self.now turn.now result }
    {
        let Ok(visible) = self.applied.visible(alloc, read.shard, read.entries) else {
            return Plan::no_memory();
        };
        let Ok(entity) = copy_of(alloc, visible.get(key)) else {
            return Plan::no_memory();
        };
        Plan {
            body: Body::Get {
                entity,
                place: read.place,
            },
            effect: Effect::ReadGroup(read),
        }
    }

    /// The shards look at each commit of the journal. A refusal means out of memory.
    pub fn pull(&mut self, alloc: Global) -> Result<(), NoMemory>
        ensures pulled { OnOk result (IsPulled self.new) }
        ensures store { self.new.store ≡ self.old.store }
        ensures counts { self.new.applied.counts ≡ self.old.applied.counts }
    {
        self.applied.pull(alloc, self.book.journal())
    }
}
