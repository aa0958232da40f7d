//! What stays the same over the rounds of a run, and what reading and running one comes to.
ghost use Rattle.std.specs.Prelude.{◌≡◌};
ghost use Rattle.ds_serving.specs.Rounds.{status_of};

use ds_indexdef::Defs;
use ds_rounds::RoundRefused;
use ds_store::{Names, Store};
use ds_words::Status;
use std::marker::Model;
use std::sync::Wait;

/// What stays the same over the rounds of a run: its store and that one's definitions, and the gate that is called around each answer.
/// Contracts see the setting of the run.
#[derive(Drop)]
pub struct Serving<'a, J: Names, Rt, H: Wait + Drop, G> {
    pub(crate) rt: &'a Rt,
    pub(crate) store: &'a Store<J, H>,
    pub(crate) defs: &'a Defs,
    pub(crate) gate: &'a G,
}

impl<'a, J: Names, Rt, H: Wait + Drop, G> Model for Serving<'a, J, Rt, H, G> {
    ghost use Rattle.std.specs.Prelude.{◌≡◌};
    ghost use Rattle.ds_serving.specs.declared.settings.Setting.{Setting};

    ghost Value = { Setting };

    ghost view = { λ s. record { shards = s.store.now.shards; window = J.window; defs = J.definitions } };

    ghost invariant = { λ s. s.defs.now ≡ J.definitions };
}

/// What reading and running the next round comes to.
#[derive(Drop)]
pub enum NextRound {
    /// A round was read and run, and its replies stand in the sessions' texts.
    Ran,
    /// No round was run, and none is run further: the input has ended, or no further round was read, or there was no memory to run it.
    Ended(Status),
}

impl<'a, J: Names, Rt, H: Wait + Drop, G> Serving<'a, J, Rt, H, G> {
    /// The store.
    pub fn store(&self) -> &'a Store<J, H>
        ensures { result.now.shards ≡ self.now.shards }
    {
        self.store
    }

    /// The runtime, of which contracts see nothing.
    pub fn rt(&self) -> &'a Rt {
        self.rt
    }

    /// A run over a store, whose definitions these are.
    pub fn new(
        rt: &'a Rt,
        store: &'a Store<J, H>,
        defs: &'a Defs,
        gate: &'a G,
    ) -> Serving<'a, J, Rt, H, G>
        requires { defs.now ≡ J.definitions }
        ensures { result ≡ record { shards = store.now.shards; window = J.window; defs = J.definitions } }
    {
        Serving {
            rt,
            store,
            defs,
            gate,
        }
    }
}

/// What a round that was refused ends a run with.
pub(crate) fn status_of(refused: RoundRefused) -> Status
    ensures { result ≡ status_of refused }
{
    match refused {
        RoundRefused::ReadFault => Status::ReadFault,
        RoundRefused::InputLimit => Status::InputLimit,
        RoundRefused::NoMemory => Status::NoMemory,
    }
}
