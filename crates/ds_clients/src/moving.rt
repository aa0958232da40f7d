//! The sessions of all clients go on over another store.
ghost use Rattle.std.specs.Prelude.{◌≡◌, ◌+◌, ◌-◌, ◌≤◌, ◌++◌, [], All, IfErr, IfOk, OnErr, OnOk, map, reverse, take, vec_len};
ghost use Rattle.std.specs.Vec.{vec_capacity};
ghost use Rattle.ds_base.specs.Limits.{greatest_client};
ghost use Rattle.ds_clients.specs.Moving.{AreMoved, HaveBeenMet};
ghost use Rattle.ds_clients.specs.Runs.{IsIdle, passes_of};
ghost use Rattle.ds_store.specs.Lower.{IsNoLower};
ghost use Rattle.ds_store.specs.Passes.{HasRead};

use crate::clients::CLIENTS;
use crate::rounds::Sessions;
use ds_client::Client;
use ds_store::{Ledgers, Names, Pass, Store};
use std::sync::Wait;

impl<J: Names> Sessions<J> {
    /// A pass of the same store meets the pass of each session: its place, counts and id counter are then no lower, none of the sessions'
    /// own commits is above its place, and each id that they drew is below its counter. It takes no memory.
    pub fn met_by<R: Wait, H: Wait + Drop>(&self, rt: &R, store: &Store<J, H>, pass: &mut Pass<J>)
        ensures read { HasRead pass.old pass.new }
        ensures met { HaveBeenMet pass.new self.now }
    {
        met_by_each(rt, store, self.clients(), pass);
    }

    /// The sessions over another store: each takes the last of its passes that is left, all of which have done nothing and have seen no
    /// less than the pass that the session had, and its lines count on these ledgers of that store. Open transactions go on. The passes
    /// that they had are put behind `old`, which has room for them. A refusal means out of memory, changes neither list, and hands the
    /// sessions back.
    pub fn moved<K: Names>(
        self,
        passes: &mut Vec<Pass<K>>,
        old: &mut Vec<Pass<J>>,
        ledgers: &Ledgers<K>,
    ) -> Result<Sessions<K>, Sessions<J>>
        requires many { greatest_client + 1 ≤ vec_len passes.old }
        requires room { vec_len old.old + (greatest_client + 1) ≤ vec_capacity old.old }
        requires no_lower { All (λ p. All (λ s. IsNoLower s.pass p) self) passes.old.items }
        requires idle { All IsIdle passes.old.items }
        ensures moved { IfOk result (AreMoved self) }
        ensures taken { IfOk result (λ sessions. passes.old.items ≡ passes.new.items ++ reverse (passes_of sessions)) }
        ensures left { OnOk result (passes.new.items ≡ take (vec_len passes.old - (greatest_client + 1)) passes.old.items) }
        ensures capacity { vec_capacity passes.new ≡ vec_capacity passes.old }
        ensures space { vec_capacity old.new ≡ vec_capacity old.old }
        ensures old { OnOk result (old.new.items ≡ old.old.items ++ passes_of self) }
        ensures back { IfErr result (λ sessions. sessions ≡ self) }
        ensures kept { OnErr result ((passes.new ≡ passes.old) × (old.new ≡ old.old)) }
    {
        let Sessions { clients, alloc } = self;
        let Ok(room) = Vec::with_capacity(alloc, CLIENTS) else {
            return Err(Sessions { clients, alloc });
        };
        let clients = moved_clients(room, clients, passes, old, ledgers);
        Ok(Sessions { clients, alloc })
    }
}

/// The same of each client. It takes no memory, where there is room.
fn moved_clients<J: Names, K: Names>(
    room: Vec<Client<K>>,
    clients: Vec<Client<J>>,
    passes: &mut Vec<Pass<K>>,
    old: &mut Vec<Pass<J>>,
    ledgers: &Ledgers<K>,
) -> Vec<Client<K>>
    requires room { (room.items ≡ []) × (vec_len clients ≤ vec_capacity room) }
    requires many { vec_len clients ≤ vec_len passes.old }
    requires space { vec_len old.old + vec_len clients ≤ vec_capacity old.old }
    requires no_lower { All (λ p. All (λ s. IsNoLower s.pass p) (map (λ c. c.session) clients.items)) passes.old.items }
    requires idle { All IsIdle passes.old.items }
    ensures moved { AreMoved (map (λ c. c.session) clients.items) (map (λ c. c.session) result.items) }
    ensures taken { passes.old.items ≡ passes.new.items ++ reverse (passes_of (map (λ c. c.session) result.items)) }
    ensures capacity { vec_capacity passes.new ≡ vec_capacity passes.old }
    ensures old { old.new.items ≡ old.old.items ++ passes_of (map (λ c. c.session) clients.items) }
    ensures space { vec_capacity old.new ≡ vec_capacity old.old }
{
    let mut moved = room;
    for client in clients {
        let (client, pass) = client.moved(passes.take_last(), ledgers.again());
        moved.push_reserved(client);
        old.push_reserved(pass);
    }
    moved
}

/// The pass meets that of each client.
fn met_by_each<J: Names, R: Wait, H: Wait + Drop>(
    rt: &R,
    store: &Store<J, H>,
    clients: &[Client<J>],
    pass: &mut Pass<J>,
)
    ensures read { HasRead pass.old pass.new }
    ensures met { HaveBeenMet pass.new (map (λ c. c.session) clients.now) }
{
    for client in clients {
        let own = client.pass();
        // For the proof alone: what the pass did is behind what it shows.
        let _shown = own.shown();
        store.meet_pass(rt, pass, own);
    }
}
