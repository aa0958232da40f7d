//! What a run begins with.
ghost use Rattle.std.specs.Prelude.{◌≡◌, ◌+◌, ◌≤◌, All, IfOk, length, vec_len};
ghost use Rattle.std.specs.Vec.{vec_capacity};
ghost use Rattle.ds_base.specs.Limits.{greatest_client};
ghost use Rattle.ds_rounds.specs.Reading.{first_reader};
ghost use Rattle.ds_clients.specs.Clients.{AreNew};
ghost use Rattle.ds_clients.specs.Runs.{IsIdle};
ghost use Rattle.ds_store.specs.Passes.{nothing_seen};

use ds_base::NoMemory;
use ds_clients::Sessions;
use ds_rounds::Rounds;
use ds_store::{Ledgers, Names, Pass, Passes};
use std::alloc::Global;

/// The sessions of a run, the passes of its appliers, and the reader of its input.
#[derive(Drop)]
pub struct Begun<J: Names> {
    pub sessions: Sessions<J>,
    /// The passes of the appliers, with room for those of the sessions.
    pub passes: Vec<Pass<J>>,
    pub rounds: Rounds,
}

/// What a run begins with, of a store with so many shards, whose passes and ledgers these are: the clients have the last sixteen passes,
/// and appliers the others. A refusal means out of memory.
pub fn begin<J: Names>(
    alloc: Global,
    shards: u32,
    passes: Passes<J>,
    ledgers: &Ledgers<J>,
) -> Result<Begun<J>, NoMemory>
    requires enough { greatest_client + 1 ≤ length passes }
    requires new { All (λ p. p ≡ nothing_seen shards) passes }
    ensures rounds { IfOk result (λ b. b.rounds ≡ first_reader) }
    ensures sessions { IfOk result (λ b. AreNew shards b.sessions) }
    ensures appliers { IfOk result (λ b. All IsIdle b.passes.items) }
    ensures all { IfOk result (λ b. vec_len b.passes + (greatest_client + 1) ≡ length passes) }
    ensures room { IfOk result (λ b. length passes ≤ vec_capacity b.passes) }
{
    let mut passes = passes.into_vec();
    let rounds = Rounds::make(alloc)?;
    let sessions = Sessions::make(alloc, shards, &mut passes, ledgers)?;
    Ok(Begun {
        sessions,
        passes,
        rounds,
    })
}
