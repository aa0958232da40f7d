//! A run of the machine over single events.
ghost use Rattle.std.specs.Prelude.{◌≤◌, All, IfOk};
ghost use Rattle.ds_base.specs.Limits.{most_shards};
ghost use Rattle.ds_log.specs.Conflicts.{IsSerial};
ghost use Rattle.ds_core.specs.Courses.{HasHappened};
ghost use Rattle.ds_core.specs.Machines.{IsLawfulEvent};
ghost use Rattle.ds_core.specs.Rounds.{IsLegalRound};

use crate::event::{Events, Transcript};
use crate::machine::Machine;
use ds_base::NoMemory;
use ds_indexdef::Defs;
use std::alloc::Global;

/// Runs the machine over these events, one after another, and then takes the missing steps of the requests that are still open, client by
/// client, and before each View the Apply steps that it waits for. What was asked and said is one legal round, whose commits are one serial
/// history. `Err` means out of memory.
pub fn run(alloc: Global, events: Events, shards: u32, defs: Defs) -> Result<Transcript, NoMemory>
    requires least { 1 ≤ shards }
    requires most { shards ≤ most_shards }
    requires lawful { All (IsLawfulEvent shards) events }
    ensures legal { IfOk result (IsLegalRound defs shards) }
    ensures happened { IfOk result (HasHappened events shards) }
    ensures serial { IfOk result (λ t. IsSerial t.journal) }
{
    let mut machine = Machine::make(alloc, shards, defs)?;
    for event in events.into_vec() {
        machine.event(alloc, event)?;
    }
    machine.finish(alloc)?;
    Ok(machine.end())
}
