//! The lines of a script, event after event.
ghost use Rattle.std.specs.Prelude.{◌≡◌, ◌<◌, ◌≤◌, length, Ok, Some, IfErr, IfOk, OnOk};
ghost use Rattle.ds_replication.specs.Replicating.{most_script_bytes};
ghost use Rattle.ds_replication.specs.Scripts.{IsRefused, IsStopped, next_world, run_script};

use crate::line::{cut_at, event_of};
use crate::status::ReplicaStatus;
use ds_paxos::{StepRefused, World};
use std::alloc::Global;

/// Runs a script with so many members; or tells why it can't go on.
pub(crate) fn run_script(alloc: Global, members: u32, text: &[u8]) -> Result<World, ReplicaStatus>
    requires least { 1 ≤ members }
    requires most { members ≤ 9 }
    requires short { length text.now < most_script_bytes }
    ensures ran { IfOk result (λ w. run_script members text.now ≡ Ok w) }
    ensures refused { IfErr result (IsRefused (run_script members text.now)) }
{
    let mut world = World::make(alloc, members)?;
    let mut rest = text;
    let mut number: u64 = 1;
    while !rest.is_empty() {
        let (line, more) = cut_at(rest, b'\n');
        match take_step(alloc, &mut world, line, number) {
            Ok(()) => {}
            Err(status) => return Err(status),
        }
        rest = more;
        number += 1;
    }
    Ok(world)
}

/// The event of a line happens; or tells why it doesn't.
fn take_step(
    alloc: Global,
    world: &mut World,
    line: &[u8],
    number: u64,
) -> Result<(), ReplicaStatus>
    ensures taken { OnOk result (next_world world.old line.now ≡ Some world.new) }
    ensures stopped { IfErr result (IsStopped (next_world world.old line.now) number) }
{
    let Some(event) = event_of(alloc, line)? else {
        return Err(ReplicaStatus::Script { line: number });
    };
    match world.step(alloc, event) {
        Ok(()) => Ok(()),
        Err(StepRefused::NoMemory) => Err(ReplicaStatus::NoMemory),
        Err(StepRefused::NoMember) => Err(ReplicaStatus::Script { line: number }),
        Err(StepRefused::NoMessage { sent: _ }) => Err(ReplicaStatus::Script { line: number }),
        Err(StepRefused::NoBallot) => Err(ReplicaStatus::Script { line: number }),
    }
}
