//! Proposers that overtake one another, and members that restart.
use crate::play::{deliver_all, holds, propose, restart, sent};
use ds_base::NoMemory;
use ds_paxos::World;
use std::alloc::Global;
use std::test::Fail;

/// One ballot of a duel: a member proposes its own entry and has the promises of members 0 and 1, so that all are asked to accept; only
/// then the two are reached by what the last proposer asked. Gives the number of the first message that asks to accept.
fn overtake(
    alloc: Global,
    world: &mut World,
    member: u32,
    last: u64,
) -> Result<Option<u64>, NoMemory> {
    let first = sent(alloc, world);
    if first > 1_000_000 || last > 1_000_000 {
        return Ok(None);
    }
    let entry = if member == 0 { "zero" } else { "one" };
    if !propose(alloc, world, member, 1, entry)? {
        return Ok(None);
    }
    let promised = deliver_all(alloc, world, &[first, first + 1, first + 3, first + 4]);
    if !promised || !deliver_all(alloc, world, &[last, last + 1]) {
        return Ok(None);
    }
    Ok(Some(first + 5))
}

/// Whether two members that duel for fifty ballots have nothing chosen so long, and then agree on the last entry.
fn duel_ends(alloc: Global) -> Result<bool, NoMemory> {
    let mut world = World::make(alloc, 3)?;
    let mut last: u64 = 0;
    for ballot in 0u32..50 {
        let Some(asked) = overtake(alloc, &mut world, ballot % 2, last)? else {
            return Ok(false);
        };
        last = asked;
    }
    let open = !holds(&world, 0, "one") && !holds(&world, 1, "one") && !holds(&world, 0, "zero");
    let next = sent(alloc, &mut world);
    Ok(open && last_ballot_ends(alloc, &mut world, last, next))
}

/// Whether the last proposer's entry is chosen, once what it asked reaches members 0 and 1, and all three learn it.
fn last_ballot_ends(alloc: Global, world: &mut World, last: u64, next: u64) -> bool {
    if last > 1_000_000 || next > 1_000_000 {
        return false;
    }
    deliver_all(
        alloc,
        world,
        &[last, last + 1, next, next + 1, next + 2, next + 3, next + 4],
    ) && holds(world, 0, "one")
        && holds(world, 1, "one")
        && holds(world, 2, "one")
}

/// Whether a member that restarts between its promise and the request to accept still accepts, and keeps to its promise; and whether a
/// proposer that restarts has dropped its attempt.
fn restart_keeps(alloc: Global) -> Result<bool, NoMemory> {
    let mut world = World::make(alloc, 3)?;
    let began = propose(alloc, &mut world, 0, 1, "a")?
        && deliver_all(alloc, &mut world, &[0, 1, 3, 4]);
    let accepted = restart(alloc, &mut world, 1) && deliver_all(alloc, &mut world, &[6, 8, 7, 9]);
    if !began || !accepted || !holds(&world, 0, "a") {
        return Ok(false);
    }
    // Its second ballot is above the first, whose messages find no attempt any more.
    let again = propose(alloc, &mut world, 0, 1, "b")? && restart(alloc, &mut world, 0);
    let before = sent(alloc, &mut world);
    let late = deliver_all(alloc, &mut world, &[3, 4, 8, 9]);
    Ok(again && late && sent(alloc, &mut world) == before)
}

#[test]
fn duels_end_and_restarts_keep(rt: HostRuntime) -> Result<(), Fail> {
    assert!(rt; duel_ends(rt.alloc())?);
    assert!(rt; restart_keeps(rt.alloc())?);
    Ok(())
}
