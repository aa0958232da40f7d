//! Events that happen in a world of three members, at position 1 of log 0.
use ds_base::{NoMemory, TextString};
use ds_paxos::{Event, StepRefused, World};
use std::alloc::Global;

/// Whether a member could propose an entry.
pub(crate) fn propose(
    alloc: Global,
    world: &mut World,
    member: u32,
    position: u64,
    entry: &str,
) -> Result<bool, NoMemory> {
    let event = Event::Propose {
        member,
        log: 0,
        position,
        entry: TextString::of(alloc, entry)?,
    };
    if !event.is_well_formed() {
        return Ok(false);
    }
    Ok(world.step(alloc, event).is_ok())
}

/// Whether there was such a message, which has come then.
pub(crate) fn deliver(alloc: Global, world: &mut World, message: u64) -> bool {
    world.step(alloc, Event::Deliver { message }).is_ok()
}

/// Whether all these messages have come, in turn.
pub(crate) fn deliver_all(alloc: Global, world: &mut World, messages: &[u64]) -> bool {
    for message in messages {
        if !deliver(alloc, world, *message) {
            return false;
        }
    }
    true
}

/// Lets each message come once, in the order in which they were sent, as long as there are any, and at most so many.
pub(crate) fn deliver_up_to(alloc: Global, world: &mut World, most: u64) {
    for message in 0..most {
        if !deliver(alloc, world, message) {
            return;
        }
    }
}

/// Whether there was such a member, which has restarted then.
pub(crate) fn restart(alloc: Global, world: &mut World, member: u32) -> bool {
    world.step(alloc, Event::Restart { member }).is_ok()
}

/// How many messages were sent.
pub(crate) fn sent(alloc: Global, world: &mut World) -> u64 {
    match world.step(alloc, Event::Deliver { message: u64::MAX }) {
        Err(StepRefused::NoMessage { sent }) => sent,
        _ => 0,
    }
}

/// Whether a member holds this entry at position 1.
pub(crate) fn holds(world: &World, member: u32, entry: &str) -> bool {
    match world.held(member, 0, 1) {
        Some(held) => held.text() == entry,
        None => false,
    }
}
