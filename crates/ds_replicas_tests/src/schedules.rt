//! Messages in the orders that seeds give: some come again, some never, and members restart between them.
use crate::play::{deliver, holds, propose, restart, sent};
use ds_base::NoMemory;
use ds_paxos::World;
use std::alloc::Global;
use std::test::Fail;

const SEEDS: [u64; 24] = [
    1, 2, 3, 5, 8, 13, 21, 34, 55, 89, 144, 233, 377, 610, 987, 1597, 2584, 4181, 6765, 10946,
    17711, 28657, 46368, 75025,
];

/// The number behind this one, by a linear rule whose high bits are as good as drawn.
fn draw(seed: u64) -> u64 {
    seed.wrapping_mul(6_364_136_223_846_793_005)
        .wrapping_add(1_442_695_040_888_963_407)
}

/// Whether all that members hold is this entry.
fn hold_alone(world: &World, entry: &str) -> bool {
    for member in 0u32..3 {
        if let Some(held) = world.held(member, 0, 1)
            && held.text() != entry
        {
            return false;
        }
    }
    true
}

/// Whether all that members hold is one entry of the two.
fn agree(world: &World) -> bool {
    hold_alone(world, "a") || hold_alone(world, "b")
}

/// Lets messages come as the seed says, and now and then a member restart. Gives the next seed.
fn play(alloc: Global, world: &mut World, seed: u64, events: u32) -> u64 {
    let mut seed = seed;
    for _ in 0..events {
        seed = draw(seed);
        let drawn = seed >> 33;
        if drawn % 23 == 0 {
            restart(alloc, world, (drawn % 3) as u32);
        } else {
            let count = sent(alloc, world);
            if count > 0 {
                deliver(alloc, world, drawn % count);
            }
        }
    }
    seed
}

/// Whether one proposal, whose nine messages come in some order, lost and repeated, ends with its entry where it ends.
fn one_keeps(alloc: Global, seed: u64) -> Result<bool, NoMemory> {
    let mut world = World::make(alloc, 3)?;
    let began = propose(alloc, &mut world, 0, 1, "a")?;
    play(alloc, &mut world, seed, 60);
    Ok(began && hold_alone(&world, "a"))
}

/// Whether two proposals that run against one another, again and again, end with one entry.
fn two_agree(alloc: Global, seed: u64) -> Result<bool, NoMemory> {
    let mut world = World::make(alloc, 3)?;
    let mut seed = seed;
    for _ in 0u32..4 {
        if !propose(alloc, &mut world, 0, 1, "a")? || !propose(alloc, &mut world, 2, 1, "b")? {
            return Ok(false);
        }
        seed = play(alloc, &mut world, seed, 80);
        if !agree(&world) {
            return Ok(false);
        }
    }
    Ok(true)
}

/// Whether every seed keeps to it, and at least one leads to an entry that all three hold.
fn all_keep(alloc: Global) -> Result<bool, NoMemory> {
    for seed in &SEEDS {
        if !one_keeps(alloc, *seed)? || !two_agree(alloc, *seed)? {
            return Ok(false);
        }
    }
    Ok(true)
}

/// How many of the seeds lead one proposal to an entry that its proposer holds.
fn chosen(alloc: Global) -> Result<u32, NoMemory> {
    let mut count = 0u32;
    for seed in &SEEDS {
        let mut world = World::make(alloc, 3)?;
        let began = propose(alloc, &mut world, 0, 1, "a")?;
        play(alloc, &mut world, *seed, 60);
        if began && holds(&world, 0, "a") && count < 24 {
            count += 1;
        }
    }
    Ok(count)
}

#[test]
fn schedules_agree(rt: HostRuntime) -> Result<(), Fail> {
    assert!(rt; all_keep(rt.alloc())?);
    // The seeds aren't idle: most of them lead to a choice.
    assert!(rt; chosen(rt.alloc())? > 6);
    Ok(())
}
