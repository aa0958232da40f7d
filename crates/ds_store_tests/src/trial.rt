//! How a trial gets a store, and how that ends.
ghost use Rattle.std.specs.Prelude.{◌≡◌, ◌≤◌, length};
ghost use Rattle.ds_base.specs.Limits.{most_shards};
ghost use Rattle.ds_store_hubs.specs.Opening.{AreBegun, AreNamesOf};

use crate::crowd::crowd;
use crate::race::race;
use crate::told::{Told, amiss};
use crate::wide::at_once;
use ds_base::NoMemory;
use ds_indexdef::Defs;
use ds_store::{Ledgers, Made, Names, Opened, Pass, Passes, Store, make, open};
use std::alloc::Global;
use std::marker::Brand;
use std::sync::Wait;
use std::thread::Threads;

/// What is tried.
#[derive(Clone, Copy)]
pub(crate) enum Trial {
    /// All shards are searched at once.
    AtOnce,
    /// Two callers commit at once.
    Race,
    /// Many callers call at random, drawn from this seed.
    Crowd(u64),
}

/// How many shards and passes a store has, and how many stamps each shard keeps.
#[derive(Clone, Copy, Debug)]
pub(crate) struct Shape {
    pub(crate) shards: u32,
    pub(crate) passes: u32,
    pub(crate) window: u64,
}

/// What is amiss with a trial on a store of its own; an empty text if nothing is.
pub(crate) fn amiss_with<R: Threads + Wait + Sync>(
    rt: &R,
    alloc: Global,
    trial: Trial,
    shape: Shape,
) -> Result<&'static str, NoMemory>
    requires shards { (1 ≤ shape.shards) × (shape.shards ≤ most_shards) }
    requires passes { (1 ≤ shape.passes) × (shape.passes ≤ 26) }
    requires window { (1 ≤ shape.window) × (shape.window ≤ 65536) }
{
    let defs = Defs::new(alloc);
    let opened = open(
        rt,
        rt,
        alloc,
        &defs,
        shape.shards,
        shape.passes,
        shape.window,
    )?;
    ended::<Brand, R, &R>(rt, alloc, trial, opened)
}

/// The same for a store whose names are known.
fn ended<J: Names + Send + Sync, R: Threads + Wait + Sync, H: Wait + Drop + Send>(
    rt: &R,
    alloc: Global,
    trial: Trial,
    opened: Opened<H>,
) -> Result<&'static str, NoMemory>
    requires names { AreNamesOf opened J.journal J.shards J.commits J.ids J.definitions J.window J.ledger }
    requires begun { AreBegun opened }
{
    let Made {
        store,
        tail: _tail,
        ledgers,
        passes,
    } = make::<J, H>(alloc, opened)?;
    let mut passes = passes.into_vec();
    let told = told(rt, alloc, trial, &store, &ledgers, passes.as_mut_slice());
    let shards = store.shards();
    let closed = store.close(rt, Passes::from(passes));
    amiss(alloc, shards, told?, &closed)
}

/// What a trial was told.
fn told<J: Names + Send + Sync, R: Threads + Wait + Sync, H: Wait + Drop + Send>(
    rt: &R,
    alloc: Global,
    trial: Trial,
    store: &Store<J, H>,
    ledgers: &Ledgers<J>,
    passes: &mut [Pass<J>],
) -> Result<Told, NoMemory> {
    let mut told = Told::new(alloc);
    match trial {
        Trial::Crowd(seed) => crowd(rt, alloc, store, ledgers, passes, seed, &mut told)?,
        _ => first_two(rt, alloc, trial, store, ledgers, passes, &mut told)?,
    }
    Ok(told)
}

/// A trial with the first two passes.
fn first_two<J: Names + Send + Sync, R: Threads + Wait + Sync, H: Wait + Drop + Send>(
    rt: &R,
    alloc: Global,
    trial: Trial,
    store: &Store<J, H>,
    ledgers: &Ledgers<J>,
    passes: &mut [Pass<J>],
    told: &mut Told,
) -> Result<(), NoMemory> {
    if passes.len() < 2 {
        told.expect(false, "fewer than two passes");
        return Ok(());
    }
    let (ones, others) = passes.split_at_mut(1);
    match trial {
        Trial::Race => race(rt, alloc, store, &mut ones[0], &mut others[0], told),
        _ => at_once(rt, alloc, store, ledgers, &mut ones[0], told),
    }
}
