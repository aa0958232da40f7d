//! Sixteen threads of random calls, with eight that apply.
ghost use Rattle.std.specs.Prelude.{◌≤◌, ◌<◌};

use crate::asking::{find, find_under, find_wide};
use crate::calls::{apply, commit, commit_new, draw, get, get_at, settle};
use crate::dice::Dice;
use crate::made::{alone, incomplete, key, touching};
use crate::told::Told;
use ds_base::{Key, NoMemory};
use ds_io::NoGate;
use ds_store::{Ledgers, Names, Pass, Store};
use std::alloc::Global;
use std::sync::atomic::{AtomicU64, Ordering};
use std::sync::{Mutex, Wait};
use std::thread::{self, Threads};

/// The clients come first among the passes, then those that apply.
pub(crate) const CLIENTS: usize = 16;

const CALLS: u32 = 40;

const APPLIES: u64 = 100_000;

/// What the threads share: what they were told, the transactions that raised the number of `c`, and how many clients are done.
#[derive(Drop)]
struct Shared {
    told: Mutex<Told>,
    raised: AtomicU64,
    done: AtomicU64,
}

/// Lets each pass make calls in a thread of its own. At the end the number of `c` is how often it was raised.
pub(crate) fn crowd<J: Names + Send + Sync, R: Threads + Wait + Sync, H: Wait + Drop + Send>(
    rt: &R,
    alloc: Global,
    store: &Store<J, H>,
    ledgers: &Ledgers<J>,
    passes: &mut [Pass<J>],
    seed: u64,
    told: &mut Told,
) -> Result<(), NoMemory> {
    let shared = Shared {
        told: Mutex::new(Told::new(alloc)),
        raised: AtomicU64::new(0),
        done: AtomicU64::new(0),
    };
    run_all(rt, alloc, store, ledgers, passes, seed, &shared);
    let Shared {
        told: all,
        raised,
        done: _done,
    } = shared;
    told.join(all.into_inner());
    let c = key(alloc, "c")?;
    see_raised(
        rt,
        store,
        ledgers,
        passes,
        &c,
        raised.load(Ordering::SeqCst),
        told,
    );
    Ok(())
}

/// Each pass, once it sees all commits, has this number for `c`.
fn see_raised<J: Names, R: Wait, H: Wait + Drop>(
    rt: &R,
    store: &Store<J, H>,
    ledgers: &Ledgers<J>,
    passes: &mut [Pass<J>],
    c: &Key,
    raised: u64,
    told: &mut Told,
) {
    for pass in passes.iter_mut() {
        store.touch(rt, pass);
        let found = get(rt, store, ledgers, pass, c).0;
        told.expect(
            is_number(found, raised),
            "a number that was raised more or less often",
        );
    }
}

fn is_number(found: Option<(i64, u64, u64)>, wanted: u64) -> bool {
    match found {
        Some((number, _, _)) => u64::try_from(number).ok() == Some(wanted),
        None => false,
    }
}

fn run_all<J: Names + Send + Sync, R: Threads + Wait + Sync, H: Wait + Drop + Send>(
    rt: &R,
    alloc: Global,
    store: &Store<J, H>,
    ledgers: &Ledgers<J>,
    passes: &mut [Pass<J>],
    seed: u64,
    shared: &Shared,
) {
    let threads = passes.len();
    if threads == 0 {
        return;
    }
    let run = |i: usize, pass: &mut Pass<J>| {
        work(rt, alloc, store, ledgers, shared, seed, i, pass)
    };
    thread::for_each_mut(rt, passes, threads, &run);
}

fn work<J: Names + Send + Sync, R: Threads + Wait + Sync, H: Wait + Drop + Send>(
    rt: &R,
    alloc: Global,
    store: &Store<J, H>,
    ledgers: &Ledgers<J>,
    shared: &Shared,
    seed: u64,
    i: usize,
    pass: &mut Pass<J>,
) {
    let mut told = Told::new(alloc);
    if i < CLIENTS {
        let mut dice = Dice::new(seed.wrapping_add(i as u64));
        let called = calls(
            rt, alloc, store, ledgers, shared, pass, &mut dice, &mut told,
        )
        .is_ok();
        told.expect(called, "a call that wasn't made");
        shared.done.fetch_add(1, Ordering::SeqCst);
        store.wake_all();
    } else {
        applies(rt, store, shared, i as u64, pass, &mut told);
    }
    keep_all(pass, &mut told);
    shared.told.lock(rt).join(told);
}

/// Keeps what the pass has seen at last.
fn keep_all<J: Names>(pass: &Pass<J>, told: &mut Told) {
    told.next(pass.next());
    for shard in 0..pass.shards() {
        let kept = told.count(shard as usize, pass.count(shard).unwrap_or(0));
        told.expect(kept, "no memory");
    }
}

/// Applies what there is to apply, shard by shard, and sleeps where there is nothing, until all clients are done.
fn applies<J: Names, R: Wait, H: Wait + Drop>(
    rt: &R,
    store: &Store<J, H>,
    shared: &Shared,
    first: u64,
    pass: &mut Pass<J>,
    told: &mut Told,
) {
    for turn in 0..APPLIES {
        if shared.done.load(Ordering::SeqCst) >= CLIENTS as u64 {
            return;
        }
        let seen = store.changes();
        let shard = one_of(first.wrapping_add(turn), store.shards());
        match apply(rt, store, pass, shard) {
            Some((moved, _, _, _)) => {
                if !moved {
                    store.await_change(rt, seen);
                }
            }
            None => told.expect(false, "an apply"),
        }
    }
}

/// The number of a shard, in turn.
fn one_of(turn: u64, shards: u32) -> u32
    requires { 1 ≤ shards }
    ensures { result < shards }
{
    (turn % u64::from(shards)) as u32
}

fn calls<J: Names + Send + Sync, R: Threads + Wait + Sync, H: Wait + Drop + Send>(
    rt: &R,
    alloc: Global,
    store: &Store<J, H>,
    ledgers: &Ledgers<J>,
    shared: &Shared,
    pass: &mut Pass<J>,
    dice: &mut Dice,
    told: &mut Told,
) -> Result<(), NoMemory> {
    for _ in 0..CALLS {
        let place = pass.place();
        call(rt, alloc, store, ledgers, shared, pass, dice, told)?;
        told.expect(place <= pass.place(), "a place that fell");
    }
    Ok(())
}

/// One call, at random.
fn call<J: Names + Send + Sync, R: Threads + Wait + Sync, H: Wait + Drop + Send>(
    rt: &R,
    alloc: Global,
    store: &Store<J, H>,
    ledgers: &Ledgers<J>,
    shared: &Shared,
    pass: &mut Pass<J>,
    dice: &mut Dice,
    told: &mut Told,
) -> Result<(), NoMemory> {
    match dice.roll(10) {
        0 | 1 | 2 => put(rt, alloc, store, ledgers, pass, dice, told),
        3 | 4 => raise(rt, alloc, store, ledgers, shared, pass, told),
        5 => put_new(rt, alloc, store, pass, told),
        9 => query(rt, alloc, store, ledgers, pass, dice, told),
        other => {
            let called = is_called(rt, store, pass, other, dice, told);
            told.expect(called, "a draw, a settle or an apply");
            Ok(())
        }
    }
}

/// Puts an entity under a new id.
fn put_new<J: Names, R: Wait, H: Wait + Drop>(
    rt: &R,
    alloc: Global,
    store: &Store<J, H>,
    pass: &mut Pass<J>,
    told: &mut Told,
) -> Result<(), NoMemory> {
    let new = commit_new(rt, store, pass, incomplete(alloc)?, told);
    told.expect(new.is_some(), "a commit with a new id");
    Ok(())
}

/// Whether ids are drawn, all entries applied, or one of some shard.
fn is_called<J: Names, R: Wait, H: Wait + Drop>(
    rt: &R,
    store: &Store<J, H>,
    pass: &mut Pass<J>,
    which: u64,
    dice: &mut Dice,
    told: &mut Told,
) -> bool {
    match which {
        6 => draw(rt, store, pass, 1 + dice.roll(3), told).is_ok(),
        7 => settle(rt, store, pass, told).is_some(),
        _ => {
            let shard = one_of(dice.roll(1000), store.shards());
            apply(rt, store, pass, shard).is_some()
        }
    }
}

/// Queries all shards, one after the other or at once, or those under `c`.
fn query<J: Names + Send + Sync, R: Threads + Wait + Sync, H: Wait + Drop + Send>(
    rt: &R,
    alloc: Global,
    store: &Store<J, H>,
    ledgers: &Ledgers<J>,
    pass: &mut Pass<J>,
    dice: &mut Dice,
    told: &mut Told,
) -> Result<(), NoMemory> {
    let asked = match dice.roll(4) {
        0 => find_wide(rt, alloc, store, ledgers, pass, &NoGate, &[])?,
        1 => find_under(rt, alloc, store, ledgers, pass, "c", None, &[])?.0,
        _ => find(alloc, store, ledgers, pass, &[])?,
    };
    told.expect(asked.is_some(), "a query");
    Ok(())
}

/// Puts an entity, and reads it at the put's place or above.
fn put<J: Names, R: Wait, H: Wait + Drop>(
    rt: &R,
    alloc: Global,
    store: &Store<J, H>,
    ledgers: &Ledgers<J>,
    pass: &mut Pass<J>,
    dice: &mut Dice,
    told: &mut Told,
) -> Result<(), NoMemory> {
    let name = match dice.roll(3) {
        0 => "a",
        1 => "b",
        _ => "d",
    };
    let number = dice.roll(1000) as i64;
    let key = key(alloc, name)?;
    let draft = alone(alloc, name, number)?;
    let (commit, _) = commit(rt, store, pass, draft, told);
    let (read, _) = get(rt, store, ledgers, pass, &key);
    told.expect(
        is_not_below(read, commit),
        "a commit, or a read that isn't below it",
    );
    Ok(())
}

/// Whether there is a read, and a commit that isn't above its place.
fn is_not_below(read: Option<(i64, u64, u64)>, commit: Option<u64>) -> bool {
    match (read, commit) {
        (Some((_, place, _)), Some(commit)) => commit <= place,
        _ => false,
    }
}

/// Raises the number of `c` by one in a transaction, unless another does so at once or its versions are gone.
fn raise<J: Names, R: Wait, H: Wait + Drop>(
    rt: &R,
    alloc: Global,
    store: &Store<J, H>,
    ledgers: &Ledgers<J>,
    shared: &Shared,
    pass: &mut Pass<J>,
    told: &mut Told,
) -> Result<(), NoMemory> {
    let c = key(alloc, "c")?;
    let at = store.touch(rt, pass);
    let (found, gone) = get_at(rt, store, ledgers, pass, &c, at);
    let Some((number, _, _)) = found else {
        told.expect(gone.is_some(), "a get inside");
        return Ok(());
    };
    let raised = touching(alloc, "c", at, number.wrapping_add(1))?;
    match commit(rt, store, pass, raised, told) {
        (Some(_), _) => {
            shared.raised.fetch_add(1, Ordering::SeqCst);
        }
        (None, conflict) => told.expect(
            conflict.is_some(),
            "a commit that neither is one nor conflicts",
        ),
    }
    Ok(())
}
