//! A search of all shards at once.
use crate::asking::{find, find_wide, finds};
use crate::calls::{commit, settle};
use crate::made::alone;
use crate::told::Told;
use ds_base::NoMemory;
use ds_io::{Gate, NoGate};
use ds_store::{Ledgers, Names, Pass, Store};
use std::alloc::Global;
use std::sync::Wait;
use std::sync::atomic::{AtomicU64, Ordering};
use std::thread::{self, Threads};

/// Five entities, which lie in two shards.
const NAMES: [&str; 5] = ["a", "b", "c", "d", "e"];

/// So many turns a search waits for another at most.
const TURNS: u32 = 1_000_000;

/// Holds the search of shard 0 until that of shard 1 is done, or so many turns have passed.
#[derive(Drop)]
struct Held {
    done: AtomicU64,
    saw: AtomicU64,
}

impl Gate for Held {
    fn before(&self, shard: u32, _line: u64) {
        if shard != 0 {
            return;
        }
        for _ in 0..TURNS {
            if self.done.load(Ordering::SeqCst) > 0 {
                self.saw.store(1, Ordering::SeqCst);
                return;
            }
            thread::yield_now();
        }
    }

    fn after(&self, shard: u32, _line: u64) {
        if shard == 1 {
            self.done.store(1, Ordering::SeqCst);
        }
    }
}

/// Commits the five and applies them.
fn put_all<J: Names, R: Wait, H: Wait + Drop>(
    rt: &R,
    alloc: Global,
    store: &Store<J, H>,
    pass: &mut Pass<J>,
    told: &mut Told,
) -> Result<(), NoMemory> {
    for name in &NAMES {
        let (number, _) = commit(rt, store, pass, alone(alloc, *name, 1)?, told);
        told.expect(number.is_some(), "the commits");
    }
    let settled = settle(rt, store, pass, told);
    told.expect(settled == Some((5, 5, 5)), "the settle");
    Ok(())
}

/// All shards are searched at once, and find what a search of one after the other finds.
pub(crate) fn at_once<J: Names, R: Threads + Wait + Sync, H: Wait + Drop>(
    rt: &R,
    alloc: Global,
    store: &Store<J, H>,
    ledgers: &Ledgers<J>,
    pass: &mut Pass<J>,
    told: &mut Told,
) -> Result<(), NoMemory> {
    put_all(rt, alloc, store, pass, told)?;
    let held = Held {
        done: AtomicU64::new(0),
        saw: AtomicU64::new(0),
    };
    let found = find_wide(rt, alloc, store, ledgers, pass, &held, &NAMES)?;
    told.expect(found == finds(5, 5), "a query of all shards at once");
    told.expect(
        held.saw.load(Ordering::SeqCst) == 1,
        "a shard that waited for another",
    );
    let found = find_wide(rt, alloc, store, ledgers, pass, &NoGate, &NAMES)?;
    told.expect(found == finds(5, 5), "a query without a gate");
    let found = find(alloc, store, ledgers, pass, &NAMES)?;
    told.expect(found == finds(5, 5), "a query of one shard after the other");
    Ok(())
}
