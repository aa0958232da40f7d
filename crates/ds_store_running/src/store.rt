//! The store.
ghost use Rattle.std.specs.Prelude.{◌≡◌, ◌+◌, ◌<◌, ◌≤◌, IfOk, length};
ghost use Rattle.std.specs.Sync.Mutex.{mutex_guard_value};
ghost use Rattle.ds_base.specs.Limits.{most_shards};

use crate::tailing::Tail;
use ds_base::NoMemory;
use ds_indexdef::Defs;
use ds_store_hubs::{Names, SeatRoom};
use ds_store_journal::{JournalDesk, Words};
use ds_store_reads::Uncounted;
use ds_store_shards::ShardDesk;
use std::alloc::{AllocError, Global};
use std::marker::{Model, PhantomData};
use std::sync::{Condvar, Mutex, MutexGuard, Wait};
use std::thread;
use std::time::Duration;

/// A running store, which any number of threads share. Contracts see how many shards it has, and how many passes were made with it.
#[derive(Drop)]
pub struct Store<J: Names, H: Wait + Drop> {
    pub(crate) journal: Mutex<JournalDesk<J, H>>,
    pub(crate) shards: Vec<Mutex<ShardDesk<J, H>>>,
    pub(crate) words: Words<J>,
    pub(crate) definitions: Defs,
    pub(crate) window: u64,
    pub(crate) passes: u32,
    /// By which the shards are searched all at once.
    pub(crate) uncounted: Uncounted<J>,
    /// Taken by a close alone.
    pub(crate) seats: Mutex<SeatRoom>,
    /// Tells of commits, whose entries wait to be applied.
    pub(crate) changed: Condvar,
    pub(crate) alloc: Global,
}

impl<J: Names, H: Wait + Drop> Model for Store<J, H> {
    ghost use Rattle.std.specs.Prelude.{◌≡◌, ◌+◌, ◌≤◌, length};
    ghost use Rattle.ds_store_passes.specs.Passes.{StoreParts};

    ghost Value = { StoreParts };

    ghost view = { λ s. record { shards = length s.shards.items; passes = s.passes } };

    ghost invariant = { λ s. (length s.shards.items ≡ length J.shards) × ((1 ≤ length J.shards) × (length J.shards ≤ 16))
        × (s.definitions ≡ J.definitions) × (s.window ≡ J.window) × ((1 ≤ J.window) × (J.window ≤ 65536))
        × ((s.words.commits.seats ≡ s.passes + 1) × (s.words.ids.seats ≡ s.passes + 1)) };
}

/// What a store is made of, before it is shared.
#[derive(Drop)]
pub struct Unshared<J: Names, H: Wait + Drop> {
    /// What lies under the journal's lock.
    pub desk: JournalDesk<J, H>,
    /// What lies under the shards' locks, by number.
    pub shards: Vec<Mutex<ShardDesk<J, H>>>,
    /// The words from which its passes draw.
    pub words: Words<J>,
    /// The definitions of composite indexes.
    pub definitions: Defs,
    /// How many stamps each shard keeps.
    pub window: u64,
    /// How many passes were made with it.
    pub passes: u32,
    /// By which its shards are searched all at once.
    pub uncounted: Uncounted<J>,
    /// Room for the seats of all passes.
    pub seats: SeatRoom,
    /// Where the store takes its memory.
    pub alloc: Global,
    pub ghost few: { (length shards.items ≡ length J.shards) × ((1 ≤ length J.shards) × (length J.shards ≤ 16)) },
    pub ghost defined: { definitions ≡ J.definitions },
    pub ghost kept: { (window ≡ J.window) × ((1 ≤ J.window) × (J.window ≤ 65536)) },
    pub ghost seated: { (words.commits.seats ≡ passes + 1) × (words.ids.seats ≡ passes + 1) },
}

impl<J: Names, H: Wait + Drop> Store<J, H> {
    /// The store of these parts, for all threads, and leave to be handed its commits. It takes no memory.
    pub fn share(unshared: Unshared<J, H>) -> (Store<J, H>, Tail<J>)
        ensures { (result.0.shards ≡ length unshared.shards.items) × (result.0.passes ≡ unshared.passes) }
    {
        let Unshared {
            desk,
            shards,
            words,
            definitions,
            window,
            passes,
            uncounted,
            seats,
            alloc,
        } = unshared;
        let store = Store {
            journal: Mutex::new(desk),
            shards,
            words,
            definitions,
            window,
            passes,
            uncounted,
            seats: Mutex::new(seats),
            changed: Condvar::new(),
            alloc,
        };
        (store, Tail { of: PhantomData })
    }

    /// The journal's lock, once the journal has at least so many commits, which it has at once.
    pub(crate) fn lock_at<'a, R: Wait>(
        &'a self,
        rt: &R,
        place: u64,
    ) -> MutexGuard<'a, JournalDesk<J, H>>
        ensures { place ≤ length (mutex_guard_value result).book.journal }
    {
        for _ in rt.forever() {
            let desk = self.journal.lock(rt);
            if desk.len() >= place {
                return desk;
            }
            thread::yield_now();
        }
        unreachable!()
    }

    /// The desk of a shard, once its lock is free. It is refused where another shard's desk lies under the lock, which never is: what lies
    /// there is known by its type alone.
    pub(crate) fn desk_of<'a, R: Wait>(
        &'a self,
        rt: &R,
        shard: u32,
    ) -> Result<MutexGuard<'a, ShardDesk<J, H>>, NoMemory>
        requires { shard < self.now.shards }
        ensures number { IfOk result (λ desk. (mutex_guard_value desk).number ≡ shard) }
        ensures shards { IfOk result (λ desk. (mutex_guard_value desk).shards ≡ self.now.shards) }
    {
        let desk = self.shards[shard as usize].lock(rt);
        if desk.number != shard {
            return Err(AllocError);
        }
        Ok(desk)
    }

    /// How many shards there are, from 1 to 16. It takes no memory.
    pub fn shards(&self) -> u32
        ensures value { result ≡ self.now.shards }
        ensures within { (1 ≤ self.now.shards) × (self.now.shards ≤ most_shards) }
    {
        self.shards.len() as u32
    }

    /// How often the store told of commits so far. Who looks for entries to apply reads it before, and waits by it where there are none:
    /// then no commit is missed. No clause says so, since any thread may commit at any time.
    pub fn changes(&self) -> u64 {
        self.changed.notifications()
    }

    /// Sleeps until the store has told more than `seen` times, and no longer than a second. No clause says so: how long a thread sleeps is
    /// the system's, and whoever wakes looks at the store again.
    pub fn await_change<R: Wait>(&self, rt: &R, seen: u64) {
        self.changed.sleep(rt, seen, Duration::from_secs(1));
    }

    /// Wakes all threads that sleep in `await_change`. It has no clause, since it changes nothing that a clause speaks of.
    pub fn wake_all(&self) {
        self.changed.notify_all();
    }
}
