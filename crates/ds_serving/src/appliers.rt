//! Background appliers: they apply entries while the clients' rounds run, and sleep while there are none.
ghost use Rattle.std.specs.Prelude.{◌≡◌, ◌<◌, All, length};
ghost use Rattle.ds_clients.specs.Runs.{IsIdle};

use ds_store::{Names, Pass, Store};
use std::sync::Wait;
use std::sync::atomic::{AtomicBool, Ordering};
use std::thread::{Threads, for_each_mut, join_mut};

/// Calls `work` while each of these passes applies entries, and tells them by `is_done` that it has ended. Where no thread can be made for
/// them, they are called once the work is done, and then end at once.
pub(crate) fn apply_beside<
    J: Names + Send + Sync,
    Rt: Threads + Wait + Sync,
    H: Wait + Drop + Send,
    T,
    F: FnMut() -> T,
>(rt: &Rt, store: &Store<J, H>, is_done: &AtomicBool, passes: &mut [Pass<J>], work: &mut F) -> T
    requires some { 0 < length passes.old }
    requires idle { All IsIdle passes.old }
    requires work { F.pre work.old }
    ensures idle { All IsIdle passes.new }
    ensures many { length passes.new ≡ length passes.old }
    ensures work { F.step work.old result work.new }
{
    let (_, given) = join_mut(
        rt,
        &mut ||
            requires { (0 < length passes.now) × All IsIdle passes.now }
            ensures idle { All IsIdle passes.exit.now }
            ensures many { length passes.exit.now ≡ length passes.entry.now }
        { apply_with_each(rt, store, is_done, passes) },
        &mut || -> T
            requires { F.pre work.now }
            ensures { F.step work.entry.now result work.exit.now }
        {
            let given = work();
            is_done.store(true, Ordering::SeqCst);
            store.wake_all();
            given
        },
    );
    given
}

/// Applies entries with each of these passes, each in a thread of its own where one can be made, until the run is done. Where none can
/// be made an applier is called once another has ended, and then ends at once.
fn apply_with_each<J: Names + Send + Sync, Rt: Threads + Wait + Sync, H: Wait + Drop + Send>(
    rt: &Rt,
    store: &Store<J, H>,
    is_done: &AtomicBool,
    passes: &mut [Pass<J>],
)
    requires some { 0 < length passes.old }
    requires idle { All IsIdle passes.old }
    ensures idle { All IsIdle passes.new }
    ensures many { length passes.new ≡ length passes.old }
{
    let threads = passes.len();
    let apply = |_applier: usize, pass: &mut Pass<J>|
        requires { IsIdle pass.now }
        ensures { IsIdle pass.exit.now }
    { apply_all(rt, store, is_done, pass) };
    for_each_mut(rt, passes, threads, &apply);
}

/// Applies entries, shard after shard, until the run is done; sleeps where there are none, until a commit wakes it.
fn apply_all<J: Names, Rt: Wait, H: Wait + Drop>(
    rt: &Rt,
    store: &Store<J, H>,
    is_done: &AtomicBool,
    pass: &mut Pass<J>,
)
    requires { IsIdle pass.old }
    ensures { IsIdle pass.new }
{
    for _ in rt.forever() {
        // Read before the look: a commit or the end that comes behind it then ends the sleep at once.
        let seen = store.changes();
        if is_done.load(Ordering::SeqCst) {
            return;
        }
        if !apply_each(rt, store, pass) {
            store.await_change(rt, seen);
        }
    }
    unreachable!()
}

/// Applies the next entries of each shard, and says whether there were any. A shard on which another thread works is passed over, and
/// waited for only where no other one had an entry. Want of memory counts as none: it is tried again after the next commit.
fn apply_each<J: Names, Rt: Wait, H: Wait + Drop>(
    rt: &Rt,
    store: &Store<J, H>,
    pass: &mut Pass<J>,
) -> bool
    requires { IsIdle pass.old }
    ensures { IsIdle pass.new }
{
    if apply_free(rt, store, pass) {
        return true;
    }
    let mut moved = false;
    for shard in 0..store.shards() {
        if has_applied(rt, store, pass, shard) {
            moved = true;
        }
    }
    moved
}

/// Applies the next entries of each shard on which no other thread works, and says whether there were any.
fn apply_free<J: Names, Rt: Wait, H: Wait + Drop>(
    rt: &Rt,
    store: &Store<J, H>,
    pass: &mut Pass<J>,
) -> bool
    requires { IsIdle pass.old }
    ensures { IsIdle pass.new }
{
    let mut moved = false;
    for shard in 0..store.shards() {
        if has_applied_free(rt, store, pass, shard) {
            moved = true;
        }
    }
    moved
}

/// Applies the next entries of a shard unless another thread works on it, and says whether it did.
fn has_applied_free<J: Names, Rt: Wait, H: Wait + Drop>(
    rt: &Rt,
    store: &Store<J, H>,
    pass: &mut Pass<J>,
    shard: u32,
) -> bool
    requires idle { IsIdle pass.old }
    requires shard { shard < store.now.shards }
    ensures { IsIdle pass.new }
{
    match store.apply_if_free(rt, pass, shard) {
        Some(applied) => applied.moved,
        None => false,
    }
}

/// Applies the next entry of a shard, and says whether it did.
fn has_applied<J: Names, Rt: Wait, H: Wait + Drop>(
    rt: &Rt,
    store: &Store<J, H>,
    pass: &mut Pass<J>,
    shard: u32,
) -> bool
    requires idle { IsIdle pass.old }
    requires shard { shard < store.now.shards }
    ensures { IsIdle pass.new }
{
    match store.apply_one(rt, pass, shard) {
        Ok(applied) => applied.moved,
        Err(_) => false,
    }
}
