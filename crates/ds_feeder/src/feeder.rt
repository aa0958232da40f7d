//! The feeder.
ghost use Rattle.std.specs.Prelude.{◌≡◌, ◌+◌, ◌≤◌, IfErr, IfOk, OnOk, length};
ghost use mathlib.Core.List.{IsPrefix};
ghost use Rattle.ds_feeding.specs.Feeding.{HasFed, HasTooMany, WhereTooMany};

use ds_feeding::{Reindex, ReindexRefused};
use ds_store::{Names, Pass, Store, Tail};
use std::sync::Wait;
use std::sync::atomic::{AtomicBool, Ordering};
use std::thread::{Threads, join_mut};

/// So many commits at most are copied in one hold of the journal's lock.
const MOST_AT_ONCE: u32 = 1024;

/// Calls `work` while the second store is fed with the commits of the first one, whose tail and pass these are, and gives what it gave, and
/// whether all was fed that the pass has then seen. The pass has seen the commits that were fed before, and stands no lower. A refusal has
/// the causes of `Reindex::feed`: it ends the feeder and not the work, and `Reindex::finish` tells its cause again if that stays. Where no
/// thread can be made for the feeder, all is fed once the work is done.
pub fn feed_beside<
    J: Names + Send + Sync,
    K: Names + Send + Sync,
    R: Threads + Wait + Sync,
    G: Wait + Drop + Send,
    H: Wait + Drop + Send,
    T,
    F: FnMut() -> T,
>(
    rt: &R,
    store: &Store<J, G>,
    tail: &Tail<J>,
    pass: &mut Pass<J>,
    reindex: &mut Reindex<K, H>,
    work: &mut F,
) -> (T, Result<(), ReindexRefused>)
    requires begins { IsPrefix reindex.old.journal pass.old.journal }
    requires place { length reindex.old.journal ≤ pass.old.place }
    requires work { F.pre work.old }
    ensures fed { HasFed K.definitions pass.old pass.new reindex.old reindex.new }
    ensures all { OnOk result.1 (reindex.new.journal ≡ pass.new.journal) }
    ensures refused { IfErr result.1 (λ r. WhereTooMany (HasTooMany K.definitions pass.new.journal reindex.new.journal) r) }
    ensures work { F.step work.old result.0 work.new }
{
    let is_done = AtomicBool::new(false);
    feed_until(rt, store, tail, pass, reindex, work, &is_done)
}

/// The same, where the feeder is told by `is_done` that the work has ended.
fn feed_until<
    J: Names + Send + Sync,
    K: Names + Send + Sync,
    R: Threads + Wait + Sync,
    G: Wait + Drop + Send,
    H: Wait + Drop + Send,
    T,
    F: FnMut() -> T,
>(
    rt: &R,
    store: &Store<J, G>,
    tail: &Tail<J>,
    pass: &mut Pass<J>,
    reindex: &mut Reindex<K, H>,
    work: &mut F,
    is_done: &AtomicBool,
) -> (T, Result<(), ReindexRefused>)
    requires begins { IsPrefix reindex.old.journal pass.old.journal }
    requires place { length reindex.old.journal ≤ pass.old.place }
    requires work { F.pre work.old }
    ensures fed { HasFed K.definitions pass.old pass.new reindex.old reindex.new }
    ensures all { OnOk result.1 (reindex.new.journal ≡ pass.new.journal) }
    ensures refused { IfErr result.1 (λ r. WhereTooMany (HasTooMany K.definitions pass.new.journal reindex.new.journal) r) }
    ensures work { F.step work.old result.0 work.new }
{
    let (fed, given) = join_mut(
        rt,
        &mut || -> Result<(), ReindexRefused>
            requires { IsPrefix reindex.now.journal pass.now.journal × (length reindex.now.journal ≤ pass.now.place) }
            ensures fed { HasFed K.definitions pass.entry.now pass.exit.now reindex.entry.now reindex.exit.now }
            ensures all { OnOk result (reindex.exit.now.journal ≡ pass.exit.now.journal) }
            ensures refused { IfErr result
                (λ r. WhereTooMany (HasTooMany K.definitions pass.exit.now.journal reindex.exit.now.journal) r) }
        { feed_all(rt, store, tail, pass, reindex, is_done) },
        &mut || -> T
            requires { F.pre work.now }
            ensures { F.step work.entry.now result work.exit.now }
        {
            let given = work();
            is_done.store(true, Ordering::SeqCst);
            store.wake_all();
            given
        },
    );
    (given, fed)
}

/// Feeds commits as they come, until the work is done and nothing is left; it sleeps where there is nothing to feed. A refusal ends it.
fn feed_all<J: Names, K: Names, R: Wait, G: Wait + Drop, H: Wait + Drop>(
    rt: &R,
    store: &Store<J, G>,
    tail: &Tail<J>,
    pass: &mut Pass<J>,
    reindex: &mut Reindex<K, H>,
    is_done: &AtomicBool,
) -> Result<(), ReindexRefused>
    requires begins { IsPrefix reindex.old.journal pass.old.journal }
    requires place { length reindex.old.journal ≤ pass.old.place }
    ensures fed { HasFed K.definitions pass.old pass.new reindex.old reindex.new }
    ensures all { OnOk result (reindex.new.journal ≡ pass.new.journal) }
    ensures refused { IfErr result (λ r. WhereTooMany (HasTooMany K.definitions pass.new.journal reindex.new.journal) r) }
{
    for _ in rt.forever() {
        // Read before the look: a commit or the end that comes behind it then ends the sleep at once.
        let seen = store.changes();
        let done = is_done.load(Ordering::SeqCst);
        let moved = feed_next(rt, store, tail, pass, reindex)?;
        if moved == 0 {
            if done {
                return Ok(());
            }
            store.await_change(rt, seen);
        }
    }
    unreachable!()
}

/// Feeds the next commits, no more than are copied in one hold of the journal's lock, and says how many.
fn feed_next<J: Names, K: Names, R: Wait, G: Wait + Drop, H: Wait + Drop>(
    rt: &R,
    store: &Store<J, G>,
    tail: &Tail<J>,
    pass: &mut Pass<J>,
    reindex: &mut Reindex<K, H>,
) -> Result<u32, ReindexRefused>
    requires begins { IsPrefix reindex.old.journal pass.old.journal }
    requires place { length reindex.old.journal ≤ pass.old.place }
    ensures fed { HasFed K.definitions pass.old pass.new reindex.old reindex.new }
    ensures most { length reindex.new.journal ≤ length reindex.old.journal + 1024 }
    ensures none { IfOk result (λ moved. moved ≡ 0 → reindex.new.journal ≡ pass.new.journal) }
    ensures refused { IfErr result (λ r. WhereTooMany (HasTooMany K.definitions pass.new.journal reindex.new.journal) r) }
{
    let fed = reindex.feed(rt, store, tail, pass, MOST_AT_ONCE)?;
    Ok(fed.moved)
}
