//! Two threads that commit what both touched at one place.
ghost use Rattle.ds_log.specs.Ids.{AreIssued};

use crate::calls::{Committed, commit, conflict, number};
use crate::made::touching;
use crate::told::Told;
use ds_base::NoMemory;
use ds_journal::Draft;
use ds_store::{Names, Pass, Store};
use std::alloc::Global;
use std::sync::Wait;
use std::thread::{Threads, join};

/// So many times two clients commit at once.
const TIMES: u32 = 1000;

/// Lets two clients commit at once, again and again: one commits and the other conflicts, each time, and each of them wins at least once.
/// In turn the one and the other commits in the thread that is there.
pub(crate) fn race<J: Names + Send + Sync, R: Threads + Wait + Sync, H: Wait + Drop + Send>(
    rt: &R,
    alloc: Global,
    store: &Store<J, H>,
    one: &mut Pass<J>,
    two: &mut Pass<J>,
    told: &mut Told,
) -> Result<(), NoMemory> {
    let mut first_won = false;
    let mut second_won = false;
    for time in 0..TIMES {
        let first = if time % 2 == 0 {
            once(rt, alloc, store, one, two, told)?
        } else {
            !once(rt, alloc, store, two, one, told)?
        };
        first_won = first_won || first;
        second_won = second_won || !first;
    }
    told.expect(first_won && second_won, "one of two clients won each time");
    Ok(())
}

/// Lets two clients commit at once, and says whether the first one won.
fn once<J: Names + Send + Sync, R: Threads + Wait + Sync, H: Wait + Drop + Send>(
    rt: &R,
    alloc: Global,
    store: &Store<J, H>,
    one: &mut Pass<J>,
    two: &mut Pass<J>,
    told: &mut Told,
) -> Result<bool, NoMemory> {
    let (place, other) = (store.touch(rt, one), store.touch(rt, two));
    told.expect(place == other, "the touch places");
    let first = touching(alloc, "a", place, 1)?;
    let second = touching(alloc, "a", place, 2)?;
    let (first, second) = both(rt, alloc, store, one, two, first, second, told);
    let next = place.wrapping_add(1);
    let (won, lost) = (number(next), conflict(0, next, next));
    told.expect(
        (first == won && second == lost) || (first == lost && second == won),
        "two answers that aren't a commit and its conflict",
    );
    Ok(first == won)
}

fn both<J: Names + Send + Sync, R: Threads + Wait + Sync, H: Wait + Drop + Send>(
    rt: &R,
    alloc: Global,
    store: &Store<J, H>,
    one: &mut Pass<J>,
    two: &mut Pass<J>,
    first: Draft,
    second: Draft,
    told: &mut Told,
) -> (Committed, Committed)
    requires first { AreIssued 0 first.writes }
    requires second { AreIssued 0 second.writes }
{
    let (first, second) = join(
        rt,
        move || -> (Committed, Told)
            requires { AreIssued 0 first.writes }
        { committed(rt, alloc, store, one, first) },
        move || -> (Committed, Told)
            requires { AreIssued 0 second.writes }
        { committed(rt, alloc, store, two, second) },
    );
    told.join(first.1);
    told.join(second.1);
    (first.0, second.0)
}

fn committed<J: Names, R: Wait, H: Wait + Drop>(
    rt: &R,
    alloc: Global,
    store: &Store<J, H>,
    pass: &mut Pass<J>,
    draft: Draft,
) -> (Committed, Told)
    requires { AreIssued 0 draft.writes }
{
    let mut told = Told::new(alloc);
    let answer = commit(rt, store, pass, draft, &mut told);
    (answer, told)
}
