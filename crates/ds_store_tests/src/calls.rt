//! Calls of a store, with what they need asked before, and with answers that compare.
ghost use Rattle.std.specs.Prelude.{◌≡◌, ◌+◌, ◌≤◌, ◌<◌, ℕ, [], IfSome, IsTrue};
ghost use Rattle.std.specs.List.{All};
ghost use Rattle.ds_journal.specs.Drafts.{is_one_put, renumbered_commit};
ghost use Rattle.ds_log.specs.Ids.{AreIssued};

use crate::made::number_of;
use crate::told::Told;
use ds_base::Key;
use ds_io::Steps;
use ds_journal::{CommitCause, CommitRefused, Draft};
use ds_log::Touch;
use ds_store::{GetRefused, Got, Ledgers, Names, Pass, Store};
use std::marker::Brand;
use std::sync::Wait;
use std::sync::ledger::{Blank, Ledger};

/// A commit's number, or the group, the commit and the place of its conflict.
pub(crate) type Committed = (Option<u64>, Option<(u32, u64, u64)>);

/// The answer of a commit with this number.
pub(crate) fn number(commit: u64) -> Committed {
    (Some(commit), None)
}

/// The answer of a commit that conflicts.
pub(crate) fn conflict(group: u32, commit: u64, place: u64) -> Committed {
    (None, Some((group, commit, place)))
}

fn are_places(touched: &[Touch], most: u64) -> bool
    ensures { IsTrue result → All (λ t. t.place ≤ most) touched.now }
{
    touched.iter().all(|touch| touch.place <= most)
}

/// Commits the draft, and keeps its number. A draft that touched a place above the pass's has no answer.
pub(crate) fn commit<J: Names, R: Wait, H: Wait + Drop>(
    rt: &R,
    store: &Store<J, H>,
    pass: &mut Pass<J>,
    draft: Draft,
    told: &mut Told,
) -> Committed
    requires { AreIssued 0 draft.writes }
{
    if !are_places(draft.commit().touched.as_slice(), pass.place()) {
        return (None, None);
    }
    match store.commit(rt, pass, draft) {
        Ok(commit) => {
            told.commit(commit);
            number(commit)
        }
        Err(refused) => refusal(refused),
    }
}

fn refusal(refused: CommitRefused) -> Committed {
    match refused.cause {
        CommitCause::Conflict(c) => conflict(c.group, c.commit, c.place),
        CommitCause::NoMemory => (None, None),
    }
}

/// Commits a put under a new id, and keeps both numbers.
pub(crate) fn commit_new<J: Names, R: Wait, H: Wait + Drop>(
    rt: &R,
    store: &Store<J, H>,
    pass: &mut Pass<J>,
    draft: Draft,
    told: &mut Told,
) -> Option<(u64, u64)>
    requires untouched { draft.touched ≡ [] }
    requires one_put { IsTrue (is_one_put draft.writes) }
    requires issued { (id : ℕ) → AreIssued (id + 1) (renumbered_commit draft id).writes }
{
    match store.commit_new(rt, pass, draft) {
        Ok(new) => {
            told.commit(new.commit);
            told.id(new.id);
            Some((new.commit, new.id))
        }
        Err(_) => None,
    }
}

/// The number of the entity, the place and how many entries lie below it; or how many entries lie below the touch place, how many are
/// applied, and the commit of the last of them.
pub(crate) type Read = (Option<(i64, u64, u64)>, Option<(u64, u64, u64)>);

/// The answer of a get: the entity's number, 0 where there is none, the place, and how many entries lie below it.
pub(crate) fn found(number: i64, place: u64, entries: u64) -> Read {
    (Some((number, place, entries)), None)
}

/// The answer of a get whose versions are gone.
pub(crate) fn expired(snapshot: u64, applied: u64, commit: u64) -> Read {
    (None, Some((snapshot, applied, commit)))
}

fn read(answer: Result<Got, GetRefused>) -> Read {
    match answer {
        Ok(got) => match number_of(got.entity.as_ref()) {
            Some(number) => found(number, got.place, got.entries),
            None => (None, None),
        },
        Err(GetRefused::Expired(e)) => expired(e.snapshot, e.applied, e.commit),
        Err(GetRefused::NoMemory) => (None, None),
    }
}

/// A get outside a transaction.
pub(crate) fn get<J: Names, R: Wait, H: Wait + Drop>(
    rt: &R,
    store: &Store<J, H>,
    ledgers: &Ledgers<J>,
    pass: &mut Pass<J>,
    key: &Key,
) -> Read {
    read(counted::<J, Brand, R, H>(ledgers.blank(), rt, store, pass, key, None))
}

/// A get in a transaction, at the touch place. There is no answer where that is above the pass's place.
pub(crate) fn get_at<J: Names, R: Wait, H: Wait + Drop>(
    rt: &R,
    store: &Store<J, H>,
    ledgers: &Ledgers<J>,
    pass: &mut Pass<J>,
    key: &Key,
    place: u64,
) -> Read {
    if pass.place() < place {
        return (None, None);
    }
    read(counted::<J, Brand, R, H>(ledgers.blank(), rt, store, pass, key, Some(place)))
}

fn counted<J: Names, L: Ledger, R: Wait, H: Wait + Drop>(
    blank: Blank,
    rt: &R,
    store: &Store<J, H>,
    pass: &mut Pass<J>,
    key: &Key,
    at: Option<u64>,
) -> Result<Got, GetRefused>
    requires name { blank.name ≡ L.name }
    requires parts { blank.parts ≡ L.parts }
    requires some { 0 < blank.parts }
    requires ledger { L.parts ≡ J.ledger }
    requires at { IfSome at (λ place. place ≤ pass.old.place) }
{
    let mut steps = Steps::<L>::new(blank);
    store.get(rt, pass, key, at, &mut steps)
}

/// Whether an entry was applied, the shard's count, the place, and the commit of the last applied entry.
pub(crate) fn apply<J: Names, R: Wait, H: Wait + Drop>(
    rt: &R,
    store: &Store<J, H>,
    pass: &mut Pass<J>,
    shard: u32,
) -> Option<(bool, u64, u64, u64)>
    requires { shard < store.now.shards }
{
    match store.apply_one(rt, pass, shard) {
        Ok(a) => Some((a.moved, a.count, a.place, a.commit)),
        Err(_) => None,
    }
}

/// Settles, and keeps the counts: the place, the entries of all shards together, and the greatest commit of them.
pub(crate) fn settle<J: Names, R: Wait, H: Wait + Drop>(
    rt: &R,
    store: &Store<J, H>,
    pass: &mut Pass<J>,
    told: &mut Told,
) -> Option<(u64, u64, u64)> {
    match store.settle(rt, pass) {
        Ok(s) => {
            let counts = s.counts.as_slice();
            let kept = told.counts(counts);
            told.expect(kept, "no memory");
            Some((s.place, sum(counts), s.commit))
        }
        Err(_) => None,
    }
}

fn sum(numbers: &[u64]) -> u64 {
    let mut sum: u64 = 0;
    for number in numbers {
        sum = sum.wrapping_add(*number);
    }
    sum
}

/// Draws so many ids, keeps them, and gives the first; or the id counter, where so many aren't left.
pub(crate) fn draw<J: Names, R: Wait, H: Wait + Drop>(
    rt: &R,
    store: &Store<J, H>,
    pass: &mut Pass<J>,
    count: u64,
    told: &mut Told,
) -> Result<u64, u64>
    requires { 1 ≤ count }
{
    match store.issue(rt, pass, count) {
        Ok(first) => {
            keep_ids(told, first, count);
            Ok(first)
        }
        Err(refused) => Err(refused.next),
    }
}

fn keep_ids(told: &mut Told, first: u64, count: u64) {
    for i in 0..count {
        told.id(first.wrapping_add(i));
    }
}
