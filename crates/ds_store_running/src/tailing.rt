//! Handing out commits of a running store.
ghost use Rattle.std.specs.Prelude.{◌≡◌, ◌+◌, ◌≤◌, IfOk, OnErr, drop, length, take};
ghost use Rattle.ds_base.specs.Limits.{first_drawn_id, greatest_id, most_commits};
ghost use Rattle.ds_log.specs.Ids.{AllIssued};
ghost use Rattle.ds_log.specs.Conflicts.{IsSerial};
ghost use Rattle.ds_store_passes.specs.Answered.{AreSince};
ghost use Rattle.ds_store_running.specs.Tailing.{AreFirstSince};
ghost use Rattle.ds_store_passes.specs.Passes.{HasRead};

use crate::store::Store;
use ds_base::{NoMemory, TryCopy};
use ds_draw::Word;
use ds_log::{Commit, Commits};
use ds_store_hubs::Names;
use ds_store_journal::JournalDesk;
use ds_store_passes::{Pass, Since};
use std::alloc::{AllocError, Global};
use std::marker::PhantomData;
use std::sync::Wait;

/// Leave to be handed the commits of a running store. It has no calls.
#[derive(Drop)]
pub struct Tail<J: Names> {
    pub(crate) of: PhantomData<J>,
}

impl<J: Names, H: Wait + Drop> Store<J, H> {
    /// The commits above `from`, which is not above the pass's place, up to the journal's length, and the id counter, in one hold of
    /// the journal's lock: each id of 2^52 or more in a written key is below it. A refusal means out of memory.
    pub fn commits_after<R: Wait>(
        &self,
        rt: &R,
        _tail: &Tail<J>,
        pass: &mut Pass<J>,
        from: u64,
    ) -> Result<Since, NoMemory>
        requires { from ≤ pass.old.place }
        ensures since { IfOk result (λ s. AreSince pass.old pass.new from s.place s.next s.commits) }
        ensures serial { IfOk result (λ s. IsSerial pass.new.journal) }
        ensures issued { IfOk result (λ s. AllIssued s.next s.commits) }
        ensures drawn { IfOk result (λ s. (first_drawn_id ≤ s.next) × (s.next ≤ greatest_id)) }
        ensures read { OnErr result (HasRead pass.old pass.new) }
    {
        let mut desk = self.lock_at(rt, pass.place());
        desk.hand_out(rt, self.alloc, &self.words.ids, pass, from)
    }

    /// As `commits_after`, but no more than the first `most` of the commits, at most 2^48. The id counter is above each id of 2^52 or more
    /// in a written key of these.
    pub fn some_after<R: Wait>(
        &self,
        rt: &R,
        _tail: &Tail<J>,
        pass: &mut Pass<J>,
        from: u64,
        most: u64,
    ) -> Result<Since, NoMemory>
        requires from { from ≤ pass.old.place }
        requires most { most ≤ most_commits }
        ensures since { IfOk result (λ s. AreFirstSince pass.old pass.new from most s.place s.next s.commits) }
        ensures few { IfOk result (λ s. s.place ≤ most_commits) }
        ensures serial { IfOk result (λ s. IsSerial pass.new.journal) }
        ensures issued { IfOk result (λ s. AllIssued s.next s.commits) }
        ensures drawn { IfOk result (λ s. (first_drawn_id ≤ s.next) × (s.next ≤ greatest_id)) }
        ensures read { OnErr result (HasRead pass.old pass.new) }
    {
        let mut desk = self.lock_at(rt, pass.place());
        hand_out_some(
            rt,
            self.alloc,
            &mut desk,
            &self.words.ids,
            pass,
            Part { from, most },
        )
    }
}

/// Which commits are handed out: those behind the first `from`, no more than `most` of them.
#[derive(Clone, Copy)]
struct Part {
    from: u64,
    most: u64,
}

/// Hands out a part of the commits, under the journal's lock.
fn hand_out_some<J: Names, H: Wait + Drop, R: Wait>(
    rt: &R,
    alloc: Global,
    desk: &mut JournalDesk<J, H>,
    ids: &Word,
    pass: &mut Pass<J>,
    part: Part,
) -> Result<Since, NoMemory>
    requires place { pass.old.place ≤ length desk.old.book.journal }
    requires from { part.from ≤ pass.old.place }
    requires most { part.most ≤ most_commits }
    requires ids { ids.now.name ≡ J.ids }
    ensures since { IfOk result (λ s. AreFirstSince pass.old pass.new part.from part.most s.place s.next s.commits) }
    ensures few { IfOk result (λ s. s.place ≤ most_commits) }
    ensures serial { IfOk result (λ s. IsSerial pass.new.journal) }
    ensures issued { IfOk result (λ s. AllIssued s.next s.commits) }
    ensures drawn { IfOk result (λ s. (first_drawn_id ≤ s.next) × (s.next ≤ greatest_id)) }
    ensures read { OnErr result (HasRead pass.old pass.new) }
{
    let place = desk.show(rt, pass);
    pass.look_past(rt, ids, desk.book.next());
    let commits = first_copied(alloc, desk.book.journal(), part)?;
    Ok(Since {
        commits,
        place,
        next: pass.next(),
    })
}

/// Copies of a part of the commits.
fn first_copied(alloc: Global, journal: &[Commit], part: Part) -> Result<Commits, NoMemory>
    requires from { part.from ≤ length journal.now }
    requires most { part.most ≤ most_commits }
    ensures { IfOk result (λ commits. commits ≡ drop part.from (take (part.from + part.most) journal.now)) }
{
    let end = (part.from + part.most).min(journal.len() as u64) as usize;
    let mut commits = Commits::new(alloc);
    for commit in &journal[part.from as usize..end] {
        commits.push(commit.copy(alloc)?).map_err(|_| AllocError)?;
    }
    Ok(commits)
}
