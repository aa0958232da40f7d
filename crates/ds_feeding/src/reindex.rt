//! Feeding a second store.
ghost use Rattle.std.specs.Prelude.{◌≡◌, ◌+◌, ◌<◌, ◌≤◌, ◌++◌, ◌∷◌, [], None, Some, IfErr, IfOk, OnErr, OnOk, length, max, take};
ghost use mathlib.Core.List.{IsPrefix};
ghost use Rattle.ds_base.specs.Limits.{first_drawn_id, greatest_id, most_commits};
ghost use Rattle.ds_log.specs.Ids.{AllIssued, AreIssued};
ghost use Rattle.ds_log.specs.Conflicts.{IsCommitted, IsSerial};
ghost use Rattle.ds_store_hubs.specs.Opening.{AreBegun, AreNamesOf};
ghost use Rattle.ds_store.specs.Passes.{HasRead};
ghost use Rattle.ds_feeding.specs.Feeding.{AreFed, HasTooMany, IsNextPart, WhereTooMany};
ghost use Rattle.ds_row_limit.specs.ManyRows.{first_too_many};

use crate::refused::ReindexRefused;
use ds_base::NoMemory;
use ds_indexdef::Defs;
use ds_journal::Draft;
use ds_log::{Commit, Commits};
use ds_row_limit::check_writes;
use ds_rows::RowsRefused;
use ds_store::{Loading, Names, Opened, Pass, Since, Store, Tail};
use std::alloc::Global;
use std::marker::Model;
use std::sync::Wait;

/// A second store that is fed with the commits of a running one. Nobody shares it yet. Contracts see what was fed: the commits, and the id
/// counter, with the numbers of shards and of passes.
#[derive(Drop)]
pub struct Reindex<K: Names, H: Wait + Drop> {
    pub(crate) loading: Loading<K, H>,
    defs: Defs,
    alloc: Global,
}

impl<K: Names, H: Wait + Drop> Model for Reindex<K, H> {
    ghost use Rattle.std.specs.Prelude.{◌≡◌};
    ghost use Rattle.ds_store.specs.Loads.{LoadingParts};

    ghost Value = { LoadingParts };

    ghost view = { λ r. r.loading };

    ghost invariant = { λ r. r.defs ≡ K.definitions };
}

/// What one call fed.
#[derive(Drop, Clone, Copy)]
pub struct Fed {
    /// How many commits.
    pub moved: u32,
    /// Up to where the old store's commits were looked at: all that it had then.
    pub place: u64,
}

impl<K: Names, H: Wait + Drop> Reindex<K, H> {
    /// Makes the second store of what was opened, whose names these are; the definitions are those that it was opened with. One of its
    /// passes feeds it. A refusal means out of memory.
    pub fn make(alloc: Global, opened: Opened<H>, defs: Defs) -> Result<Reindex<K, H>, NoMemory>
        requires names { AreNamesOf opened K.journal K.shards K.commits K.ids K.definitions K.window K.ledger }
        requires begun { AreBegun opened }
        requires definitions { defs ≡ K.definitions }
        ensures { IfOk result (λ r. r ≡ record {
          shards = length opened.shards;
          passes = opened.passes;
          journal = [];
          next = first_drawn_id;
        }) }
    {
        let loading = Loading::make(alloc, opened)?;
        Ok(Reindex {
            loading,
            defs,
            alloc,
        })
    }

    /// Feeds the next commits of the old store, at most so many, and first draws the ids that were drawn there. The pass is of that store,
    /// has seen the commits that were fed before, and stands no lower. TooManyRows comes where the next commit has a put with more than
    /// 20,000 rows under the new definitions, and fewer than `most` were fed before it; else a refusal means out of memory. What was fed
    /// before a refusal stays, and a later call goes on there.
    pub fn feed<J: Names, G: Wait + Drop, R: Wait>(
        &mut self,
        rt: &R,
        old: &Store<J, G>,
        tail: &Tail<J>,
        pass: &mut Pass<J>,
        most: u32,
    ) -> Result<Fed, ReindexRefused>
        requires begins { IsPrefix self.old.journal pass.old.journal }
        requires place { length self.old.journal ≤ pass.old.place }
        ensures read { HasRead pass.old pass.new }
        ensures fed { AreFed K.definitions pass.new.journal self.old self.new }
        ensures stands { length self.new.journal ≤ pass.new.place }
        ensures most { length self.new.journal ≤ length self.old.journal + most }
        ensures all { OnOk result (self.new.journal ≡ take (length self.old.journal + most) pass.new.journal) }
        ensures moved { IfOk result (λ fed. (length self.new.journal ≡ length self.old.journal + fed.moved)
            × (fed.place ≡ length pass.new.journal) × (pass.new.place ≡ fed.place)) }
        ensures next { self.new.next ≤ max self.old.next pass.new.next }
        ensures drawn { OnOk result (self.new.next ≡ max self.old.next pass.new.next) }
        ensures refused { IfErr result (λ r. WhereTooMany (HasTooMany K.definitions pass.new.journal self.new.journal) r) }
        ensures still { IfErr result (λ r. WhereTooMany (λ commit _. commit ≤ length self.old.journal + most) r) }
    {
        let (moved, place) = self.feed_some(rt, old, tail, pass, most as u64)?;
        Ok(Fed {
            moved: moved as u32,
            place,
        })
    }

    /// The same, with how many were fed and the place.
    pub(crate) fn feed_some<J: Names, G: Wait + Drop, R: Wait>(
        &mut self,
        rt: &R,
        old: &Store<J, G>,
        tail: &Tail<J>,
        pass: &mut Pass<J>,
        most: u64,
    ) -> Result<(u64, u64), ReindexRefused>
        requires begins { IsPrefix self.old.journal pass.old.journal }
        requires place { length self.old.journal ≤ pass.old.place }
        requires most { most ≤ most_commits }
        ensures read { HasRead pass.old pass.new }
        ensures fed { AreFed K.definitions pass.new.journal self.old self.new }
        ensures stands { length self.new.journal ≤ pass.new.place }
        ensures most { length self.new.journal ≤ length self.old.journal + most }
        ensures all { OnOk result (self.new.journal ≡ take (length self.old.journal + most) pass.new.journal) }
        ensures moved { IfOk result (λ fed. (length self.new.journal ≡ length self.old.journal + fed.0)
            × (fed.1 ≡ length pass.new.journal) × (pass.new.place ≡ fed.1) × (fed.1 ≤ most_commits)) }
        ensures next { self.new.next ≤ max self.old.next pass.new.next }
        ensures drawn { OnOk result (self.new.next ≡ max self.old.next pass.new.next) }
        ensures refused { IfErr result (λ r. WhereTooMany (HasTooMany K.definitions pass.new.journal self.new.journal) r) }
        ensures still { IfErr result (λ r. WhereTooMany (λ commit _. commit ≤ length self.old.journal + most) r) }
    {
        let (commits, place) = self.next_part(rt, old, tail, pass, most)?;
        let moved = commits.len() as u64;
        match self.feed_all(rt, commits) {
            Ok(()) => Ok((moved, place)),
            Err(refused) => Err(refused),
        }
    }

    /// The next commits of the old store, at most so many, with the place of its last one, once the ids are drawn that were drawn there.
    fn next_part<J: Names, G: Wait + Drop, R: Wait>(
        &mut self,
        rt: &R,
        old: &Store<J, G>,
        tail: &Tail<J>,
        pass: &mut Pass<J>,
        most: u64,
    ) -> Result<(Commits, u64), NoMemory>
        requires begins { IsPrefix self.old.journal pass.old.journal }
        requires place { length self.old.journal ≤ pass.old.place }
        requires most { most ≤ most_commits }
        ensures read { HasRead pass.old pass.new }
        ensures part { IfOk result (λ next. IsNextPart self.old self.new pass.new most next.0 next.1) }
        ensures err { OnErr result (self.new ≡ self.old) }
    {
        let Since {
            commits,
            place,
            next,
        } = old.some_after(rt, tail, pass, self.loading.len(), most)?;
        self.draw_up_to(rt, next);
        Ok((commits, place))
    }

    /// Draws the ids below a counter that weren't drawn before.
    fn draw_up_to<R: Wait>(&mut self, rt: &R, next: u64)
        requires { next ≤ greatest_id }
        ensures { self.new ≡ record self.old { next = max self.old.next next } }
    {
        if self.loading.next() < next {
            self.loading.draw_up_to(rt, next);
        }
    }

    /// Feeds these commits, up to the first one that is refused.
    fn feed_all<R: Wait>(&mut self, rt: &R, commits: Commits) -> Result<(), ReindexRefused>
        requires serial { IsSerial (self.old.journal ++ commits) }
        requires issued { AllIssued self.old.next commits }
        requires few { length self.old.journal + length commits ≤ most_commits }
        ensures fed { AreFed K.definitions (self.old.journal ++ commits) self.old self.new }
        ensures next { self.new.next ≡ self.old.next }
        ensures all { OnOk result (self.new.journal ≡ self.old.journal ++ commits) }
        ensures refused { IfErr result (λ r. WhereTooMany (HasTooMany K.definitions (self.old.journal ++ commits) self.new.journal) r) }
    {
        for commit in commits.into_vec() {
            match self.feed_one(rt, commit) {
                Ok(()) => {}
                Err(refused) => return Err(refused),
            }
        }
        Ok(())
    }

    /// Feeds one commit.
    fn feed_one<R: Wait>(&mut self, rt: &R, commit: Commit) -> Result<(), ReindexRefused>
        requires committed { IsCommitted self.old.journal commit }
        requires issued { AreIssued self.old.next commit.writes }
        requires few { length self.old.journal < most_commits }
        ensures ok { OnOk result (self.new ≡ record self.old { journal = self.old.journal ++ commit ∷ [] }) }
        ensures few { OnOk result (first_too_many K.definitions commit.writes ≡ None) }
        ensures err { OnErr result (self.new ≡ self.old) }
        ensures refused { IfErr result (λ r. WhereTooMany (λ number count. (number ≡ length self.old.journal + 1)
            × (first_too_many K.definitions commit.writes ≡ Some count)) r) }
    {
        match check_writes(self.alloc, &self.defs, commit.writes.as_slice()) {
            Ok(()) => {}
            Err(RowsRefused::TooManyRows { count }) => {
                let commit = self.loading.len() + 1;
                return Err(ReindexRefused::TooManyRows { commit, count });
            }
            Err(RowsRefused::NoMemory) => return Err(ReindexRefused::NoMemory),
        }
        let Commit {
            client,
            touched,
            writes,
        } = commit;
        let draft = Draft::make(self.alloc, client, touched, writes)?;
        self.loading.commit(rt, draft)?;
        Ok(())
    }

    /// What it is made of.
    pub(crate) fn into_parts(self) -> (Loading<K, H>, Global)
        ensures { result.0 ≡ self }
    {
        let Reindex {
            loading,
            defs: _defs,
            alloc,
        } = self;
        (loading, alloc)
    }
}
