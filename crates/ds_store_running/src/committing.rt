//! Commits.
ghost use Rattle.std.specs.Prelude.{◌≡◌, ℕ, ◌+◌, ◌<◌, ◌≤◌, ◌∷◌, [], All, IsTrue, IfOk, IfErr, OnErr};
ghost use Rattle.ds_base.specs.Limits.{greatest_id};
ghost use Rattle.ds_journal.specs.Drafts.{is_one_put, renumbered_commit};
ghost use Rattle.ds_log.specs.Ids.{AreIssued};
ghost use Rattle.ds_store_passes.specs.Answered.{IsAppended, IsConflict, WhereConflict, WhereExhausted};
ghost use Rattle.ds_store_passes.specs.Passes.{HasRead};

use crate::store::Store;
use ds_journal::{CommitRefused, Draft};
use ds_store_hubs::Names;
use ds_store_passes::{NewCommit, NewRefused, Pass};
use std::sync::Wait;

impl<J: Names, H: Wait + Drop> Store<J, H> {
    /// Appends the draft as the next commit, and gives its number. Each touch place is at most the pass's place, and each id of 2^52 or
    /// more in a written key is below its id counter. It is refused where it conflicts, with the first touched group that a commit
    /// after its touch place wrote; or else when out of memory, or where the journal has 2^48 commits. A refusal records nothing, and
    /// hands the draft back.
    pub fn commit<R: Wait>(
        &self,
        rt: &R,
        pass: &mut Pass<J>,
        draft: Draft,
    ) -> Result<u64, CommitRefused>
        requires touched { All (λ t. t.place ≤ pass.old.place) draft.touched }
        requires issued { AreIssued pass.old.next draft.writes }
        ensures ok { IfOk result (λ n. IsAppended pass.old pass.new draft n []) }
        ensures back { IfErr result (λ refused. refused.draft ≡ draft) }
        ensures conflict { IfErr result (λ refused. WhereConflict (IsConflict pass.old pass.new draft.touched) refused.cause) }
        ensures read { OnErr result (HasRead pass.old pass.new) }
        ensures lists { pass.new.lists ≡ pass.old.lists }
    {
        let appended = {
            let mut desk = self.lock_at(rt, pass.place());
            desk.catch_up(rt, &self.words.ids, pass.next());
            desk.commit(rt, &self.words, pass, draft)
        };
        self.changed.notify_one();
        appended
    }

    /// Draws the next id, makes it the last identifier of the key of the draft's one put, and appends that as the next commit, all at
    /// once. The draft touched nothing, and its key ends in an id; each other id of 2^52 or more in the key is below the pass's id
    /// counter. It is refused where no id is left, or else when out of memory, or where the journal has 2^48 commits. A refusal draws
    /// and records nothing, and hands the draft back.
    pub fn commit_new<R: Wait>(
        &self,
        rt: &R,
        pass: &mut Pass<J>,
        draft: Draft,
    ) -> Result<NewCommit, NewRefused>
        requires untouched { draft.touched ≡ [] }
        requires one_put { IsTrue (is_one_put draft.writes) }
        requires issued { (id : ℕ) → pass.old.next ≤ id → AreIssued (id + 1) (renumbered_commit draft id).writes }
        ensures ok { IfOk result (λ new. (pass.old.next ≤ new.id) × (new.id < greatest_id) × (pass.new.next ≡ new.id + 1)
            × IsAppended pass.old pass.new (renumbered_commit draft new.id) new.commit (new.id ∷ [])) }
        ensures back { IfErr result (λ refused. refused.draft ≡ draft) }
        ensures exhausted { IfErr result (λ refused. WhereExhausted
            (λ next. (pass.old.next ≤ next) × (pass.new.next ≡ next) × (greatest_id < next + 1)) refused.cause) }
        ensures read { OnErr result (HasRead pass.old pass.new) }
        ensures lists { pass.new.lists ≡ pass.old.lists }
    {
        let appended = {
            let mut desk = self.lock_at(rt, pass.place());
            desk.commit_new(rt, &self.words, pass, draft)
        };
        self.changed.notify_one();
        appended
    }
}
