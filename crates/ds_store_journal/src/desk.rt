//! What lies under the journal's lock.
ghost use Rattle.std.specs.Prelude.{◌≡◌, ℕ, ◌+◌, ◌<◌, ◌≤◌, ◌++◌, ◌∷◌, [], All, IsTrue, IfOk, IfErr, OnErr, OnOk, length};
ghost use mathlib.Core.List.{IsPrefix};
ghost use Rattle.ds_base.specs.Limits.{greatest_id, first_drawn_id, most_commits};
ghost use Rattle.ds_log.specs.Ids.{AreIssued};
ghost use Rattle.ds_journal.specs.Drafts.{is_one_put, renumbered_commit};
ghost use Rattle.ds_store_passes.specs.Answered.{HasDrawn, HasLooked, HasSeenNext, IsAppended, IsConflict, WhereConflict, WhereExhausted};
ghost use Rattle.ds_store_passes.specs.Loads.{also_owns, has_all};
ghost use Rattle.ds_store_passes.specs.Passes.{HasRead};

use ds_base::limits::MAX_ID;
use ds_draw::{Seat, Word};
use ds_hub::{HeldWriter, Itself, Tells};
use ds_journal::{Book, CommitCause, CommitRefused, Draft, IdsExhausted};
use ds_log::Commit;
use ds_store_hubs::{JournalState, Names, look_up_to, tell};
use ds_store_passes::{NewCause, NewCommit, NewRefused, Pass};
use std::marker::PhantomData;
use std::sync::Wait;

/// The two words from which the passes draw.
#[derive(Drop)]
pub struct Words<J: Names> {
    /// The numbers of commits.
    pub commits: Word,
    /// The ids.
    pub ids: Word,
    /// The store's names.
    pub of: PhantomData<J>,
    pub ghost names: { (commits.name ≡ J.commits) × (ids.name ≡ J.ids) },
    pub ghost begun: { (commits.first ≡ 1) × (ids.first ≡ first_drawn_id) },
}

/// Under the journal's lock: the book, the writer of the hub that tells its commits, and a keeper's seats on both words. The keeper
/// draws nothing: it knows that the word of commits is above all of them, and where the word of ids stands.
#[derive(Drop)]
pub struct JournalDesk<J: Names, H: Wait + Drop> {
    /// All commits, and the id counter.
    pub book: Book,
    /// The writer of the hub that tells the commits.
    pub writer: HeldWriter<(), JournalState, H>,
    /// The keeper's seat on the word of commits.
    pub commits: Seat,
    /// The keeper's seat on the word of ids.
    pub ids: Seat,
    /// The store's names.
    pub of: PhantomData<J>,
    pub ghost of_journal: { writer.writer.hub ≡ J.journal },
    pub ghost of_words: { (commits.word ≡ J.commits) × (ids.word ≡ J.ids) },
    pub ghost told: { (writer.writer.published ≡ book.journal) × (writer.writer.pending ≡ []) },
    pub ghost next_is: { ids.counter ≡ book.next },
    pub ghost numbered: { length book.journal + 1 ≤ commits.counter },
    pub ghost only_looks: { (commits.draws ≡ []) × (ids.draws ≡ []) },
}

impl<J: Names, H: Wait + Drop> JournalDesk<J, H> {
    /// How many commits there are.
    pub fn len(&self) -> u64
        ensures len { result ≡ length self.now.book.journal }
        ensures few { result ≤ most_commits }
    {
        self.book.journal().len() as u64
    }

    /// Shows the pass all commits, of which it has seen no more, and tells how many these are.
    pub fn show<R: Wait>(&mut self, rt: &R, pass: &mut Pass<J>) -> u64
        requires { pass.old.place ≤ length self.old.book.journal }
        ensures desk { self.new.book ≡ self.old.book }
        ensures few { length self.new.book.journal ≤ most_commits }
        ensures looked { HasLooked pass.old pass.new result }
        ensures pass { pass.new ≡ record pass.old { journal = self.old.book.journal; place = length self.old.book.journal } }
        ensures grown { IsPrefix pass.old.journal pass.new.journal }
    {
        let place = self.len();
        pass.see_journal(rt, &mut self.writer.writer);
        place
    }

    /// Raises the book's id counter to what the keeper finds on the word, which it looks at until that isn't below `next`.
    pub fn catch_up<R: Wait>(&mut self, rt: &R, ids: &Word, next: u64)
        requires { ids.now.name ≡ J.ids }
        ensures journal { self.new.book.journal ≡ self.old.book.journal }
        ensures next { next ≤ self.new.book.next }
    {
        let found = look_up_to(rt, ids, &mut self.ids, next);
        self.book.raise(found);
    }

    /// Draws so many ids for the pass, which stand from the given one on.
    pub fn issue<R: Wait>(
        &mut self,
        rt: &R,
        ids: &Word,
        pass: &mut Pass<J>,
        count: u64,
    ) -> Result<u64, IdsExhausted>
        requires word { ids.now.name ≡ J.ids }
        requires some { 1 ≤ count }
        ensures journal { self.new.book.journal ≡ self.old.book.journal }
        ensures ok { IfOk result (λ first. HasDrawn pass.old pass.new first count) }
        ensures caught_up { IfOk result (λ first. first + count ≤ self.new.book.next) }
        ensures err { IfErr result (λ refused. HasSeenNext pass.old pass.new refused.next × (greatest_id < refused.next + count)) }
    {
        pass.look(ids);
        let first = pass.next();
        if count > MAX_ID - first {
            return Err(IdsExhausted { next: first });
        }
        pass.draw_ids(rt, ids, count);
        self.catch_up(rt, ids, first + count);
        Ok(first)
    }

    /// Appends the draft, which touched no place above the pass's and has no id from its counter on, as a commit of the pass.
    pub fn commit<R: Wait>(
        &mut self,
        rt: &R,
        words: &Words<J>,
        pass: &mut Pass<J>,
        draft: Draft,
    ) -> Result<u64, CommitRefused>
        requires place { pass.old.place ≤ length self.old.book.journal }
        requires touched { All (λ t. t.place ≤ pass.old.place) draft.touched }
        requires issued { AreIssued pass.old.next draft.writes }
        requires caught_up { pass.old.next ≤ self.old.book.next }
        ensures ok { IfOk result (λ n. IsAppended pass.old pass.new draft n []) }
        ensures exact { OnOk result ((self.new.book.journal ≡ self.old.book.journal ++ draft ∷ [])
            × (pass.new ≡ also_owns (has_all pass.old self.new.book.journal) (length self.new.book.journal))) }
        ensures next { self.new.book.next ≡ self.old.book.next }
        ensures kept { OnErr result ((self.new.book.journal ≡ self.old.book.journal)
            × (pass.new ≡ has_all pass.old self.old.book.journal)) }
        ensures back { IfErr result (λ refused. refused.draft ≡ draft) }
        ensures conflict { IfErr result (λ refused. WhereConflict (IsConflict pass.old pass.new draft.touched) refused.cause) }
        ensures read { OnErr result (HasRead pass.old pass.new) }
        ensures lists { pass.new.lists ≡ pass.old.lists }
    {
        self.show(rt, pass);
        if let Err(conflict) = self.book.check(&draft) {
            return Err(CommitRefused {
                draft,
                cause: CommitCause::Conflict(conflict),
            });
        }
        if self.book.make_room(&draft).is_err()
            || !tell::<Commit, Itself, R>(rt, &mut self.writer.writer, draft.commit())
        {
            return Err(CommitRefused {
                draft,
                cause: CommitCause::NoMemory,
            });
        }
        pass.own(rt, &words.commits, &mut self.writer.writer);
        let number = pass.place();
        look_up_to(rt, &words.commits, &mut self.commits, number + 1);
        self.book.append(draft);
        Ok(number)
    }

    /// Draws the next id and appends the draft's one put under a key that ends in it, as a commit of the pass.
    pub fn commit_new<R: Wait>(
        &mut self,
        rt: &R,
        words: &Words<J>,
        pass: &mut Pass<J>,
        mut draft: Draft,
    ) -> Result<NewCommit, NewRefused>
        requires place { pass.old.place ≤ length self.old.book.journal }
        requires untouched { draft.touched ≡ [] }
        requires one_put { IsTrue (is_one_put draft.writes) }
        requires issued { (id : ℕ) → pass.old.next ≤ id → AreIssued (id + 1) (renumbered_commit draft id).writes }
        ensures ok { IfOk result (λ new. (pass.old.next ≤ new.id) × (new.id < greatest_id) × (pass.new.next ≡ new.id + 1)
            × IsAppended pass.old pass.new (renumbered_commit draft new.id) new.commit (new.id ∷ [])) }
        ensures back { IfErr result (λ refused. refused.draft ≡ draft) }
        ensures exhausted { IfErr result (λ refused. WhereExhausted
            (λ next. (pass.old.next ≤ next) × (pass.new.next ≡ next) × (greatest_id < next + 1)) refused.cause) }
        ensures read { OnErr result (HasRead pass.old pass.new) }
        ensures lists { pass.new.lists ≡ pass.old.lists }
    {
        self.show(rt, pass);
        pass.look(&words.ids);
        let id = pass.next();
        if id == MAX_ID {
            return Err(NewRefused {
                draft,
                cause: NewCause::IdsExhausted { next: id },
            });
        }
        if self.book.make_room(&draft).is_err()
            || !tell::<WithId<'_>, Renumbered, R>(
                rt,
                &mut self.writer.writer,
                &WithId {
                    commit: draft.commit(),
                    id,
                },
            )
        {
            return Err(NewRefused {
                draft,
                cause: NewCause::NoMemory,
            });
        }
        pass.draw_ids(rt, &words.ids, 1);
        let found = look_up_to(rt, &words.ids, &mut self.ids, id + 1);
        self.book.raise(found);
        draft.renumber(id);
        pass.own(rt, &words.commits, &mut self.writer.writer);
        let commit = pass.place();
        look_up_to(rt, &words.commits, &mut self.commits, commit + 1);
        self.book.append(draft);
        Ok(NewCommit { commit, id })
    }
}

/// A commit whose one put gets this id as the last identifier of its key.
#[derive(Drop)]
pub(crate) struct WithId<'a> {
    pub(crate) commit: &'a Commit,
    pub(crate) id: u64,
}

/// What is told of it: the commit with the id.
pub(crate) struct Renumbered;

impl<'a> Tells<WithId<'a>, Commit> for Renumbered {
    ghost use Rattle.ds_journal.specs.Drafts.{renumbered_commit};

    ghost told = { λ w. renumbered_commit w.commit.now w.id };
}
