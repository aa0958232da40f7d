//! The journal with its heads and the id counter.
ghost use Rattle.std.specs.Prelude.{◌≡◌, ◌+◌, ◌<◌, ◌≤◌, ◌^◌, ◌↔◌, ◌++◌, ◌∷◌, [], List, None, Some, cond, length};
ghost use Rattle.std.specs.Prelude.{IsOk, IfOk, IfErr, OnOk, OnErr};
ghost use Rattle.std.specs.List.{All, list_any};
ghost use Rattle.std.specs.Option.{option_map};
ghost use Rattle.std.specs.Result.{result_err};
ghost use Rattle.ds_base.specs.Keys.{KeyParts};
ghost use Rattle.ds_base.specs.KeyOrder.{same_key};
ghost use Rattle.ds_base.specs.Limits.{first_drawn_id, greatest_id};
ghost use Rattle.ds_log.specs.declared.Touch.{Touch};
ghost use Rattle.ds_log.specs.Conflicts.{conflict_from, conflict_of};
ghost use Rattle.ds_log.specs.Heads.{last_noted};
ghost use Rattle.ds_log.specs.Ids.{AreIssued, unissued_id};
ghost use Rattle.ds_journal.specs.Books.{BookParts, IsBook, IsCommitAnswer};

use crate::draft::Draft;
use crate::ids::{check_id, check_left};
use crate::refusals::{CommitCause, CommitRefused, IdNotIssued, IdsExhausted};
use ds_base::limits::{FIRST_DRAWN_ID, MAX_COMMITS};
use ds_base::{Key, NoMemory};
use ds_log::{Commit, Conflict, Heads, Journal, Touch};
use std::alloc::{AllocError, Global};
use std::marker::Model;

/// The journal, the heads of the groups' logs and the id counter.
///
/// Contracts see the journal, the counter and `spare`: a commit of fewer writes than that asks for no memory.
#[derive(Drop)]
pub struct Book {
    journal: Vec<Commit>,
    heads: Heads,
    next: u64,
}

impl Model for Book {
    ghost use Rattle.std.specs.Vec.{vec_len, vec_capacity};
    ghost use Rattle.ds_log.specs.Heads.{AreHeadsOf};
    ghost use Rattle.ds_journal.specs.Books.{BookParts, IsBook, room_for_commit};

    ghost Value = { BookParts };

    ghost view = { λ b. record {
      journal = b.journal.items;
      next = b.next;
      spare =
          room_for_commit (vec_len b.journal) (vec_capacity b.journal) b.heads.spare;
    } };

    ghost invariant = { λ b. IsBook b.journal.items b.next × AreHeadsOf b.journal.items b.heads };
}

impl Book {
    /// A book without commits, whose id counter is 2^52. It takes no memory.
    pub fn make(alloc: Global) -> Book
        ensures journal { result.journal ≡ [] }
        ensures next { result.next ≡ first_drawn_id }
    {
        Book {
            journal: Vec::new(alloc),
            heads: Heads::make(alloc),
            next: FIRST_DRAWN_ID,
        }
    }

    /// The commits, the n-th being commit n, with what every book keeps. It takes no memory.
    pub fn journal(&self) -> &[Commit]
        ensures value { result.now ≡ self.now.journal }
        ensures lawful { IsBook self.now.journal self.now.next }
    {
        self.journal.as_slice()
    }

    /// The id counter: the next id that is drawn, from 2^52 to 2^63 - 1. It takes no memory.
    pub fn next(&self) -> u64
        ensures value { result ≡ self.now.next }
        ensures lawful { IsBook self.now.journal self.now.next }
    {
        self.next
    }

    /// The journal, moved out. It takes no memory.
    pub fn end(self) -> Journal
        ensures value { result ≡ self.journal }
        ensures lawful { IsBook self.journal self.next }
    {
        let Book {
            journal,
            heads: _heads,
            next: _next,
        } = self;
        Journal::from(journal)
    }

    /// The heads of the groups' logs, which tell the conflict of any touched groups with the journal. It takes no memory.
    pub fn heads(&self) -> &Heads
        ensures { (touched : List Touch) → conflict_from (last_noted result.now) result.now.commits 0 touched
            ≡ conflict_of self.now.journal touched }
    {
        &self.heads
    }

    /// The answer on conflicts that `commit` would give to the draft: the first touched group that a commit after its touch
    /// place wrote, with the last such commit, and the journal's length. It takes no memory, and one look-up per group.
    pub fn check(&self, draft: &Draft) -> Result<(), Conflict>
        ensures { result_err result ≡ conflict_of self.now.journal draft.now.touched }
    {
        check_touches(&self.heads, draft.commit().touched.as_slice())
    }

    /// Makes room for the draft: up to the next `commit`, a commit of it isn't refused when out of memory, renumbered or not.
    /// A refusal records nothing, and doesn't come where there is the room already; it comes too where the journal has 2^48 commits.
    pub fn make_room(&mut self, draft: &Draft) -> Result<(), NoMemory>
        ensures ok { OnOk result (length draft.now.writes < self.new.spare) }
        ensures succeeds { length draft.now.writes < self.old.spare → IsOk result }
        ensures journal { self.new.journal ≡ self.old.journal }
        ensures next { self.new.next ≡ self.old.next }
    {
        if self.heads.length() >= MAX_COMMITS {
            return Err(AllocError);
        }
        self.journal.reserve(1)?;
        self.heads.make_room(draft.commit().writes.len() as u32)
    }

    /// Appends the draft as commit |J| + 1 of a journal J, and gives that number. It is refused where it conflicts, with the
    /// answer of `check`, or else when out of memory, which doesn't come where there is room; a refusal records nothing and
    /// hands the draft back. It takes time by the touched and the written groups alone.
    pub fn commit(&mut self, draft: Draft) -> Result<u64, CommitRefused>
        requires touched_before { All (λ t. t.place ≤ length self.old.journal) draft.touched }
        requires issued { AreIssued self.old.next draft.writes }
        ensures number { IfOk result (λ n. n ≡ length self.old.journal + 1) }
        ensures appended { OnOk result (self.new.journal ≡ self.old.journal ++ draft ∷ []) }
        ensures answer { IsCommitAnswer (conflict_of self.old.journal draft.touched)
            (option_map (λ refused. refused.cause) (result_err result)) }
        ensures room { length draft.writes < self.old.spare
            → option_map (λ refused. refused.cause) (result_err result) ≡ option_map CommitCause.Conflict
            (conflict_of self.old.journal draft.touched) }
        ensures back { IfErr result (λ refused. refused.draft ≡ draft) }
        ensures err { OnErr result (self.new.journal ≡ self.old.journal) }
        ensures next { self.new.next ≡ self.old.next }
    {
        if let Err(conflict) = self.check(&draft) {
            return Err(CommitRefused {
                draft,
                cause: CommitCause::Conflict(conflict),
            });
        }
        if self.make_room(&draft).is_err() {
            return Err(CommitRefused {
                draft,
                cause: CommitCause::NoMemory,
            });
        }
        Ok(self.append(draft))
    }

    /// Appends a draft that has no conflict by `check`, and for which `make_room` made room, as commit |J| + 1 of a journal J, and gives
    /// that number. It takes no memory, and time by the written groups alone.
    pub fn append(&mut self, draft: Draft) -> u64
        requires touched_before { All (λ t. t.place ≤ length self.old.journal) draft.touched }
        requires issued { AreIssued self.old.next draft.writes }
        requires serial { conflict_of self.old.journal draft.touched ≡ None }
        requires room { length draft.writes < self.old.spare }
        ensures number { result ≡ length self.old.journal + 1 }
        ensures appended { self.new.journal ≡ self.old.journal ++ draft ∷ [] }
        ensures next { self.new.next ≡ self.old.next }
    {
        let number = self.heads.length() + 1;
        let (commit, groups) = draft.into_parts();
        note_all(&mut self.heads, groups, number);
        self.heads.end_commit();
        self.journal.push(commit).unwrap();
        number
    }

    /// Draws the next `count` ids, and gives the first of them: they are `first` up to but without `first + count`. It is
    /// refused exactly where that is above 2^63 - 1, which changes nothing. It takes no memory.
    pub fn issue(&mut self, count: u64) -> Result<u64, IdsExhausted>
        requires { 1 ≤ count }
        ensures exact { IsOk result ↔ (self.old.next + count ≤ greatest_id) }
        ensures first { IfOk result (λ first. first ≡ self.old.next) }
        ensures drawn { OnOk result (self.new ≡ record self.old { next = self.old.next + count }) }
        ensures told { IfErr result (λ refused. refused.next ≡ self.old.next) }
        ensures err { OnErr result (self.new ≡ self.old) }
    {
        check_left(self.next, count)?;
        let first = self.next;
        self.next += count;
        Ok(first)
    }

    /// Whether an id may stand in a written key: refused exactly where it is at least 2^52 and not below the counter. It
    /// takes no memory.
    pub fn check_id(&self, id: u64) -> Result<(), IdNotIssued>
        ensures { result_err result ≡ option_map (λ i. record { id = i; next = self.now.next }) (unissued_id self.now.next id) }
    {
        check_id(self.next, id)
    }

    /// Raises the id counter to `next`, at most 2^63 - 1. It takes no memory.
    pub fn raise(&mut self, next: u64)
        requires rises { self.old.next ≤ next }
        requires bounded { next ≤ greatest_id }
        ensures { self.new ≡ record self.old { next = next } }
    {
        self.next = next;
    }
}

/// The conflict that touched groups have by the heads.
fn check_touches(heads: &Heads, touched: &[Touch]) -> Result<(), Conflict>
    requires { length touched.now < 2 ^ 32 }
    ensures { result_err result ≡ conflict_from (last_noted heads.now) heads.now.commits 0 touched.now }
{
    for (i, touch) in touched.iter().enumerate() {
        if let Some(commit) = heads.last_after(&touch.group, touch.place) {
            return Err(Conflict {
                group: i as u32,
                commit,
                place: heads.length(),
            });
        }
    }
    Ok(())
}

/// Makes a commit the last one of each of these groups, for which there is room.
fn note_all(heads: &mut Heads, groups: Vec<Key>, commit: u64)
    requires { length groups.items ≤ heads.old.spare }
    ensures lasts { (g : KeyParts)
        → last_noted heads.new g ≡ cond (list_any (λ k. same_key k g) groups.items) (Some commit) (last_noted heads.old g) }
    ensures commits { heads.new.commits ≡ heads.old.commits }
{
    for group in groups {
        heads.note(group, commit).unwrap();
    }
}
