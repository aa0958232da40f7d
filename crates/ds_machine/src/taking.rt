//! Taking effect.
ghost use Rattle.std.specs.Prelude.{◌≡◌, ◌≢◌, ◌+◌, ◌≤◌, ◌++◌, ◌∷◌, [], false, true, None, length, All, IsOk, IfOk, OnOk, OnErr};
ghost use Rattle.ds_log.specs.Conflicts.{conflict_of};
ghost use Rattle.ds_log.specs.Ids.{AreIssued};
ghost use Rattle.ds_machine.specs.Effects.{IsAllowed, MayCommit, MayCommitWrite, MayWriteGroup, session_after, store_after};

use crate::state::State;
use ds_base::NoMemory;
use ds_effects::effect::{Effect, GroupWrite, WriteCommit};
use ds_journal::{Book, Draft};
use ds_protocol::Session;
use ds_reply::Body;
use std::alloc::Global;

impl State {
    /// Takes effect. A refusal means out of memory and changes nothing.
    pub fn take(
        &mut self,
        alloc: Global,
        session: &mut Session,
        effect: Effect,
    ) -> Result<(), NoMemory>
        requires { IsAllowed effect self.old session.old }
        ensures ok { OnOk result (self.new ≡ record self.old { store = store_after effect self.old.store }) }
        ensures seen { OnOk result (session.new ≡ session_after effect self.old.store session.old) }
        ensures err { OnErr result (self.new ≡ self.old) }
        ensures unseen { OnErr result (session.new ≡ session.old) }
    {
        match effect {
            Effect::Nothing => Ok(()),
            Effect::SeeNext { next } => done(session.see_next(next)),
            Effect::Begin { several_groups } => done(session.begin(alloc, several_groups)),
            Effect::End => done(session.end()),
            Effect::EndAt { place } => done(session.end_at(place)),
            Effect::CommitWrite(write) => self.commit_write(session, write),
            Effect::CommitTransaction(draft) => self.commit_transaction(session, draft),
            Effect::WriteGroup(write) => self.write_group(session, write),
            Effect::ReadGroup(read) => session.read_group(read),
            Effect::SeeCounts(seen) => done(session.see_all(&seen)),
            Effect::Settle { place, seen } => done(session.settle(place, &seen)),
            Effect::SeeCount(seen) => done(session.see_one(&seen)),
        }
    }

    /// Commits a write by itself and shows its number. A refusal means out of memory and changes nothing.
    fn commit_write(&mut self, session: &mut Session, write: WriteCommit) -> Result<(), NoMemory>
        requires { MayCommitWrite write self.old }
        ensures ok { OnOk result (self.new ≡ record self.old { store = store_after (Effect.CommitWrite write) self.old.store }) }
        ensures seen { OnOk result (session.new ≡ session_after (Effect.CommitWrite write) self.old.store session.old) }
        ensures err { OnErr result (self.new ≡ self.old) }
        ensures unseen { OnErr result (session.new ≡ session.old) }
    {
        let commit = self.commit(write.draft)?;
        session.see_place(commit);
        session.see_next(write.next);
        Ok(())
    }

    /// Commits the transaction, which ends, and shows the commit's number. A refusal means out of memory and changes nothing.
    fn commit_transaction(&mut self, session: &mut Session, draft: Draft) -> Result<(), NoMemory>
        requires { MayCommit draft self.old }
        ensures ok { OnOk result (self.new ≡ record self.old { store = store_after (Effect.CommitTransaction draft) self.old.store }) }
        ensures seen { OnOk result (session.new ≡ session_after (Effect.CommitTransaction draft) self.old.store session.old) }
        ensures err { OnErr result (self.new ≡ self.old) }
        ensures unseen { OnErr result (session.new ≡ session.old) }
    {
        let commit = self.commit(draft)?;
        session.end_at(commit);
        Ok(())
    }

    /// The transaction takes a write. A refusal means out of memory and changes nothing.
    fn write_group(&mut self, session: &mut Session, write: GroupWrite) -> Result<(), NoMemory>
        requires { MayWriteGroup write self.old session.old }
        ensures ok { OnOk result (self.new ≡ record self.old { store = store_after (Effect.WriteGroup write) self.old.store }) }
        ensures seen { OnOk result (session.new ≡ session_after (Effect.WriteGroup write) self.old.store session.old) }
        ensures err { OnErr result (self.new ≡ self.old) }
        ensures unseen { OnErr result (session.new ≡ session.old) }
    {
        session.write(write.group, write.place, write.write)?;
        session.see_place(write.place);
        session.see_next(write.next);
        Ok(())
    }

    /// Appends a commit that conflicts with nothing, and gives its number. All memory is taken before that; a refusal means out of memory
    /// and changes nothing.
    fn commit(&mut self, draft: Draft) -> Result<u64, NoMemory>
        requires touched_before { All (λ touch. touch.place ≤ length self.old.store.journal) draft.touched }
        requires issued { AreIssued self.old.store.next draft.writes }
        requires serial { conflict_of self.old.store.journal draft.touched ≡ None }
        ensures number { IfOk result (λ n. n ≡ length self.old.store.journal + 1) }
        ensures ok { OnOk result (self.new ≡ record self.old {
          store = record self.old.store { journal = self.old.store.journal ++ draft ∷ [] };
        }) }
        ensures err { OnErr result (self.new ≡ self.old) }
    {
        self.book.make_room(&draft)?;
        Ok(self.book.append(draft))
    }
}

/// There was no lack of memory.
fn done(_effect: ()) -> Result<(), NoMemory>
    ensures { IsOk result }
{
    Ok(())
}

/// Whether it tells of lack of memory.
pub fn is_no_memory(body: &Body) -> bool
    ensures yes { result ≡ true → body.now ≡ Body.NoMemory }
    ensures no { result ≡ false → body.now ≢ Body.NoMemory }
{
    match body {
        Body::NoMemory => true,
        _ => false,
    }
}
