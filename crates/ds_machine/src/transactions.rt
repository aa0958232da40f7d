//! Commits of transactions.
ghost use Rattle.std.specs.Prelude.{◌≡◌, None, Some};
ghost use Rattle.ds_log.specs.Conflicts.{conflict_of};
ghost use Rattle.ds_request.specs.declared.call.Call.{Call};
ghost use Rattle.ds_machine.specs.Turns.{ComesTo, IsCommitting, IsDueIn, IsToldIn, IsTurn};

use crate::due::Turn;
use crate::state::State;
use ds_base::copy_of;
use ds_effects::Step;
use ds_effects::effect::{Due, Effect, Plan};
use ds_log::Conflict;
use ds_protocol::{Operation, draft_of_transaction};
use ds_reply::Body;
use ds_txn::Txn;
use std::alloc::Global;

impl State {
    /// A commit waits for a Commit. The transaction is committed, unless a commit after a touch wrote the touched group; then it ends all
    /// the same.
    pub(crate) fn commit_due(&self, alloc: Global, turn: &Turn) -> Due
        requires { IsTurn self.now turn.now Operation.Commit }
        ensures { ComesTo self.now turn.now Operation.Commit result }
    {
        if !turn.taken.is_commit() {
            return Due::Waits(Step::Commit);
        }
        let Some(txn) = turn.session.transaction() else {
            return Due::Reply(Plan::refused(Body::NoTransaction));
        };
        match txn.check(self.book.heads()) {
            Ok(()) => Due::Reply(self.plan_serial(alloc, turn, txn)),
            Err(conflict) => Due::Reply(self.plan_conflict(alloc, turn, txn, conflict)),
        }
    }

    /// The commit of a transaction that conflicts with nothing.
    fn plan_serial(&self, alloc: Global, turn: &Turn, txn: &Txn) -> Plan
        requires commits { IsCommitting self.now turn.now txn.now }
        requires serial { conflict_of self.now.store.journal txn.now.touched ≡ None }
        ensures plan { IsDueIn self.now turn.now Call.Commit result }
        ensures told { IsToldIn self.now turn.now result }
    {
        let Ok(draft) = draft_of_transaction(alloc, turn.client, txn) else {
            return Plan::no_memory();
        };
        // for the proof alone: there are at most 500 writes
        let _ = txn.writes();
        let commit = self.book.journal().len() as u64 + 1;
        Plan {
            body: Body::Commit { commit },
            effect: Effect::CommitTransaction(draft),
        }
    }

    /// Why a transaction isn't committed.
    fn plan_conflict(&self, alloc: Global, turn: &Turn, txn: &Txn, conflict: Conflict) -> Plan
        requires commits { IsCommitting self.now turn.now txn.now }
        requires conflict { conflict_of self.now.store.journal txn.now.touched ≡ Some conflict }
        ensures plan { IsDueIn self.now turn.now Call.Commit result }
        ensures told { IsToldIn self.now turn.now result }
    {
        match copy_of(alloc, txn.group(conflict.group as usize)) {
            Ok(Some(group)) => Plan {
                body: Body::Conflict {
                    commit: conflict.commit,
                    group,
                    place: conflict.place,
                },
                effect: Effect::EndAt {
                    place: conflict.place,
                },
            },
            Ok(None) | Err(_) => Plan::no_memory(),
        }
    }
}
