//! What is refused at its opening, and what is kept of a request that isn't.
ghost use Rattle.std.specs.Prelude.{◌≡◌, [], None, Some, IfErr, IfOk, IfSome, IsTrue};
ghost use Rattle.ds_log.specs.Ids.{first_unissued};
ghost use Rattle.ds_request.specs.declared.call.Call.{Call};
ghost use Rattle.ds_request.specs.Lawful.{IsLawfulCall};
ghost use Rattle.ds_model.specs.Asked.{has_shard};
ghost use Rattle.ds_model.specs.Refusals.{ancestor_group_refusal, refusal_of};
ghost use Rattle.ds_protocol.specs.Operations.{IsLawfulOperation, IsOperationOf, call_of, written_path};
ghost use Rattle.ds_protocol.specs.Refused.{IsRefusal, is_quiet, tells_no_step};
ghost use Rattle.ds_protocol.specs.Searches.{IsLawfulSearch};
ghost use Rattle.ds_machine.specs.Due.{IsDuePlan};
ghost use Rattle.ds_machine.specs.Opening.{IsReadyFor, IsRefusedIn, IsUnrefused};
ghost use Rattle.ds_machine.specs.States.{IsSession};
ghost use Rattle.ds_machine.specs.Told.{ToldAlways};

use crate::state::State;
use ds_effects::effect::{Effect, Plan};
use ds_protocol::{Operation, Ready, Search, Session, group_of, operation_of, prepare, refusal_of};
use ds_reply::Body;
use ds_request::Call;
use std::alloc::Global;

/// What a request asks that nothing refuses at its opening.
#[derive(Drop)]
pub struct Work {
    /// What it asks, taken apart once.
    pub operation: Operation,
    /// A search made ready, once.
    pub ready: Option<Ready>,
}

impl State {
    /// What a request asks; or the plan of its refusal, which needs no step. The refusals come in the order of the table of refusals, and
    /// each id of a written key is tested against the id counter here alone. `NoMemory` means out of memory alone.
    pub fn open(
        &self,
        alloc: Global,
        session: &Session,
        client: u32,
        call: Call,
    ) -> Result<Work, Plan>
        requires lawful { IsLawfulCall call }
        requires shard { IsTrue (has_shard self.now.store.shards call) }
        requires seen { IsSession self.now session.now }
        ensures asked { IfOk result (λ w. IsOperationOf call w.operation) }
        ensures work { IfOk result (λ w. IsUnrefused self.now session.now w.operation w.ready) }
        ensures refused { IfErr result (λ p. IsDuePlan self.now session.now client call [] p.body p.effect) }
        ensures told { IfErr result (λ p. ToldAlways self.now session.now p.body p.effect) }
    {
        match operation_of(alloc, call) {
            Ok(operation) => match self.ready_for(alloc, session, &operation) {
                Ok(ready) => Ok(Work { operation, ready }),
                Err(plan) => {
                    drop(operation);
                    Err(plan)
                }
            },
            Err(refused) => Err(Plan::refused(refused.body())),
        }
    }

    /// The search made ready, if what is asked is one, unless it is refused.
    fn ready_for(
        &self,
        alloc: Global,
        session: &Session,
        operation: &Operation,
    ) -> Result<Option<Ready>, Plan>
        requires lawful { IsLawfulOperation operation.now }
        requires shard { IsTrue (has_shard self.now.store.shards (call_of operation.now)) }
        requires seen { IsSession self.now session.now }
        ensures ready { IfOk result (IsUnrefused self.now session.now operation.now) }
        ensures refused { IfErr result (IsRefusedIn self.now session.now operation.now) }
    {
        if let Some(plan) = self.refusal(alloc, session, operation) {
            return Err(plan);
        }
        match operation {
            Operation::Find(search) => match self.ready_search(alloc, session, search) {
                Ok(ready) => Ok(Some(ready)),
                Err(plan) => Err(plan),
            },
            _ => Ok(None),
        }
    }

    /// Why what is asked is refused: by the definitions, the transaction and the request, or by an id that isn't drawn yet.
    fn refusal(&self, alloc: Global, session: &Session, operation: &Operation) -> Option<Plan>
        requires { IsSession self.now session.now }
        ensures refused { IfSome result (IsRefusedIn self.now session.now operation.now) }
        ensures unrefused { result ≡ None → refusal_of self.now.store.definitions session.now (call_of operation.now) ≡ None }
        ensures issued { result ≡ None → first_unissued self.now.store.next (written_path operation.now) ≡ None }
    {
        if let Some(body) = refusal_of(alloc, &self.defs, session.open(), operation) {
            return Some(Plan::refused(body));
        }
        let next = self.book.next();
        match operation.first_unissued(next) {
            Some(id) => Some(Plan {
                body: Body::IdNotIssued { id, next },
                effect: Effect::SeeNext { next },
            }),
            None => None,
        }
    }

    /// A search made ready. It may be refused by its form, its cursors, for want of an index, or by its group.
    #[tactic(auto, using(crate::proofs::Citing::prepared_laws))]
    fn ready_search(&self, alloc: Global, session: &Session, search: &Search) -> Result<Ready, Plan>
        requires { IsLawfulSearch search.now }
        ensures ready { IfOk result (λ r. IsReadyFor self.now session.now (Operation.Find search.now) (Some r)) }
        ensures refused { IfErr result (IsRefusedIn self.now session.now (Operation.Find search.now)) }
    {
        match prepare(alloc, &self.defs, session.in_transaction(), search) {
            Ok(ready) => match group_refusal(alloc, session, search) {
                Some(body) => {
                    drop(ready);
                    Err(Plan::refused(body))
                }
                None => Ok(ready),
            },
            Err(body) => Err(Plan::refused(body)),
        }
    }
}

/// Why the client's transaction, if there is one, may not touch the group of a search; or that there is no memory to tell it.
fn group_refusal(alloc: Global, session: &Session, search: &Search) -> Option<Body>
    ensures told { IsRefusal (ancestor_group_refusal session.now.transaction search.now.query.ancestor) result }
    ensures quiet { IfSome result (λ b. IsTrue (is_quiet b)) }
    ensures numberless { IfSome result (λ b. IsTrue (tells_no_step b)) }
{
    match group_of(alloc, search) {
        Ok(Some(group)) => session.group_refusal(alloc, Some(&group)),
        Ok(None) => None,
        Err(_) => Some(Body::NoMemory),
    }
}
