//! The refusals of requests that are no searches, as the definitions, the transaction and the request decide them.
ghost use Rattle.std.specs.Prelude.{◌≡◌, None, Some, IfSome, IsTrue};
ghost use Rattle.ds_log.specs.Ids.{first_unissued};
ghost use Rattle.ds_model.specs.Groups.{with_transaction};
ghost use Rattle.ds_model.specs.Refusals.{refusal_of, row_refusal};
ghost use Rattle.ds_model.specs.Sessions.{Session};
ghost use Rattle.ds_protocol.specs.Operations.{call_of, ids_asked, written_path};
ghost use Rattle.ds_protocol.specs.Refused.{IsRefusal, is_quiet, tells_no_step};

use crate::ids::first_unissued;
use crate::operations::Operation;
use crate::transaction::OpenTransaction;
use ds_entity::Entity;
use ds_indexdef::Defs;
use ds_reply::Body;
use ds_rows::{RowsRefused, count_rows};
use std::alloc::Global;

/// The first refusal of a request that the index definitions, the client's transaction and the request decide, in the order of the table of
/// refusals; `None` where there is none, and for a search, whose refusals `prepare` tells. Those that the journal and the id counter decide
/// come after it. `NoMemory` means out of memory alone. Nothing is owned while it is made.
pub fn refusal_of(
    alloc: Global,
    defs: &Defs,
    transaction: &OpenTransaction,
    operation: &Operation,
) -> Option<Body>
    ensures told { (s : Session)
        → IsRefusal (refusal_of defs.now (with_transaction transaction.now.transaction s) (call_of operation.now)) result }
    ensures quiet { IfSome result (λ b. IsTrue (is_quiet b)) }
    ensures numberless { IfSome result (λ b. IsTrue (tells_no_step b)) }
{
    match operation {
        Operation::Put { entity, incomplete } => {
            let key = entity.key();
            match row_refusal(alloc, defs, entity) {
                Some(body) => Some(body),
                None => transaction.key_refusal(alloc, key, *incomplete),
            }
        }
        Operation::Delete { key } => transaction.key_refusal(alloc, key, false),
        Operation::Get { key } => transaction.read_refusal(alloc, key),
        Operation::Begin { .. } | Operation::Settle | Operation::Apply { .. } => {
            transaction.transaction().map(|_| Body::InTransaction)
        }
        Operation::Commit | Operation::Rollback => match transaction.transaction() {
            Some(_) => None,
            None => Some(Body::NoTransaction),
        },
        Operation::Find(_) | Operation::AllocateIds { .. } => None,
    }
}

/// That the entity would have too many index rows, or that there is no memory to count them.
fn row_refusal(alloc: Global, defs: &Defs, entity: &Entity) -> Option<Body>
    ensures told { IsRefusal (row_refusal defs.now entity.now) result }
    ensures quiet { IfSome result (λ b. IsTrue (is_quiet b)) }
    ensures numberless { IfSome result (λ b. IsTrue (tells_no_step b)) }
{
    match count_rows(alloc, defs, entity) {
        Ok(_) => None,
        Err(RowsRefused::TooManyRows { count }) => Some(Body::TooManyRows { count }),
        Err(RowsRefused::NoMemory) => Some(Body::NoMemory),
    }
}

impl Operation {
    /// How many ids are drawn for it: one for a put whose key is incomplete, and as many as are asked for.
    pub fn ids_asked(&self) -> u64
        ensures { result ≡ ids_asked (call_of self.now) }
    {
        match self {
            Operation::Put { incomplete, .. } if *incomplete => 1,
            Operation::AllocateIds { count } => *count,
            _ => 0,
        }
    }

    /// The first id of the written key that, with the id counter at `next`, isn't given yet: it refuses a put or a delete.
    pub fn first_unissued(&self, next: u64) -> Option<u64>
        ensures { result ≡ first_unissued next (written_path self.now) }
    {
        match self {
            Operation::Put { entity, .. } => {
                first_unissued(entity.key().elems().as_slice(), next)
            }
            Operation::Delete { key } => first_unissued(key.elems().as_slice(), next),
            _ => None,
        }
    }
}
