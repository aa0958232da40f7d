//! The request of the members that were read.
ghost use Rattle.std.specs.Prelude.{◌≡◌, ℕ, Ok, codes, IfSome};
ghost use Rattle.serde_json.specs.Data.{Members};
ghost use Rattle.ds_json_reading.specs.Reading.{member_of, optional};
ghost use Rattle.ds_json_reading.specs.Keys.{key_of};
ghost use Rattle.ds_request.specs.Common.{HoldsLine};
ghost use Rattle.ds_request.specs.Entities.{entity_of};
ghost use Rattle.ds_member_reading.specs.Forms.{flag_of, count_of, shard_of};
ghost use Rattle.ds_request.specs.Lawful.{IsLawfulCall};
ghost use Rattle.ds_request.specs.Requests.{call_of, object_request_of, put_call_of, get_call_of, delete_call_of, begin_call_of};
ghost use Rattle.ds_request.specs.Requests.{allocate_ids_call_of, apply_call_of};

use crate::call::{Call, Request};
use crate::common::members::LineTable;
use crate::common::queries::query_of;
use crate::forms::entities::Written;
use crate::operation::Operation;
use ds_base::Key;
use std::alloc::Global;

/// The request of a table of members; none where a member is missing, or for an operation whose lines aren't read here.
pub(crate) fn request_of(alloc: Global, table: &mut LineTable) -> Option<Request>
    ensures { (ms : Members) → HoldsLine table.old ms
        → IfSome result (λ r. (object_request_of ms ≡ Ok r) × IsLawfulCall r.call) }
{
    let operation = table.slots.0.found?;
    let client = table.slots.1.1.0.found.unwrap_or(0);
    let call = call_of(alloc, operation, table)?;
    Some(Request { client, call })
}

/// The call of an operation, which takes what it asks for out of the table.
fn call_of(alloc: Global, operation: Operation, table: &mut LineTable) -> Option<Call>
    ensures { (client : ℕ) (ms : Members) → HoldsLine table.old ms
        → IfSome result (λ c. (call_of client ms operation ≡ Ok c) × IsLawfulCall c) }
{
    match operation {
        Operation::Put => put(table.slots.1.0.found.take()),
        Operation::Delete => delete(table.slots.1.1.1.0.found.take()),
        Operation::Get => get(table.slots.1.1.1.0.found.take()),
        Operation::Begin => Some(begin(table.slots.1.1.1.1.0.found)),
        Operation::Commit => Some(Call::Commit),
        Operation::Rollback => Some(Call::Rollback),
        Operation::Settle => Some(Call::Settle),
        Operation::AllocateIds => allocate_ids(table.slots.1.1.1.1.1.0.found),
        Operation::Apply => apply(table.slots.1.1.1.1.1.1.0.found),
        Operation::Query => Some(query_of(alloc, &mut table.slots.1.1.1.1.1.1.1)),
        Operation::Gql => None,
    }
}

fn put(entity: Option<Written>) -> Option<Call>
    ensures { (client : ℕ) (ms : Members) → optional entity_of (member_of (codes "entity") ms) ≡ Ok entity
        → IfSome result (λ c. (put_call_of client ms ≡ Ok c) × IsLawfulCall c) }
{
    match entity {
        Some(written) => Some(written.into_call()),
        None => None,
    }
}

fn get(key: Option<Key>) -> Option<Call>
    ensures { (client : ℕ) (ms : Members) → optional key_of (member_of (codes "key") ms) ≡ Ok key
        → IfSome result (λ c. (get_call_of client ms ≡ Ok c) × IsLawfulCall c) }
{
    match key {
        Some(key) => Some(Call::Get { key }),
        None => None,
    }
}

fn delete(key: Option<Key>) -> Option<Call>
    ensures { (client : ℕ) (ms : Members) → optional key_of (member_of (codes "key") ms) ≡ Ok key
        → IfSome result (λ c. (delete_call_of client ms ≡ Ok c) × IsLawfulCall c) }
{
    match key {
        Some(key) => {
            if !key.writable() {
                return None;
            }
            Some(Call::Delete { key })
        }
        None => None,
    }
}

fn begin(xg: Option<bool>) -> Call
    ensures { (client : ℕ) (ms : Members) → optional flag_of (member_of (codes "xg") ms) ≡ Ok xg
        → (begin_call_of client ms ≡ Ok result) × IsLawfulCall result }
{
    Call::Begin {
        xg: xg.unwrap_or(false),
    }
}

fn allocate_ids(count: Option<u64>) -> Option<Call>
    ensures { (client : ℕ) (ms : Members) → optional count_of (member_of (codes "count") ms) ≡ Ok count
        → IfSome result (λ c. (allocate_ids_call_of client ms ≡ Ok c) × IsLawfulCall c) }
{
    match count {
        Some(count) => Some(Call::AllocateIds { count }),
        None => None,
    }
}

fn apply(shard: Option<u64>) -> Option<Call>
    ensures { (client : ℕ) (ms : Members) → optional shard_of (member_of (codes "shard") ms) ≡ Ok shard
        → IfSome result (λ c. (apply_call_of client ms ≡ Ok c) × IsLawfulCall c) }
{
    match shard {
        Some(shard) => Some(Call::Apply { shard }),
        None => None,
    }
}
