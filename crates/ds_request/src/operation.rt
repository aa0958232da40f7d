//! The operations by their names.
ghost use Rattle.std.specs.Prelude.{◌≡◌};
ghost use Rattle.serde_json.specs.Data.{string};
ghost use Rattle.serde_json.specs.View.{view};
ghost use Rattle.ds_request.specs.Requests.{operation_of};

use ds_json_reading::Refusal;
use serde_json::Value;

/// What the member `op` of a line names.
#[derive(Clone, Copy, PartialEq, Eq)]
pub(crate) enum Operation {
    Put,
    Delete,
    Get,
    Query,
    Gql,
    Begin,
    Commit,
    Rollback,
    Settle,
    AllocateIds,
    Apply,
}

/// The operation that the value names, in just these letters.
pub(crate) fn operation_of(value: &Value) -> Result<Operation, Refusal>
    ensures { result ≡ operation_of (view value.now) }
{
    match value.as_str() {
        Some(name) => named(name),
        None => Err(Refusal::Request),
    }
}

/// The operation of this name.
pub(crate) fn named(name: &str) -> Result<Operation, Refusal>
    ensures { result ≡ operation_of (string name.now) }
{
    Ok(match name {
        "put" => Operation::Put,
        "delete" => Operation::Delete,
        "get" => Operation::Get,
        "query" => Operation::Query,
        "gql" => Operation::Gql,
        "begin" => Operation::Begin,
        "commit" => Operation::Commit,
        "rollback" => Operation::Rollback,
        "settle" => Operation::Settle,
        "allocate_ids" => Operation::AllocateIds,
        "apply" => Operation::Apply,
        _ => return Err(Refusal::Request),
    })
}
