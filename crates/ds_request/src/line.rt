//! Reading a line.
ghost use Rattle.std.specs.Prelude.{◌≡◌, ◌≤◌, length, option_map, IfOk, MatchResult, Some};
ghost use Rattle.serde_json.specs.View.{view, members_view};
ghost use Rattle.ds_query.specs.Fields.{field_name};
ghost use Rattle.ds_json_reading.specs.Reading.{Reads, defaulted, required, member_of};
ghost use Rattle.ds_member_reading.specs.Forms.{client_of};
ghost use Rattle.ds_request.specs.Lawful.{IsLawfulCall};
ghost use Rattle.ds_request.specs.Requests.{operation_of, call_of, object_request_of, data_request_of, line_data, request_of, client_told};

use crate::call::{Call, Request, RequestRefused};
use crate::common::read_common;
use crate::members::told::told_at;
use crate::operation::{Operation, operation_of};
use crate::operations::allocate_ids::read_allocate_ids;
use crate::operations::apply::read_apply;
use crate::operations::begin::read_begin;
use crate::operations::delete::read_delete;
use crate::operations::get::read_get;
use crate::operations::gql::read_gql;
use crate::operations::put::read_put;
use crate::operations::query::read_query;
use ds_base::limits::{MAX_CLIENT, MAX_LINE_BYTES};
use ds_json_reading::{Members, Refusal, member, up_to};
use ds_json_values::read_text;
use ds_query::Field;
use json::Scratch;
use serde_json::Value;
use std::alloc::{AllocError, Global};

/// Reads the request of a line: the one that `specs/Requests` defines, or the refusal that it defines. Want of memory alone
/// is free.
///
/// `BadJson` comes exactly where the line isn't UTF-8, isn't JSON, or nests deeper than 127 levels. Of an object's members
/// with one name the last counts, a member that is null counts as absent, and unknown members are passed over. The first
/// member that fails is told, in this order: the whole line, `client`, `op`, and then the members of the operation.
pub fn read_request(alloc: Global, line: &[u8]) -> Result<Request, RequestRefused>
    requires { length line.now ≤ MAX_LINE_BYTES }
    ensures read { Reads RequestRefused.NoMemory (request_of line.now) result }
    ensures lawful { IfOk result (λ r. IsLawfulCall r.call) }
    ensures client { MatchResult result (λ r. r.client ≤ MAX_CLIENT) (λ e. client_told e ≤ MAX_CLIENT) }
{
    let mut scratch = Scratch::new(alloc);
    read_request_with(alloc, line, &mut scratch)
}

/// The same over memory that is kept from line to line: `scratch` grows to the length of the longest line in bytes.
pub fn read_request_with(
    alloc: Global,
    line: &[u8],
    scratch: &mut Scratch,
) -> Result<Request, RequestRefused>
    requires { length line.now ≤ MAX_LINE_BYTES }
    ensures read { Reads RequestRefused.NoMemory (request_of line.now) result }
    ensures lawful { IfOk result (λ r. IsLawfulCall r.call) }
    ensures client { MatchResult result (λ r. r.client ≤ MAX_CLIENT) (λ e. client_told e ≤ MAX_CLIENT) }
{
    if let Some(request) = read_common(alloc, line, scratch) {
        return Ok(request);
    }
    match parse(alloc, line, scratch) {
        Ok(parsed) => read_data(alloc, parsed),
        Err(_) => Err(RequestRefused::NoMemory),
    }
}

/// The JSON value of a line; none where it isn't UTF-8 or isn't JSON.
fn parse(alloc: Global, line: &[u8], scratch: &mut Scratch) -> Result<Option<Value>, AllocError>
    ensures { IfOk result (λ d. line_data line.now ≡ option_map view d) }
{
    match simdutf8::compat::from_utf8(line) {
        Ok(text) => read_text(alloc, text, scratch),
        Err(_) => Ok(None),
    }
}

fn read_data(alloc: Global, parsed: Option<Value>) -> Result<Request, RequestRefused>
    ensures read { Reads RequestRefused.NoMemory (data_request_of (option_map view parsed)) result }
    ensures lawful { IfOk result (λ r. IsLawfulCall r.call) }
{
    match parsed {
        Some(value) => read_value(alloc, value),
        None => Err(RequestRefused::BadJson),
    }
}

fn read_value(alloc: Global, value: Value) -> Result<Request, RequestRefused>
    ensures read { Reads RequestRefused.NoMemory (data_request_of (Some (view value))) result }
    ensures lawful { IfOk result (λ r. IsLawfulCall r.call) }
{
    match value {
        Value::Object(members) => read_object(alloc, members),
        _ => Err(RequestRefused::BadRequest {
            client: 0,
            field: Field::Line,
        }),
    }
}

fn read_object(alloc: Global, members: Members) -> Result<Request, RequestRefused>
    ensures read { Reads RequestRefused.NoMemory (object_request_of (members_view members.entries)) result }
    ensures lawful { IfOk result (λ r. IsLawfulCall r.call) }
{
    let client = told_at(0, Field::Client, read_client(&members))?;
    let operation = told_at(client, Field::Op, read_operation(&members))?;
    let call = read_call(alloc, client, members, operation)?;
    Ok(Request { client, call })
}

fn read_client(members: &Members) -> Result<u32, Refusal>
    ensures { result ≡ defaulted 0 client_of
        (member_of (field_name Field.Client) (members_view members.now.entries)) }
{
    match member(members, Field::Client.name()) {
        Some(value) => up_to(MAX_CLIENT, value).ok_or(Refusal::Request),
        None => Ok(0),
    }
}

fn read_operation(members: &Members) -> Result<Operation, Refusal>
    ensures { result ≡ required operation_of
        (member_of (field_name Field.Op) (members_view members.now.entries)) }
{
    match member(members, Field::Op.name()) {
        Some(value) => operation_of(value),
        None => Err(Refusal::Request),
    }
}

/// Reads the members of an operation.
fn read_call(
    alloc: Global,
    client: u32,
    members: Members,
    operation: Operation,
) -> Result<Call, RequestRefused>
    ensures read { Reads RequestRefused.NoMemory (call_of client (members_view members.entries) operation) result }
    ensures lawful { IfOk result IsLawfulCall }
{
    match operation {
        Operation::Put => read_put(alloc, client, members),
        Operation::Delete => read_delete(alloc, client, members),
        Operation::Get => read_get(alloc, client, members),
        Operation::Query => read_query(alloc, client, members),
        Operation::Gql => read_gql(alloc, client, members),
        Operation::Begin => read_begin(alloc, client, members),
        Operation::Commit => Ok(Call::Commit),
        Operation::Rollback => Ok(Call::Rollback),
        Operation::Settle => Ok(Call::Settle),
        Operation::AllocateIds => read_allocate_ids(alloc, client, members),
        Operation::Apply => read_apply(alloc, client, members),
    }
}
