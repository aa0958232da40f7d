//! A get: the key.
ghost use Rattle.serde_json.specs.View.{members_view};
ghost use Rattle.ds_json_reading.specs.Reading.{Reads};
ghost use Rattle.ds_request.specs.Requests.{get_call_of};

use crate::call::{Call, RequestRefused};
use crate::members::one::{Required, read_member};
use ds_json_reading::{KeyForm, Members};
use ds_query::Field;
use std::alloc::Global;

/// Reads a get.
pub(crate) fn read_get(
    alloc: Global,
    client: u32,
    mut members: Members,
) -> Result<Call, RequestRefused>
    ensures { Reads RequestRefused.NoMemory (get_call_of client (members_view members.entries)) result }
{
    let key = Required(Field::Key, KeyForm);
    let key = read_member(alloc, client, &mut members, key)?;
    Ok(Call::Get { key })
}
