//! A delete: the key, of which nothing is reserved.
ghost use Rattle.serde_json.specs.View.{members_view};
ghost use Rattle.ds_json_reading.specs.Reading.{Reads};
ghost use Rattle.ds_request.specs.Requests.{delete_call_of};

use crate::call::{Call, RequestRefused};
use crate::members::one::{Required, read_member};
use ds_json_reading::{Members, WritableKeyForm};
use ds_query::Field;
use std::alloc::Global;

/// Reads a delete.
pub(crate) fn read_delete(
    alloc: Global,
    client: u32,
    mut members: Members,
) -> Result<Call, RequestRefused>
    ensures { Reads RequestRefused.NoMemory (delete_call_of client (members_view members.entries)) result }
{
    let key = Required(Field::Key, WritableKeyForm);
    let key = read_member(alloc, client, &mut members, key)?;
    Ok(Call::Delete { key })
}
