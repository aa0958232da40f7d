//! A request for ids: how many.
ghost use Rattle.serde_json.specs.View.{members_view};
ghost use Rattle.ds_json_reading.specs.Reading.{Reads};
ghost use Rattle.ds_request.specs.Requests.{allocate_ids_call_of};

use crate::call::{Call, RequestRefused};
use crate::members::one::{Required, read_member};
use ds_json_reading::Members;
use ds_member_reading::CountForm;
use ds_query::Field;
use std::alloc::Global;

/// Reads a request for ids.
pub(crate) fn read_allocate_ids(
    alloc: Global,
    client: u32,
    mut members: Members,
) -> Result<Call, RequestRefused>
    ensures { Reads RequestRefused.NoMemory (allocate_ids_call_of client (members_view members.entries)) result }
{
    let count = Required(Field::Count, CountForm);
    let count = read_member(alloc, client, &mut members, count)?;
    Ok(Call::AllocateIds { count })
}
