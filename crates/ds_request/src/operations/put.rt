//! A put: the entity.
ghost use Rattle.std.specs.Prelude.{IfOk};
ghost use Rattle.serde_json.specs.View.{members_view};
ghost use Rattle.ds_json_reading.specs.Reading.{Reads};
ghost use Rattle.ds_request.specs.Lawful.{IsLawfulCall};
ghost use Rattle.ds_request.specs.Requests.{put_call_of};

use crate::call::{Call, RequestRefused};
use crate::forms::entities::EntityForm;
use crate::members::one::{Required, read_member};
use ds_json_reading::Members;
use ds_query::Field;
use std::alloc::Global;

/// Reads a put.
pub(crate) fn read_put(
    alloc: Global,
    client: u32,
    mut members: Members,
) -> Result<Call, RequestRefused>
    ensures read { Reads RequestRefused.NoMemory (put_call_of client (members_view members.entries)) result }
    ensures lawful { IfOk result IsLawfulCall }
{
    let entity = Required(Field::Entity, EntityForm);
    let written = read_member(alloc, client, &mut members, entity)?;
    Ok(written.into_call())
}
