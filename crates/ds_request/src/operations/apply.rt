//! An apply: the number of the shard.
ghost use Rattle.serde_json.specs.View.{members_view};
ghost use Rattle.ds_json_reading.specs.Reading.{Reads};
ghost use Rattle.ds_request.specs.Requests.{apply_call_of};

use crate::call::{Call, RequestRefused};
use crate::members::one::{Required, read_member};
use ds_json_reading::Members;
use ds_member_reading::ShardForm;
use ds_query::Field;
use std::alloc::Global;

/// Reads an apply.
pub(crate) fn read_apply(
    alloc: Global,
    client: u32,
    mut members: Members,
) -> Result<Call, RequestRefused>
    ensures { Reads RequestRefused.NoMemory (apply_call_of client (members_view members.entries)) result }
{
    let shard = Required(Field::Shard, ShardForm);
    let shard = read_member(alloc, client, &mut members, shard)?;
    Ok(Call::Apply { shard })
}
