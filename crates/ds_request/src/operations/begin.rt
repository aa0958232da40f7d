//! The beginning of a transaction: whether it may touch several entity groups.
ghost use Rattle.serde_json.specs.View.{members_view};
ghost use Rattle.ds_json_reading.specs.Reading.{Reads};
ghost use Rattle.ds_request.specs.Requests.{begin_call_of};

use crate::call::{Call, RequestRefused};
use crate::members::one::{Defaulted, read_member};
use ds_json_reading::Members;
use ds_member_reading::FlagForm;
use ds_query::Field;
use std::alloc::Global;

/// Reads a begin.
pub(crate) fn read_begin(
    alloc: Global,
    client: u32,
    mut members: Members,
) -> Result<Call, RequestRefused>
    ensures { Reads RequestRefused.NoMemory (begin_call_of client (members_view members.entries)) result }
{
    let xg = Defaulted(Field::Xg, FlagForm, false);
    let xg = read_member(alloc, client, &mut members, xg)?;
    Ok(Call::Begin { xg })
}
