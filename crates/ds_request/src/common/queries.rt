//! The query of the members that were read.
ghost use Rattle.std.specs.Prelude.{◌≡◌, ℕ, Ok};
ghost use Rattle.serde_json.specs.Data.{Members};
ghost use Rattle.ds_member_reading.specs.Queries.{HoldsQuery};
ghost use Rattle.ds_request.specs.Lawful.{IsLawfulCall};
ghost use Rattle.ds_request.specs.Requests.{query_call_of};

use crate::call::Call;
use ds_base::{Columns, TextString};
use ds_member_reading::QueryMembers;
use ds_query::{Filters, Select};
use std::alloc::Global;

/// The query of a table of members, which are taken out of it.
pub(crate) fn query_of(alloc: Global, members: &mut QueryMembers) -> Call
    ensures { (client : ℕ) (ms : Members) → HoldsQuery members.old ms
        → (query_call_of client ms ≡ Ok result) × IsLawfulCall result }
{
    let slots = &mut members.slots;
    let namespace = slots.0.found.take().unwrap_or(TextString::new(alloc));
    let kind = slots.1.0.found.take();
    let ancestor = slots.1.1.0.found.take();
    let filters = slots.1.1.1.0.found.take().unwrap_or(Filters::new(alloc));
    let orders = slots.1.1.1.1.0.found.take().unwrap_or(Columns::new(alloc));
    let select = slots.1.1.1.1.1.0.found.take().unwrap_or(Select::Entities);
    let offset = slots.1.1.1.1.1.1.0.found.unwrap_or(0);
    let limit = slots.1.1.1.1.1.1.1.0.found;
    let start = slots.1.1.1.1.1.1.1.1.0.found.take();
    let end = slots.1.1.1.1.1.1.1.1.1.0.found.take();
    let cursor = slots.1.1.1.1.1.1.1.1.1.1.0.found.unwrap_or(false);
    Call::Query {
        namespace,
        kind,
        ancestor,
        filters,
        orders,
        select,
        offset,
        limit,
        start,
        end,
        cursor,
    }
}
