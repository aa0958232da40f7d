//! A query: its members in the order in which they are looked at.
ghost use Rattle.serde_json.specs.View.{members_view};
ghost use Rattle.ds_json_reading.specs.Reading.{Reads};
ghost use Rattle.ds_request.specs.Requests.{query_call_of};

use crate::call::{Call, RequestRefused};
use crate::members::one::{Defaulted, Optional};
use crate::members::several::ReadMembers;
use ds_base::{Columns, TextString};
use ds_json_reading::{KeyForm, ListForm, Members};
use ds_member_reading::{
    FilterForm, FlagForm, NameForm, NamespaceForm, OrderForm, ResultsForm, SelectForm, TextForm,
};
use ds_query::{Field, Filters, Select};
use std::alloc::Global;

/// Reads a query.
pub(crate) fn read_query(
    alloc: Global,
    client: u32,
    members: Members,
) -> Result<Call, RequestRefused>
    ensures { Reads RequestRefused.NoMemory (query_call_of client (members_view members.entries)) result }
{
    let namespace = Defaulted(Field::Namespace, NamespaceForm, TextString::new(alloc));
    let kind = Optional(Field::Kind, NameForm);
    let ancestor = Optional(Field::Ancestor, KeyForm);
    let filters = Defaulted(
        Field::Filters,
        ListForm { item: FilterForm },
        Filters::new(alloc),
    );
    let orders = Defaulted(
        Field::Orders,
        ListForm { item: OrderForm },
        Columns::new(alloc),
    );
    let select = Defaulted(Field::Select, SelectForm, Select::Entities);
    let offset = Defaulted(Field::Offset, ResultsForm, 0);
    let limit = Optional(Field::Limit, ResultsForm);
    let start = Optional(Field::Start, TextForm);
    let end = Optional(Field::End, TextForm);
    let cursor = Defaulted(Field::Cursor, FlagForm, false);
    let page = (offset, (limit, (start, (end, (cursor, ())))));
    let table = (
        namespace,
        (kind, (ancestor, (filters, (orders, (select, page))))),
    );
    let (namespace, (kind, (ancestor, (filters, (orders, (select, page)))))) = table.read(
        alloc, client, members,
    )?;
    let (offset, (limit, (start, (end, (cursor, ()))))) = page;
    Ok(Call::Query {
        namespace,
        kind,
        ancestor,
        filters,
        orders,
        select,
        offset,
        limit,
        start,
        end,
        cursor,
    })
}
