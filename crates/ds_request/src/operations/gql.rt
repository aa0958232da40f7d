//! A statement of the query language: its members in the order in which they are looked at.
ghost use Rattle.serde_json.specs.View.{members_view};
ghost use Rattle.ds_json_reading.specs.Reading.{Reads};
ghost use Rattle.ds_request.specs.Requests.{gql_call_of};

use crate::call::{Call, RequestRefused};
use crate::members::one::{Defaulted, Optional, Required};
use crate::members::several::ReadMembers;
use ds_base::{NamedValues, TextString, Values};
use ds_json_reading::{ListForm, Members, ValueForm};
use ds_member_reading::{FlagForm, NamedValuesForm, NamespaceForm, TextForm};
use ds_query::Field;
use std::alloc::Global;

/// Reads a statement.
pub(crate) fn read_gql(alloc: Global, client: u32, members: Members) -> Result<Call, RequestRefused>
    ensures { Reads RequestRefused.NoMemory (gql_call_of client (members_view members.entries)) result }
{
    let namespace = Defaulted(Field::Namespace, NamespaceForm, TextString::new(alloc));
    let text = Required(Field::Text, TextForm);
    let args = Defaulted(
        Field::Args,
        ListForm { item: ValueForm },
        Values::new(alloc),
    );
    let names = Defaulted(Field::Names, NamedValuesForm, NamedValues::new(alloc));
    let start = Optional(Field::Start, TextForm);
    let end = Optional(Field::End, TextForm);
    let cursor = Defaulted(Field::Cursor, FlagForm, false);
    let table = (
        namespace,
        (text, (args, (names, (start, (end, (cursor, ())))))),
    );
    let (namespace, (text, (args, (names, (start, (end, (cursor, ()))))))) = table.read(
        alloc, client, members,
    )?;
    Ok(Call::Gql {
        namespace,
        text,
        args,
        names,
        start,
        end,
        cursor,
    })
}
