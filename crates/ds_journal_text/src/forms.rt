//! How a commit and its parts are read from JSON.
ghost use Rattle.std.specs.Prelude.{◌≡◌, option_map};
ghost use Rattle.serde_json.specs.Data.{array, item, no_items, object};
ghost use Rattle.serde_json.specs.View.{view, items_view, members_view};
ghost use Rattle.ds_entity.specs.Entities.{entity_refusal};
ghost use Rattle.ds_log.specs.declared.Write.TheVariants.{Put};
ghost use Rattle.ds_request.specs.Entities.{ArePut, entity_of};
ghost use Rattle.ds_json_reading.specs.Reading.{list_of};
ghost use Rattle.ds_json_reading.specs.Reading.{Reads, and_then, required};
ghost use Rattle.ds_journal_text.specs.Reading.{client_of, number_of, touch_of, unless_refused, put_of, tagged_write_of, write_of};
ghost use Rattle.ds_journal_text.specs.Reading.{commit_parts_of};
ghost use Rattle.ds_journal_text.specs.Reading.{commit_of};

use ds_base::Key;
use ds_entity::{Entity, EntityRefused, Properties};
use ds_json_reading::{
    Form, KeyForm, ListForm, Members, Refusal, take_member, take_only, take_two,
};
use ds_log::{Commit, Touch, Touches, Write, Writes};
use ds_request::{Call, EntityForm, Written};
use serde_json::Value;
use std::alloc::Global;

/// A commit: an object with its client, its touched groups and its writes.
#[derive(Drop)]
pub(crate) struct CommitForm;

impl Form for CommitForm {
    type Item = Commit;

    ghost reads = { λ _. commit_of };

    fn read(&self, alloc: Global, value: Value) -> Result<Commit, Refusal> {
        match value {
            Value::Object(members) => read_commit(alloc, members),
            _ => Err(Refusal::Request),
        }
    }
}

fn read_commit(alloc: Global, mut members: Members) -> Result<Commit, Refusal>
    ensures { Reads Refusal.NoMemory (commit_of (object (members_view members.entries))) result }
{
    let client = take_member(&mut members, "client");
    let touched = take_member(&mut members, "touched");
    let writes = take_member(&mut members, "writes");
    commit_from(alloc, client, touched, writes)
}

/// The commit of these members.
fn commit_from(
    alloc: Global,
    client: Option<Value>,
    touched: Option<Value>,
    writes: Option<Value>,
) -> Result<Commit, Refusal>
    ensures { Reads Refusal.NoMemory (commit_parts_of (option_map view client) (option_map view touched) (option_map view writes)) result }
{
    let client = read_client(client)?;
    let touched = read_touches(alloc, touched)?;
    let writes = read_writes(alloc, writes)?;
    Ok(Commit {
        client,
        touched,
        writes,
    })
}

fn read_client(given: Option<Value>) -> Result<u32, Refusal>
    ensures { result ≡ required client_of (option_map view given) }
{
    match given {
        Some(value) => client(&value),
        None => Err(Refusal::Request),
    }
}

/// A number of 32 bits.
fn client(value: &Value) -> Result<u32, Refusal>
    ensures { result ≡ client_of (view value.now) }
{
    let number = number(value)?;
    if number < 1 << 32 {
        Ok(number as u32)
    } else {
        Err(Refusal::Request)
    }
}

/// A number of 64 bits.
fn number(value: &Value) -> Result<u64, Refusal>
    ensures { result ≡ number_of (view value.now) }
{
    match value.as_u64() {
        Some(number) => Ok(number),
        None => Err(Refusal::Request),
    }
}

fn read_touches(alloc: Global, given: Option<Value>) -> Result<Touches, Refusal>
    ensures { Reads Refusal.NoMemory (required (list_of touch_of) (option_map view given)) result }
{
    match given {
        Some(value) => ListForm { item: TouchForm }.read(alloc, value),
        None => Err(Refusal::Request),
    }
}

fn read_writes(alloc: Global, given: Option<Value>) -> Result<Writes, Refusal>
    ensures { Reads Refusal.NoMemory (required (list_of write_of) (option_map view given)) result }
{
    match given {
        Some(value) => ListForm { item: WriteForm }.read(alloc, value),
        None => Err(Refusal::Request),
    }
}

/// A touched group: an array of its root key and its place.
#[derive(Drop)]
struct TouchForm;

impl Form for TouchForm {
    type Item = Touch;

    ghost reads = { λ _. touch_of };

    fn read(&self, alloc: Global, value: Value) -> Result<Touch, Refusal> {
        match value {
            Value::Array(parts) => read_touch(alloc, parts),
            _ => Err(Refusal::Request),
        }
    }
}

fn read_touch(alloc: Global, parts: Vec<Value>) -> Result<Touch, Refusal>
    ensures { Reads Refusal.NoMemory (touch_of (array (items_view parts.items))) result }
{
    match take_two(parts) {
        Some((group, place)) => touch_from(alloc, group, &place),
        None => Err(Refusal::Request),
    }
}

fn touch_from(alloc: Global, group: Value, place: &Value) -> Result<Touch, Refusal>
    ensures { Reads Refusal.NoMemory (touch_of (array (item (view group) (item (view place.now) no_items)))) result }
{
    let group = KeyForm.read(alloc, group)?;
    let place = number(place)?;
    Ok(Touch { group, place })
}

/// A write: an object of one member, which puts an entity or deletes the entity of a key.
#[derive(Drop)]
struct WriteForm;

impl Form for WriteForm {
    type Item = Write;

    ghost reads = { λ _. write_of };

    fn read(&self, alloc: Global, value: Value) -> Result<Write, Refusal> {
        match value {
            Value::Object(members) => read_write(alloc, members),
            _ => Err(Refusal::Request),
        }
    }
}

fn read_write(alloc: Global, members: Members) -> Result<Write, Refusal>
    ensures { Reads Refusal.NoMemory (write_of (object (members_view members.entries))) result }
{
    match take_only(members) {
        Some((name, value)) => read_tagged_write(alloc, name.as_str(), value),
        None => Err(Refusal::Request),
    }
}

fn read_tagged_write(alloc: Global, name: &str, value: Value) -> Result<Write, Refusal>
    ensures { Reads Refusal.NoMemory (tagged_write_of name.now (view value)) result }
{
    match name {
        "put" => read_put(alloc, value),
        "delete" => Ok(Write::Delete(KeyForm.read(alloc, value)?)),
        _ => Err(Refusal::Request),
    }
}

fn read_put(alloc: Global, value: Value) -> Result<Write, Refusal>
    ensures { Reads Refusal.NoMemory (and_then (entity_of (view value)) put_of) result }
{
    put_from(EntityForm.read(alloc, value)?)
}

/// The put of an entity whose key is complete.
fn put_from(written: Written) -> Result<Write, Refusal>
    ensures { Reads Refusal.NoMemory (put_of written) result }
{
    match written.into_call() {
        Call::Put {
            key,
            incomplete,
            properties,
        } => {
            if incomplete {
                return Err(Refusal::Key);
            }
            put_with(key, properties)
        }
        _ => unreachable!(),
    }
}

/// The put of the entity of this key and these properties, where it keeps the limits.
fn put_with(key: Key, properties: Properties) -> Result<Write, Refusal>
    requires { ArePut properties }
    ensures { Reads Refusal.NoMemory
        (unless_refused (entity_refusal key properties) (Put (record { key = key; properties = properties }))) result }
{
    match Entity::new(key, properties) {
        Ok(entity) => Ok(Write::Put(entity)),
        Err(EntityRefused::NoMemory) => Err(Refusal::NoMemory),
        Err(_) => Err(Refusal::Value),
    }
}
