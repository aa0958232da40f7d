//! Puts and deletes in an open transaction: they are put behind its other writes, and touch their group.
ghost use Rattle.std.specs.Prelude.{◌≡◌, ◌+◌, ◌≤◌, ◌<◌, None, Some, true, length, is_some, unwrap_or, IfOk, IsTrue, OnOk};
ghost use Rattle.ds_base.specs.Keys.{ends_in_id, renumbered, root_of};
ghost use Rattle.ds_base.specs.Limits.{greatest_id};
ghost use Rattle.ds_log.specs.Ids.{first_unissued};
ghost use Rattle.ds_log.specs.Logs.{key_of};
ghost use Rattle.ds_model.specs.Groups.{place_in};
ghost use Rattle.ds_model.specs.Refusals.{refusal_of};
ghost use Rattle.ds_protocol.specs.Saying.{no_memory_reply};
ghost use Rattle.ds_reply.specs.Replies.{reply_text};
ghost use Rattle.ds_request.specs.declared.call.Call.{Call};
ghost use Rattle.ds_output.specs.Room.{HasRoomForNew};
ghost use Rattle.ds_session_state.specs.Replying.{HasReplied, request_of, write_call};
ghost use Rattle.ds_session_state.specs.Sessions.{IsWithin};

use crate::drawing::{say_next, say_unissued, unissued};
use ds_base::{Buffer, Key, NoMemory};
use ds_entity::Entity;
use ds_log::Write;
use ds_output::{body_of, prepare_key, tell, tell_last};
use ds_protocol::{OpenTransaction, next_above};
use ds_reply::{Body, WriteAt};
use ds_session_state::{State, touch_place, touched};
use ds_store::{Names, Store};
use std::alloc::Global;
use std::sync::Wait;

/// Puts a write whose key is complete behind those of the open transaction.
pub(crate) fn write_inside<J: Names, R: Wait, H: Wait + Drop>(
    state: &mut State<J>,
    rt: &R,
    store: &Store<J, H>,
    number: u64,
    write: Write,
    keep: usize,
)
    requires within { IsWithin state.old.seen state.old.pass }
    requires inside { IsTrue (is_some state.old.seen.transaction) }
    requires unrefused { refusal_of J.definitions state.old.seen (write_call write) ≡ None }
    requires room { keep + length (reply_text (no_memory_reply state.old.client number)) ≤ state.old.room }
    ensures { HasReplied J.definitions store.now.shards (Some J.window) state.old state.new number
        (request_of state.old.client (write_call write)) keep }
{
    if let Some(id) = unissued(rt, store, &mut state.pass, write.key().elems().as_slice()) {
        drop(write);
        return say_unissued(state, number, id, keep);
    }
    take(state, rt, store, number, write, keep);
}

/// The same, where each id of its key is issued.
fn take<J: Names, R: Wait, H: Wait + Drop>(
    state: &mut State<J>,
    rt: &R,
    store: &Store<J, H>,
    number: u64,
    write: Write,
    keep: usize,
)
    requires within { IsWithin state.old.seen state.old.pass }
    requires inside { IsTrue (is_some state.old.seen.transaction) }
    requires issued { first_unissued state.old.pass.next (key_of write).elems ≡ None }
    requires unrefused { refusal_of J.definitions state.old.seen (write_call write) ≡ None }
    requires room { keep + length (reply_text (no_memory_reply state.old.client number)) ≤ state.old.room }
    ensures { HasReplied J.definitions store.now.shards (Some J.window) state.old state.new number
        (request_of state.old.client (write_call write)) keep }
{
    let Ok(group) = group_with_room(state.alloc, write.key(), &mut state.transaction) else {
        drop(write);
        return state.say_no_memory(number, keep);
    };
    let at = touch_place(rt, store, &mut state.pass, &state.transaction, &group);
    let place = touched(at);
    let Ok(body) = body_of(state.alloc, &write, WriteAt::Place(place)) else {
        drop(group);
        drop(write);
        return state.say_no_memory(number, keep);
    };
    if !tell(state.client, number, body, keep, &mut state.text) {
        return;
    }
    let next = next_above(write.key().elems().as_slice());
    state.transaction.write(group, place, write);
    state.seen.see_place(place);
    state.seen.see_next(next);
}

/// Puts an entity whose key is incomplete behind the other writes of the open transaction, under the next id. All memory is taken
/// before the id is drawn. A place is looked up also where a group is touched, since the drawn id may name one that isn't.
pub(crate) fn put_new_inside<J: Names, R: Wait, H: Wait + Drop>(
    state: &mut State<J>,
    rt: &R,
    store: &Store<J, H>,
    number: u64,
    entity: Entity,
    keep: usize,
)
    requires within { IsWithin state.old.seen state.old.pass }
    requires inside { IsTrue (is_some state.old.seen.transaction) }
    requires ends_in_id { IsTrue (ends_in_id entity.key.elems) }
    requires unrefused { refusal_of J.definitions state.old.seen (Call.Put entity.key true entity.properties) ≡ None }
    requires room { keep + length (reply_text (no_memory_reply state.old.client number)) ≤ state.old.room }
    ensures { HasReplied J.definitions store.now.shards (Some J.window) state.old state.new number
        (request_of state.old.client (Call.Put entity.key true entity.properties)) keep }
{
    if let Some(id) = unissued(rt, store, &mut state.pass, entity.key().elems().as_slice()) {
        drop(entity);
        return say_unissued(state, number, id, keep);
    }
    take_new(state, rt, store, number, entity, keep);
}

/// The same, where each written id of its key is issued.
fn take_new<J: Names, R: Wait, H: Wait + Drop>(
    state: &mut State<J>,
    rt: &R,
    store: &Store<J, H>,
    number: u64,
    entity: Entity,
    keep: usize,
)
    requires within { IsWithin state.old.seen state.old.pass }
    requires inside { IsTrue (is_some state.old.seen.transaction) }
    requires issued { first_unissued state.old.pass.next entity.key.elems ≡ None }
    requires ends_in_id { IsTrue (ends_in_id entity.key.elems) }
    requires unrefused { refusal_of J.definitions state.old.seen (Call.Put entity.key true entity.properties) ≡ None }
    requires room { keep + length (reply_text (no_memory_reply state.old.client number)) ≤ state.old.room }
    ensures { HasReplied J.definitions store.now.shards (Some J.window) state.old state.new number
        (request_of state.old.client (Call.Put entity.key true entity.properties)) keep }
{
    let Ok(draft) = prepare_new(
        state.alloc,
        entity,
        keep,
        &mut state.transaction,
        &mut state.text,
    ) else {
        return state.say_no_memory(number, keep);
    };
    let looked = store.touch(rt, &mut state.pass);
    // For the proof alone: it tells that an id is positive.
    let _next = state.pass.next();
    match store.issue(rt, &mut state.pass, 1) {
        Ok(id) => {
            let NewPut { entity, group, key } = numbered(draft, id);
            let place = place_or(&state.transaction, &group, looked);
            let at = WriteAt::Place(place);
            let body = Body::Put { key, at };
            tell_last(state.client, number, body, keep, &mut state.text);
            let next = next_above(entity.key().elems().as_slice());
            state.transaction.write(group, place, Write::Put(entity));
            state.seen.see_place(place);
            state.seen.see_next(next);
        }
        Err(refused) => {
            drop(draft);
            let next = refused.next;
            say_next(state, number, Body::IdsExhausted { next }, next, keep);
        }
    }
}

/// The group of a key, with room in the transaction to touch it and to take a write. A refusal means out of memory.
fn group_with_room(
    alloc: Global,
    key: &Key,
    transaction: &mut OpenTransaction,
) -> Result<Key, NoMemory>
    ensures group { IfOk result (λ group. group ≡ root_of key.now) }
    ensures same { transaction.new.transaction ≡ transaction.old.transaction }
    ensures room { OnOk result (IsTrue (is_some transaction.new.transaction) → 0 < transaction.new.room) }
{
    transaction.make_room()?;
    key.root(alloc)
}

/// An entity that is put under an id which isn't drawn yet, its group, and its key as the reply prints it.
#[derive(Drop)]
struct NewPut {
    entity: Entity,
    group: Key,
    key: Key,
}

/// Takes all memory for a put whose id isn't drawn yet: in the transaction, for its group, and for its reply, whatever the id and the
/// place. A refusal means out of memory.
fn prepare_new(
    alloc: Global,
    entity: Entity,
    keep: usize,
    transaction: &mut OpenTransaction,
    text: &mut Buffer,
) -> Result<NewPut, NoMemory>
    ensures entity { IfOk result (λ draft. draft.entity ≡ entity) }
    ensures group { IfOk result (λ draft. draft.group ≡ root_of entity.key) }
    ensures key { IfOk result (λ draft. draft.key ≡ entity.key) }
    ensures same { transaction.new.transaction ≡ transaction.old.transaction }
    ensures room { OnOk result (IsTrue (is_some transaction.new.transaction) → 0 < transaction.new.room) }
    ensures text { text.new.bytes ≡ text.old.bytes }
    ensures kept { text.old.spare ≤ text.new.spare }
    ensures suffices { OnOk result (HasRoomForNew entity.key keep text.new.spare) }
{
    let group = group_with_room(alloc, entity.key(), transaction)?;
    let key = prepare_key(alloc, entity.key(), keep, text)?;
    Ok(NewPut { entity, group, key })
}

/// The same under this id.
fn numbered(draft: NewPut, id: u64) -> NewPut
    requires ends_in_id { IsTrue (ends_in_id draft.entity.key.elems) }
    requires group { draft.group ≡ root_of draft.entity.key }
    requires key { draft.key ≡ draft.entity.key }
    requires positive { 1 ≤ id }
    requires bounded { id ≤ greatest_id }
    ensures entity { result.entity ≡ record { key = renumbered draft.entity.key id; properties = draft.entity.properties } }
    ensures group { result.group ≡ root_of (renumbered draft.entity.key id) }
    ensures key { result.key ≡ renumbered draft.entity.key id }
{
    let NewPut {
        mut entity,
        mut group,
        mut key,
    } = draft;
    renumber_root(&mut group, entity.key(), id);
    entity.renumber(id);
    key.renumber(id);
    NewPut { entity, group, key }
}

/// Makes the root of a key that of the key under this id.
fn renumber_root(root: &mut Key, key: &Key, id: u64)
    requires root { root.old ≡ root_of key.now }
    requires ends_in_id { IsTrue (ends_in_id key.now.elems) }
    requires positive { 1 ≤ id }
    requires bounded { id ≤ greatest_id }
    ensures { root.new ≡ root_of (renumbered key.now id) }
{
    if key.elems().len() == 1 {
        root.renumber(id);
    }
}

/// The place at which a transaction touched a group, and where it didn't the place that was looked up.
fn place_or(transaction: &OpenTransaction, group: &Key, looked: u64) -> u64
    ensures { result ≡ unwrap_or (place_in transaction.now.transaction group.now) looked }
{
    match transaction.place(group) {
        Some(place) => place,
        None => looked,
    }
}
