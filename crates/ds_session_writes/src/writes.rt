//! Puts and deletes: outside a transaction each is a commit of its own.
ghost use Rattle.std.specs.Prelude.{◌≡◌, ◌+◌, ◌≤◌, ℕ, None, Some, Result, true, length, IfOk, IsTrue, OnOk};
ghost use Rattle.ds_base.specs.Keys.{ends_in_id};
ghost use Rattle.ds_log.specs.declared.Write.TheVariants as write;
ghost use Rattle.ds_log.specs.Logs.{key_of};
ghost use Rattle.ds_model.specs.Refusals.{refusal_of};
ghost use Rattle.ds_model.specs.Sessions.{saw_next};
ghost use Rattle.ds_protocol.specs.Saying.{no_memory_reply};
ghost use Rattle.ds_reply.specs.Replies.{reply_text};
ghost use Rattle.ds_reply.specs.declared.reply.Body.{Body};
ghost use Rattle.ds_reply.specs.declared.reply.WriteAt.{WriteAt};
ghost use Rattle.ds_request.specs.declared.call.Call.{Call};
ghost use Rattle.ds_request.specs.declared.call.Request.{Request};
ghost use Rattle.ds_session_state.specs.Answering.{HasSaid};
ghost use Rattle.ds_session_state.specs.Replying.{HasReplied, own_commit, request_of, write_call};
ghost use Rattle.ds_output.specs.Room.{HasRoomForNew, HasRoomForWrite};
ghost use Rattle.ds_output.specs.Writes.{body_with, written_body};
ghost use Rattle.ds_session_state.specs.Sessions.{IsWithin};
ghost use Rattle.ds_store.specs.Answered.{WhereExhausted};
ghost use Rattle.ds_store.specs.Passes.{HasRead, PassParts};

use crate::drawing::{say_next, say_unissued, unissued};
use crate::writes_inside::{put_new_inside, write_inside};
use ds_base::{Buffer, Key, NoMemory, TryCopy};
use ds_entity::Entity;
use ds_journal::Draft;
use ds_log::Write;
use ds_output::{body_with, make_room_for_write, prepare_key, tell_last};
use ds_protocol::{draft_of_write, next_above};
use ds_reply::{Body, WriteAt};
use ds_session_state::State;
use ds_store::{Names, NewCause, NewRefused, Store};
use std::alloc::{AllocError, Global};
use std::sync::Wait;

/// A write outside a transaction that nothing but the store refuses: the commit that is asked for, and what its reply tells beside the
/// commit's number. There is room for the reply.
#[derive(Drop)]
struct Prepared {
    draft: Draft,
    key: Key,
    deletes: bool,
}

/// The same of a put whose last id isn't known yet either: the key that its reply tells.
#[derive(Drop)]
struct PreparedNew {
    draft: Draft,
    key: Key,
}

/// The commit of a write, and its reply, for which there is then room. A refusal means out of memory.
fn prepare_commit(
    alloc: Global,
    client: u32,
    write: Write,
    keep: usize,
    text: &mut Buffer,
) -> Result<Prepared, NoMemory>
    ensures draft { IfOk result (λ p. p.draft ≡ own_commit client write) }
    ensures body { IfOk result (λ p. (at : WriteAt) → body_with p.deletes p.key at ≡ written_body write at) }
    ensures same { text.new.bytes ≡ text.old.bytes }
    ensures kept { text.old.spare ≤ text.new.spare }
    ensures suffices { OnOk result (HasRoomForWrite (key_of write) keep text.new.spare) }
{
    let room = make_room_for_write(write.key(), keep, text);
    let deletes = is_delete(&write);
    let copied = key_if(room, alloc, write.key());
    let draft = draft_of_write(alloc, client, write)?;
    let key = copied?;
    Ok(Prepared {
        draft,
        key,
        deletes,
    })
}

/// Whether a write deletes.
fn is_delete(write: &Write) -> bool
    ensures { (at : WriteAt) → body_with result (key_of write.now) at ≡ written_body write.now at }
{
    match write {
        Write::Put(_) => false,
        Write::Delete(_) => true,
    }
}

/// A copy of a key, where there is room for the reply that tells it. A refusal means out of memory.
fn key_if(room: bool, alloc: Global, key: &Key) -> Result<Key, NoMemory>
    ensures copied { IfOk result (λ copy. copy ≡ key.now) }
    ensures room { OnOk result (IsTrue room) }
{
    if !room {
        return Err(AllocError);
    }
    key.copy(alloc)
}

/// The commit of a put with a new id, and the key that its reply tells, for which there is then room. A refusal means out of memory.
fn prepare_new(
    alloc: Global,
    client: u32,
    entity: Entity,
    keep: usize,
    text: &mut Buffer,
) -> Result<PreparedNew, NoMemory>
    ensures draft { IfOk result (λ p. p.draft ≡ own_commit client (write.Put entity)) }
    ensures key { IfOk result (λ p. p.key ≡ entity.key) }
    ensures same { text.new.bytes ≡ text.old.bytes }
    ensures kept { text.old.spare ≤ text.new.spare }
    ensures suffices { OnOk result (HasRoomForNew entity.key keep text.new.spare) }
{
    let key = prepare_key(alloc, entity.key(), keep, text)?;
    let draft = draft_of_write(alloc, client, Write::Put(entity))?;
    Ok(PreparedNew { draft, key })
}

/// Writes an entity or deletes one, whose key is complete.
pub fn write<J: Names, R: Wait, H: Wait + Drop>(
    state: &mut State<J>,
    rt: &R,
    store: &Store<J, H>,
    number: u64,
    write: Write,
    keep: usize,
)
    requires within { IsWithin state.old.seen state.old.pass }
    requires unrefused { refusal_of J.definitions state.old.seen (write_call write) ≡ None }
    requires room { keep + length (reply_text (no_memory_reply state.old.client number)) ≤ state.old.room }
    ensures { HasReplied J.definitions store.now.shards (Some J.window) state.old state.new number
        (request_of state.old.client (write_call write)) keep }
{
    if state.transaction.is_open() {
        write_inside(state, rt, store, number, write, keep)
    } else {
        commit_write(state, rt, store, number, write, keep)
    }
}

/// Writes an entity whose key is incomplete: its last id is drawn.
pub fn put_new<J: Names, R: Wait, H: Wait + Drop>(
    state: &mut State<J>,
    rt: &R,
    store: &Store<J, H>,
    number: u64,
    entity: Entity,
    keep: usize,
)
    requires within { IsWithin state.old.seen state.old.pass }
    requires ends_in_id { IsTrue (ends_in_id entity.key.elems) }
    requires unrefused { refusal_of J.definitions state.old.seen (Call.Put entity.key true entity.properties) ≡ None }
    requires room { keep + length (reply_text (no_memory_reply state.old.client number)) ≤ state.old.room }
    ensures { HasReplied J.definitions store.now.shards (Some J.window) state.old state.new number
        (request_of state.old.client (Call.Put entity.key true entity.properties)) keep }
{
    if state.transaction.is_open() {
        put_new_inside(state, rt, store, number, entity, keep)
    } else {
        commit_new_write(state, rt, store, number, entity, keep)
    }
}

/// Commits a write by itself, outside a transaction, whose key is complete. All memory is taken before.
fn commit_write<J: Names, R: Wait, H: Wait + Drop>(
    state: &mut State<J>,
    rt: &R,
    store: &Store<J, H>,
    number: u64,
    write: Write,
    keep: usize,
)
    requires within { IsWithin state.old.seen state.old.pass }
    requires outside { state.old.seen.transaction ≡ None }
    requires unrefused { refusal_of J.definitions state.old.seen (write_call write) ≡ None }
    requires room { keep + length (reply_text (no_memory_reply state.old.client number)) ≤ state.old.room }
    ensures { HasReplied J.definitions store.now.shards (Some J.window) state.old state.new number
        (request_of state.old.client (write_call write)) keep }
{
    let path = write.key().elems().as_slice();
    let next = next_above(path);
    if let Some(id) = unissued(rt, store, &mut state.pass, path) {
        drop(write);
        return say_unissued(state, number, id, keep);
    }
    let prepared = prepare_commit(state.alloc, state.client, write, keep, &mut state.text);
    let Ok(
        Prepared {
            draft,
            key,
            deletes,
        },
    ) = prepared
    else {
        return state.say_no_memory(number, keep);
    };
    match store.commit(rt, &mut state.pass, draft) {
        Ok(commit) => {
            state.seen.see_place(commit);
            state.seen.see_next(next);
            let body = body_with(key, deletes, WriteAt::Commit(commit));
            tell_last(state.client, number, body, keep, &mut state.text);
        }
        Err(refused) => {
            drop(refused);
            drop(key);
            state.say_no_memory(number, keep);
        }
    }
}

/// Commits a put by itself, outside a transaction, whose last id is drawn with the commit. All memory is taken before.
fn commit_new_write<J: Names, R: Wait, H: Wait + Drop>(
    state: &mut State<J>,
    rt: &R,
    store: &Store<J, H>,
    number: u64,
    entity: Entity,
    keep: usize,
)
    requires within { IsWithin state.old.seen state.old.pass }
    requires outside { state.old.seen.transaction ≡ None }
    requires ends_in_id { IsTrue (ends_in_id entity.key.elems) }
    requires unrefused { refusal_of J.definitions state.old.seen (Call.Put entity.key true entity.properties) ≡ None }
    requires room { keep + length (reply_text (no_memory_reply state.old.client number)) ≤ state.old.room }
    ensures { HasReplied J.definitions store.now.shards (Some J.window) state.old state.new number
        (request_of state.old.client (Call.Put entity.key true entity.properties)) keep }
{
    let path = entity.key().elems().as_slice();
    if let Some(id) = unissued(rt, store, &mut state.pass, path) {
        drop(entity);
        return say_unissued(state, number, id, keep);
    }
    let prepared = prepare_new(state.alloc, state.client, entity, keep, &mut state.text);
    let Ok(PreparedNew { draft, mut key }) = prepared else {
        return state.say_no_memory(number, keep);
    };
    match store.commit_new(rt, &mut state.pass, draft) {
        Ok(new) => {
            key.renumber(new.id);
            state.seen.see_place(new.commit);
            state.seen.see_next(next_above(key.elems().as_slice()));
            let at = WriteAt::Commit(new.commit);
            let body = Body::Put { key, at };
            tell_last(state.client, number, body, keep, &mut state.text);
        }
        Err(refused) => {
            drop(key);
            refuse_new(state, number, cause_of(refused), keep);
        }
    }
}

/// Says why no put with a new id was committed.
fn refuse_new<J: Names>(state: &mut State<J>, number: u64, cause: NewCause, keep: usize)
    requires within { IsWithin state.old.seen state.old.pass }
    requires room { keep + length (reply_text (no_memory_reply state.old.client number)) ≤ state.old.room }
    ensures { (p : PassParts) (read : Result Request (ℕ × Body)) (shards : ℕ) → IsWithin state.old.seen p → HasRead p state.old.pass
        → WhereExhausted (λ next. HasSaid J.definitions shards (Some J.window) p state.old.pass state.old.seen
        (saw_next next state.old.seen) read (Body.IdsExhausted next)) cause
        → HasReplied J.definitions shards (Some J.window) (record state.old { pass = p }) state.new number read keep }
{
    match cause {
        NewCause::IdsExhausted { next } => {
            say_next(state, number, Body::IdsExhausted { next }, next, keep)
        }
        NewCause::NoMemory => state.say_no_memory(number, keep),
    }
}

/// Why it is refused; the draft is dropped.
fn cause_of(refused: NewRefused) -> NewCause
    ensures { result ≡ refused.cause }
{
    refused.cause
}
