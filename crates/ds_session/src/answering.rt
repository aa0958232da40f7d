//! What a request is answered by.
ghost use Rattle.std.specs.Prelude.{◌≡◌, ℕ, ◌+◌, ◌<◌, ◌≤◌, Err, None, Some, length, IsTrue};
ghost use Rattle.ds_base.specs.Keys.{ends_in_id};
ghost use Rattle.ds_model.specs.Asked.{has_shard};
ghost use Rattle.ds_model.specs.Refusals.{refusal_of};
ghost use Rattle.ds_protocol.specs.Operations.{IsLawfulOperation, IsOperationOf, call_of};
ghost use Rattle.ds_protocol.specs.Quiet.{IsQuiet};
ghost use Rattle.ds_protocol.specs.Saying.{no_memory_reply};
ghost use Rattle.ds_reply.specs.Replies.{reply_text};
ghost use Rattle.ds_request.specs.Lawful.{IsLawfulCall};
ghost use Rattle.ds_session_state.specs.Replying.{HasReplied, request_of};
ghost use Rattle.ds_session_state.specs.Sessions.{IsWithin};
ghost use Rattle.ds_session_reads.specs.Steps.{IsWithinSteps};

use ds_entity::Entity;
use ds_indexdef::Defs;
use ds_io::Steps;
use ds_log::Write;
use ds_output::tell;
use ds_protocol::{Operation, operation_of, refusal_of};
use ds_reply::Body;
use ds_request::Call;
use ds_session_reads::{apply, find, get, settle};
use ds_session_state::{ReplyTo, State};
use ds_session_writes::{allocate, begin, commit, put_new, rollback, write};
use ds_store::{Names, Store};
use std::sync::Wait;
use std::sync::ledger::Ledger;
use std::thread::Threads;

/// Answers a request of this client.
pub(crate) fn answer<J: Names, R: Threads + Wait + Sync, H: Wait + Drop, L: Ledger>(
    state: &mut State<J>,
    rt: &R,
    store: &Store<J, H>,
    defs: &Defs,
    to: ReplyTo,
    call: Call,
    steps: &mut Steps<L>,
)
    requires lawful { IsLawfulCall call }
    requires shard { IsTrue (has_shard store.now.shards call) }
    requires within { IsWithin state.old.seen state.old.pass }
    requires definitions { defs.now ≡ J.definitions }
    requires ledger { L.parts ≡ J.ledger }
    requires room { to.keep + length (reply_text (no_memory_reply state.old.client to.number)) ≤ state.old.room }
    ensures replied { HasReplied J.definitions store.now.shards (Some J.window) state.old state.new to.number
        (request_of state.old.client call) to.keep }
    ensures steps { IsWithinSteps J.definitions J.window store.now.shards to.number (request_of state.old.client call) state.old state.new
        steps.old steps.new }
{
    match operation_of(state.alloc, call) {
        Ok(operation) => perform(state, rt, store, defs, to, operation, steps),
        Err(refused) => state.refuse(to.number, refused.body(), to.keep),
    }
}

/// Says why a line asks nothing, or that there was no memory to say it.
pub(crate) fn refuse_line<J: Names>(state: &mut State<J>, number: u64, body: Body, keep: usize)
    requires within { IsWithin state.old.seen state.old.pass }
    requires quiet { IsQuiet body }
    requires room { keep + length (reply_text (no_memory_reply state.old.client number)) ≤ state.old.room }
    ensures { (shards : ℕ)
        → HasReplied J.definitions shards (Some J.window) state.old state.new number (Err (state.old.client, body)) keep }
{
    tell(state.client, number, body, keep, &mut state.text);
}

/// Answers what a request asks: its first refusal, or what the store tells.
fn perform<J: Names, R: Threads + Wait + Sync, H: Wait + Drop, L: Ledger>(
    state: &mut State<J>,
    rt: &R,
    store: &Store<J, H>,
    defs: &Defs,
    to: ReplyTo,
    operation: Operation,
    steps: &mut Steps<L>,
)
    requires lawful { IsLawfulOperation operation }
    requires shard { IsTrue (has_shard store.now.shards (call_of operation)) }
    requires within { IsWithin state.old.seen state.old.pass }
    requires definitions { defs.now ≡ J.definitions }
    requires ledger { L.parts ≡ J.ledger }
    requires room { to.keep + length (reply_text (no_memory_reply state.old.client to.number)) ≤ state.old.room }
    ensures replied { (call : Call) → IsOperationOf call operation
        → HasReplied J.definitions store.now.shards (Some J.window) state.old state.new to.number
        (request_of state.old.client call) to.keep }
    ensures steps { (call : Call) → IsOperationOf call operation
        → IsWithinSteps J.definitions J.window store.now.shards to.number (request_of state.old.client call) state.old state.new
        steps.old steps.new }
{
    match refusal_of(state.alloc, defs, &state.transaction, &operation) {
        Some(body) => {
            drop(operation);
            state.refuse(to.number, body, to.keep);
        }
        None => carry_out(state, rt, store, defs, to, operation, steps),
    }
}

/// Answers what a request asks that nothing refuses before.
fn carry_out<J: Names, R: Threads + Wait + Sync, H: Wait + Drop, L: Ledger>(
    state: &mut State<J>,
    rt: &R,
    store: &Store<J, H>,
    defs: &Defs,
    to: ReplyTo,
    operation: Operation,
    steps: &mut Steps<L>,
)
    requires lawful { IsLawfulOperation operation }
    requires shard { IsTrue (has_shard store.now.shards (call_of operation)) }
    requires unrefused { refusal_of J.definitions state.old.seen (call_of operation) ≡ None }
    requires within { IsWithin state.old.seen state.old.pass }
    requires definitions { defs.now ≡ J.definitions }
    requires ledger { L.parts ≡ J.ledger }
    requires room { to.keep + length (reply_text (no_memory_reply state.old.client to.number)) ≤ state.old.room }
    ensures replied { (call : Call) → IsOperationOf call operation
        → HasReplied J.definitions store.now.shards (Some J.window) state.old state.new to.number
        (request_of state.old.client call) to.keep }
    ensures steps { (call : Call) → IsOperationOf call operation
        → IsWithinSteps J.definitions J.window store.now.shards to.number (request_of state.old.client call) state.old state.new
        steps.old steps.new }
{
    match operation {
        Operation::Put { entity, incomplete } => put(
            state, rt, store, to.number, entity, incomplete, to.keep,
        ),
        Operation::Delete { key } => write(
            state,
            rt,
            store,
            to.number,
            Write::Delete(key),
            to.keep,
        ),
        Operation::Get { key } => {
            get(state, rt, store, to.number, &key, to.keep, steps);
            drop(key);
        }
        Operation::Find(search) => {
            find(state, rt, store, defs, to, search, steps);
        }
        Operation::Begin { several_groups } => {
            drop(operation);
            begin(state, to.number, several_groups, to.keep);
        }
        Operation::Commit => {
            drop(operation);
            commit(state, rt, store, to.number, to.keep);
        }
        Operation::Rollback => {
            drop(operation);
            rollback(state, to.number, to.keep);
        }
        Operation::Settle => {
            drop(operation);
            settle(state, rt, store, to.number, to.keep);
        }
        Operation::AllocateIds { count } => {
            drop(operation);
            allocate(state, rt, store, to.number, count, to.keep);
        }
        Operation::Apply { shard } => {
            drop(operation);
            apply(
                state,
                rt,
                store,
                to.number,
                shard_number(store, shard),
                to.keep,
            );
        }
    }
}

/// Writes an entity, whose key's last id is drawn where the key is incomplete.
fn put<J: Names, R: Wait, H: Wait + Drop>(
    state: &mut State<J>,
    rt: &R,
    store: &Store<J, H>,
    number: u64,
    entity: Entity,
    incomplete: bool,
    keep: usize,
)
    requires within { IsWithin state.old.seen state.old.pass }
    requires ends_in_id { IsTrue incomplete → IsTrue (ends_in_id entity.key.elems) }
    requires unrefused { refusal_of J.definitions state.old.seen (Call.Put entity.key incomplete entity.properties) ≡ None }
    requires room { keep + length (reply_text (no_memory_reply state.old.client number)) ≤ state.old.room }
    ensures { HasReplied J.definitions store.now.shards (Some J.window) state.old state.new number
        (request_of state.old.client (Call.Put entity.key incomplete entity.properties)) keep }
{
    if incomplete {
        put_new(state, rt, store, number, entity, keep);
    } else {
        write(state, rt, store, number, Write::Put(entity), keep);
    }
}

/// A shard's number, which is below the number of shards.
fn shard_number<J: Names, H: Wait + Drop>(store: &Store<J, H>, shard: u64) -> u32
    requires { IsTrue (has_shard store.now.shards (Call.Apply shard)) }
    ensures same { result ≡ shard }
    ensures below { result < store.now.shards }
{
    // The proof alone needs it: there are at most 16 shards.
    let _shards = store.shards();
    shard as u32
}
