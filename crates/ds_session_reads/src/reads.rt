//! Gets.
ghost use Rattle.std.specs.Prelude.{◌≡◌, ◌+◌, ◌<◌, ◌≤◌, ◌++◌, ◌⊎◌, ℕ, None, Some, Result, is_some, length, take, IfOk, IsTrue};
ghost use Rattle.ds_base.specs.Keys.{root_of};
ghost use Rattle.ds_base.specs.Limits.{most_shards};
ghost use Rattle.ds_log.specs.Shards.{shard_of};
ghost use Rattle.ds_model.specs.Groups.{with_transaction};
ghost use Rattle.ds_model.specs.Refusals.{refusal_of};
ghost use Rattle.ds_protocol.specs.Saying.{no_memory_reply};
ghost use Rattle.ds_reply.specs.Replies.{reply_text};
ghost use Rattle.ds_model.specs.Sessions.{last_commit, list_of, saw_place, saw_shard_count};
ghost use Rattle.ds_reply.specs.declared.reply.Body.{Body};
ghost use Rattle.ds_request.specs.declared.call.Call.{Call};
ghost use Rattle.ds_request.specs.declared.call.Request.{Request};
ghost use Rattle.ds_session_state.specs.Answering.{HasSaid};
ghost use Rattle.ds_session_state.specs.Replying.{HasReplied, request_of};
ghost use Rattle.ds_session_state.specs.Sessions.{IsWithin};
ghost use Rattle.ds_store.specs.Passes.{HasRead, PassParts};

use ds_base::{Key, NoMemory};
use ds_io::Steps;
use ds_log::shard_of;
use ds_output::tell;
use ds_reply::Body;
use ds_session_state::{State, touch_place, touched};
use ds_store::{Expired, GetRefused, Got, Names, Store};
use std::alloc::Global;
use std::sync::Wait;
use std::sync::ledger::Ledger;

/// An entity group, by its root key, and its shard.
#[derive(Drop)]
pub(crate) struct GroupHome {
    pub(crate) group: Key,
    pub(crate) shard: u32,
}

/// The group of a key, and its shard. A refusal means out of memory.
pub(crate) fn group_home(alloc: Global, key: &Key, shards: u32) -> Result<GroupHome, NoMemory>
    requires { (1 ≤ shards) × (shards ≤ most_shards) }
    ensures group { IfOk result (λ home. home.group ≡ root_of key.now) }
    ensures shard { IfOk result (λ home. home.shard ≡ shard_of (root_of key.now) shards) }
    ensures below { IfOk result (λ home. home.shard < shards) }
{
    let group = key.root(alloc)?;
    let shard = shard_of(alloc, &group, shards)?;
    Ok(GroupHome { group, shard })
}

/// Tells the entity of a key, if there is one, and the place at which it was read.
pub fn get<J: Names, R: Wait, H: Wait + Drop, L: Ledger>(
    state: &mut State<J>,
    rt: &R,
    store: &Store<J, H>,
    number: u64,
    key: &Key,
    keep: usize,
    steps: &mut Steps<L>,
)
    requires within { IsWithin state.old.seen state.old.pass }
    requires unrefused { refusal_of J.definitions state.old.seen (Call.Get key.now) ≡ None }
    requires room { keep + length (reply_text (no_memory_reply state.old.client number)) ≤ state.old.room }
    requires ledger { L.parts ≡ J.ledger }
    ensures replied { HasReplied J.definitions store.now.shards (Some J.window) state.old state.new number
        (request_of state.old.client (Call.Get key.now)) keep }
    ensures step { steps.new ≤ steps.old + 1 }
{
    let Ok(home) = group_home(state.alloc, key, store.shards()) else {
        return state.say_no_memory(number, keep);
    };
    let GroupHome { group, shard } = home;
    if state.transaction.make_room().is_err() {
        drop(group);
        return state.say_no_memory(number, keep);
    }
    let at = touch_place(rt, store, &mut state.pass, &state.transaction, &group);
    match store.get_in(rt, &mut state.pass, shard, key, at, steps) {
        Ok(got) => {
            let Got {
                entity,
                place,
                entries,
            } = got;
            if !tell(
                state.client,
                number,
                Body::Get { entity, place },
                keep,
                &mut state.text,
            ) {
                return;
            }
            state.transaction.touch(group, place);
            state.seen.see_place(place);
            state.seen.see_entries(shard as usize, entries);
        }
        Err(GetRefused::Expired(expired)) => {
            drop(group);
            expire(state, number, shard, at, expired, keep);
        }
        Err(GetRefused::NoMemory) => {
            drop(group);
            state.say_no_memory(number, keep);
        }
    }
}

/// Tells that the versions of the touch place are gone; the transaction has then ended.
pub(crate) fn expire<J: Names>(
    state: &mut State<J>,
    number: u64,
    shard: u32,
    at: Option<u64>,
    expired: Expired,
    keep: usize,
)
    requires within { IsWithin state.old.seen state.old.pass }
    requires inside { IsTrue (is_some at) }
    requires room { keep + length (reply_text (no_memory_reply state.old.client number)) ≤ state.old.room }
    ensures says { (place : ℕ) → at ≡ Some place
        → (state.new.text ≡ state.old.text ++ reply_text (no_memory_reply state.old.client number))
        ⊎ (state.new.text ≡ state.old.text ++ reply_text (record {
          client = state.old.client;
          line = number;
          body = Body.Expired expired.applied place expired.snapshot;
        })) }
    ensures pass { (place : ℕ) → at ≡ Some place → state.new.pass ≡ state.old.pass }
    ensures replied { (p : PassParts) (place shards : ℕ) (read : Result Request (ℕ × Body)) → IsWithin state.old.seen p
        → HasRead p state.old.pass
        → at ≡ Some place → expired.commit ≡ last_commit (take expired.applied (list_of state.old.pass.lists shard))
        → HasSaid J.definitions shards (Some J.window) p state.old.pass state.old.seen
        (saw_shard_count state.old.pass.lists shard expired.applied (saw_place place (with_transaction None state.old.seen))) read
        (Body.Expired expired.applied place expired.snapshot)
        → HasReplied J.definitions shards (Some J.window) (record state.old { pass = p }) state.new number read keep }
{
    let place = touched(at);
    let body = Body::Expired {
        applied: expired.applied,
        place,
        snapshot: expired.snapshot,
    };
    if !tell(state.client, number, body, keep, &mut state.text) {
        return;
    }
    state.transaction.end();
    state.seen.see_place(place);
    state
        .seen
        .see_count(shard as usize, expired.applied, expired.commit);
}
