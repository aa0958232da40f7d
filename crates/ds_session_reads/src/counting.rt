//! Settles and applies.
ghost use Rattle.std.specs.Prelude.{◌≡◌, ◌+◌, ◌<◌, ◌≤◌, None, Some, length};
ghost use Rattle.ds_model.specs.Refusals.{refusal_of};
ghost use Rattle.ds_protocol.specs.Saying.{no_memory_reply};
ghost use Rattle.ds_reply.specs.Replies.{reply_text};
ghost use Rattle.ds_request.specs.declared.call.Call.{Call};
ghost use Rattle.ds_session_state.specs.Replying.{HasReplied, request_of};
ghost use Rattle.ds_session_state.specs.Sessions.{IsWithin};

use ds_base::TryCopy;
use ds_output::tell;
use ds_reply::Body;
use ds_session_state::State;
use ds_store::{Applied, Names, Settled, Store};
use std::sync::Wait;

/// Applies every entry up to a place, and tells the place and the counts.
pub fn settle<J: Names, R: Wait, H: Wait + Drop>(
    state: &mut State<J>,
    rt: &R,
    store: &Store<J, H>,
    number: u64,
    keep: usize,
)
    requires within { IsWithin state.old.seen state.old.pass }
    requires unrefused { refusal_of J.definitions state.old.seen Call.Settle ≡ None }
    requires room { keep + length (reply_text (no_memory_reply state.old.client number)) ≤ state.old.room }
    ensures { HasReplied J.definitions store.now.shards (Some J.window) state.old state.new number
        (request_of state.old.client Call.Settle) keep }
{
    let Ok(settled) = store.settle(rt, &mut state.pass) else {
        return state.say_no_memory(number, keep);
    };
    let Settled {
        place,
        counts,
        commit,
    } = settled;
    let Ok(told) = counts.copy(state.alloc) else {
        return state.say_no_memory(number, keep);
    };
    let body = Body::Settle {
        place,
        applied: told,
    };
    if !tell(state.client, number, body, keep, &mut state.text) {
        return;
    }
    state.seen.see_place(place);
    state.seen.see_counts(counts.as_slice(), commit);
}

/// Applies the next entry of a shard, if there is one, and tells the shard's count.
pub fn apply<J: Names, R: Wait, H: Wait + Drop>(
    state: &mut State<J>,
    rt: &R,
    store: &Store<J, H>,
    number: u64,
    shard: u32,
    keep: usize,
)
    requires within { IsWithin state.old.seen state.old.pass }
    requires shard { shard < store.now.shards }
    requires unrefused { refusal_of J.definitions state.old.seen (Call.Apply shard) ≡ None }
    requires room { keep + length (reply_text (no_memory_reply state.old.client number)) ≤ state.old.room }
    ensures { HasReplied J.definitions store.now.shards (Some J.window) state.old state.new number
        (request_of state.old.client (Call.Apply shard)) keep }
{
    let Ok(applied) = store.apply_one(rt, &mut state.pass, shard) else {
        return state.say_no_memory(number, keep);
    };
    let Applied {
        moved,
        count,
        place,
        commit,
    } = applied;
    let body = Body::Apply {
        applied: moved,
        count,
        place,
        shard,
    };
    if !tell(state.client, number, body, keep, &mut state.text) {
        return;
    }
    state.seen.see_place(place);
    state.seen.see_count(shard as usize, count, commit);
}
