//! Ids: drawing them, testing those that are written, and the replies that tell the id counter.
ghost use Rattle.std.specs.Prelude.{◌≡◌, ℕ, ◌+◌, ◌≤◌, Some, Result, length};
ghost use Rattle.ds_base.specs.Limits.{first_drawn_id};
ghost use Rattle.ds_log.specs.Ids.{first_unissued};
ghost use Rattle.ds_model.specs.Sessions.{saw_next};
ghost use Rattle.ds_protocol.specs.Saying.{no_memory_reply};
ghost use Rattle.ds_reply.specs.Replies.{reply_text};
ghost use Rattle.ds_reply.specs.declared.reply.Body.{Body};
ghost use Rattle.ds_request.specs.declared.call.Call.{Call};
ghost use Rattle.ds_request.specs.declared.call.Request.{Request};
ghost use Rattle.ds_session_state.specs.Answering.{HasSaid};
ghost use Rattle.ds_session_state.specs.Replying.{HasReplied, request_of};
ghost use Rattle.ds_session_state.specs.Sessions.{IsWithin};
ghost use Rattle.ds_store.specs.Passes.{HasRead, PassParts};

use ds_base::Elem;
use ds_output::{make_room_for_numbers, tell, tell_last};
use ds_protocol::first_unissued;
use ds_reply::Body;
use ds_session_state::State;
use ds_store::{Names, Pass, Store};
use std::sync::Wait;

/// The first id of a written path that only the server gives and didn't give yet. The counter is looked at only where the one that the pass
/// knows doesn't do.
pub(crate) fn unissued<J: Names, R: Wait, H: Wait + Drop>(
    rt: &R,
    store: &Store<J, H>,
    pass: &mut Pass<J>,
    path: &[Elem],
) -> Option<u64>
    ensures first { result ≡ first_unissued pass.new.next path.now }
    ensures read { HasRead pass.old pass.new }
    ensures least { first_drawn_id ≤ pass.new.next }
{
    if first_unissued(path, pass.next()).is_none() {
        return None;
    }
    let next = store.next_id(rt, pass);
    first_unissued(path, next)
}

/// Draws ids, and tells the first of them. All memory is taken before.
pub fn allocate<J: Names, R: Wait, H: Wait + Drop>(
    state: &mut State<J>,
    rt: &R,
    store: &Store<J, H>,
    number: u64,
    count: u64,
    keep: usize,
)
    requires within { IsWithin state.old.seen state.old.pass }
    requires some { 1 ≤ count }
    requires room { keep + length (reply_text (no_memory_reply state.old.client number)) ≤ state.old.room }
    ensures { HasReplied J.definitions store.now.shards (Some J.window) state.old state.new number
        (request_of state.old.client (Call.AllocateIds count)) keep }
{
    if !make_room_for_numbers(keep, &mut state.text) {
        return state.say_no_memory(number, keep);
    }
    match store.issue(rt, &mut state.pass, count) {
        Ok(first) => {
            state.seen.see_next(first + count);
            let body = Body::AllocateIds { first, count };
            tell_last(state.client, number, body, keep, &mut state.text);
        }
        Err(refused) => {
            let body = Body::IdsExhausted { next: refused.next };
            say_next(state, number, body, refused.next, keep);
        }
    }
}

/// Says that a written id isn't issued: the counter is the one that the pass knows.
pub(crate) fn say_unissued<J: Names>(state: &mut State<J>, number: u64, id: u64, keep: usize)
    requires within { IsWithin state.old.seen state.old.pass }
    requires room { keep + length (reply_text (no_memory_reply state.old.client number)) ≤ state.old.room }
    ensures { (p : PassParts) (read : Result Request (ℕ × Body)) (shards : ℕ) → IsWithin state.old.seen p → HasRead p state.old.pass
        → HasSaid J.definitions shards (Some J.window) p state.old.pass state.old.seen (saw_next state.old.pass.next state.old.seen) read
        (Body.IdNotIssued id state.old.pass.next)
        → HasReplied J.definitions shards (Some J.window) (record state.old { pass = p }) state.new number read keep }
{
    let next = state.pass.next();
    say_next(state, number, Body::IdNotIssued { id, next }, next, keep);
}

/// Says a refusal that tells the id counter, which the client has then seen.
pub(crate) fn say_next<J: Names>(
    state: &mut State<J>,
    number: u64,
    refusal: Body,
    next: u64,
    keep: usize,
)
    requires within { IsWithin state.old.seen state.old.pass }
    requires room { keep + length (reply_text (no_memory_reply state.old.client number)) ≤ state.old.room }
    ensures { (p : PassParts) (read : Result Request (ℕ × Body)) (shards : ℕ) → IsWithin state.old.seen p → HasRead p state.old.pass
        → HasSaid J.definitions shards (Some J.window) p state.old.pass state.old.seen (saw_next next state.old.seen) read refusal
        → HasReplied J.definitions shards (Some J.window) (record state.old { pass = p }) state.new number read keep }
{
    if !tell(state.client, number, refusal, keep, &mut state.text) {
        return;
    }
    state.seen.see_next(next);
}
