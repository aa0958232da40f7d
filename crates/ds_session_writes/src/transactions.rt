//! Transactions: their beginning, their commit, and their end.
ghost use Rattle.std.specs.Prelude.{◌≡◌, ℕ, ◌+◌, ◌≤◌, [], None, Some, length, IfSome};
ghost use Rattle.ds_model.specs.Answers.{commit_of};
ghost use Rattle.ds_model.specs.Refusals.{refusal_of};
ghost use Rattle.ds_protocol.specs.Saying.{no_memory_reply};
ghost use Rattle.ds_reply.specs.Replies.{reply_text};
ghost use Rattle.ds_request.specs.declared.call.Call.{Call};
ghost use Rattle.ds_model.specs.Sessions.{Transaction};
ghost use Rattle.ds_output.specs.Room.{HasRoomForCommit};
ghost use Rattle.ds_session_writes.specs.Committing.{IsCommitOf};
ghost use Rattle.ds_session_state.specs.Replying.{HasReplied, request_of};
ghost use Rattle.ds_session_state.specs.Sessions.{IsWithin};
ghost use Rattle.ds_session_writes.specs.Touched.{IsTouchedAs};
ghost use Rattle.ds_store.specs.Answered.{IsAppended, IsConflict, WhereConflict};
ghost use Rattle.ds_store.specs.Passes.{HasRead, PassParts};

use ds_base::{Buffer, Key, TryCopy};
use ds_journal::{CommitCause, CommitRefused, Draft};
use ds_log::Conflict;
use ds_output::{make_room_for_numbers, tell, tell_last};
use ds_protocol::{OpenTransaction, draft_of_transaction};
use ds_reply::Body;
use ds_session_state::State;
use ds_store::{Names, Store};
use std::alloc::Global;
use std::sync::Wait;

/// Begins a transaction.
pub fn begin<J: Names>(state: &mut State<J>, number: u64, several_groups: bool, keep: usize)
    requires within { IsWithin state.old.seen state.old.pass }
    requires unrefused { refusal_of J.definitions state.old.seen (Call.Begin several_groups) ≡ None }
    requires room { keep + length (reply_text (no_memory_reply state.old.client number)) ≤ state.old.room }
    ensures { (shards : ℕ)
        → HasReplied J.definitions shards (Some J.window) state.old state.new number
        (request_of state.old.client (Call.Begin several_groups)) keep }
{
    if !tell(state.client, number, Body::Begin, keep, &mut state.text) {
        return;
    }
    state.transaction.begin(state.alloc, several_groups);
}

/// Drops the transaction.
pub fn rollback<J: Names>(state: &mut State<J>, number: u64, keep: usize)
    requires within { IsWithin state.old.seen state.old.pass }
    requires unrefused { refusal_of J.definitions state.old.seen Call.Rollback ≡ None }
    requires room { keep + length (reply_text (no_memory_reply state.old.client number)) ≤ state.old.room }
    ensures { (shards : ℕ)
        → HasReplied J.definitions shards (Some J.window) state.old state.new number (request_of state.old.client Call.Rollback) keep }
{
    if !tell(state.client, number, Body::Rollback, keep, &mut state.text) {
        return;
    }
    state.transaction.end();
}

/// Commits the transaction, or tells the commit that it conflicts with. All memory is taken before.
pub fn commit<J: Names, R: Wait, H: Wait + Drop>(
    state: &mut State<J>,
    rt: &R,
    store: &Store<J, H>,
    number: u64,
    keep: usize,
)
    requires within { IsWithin state.old.seen state.old.pass }
    requires unrefused { refusal_of J.definitions state.old.seen Call.Commit ≡ None }
    requires room { keep + length (reply_text (no_memory_reply state.old.client number)) ≤ state.old.room }
    ensures { HasReplied J.definitions store.now.shards (Some J.window) state.old state.new number
        (request_of state.old.client Call.Commit) keep }
{
    match prepared(
        state.alloc,
        state.client,
        &state.transaction,
        keep,
        &mut state.text,
    ) {
        Some(draft) => commit_draft(state, rt, store, number, draft, keep),
        None => state.say_no_memory(number, keep),
    }
}

/// Commits what the transaction asks for; there is room to tell it.
fn commit_draft<J: Names, R: Wait, H: Wait + Drop>(
    state: &mut State<J>,
    rt: &R,
    store: &Store<J, H>,
    number: u64,
    draft: Draft,
    keep: usize,
)
    requires within { IsWithin state.old.seen state.old.pass }
    requires unrefused { refusal_of J.definitions state.old.seen Call.Commit ≡ None }
    requires asked { IsCommitOf state.old.client state.old.seen.transaction draft }
    requires room { keep + length (reply_text (no_memory_reply state.old.client number)) ≤ state.old.room }
    requires suffices { HasRoomForCommit keep state.old.room }
    ensures { HasReplied J.definitions store.now.shards (Some J.window) state.old state.new number
        (request_of state.old.client Call.Commit) keep }
{
    match store.commit(rt, &mut state.pass, draft) {
        Ok(commit) => tell_commit(state, number, commit, keep),
        Err(refused) => refuse_commit(state, number, refused, keep),
    }
}

/// Tells the number of the transaction's commit, for which there is room; the transaction has then ended.
fn tell_commit<J: Names>(state: &mut State<J>, number: u64, commit: u64, keep: usize)
    requires { HasRoomForCommit keep state.old.room }
    ensures { (p : PassParts) (t : Transaction) (shards : ℕ) → IsWithin state.old.seen p → state.old.seen.transaction ≡ Some t
        → refusal_of J.definitions state.old.seen Call.Commit ≡ None
        → IsAppended p state.old.pass (commit_of state.old.client t) commit []
        → HasReplied J.definitions shards (Some J.window) (record state.old { pass = p }) state.new number
        (request_of state.old.client Call.Commit) keep }
{
    state.transaction.end();
    state.seen.see_place(commit);
    let body = Body::Commit { commit };
    tell_last(state.client, number, body, keep, &mut state.text);
}

/// Tells why the transaction isn't committed.
fn refuse_commit<J: Names>(state: &mut State<J>, number: u64, refused: CommitRefused, keep: usize)
    requires within { IsWithin state.old.seen state.old.pass }
    requires room { keep + length (reply_text (no_memory_reply state.old.client number)) ≤ state.old.room }
    ensures { (p : PassParts) (t : Transaction) (shards : ℕ) → IsWithin state.old.seen p → HasRead p state.old.pass
        → state.old.seen.transaction ≡ Some t → refused.draft.touched ≡ t.touched
        → refusal_of J.definitions state.old.seen Call.Commit ≡ None
        → WhereConflict (IsConflict p state.old.pass t.touched) refused.cause
        → HasReplied J.definitions shards (Some J.window) (record state.old { pass = p }) state.new number
        (request_of state.old.client Call.Commit) keep }
{
    let CommitRefused { draft, cause } = refused;
    match cause {
        CommitCause::Conflict(found) => conflict(state, number, found, draft, keep),
        CommitCause::NoMemory => {
            drop(draft);
            state.say_no_memory(number, keep);
        }
    }
}

/// Tells the commit that the transaction conflicts with; the transaction has then ended.
fn conflict<J: Names>(
    state: &mut State<J>,
    number: u64,
    conflict: Conflict,
    draft: Draft,
    keep: usize,
)
    requires within { IsWithin state.old.seen state.old.pass }
    requires room { keep + length (reply_text (no_memory_reply state.old.client number)) ≤ state.old.room }
    ensures { (p : PassParts) (t : Transaction) (shards : ℕ) → IsWithin state.old.seen p → state.old.seen.transaction ≡ Some t
        → draft.touched ≡ t.touched
        → refusal_of J.definitions state.old.seen Call.Commit ≡ None → IsConflict p state.old.pass t.touched conflict
        → HasReplied J.definitions shards (Some J.window) (record state.old { pass = p }) state.new number
        (request_of state.old.client Call.Commit) keep }
{
    let Some(group) = group_at(state.alloc, &draft, conflict.group) else {
        return state.say_no_memory(number, keep);
    };
    let body = Body::Conflict {
        commit: conflict.commit,
        group,
        place: conflict.place,
    };
    if !tell(state.client, number, body, keep, &mut state.text) {
        return;
    }
    state.transaction.end();
    state.seen.see_place(conflict.place);
}

/// The commit that the transaction asks for, once there is room to tell it; `None` where there is no transaction, or when out of memory.
fn prepared(
    alloc: Global,
    client: u32,
    transaction: &OpenTransaction,
    keep: usize,
    text: &mut Buffer,
) -> Option<Draft>
    ensures asked { IfSome result (λ draft. IsCommitOf client transaction.now.transaction draft) }
    ensures same { text.new.bytes ≡ text.old.bytes }
    ensures kept { text.old.spare ≤ text.new.spare }
    ensures suffices { IfSome result (λ draft. HasRoomForCommit keep text.new.spare) }
{
    let txn = transaction.transaction()?;
    if !make_room_for_numbers(keep, text) {
        return None;
    }
    match draft_of_transaction(alloc, client, txn) {
        Ok(draft) => Some(draft),
        Err(_) => None,
    }
}

/// The touched group of this turn; `None` where there is none, or when out of memory.
fn group_at(alloc: Global, draft: &Draft, turn: u32) -> Option<Key>
    ensures { IfSome result (λ group. IsTouchedAs draft.now.touched turn group) }
{
    let touch = draft.commit().touched.get(turn as usize)?;
    touch.group.copy(alloc).ok()
}
