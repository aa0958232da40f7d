//! Queries and statements.
ghost use Rattle.std.specs.Prelude.{◌≡◌, ◌+◌, ◌*◌, ◌<◌, ◌≤◌, All, None, Some, false, length, is_some, IfOk, IsTrue, OnErr};
ghost use Rattle.std.specs.Option.{option_map};
ghost use Rattle.ds_entity.specs.declared.results.Seen.{Seen};
ghost use Rattle.ds_base.specs.Keys.{root_of};
ghost use Rattle.ds_log.specs.Shards.{shard_of};
ghost use Rattle.ds_model.specs.Answers.{cursor_of};
ghost use Rattle.ds_model.specs.Groups.{group_refusal};
ghost use Rattle.ds_output.specs.Looking.{tells_counts, tells_place};
ghost use Rattle.ds_protocol.specs.Finishing.{found};
ghost use Rattle.ds_protocol.specs.Preparing.{ArePlansFor, IsReady};
ghost use Rattle.ds_protocol.specs.Saying.{no_memory_reply};
ghost use Rattle.ds_protocol.specs.Searches.{IsLawfulSearch, IsSearchOf, search_parts};
ghost use Rattle.ds_query.specs.Lawful.{IsLawfulNormal, SuitsSeveral};
ghost use Rattle.ds_reply.specs.Replies.{reply_text};
ghost use Rattle.ds_request.specs.declared.call.Call.{Call};
ghost use Rattle.ds_session_state.specs.Replying.{HasReplied, request_of};
ghost use Rattle.ds_session_state.specs.Sessions.{IsWithin};
ghost use Rattle.ds_session_reads.specs.Steps.{IsWithinSteps};
ghost use Rattle.ds_session_reads.specs.Wide.{GoesWide};
ghost use Rattle.ds_engine.specs.Counted.{FindsGlobally};
ghost use Rattle.ds_engine.specs.Planned.{IsPlanned};
ghost use Rattle.ds_engine.specs.Searches.{ancestor_of, look_ups, most_of, search_bound};
ghost use Rattle.ds_engine.specs.Snapshots.{newest};
ghost use Rattle.ds_store.specs.Passes.{HasRead};
ghost use Rattle.ds_store.specs.Searched.{HasCounted};

use crate::reads::{GroupHome, expire, group_home};
use crate::wide::goes_wide;
use ds_base::{Counts, Key, NoMemory, TryCopy};
use ds_engine::PlannedQuery;
use ds_entity::Seen;
use ds_indexdef::Defs;
use ds_io::{NoGate, Steps};
use ds_output::{counts_in, found_body, place_in, tell};
use ds_protocol::{Ready, Search, prepare};
use ds_query::Normal;
use ds_reply::Body;
use ds_session_state::{ReplyTo, State, touch_place};
use ds_store::{Answer, GetRefused, Names, Pass, Store};
use std::alloc::Global;
use std::sync::Wait;
use std::sync::ledger::Ledger;
use std::thread::Threads;

/// A search that nothing refuses before its group is looked at, what it is answered from, and under which definitions.
#[derive(Drop)]
struct PreparedSearch<'a> {
    search: Search,
    ready: Ready,
    defs: &'a Defs,
}

/// Answers a search: its first refusal, or what it finds.
pub fn find<J: Names, R: Threads + Wait + Sync, H: Wait + Drop, L: Ledger>(
    state: &mut State<J>,
    rt: &R,
    store: &Store<J, H>,
    defs: &Defs,
    to: ReplyTo,
    search: Search,
    steps: &mut Steps<L>,
)
    requires within { IsWithin state.old.seen state.old.pass }
    requires definitions { defs.now ≡ J.definitions }
    requires lawful { IsLawfulSearch search }
    requires ledger { L.parts ≡ J.ledger }
    requires room { to.keep + length (reply_text (no_memory_reply state.old.client to.number)) ≤ state.old.room }
    ensures replied { (call : Call) → IsSearchOf call search
        → HasReplied J.definitions store.now.shards (Some J.window) state.old state.new to.number
        (request_of state.old.client call) to.keep }
    ensures steps { (call : Call) → IsSearchOf call search
        → IsWithinSteps J.definitions J.window store.now.shards to.number (request_of state.old.client call) state.old state.new
        steps.old steps.new }
{
    let ready = match prepare(state.alloc, defs, state.transaction.is_open(), &search) {
        Ok(ready) => ready,
        Err(body) => {
            drop(search);
            return state.refuse(to.number, body, to.keep);
        }
    };
    let prepared = PreparedSearch {
        search,
        ready,
        defs,
    };
    match &prepared.search.query.ancestor {
        Some(ancestor) => {
            find_in_group(state, rt, store, to, &prepared, ancestor, steps);
            drop(prepared);
        }
        None => {
            find_in_all(state, rt, store, to, &prepared, steps);
            drop(prepared);
        }
    }
}

/// What a search without an ancestor finds: over all entries that are applied.
fn find_in_all<J: Names, R: Threads + Wait + Sync, H: Wait + Drop, L: Ledger>(
    state: &mut State<J>,
    rt: &R,
    store: &Store<J, H>,
    to: ReplyTo,
    prepared: &PreparedSearch<'_>,
    steps: &mut Steps<L>,
)
    requires within { IsWithin state.old.seen state.old.pass }
    requires everywhere { prepared.now.search.query.ancestor ≡ None }
    requires ready { IsReady J.definitions (is_some state.old.seen.transaction) (search_parts prepared.now.search)
        prepared.now.ready.normal prepared.now.ready.window }
    requires definitions { prepared.now.defs.now ≡ J.definitions }
    requires lawful { IsLawfulNormal prepared.now.ready.normal }
    requires planned { ArePlansFor J.definitions prepared.now.ready.normal.branches prepared.now.ready.plans.items }
    requires placeless { SuitsSeveral prepared.now.ready.normal.several prepared.now.ready.window }
    requires ledger { L.parts ≡ J.ledger }
    requires room { to.keep + length (reply_text (no_memory_reply state.old.client to.number)) ≤ state.old.room }
    ensures replied { (call : Call) → IsSearchOf call prepared.now.search
        → HasReplied J.definitions store.now.shards (Some J.window) state.old state.new to.number
        (request_of state.old.client call) to.keep }
    ensures steps { (call : Call) → IsSearchOf call prepared.now.search
        → IsWithinSteps J.definitions J.window store.now.shards to.number (request_of state.old.client call) state.old state.new
        steps.old steps.new }
{
    let PreparedSearch {
        search,
        ready,
        defs,
    } = prepared;
    let wide = goes_wide(&ready.window, store.shards(), &state.pass);
    let planned = PlannedQuery {
        normal: &ready.normal,
        window: &ready.window,
        defs,
        plans: ready.plans.as_slice(),
    };
    let asked = query(rt, store, &mut state.pass, wide, &planned, steps);
    let Ok(answer) = asked else {
        return state.say_no_memory(to.number, to.keep);
    };
    let Ok(counted) = counted_body(state.alloc, search, &ready.normal, answer) else {
        return state.say_no_memory(to.number, to.keep);
    };
    let Counted {
        body,
        counts,
        commit,
    } = counted;
    if !tell(state.client, to.number, body, to.keep, &mut state.text) {
        return;
    }
    state.seen.see_counts(counts.as_slice(), commit);
}

/// What a search with an ancestor finds in the ancestor's group, unless the transaction may not touch that.
fn find_in_group<J: Names, R: Wait, H: Wait + Drop, L: Ledger>(
    state: &mut State<J>,
    rt: &R,
    store: &Store<J, H>,
    to: ReplyTo,
    prepared: &PreparedSearch<'_>,
    ancestor: &Key,
    steps: &mut Steps<L>,
)
    requires within { IsWithin state.old.seen state.old.pass }
    requires under { prepared.now.search.query.ancestor ≡ Some ancestor.now }
    requires ready { IsReady J.definitions (is_some state.old.seen.transaction) (search_parts prepared.now.search)
        prepared.now.ready.normal prepared.now.ready.window }
    requires definitions { prepared.now.defs.now ≡ J.definitions }
    requires lawful { IsLawfulNormal prepared.now.ready.normal }
    requires planned { ArePlansFor J.definitions prepared.now.ready.normal.branches prepared.now.ready.plans.items }
    requires placeless { SuitsSeveral prepared.now.ready.normal.several prepared.now.ready.window }
    requires ledger { L.parts ≡ J.ledger }
    requires room { to.keep + length (reply_text (no_memory_reply state.old.client to.number)) ≤ state.old.room }
    ensures replied { (call : Call) → IsSearchOf call prepared.now.search
        → HasReplied J.definitions store.now.shards (Some J.window) state.old state.new to.number
        (request_of state.old.client call) to.keep }
    ensures steps { (call : Call) → IsSearchOf call prepared.now.search
        → IsWithinSteps J.definitions J.window store.now.shards to.number (request_of state.old.client call) state.old state.new
        steps.old steps.new }
{
    let Ok(home) = group_home(state.alloc, ancestor, store.shards()) else {
        return state.say_no_memory(to.number, to.keep);
    };
    if let Some(body) = state
        .transaction
        .group_refusal(state.alloc, Some(&home.group))
    {
        drop(home);
        return state.refuse(to.number, body, to.keep);
    }
    find_there(state, rt, store, to, prepared, home, steps);
}

/// What it finds in this group and its shard: it stands where a get of the group would, and its transaction touches the group.
fn find_there<J: Names, R: Wait, H: Wait + Drop, L: Ledger>(
    state: &mut State<J>,
    rt: &R,
    store: &Store<J, H>,
    to: ReplyTo,
    prepared: &PreparedSearch<'_>,
    home: GroupHome,
    steps: &mut Steps<L>,
)
    requires within { IsWithin state.old.seen state.old.pass }
    requires under { option_map root_of prepared.now.search.query.ancestor ≡ Some home.group }
    requires shard { home.shard ≡ shard_of home.group store.now.shards }
    requires below { home.shard < store.now.shards }
    requires allowed { group_refusal state.old.seen.transaction (Some home.group) ≡ None }
    requires ready { IsReady J.definitions (is_some state.old.seen.transaction) (search_parts prepared.now.search)
        prepared.now.ready.normal prepared.now.ready.window }
    requires definitions { prepared.now.defs.now ≡ J.definitions }
    requires lawful { IsLawfulNormal prepared.now.ready.normal }
    requires planned { ArePlansFor J.definitions prepared.now.ready.normal.branches prepared.now.ready.plans.items }
    requires placeless { SuitsSeveral prepared.now.ready.normal.several prepared.now.ready.window }
    requires ledger { L.parts ≡ J.ledger }
    requires room { to.keep + length (reply_text (no_memory_reply state.old.client to.number)) ≤ state.old.room }
    ensures replied { (call : Call) → IsSearchOf call prepared.now.search
        → HasReplied J.definitions store.now.shards (Some J.window) state.old state.new to.number
        (request_of state.old.client call) to.keep }
    ensures steps { (call : Call) → IsSearchOf call prepared.now.search
        → IsWithinSteps J.definitions J.window store.now.shards to.number (request_of state.old.client call) state.old state.new
        steps.old steps.new }
{
    let PreparedSearch {
        search,
        ready,
        defs,
    } = prepared;
    let GroupHome { group, shard } = home;
    if state.transaction.make_room().is_err() {
        drop(group);
        return state.say_no_memory(to.number, to.keep);
    }
    let at = touch_place(rt, store, &mut state.pass, &state.transaction, &group);
    let planned = PlannedQuery {
        normal: &ready.normal,
        window: &ready.window,
        defs,
        plans: ready.plans.as_slice(),
    };
    let asked = store.strong_query_planned(rt, &mut state.pass, &planned, shard, at, steps);
    match asked {
        Ok(answer) => {
            let Ok(read) = place_body(state.alloc, search, &ready.normal, answer) else {
                drop(group);
                return state.say_no_memory(to.number, to.keep);
            };
            let ReadAt {
                body,
                place,
                entries,
            } = read;
            if !tell(state.client, to.number, body, to.keep, &mut state.text) {
                return;
            }
            state.transaction.touch(group, place);
            state.seen.see_place(place);
            state.seen.see_entries(shard as usize, entries);
        }
        Err(refused) => {
            drop(group);
            match refused {
                GetRefused::Expired(expired) => {
                    expire(state, to.number, shard, at, expired, to.keep);
                }
                GetRefused::NoMemory => state.say_no_memory(to.number, to.keep),
            }
        }
    }
}

/// What a query without an ancestor finds over all shards. Where they are asked at once, in threads as far as there are any, nothing is
/// told of the steps. A refusal is lack of memory.
fn query<J: Names, R: Threads + Sync, H: Wait + Drop, L: Ledger>(
    rt: &R,
    store: &Store<J, H>,
    pass: &mut Pass<J>,
    wide: bool,
    asked: &PlannedQuery<'_>,
    steps: &mut Steps<L>,
) -> Result<Answer, NoMemory>
    requires planned { IsPlanned asked.now }
    requires definitions { asked.now.defs.now ≡ J.definitions }
    requires wide { IsTrue wide → GoesWide asked.now.window.now store.now.shards pass.old }
    requires everywhere { ancestor_of asked.now.normal.now.branches ≡ None }
    requires ledger { L.parts ≡ J.ledger }
    ensures counted { IfOk result (λ a. HasCounted pass.old pass.new a.seen a.beside) }
    ensures found { IfOk result (λ a. FindsGlobally pass.new.lists asked.now.normal.now asked.now.window.now a.results a.next) }
    ensures steps_bounded { wide ≡ false → IfOk result (λ a. All (λ q. steps.new ≤ (steps.old
        + search_bound asked.now.normal.now asked.now.window.now (most_of asked.now.normal.now asked.now.window.now)
        (newest J.definitions J.window pass.new.lists))
        + look_ups q.select (length a.results)) asked.now.normal.now.branches) }
    ensures steps_in_all { wide ≡ false → steps.new ≤ steps.old
        + 2 * search_bound asked.now.normal.now asked.now.window.now None (newest J.definitions J.window pass.new.lists) }
    ensures read { OnErr result (HasRead pass.old pass.new) }
{
    if wide {
        store.query_wide_planned(rt, pass, asked, &NoGate, steps)
    } else {
        store.query_planned(pass, asked, steps)
    }
}

/// What the reply to a search says of what all shards hold, with what was counted.
#[derive(Drop)]
struct Counted {
    body: Body,
    counts: Counts,
    commit: u64,
}

fn counted_body(
    alloc: Global,
    search: &Search,
    normal: &Normal,
    answer: Answer,
) -> Result<Counted, NoMemory>
    requires { IsTrue (tells_counts answer.seen) }
    ensures counts { IfOk result (λ c. answer.seen ≡ Seen.Counts c.counts) }
    ensures commit { IfOk result (λ c. c.commit ≡ answer.beside) }
    ensures body { IfOk result (λ c. c.body ≡ found search.now.statement search.now.query.select answer.results answer.seen
        (cursor_of search.now.cursor normal.now.branches answer.next)) }
{
    let Answer {
        results,
        next,
        seen,
        beside,
    } = answer;
    let counts = counts_in(alloc, &seen)?;
    let body = found_body(alloc, search, normal, results, next.as_ref(), seen)?;
    Ok(Counted {
        body,
        counts,
        commit: beside,
    })
}

/// What the reply to a search says of what one group's shard holds, with where it was read.
#[derive(Drop)]
struct ReadAt {
    body: Body,
    place: u64,
    entries: u64,
}

fn place_body(
    alloc: Global,
    search: &Search,
    normal: &Normal,
    answer: Answer,
) -> Result<ReadAt, NoMemory>
    requires { IsTrue (tells_place answer.seen) }
    ensures place { IfOk result (λ r. answer.seen ≡ Seen.Place r.place) }
    ensures entries { IfOk result (λ r. r.entries ≡ answer.beside) }
    ensures body { IfOk result (λ r. r.body ≡ found search.now.statement search.now.query.select answer.results answer.seen
        (cursor_of search.now.cursor normal.now.branches answer.next)) }
{
    let Answer {
        results,
        next,
        seen,
        beside,
    } = answer;
    let place = place_in(&seen);
    let body = found_body(alloc, search, normal, results, next.as_ref(), seen)?;
    Ok(ReadAt {
        body,
        place,
        entries: beside,
    })
}
