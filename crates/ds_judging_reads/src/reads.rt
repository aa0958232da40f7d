//! Replies to gets, queries and statements.
ghost use Rattle.std.specs.Prelude.{◌≡◌, ◌≤◌, ◌+◌, ◌↔◌, All, Some, None, codes, is_some, length, map, take, IfOk, IfSome, IsTrue, OnOk};
ghost use Rattle.std.specs.Option.{option_map};
ghost use Rattle.ds_base.specs.Keys.{root_of};
ghost use Rattle.ds_entity.specs.EntityOrder.{sorted_by_key};
ghost use Rattle.ds_bytes.specs.Lawful.{IsLawfulKey};
ghost use Rattle.ds_query.specs.Lawful.{IsLawfulNormal};
ghost use Rattle.ds_log.specs.After.{after};
ghost use Rattle.ds_log.specs.Logs.{writes_of};
ghost use Rattle.ds_applied.specs.AppliedLists.{AreCounts, shard_views};
ghost use Rattle.ds_request.specs.declared.call.Call.{Call};
ghost use Rattle.ds_model.specs.Answers.{CallAnswers, saw_group};
ghost use Rattle.ds_model.specs.Groups.{StandsAt, group_refusal, place_in};
ghost use Rattle.ds_model.specs.Refusals.{refusal_of};
ghost use Rattle.ds_model.specs.Results.{entity_of};
ghost use Rattle.ds_model.specs.Views.{strong_view};
ghost use Rattle.ds_model.specs.Worlds.{shard_lists};
ghost use Rattle.ds_protocol.specs.Finishing.{AreByKey};
ghost use Rattle.ds_protocol.specs.Preparing.{IsReady};
ghost use Rattle.ds_protocol.specs.Searches.{IsLawfulSearch, search_parts};
ghost use Rattle.ds_history.specs.Versions.{HaveKind};
ghost use Rattle.ds_history.specs.Writers.{writing};
ghost use Rattle.ds_reply_lines.specs.LawfulResults.{HasTexts};
ghost use Rattle.ds_reply_lines.specs.ReplyLines.{number_at};
ghost use Rattle.ds_judging_lines.specs.Deciding.{AsksLawful, DecidesTurn, IsOnlyTold, IsSession, SaidIs, told_in, world_in};
ghost use Rattle.ds_judging_reads.specs.Reading.{IsExpired, IsSearched, told_over};

use crate::pages::page_of;
use ds_base::{Key, NoMemory, TextString, copy_of};
use ds_entity::{Entity, Seen};
use ds_journal_text::key_is_lawful;
use ds_judging_lines::{
    Turn, asks_are_lawful, copy_counts, see_count, see_counts, seen_count, select_is_lawful,
    tells_error,
};
use ds_protocol::{GroupRead, Ready, Search, Session, finish, group_of, prepare};
use ds_query::Branch;
use ds_reply::Body;

/// The error of a reply that says that the versions are gone.
const EXPIRED: u64 = 23;

/// The body, where it is an answer to a get of this key.
pub fn judge_get(turn: &Turn<'_>, session: &mut Session, key: Key) -> Result<Option<Body>, NoMemory>
    requires session { IsSession turn.now session.old }
    requires unrefused { refusal_of turn.now.run.now.defs.now session.old (Call.Get key) ≡ None }
    ensures decided { IfOk result (λ found. DecidesTurn turn.now
        (λ said after. CallAnswers (world_in turn.now) turn.now.client session.old (Call.Get key) said after) found
        session.new) }
    ensures kept { IfOk result (λ found. IsSession turn.now session.new) }
{
    let group = key.root(turn.alloc)?;
    let Some(place) = turn.group_place(session, &group) else {
        return Ok(None);
    };
    if tells_error(turn, EXPIRED) {
        return judge_expired(turn, session, &group, place);
    }
    let Some(said) = finds_entity(turn, &key, place)? else {
        return Ok(None);
    };
    see_group(turn, session, group, place)?;
    Ok(Some(said))
}

/// The body with the entity of a key at a place, if there is one, where the reply tells it.
fn finds_entity(turn: &Turn<'_>, key: &Key, place: u64) -> Result<Option<Body>, NoMemory>
    ensures { IfOk result (SaidIs turn.now
        (Body.Get (entity_of (strong_view turn.now.run.now.history.journal place) key.now) place)) }
{
    let there = turn.run.history.entity(turn.alloc, key, place)?;
    let entity = copy_of(turn.alloc, there)?;
    turn.said(Body::Get { entity, place })
}

/// A strong read of a group was shown.
fn see_group(turn: &Turn<'_>, session: &mut Session, group: Key, place: u64) -> Result<(), NoMemory>
    requires session { IsSession turn.now session.old }
    requires allowed { group_refusal session.old.transaction (Some group) ≡ None }
    requires place { place ≤ length turn.now.run.now.history.journal }
    ensures seen { OnOk result (session.new ≡ saw_group (world_in turn.now) group place session.old) }
    ensures kept { OnOk result (IsSession turn.now session.new) }
{
    let shard = turn.shard(&group)?;
    let entries = turn.run.history.entries_up_to(shard, place);
    session.read_group(GroupRead {
        group,
        place,
        shard,
        entries,
    })
}

/// The body, where it says that the versions of a transaction's place are gone.
fn judge_expired(
    turn: &Turn<'_>,
    session: &mut Session,
    group: &Key,
    place: u64,
) -> Result<Option<Body>, NoMemory>
    requires session { IsSession turn.now session.old }
    requires stands { IsOnlyTold (StandsAt turn.now.run.now.history.journal session.old
        (place_in session.old.transaction group.now)) (number_at (codes "place") (told_in turn.now)) (Some place) }
    ensures decided { IfOk result (λ found. DecidesTurn turn.now
        (λ said after. IsExpired (world_in turn.now) session.old group.now said after) found session.new) }
    ensures kept { IfOk result (λ found. IsSession turn.now session.new) }
{
    let shard = turn.shard(group)?;
    let snapshot = turn.run.history.entries_up_to(shard, place);
    let Some(applied) = turn.told.number("applied") else {
        return Ok(None);
    };
    if !session.in_transaction() {
        return Ok(None);
    }
    if !are_gone(snapshot, turn.run.window, applied) {
        return Ok(None);
    }
    let seen = seen_count(session, shard);
    if applied < seen {
        return Ok(None);
    }
    if applied > turn.run.history.entries(shard) {
        return Ok(None);
    }
    let body = Body::Expired {
        applied,
        place,
        snapshot,
    };
    let Some(said) = turn.said(body)? else {
        return Ok(None);
    };
    session.end();
    see_count(turn, session, place, shard, applied);
    Ok(Some(said))
}

/// Whether so many entries were applied that the window doesn't reach back to a snapshot.
fn are_gone(snapshot: u64, window: u64, applied: u64) -> bool
    ensures { IsTrue result ↔ (snapshot + window ≤ applied) }
{
    match snapshot.checked_add(window) {
        Some(least) => least <= applied,
        None => false,
    }
}

// ---- queries

/// The body, where it is an answer to this search.
pub fn judge_search(
    turn: &Turn<'_>,
    session: &mut Session,
    search: Search,
) -> Result<Option<Body>, NoMemory>
    requires session { IsSession turn.now session.old }
    requires lawful { IsLawfulSearch search }
    ensures decided { IfOk result (λ found. DecidesTurn turn.now
        (λ said after. IsSearched (world_in turn.now) session.old search said after) found session.new) }
    ensures kept { IfOk result (λ found. IsSession turn.now session.new) }
{
    let inside = session.in_transaction();
    let ready = match prepare(turn.alloc, turn.run.defs, inside, &search) {
        Ok(ready) => ready,
        Err(body) => return turn.say_refusal(body),
    };
    judge_prepared(turn, session, &search, &ready)
}

/// The body, where it is an answer to a query with this normal form and window.
fn judge_prepared(
    turn: &Turn<'_>,
    session: &mut Session,
    search: &Search,
    ready: &Ready,
) -> Result<Option<Body>, NoMemory>
    requires session { IsSession turn.now session.old }
    requires ready { IsReady turn.now.run.now.defs.now (is_some session.old.transaction) (search_parts search.now)
        ready.now.normal ready.now.window }
    requires lawful { IsLawfulNormal ready.now.normal }
    ensures decided { IfOk result (λ found. DecidesTurn turn.now
        (λ said after. IsSearched (world_in turn.now) session.old search.now said after) found session.new) }
    ensures kept { IfOk result (λ found. IsSession turn.now session.new) }
{
    select_is_lawful(&search.query.select);
    asks_are_lawful(ready.normal.branches.as_slice());
    match group_of(turn.alloc, search)? {
        Some(group) => judge_under(turn, session, search, ready, group),
        None => judge_counted(turn, session, search, ready),
    }
}

/// The body, where it is an answer to a query with an ancestor.
fn judge_under(
    turn: &Turn<'_>,
    session: &mut Session,
    search: &Search,
    ready: &Ready,
    group: Key,
) -> Result<Option<Body>, NoMemory>
    requires session { IsSession turn.now session.old }
    requires ready { IsReady turn.now.run.now.defs.now (is_some session.old.transaction) (search_parts search.now)
        ready.now.normal ready.now.window }
    requires lawful { IsLawfulNormal ready.now.normal }
    requires texts { HasTexts search.now.query.select }
    requires asks { All AsksLawful ready.now.normal.branches }
    requires group { option_map root_of search.now.query.ancestor ≡ Some group }
    ensures decided { IfOk result (λ found. DecidesTurn turn.now
        (λ said after. IsSearched (world_in turn.now) session.old search.now said after) found session.new) }
    ensures kept { IfOk result (λ found. IsSession turn.now session.new) }
{
    key_is_lawful(&group);
    match session.group_refusal(turn.alloc, Some(&group)) {
        Some(body) => turn.say_refusal(body),
        None => judge_in_group(turn, session, search, ready, group),
    }
}

/// The body, where it is an answer to a query in a group that may be touched.
fn judge_in_group(
    turn: &Turn<'_>,
    session: &mut Session,
    search: &Search,
    ready: &Ready,
    group: Key,
) -> Result<Option<Body>, NoMemory>
    requires session { IsSession turn.now session.old }
    requires ready { IsReady turn.now.run.now.defs.now (is_some session.old.transaction) (search_parts search.now)
        ready.now.normal ready.now.window }
    requires lawful { IsLawfulNormal ready.now.normal }
    requires texts { HasTexts search.now.query.select }
    requires asks { All AsksLawful ready.now.normal.branches }
    requires group { option_map root_of search.now.query.ancestor ≡ Some group }
    requires key { IsLawfulKey group }
    requires allowed { group_refusal session.old.transaction (Some group) ≡ None }
    ensures decided { IfOk result (λ found. DecidesTurn turn.now
        (λ said after. IsSearched (world_in turn.now) session.old search.now said after) found session.new) }
    ensures kept { IfOk result (λ found. IsSession turn.now session.new) }
{
    let Some(place) = turn.group_place(session, &group) else {
        return Ok(None);
    };
    if tells_error(turn, EXPIRED) {
        return judge_expired(turn, session, &group, place);
    }
    let Some(said) = finds_under(turn, search, ready, &group, place)? else {
        return Ok(None);
    };
    see_group(turn, session, group, place)?;
    Ok(Some(said))
}

/// The body of what the search finds in a group, where the reply tells it.
fn finds_under(
    turn: &Turn<'_>,
    search: &Search,
    ready: &Ready,
    group: &Key,
    place: u64,
) -> Result<Option<Body>, NoMemory>
    requires lawful { IsLawfulNormal ready.now.normal }
    ensures { IfOk result (SaidIs turn.now (told_over search.now ready.now.normal ready.now.window
        (sorted_by_key (after (writes_of (writing group.now (take place turn.now.run.now.history.journal))))) (Seen.Place place))) }
{
    let view = turn.run.history.group_view(turn.alloc, group, place)?;
    let mut entities = Vec::with_capacity(turn.alloc, view.len())?;
    view.put_all(&mut entities)?;
    finds(turn, search, ready, entities.as_slice(), Seen::Place(place))
}

/// The body, where it is an answer to a query without an ancestor.
fn judge_counted(
    turn: &Turn<'_>,
    session: &mut Session,
    search: &Search,
    ready: &Ready,
) -> Result<Option<Body>, NoMemory>
    requires session { IsSession turn.now session.old }
    requires ready { IsReady turn.now.run.now.defs.now (is_some session.old.transaction) (search_parts search.now)
        ready.now.normal ready.now.window }
    requires lawful { IsLawfulNormal ready.now.normal }
    requires texts { HasTexts search.now.query.select }
    requires asks { All AsksLawful ready.now.normal.branches }
    requires everywhere { search.now.query.ancestor ≡ None }
    ensures decided { IfOk result (λ found. DecidesTurn turn.now
        (λ said after. IsSearched (world_in turn.now) session.old search.now said after) found session.new) }
    ensures kept { IfOk result (λ found. IsSession turn.now session.new) }
{
    let Some(counts) = turn.counts(session, 0)? else {
        return Ok(None);
    };
    let Some(said) = finds_counted(turn, search, ready, counts.as_slice())? else {
        return Ok(None);
    };
    see_counts(turn, session, counts.as_slice());
    Ok(Some(said))
}

/// The body of what the search finds among the counted entries of all shards, where the reply tells it.
fn finds_counted(
    turn: &Turn<'_>,
    search: &Search,
    ready: &Ready,
    counts: &[u64],
) -> Result<Option<Body>, NoMemory>
    requires lawful { IsLawfulNormal ready.now.normal }
    requires counts { AreCounts (shard_lists turn.now.run.now.history.shards turn.now.run.now.history.journal) counts.now }
    ensures { IfOk result (SaidIs turn.now (told_over search.now ready.now.normal ready.now.window
        (sorted_by_key (shard_views (shard_lists turn.now.run.now.history.shards turn.now.run.now.history.journal) counts.now))
        (Seen.Counts counts.now))) }
{
    match common_kind(ready.normal.branches.as_slice()) {
        Some(kind) => finds_of_kind(turn, search, ready, kind, counts),
        None => finds_of_all(turn, search, ready, counts),
    }
}

/// The kind of all branches, where each has the same.
fn common_kind(branches: &[Branch]) -> Option<&TextString>
    ensures { IfSome result (λ kind. HaveKind kind.now branches.now) }
{
    let kind = branches.first()?.kind.as_ref()?;
    if have_kind(branches, kind) {
        Some(kind)
    } else {
        None
    }
}

/// Whether each branch has this kind.
fn have_kind(branches: &[Branch], kind: &TextString) -> bool
    ensures { IsTrue result → HaveKind kind.now branches.now }
{
    branches.iter().all(|branch| has_kind(branch, kind))
}

/// Whether a branch has this kind.
fn has_kind(branch: &Branch, kind: &TextString) -> bool
    ensures { IsTrue result ↔ (branch.now.kind ≡ Some kind.now) }
{
    match &branch.kind {
        Some(own) => own == kind,
        None => false,
    }
}

/// The body of what a search of one kind finds among the counted entries, where the reply tells it: the entities of this kind suffice.
fn finds_of_kind(
    turn: &Turn<'_>,
    search: &Search,
    ready: &Ready,
    kind: &TextString,
    counts: &[u64],
) -> Result<Option<Body>, NoMemory>
    requires lawful { IsLawfulNormal ready.now.normal }
    requires kind { HaveKind kind.now ready.now.normal.branches }
    ensures { IfOk result (SaidIs turn.now (told_over search.now ready.now.normal ready.now.window
        (sorted_by_key (shard_views (shard_lists turn.now.run.now.history.shards turn.now.run.now.history.journal) counts.now))
        (Seen.Counts counts.now))) }
{
    let entities = turn.run.history.seen(turn.alloc, kind, counts)?;
    let applied = copy_counts(turn.alloc, counts)?;
    finds(
        turn,
        search,
        ready,
        entities.as_slice(),
        Seen::Counts(applied),
    )
}

/// The body of what a search of any kind finds among the counted entries, where the reply tells it.
fn finds_of_all(
    turn: &Turn<'_>,
    search: &Search,
    ready: &Ready,
    counts: &[u64],
) -> Result<Option<Body>, NoMemory>
    requires lawful { IsLawfulNormal ready.now.normal }
    requires counts { AreCounts (shard_lists turn.now.run.now.history.shards turn.now.run.now.history.journal) counts.now }
    ensures { IfOk result (SaidIs turn.now (told_over search.now ready.now.normal ready.now.window
        (sorted_by_key (shard_views (shard_lists turn.now.run.now.history.shards turn.now.run.now.history.journal) counts.now))
        (Seen.Counts counts.now))) }
{
    let view = turn.run.history.counted(turn.alloc, counts)?;
    let entities = view.entities(turn.alloc)?;
    let applied = copy_counts(turn.alloc, counts)?;
    finds(
        turn,
        search,
        ready,
        entities.as_slice(),
        Seen::Counts(applied),
    )
}

/// The body of what the search finds among these entities, where the reply tells it.
fn finds(
    turn: &Turn<'_>,
    search: &Search,
    ready: &Ready,
    entities: &[&Entity],
    seen: Seen,
) -> Result<Option<Body>, NoMemory>
    requires lawful { IsLawfulNormal ready.now.normal }
    requires by_key { AreByKey (map (λ e. e.now) entities.now) }
    ensures { IfOk result (SaidIs turn.now (told_over search.now ready.now.normal ready.now.window (map (λ e. e.now) entities.now) seen)) }
{
    let page = page_of(turn.alloc, entities, &ready.normal, &ready.window)?;
    let body = finish(
        turn.alloc,
        search,
        &ready.normal,
        entities,
        page.rows,
        page.next.as_ref(),
        seen,
    )?;
    turn.said(body)
}
