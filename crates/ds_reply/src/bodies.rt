//! What each reply tells, in any order.
ghost use Rattle.std.specs.Prelude.{◌≡◌, ◌≤◌, ◌++◌, map, [], Some, codes, MatchOption, option_map, unwrap_or};
ghost use Rattle.arrayvec.specs.ArrayVec.{array_vec_len};
ghost use Rattle.ds_reply.specs.Refusals.{refusal_members, counted};
ghost use Rattle.ds_reply.specs.Replies.{body_members, reply_members, done, written_at, seen_at, found};
ghost use Rattle.ds_reply.specs.Shown.{member_named};

use crate::member::{Member, Members, Shown, counts, key, number, optional_entity, results, text};
use crate::member_name::MemberName;
use crate::refusals::refusal_of;
use crate::reply::{Body, Reply, WriteAt};
use crate::told::Told;
use arrayvec::ArrayVec;
use ds_base::TextString;
use ds_entity::{Results, Seen};
use ds_query::Select;

/// The members of a reply.
pub(crate) fn members_of<'a>(reply: &'a Reply) -> Members<'a>
    ensures items { map member_named result.items ≡ reply_members reply.now }
    ensures few { array_vec_len result ≤ 8 }
{
    let mut members = ArrayVec::new();
    members.push(number(MemberName::Client, u64::from(reply.client)));
    add_body(&mut members, &reply.body);
    members.push(number(MemberName::Line, reply.line));
    members
}

/// Puts the members of the body behind the others.
fn add_body<'a>(members: &mut Members<'a>, body: &'a Body)
    requires { array_vec_len members.old ≤ 1 }
    ensures items { map member_named members.new.items ≡ map member_named members.old.items ++ body_members body.now }
    ensures few { array_vec_len members.new ≤ 7 }
{
    if let Some(told) = told_of(body) {
        told.put(members);
    }
}

/// What a body tells.
fn told_of<'a>(body: &'a Body) -> Option<Told<'a>>
    ensures { unwrap_or (option_map (λ t. map member_named t.members.items) result) [] ≡ body_members body.now }
{
    match done_of(body) {
        Some(done) => Some(done),
        None => refusal_of(body),
    }
}

/// What is told of an operation that went well; none of a refusal.
fn done_of<'a>(body: &'a Body) -> Option<Told<'a>>
    ensures { MatchOption (option_map (λ t. map member_named t.members.items) result) (body_members body.now ≡ refusal_members body.now)
        (λ told. told ≡ body_members body.now) }
{
    match body {
        Body::Put { key: of, at } => Told::done(b"put", &[written(*at), key(MemberName::Key, of)]),
        Body::Delete { key: of, at } => Told::done(
            b"delete",
            &[written(*at), key(MemberName::Key, of)],
        ),
        Body::Get { entity, place } => Told::done(
            b"get",
            &[
                optional_entity(MemberName::Entity, entity),
                at_place(*place),
            ],
        ),
        Body::Query {
            select,
            results,
            seen,
            cursor,
        } => found(b"query", select, results, seen, cursor),
        Body::Gql {
            select,
            results,
            seen,
            cursor,
        } => found(b"gql", select, results, seen, cursor),
        Body::Begin => Told::done(b"begin", &[]),
        Body::Commit { commit } => Told::done(b"commit", &[number(MemberName::Commit, *commit)]),
        Body::Rollback => Told::done(b"rollback", &[]),
        Body::AllocateIds { first, count } => ids(*first, *count),
        Body::Settle { place, applied } => Told::done(
            b"settle",
            &[counts(MemberName::Applied, applied), at_place(*place)],
        ),
        Body::Apply {
            applied,
            count,
            place,
            shard,
        } => entry(*applied, *count, *place, *shard),
        _ => None,
    }
}

/// The ids that were issued.
fn ids<'a>(first: u64, count: u64) -> Option<Told<'a>>
    ensures { option_map (λ t. map member_named t.members.items) result ≡ Some (body_members (Body.AllocateIds first count)) }
{
    let count = number(MemberName::Count, count);
    let first = number(MemberName::First, first);
    Told::done(b"allocate_ids", &[count, first])
}

/// Whether an entry was applied.
fn entry<'a>(applied: bool, count: u64, place: u64, shard: u32) -> Option<Told<'a>>
    ensures { option_map (λ t. map member_named t.members.items) result ≡ Some (body_members (Body.Apply applied count place shard)) }
{
    let applied = Member {
        name: MemberName::Applied,
        shown: Shown::Flag(applied),
    };
    let count = number(MemberName::Count, count);
    let shard = number(MemberName::Shard, u64::from(shard));
    Told::done(b"apply", &[applied, count, at_place(place), shard])
}

/// The place that was looked at.
fn at_place<'a>(place: u64) -> Member<'a>
    ensures { member_named result ≡ counted (codes "place") place }
{
    number(MemberName::Place, place)
}

/// Where a write stands: the number of its commit, or the place at which its group was touched.
fn written<'a>(at: WriteAt) -> Member<'a>
    ensures { member_named result ≡ written_at at }
{
    match at {
        WriteAt::Commit(commit) => number(MemberName::Commit, commit),
        WriteAt::Place(place) => at_place(place),
    }
}

/// What a query found.
fn found<'a>(
    op: &'static [u8],
    select: &'a Select,
    items: &'a Results,
    seen: &'a Seen,
    cursor: &'a Option<TextString>,
) -> Option<Told<'a>>
    ensures { option_map (λ t. map member_named t.members.items) result
        ≡ Some (done op.now (found select.now items.now seen.now cursor.now)) }
{
    let found = results(MemberName::Results, select, items);
    match cursor {
        Some(cursor) => Told::done(
            op,
            &[
                seen_at(seen),
                found,
                text(MemberName::Cursor, cursor.bytes()),
            ],
        ),
        None => Told::done(op, &[seen_at(seen), found]),
    }
}

/// What a query saw: one count for each shard, or the place of its ancestor's view.
fn seen_at<'a>(seen: &'a Seen) -> Member<'a>
    ensures { member_named result ≡ seen_at seen.now }
{
    match seen {
        Seen::Counts(applied) => counts(MemberName::Applied, applied),
        Seen::Place(place) => at_place(*place),
    }
}
