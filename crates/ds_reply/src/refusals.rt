//! The one table of refusals: the number, the name, and what is told beside them.
ghost use Rattle.std.specs.Prelude.{◌≡◌, [], Some, codes, map, option_map, unwrap_or};
ghost use Rattle.ds_reply.specs.Refusals.{refusal_members, at_field, counted};
ghost use Rattle.ds_reply.specs.Shown.{member_named};

use crate::member::{Member, Shown, key, number, optional_key, text};
use crate::member_name::MemberName;
use crate::names::reason_name;
use crate::reply::Body;
use crate::told::Told;
use ds_base::Key;
use ds_indexdef::IndexDef;
use ds_query::{Constraint, Field};

/// What a refusal tells; none where all went well.
pub(crate) fn refusal_of<'a>(body: &'a Body) -> Option<Told<'a>>
    ensures { unwrap_or (option_map (λ t. map member_named t.members.items) result) [] ≡ refusal_members body.now }
{
    match body {
        Body::BadJson => Told::refused(1, b"BadJson", &[]),
        Body::LineTooLong => Told::refused(2, b"LineTooLong", &[]),
        Body::BadRequest { field } => Told::refused(3, b"BadRequest", &[at_field(*field)]),
        Body::BadKey { field } => Told::refused(4, b"BadKey", &[at_field(*field)]),
        Body::BadValue { field } => Told::refused(5, b"BadValue", &[at_field(*field)]),
        Body::TooLarge { size } => Told::refused(
            6,
            b"TooLarge",
            &[number(MemberName::Size, *size)],
        ),
        Body::TooManyRows { count } => Told::refused(7, b"TooManyRows", &[counted(*count)]),
        Body::InTransaction => Told::refused(8, b"InTransaction", &[]),
        Body::NoTransaction => Told::refused(9, b"NoTransaction", &[]),
        Body::SecondGroup { group } => Told::refused(
            10,
            b"SecondGroup",
            &[optional_key(MemberName::Group, group)],
        ),
        Body::TooManyGroups => Told::refused(11, b"TooManyGroups", &[]),
        Body::TooManyWrites => Told::refused(12, b"TooManyWrites", &[]),
        Body::Conflict {
            commit,
            group,
            place,
        } => conflict(*commit, group, *place),
        Body::NeedAncestor => Told::refused(14, b"NeedAncestor", &[]),
        Body::BadQuery { reason } => Told::refused(
            15,
            b"BadQuery",
            &[text(MemberName::Reason, reason_name(*reason))],
        ),
        Body::TooManySubqueries { count } => Told::refused(
            16,
            b"TooManySubqueries",
            &[counted(*count)],
        ),
        Body::MissingIndex {
            constraint,
            suggestion,
        } => missing_index(constraint, suggestion),
        Body::BadCursor { field } => Told::refused(18, b"BadCursor", &[at_field(*field)]),
        Body::CursorMismatch { field } => Told::refused(19, b"CursorMismatch", &[at_field(*field)]),
        Body::BadGql { at } => Told::refused(20, b"BadGql", &[number(MemberName::At, *at)]),
        Body::IdNotIssued { id, next } => Told::refused(
            21,
            b"IdNotIssued",
            &[number(MemberName::Id, *id), next_id(*next)],
        ),
        Body::IdsExhausted { next } => Told::refused(22, b"IdsExhausted", &[next_id(*next)]),
        Body::Expired {
            applied,
            place,
            snapshot,
        } => expired(*applied, *place, *snapshot),
        Body::NoMemory => Told::refused(24, b"NoMemory", &[]),
        _ => None,
    }
}

fn conflict<'a>(commit: u64, group: &'a Key, place: u64) -> Option<Told<'a>>
    ensures { option_map (λ t. map member_named t.members.items) result ≡ Some (refusal_members (Body.Conflict commit group.now place)) }
{
    let commit = number(MemberName::Commit, commit);
    let group = key(MemberName::Group, group);
    let place = number(MemberName::Place, place);
    Told::refused(13, b"Conflict", &[commit, group, place])
}

fn missing_index<'a>(constraint: &'a Constraint, suggestion: &'a IndexDef) -> Option<Told<'a>>
    ensures { option_map (λ t. map member_named t.members.items) result
        ≡ Some (refusal_members (Body.MissingIndex constraint.now suggestion.now)) }
{
    let constraint = Member {
        name: MemberName::Constraint,
        shown: Shown::Constraint(constraint),
    };
    let suggestion = Member {
        name: MemberName::Suggestion,
        shown: Shown::Index(suggestion),
    };
    Told::refused(17, b"MissingIndex", &[constraint, suggestion])
}

fn expired<'a>(applied: u64, place: u64, snapshot: u64) -> Option<Told<'a>>
    ensures { option_map (λ t. map member_named t.members.items) result ≡ Some (refusal_members (Body.Expired applied place snapshot)) }
{
    let applied = number(MemberName::Applied, applied);
    let place = number(MemberName::Place, place);
    let snapshot = number(MemberName::Snapshot, snapshot);
    Told::refused(23, b"Expired", &[applied, place, snapshot])
}

/// The member of the request that is refused.
fn at_field<'a>(field: Field) -> Member<'a>
    ensures { member_named result ≡ at_field field }
{
    text(MemberName::Field, field.name().as_bytes())
}

/// How many there are.
fn counted<'a>(count: u64) -> Member<'a>
    ensures { member_named result ≡ counted (codes "count") count }
{
    number(MemberName::Count, count)
}

/// The next id that would be issued.
fn next_id<'a>(next: u64) -> Member<'a>
    ensures { member_named result ≡ counted (codes "next") next }
{
    number(MemberName::Next, next)
}
