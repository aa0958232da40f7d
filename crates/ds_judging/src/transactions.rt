//! Replies to begin, commit and rollback.
ghost use Rattle.std.specs.Prelude.{◌≡◌, ◌<◌, ◌≤◌, ◌-◌, ◌↔◌, All, length, slice_get, take, None, Some, IfOk, IsTrue};
ghost use Rattle.std.specs.Option.{option_map};
ghost use Rattle.ds_base.specs.Limits.{most_groups, most_writes};
ghost use Rattle.ds_history.specs.Writers.{nth_commit};
ghost use Rattle.ds_journal_text.specs.Lawful.{IsLawfulCommit};
ghost use Rattle.ds_log.specs.Conflicts.{IsCommitted};
ghost use Rattle.ds_request.specs.declared.call.Call.{Call};
ghost use Rattle.ds_model.specs.Answers.{CallAnswers};
ghost use Rattle.ds_model.specs.Groups.{with_transaction};
ghost use Rattle.ds_model.specs.Refusals.{refusal_of};
ghost use Rattle.ds_model.specs.Sessions.{saw_place};
ghost use Rattle.ds_judging_writes.specs.Committing.{IsCommit, IsConflict, IsDraft, IsDraftOf};
ghost use Rattle.ds_judging_lines.specs.Deciding.{DecidesTurn, IsSession, SaysThen, world_in};

use ds_base::{NoMemory, TryCopy};
use ds_journal_text::commit_is_lawful;
use ds_judging_lines::{Turn, seen_place, tells_error};
use ds_judging_writes::is_commit;
use ds_log::{Commit, Conflict, Touch};
use ds_protocol::Session;
use ds_reply::Body;
use std::alloc::Global;

/// The error of a reply that the commit conflicts.
const CONFLICT: u64 = 13;

/// The body, where it is an answer to a begin.
pub(crate) fn judge_begin(
    turn: &Turn<'_>,
    session: &mut Session,
    several_groups: bool,
) -> Result<Option<Body>, NoMemory>
    requires session { IsSession turn.now session.old }
    requires unrefused { refusal_of turn.now.run.now.defs.now session.old (Call.Begin several_groups) ≡ None }
    ensures decided { IfOk result (λ found. DecidesTurn turn.now
        (λ said after. CallAnswers (world_in turn.now) turn.now.client session.old (Call.Begin several_groups) said after) found
        session.new) }
    ensures kept { IfOk result (λ found. IsSession turn.now session.new) }
{
    let Some(said) = turn.said(Body::Begin)? else {
        return Ok(None);
    };
    session.begin(turn.alloc, several_groups);
    Ok(Some(said))
}

/// The body, where it is an answer to a rollback.
pub(crate) fn judge_rollback(
    turn: &Turn<'_>,
    session: &mut Session,
) -> Result<Option<Body>, NoMemory>
    requires session { IsSession turn.now session.old }
    requires unrefused { refusal_of turn.now.run.now.defs.now session.old (Call.Rollback) ≡ None }
    ensures decided { IfOk result (λ found. DecidesTurn turn.now
        (λ said after. CallAnswers (world_in turn.now) turn.now.client session.old Call.Rollback said after) found
        session.new) }
    ensures kept { IfOk result (λ found. IsSession turn.now session.new) }
{
    let Some(said) = turn.said(Body::Rollback)? else {
        return Ok(None);
    };
    session.end();
    Ok(Some(said))
}

/// The body, where it is an answer to a commit: its number, or the conflict.
pub(crate) fn judge_commit(turn: &Turn<'_>, session: &mut Session) -> Result<Option<Body>, NoMemory>
    requires session { IsSession turn.now session.old }
    requires unrefused { refusal_of turn.now.run.now.defs.now session.old (Call.Commit) ≡ None }
    ensures decided { IfOk result (λ found. DecidesTurn turn.now
        (λ said after. CallAnswers (world_in turn.now) turn.now.client session.old Call.Commit said after) found
        session.new) }
    ensures kept { IfOk result (λ found. IsSession turn.now session.new) }
{
    let Some(draft) = draft_of(turn, session)? else {
        return Ok(None);
    };
    commit_is_lawful(&draft);
    if tells_error(turn, CONFLICT) {
        judge_conflict(turn, session, &draft)
    } else {
        judge_committed(turn, session, &draft)
    }
}

/// What the client's transaction commits; none outside a transaction. A refusal means out of memory.
fn draft_of(turn: &Turn<'_>, session: &Session) -> Result<Option<Commit>, NoMemory>
    ensures { IfOk result (λ draft. IsDraft turn.now.client session.now.transaction draft) }
{
    let Some(txn) = session.transaction() else {
        return Ok(None);
    };
    let parts = txn.parts(turn.alloc)?;
    Ok(Some(Commit {
        client: turn.client,
        touched: parts.touched,
        writes: parts.writes,
    }))
}

/// The body, where the reply says it; then the transaction has ended, and this place was shown.
fn say_ended(
    turn: &Turn<'_>,
    session: &mut Session,
    body: Body,
    place: u64,
) -> Result<Option<Body>, NoMemory>
    requires session { IsSession turn.now session.old }
    ensures said { IfOk result (λ found. SaysThen turn.now body
        (saw_place place (with_transaction None session.old)) found session.new) }
    ensures kept { IfOk result (λ found. IsSession turn.now session.new) }
{
    let Some(said) = turn.said(body)? else {
        return Ok(None);
    };
    session.end_at(place);
    Ok(Some(said))
}

// ---- a commit

/// A reply that tells the number of the commit.
fn judge_committed(
    turn: &Turn<'_>,
    session: &mut Session,
    draft: &Commit,
) -> Result<Option<Body>, NoMemory>
    requires session { IsSession turn.now session.old }
    requires draft { IsDraftOf turn.now.client session.old.transaction draft.now }
    requires few { length draft.now.writes ≤ most_writes }
    requires groups { length draft.now.touched ≤ most_groups }
    ensures decided { IfOk result (λ found. DecidesTurn turn.now
        (λ said after. IsCommit (world_in turn.now) turn.now.client session.old session.old.transaction said after)
        found session.new) }
    ensures kept { IfOk result (λ found. IsSession turn.now session.new) }
{
    let Some(number) = turn.told.number("commit") else {
        return Ok(None);
    };
    if number <= seen_place(session) {
        return Ok(None);
    }
    let same = is_commit(turn, number, draft)?;
    if !same {
        return Ok(None);
    }
    if !is_serial(turn, number, draft) {
        return Ok(None);
    }
    say_ended(turn, session, Body::Commit { commit: number }, number)
}

/// Whether each touch place is below the commit's number, and no commit before it wrote one of its groups after the group's touch place.
fn is_serial(turn: &Turn<'_>, number: u64, draft: &Commit) -> bool
    requires there { nth_commit turn.now.run.now.history.journal number ≡ Some draft.now }
    requires few { length draft.now.writes ≤ most_writes }
    requires groups { length draft.now.touched ≤ most_groups }
    ensures { IsTrue result ↔ IsCommitted (take (number - 1) turn.now.run.now.history.journal) draft.now }
{
    let touched = draft.touched.as_slice();
    if !are_below(touched, number) {
        return false;
    }
    turn.run.history.conflict(touched, number - 1).is_none()
}

/// Whether each touch place is below the number of a commit.
fn are_below(touched: &[Touch], number: u64) -> bool
    requires { 1 ≤ number }
    ensures { IsTrue result ↔ All (λ t. t.place ≤ number - 1) touched.now }
{
    touched.iter().all(|touch| touch.place < number)
}

// ---- a conflict

/// A reply that tells a conflict: the first touched group that a commit wrote after its touch place, as the journal stood at the told
/// place.
fn judge_conflict(
    turn: &Turn<'_>,
    session: &mut Session,
    draft: &Commit,
) -> Result<Option<Body>, NoMemory>
    requires session { IsSession turn.now session.old }
    requires draft { IsDraftOf turn.now.client session.old.transaction draft.now }
    requires lawful { IsLawfulCommit draft.now }
    requires groups { length draft.now.touched ≤ most_groups }
    ensures decided { IfOk result (λ found. DecidesTurn turn.now
        (λ said after. IsConflict (world_in turn.now) session.old session.old.transaction said after) found
        session.new) }
    ensures kept { IfOk result (λ found. IsSession turn.now session.new) }
{
    let Some(place) = turn.place(session) else {
        return Ok(None);
    };
    let touched = draft.touched.as_slice();
    let Some(conflict) = turn.run.history.conflict(touched, place) else {
        return Ok(None);
    };
    let Some(body) = conflict_body(turn.alloc, touched, conflict)? else {
        return Ok(None);
    };
    say_ended(turn, session, body, place)
}

/// What the reply to a conflict says; none where no such group was touched. A refusal means out of memory.
fn conflict_body(
    alloc: Global,
    touched: &[Touch],
    conflict: Conflict,
) -> Result<Option<Body>, NoMemory>
    ensures { IfOk result (λ body. body ≡ option_map (λ touch. Body.Conflict conflict.commit touch.group conflict.place)
        (slice_get touched.now conflict.group)) }
{
    match touched.get(conflict.group as usize) {
        Some(touch) => Ok(Some(Body::Conflict {
            commit: conflict.commit,
            group: touch.group.copy(alloc)?,
            place: conflict.place,
        })),
        None => Ok(None),
    }
}
