//! Whether a reply is an answer to its line, and what its client has seen behind it.
ghost use Rattle.std.specs.Prelude.{◌≡◌, None, IfOk, IsTrue};
ghost use Rattle.ds_asked.specs.AskedLines.{IsLawful, MayBeAnswered, read_as, was_read};
ghost use Rattle.ds_request.specs.Lawful.{IsLawfulCall};
ghost use Rattle.ds_model.specs.Answers.{AskedAnswers, BodyAnswers, RequestAnswers};
ghost use Rattle.ds_model.specs.Asked.{has_shard, search_of};
ghost use Rattle.ds_model.specs.Refusals.{refusal_of};
ghost use Rattle.ds_protocol.specs.Operations.{IsLawfulOperation, call_of};
ghost use Rattle.ds_judging_lines.specs.Deciding.{Decides, DecidesTurn, IsHeld, IsSession, IsSessionIn, world_in, world_run};
ghost use Rattle.ds_judging.specs.Judging.{IsOperated};

use crate::transactions::{judge_begin, judge_commit, judge_rollback};
use ds_asked::Asked;
use ds_base::NoMemory;
use ds_judging_lines::{Run, Turn, judge_apply, judge_settle};
use ds_judging_reads::{judge_get, judge_search};
use ds_judging_writes::{judge_allocate, judge_delete, judge_put};
use ds_protocol::{Operation, Session, operation_of, refusal_of};
use ds_reply::Body;
use ds_reply_lines::Members;
use ds_request::Request;
use std::alloc::Global;

/// The body of the reply, where it is an answer; then the session is the one behind it.
pub fn judge(
    alloc: Global,
    run: &Run<'_>,
    session: &mut Session,
    asked: Asked,
    line: &[u8],
) -> Result<Option<Body>, NoMemory>
    requires held { IsHeld run.now.history.shards run.now.history.journal }
    requires session { IsSessionIn run.now.history.shards session.old }
    requires answerable { MayBeAnswered run.now.history.shards asked }
    ensures decided { IfOk result (λ found. Decides
        (λ said after. BodyAnswers (world_run run.now) session.old (was_read asked) said after)
        asked.client asked.number line.now found session.new) }
    ensures kept { IfOk result (λ found. IsSessionIn run.now.history.shards session.new) }
{
    let told = Members::of(alloc, line)?;
    let Asked {
        client,
        number,
        request,
    } = asked;
    let turn = Turn {
        alloc,
        run,
        client,
        number,
        line,
        told,
    };
    judge_turn(&turn, session, request)
}

/// The body, where the reply says that there was no memory, or is an answer to what was read from the line.
fn judge_turn(
    turn: &Turn<'_>,
    session: &mut Session,
    request: Result<Request, Body>,
) -> Result<Option<Body>, NoMemory>
    requires session { IsSession turn.now session.old }
    requires lawful { IsLawful turn.now.run.now.history.shards turn.now.client request }
    ensures decided { IfOk result (λ found. DecidesTurn turn.now
        (λ said after. BodyAnswers (world_in turn.now) session.old (read_as turn.now.client request) said after) found
        session.new) }
    ensures kept { IfOk result (λ found. IsSession turn.now session.new) }
{
    match turn.said(Body::NoMemory)? {
        Some(said) => Ok(Some(said)),
        None => judge_read(turn, session, request),
    }
}

/// The body, where it is an answer to what was read from a line.
fn judge_read(
    turn: &Turn<'_>,
    session: &mut Session,
    request: Result<Request, Body>,
) -> Result<Option<Body>, NoMemory>
    requires session { IsSession turn.now session.old }
    requires lawful { IsLawful turn.now.run.now.history.shards turn.now.client request }
    ensures decided { IfOk result (λ found. DecidesTurn turn.now
        (λ said after. AskedAnswers (world_in turn.now) session.old (read_as turn.now.client request) said after) found
        session.new) }
    ensures kept { IfOk result (λ found. IsSession turn.now session.new) }
{
    match request {
        Ok(request) => judge_request(turn, session, request),
        Err(body) => turn.said(body),
    }
}

/// The body, where it is an answer to a request.
fn judge_request(
    turn: &Turn<'_>,
    session: &mut Session,
    request: Request,
) -> Result<Option<Body>, NoMemory>
    requires session { IsSession turn.now session.old }
    requires lawful { IsLawfulCall request.call }
    requires shard { IsTrue (has_shard turn.now.run.now.history.shards request.call) }
    ensures decided { IfOk result (λ found. DecidesTurn turn.now
        (λ said after. RequestAnswers (world_in turn.now) turn.now.client session.old request.call
        (search_of request.call) said after) found session.new) }
    ensures kept { IfOk result (λ found. IsSession turn.now session.new) }
{
    match operation_of(turn.alloc, request.call) {
        Ok(operation) => judge_operation(turn, session, operation),
        Err(refused) => turn.say_refusal(refused.body()),
    }
}

/// The body, where it is an answer to an operation.
fn judge_operation(
    turn: &Turn<'_>,
    session: &mut Session,
    operation: Operation,
) -> Result<Option<Body>, NoMemory>
    requires session { IsSession turn.now session.old }
    requires lawful { IsLawfulOperation operation }
    requires shard { IsTrue (has_shard turn.now.run.now.history.shards (call_of operation)) }
    ensures decided { IfOk result (λ found. DecidesTurn turn.now
        (λ said after. IsOperated (world_in turn.now) turn.now.client session.old operation said after) found
        session.new) }
    ensures kept { IfOk result (λ found. IsSession turn.now session.new) }
{
    match refusal_of(turn.alloc, turn.run.defs, session.open(), &operation) {
        Some(body) => turn.say_refusal(body),
        None => judge_unrefused(turn, session, operation),
    }
}

/// The body, where it is an answer to an operation that nothing before refuses.
fn judge_unrefused(
    turn: &Turn<'_>,
    session: &mut Session,
    operation: Operation,
) -> Result<Option<Body>, NoMemory>
    requires session { IsSession turn.now session.old }
    requires lawful { IsLawfulOperation operation }
    requires shard { IsTrue (has_shard turn.now.run.now.history.shards (call_of operation)) }
    requires unrefused { refusal_of turn.now.run.now.defs.now session.old (call_of operation) ≡ None }
    ensures decided { IfOk result (λ found. DecidesTurn turn.now
        (λ said after. IsOperated (world_in turn.now) turn.now.client session.old operation said after) found
        session.new) }
    ensures kept { IfOk result (λ found. IsSession turn.now session.new) }
{
    match operation {
        Operation::Put { entity, incomplete } => judge_put(turn, session, entity, incomplete),
        Operation::Delete { key } => judge_delete(turn, session, key),
        Operation::Get { key } => judge_get(turn, session, key),
        Operation::Find(search) => judge_search(turn, session, search),
        Operation::Begin { several_groups } => judge_begin(turn, session, several_groups),
        Operation::Commit => judge_commit(turn, session),
        Operation::Rollback => judge_rollback(turn, session),
        Operation::Settle => judge_settle(turn, session),
        Operation::AllocateIds { count } => judge_allocate(turn, session, count),
        Operation::Apply { shard } => judge_apply(turn, session, shard as u32),
    }
}
