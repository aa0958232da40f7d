//! The open request of a client.
ghost use Rattle.std.specs.Prelude.{◌≡◌, ◌<◌, [], None, Some, IfErr, IfOk, IfSome, IsTrue, OnOk, get_or, length};
ghost use Rattle.std.specs.Option.{option_map};
ghost use Rattle.ds_request.specs.Lawful.{IsLawfulCall};
ghost use Rattle.ds_model.specs.Asked.{has_shard};
ghost use Rattle.ds_model.specs.Sessions.{first_session};
ghost use Rattle.ds_machine.specs.Due.{IsDuePlan};
ghost use Rattle.ds_machine.specs.States.{AreUpTo, IsSession};
ghost use Rattle.ds_machine.specs.Told.{ToldAlways};
ghost use Rattle.ds_core.specs.Machines.{IsDueNow, IsOpen, IsWorkOf, just_opened};
ghost use Rattle.ds_core.specs.Steps.{IsSteppable};
ghost use Rattle.ds_core.specs.Witnesses.{SteppedTo};

use crate::holding::set;
use ds_base::{NoMemory, TryCopy};
use ds_effects::{Due, Gathered, Plan, Step};
use ds_machine::{State, Work};
use ds_protocol::Session;
use ds_request::{Call, Request};
use std::alloc::Global;

/// A request that waits for steps of its client: what it asks, taken apart once, and what it has gathered.
#[derive(Drop)]
pub(crate) struct Open {
    pub(crate) request: Request,
    pub(crate) work: Work,
    pub(crate) gathered: Gathered,
}

/// What a client's call asks, or the plan of its refusal. The call stays, for the transcript.
pub(crate) fn work_of(
    alloc: Global,
    state: &State,
    sessions: &Vec<Session>,
    client: u32,
    call: &Call,
) -> Result<Work, Plan>
    requires lawful { IsLawfulCall call.now }
    requires shard { IsTrue (has_shard state.now.store.shards call.now) }
    requires client { client < length sessions.now.items }
    requires seen { IsSession state.now (get_or sessions.now.items client (first_session 0)) }
    ensures work { IfOk result (IsWorkOf state.now (get_or sessions.now.items client (first_session 0)) call.now) }
    ensures refused { IfErr result (λ p. IsDuePlan state.now (get_or sessions.now.items client (first_session 0)) client call.now []
        p.body p.effect) }
    ensures told { IfErr result (λ p. ToldAlways state.now (get_or sessions.now.items client (first_session 0)) p.body p.effect) }
{
    match call.copy(alloc) {
        Ok(call) => state.open(alloc, session_at(sessions, client), client, call),
        Err(_) => Err(Plan::no_memory()),
    }
}

/// What a client has seen.
fn session_at(sessions: &Vec<Session>, client: u32) -> &Session
    requires { client < length sessions.now.items }
    ensures { result.now ≡ get_or sessions.now.items client (first_session 0) }
{
    &sessions[client as usize]
}

/// Opens a request that has gathered nothing. A refusal means out of memory.
pub(crate) fn open_request(
    alloc: Global,
    opened: &mut Option<Open>,
    request: Request,
    work: Work,
    shards: u32,
) -> Result<(), NoMemory>
    ensures { OnOk result (opened.new ≡ Some (just_opened request work shards)) }
{
    match Gathered::nothing(alloc, shards) {
        Ok(gathered) => {
            set(
                opened,
                Some(Open {
                    request,
                    work,
                    gathered,
                }),
            );
            Ok(())
        }
        Err(refused) => {
            drop(request);
            drop(work);
            Err(refused)
        }
    }
}

/// What a client's open request, if it has one, comes to at a step.
pub(crate) fn due_open(
    alloc: Global,
    state: &mut State,
    sessions: &Vec<Session>,
    opens: &Vec<Option<Open>>,
    client: u32,
    taken: Step,
) -> Option<Due>
    requires clients { client < length sessions.now.items }
    requires places { client < length opens.now.items }
    requires seen { IsSession state.old (get_or sessions.now.items client (first_session 0)) }
    requires lawful { IsOpen state.old client (get_or sessions.now.items client (first_session 0)) (get_or opens.now.items client None) }
    ensures due { IsDueNow state.new (get_or sessions.now.items client (first_session 0)) client taken
        (get_or opens.now.items client None) result }
    ensures store { state.new.store ≡ state.old.store }
    ensures counts { state.new.applied.counts ≡ state.old.applied.counts }
{
    // for the proof alone: it tells that there is a count for each shard
    let _shards = state.shards();
    match open_at(opens, client) {
        Some(open) => Some(state.due(
            alloc,
            session_at(sessions, client),
            client,
            &open.work,
            &open.gathered,
            taken,
        )),
        None => None,
    }
}

/// A client's open request, if it has one.
fn open_at(opens: &Vec<Option<Open>>, client: u32) -> Option<&Open>
    requires { client < length opens.now.items }
    ensures { option_map (λ o. o.now) result ≡ get_or opens.now.items client None }
{
    opens[client as usize].as_ref()
}

/// A step by which an open request, if there is one, gathers something.
pub(crate) fn step_open(
    alloc: Global,
    state: &mut State,
    opened: &mut Option<Open>,
    step: Step,
) -> Result<(), NoMemory>
    requires { IfSome opened.old (λ o. IsSteppable state.old o.gathered) }
    ensures stepped { OnOk result (SteppedTo step state.old opened.old state.new opened.new) }
    ensures grows { AreUpTo state.old.applied.counts state.new.applied.counts }
{
    match opened {
        Some(opened) => state.step(alloc, &opened.work.operation, &mut opened.gathered, step),
        None => state.step_alone(alloc, step),
    }
}
