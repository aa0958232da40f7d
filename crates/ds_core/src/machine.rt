//! The machine of events: one store, and for each client what it has seen and its open request.
ghost use Rattle.std.specs.Prelude.{◌≡◌, ◌≢◌, ◌≤◌, ◌<◌, [], true, None, Some, Option, get_or, is_some, length, slice_set};
ghost use Rattle.std.specs.Prelude.{IfOk, IfSome, OnOk, IsTrue};
ghost use Rattle.ds_base.specs.Limits.{greatest_client, most_shards};
ghost use Rattle.ds_effects.specs.declared.gathered.Step.{Step};
ghost use Rattle.ds_machine.specs.Effects.{IsAllowed};
ghost use Rattle.ds_machine.specs.Missing.{shown};
ghost use Rattle.ds_core.specs.Happenings.{moment_of};
ghost use Rattle.ds_core.specs.Machines.{IsDueNow, IsLawfulEvent, IsLawfulRequest, IsLegal, IsSameRun, IsToldAs, IsToldOpen};
ghost use Rattle.ds_core.specs.Machines.{IsWorkOf, closing, noted, open_in, parts, performed, session_in};
ghost use Rattle.ds_core.specs.Takings.{AreWaiting};
ghost use Rattle.ds_core.specs.Witnesses.{Advances, HappensAt, IsPast, OpensAt, TakesAt, course_of, stepped};

use crate::clients::{first_sessions, none_open};
use crate::event::{Event, Replies, Requests, Transcript};
use crate::holding::put;
use crate::opened::{Open, due_open, open_request, step_open, work_of};
use ds_base::NoMemory;
use ds_effects::{Due, Effect, Plan, Step};
use ds_indexdef::Defs;
use ds_machine::{State, Work, is_no_memory};
use ds_protocol::Session;
use ds_reply::{Body, Reply};
use ds_request::Request;
use std::alloc::{AllocError, Global};

/// One store, sixteen clients with their open requests, and what was asked and said so far.
#[derive(Drop)]
pub(crate) struct Machine {
    pub(crate) state: State,
    pub(crate) sessions: Vec<Session>,
    pub(crate) opens: Vec<Option<Open>>,
    pub(crate) requests: Requests,
    pub(crate) replies: Replies,
}

impl Machine {
    /// Nothing committed, nothing seen, nothing asked. A refusal means out of memory.
    pub(crate) fn make(alloc: Global, shards: u32, defs: Defs) -> Result<Machine, NoMemory>
        requires least { 1 ≤ shards }
        requires most { shards ≤ most_shards }
        ensures legal { IfOk result (λ m. IsLegal (parts m)) }
        ensures definitions { IfOk result (λ m. m.state.store.definitions ≡ defs) }
        ensures shards { IfOk result (λ m. m.state.store.shards ≡ shards) }
        ensures past { IfOk result (λ m. IsPast shards (course_of (parts m)) []) }
        ensures waiting { IfOk result (λ m. AreWaiting shards (moment_of (parts m))) }
    {
        let state = State::make(alloc, shards, defs)?;
        let sessions = first_sessions(alloc, shards)?;
        let opens = none_open(alloc)?;
        Ok(Machine {
            state,
            sessions,
            opens,
            requests: Requests::new(alloc),
            replies: Replies::new(alloc),
        })
    }

    /// Opens the event's request, if its client has none open, and takes its step.
    pub(crate) fn event(&mut self, alloc: Global, event: Event) -> Result<(), NoMemory>
        requires legal { IsLegal (parts self.old) }
        requires lawful { IsLawfulEvent self.old.state.store.shards event }
        ensures legal { OnOk result (IsLegal (parts self.new)) }
        ensures same { OnOk result (IsSameRun (parts self.old) (parts self.new)) }
        ensures happens { OnOk result (HappensAt self.old.state.store.shards event.step event.client event.begins
            (course_of (parts self.old)) (course_of (parts self.new))) }
    {
        let Event {
            step,
            client,
            begins,
        } = event;
        self.begin_if(alloc, client, begins)?;
        self.take(alloc, client, step)
    }

    /// Opens the request, if there is one.
    fn begin_if(
        &mut self,
        alloc: Global,
        client: u32,
        begins: Option<Request>,
    ) -> Result<(), NoMemory>
        requires legal { IsLegal (parts self.old) }
        requires client { client ≤ greatest_client }
        requires lawful { IfSome begins (IsLawfulRequest self.old.state.store.shards client) }
        ensures legal { OnOk result (IsLegal (parts self.new)) }
        ensures same { OnOk result (IsSameRun (parts self.old) (parts self.new)) }
        ensures opens { OnOk result (OpensAt self.old.state.store.shards client begins (course_of (parts self.old))
            (course_of (parts self.new))) }
    {
        match begins {
            Some(request) => self.begin(alloc, client, request),
            None => Ok(()),
        }
    }

    /// Opens a request, if its client has none open, and replies where it needs no step.
    fn begin(&mut self, alloc: Global, client: u32, request: Request) -> Result<(), NoMemory>
        requires legal { IsLegal (parts self.old) }
        requires client { client ≤ greatest_client }
        requires lawful { IsLawfulRequest self.old.state.store.shards client request }
        ensures legal { OnOk result (IsLegal (parts self.new)) }
        ensures same { OnOk result (IsSameRun (parts self.old) (parts self.new)) }
        ensures opens { OnOk result (OpensAt self.old.state.store.shards client (Some request) (course_of (parts self.old))
            (course_of (parts self.new))) }
    {
        if self.has_open(client) {
            drop(request);
            return Ok(());
        }
        match work_of(alloc, &self.state, &self.sessions, client, &request.call) {
            Ok(work) => self.open(alloc, client, request, work),
            Err(plan) => self.tell(alloc, client, request, plan),
        }
    }

    /// Opens a request that nothing refuses, and replies where it needs no step.
    fn open(
        &mut self,
        alloc: Global,
        client: u32,
        request: Request,
        work: Work,
    ) -> Result<(), NoMemory>
        requires legal { IsLegal (parts self.old) }
        requires client { client ≤ greatest_client }
        requires lawful { IsLawfulRequest self.old.state.store.shards client request }
        requires closed { open_in (parts self.old) client ≡ None }
        requires work { IsWorkOf self.old.state (session_in (parts self.old) client) request.call work }
        ensures legal { OnOk result (IsLegal (parts self.new)) }
        ensures same { OnOk result (IsSameRun (parts self.old) (parts self.new)) }
        ensures opens { OnOk result (OpensAt self.old.state.store.shards client (Some request) (course_of (parts self.old))
            (course_of (parts self.new))) }
    {
        let shards = self.state.shards();
        open_request(
            alloc,
            &mut self.opens[client as usize],
            request,
            work,
            shards,
        )?;
        self.advance(alloc, client, Step::Touch)
    }

    /// Takes a step of a client, and replies where nothing is missing then.
    pub(crate) fn take(&mut self, alloc: Global, client: u32, step: Step) -> Result<(), NoMemory>
        requires legal { IsLegal (parts self.old) }
        requires client { client ≤ greatest_client }
        ensures legal { OnOk result (IsLegal (parts self.new)) }
        ensures same { OnOk result (IsSameRun (parts self.old) (parts self.new)) }
        ensures takes { OnOk result (TakesAt self.old.state.store.shards step client (course_of (parts self.old))
            (course_of (parts self.new))) }
    {
        self.gather(alloc, client, step)?;
        self.advance(alloc, client, step)
    }

    /// The step, and what the client's open request gathers by it where it calls for it. A shard that isn't there has no steps.
    fn gather(&mut self, alloc: Global, client: u32, step: Step) -> Result<(), NoMemory>
        requires legal { IsLegal (parts self.old) }
        requires client { client ≤ greatest_client }
        ensures legal { OnOk result (IsLegal (parts self.new)) }
        ensures same { OnOk result (IsSameRun (parts self.old) (parts self.new)) }
        ensures counted { length self.old.state.applied.counts ≡ self.old.state.store.shards }
        ensures stepped { OnOk result (course_of (parts self.new)
            ≡ stepped self.old.state.store.shards step client (course_of (parts self.old))) }
    {
        // for the proof alone: it tells that there is a count for each shard
        let _shards = self.state.shards();
        step_open(
            alloc,
            &mut self.state,
            &mut self.opens[client as usize],
            step,
        )
    }

    /// Whether the client has a request open.
    fn has_open(&self, client: u32) -> bool
        requires client { client < length self.now.opens.items }
        ensures { result ≡ is_some (open_in (parts self.now) client) }
    {
        self.opens[client as usize].is_some()
    }

    /// Replies to the client's open request, where nothing is missing.
    fn advance(&mut self, alloc: Global, client: u32, step: Step) -> Result<(), NoMemory>
        requires legal { IsLegal (parts self.old) }
        requires client { client ≤ greatest_client }
        ensures legal { OnOk result (IsLegal (parts self.new)) }
        ensures same { OnOk result (IsSameRun (parts self.old) (parts self.new)) }
        ensures advances { OnOk result (Advances self.old.state.store.shards step client (course_of (parts self.old))
            (course_of (parts self.new))) }
    {
        match self.due(alloc, client, step) {
            Some(Due::Reply(plan)) => self.tell_open(alloc, client, plan),
            Some(Due::Waits(_next)) => Ok(()),
            None => Ok(()),
        }
    }

    /// What the client's open request, if it has one, comes to at a step.
    pub(crate) fn due(&mut self, alloc: Global, client: u32, step: Step) -> Option<Due>
        requires legal { IsLegal (parts self.old) }
        requires client { client ≤ greatest_client }
        ensures legal { IsLegal (parts self.new) }
        ensures same { IsSameRun (parts self.old) (parts self.new) }
        ensures still { course_of (parts self.new) ≡ course_of (parts self.old) }
        ensures shown { shown self.new.state ≡ shown self.old.state }
        ensures due { IsDueNow self.new.state (session_in (parts self.new) client) client step (open_in (parts self.new) client) result }
        ensures was { IsDueNow self.new.state (session_in (parts self.old) client) client step (open_in (parts self.old) client) result }
    {
        due_open(
            alloc,
            &mut self.state,
            &self.sessions,
            &self.opens,
            client,
            step,
        )
    }

    /// Says what is planned to the client's open request, which is closed.
    fn tell_open(&mut self, alloc: Global, client: u32, plan: Plan) -> Result<(), NoMemory>
        requires clients { client < length self.old.sessions.items }
        requires places { client < length self.old.opens.items }
        requires many { length self.old.requests ≡ length self.old.replies }
        requires asked { is_some (open_in (parts self.old) client) ≡ true }
        requires allowed { plan.body ≢ Body.NoMemory → IsAllowed plan.effect self.old.state (session_in (parts self.old) client) }
        ensures { OnOk result (IsToldOpen client plan.body plan.effect (parts self.old) (parts self.new)) }
    {
        match self.close(client) {
            Some(open) => self.tell(alloc, client, open.request, plan),
            None => {
                drop(plan);
                Ok(())
            }
        }
    }

    /// Closes the client's open request, if there is one.
    fn close(&mut self, client: u32) -> Option<Open>
        requires { client < length self.old.opens.items }
        ensures was { result ≡ open_in (parts self.old) client }
        ensures closed { parts self.new ≡ closing client (parts self.old) }
    {
        self.opens[client as usize].take()
    }

    /// Says what is planned, and makes it so.
    fn tell(
        &mut self,
        alloc: Global,
        client: u32,
        request: Request,
        plan: Plan,
    ) -> Result<(), NoMemory>
        requires clients { client < length self.old.sessions.items }
        requires many { length self.old.requests ≡ length self.old.replies }
        requires allowed { plan.body ≢ Body.NoMemory → IsAllowed plan.effect self.old.state (session_in (parts self.old) client) }
        ensures { OnOk result (IsToldAs client request plan.body plan.effect (parts self.old) (parts self.new)) }
    {
        if is_no_memory(&plan.body) {
            drop(plan);
            drop(request);
            return Err(AllocError);
        }
        let Plan { body, effect } = plan;
        match self.perform(alloc, client, effect) {
            Ok(()) => self.note(client, request, body),
            Err(refused) => {
                drop(body);
                drop(request);
                Err(refused)
            }
        }
    }

    /// Takes effect. A refusal means out of memory.
    fn perform(&mut self, alloc: Global, client: u32, effect: Effect) -> Result<(), NoMemory>
        requires client { client < length self.old.sessions.items }
        requires allowed { IsAllowed effect self.old.state (session_in (parts self.old) client) }
        ensures { OnOk result (parts self.new ≡ performed effect client (parts self.old)) }
    {
        let session = &mut self.sessions[client as usize];
        self.state.take(alloc, session, effect)
    }

    /// Puts a request and its reply behind the others.
    fn note(&mut self, client: u32, request: Request, body: Body) -> Result<(), NoMemory>
        requires many { length self.old.requests ≡ length self.old.replies }
        ensures { OnOk result (parts self.new ≡ noted client request body (parts self.old)) }
    {
        match put(&mut self.requests, request) {
            Ok(()) => {
                // one more than the replies before it
                let line = self.requests.len() as u64;
                put(&mut self.replies, Reply { client, line, body })
            }
            Err(refused) => {
                drop(body);
                Err(refused)
            }
        }
    }

    /// What was asked, said and committed.
    pub(crate) fn end(self) -> Transcript
        ensures requests { result.requests ≡ self.requests }
        ensures replies { result.replies ≡ self.replies }
        ensures journal { result.journal ≡ self.state.store.journal }
    {
        let Machine {
            state,
            requests,
            replies,
            ..
        } = self;
        Transcript {
            requests,
            replies,
            journal: state.end(),
        }
    }
}
