//! The missing steps of the requests that are open after the last event.
ghost use Rattle.std.specs.Prelude.{◌≡◌, ◌≤◌, None, length, slice_set, IfOk, OnOk};
ghost use Rattle.ds_base.specs.Limits.{greatest_client};
ghost use Rattle.ds_effects.specs.declared.gathered.Step.{Step};
ghost use Rattle.ds_core.specs.Happenings.{moment_of, none_open};
ghost use Rattle.ds_core.specs.Machines.{IsLegal, IsSameRun, parts};
ghost use Rattle.ds_core.specs.Takings.{AreWaiting, IsNextOf, open_of, session_of, shown_at};
ghost use Rattle.ds_core.specs.Witnesses.{GoesOn, course_of};

use crate::machine::Machine;
use ds_base::NoMemory;
use ds_base::limits::MAX_CLIENT;
use ds_effects::{Due, Plan, Step};
use ds_reply::Body;
use std::alloc::{AllocError, Global};

impl Machine {
    /// Takes the missing steps, client by client.
    pub(crate) fn finish(&mut self, alloc: Global) -> Result<(), NoMemory>
        requires legal { IsLegal (parts self.old) }
        requires waiting { AreWaiting self.old.state.store.shards (moment_of (parts self.old)) }
        ensures legal { OnOk result (IsLegal (parts self.new)) }
        ensures same { OnOk result (IsSameRun (parts self.old) (parts self.new)) }
        ensures closed { OnOk result (self.new.opens.items ≡ none_open) }
        ensures goes { OnOk result (GoesOn self.old.state.store.shards (course_of (parts self.old)) (course_of (parts self.new))) }
    {
        for client in 0..MAX_CLIENT + 1 {
            self.finish_client(alloc, client)?;
        }
        Ok(())
    }

    /// Takes the missing steps of one client, until its request is replied to.
    fn finish_client(&mut self, alloc: Global, client: u32) -> Result<(), NoMemory>
        requires legal { IsLegal (parts self.old) }
        requires waiting { AreWaiting self.old.state.store.shards (moment_of (parts self.old)) }
        requires client { client ≤ greatest_client }
        ensures legal { OnOk result (IsLegal (parts self.new)) }
        ensures waiting { OnOk result (AreWaiting self.new.state.store.shards (moment_of (parts self.new))) }
        ensures same { OnOk result (IsSameRun (parts self.old) (parts self.new)) }
        ensures closed { OnOk result (self.new.opens.items ≡ slice_set self.old.opens.items client None) }
        ensures goes { OnOk result (GoesOn self.old.state.store.shards (course_of (parts self.old)) (course_of (parts self.new))) }
    {
        'steps: loop {
            match self.missing(alloc, client)? {
                Some(step) => self.take(alloc, client, step)?,
                None => return Ok(()),
            }
        }
    }

    /// The step that the client's open request, if there is one, waits for. A request that is open misses a step, so `Err` is want of
    /// memory.
    fn missing(&mut self, alloc: Global, client: u32) -> Result<Option<Step>, NoMemory>
        requires legal { IsLegal (parts self.old) }
        requires waiting { AreWaiting self.old.state.store.shards (moment_of (parts self.old)) }
        requires client { client ≤ greatest_client }
        ensures legal { OnOk result (IsLegal (parts self.new)) }
        ensures same { OnOk result (IsSameRun (parts self.old) (parts self.new)) }
        ensures still { OnOk result (course_of (parts self.new) ≡ course_of (parts self.old)) }
        ensures step { IfOk result (IsNextOf (shown_at self.old.state.store.shards (moment_of (parts self.old)))
            (session_of (moment_of (parts self.old)) client) (open_of (moment_of (parts self.old)) client)) }
    {
        match self.due(alloc, client, Step::Touch) {
            Some(Due::Waits(step)) => Ok(Some(step)),
            Some(Due::Reply(plan)) => Err(want_of_memory(plan)),
            None => Ok(None),
        }
    }
}

/// There was no memory to tell a reply.
fn want_of_memory(plan: Plan) -> NoMemory
    requires { plan.body ≡ Body.NoMemory }
{
    drop(plan);
    AllocError
}
