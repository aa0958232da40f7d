//! The rounds of a run, with workers for their clients: each round is read and run.
ghost use Rattle.std.specs.Prelude.{◌≡◌, ◌+◌, ◌<◌, ◌≤◌, All, length};
ghost use Rattle.ds_base.specs.Limits.{most_input_bytes};
ghost use Rattle.ds_protocol.specs.Watermarks.{HaveCounts};
ghost use Rattle.ds_clients.specs.Runs.{AreWritten, IsIdle, seen_of};
ghost use Rattle.ds_serving.specs.Rounds.{HasNext, WhereEnded, IsEnd, next_read_faults};

use crate::appliers::apply_beside;
use crate::serving::{NextRound, Serving, status_of};
use ds_clients::{
    Answering, Client, NewWorkers, RunNames, Sessions, Workers, run_round, with_workers,
};
use ds_indexdef::Defs;
use ds_io::{Gate, Source};
use ds_rounds::Rounds;
use ds_store::{Names, Pass, Store};
use ds_words::Status;
use ds_workers::Handling;
use std::marker::Model;
use std::sync::Wait;
use std::sync::atomic::AtomicBool;
use std::thread::Threads;

/// What stays the same over the rounds of a run, and the workers that answer their clients at once. Contracts see the setting of the run.
#[derive(Drop)]
pub struct ServingWithWorkers<'a, J: Names, N: RunNames, Rt, H: Wait + Drop, G>
where
    Answering<J, N>: Handling<Client<J>>,
{
    rt: &'a Rt,
    store: &'a Store<J, H>,
    defs: &'a Defs,
    gate: &'a G,
    workers: Workers<J, N>,
}

impl<'a, J: Names, N: RunNames, Rt, H: Wait + Drop, G> Model
    for ServingWithWorkers<'a, J, N, Rt, H, G>
where
    Answering<J, N>: Handling<Client<J>>,
{
    ghost use Rattle.std.specs.Prelude.{◌≡◌};
    ghost use Rattle.ds_serving.specs.declared.settings.Setting.{Setting};

    ghost Value = { Setting };

    ghost view = { λ s. record { shards = s.store.now.shards; window = J.window; defs = J.definitions } };

    ghost invariant = { λ s. (s.defs.now ≡ J.definitions) × (s.store.now.shards ≡ N.shards) };
}

impl<'a, J: Names, N: RunNames, Rt, H: Wait + Drop, G> ServingWithWorkers<'a, J, N, Rt, H, G> {
    /// The same run, with new workers, which know how many shards its store has.
    pub fn new(
        serving: &Serving<'a, J, Rt, H, G>,
        workers: NewWorkers<J>,
    ) -> ServingWithWorkers<'a, J, N, Rt, H, G>
        requires history { workers ≡ N.history }
        requires shards { serving.now.shards ≡ N.shards }
        ensures { result ≡ serving.now }
    {
        ServingWithWorkers {
            rt: serving.rt,
            store: serving.store,
            defs: serving.defs,
            gate: serving.gate,
            workers: Workers::make(workers),
        }
    }

    /// The store.
    pub fn store(&self) -> &'a Store<J, H>
        ensures { result.now.shards ≡ self.now.shards }
    {
        self.store
    }

    /// The runtime, of which contracts see nothing.
    pub fn rt(&self) -> &'a Rt {
        self.rt
    }
}

impl<
    'a,
    J: Names + Send + Sync,
    N: RunNames + Send + Sync,
    Rt: Threads + Wait + Sync,
    H: Wait + Drop + Send,
    G: Gate + Sync,
> ServingWithWorkers<'a, J, N, Rt, H, G> {
    /// Reads the next round of an input, and runs it. No reply may be left from an earlier round.
    pub fn run_next<I: Source>(
        &self,
        rounds: &mut Rounds,
        sessions: &mut Sessions<J>,
        input: &mut I,
    ) -> NextRound
        requires counts { HaveCounts self.now.shards (seen_of sessions.old) }
        requires written { AreWritten sessions.old }
        ensures next { HasNext self.now result rounds.old rounds.new (I.left input.old) (I.left input.new) sessions.old sessions.new }
        ensures counts { HaveCounts self.now.shards (seen_of sessions.new) }
        ensures written { WhereEnded (λ _. AreWritten sessions.new) result }
        ensures later { result ≡ NextRound.Ran → rounds.old.number < rounds.new.number }
        ensures within { result ≡ NextRound.Ran → rounds.new.number ≤ most_input_bytes + 1 }
        ensures end { WhereEnded IsEnd result }
        ensures read_faults { I.faults input.new ≡ next_read_faults result (I.faults input.old) }
    {
        match rounds.next(input) {
            Ok(Some(round)) => match run_round(
                self.rt,
                self.store,
                &self.workers,
                sessions,
                self.defs,
                round,
                self.gate,
            ) {
                Ok(()) => NextRound::Ran,
                Err(_) => NextRound::Ended(Status::NoMemory),
            },
            Ok(None) => NextRound::Ended(Status::Done),
            Err(refused) => NextRound::Ended(status_of(refused)),
        }
    }

    /// Calls `work`, which runs rounds, while each of these passes applies entries in a thread of its own and workers answer clients beside
    /// this thread, and gives what it gave. A pass that finds nothing to apply sleeps until a commit wakes it, and a worker sleeps while
    /// there is no client with lines for it. Where no thread can be made for the passes, nothing is applied beside the work, and where
    /// none can be made for workers, clients are answered one after another.
    pub fn with_appliers<T, F: FnMut() -> T>(&self, passes: &mut [Pass<J>], work: &mut F) -> T
        requires idle { All IsIdle passes.old }
        requires work { F.pre work.old }
        ensures idle { All IsIdle passes.new }
        ensures many { length passes.new ≡ length passes.old }
        ensures work { F.step work.old result work.new }
    {
        if passes.is_empty() {
            return self.with_workers(work);
        }
        let is_done = AtomicBool::new(false);
        apply_beside(
            self.rt,
            self.store,
            &is_done,
            passes,
            &mut || -> T
                requires { F.pre work.now }
                ensures { F.step work.entry.now result work.exit.now }
            { self.with_workers(work) },
        )
    }

    /// Calls `work` while there are workers for the clients of its rounds, and gives what it gave.
    fn with_workers<T, F: FnMut() -> T>(&self, work: &mut F) -> T
        requires { F.pre work.old }
        ensures { F.step work.old result work.new }
    {
        with_workers(
            self.rt,
            self.store,
            self.defs,
            self.gate,
            &self.workers,
            work,
        )
    }
}
