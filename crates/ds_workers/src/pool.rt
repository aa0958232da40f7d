//! The workers of a run, and a round of clients that they handle.
ghost use Rattle.std.specs.Prelude.{◌≡◌, ◌<◌, All, Some, IfErr, IfOk, IfSome, OnOk, vec_len};
ghost use Rattle.std.specs.Vec.{vec_capacity};
ghost use denote.Param.Send.{IsSend, IsSync};
ghost use Rattle.ds_workers.specs.Marks.{last_of};
ghost use Rattle.ds_workers.specs.Each.{EachOf};

use crate::handed::Job;
use crate::handling::{Handler, Handling};
use crate::marks::{History, Mark};
use crate::slot::Slot;
use std::alloc::Global;
use std::marker::PhantomData;
use std::sync::{Mutex, Wait};
use std::thread::{Threads, join, join_mut};

/// The history of what a pool has handed over.
#[derive(Drop)]
struct Log<C, K: Handling<C>> {
    history: History<C>,
    handling: PhantomData<K>,
    ghost own: { history.history ≡ K.history },
}

/// Slots for the workers of a run. A worker is there for each slot that was ever needed, for as long as `with_workers` runs.
#[derive(Drop)]
pub struct WorkerPool<C: Drop, K: Handling<C>> {
    slots: Vec<Slot<C, K>>,
    log: Mutex<Log<C, K>>,
}

impl<C: Drop, K: Handling<C>> WorkerPool<C, K> {
    /// Slots for so many workers, beside the thread that runs the rounds; fewer where memory runs out. No clause says how many there are:
    /// a pool with fewer handles the same clients, some of them in the thread that runs the rounds.
    pub fn make(alloc: Global, workers: usize, history: History<C>) -> WorkerPool<C, K>
        requires { history.history ≡ K.history }
    {
        WorkerPool {
            slots: make_slots(alloc, workers),
            log: Mutex::new(Log::new(history)),
        }
    }

    /// Has the clients of a round handled: the first that is busy in this thread, and each other one by a worker, all at once. Where there
    /// is no worker, a client is handled in this thread once the first one is. It takes no memory.
    pub fn run_round<R: Threads + Wait + Sync, A: Handler<C, K>>(
        &self,
        rt: &R,
        handler: &A,
        clients: &mut Vec<C>,
    )
        requires { All K.is_ready clients.old.items }
        ensures each { EachOf K.handled clients.old.items clients.new.items }
        ensures capacity { vec_capacity clients.new ≡ vec_capacity clients.old }
    {
        let busy = count_busy(handler, clients.as_slice());
        self.run_below(rt, handler, 0, busy.saturating_sub(1), clients);
    }

    /// The same of the first clients of a round: their busy ones are handed over in the slots from this one on, as far as there are so
    /// many.
    fn run_below<R: Threads + Wait + Sync, A: Handler<C, K>>(
        &self,
        rt: &R,
        handler: &A,
        slot: usize,
        slots: usize,
        clients: &mut Vec<C>,
    )
        requires { All K.is_ready clients.old.items }
        ensures each { EachOf K.handled clients.old.items clients.new.items }
        ensures capacity { vec_capacity clients.new ≡ vec_capacity clients.old }
    {
        let Some(client) = clients.pop() else {
            return;
        };
        if !handler.is_busy(&client) {
            self.run_below(rt, handler, slot, slots, clients);
            clients.push_reserved(client);
            return;
        }
        match self.hand_over(rt, slot, slots, client) {
            Ok(mark) => {
                self.run_below(rt, handler, slot + 1, slots, clients);
                clients.push_reserved(self.take_back(rt, handler, slot, mark));
            }
            Err(client) => {
                self.run_below(rt, handler, slot, slots, clients);
                clients.push_reserved(handle_here(rt, handler, client));
            }
        }
    }
}

impl<C: Drop, K: Handling<C>> WorkerPool<C, K> {
    /// Hands a client over to the worker of a slot, one of so many, and gives the mark that ends in it. The client comes back where that
    /// can't be.
    fn hand_over<R: Wait>(&self, rt: &R, slot: usize, slots: usize, client: C) -> Result<Mark<C>, C>
        requires { K.is_ready client }
        ensures ok { IfOk result (λ m. (m.history ≡ K.history) × (last_of m.entries ≡ Some client)) }
        ensures slot { OnOk result (slot < vec_len self.now.slots) }
        ensures err { IfErr result (λ back. back ≡ client) }
    {
        if slot >= slots {
            return Err(client);
        }
        let Some(slot) = self.slots.get(slot) else {
            return Err(client);
        };
        let Some(mark) = self.log.lock(rt).append(&client) else {
            return Err(client);
        };
        match slot.give(rt, Job::new(client, mark.duplicate())) {
            Ok(()) => Ok(mark),
            Err(job) => Err(job.into_client()),
        }
    }

    /// Takes back the client that was handed over in a slot with this mark, handled.
    fn take_back<R: Threads + Wait + Sync, A: Handler<C, K>>(
        &self,
        rt: &R,
        handler: &A,
        slot: usize,
        mark: Mark<C>,
    ) -> C
        requires slot { slot < vec_len self.now.slots }
        requires history { mark.history ≡ K.history }
        ensures { IfSome (last_of mark.entries) (λ before. K.handled before result) }
    {
        self.slots[slot].take_back(rt, handler, &mark)
    }

    /// Tells the workers to end.
    fn end<R: Wait>(&self, rt: &R) {
        for slot in &self.slots {
            slot.end(rt);
        }
    }
}

impl<C: Drop + Send, K: Handling<C> + Send> WorkerPool<C, K> {
    /// Serves a slot, and those behind it, each once it is needed, in threads of their own as far as there are any, until the run ends.
    fn serve_from<R: Threads + Wait + Sync, A: Handler<C, K> + Sync>(
        &self,
        rt: &R,
        handler: &A,
        slot: usize,
    ) {
        let Some(own) = self.slots.get(slot) else {
            return;
        };
        if !own.is_called(rt) {
            return;
        }
        join(
            rt,
            ||
                requires { (slot < vec_len self.now.slots) × IsSync R.row × IsSync A.row × IsSend C.row × IsSend K.row }
            { self.serve_from(rt, handler, slot + 1) },
            || own.serve(rt, handler),
        );
    }
}

impl<C, K: Handling<C>> Log<C, K> {
    fn new(history: History<C>) -> Log<C, K>
        requires { history.history ≡ K.history }
    {
        Log {
            history,
            handling: PhantomData,
        }
    }

    /// Puts a client behind the history, and gives the mark of all of it then.
    fn append(&mut self, client: &C) -> Option<Mark<C>>
        ensures { IfSome result (λ m. (m.history ≡ K.history) × (last_of m.entries ≡ Some client.now)) }
    {
        self.history.append(client)
    }
}

/// So many slots, or fewer where memory runs out.
fn make_slots<C: Drop, K: Handling<C>>(alloc: Global, workers: usize) -> Vec<Slot<C, K>> {
    let mut slots = Vec::new(alloc);
    for _worker in 0..workers {
        let Ok(()) = slots.push(Slot::new()) else {
            return slots;
        };
    }
    slots
}

/// How many of the clients are busy.
fn count_busy<C, K: Handling<C>, A: Handler<C, K>>(handler: &A, clients: &[C]) -> usize
    requires { All K.is_ready clients.now }
{
    clients
        .iter()
        .filter(|client| handler.is_busy(client))
        .count()
}

/// Handles a client in this thread.
fn handle_here<C, K: Handling<C>, R: Threads + Wait + Sync, A: Handler<C, K>>(
    rt: &R,
    handler: &A,
    mut client: C,
) -> C
    requires { K.is_ready client }
    ensures { K.handled client result }
{
    handler.handle(rt, &mut client);
    client
}

/// Calls `body` while there are workers, and gives what it gave. A worker starts when a round needs one more than there are, sleeps while
/// there is no client for it, and has ended when this call returns. Where no thread can be made, `body` runs without workers.
pub fn with_workers<
    R: Threads + Wait + Sync,
    C: Drop + Send,
    K: Handling<C> + Send,
    A: Handler<C, K> + Sync,
    T,
    F: FnMut() -> T,
>(rt: &R, pool: &WorkerPool<C, K>, handler: &A, body: &mut F) -> T
    requires { F.pre body.old }
    ensures { F.step body.old result body.new }
{
    let (_, given) = join_mut(
        rt,
        &mut || pool.serve_from(rt, handler, 0),
        &mut || -> T
            requires { F.pre body.now }
            ensures { F.step body.entry.now result body.exit.now }
        {
            let given = body();
            pool.end(rt);
            given
        },
    );
    given
}
