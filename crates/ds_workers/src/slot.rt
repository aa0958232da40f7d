//! Where clients are handed over to one worker, and taken back.
ghost use Rattle.std.specs.Prelude.{◌≡◌, IfErr, IfSome};
ghost use Rattle.ds_workers.specs.Marks.{last_of};

use crate::handed::{Desk, Handled, Job, Place};
use crate::handling::{Handler, Handling};
use crate::marks::Mark;
use std::sync::{Condvar, Mutex, Wait};
use std::thread::Threads;

/// Where one worker waits for clients. Two threads at most wait for a change: the worker, and who gave a client.
#[derive(Drop)]
pub struct Slot<C: Drop, K: Handling<C>> {
    desk: Mutex<Desk<C, K>>,
    changed: Condvar,
}

impl<C: Drop, K: Handling<C>> Slot<C, K> {
    pub(crate) fn new() -> Slot<C, K> {
        Slot {
            desk: Mutex::new(Desk::new()),
            changed: Condvar::new(),
        }
    }

    /// Handles clients as they are given, until the run ends.
    pub(crate) fn serve<R: Threads + Wait + Sync, A: Handler<C, K>>(&self, rt: &R, handler: &A) {
        for _ in rt.forever() {
            match self.next_job(rt) {
                Some(job) => self.put_back(rt, job.run(rt, handler)),
                None => return,
            }
        }
        unreachable!()
    }

    /// Sleeps until there is a client or the run has ended, and says whether there is a client.
    pub(crate) fn is_called<R: Wait>(&self, rt: &R) -> bool {
        let desk = self
            .changed
            .wait_while(rt, self.desk.lock(rt), |desk| !desk.calls());
        desk.has_client()
    }

    /// The next client; none once the run has ended.
    fn next_job<R: Wait>(&self, rt: &R) -> Option<Job<C, K>> {
        let mut desk = self
            .changed
            .wait_while(rt, self.desk.lock(rt), |desk| !desk.calls());
        desk.take_job()
    }

    fn put_back<R: Wait>(&self, rt: &R, handled: Handled<C, K>) {
        self.desk.lock(rt).put_back(handled);
        self.changed.notify_all();
    }

    /// Gives the worker a client, and has it back where another one is there.
    pub(crate) fn give<R: Wait>(&self, rt: &R, job: Job<C, K>) -> Result<(), Job<C, K>>
        ensures { IfErr result (λ back. back ≡ job) }
    {
        let given = self.desk.lock(rt).give(job);
        self.changed.notify_all();
        given
    }

    /// Takes back the client that was given with this mark: once it is handled, or at once where no worker has taken it yet, and then it
    /// is handled here. Another client is never there.
    pub(crate) fn take_back<R: Threads + Wait + Sync, A: Handler<C, K>>(
        &self,
        rt: &R,
        handler: &A,
        mark: &Mark<C>,
    ) -> C
        requires { mark.now.history ≡ K.history }
        ensures { IfSome (last_of mark.now.entries) (λ before. K.handled before result) }
    {
        for _ in rt.forever() {
            if let Some(client) = self.take_handled(rt, handler, mark) {
                return client;
            }
        }
        unreachable!()
    }

    /// The same, where that client is there.
    fn take_handled<R: Threads + Wait + Sync, A: Handler<C, K>>(
        &self,
        rt: &R,
        handler: &A,
        mark: &Mark<C>,
    ) -> Option<C>
        requires { mark.now.history ≡ K.history }
        ensures { IfSome result (λ client. IfSome (last_of mark.now.entries) (λ before. K.handled before client)) }
    {
        match self.take(rt) {
            Place::Given(job) => job.run(rt, handler).into_client(mark),
            Place::Returned(handled) => handled.into_client(mark),
            _ => None,
        }
    }

    /// Sleeps until there is a client for who gave it, and takes it.
    fn take<R: Wait>(&self, rt: &R) -> Place<C, K> {
        let mut desk = self
            .changed
            .wait_while(rt, self.desk.lock(rt), |desk| !desk.has_client());
        desk.take()
    }

    /// Tells the worker to end.
    pub(crate) fn end<R: Wait>(&self, rt: &R) {
        self.desk.lock(rt).end();
        self.changed.notify_all();
    }
}
