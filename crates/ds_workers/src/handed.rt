//! What is handed over to a worker, and what it gives back.
ghost use Rattle.std.specs.Prelude.{◌≡◌, Some, IfErr, IfSome};
ghost use Rattle.ds_workers.specs.Marks.{last_of};

use crate::handling::{Handler, Handling};
use crate::marks::Mark;
use std::marker::{Model, PhantomData};
use std::sync::Wait;
use std::thread::Threads;

/// A client that is handed over, with the mark of the history that ends in it.
#[derive(Drop)]
pub struct Job<C: Drop, K: Handling<C>> {
    client: C,
    mark: Mark<C>,
    handling: PhantomData<K>,
}

impl<C: Drop, K: Handling<C>> Model for Job<C, K> {
    ghost use Rattle.std.specs.Prelude.{◌≡◌, Some};
    ghost use Rattle.ds_workers.specs.Marks.{HandedOver, last_of};

    ghost Value = { HandedOver C };

    ghost view = { λ j. record { client = j.client; mark = j.mark } };

    ghost invariant = { λ j. (j.mark.history ≡ K.history) × (last_of j.mark.entries ≡ Some j.client) × K.is_ready j.client };
}

/// A client that was handled, with the mark of the history that ends in what it was before.
#[derive(Drop)]
pub struct Handled<C: Drop, K: Handling<C>> {
    client: C,
    mark: Mark<C>,
    handling: PhantomData<K>,
}

impl<C: Drop, K: Handling<C>> Model for Handled<C, K> {
    ghost use Rattle.std.specs.Prelude.{◌≡◌, IfSome};
    ghost use Rattle.ds_workers.specs.Marks.{HandedOver, last_of};

    ghost Value = { HandedOver C };

    ghost view = { λ d. record { client = d.client; mark = d.mark } };

    ghost invariant = { λ d. (d.mark.history ≡ K.history) × IfSome (last_of d.mark.entries) (λ before. K.handled before d.client) };
}

impl<C: Drop, K: Handling<C>> Job<C, K> {
    /// Hands over a client.
    pub(crate) fn new(client: C, mark: Mark<C>) -> Job<C, K>
        requires ready { K.is_ready client }
        requires history { mark.history ≡ K.history }
        requires mark { last_of mark.entries ≡ Some client }
        ensures { result.client ≡ client }
    {
        Job {
            client,
            mark,
            handling: PhantomData,
        }
    }

    /// The client, which isn't handed over after all.
    pub(crate) fn into_client(self) -> C
        ensures { result ≡ self.client }
    {
        let Job {
            client,
            mark: _mark,
            handling: _,
        } = self;
        client
    }

    /// Has the client handled.
    pub(crate) fn run<R: Threads + Wait + Sync, A: Handler<C, K>>(
        self,
        rt: &R,
        handler: &A,
    ) -> Handled<C, K>
        ensures { result.mark ≡ self.mark }
    {
        let Job {
            mut client,
            mark,
            handling: _,
        } = self;
        handler.handle(rt, &mut client);
        Handled {
            client,
            mark,
            handling: PhantomData,
        }
    }
}

impl<C: Drop, K: Handling<C>> Handled<C, K> {
    /// The client, where it is the one that was handed over with this mark.
    pub(crate) fn into_client(self, mark: &Mark<C>) -> Option<C>
        requires { mark.now.history ≡ K.history }
        ensures { IfSome result (λ client. IfSome (last_of mark.now.entries) (λ before. K.handled before client)) }
    {
        let Handled {
            client,
            mark: own,
            handling: _,
        } = self;
        if own.is_same(mark) {
            Some(client)
        } else {
            None
        }
    }
}

/// What lies in a slot.
#[derive(Drop)]
pub enum Place<C: Drop, K: Handling<C>> {
    /// Nothing.
    Empty,
    /// A client that its worker hasn't taken yet.
    Given(Job<C, K>),
    /// Nothing, as the worker has the client.
    Taken,
    /// A client that was handled.
    Returned(Handled<C, K>),
}

/// A slot's place, and whether the run has ended.
#[derive(Drop)]
pub struct Desk<C: Drop, K: Handling<C>> {
    place: Place<C, K>,
    has_ended: bool,
}

impl<C: Drop, K: Handling<C>> Desk<C, K> {
    pub(crate) fn new() -> Desk<C, K> {
        Desk {
            place: Place::Empty,
            has_ended: false,
        }
    }

    /// Whether its worker has something to do: a client to take, or to end.
    pub(crate) fn calls(&self) -> bool {
        self.has_ended || matches!(self.place, Place::Given(_))
    }

    /// Whether there is a client for who gave it: one that was handled, or one that no worker has taken yet.
    pub(crate) fn has_client(&self) -> bool {
        matches!(self.place, Place::Given(_) | Place::Returned(_))
    }

    /// Puts a client where nothing lies, and gives it back where something does.
    pub(crate) fn give(&mut self, job: Job<C, K>) -> Result<(), Job<C, K>>
        ensures { IfErr result (λ back. back ≡ job) }
    {
        match self.place {
            Place::Empty => {
                self.place = Place::Given(job);
                Ok(())
            }
            _ => Err(job),
        }
    }

    /// The client for its worker, if there is one.
    pub(crate) fn take_job(&mut self) -> Option<Job<C, K>> {
        match std::mem::replace(&mut self.place, Place::Taken) {
            Place::Given(job) => Some(job),
            place => {
                self.place = place;
                None
            }
        }
    }

    /// Puts down a client that was handled.
    pub(crate) fn put_back(&mut self, handled: Handled<C, K>) {
        self.place = Place::Returned(handled);
    }

    /// Takes what lies there.
    pub(crate) fn take(&mut self) -> Place<C, K> {
        std::mem::replace(&mut self.place, Place::Empty)
    }

    /// Tells the worker to end.
    pub(crate) fn end(&mut self) {
        self.has_ended = true;
    }
}
