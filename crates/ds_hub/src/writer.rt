//! A hub's writer.
ghost use Rattle.std.specs.Prelude.{◌≡◌, ◌+◌, ◌<◌, ◌^◌, ◌∷◌, ◌++◌, ◌↔◌, IsTrue, false, is_some, IsOk, IfSome, [], length, MatchResult};
ghost use mathlib.Core.List.{IsPrefix};
ghost use Rattle.ds_hub.specs.Logs.{queued};

use crate::NoMemory;
use crate::absorb::Absorb;
use crate::copies::Copies;
use crate::note::Note;
use crate::prefix::{Head, Prefix};
use crate::reader::Reader;
use crate::rule::{Knows, ShownIsFold, Stays};
use crate::tells::{InSnapshot, Tells};
use crate::version::{Logged, Version};
use std::alloc::AllocError;
use std::marker::Model;
use std::snapshot::Snapshot;
use std::sync::Wait;
use std::thread;

/// The copies of a hub, under its rule.
pub type Ruled<O, S> = Copies<
    Logged<O, <S as Absorb<O>>::Told>,
    Version<<S as Absorb<O>>::Told, S>,
    Knows<O, S>,
    ShownIsFold<O>,
>;

/// The one writer of a hub. It isn't `Drop`: end it by `end`. Contracts see its hub, the state with which the hub begins, the
/// published list, which is that of the copy that readers are shown, the list of what is pending, and whether the last operation
/// of that is kept aside.
pub struct Writer<O: Drop, S: Absorb<O> + Drop> {
    pub(crate) copies: Copies<Logged<O, S::Told>, Version<S::Told, S>, Knows<O, S>, ShownIsFold<O>>,
    pub(crate) head: Head<S::Told>,
    /// What the history has: the published list and what is pending.
    pub(crate) announced: Prefix<S::Told>,
    /// The last pending operation, where it was announced and the copies then had no memory for it.
    pub(crate) parked: Option<Logged<O, S::Told>>,
    /// How many operations are pending.
    pub(crate) waiting: u64,
}

impl<O: Drop, S: Absorb<O> + Drop> Model for Writer<O, S> {
    ghost use Rattle.std.specs.Prelude.{is_some};
    ghost use Rattle.ds_hub.specs.Holding.{Publishing, start_of};
    ghost use Rattle.ds_hub.specs.Logs.{queued};
    ghost use Rattle.ds_hub.specs.Running.{IsRunning, unseen};

    ghost Value = { Publishing S.State S.Told };

    ghost view = { λ w. record {
      hub = w.head;
      start = start_of w.copies.knows;
      published = w.copies.shown.prefix.list;
      pending = unseen w.copies.shown.prefix w.announced;
      is_parked = is_some w.parked;
    } };

    ghost invariant = { λ w. IsRunning S.asks S.applied S.belongs w.head w.copies.knows (S.state w.copies.shown.state) w.copies.shown.prefix
        (queued w.copies.log w.parked) w.announced w.waiting };
}

impl<O: Drop, S: Absorb<O> + Drop> Writer<O, S> {
    /// How many operations readers see.
    pub fn published(&self) -> u64
        ensures { result ≡ length self.now.published }
    {
        self.copies.shown().prefix.len()
    }

    /// How many operations were added that readers don't see yet.
    pub fn pending(&self) -> u64
        ensures { result ≡ length self.now.pending }
    {
        self.waiting
    }

    /// Whether the last pending operation is kept aside: it was announced, and then the copies had no memory for it.
    pub fn is_parked(&self) -> bool
        ensures { result ≡ self.now.is_parked }
    {
        self.parked.is_some()
    }

    /// Adds an operation to the pending ones, of which it tells what `M` says of `about`, which stands for the operation and
    /// belongs to the state with which the hub begins. `Err` hands it back when out of memory, which an operation that is kept
    /// aside counts as, and changes nothing. After an Ok `is_parked` says whether `publish` still wants memory.
    pub fn add_as<X, M: Tells<X, S::Told>>(&mut self, op: O, about: &X) -> Result<(), O>
        requires room { length self.old.published + length self.old.pending < 2 ^ 62 }
        requires asks { S.asks (M.told about.now) ≡ op }
        requires belongs { IfSome self.old.start (λ start. S.belongs start (M.told about.now)) }
        ensures { MatchResult result (λ _. self.new ≡ record self.old {
          pending = self.old.pending ++ M.told about.now ∷ [];
          is_parked = self.new.is_parked;
        }) (λ back. (back ≡ op) × (self.new ≡ self.old)) }
    {
        if self.parked.is_some() || !self.head.announce::<X, M>(&mut self.announced, about) {
            return Err(op);
        }
        let logged = Logged {
            operation: Some(op),
            mark: self.announced.duplicate(),
        };
        self.parked = let_in(&mut self.copies, Some(logged));
        self.waiting += 1;
        Ok(())
    }

    /// Takes in the operation that is kept aside, if there is one: it waits until there is memory for it. In a hub whose
    /// operations are each published before the next is added it never waits, since `make` took the room for them.
    pub fn take_in_parked<Rt: Wait>(&mut self, rt: &Rt)
        ensures { self.new ≡ record self.old { is_parked = false } }
    {
        let parked = self.parked.take();
        wait_in(rt, &mut self.copies, parked);
    }

    /// Publishes what is pending, all at once. It waits for the readers that still read the copy from before the last call, and
    /// never for memory. `Err` means out of memory where a copy takes in an operation, or for an operation that is kept aside; it
    /// changes neither list.
    ///
    /// A thread that holds a view of this hub and publishes in it waits for itself, at the second publish at the latest: it
    /// leaves its views before.
    pub fn publish<Rt: Wait>(&mut self, rt: &Rt) -> Result<(), NoMemory>
        ensures succeeds { S.never_fails → self.old.is_parked ≡ false → IsOk result }
        ensures lists { MatchResult result (λ _. self.new ≡ record self.old {
          published = self.old.published ++ self.old.pending;
          pending = [];
          is_parked = false;
        }) (λ _. self.new ≡ record self.old { is_parked = self.new.is_parked }) }
    {
        if self.parked.is_none() && self.waiting == 0 {
            return Ok(());
        }
        let parked = self.parked.take();
        self.parked = let_in(&mut self.copies, parked);
        if self.parked.is_some() {
            return Err(AllocError);
        }
        match self.copies.publish_as::<Stays<O>, Rt>(rt) {
            Ok(()) => {
                self.waiting = 0;
                Ok(())
            }
            Err(refused) => Err(refused),
        }
    }

    /// Tells what is published. A reader that learns it enters no earlier list.
    pub fn tell(&mut self) -> Note<S::Told>
        ensures same { self.new ≡ self.old }
        ensures note { (result.hub ≡ self.old.hub) × (result.list ≡ self.old.published) }
    {
        Note {
            prefix: self.copies.shown().prefix.duplicate(),
        }
    }

    /// Whether all that a reader of this hub saw or learnt is published. In every run it is.
    pub fn covers(&self, reader: &Reader<O, S>) -> bool
        requires { reader.now.hub ≡ self.now.hub }
        ensures { IsTrue result ↔ IsPrefix reader.now.known self.now.published }
    {
        reader.prefix.begins(&self.copies.shown().prefix)
    }

    /// Shows that all that a reader of this hub saw or learnt is published. It asks `covers` until it says so, which is at once.
    pub fn confirm<Rt: Wait>(&self, rt: &Rt, reader: &Reader<O, S>)
        requires { reader.now.hub ≡ self.now.hub }
        ensures { IsPrefix reader.now.known self.now.published }
    {
        for _ in rt.forever() {
            if self.covers(reader) {
                return;
            }
            thread::yield_now();
        }
        unreachable!()
    }

    /// Whether all that a note of this hub tells is published. In every run it is.
    pub fn covers_note(&self, note: &Note<S::Told>) -> bool
        requires { note.now.hub ≡ self.now.hub }
        ensures { IsTrue result ↔ IsPrefix note.now.list self.now.published }
    {
        note.prefix.begins(&self.copies.shown().prefix)
    }

    /// Shows that all that a note of this hub tells is published. It asks `covers_note` until it says so, which is at once.
    pub fn confirm_note<Rt: Wait>(&self, rt: &Rt, note: &Note<S::Told>)
        requires { note.now.hub ≡ self.now.hub }
        ensures { IsPrefix note.now.list self.now.published }
    {
        for _ in rt.forever() {
            if self.covers_note(note) {
                return;
            }
            thread::yield_now();
        }
        unreachable!()
    }

    /// Ends the hub: no reader enters any more. It waits for the readers that read. Pending operations are dropped.
    ///
    /// It ensures nothing, since it uses the writer up and gives nothing of which to speak. What a store needs to know at the
    /// end, that each reader's list begins the published one, `confirm` says of the writer before.
    pub fn end<Rt: Wait>(self, rt: &Rt) {
        let Writer {
            copies,
            head: _head,
            announced: _announced,
            parked: _parked,
            waiting: _,
        } = self;
        copies.end(rt);
    }
}

impl<O: Drop, S: Absorb<O, Told = O> + Drop> Writer<O, S> {
    /// Adds an operation to the pending ones, in a hub that tells its operations themselves and to whose first state it belongs.
    /// `Err` hands it back for want of memory, which an operation that is kept aside counts as, and changes nothing. After an Ok
    /// `is_parked` says whether `publish` still wants memory.
    pub fn add(&mut self, op: O) -> Result<(), O>
        requires room { length self.old.published + length self.old.pending < 2 ^ 62 }
        requires asks { S.asks op ≡ op }
        requires belongs { IfSome self.old.start (λ start. S.belongs start op) }
        ensures { MatchResult result (λ _. self.new ≡ record self.old {
          pending = self.old.pending ++ op ∷ [];
          is_parked = self.new.is_parked;
        }) (λ back. (back ≡ op) × (self.new ≡ self.old)) }
    {
        let about = Snapshot::of(&op);
        self.add_as::<Snapshot<O>, InSnapshot>(op, &about)
    }
}

// Gives the copies an operation, if there is one. It comes back where there is no memory.
fn let_in<O: Drop, S: Absorb<O> + Drop>(
    copies: &mut Ruled<O, S>,
    parked: Option<Logged<O, S::Told>>,
) -> Option<Logged<O, S::Told>>
    ensures queued { queued copies.new.log result ≡ queued copies.old.log parked }
    ensures nothing { is_some parked ≡ false → is_some result ≡ false }
    ensures same { (copies.new.seat ≡ copies.old.seat) × (copies.new.knows ≡ copies.old.knows) × (copies.new.shown ≡ copies.old.shown) }
{
    match parked {
        None => None,
        Some(logged) => copies.append(logged).err(),
    }
}

// Gives the copies an operation, if there is one. It waits until there is memory for it.
fn wait_in<O: Drop, S: Absorb<O> + Drop, R: Wait>(
    rt: &R,
    copies: &mut Ruled<O, S>,
    parked: Option<Logged<O, S::Told>>,
)
    ensures { copies.new ≡ record copies.old { log = queued copies.old.log parked } }
{
    let mut left = parked;
    for _ in rt.forever() {
        match left {
            None => return,
            Some(logged) => left = copies.append(logged).err(),
        }
        thread::yield_now();
    }
    unreachable!()
}
