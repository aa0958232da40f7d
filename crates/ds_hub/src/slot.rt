//! A reader, or the view that it entered.
ghost use Rattle.std.specs.Prelude.{◌≡◌, ◌⊎◌, IsTrue, None, is_some, length, IfSome, MatchOption};
ghost use mathlib.Core.List.{IsPrefix};
ghost use Rattle.ds_hub.specs.Holding.{IsFold, AllBelong, slotted};
ghost use Rattle.ds_hub.specs.Logs.{told_by};

use crate::absorb::Absorb;
use crate::note::Note;
use crate::reader::{Reader, View};
use core::mem::replace_with;
use std::marker::Model;

/// What a slot holds: just what `Reader::enter` returns.
type Place<O, S> = Result<View<O, S>, Reader<O, S>>;

/// A place for a reader, or for the view that it entered. Its drop leaves the view, so a list of slots can be dropped with
/// whatever views it holds, and each way out of a function that holds it leaves them all.
///
/// Contracts see the hub, the state with which it begins, the longest list that the reader saw or learnt, which is that of the
/// view where there is one, and the state that the view shows.
pub struct Slot<O: Drop, S: Absorb<O> + Drop> {
    place: Place<O, S>,
}

impl<O: Drop, S: Absorb<O> + Drop> Model for Slot<O, S> {
    ghost use Rattle.ds_hub.specs.Holding.{Slotted, slotted};

    ghost Value = { Slotted S.State S.Told S };

    ghost view = { λ s. slotted s.place };
}

impl<O: Drop, S: Absorb<O> + Drop> Slot<O, S> {
    /// A slot with a reader.
    pub fn new(reader: Reader<O, S>) -> Slot<O, S>
        ensures { result ≡ record { hub = reader.hub; start = reader.start; known = reader.known; shown = None } }
    {
        Slot { place: Err(reader) }
    }

    /// Takes the state that was published last, and waits for nobody: a view that the slot had is left before. What is known
    /// after begins with what was known before. It says whether there is a view then; there is none where the writer has ended.
    pub fn enter(&mut self) -> bool
        ensures hub { (self.new.hub ≡ self.old.hub) × (self.new.start ≡ self.old.start) }
        ensures known { IsPrefix self.old.known self.new.known }
        ensures entered { result ≡ is_some self.new.shown }
        ensures out { IsTrue result ⊎ (self.new.known ≡ self.old.known) }
    {
        replace_with(&mut self.place, (), entered)
    }

    /// Leaves the view, if there is one. What is known stays.
    pub fn leave(&mut self)
        ensures { self.new ≡ record self.old { shown = None } }
    {
        replace_with(&mut self.place, (), left_in)
    }

    /// The state that the view shows: the fold of what is known from the state with which the hub begins, to which all of that
    /// belongs. `None` where there is no view.
    pub fn state(&self) -> Option<&S>
        ensures shows { MatchOption result (self.now.shown ≡ None)
            (λ state. (self.now.shown ≡ Some state.now)
            × IsFold (told_by S.asks S.applied) self.now.start self.now.known (S.state state.now)) }
        ensures belong { IfSome result (λ _. AllBelong S.belongs self.now.start self.now.known) }
    {
        match &self.place {
            Ok(view) => Some(view.state()),
            Err(_) => None,
        }
    }

    /// Takes in what the writer of this hub told, and spends the note. A view is left before.
    pub fn learn(&mut self, note: Note<S::Told>)
        requires { note.hub ≡ self.old.hub }
        ensures hub { (self.new.hub ≡ self.old.hub) × (self.new.start ≡ self.old.start) }
        ensures out { self.new.shown ≡ None }
        ensures kept { IsPrefix self.old.known self.new.known }
        ensures learnt { IsPrefix note.list self.new.known }
        ensures no_more { (self.new.known ≡ self.old.known) ⊎ (self.new.known ≡ note.list) }
    {
        replace_with(
            &mut self.place,
            note,
            |place: Place<O, S>, note: Note<S::Told>| -> (Place<O, S>, ())
                requires { note.hub ≡ (slotted place).hub }
            { learnt(place, note) },
        )
    }

    /// How long the longest list is that the slot's reader saw or learnt.
    pub fn len(&self) -> u64
        ensures { result ≡ length self.now.known }
    {
        match &self.place {
            Ok(view) => view.len(),
            Err(reader) => reader.len(),
        }
    }

    /// Tells the longest list that the slot's reader saw or learnt.
    pub fn tell(&self) -> Note<S::Told>
        ensures { (result.hub ≡ self.now.hub) × (result.list ≡ self.now.known) }
    {
        match &self.place {
            Ok(view) => view.tell(),
            Err(reader) => reader.tell(),
        }
    }
}

impl<O: Drop, S: Absorb<O> + Drop> Drop for Slot<O, S> {
    fn drop(self) {
        let Self { place } = self;
        left(place);
    }
}

// The reader of a place: a view is left.
fn left<O: Drop, S: Absorb<O> + Drop>(place: Place<O, S>) -> Reader<O, S>
    ensures { let s = slotted place in result ≡ record { hub = s.hub; start = s.start; known = s.known } }
{
    match place {
        Ok(view) => view.leave(),
        Err(reader) => reader,
    }
}

fn left_in<O: Drop, S: Absorb<O> + Drop>(place: Place<O, S>, _with: ()) -> (Place<O, S>, ())
    ensures { slotted result.0 ≡ record (slotted place) { shown = None } }
{
    (Err(left(place)), ())
}

// A place after entering anew, and whether there is a view.
fn entered<O: Drop, S: Absorb<O> + Drop>(place: Place<O, S>, _with: ()) -> (Place<O, S>, bool)
    ensures hub { ((slotted result.0).hub ≡ (slotted place).hub) × ((slotted result.0).start ≡ (slotted place).start) }
    ensures known { IsPrefix (slotted place).known (slotted result.0).known }
    ensures entered { result.1 ≡ is_some (slotted result.0).shown }
    ensures out { IsTrue result.1 ⊎ ((slotted result.0).known ≡ (slotted place).known) }
{
    match left(place).enter() {
        Ok(view) => (Ok(view), true),
        Err(reader) => (Err(reader), false),
    }
}

fn learnt<O: Drop, S: Absorb<O> + Drop>(
    place: Place<O, S>,
    note: Note<S::Told>,
) -> (Place<O, S>, ())
    requires { note.hub ≡ (slotted place).hub }
    ensures hub { ((slotted result.0).hub ≡ (slotted place).hub) × ((slotted result.0).start ≡ (slotted place).start) }
    ensures out { (slotted result.0).shown ≡ None }
    ensures kept { IsPrefix (slotted place).known (slotted result.0).known }
    ensures learnt { IsPrefix note.list (slotted result.0).known }
    ensures no_more { ((slotted result.0).known ≡ (slotted place).known) ⊎ ((slotted result.0).known ≡ note.list) }
{
    let mut reader = left(place);
    reader.learn(note);
    (Err(reader), ())
}
