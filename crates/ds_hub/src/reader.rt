//! A hub's readers, and the views that they enter.
ghost use Rattle.std.specs.Prelude.{◌≡◌, ◌⊎◌, length, MatchResult};
ghost use mathlib.Core.List.{IsPrefix};
ghost use Rattle.ds_hub.specs.Holding.{IsFold, AllBelong};
ghost use Rattle.ds_hub.specs.Logs.{told_by};

use crate::absorb::Absorb;
use crate::note::Note;
use crate::prefix::Prefix;
use crate::rule::{Knows, ShownIsFold, Stays};
use crate::version::Version;
use std::marker::Model;

/// A reader of the two copies, which doesn't read.
pub(crate) type IdleReader<O, S> = left_right::reader::Reader<
    Version<<S as Absorb<O>>::Told, S>,
    Knows<O, S>,
    ShownIsFold<O>,
>;

// A reader of the two copies, with the copy that it reads.
type ReadingReader<O, S> = left_right::reader::Reading<
    Version<<S as Absorb<O>>::Told, S>,
    Knows<O, S>,
    ShownIsFold<O>,
>;

/// A reader that is not reading. Contracts see its hub, the state with which the hub begins, and the longest list that
/// it saw or learnt.
#[derive(Drop)]
pub struct Reader<O: Drop, S: Absorb<O> + Drop> {
    pub(crate) reader: IdleReader<O, S>,
    pub(crate) prefix: Prefix<S::Told>,
}

impl<O: Drop, S: Absorb<O> + Drop> Model for Reader<O, S> {
    ghost use Rattle.left_right.specs.Sides.{view as knows};
    ghost use Rattle.ds_hub.specs.Holding.{Following, start_of, IsOf};

    ghost Value = { Following S.State S.Told };

    ghost view = { λ r. record { hub = r.prefix.hub; start = start_of (knows r.reader.place); known = r.prefix.list } };

    ghost invariant = { λ r. IsOf r.prefix.hub (knows r.reader.place) };
}

/// A reader with the state that it reads, which stays as it is. It isn't `Drop`: end it by `leave`, before this thread publishes
/// in the hub, since a publish waits for the views of the copy that it changes. Contracts see its hub,
/// the state with which the hub begins, the list of published operations that are in the state, and the state.
pub struct View<O: Drop, S: Absorb<O> + Drop> {
    reading: ReadingReader<O, S>,
}

impl<O: Drop, S: Absorb<O> + Drop> Model for View<O, S> {
    ghost use Rattle.left_right.specs.Sides.{view as knows};
    ghost use Rattle.ds_hub.specs.Holding.{Showing, start_of, IsOf};
    ghost use Rattle.ds_hub.specs.Logs.{Fits, told_by};

    ghost Value = { Showing S.State S.Told S };

    ghost view = { λ v. record {
      hub = v.reading.part.value.prefix.hub;
      start = start_of (knows v.reading.place);
      list = v.reading.part.value.prefix.list;
      state = v.reading.part.value.state;
    } };

    ghost invariant = { λ v. IsOf v.reading.part.value.prefix.hub (knows v.reading.place)
        × Fits (told_by S.asks S.applied) S.belongs (S.state v.reading.part.value.state) v.reading.part.value.prefix (knows v.reading.place) };
}

impl<O: Drop, S: Absorb<O> + Drop> Reader<O, S> {
    /// How long the longest list is that this reader saw or learnt.
    pub fn len(&self) -> u64
        ensures { result ≡ length self.now.known }
    {
        self.prefix.len()
    }

    /// Takes in what the writer of this hub told, and spends the note. The next view's list begins with it.
    pub fn learn(&mut self, note: Note<S::Told>)
        requires { note.hub ≡ self.old.hub }
        ensures hub { (self.new.hub ≡ self.old.hub) × (self.new.start ≡ self.old.start) }
        ensures kept { IsPrefix self.old.known self.new.known }
        ensures learnt { IsPrefix note.list self.new.known }
        ensures no_more { (self.new.known ≡ self.old.known) ⊎ (self.new.known ≡ note.list) }
    {
        self.prefix = self.prefix.longer(&note.prefix);
    }

    /// Tells the longest list that this reader saw or learnt. It takes no memory, and no lock: a reader that learns the note is as
    /// far as this one at its next view.
    pub fn tell(&self) -> Note<S::Told>
        ensures { (result.hub ≡ self.now.hub) × (result.list ≡ self.now.known) }
    {
        Note {
            prefix: self.prefix.duplicate(),
        }
    }

    /// Takes the state that was published last, and waits for nobody. The list of the view begins with all that this reader
    /// saw or learnt. The reader comes back as it was where the writer has ended.
    pub fn enter(self) -> Result<View<O, S>, Reader<O, S>>
        ensures { MatchResult result (λ view. (view.hub ≡ self.hub) × (view.start ≡ self.start) × IsPrefix self.known view.list
            × IsFold (told_by S.asks S.applied) view.start view.list (S.state view.state)) (λ reader. reader ≡ self) }
    {
        let Reader { reader, prefix } = self;
        match reader.enter_as::<Stays<O>>() {
            Ok(reading) => {
                let is_known = prefix.begins(&reading.get().prefix);
                if is_known {
                    Ok(View { reading })
                } else {
                    Err(Reader {
                        reader: reading.leave(),
                        prefix,
                    })
                }
            }
            Err(reader) => Err(Reader { reader, prefix }),
        }
    }
}

impl<O: Drop, S: Absorb<O> + Drop> View<O, S> {
    /// How long the view's list is.
    pub fn len(&self) -> u64
        ensures { result ≡ length self.now.list }
    {
        self.reading.get().prefix.len()
    }

    /// The state: the fold of the view's list from the state with which the hub begins, to which all of the list belongs.
    pub fn state(&self) -> &S
        ensures state { result.now ≡ self.now.state }
        ensures fold { IsFold (told_by S.asks S.applied) self.now.start self.now.list (S.state result.now) }
        ensures belong { AllBelong S.belongs self.now.start self.now.list }
    {
        &self.reading.get().state
    }

    /// Tells the view's list. It takes no memory, and no lock.
    pub fn tell(&self) -> Note<S::Told>
        ensures { (result.hub ≡ self.now.hub) × (result.list ≡ self.now.list) }
    {
        Note {
            prefix: self.reading.get().prefix.duplicate(),
        }
    }

    /// Gives the reader back, which has then seen the view's list.
    pub fn leave(self) -> Reader<O, S>
        ensures hub { (result.hub ≡ self.hub) × (result.start ≡ self.start) }
        ensures known { result.known ≡ self.list }
    {
        let View { reading } = self;
        let prefix = reading.get().prefix.duplicate();
        Reader {
            reader: reading.leave(),
            prefix,
        }
    }
}
