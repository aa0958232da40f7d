//! The writer of `left_right`, as contracts of this crate see it.
ghost use Rattle.std.specs.Prelude.{◌≡◌, ◌^◌, ◌<◌, ◌∷◌, ◌++◌, [], drop, fold, IsOk, IfOk, MatchResult};
ghost use Rattle.crossbeam_utils.specs.Register.{Admits, TurnsAt, Forks, Merges};
ghost use Rattle.left_right.specs.Sides.{view as knows};

use atomic_table::{Join, Split};
use core::mem::replace_with;
use crossbeam_utils::rule::{Outcome, Protocol};
use left_right::Absorb;
use left_right::reader::Reader;
use left_right::writer::Writer;
use std::alloc::{AllocError, Global};
use std::marker::Model;
use std::sync::Wait;

/// The two copies, and what readers don't see yet. Contracts see the seat of the writer and what it knows, the copy
/// that is shown, and what it lacks.
pub struct Copies<L: Drop, T: Absorb<L> + Drop, V, P: Protocol<T, V>> {
    writer: Writer<T, L, V, P>,
}

impl<L: Drop, T: Absorb<L> + Drop, V, P: Protocol<T, V>> Model for Copies<L, T, V, P> {
    ghost use Rattle.std.specs.Prelude.{drop};
    ghost use Rattle.left_right.specs.Sides.{view as knows};
    ghost use Rattle.ds_hub.specs.Copied.{Copied};

    ghost Value = { Copied L T V };

    ghost view = { λ c. record {
      seat = c.writer.desk.place.id;
      knows = knows c.writer.desk.place;
      shown = c.writer.desk.shown.value;
      log = drop c.writer.behind c.writer.log.items;
    } };
}

impl<L: Drop, T: Absorb<L> + Drop, V, P: Protocol<T, V>> Copies<L, T, V, P> {
    pub fn new(
        alloc: Global,
        first: T,
        second: T,
        readers: u32,
    ) -> Result<Copies<L, T, V, P>, AllocError>
        requires readers { 0 < readers }
        requires alike { T.state first ≡ T.state second }
        requires rule { P.holds first (P.first ∷ []) }
        ensures { IfOk result (λ c. (c.shown ≡ first) × (c.log ≡ []) × (c.knows ≡ P.first)) }
    {
        Ok(Copies {
            writer: Writer::new(alloc, first, second, readers as usize)?,
        })
    }

    /// The copy that is shown.
    pub fn shown(&self) -> &T
        ensures { result.now ≡ self.now.shown }
    {
        self.writer.published()
    }

    /// Adds an operation with its mark. It comes back where there is no memory.
    pub fn append(&mut self, logged: L) -> Result<(), L>
        ensures { MatchResult result (λ _. self.new ≡ record self.old { log = self.old.log ++ logged ∷ [] })
            (λ back. (back ≡ logged) × (self.new ≡ self.old)) }
    {
        self.writer.append(logged)
    }

    /// Shows a copy that has all that was added. It waits for the readers of that copy.
    pub fn publish_as<M: Outcome<T, V>, R: Wait>(&mut self, rt: &R) -> Result<(), AllocError>
        requires { (next : T) → T.state next ≡ fold T.applied (T.state self.old.shown) self.old.log
            → TurnsAt P.holds self.old.seat self.old.knows self.old.shown next M.then }
        ensures succeeds { T.never_fails → IsOk result }
        ensures seat { self.new.seat ≡ self.old.seat }
        ensures ok { IfOk result (λ _. (T.state self.new.shown ≡ fold T.applied (T.state self.old.shown) self.old.log)
            × (self.new.log ≡ []) × M.then self.old.knows self.old.shown self.new.shown self.new.knows) }
        ensures err { MatchResult result (λ _. Unit {0})
            (λ _. (self.new.shown ≡ self.old.shown) × (self.new.log ≡ self.old.log) × (self.new.knows ≡ self.old.knows)) }
    {
        replace_with(
            &mut self.writer,
            rt,
            |writer: Writer<T, L, V, P>, rt: &R| -> (Writer<T, L, V, P>, Result<(), AllocError>)
                requires { (next : T)
                    → T.state next ≡ fold T.applied (T.state writer.desk.shown.value) (drop writer.behind writer.log.items)
                    → TurnsAt P.holds writer.desk.place.id (knows writer.desk.place) writer.desk.shown.value next M.then }
            { writer.publish_as::<M, R>(rt) },
        )
    }

    /// A new reader, which knows what the writer tells it. `Err` may come without a cause.
    pub fn reader<C: Split<V>, J: Join<V>>(&mut self) -> Result<Reader<T, V, P>, AllocError>
        requires admits { Admits P.holds P.first }
        requires forks { Forks P.holds self.old.seat self.old.knows (C.left self.old.knows) (C.right self.old.knows) }
        requires merges { (seat note : _)
            → Merges P.holds seat P.first note (C.right self.old.knows) (J.both P.first (C.right self.old.knows)) J.spent }
        ensures copies { (self.new.shown ≡ self.old.shown) × (self.new.log ≡ self.old.log) }
        ensures ok { IfOk result (λ r. (self.new.knows ≡ C.left self.old.knows)
            × (knows r.place ≡ J.both P.first (C.right self.old.knows))) }
        ensures err { MatchResult result (λ _. Unit {0}) (λ _. self.new.knows ≡ self.old.knows) }
    {
        let mut reader = self.writer.factory().reader()?;
        reader.learn::<J>(self.writer.tell::<C>());
        Ok(reader)
    }

    /// Waits for the readers, and drops both copies. No reader enters any more. It gives nothing, so it ensures nothing.
    pub fn end<R: Wait>(self, rt: &R) {
        let Copies { writer } = self;
        drop(writer.take(rt));
    }
}
