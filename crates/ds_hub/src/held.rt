//! A hub's writer under a lock.
ghost use Rattle.std.specs.Prelude.{◌≡◌};

use crate::absorb::Absorb;
use crate::writer::Writer;
use std::sync::Wait;

/// A hub's writer that can stand under a lock, which holds only what can be dropped: it keeps a handle of the runtime, and its
/// drop ends the writer. Contracts see the writer.
pub struct HeldWriter<O: Drop, S: Absorb<O> + Drop, R: Wait + Drop> {
    pub writer: Writer<O, S>,
    rt: R,
}

impl<O: Drop, S: Absorb<O> + Drop, R: Wait + Drop> HeldWriter<O, S, R> {
    /// The writer, to be ended by its drop.
    pub fn new(rt: R, writer: Writer<O, S>) -> HeldWriter<O, S, R>
        ensures { result.writer ≡ writer }
    {
        HeldWriter { writer, rt }
    }
}

impl<O: Drop, S: Absorb<O> + Drop, R: Wait + Drop> Drop for HeldWriter<O, S, R> {
    fn drop(self) {
        let Self { writer, rt } = self;
        writer.end(&rt);
    }
}
