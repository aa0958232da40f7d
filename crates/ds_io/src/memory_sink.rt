//! A sink in memory.
ghost use Rattle.std.specs.Prelude.{◌≡◌, ◌<◌, ◌≤◌, ◌||◌, [], length, min, IfOk, IsOk, is_err, Some, false};
ghost use Rattle.std.specs.Io.KnownBytes.{WriteAppends};
ghost use Rattle.ds_io.specs.Memory.{after_call, fresh, must_fail};

use crate::schedule::Schedule;
use crate::traits::{Failed, Sink};
use ds_base::{ByteString, Numbers};
use std::alloc::Global;
use std::marker::Model;

/// A sink that keeps what is written in memory. It tells those bytes, and which of its calls fail.
#[derive(Drop)]
pub struct MemorySink {
    bytes: ByteString,
    most: usize,
    // Whether the last write was refused when out of memory.
    lacks: bool,
    schedule: Schedule,
}

impl Model for MemorySink {
    ghost use Rattle.ds_io.specs.Memory.{SinkParts};

    ghost Value = { SinkParts };

    ghost view = { λ s. record { held = s.bytes; most = s.most; lacks = s.lacks; schedule = s.schedule } };
}

impl MemorySink {
    /// A sink that holds nothing yet. One call takes at most `most` bytes, where 0 makes each call that is given bytes
    /// fail; the calls with the numbers of `fails`, where the first call is 1, fail too. It takes no memory itself.
    pub fn make(alloc: Global, most: usize, fails: Numbers) -> MemorySink
        ensures held { result.held ≡ [] }
        ensures most { result.most ≡ most }
        ensures lacks { result.lacks ≡ false }
        ensures schedule { result.schedule ≡ fresh fails }
    {
        MemorySink {
            bytes: ByteString::new(alloc),
            most,
            lacks: false,
            schedule: Schedule::new(fails),
        }
    }

    /// What was taken so far.
    pub fn written(&self) -> &ByteString
        ensures { result.now ≡ self.now.held }
    {
        &self.bytes
    }

    /// `write`, before a failure is counted as a fault.
    fn take(&mut self, piece: &[u8]) -> Result<usize, Failed>
        ensures fails_exactly { is_err result ≡ (must_fail self.old piece.now || self.new.lacks) }
        ensures amount { IfOk result (λ n. n ≡ min self.old.most (length piece.now)) }
        ensures takes_some { IfOk result (λ n. 0 < length piece.now → 0 < n) }
        ensures bytes { WriteAppends (Some self.old.held) (Some self.new.held) result piece.now }
        ensures most { self.new.most ≡ self.old.most }
        ensures schedule { self.new.schedule ≡ after_call self.old.schedule false }
    {
        self.lacks = false;
        if self.schedule.begin() || (self.most == 0 && !piece.is_empty()) {
            return Err(Failed);
        }
        let n = self.most.min(piece.len());
        match self.bytes.append(&piece[..n]) {
            Ok(()) => Ok(n),
            Err(_) => {
                self.lacks = true;
                Err(Failed)
            }
        }
    }
}

impl Sink for MemorySink {
    ghost held = { λ s. Some s.held };

    ghost faults = { λ s. s.schedule.faults };

    /// Takes as many of the first bytes of `piece` as may be taken in one call. It fails exactly where this call is one that
    /// fails, where it may take nothing of a piece that has bytes, and where it lacks the memory for the bytes, which it
    /// tells then.
    fn write(&mut self, piece: &[u8]) -> Result<usize, Failed>
        ensures fails_exactly { is_err result ≡ (must_fail self.old piece.now || self.new.lacks) }
        ensures amount { IfOk result (λ n. n ≡ min self.old.most (length piece.now)) }
        ensures takes_some { IfOk result (λ n. 0 < length piece.now → 0 < n) }
        ensures bytes { WriteAppends (Some self.old.held) (Some self.new.held) result piece.now }

        ensures most { self.new.most ≡ self.old.most }
        ensures schedule { self.new.schedule ≡ after_call self.old.schedule (is_err result) }
        ensures faults_stay_counted { self.old.schedule.faults ≤ self.new.schedule.faults }
    {
        let taken = self.take(piece);
        if taken.is_err() {
            self.schedule.raise();
        }
        taken
    }

    /// There is nothing to send on: it never fails, and isn't counted among the calls.
    fn flush(&mut self) -> Result<(), Failed>
        ensures succeeds { IsOk result }
        ensures same { self.new ≡ self.old }
    {
        Ok(())
    }
}
