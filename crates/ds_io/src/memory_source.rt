//! A source in memory.
ghost use Rattle.std.specs.Prelude.{◌≡◌, ◌<◌, ◌≤◌, ◌↔◌, length, take, min, IfOk, IsErr, IsTrue, is_err, Some};
ghost use Rattle.std.specs.Io.KnownBytes.{ReadConsumes};
ghost use Rattle.ds_io.specs.Memory.{after_call, fresh, is_due};

use crate::schedule::Schedule;
use crate::traits::{Failed, Source};
use ds_base::{ByteString, Numbers};
use std::marker::Model;

/// A source whose bytes stand in memory. It tells them, and which of its calls fail.
#[derive(Drop)]
pub struct MemorySource {
    bytes: ByteString,
    at: usize,
    most: usize,
    schedule: Schedule,
}

impl Model for MemorySource {
    ghost use Rattle.std.specs.Prelude.{◌<◌, ◌≤◌, length, drop};
    ghost use Rattle.ds_io.specs.Memory.{SourceParts};

    ghost Value = { SourceParts };

    ghost view = { λ s. record { left = drop s.at s.bytes; most = s.most; schedule = s.schedule } };

    ghost invariant = { λ s. (s.at ≤ length s.bytes) × (0 < s.most) };
}

impl MemorySource {
    /// A source of these bytes. One call gives at most `most` of them, which is at least 1; the calls with the numbers
    /// of `fails`, where the first call is 1, fail. It takes no memory.
    pub fn make(bytes: ByteString, most: usize, fails: Numbers) -> MemorySource
        requires { 0 < most }
        ensures left { result.left ≡ bytes }
        ensures most { result.most ≡ most }
        ensures schedule { result.schedule ≡ fresh fails }
    {
        MemorySource {
            bytes,
            at: 0,
            most,
            schedule: Schedule::new(fails),
        }
    }
}

impl Source for MemorySource {
    ghost left = { λ s. Some s.left };

    ghost faults = { λ s. s.schedule.faults };

    /// Gives as many of the next bytes as are left, fit into `buf` and may be given in one call. It fails exactly
    /// where this call is one that fails.
    fn read(&mut self, buf: &mut [u8]) -> Result<usize, Failed>
        ensures fails_when_due { IsErr result ↔ IsTrue (is_due self.old.schedule) }
        ensures amount { IfOk result (λ n. n ≡ min self.old.most (min (length self.old.left) (length buf.new))) }
        ensures bytes { ReadConsumes (Some self.old.left) (Some self.new.left) result buf.new }

        ensures most { self.new.most ≡ self.old.most }
        ensures schedule { self.new.schedule ≡ after_call self.old.schedule (is_err result) }
        ensures faults_stay_counted { self.old.schedule.faults ≤ self.new.schedule.faults }
    {
        if self.schedule.begin() {
            self.schedule.raise();
            return Err(Failed);
        }
        let (_, left) = self.bytes.bytes().split_at(self.at);
        let n = copy_front(left, self.most, buf);
        self.at += n;
        Ok(n)
    }
}

// Copies the first bytes into the front of `buf`, as many as there are, fit and are at most `most`.
fn copy_front(bytes: &[u8], most: usize, buf: &mut [u8]) -> usize
    ensures amount { result ≡ min most (min (length bytes.now) (length buf.new)) }
    ensures front { take result buf.new ≡ take result bytes.now }
{
    let n = most.min(bytes.len().min(buf.len()));
    buf[..n].copy_from_slice(&bytes[..n]);
    n
}
