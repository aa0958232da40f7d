//! A disk in memory.
ghost use Rattle.std.specs.Prelude.{◌≡◌, ◌+◌, ◌-◌, ◌^◌, ◌<◌, ◌≤◌, ◌||◌, min, not, length, take, drop, cond, is_ok, is_err, true, false};
ghost use Rattle.std.specs.Prelude.{IfOk, nat_le};
ghost use Rattle.ds_io.specs.Faults.{next_count};
ghost use Rattle.ds_disk.specs.Memory.{DiskParts, IsImage, LeftSince, state_of, image_by, is_stopped, is_due, is_too_large, IsBelowLimit};
ghost use Rattle.ds_disk.specs.Memory.{with_call, after_call, fresh};
ghost use Rattle.ds_disk.specs.MomentLaws.{contents_may_stay, counts_now, only_now};
ghost use Rattle.ds_disk.specs.declared.call.Change.{Change};

use crate::call::Change;
use crate::disk::Disk;
use crate::history::History;
use ds_base::{ByteString, NoMemory, Numbers};
use ds_io::Failed;
use std::alloc::{AllocError, Global};
use std::marker::Model;

/// A disk in memory, for tests. It keeps its calls, of which those with given numbers fail; it can stop, after which each
/// call fails and changes nothing; and it hands out any image that a crash may leave. It is honest: contents, images
/// and moments follow from its calls by the definitions of `specs/Memory`.
#[derive(Drop)]
pub struct MemoryDisk {
    alloc: Global,
    history: History,
    fails: Numbers,
    room: u64,
    stop: u64,
    faults: u64,
    // Whether the last call was refused when out of memory.
    lacks: bool,
}

impl Model for MemoryDisk {
    ghost use Rattle.ds_disk.specs.Memory.{DiskParts};

    ghost Value = { DiskParts };

    ghost view = { λ s. record {
      first = s.history.first;
      calls = s.history.calls;
      fails = s.fails;
      room = s.room;
      stop = s.stop;
      faults = s.faults;
      lacks = s.lacks;
    } };
}

impl MemoryDisk {
    /// A disk with these contents, all of them synced. The calls with the numbers of `fails`, where the first call is 1,
    /// fail; a write that would end past `room` bytes fails; and after `stop` calls all fail. It is refused for want of
    /// memory alone.
    pub fn make(
        alloc: Global,
        contents: ByteString,
        fails: Numbers,
        room: u64,
        stop: u64,
    ) -> Result<MemoryDisk, NoMemory>
        ensures { IfOk result (λ disk. disk ≡ fresh contents fails room stop) }
    {
        Ok(MemoryDisk {
            alloc,
            history: History::new(alloc, contents)?,
            fails,
            room,
            stop,
            faults: 0,
            lacks: false,
        })
    }

    /// How many calls it keeps.
    pub fn calls(&self) -> usize
        ensures { result ≡ length self.now.calls }
    {
        self.history.len()
    }

    /// An image that a crash at this moment may leave: the one that is nearest to `wish`, and so `wish` where it is one.
    /// It has a length from the least to the greatest since the last sync, the bytes that stay, and those of `wish`
    /// elsewhere, or zeros where `wish` has none.
    pub fn image(&self, wish: &[u8]) -> Result<ByteString, NoMemory>
        ensures nearest { IfOk result (λ image. image ≡ image_by (state_of self.now) wish.now) }
        ensures may_be_left { IfOk result (IsImage (state_of self.now)) }
        ensures any_image { IsImage (state_of self.now) wish.now → IfOk result (λ image. image ≡ wish.now) }
    {
        let image = self.history.state().image(self.alloc, wish)?;
        Ok(image)
    }

    // Whether it has stopped.
    fn has_stopped(&self) -> bool
        ensures { result ≡ is_stopped self.now }
    {
        self.stop <= self.history.len() as u64
    }

    // Whether the next call is one that fails.
    fn is_due(&self) -> bool
        ensures { result ≡ is_due self.now }
    {
        let number = (self.history.len() as u64).saturating_add(1);
        self.fails.as_slice().iter().any(|fail| *fail == number)
    }

    // Whether a write is refused, as it has stopped or there is no room.
    fn refuses(&self, at: u64, piece: &[u8]) -> bool
        ensures refused { result ≡ (is_stopped self.now || is_too_large self.now at piece.now) }
        ensures below { result ≡ false → at + length piece.now < 2 ^ 64 }
    {
        self.has_stopped() || !fits(self.room, at, piece)
    }

    // One call more, unless it is refused: whether it was done.
    fn enter(&mut self, refused: bool, change: Change) -> bool
        requires { refused ≡ false → IsBelowLimit change }
        ensures after { self.new ≡ after_call self.old change (refused || self.new.lacks) self.new.lacks }
        ensures done { result ≡ not ((refused || self.new.lacks) || is_due self.old) }
        ensures faults_stay_counted { self.old.faults ≤ self.new.faults }
    {
        let due = self.is_due();
        self.lacks = enter_unless(refused, &mut self.history, self.alloc, change, due);
        let failed = refused || self.lacks || due;
        raise_if(failed, &mut self.faults);
        !failed
    }

    // A call for which there was no memory.
    fn lack(&mut self)
        ensures after { (change : Change) → self.new ≡ after_call self.old change true true }
        ensures faults_stay_counted { self.old.faults ≤ self.new.faults }
    {
        self.lacks = true;
        raise_if(true, &mut self.faults);
    }

    // A write: whether it was done.
    fn enter_write(&mut self, at: u64, piece: &[u8]) -> bool
        ensures after { self.new ≡ after_call self.old (Change.Write at piece.now)
            ((is_stopped self.old || is_too_large self.old at piece.now) || self.new.lacks) self.new.lacks }
        ensures done { result ≡ not (((is_stopped self.old || is_too_large self.old at piece.now) || self.new.lacks) || is_due self.old) }
        ensures faults_stay_counted { self.old.faults ≤ self.new.faults }
    {
        let refused = self.refuses(at, piece);
        let Ok(piece) = ByteString::of(self.alloc, piece) else {
            self.lack();
            return false;
        };
        self.enter(refused, Change::Write { at, piece })
    }
}

impl Disk for MemoryDisk {
    ghost is_honest = { λ _. true };

    ghost contents = { λ d. (state_of d).contents };

    ghost images = { λ d. IsImage (state_of d) };

    ghost moment = { λ d. length d.calls };

    ghost left_since = { λ d. LeftSince d.first d.calls };

    ghost faults = { λ d. d.faults };

    ghost contents_may_stay = { λ d _. contents_may_stay d };

    ghost counts_now = { λ d t image le now. counts_now d.first d.calls t image le now };

    ghost only_now = { λ d image left. only_now d.first d.calls image left };

    /// The number of bytes. It fails exactly where the disk has stopped, where this call is one that fails, and where it
    /// lacks the memory to be kept, which the disk tells then.
    fn len(&mut self) -> Result<u64, Failed>
        ensures after { self.new ≡ after_call self.old Change.Look (is_stopped self.old || self.new.lacks) self.new.lacks }
        ensures done { is_ok result ≡ not ((is_stopped self.old || self.new.lacks) || is_due self.old) }
        ensures length { IfOk result (λ n. n ≡ length (state_of self.old).contents) }
        ensures faults_stay_counted { self.old.faults ≤ self.new.faults }
    {
        let stopped = self.has_stopped();
        if !self.enter(stopped, Change::Look) {
            return Err(Failed);
        }
        Ok(self.history.state().len())
    }

    /// Gives as many of the bytes from `at` on as there are and fit into `buf`. It fails where `len` does.
    fn read(&mut self, at: u64, buf: &mut [u8]) -> Result<usize, Failed>
        ensures after { self.new ≡ after_call self.old Change.Look (is_stopped self.old || self.new.lacks) self.new.lacks }
        ensures done { is_ok result ≡ not ((is_stopped self.old || self.new.lacks) || is_due self.old) }
        ensures amount { IfOk result (λ n. n ≡ min (length (state_of self.old).contents - at) (length buf.new)) }
        ensures front { IfOk result (λ n. take n buf.new ≡ take n (drop at (state_of self.old).contents)) }
        ensures faults_stay_counted { self.old.faults ≤ self.new.faults }
    {
        let stopped = self.has_stopped();
        if !self.enter(stopped, Change::Look) {
            return Err(Failed);
        }
        Ok(self.history.state().read(at, buf))
    }

    /// Writes the piece. It fails where `len` does, and where the piece would end past the room. One that fails as it is
    /// one of those that fail may be found after a crash, in whole or in part; the others change nothing.
    fn write_at(&mut self, at: u64, piece: &[u8]) -> Result<(), Failed>
        ensures after { self.new ≡ after_call self.old (Change.Write at piece.now)
            ((is_stopped self.old || is_too_large self.old at piece.now) || self.new.lacks) self.new.lacks }
        ensures done { is_ok result
            ≡ not (((is_stopped self.old || is_too_large self.old at piece.now) || self.new.lacks) || is_due self.old) }
        ensures faults_stay_counted { self.old.faults ≤ self.new.faults }
    {
        if self.enter_write(at, piece) {
            Ok(())
        } else {
            Err(Failed)
        }
    }

    /// Cuts the contents. It fails where `len` does, and may then be found after a crash as a write may.
    fn cut(&mut self, len: u64) -> Result<(), Failed>
        ensures after { self.new ≡ after_call self.old (Change.Cut len) (is_stopped self.old || self.new.lacks) self.new.lacks }
        ensures done { is_ok result ≡ not ((is_stopped self.old || self.new.lacks) || is_due self.old) }
        ensures faults_stay_counted { self.old.faults ≤ self.new.faults }
    {
        let stopped = self.has_stopped();
        if self.enter(stopped, Change::Cut { len }) {
            Ok(())
        } else {
            Err(Failed)
        }
    }

    /// Leaves the contents as the one image. It fails where `len` does, and then changes nothing.
    fn sync(&mut self) -> Result<(), Failed>
        ensures after { self.new ≡ after_call self.old Change.Sync (is_stopped self.old || self.new.lacks) self.new.lacks }
        ensures done { is_ok result ≡ not ((is_stopped self.old || self.new.lacks) || is_due self.old) }
        ensures faults_stay_counted { self.old.faults ≤ self.new.faults }
    {
        let stopped = self.has_stopped();
        if self.enter(stopped, Change::Sync) {
            Ok(())
        } else {
            Err(Failed)
        }
    }
}

// Whether a piece ends at a place that isn't past the room.
fn fits(room: u64, at: u64, piece: &[u8]) -> bool
    ensures fits { result ≡ nat_le (at + length piece.now) room }
    ensures below { result ≡ true → at + length piece.now < 2 ^ 64 }
{
    at <= room && piece.len() as u64 <= room - at
}

// One call more, unless it is refused: whether there was no memory for it.
fn enter_unless(
    refused: bool,
    history: &mut History,
    alloc: Global,
    change: Change,
    due: bool,
) -> bool
    requires { refused ≡ false → IsBelowLimit change }
    ensures kept { history.new ≡ cond (refused || result) history.old (with_call history.old change due) }
    ensures refused { refused ≡ true → result ≡ false }
{
    !refused && history.enter(alloc, change, due).is_err()
}

// Counts one fault more, if there was one.
fn raise_if(failed: bool, faults: &mut u64)
    ensures raised { faults.new ≡ cond failed (next_count faults.old) faults.old }
    ensures faults_stay_counted { faults.old ≤ faults.new }
{
    if failed {
        *faults = faults.saturating_add(1);
    }
}
