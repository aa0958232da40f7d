//! The traits of the outside, and their refusals.
ghost use Rattle.std.specs.Prelude.{◌≡◌, ℕ, ◌<◌, ◌≤◌, ◌⊎◌, List, Option, length, IsFalse, IsTrue, IfOk, OnOk, OnErr, IfSome};
ghost use Rattle.std.specs.Io.KnownBytes.{Keeps, ReadConsumes, WriteAppends};
ghost use Rattle.ds_base.specs.Limits.{most_file_bytes};
ghost use Rattle.ds_io.specs.Faults.{Rose, next_count, is_failed};

use ds_base::ByteString;
use std::alloc::{AllocError, Global};

/// The outside failed: a read or a write was not done.
#[derive(Clone, Copy, Debug, PartialEq, Eq)]
pub struct Failed;

/// Why a file was not loaded.
#[derive(Clone, Copy, Debug, PartialEq, Eq)]
pub enum LoadFault {
    /// The file is missing, has more than 2^30 bytes, or could not be read.
    Failed,
    /// There was no memory for its bytes.
    NoMemory,
}

impl From<AllocError> for LoadFault {
    ghost use Rattle.std.specs.Prelude.{◌≡◌};
    ghost use Rattle.ds_io.specs.declared.traits.LoadFault.TheVariants.{NoMemory};

    ghost from_gives = { λ _ fault. fault ≡ NoMemory };

    fn from(_refused: AllocError) -> LoadFault {
        LoadFault::NoMemory
    }
}

/// What bytes are read from, in their order.
pub trait Source {
    // The bytes that are left, where they are told.
    ghost left: { Self → Option (List ℕ) };

    // How many faults there were so far.
    ghost faults: { Self → ℕ };

    /// Reads the next bytes into the front of `buf` and gives their number; 0 for a `buf` with room is the end. What
    /// `buf` holds past that number, or after a failure, is not said. Where it is told what is left, a failure loses
    /// nothing of it: the next read begins with the same byte. A failure counts one fault more, and nothing else does.
    fn read(&mut self, buf: &mut [u8]) -> Result<usize, Failed>
        ensures within { IfOk result (λ n. n ≤ length buf.new) }
        ensures bytes { ReadConsumes (left self.old) (left self.new) result buf.new }

        ensures failed_by_a_fault { OnErr result (Rose (faults self.old) (faults self.new)) }
        ensures counts_a_failure { OnErr result (faults self.new ≡ next_count (faults self.old)) }
        ensures counts_nothing_else { OnOk result (faults self.new ≡ faults self.old) }
        ensures faults_stay_counted { faults self.old ≤ faults self.new };
}

/// What bytes are written to, in their order.
pub trait Sink {
    // The bytes that it holds, where they are told.
    ghost held: { Self → Option (List ℕ) };

    // How many faults there were so far.
    ghost faults: { Self → ℕ };

    /// Takes the first bytes of `piece` and gives their number, which is above 0 unless `piece` is empty: to take
    /// nothing of a piece that has bytes is a fault. Where it is told what is held, a failure has taken nothing. What is
    /// taken may stand in a buffer until the next `flush`. A failure counts one fault more, and nothing else does.
    fn write(&mut self, piece: &[u8]) -> Result<usize, Failed>
        ensures within { IfOk result (λ n. n ≤ length piece.now) }
        ensures takes_some { IfOk result (λ n. 0 < length piece.now → 0 < n) }
        ensures bytes { WriteAppends (held self.old) (held self.new) result piece.now }

        ensures failed_by_a_fault { OnErr result (Rose (faults self.old) (faults self.new)) }
        ensures counts_a_failure { OnErr result (faults self.new ≡ next_count (faults self.old)) }
        ensures counts_nothing_else { OnOk result (faults self.new ≡ faults self.old) }
        ensures faults_stay_counted { faults self.old ≤ faults self.new };

    /// Sends on its way what was taken, to be called once after a text. What is held stays, also where it fails: bytes
    /// that were taken stay taken. A failure counts one fault more, and nothing else does.
    fn flush(&mut self) -> Result<(), Failed>
        ensures bytes { Keeps (held self.old) (held self.new) }

        ensures failed_by_a_fault { OnErr result (Rose (faults self.old) (faults self.new)) }
        ensures counts_a_failure { OnErr result (faults self.new ≡ next_count (faults self.old)) }
        ensures counts_nothing_else { OnOk result (faults self.new ≡ faults self.old) }
        ensures faults_stay_counted { faults self.old ≤ faults self.new };
}

/// Files that are loaded whole, by name.
pub trait Files {
    // The content of the file of a name, where it is told.
    ghost content: { Self → List ℕ → Option (List ℕ) };

    // How many faults there were so far for a name. One count may serve all names.
    ghost faults: { Self → List ℕ → ℕ };

    /// Gives all bytes of the file of this name. `Failed`: it is missing, has more than 2^30 bytes, or could not be read.
    /// `NoMemory`: lack of memory. A failure counts one fault more for this name, and for another one more or none;
    /// nothing else counts any.
    fn load(&mut self, alloc: Global, name: &str) -> Result<ByteString, LoadFault>
        ensures gives_the_content { IfOk result (λ bytes. IfSome (content self.old name.now) (λ told. bytes ≡ told)) }
        ensures within { IfOk result (λ bytes. length bytes ≤ most_file_bytes) }

        ensures failed_by_a_fault { IsTrue (is_failed result) → Rose (faults self.old name.now) (faults self.new name.now) }
        ensures counts_a_failure { IsTrue (is_failed result) → faults self.new name.now ≡ next_count (faults self.old name.now) }
        ensures counts_one_at_most { (other : List ℕ)
            → (faults self.new other ≡ faults self.old other) ⊎ (faults self.new other ≡ next_count (faults self.old other)) }
        ensures counts_nothing_else { IsFalse (is_failed result) → (other : List ℕ) → faults self.new other ≡ faults self.old other }
        ensures faults_stay_counted { (other : List ℕ) → faults self.old other ≤ faults self.new other }
        ensures same_contents { (other : List ℕ) → content self.new other ≡ content self.old other };
}

/// What is called around each answer, so that a test can hold one client back or let it on. It promises nothing.
pub trait Gate {
    /// Called before the answer to this line of this client. Lines are counted from 1.
    fn before(&self, client: u32, line: u64);

    /// Called after the answer to this line of this client.
    fn after(&self, client: u32, line: u64);
}

/// The gate that does nothing.
#[derive(Clone, Copy, Debug)]
pub struct NoGate;

impl Gate for NoGate {
    fn before(&self, _client: u32, _line: u64) {}

    fn after(&self, _client: u32, _line: u64) {}
}
