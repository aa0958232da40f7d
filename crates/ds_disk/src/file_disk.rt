//! A disk that is a file of the operating system.
ghost use Rattle.std.specs.Prelude.{◌≡◌, ◌≤◌, [], false, Ok, IfOk, OnOk, OnErr};
ghost use Rattle.ds_io.specs.Faults.{next_count};

use crate::disk::Disk;
use crate::system_file::{Cause, SystemFile};
use ds_io::Failed;
use std::fs::File;
use std::marker::Model;
use std::rt;

/// A file of the operating system. It is opened at the first call, and made where it isn't there; it is locked, so that no
/// other server and no other `FileDisk` has it; a sync is one of the file, and its folder is synced when it is opened.
///
/// Contracts see its count of faults. It tells nothing of contents and images, and is nowhere called honest: that a file
/// with a file system and a drive under it is an honest disk is trusted, and no clause says it. So is that the system's own
/// copy of the file is what the drive has, where a sync of an earlier server failed; an error that the system still has to
/// tell of is told when the file is opened.
#[derive(Drop)]
pub struct FileDisk<R> {
    file: SystemFile<R>,
    cause: Option<Cause>,
    faults: u64,
}

impl<R> Model for FileDisk<R> {
    ghost use Rattle.std.specs.Prelude.{ℕ};

    ghost Value = { ℕ };

    ghost view = { λ d. d.faults };
}

impl<R> FileDisk<R> {
    /// The file of this name. It isn't opened yet, and there was no fault so far.
    pub fn new(runtime: R, name: String) -> FileDisk<R>
        ensures { result ≡ 0 }
    {
        FileDisk {
            file: SystemFile::new(runtime, name),
            cause: None,
            faults: 0,
        }
    }

    /// Why the last call that failed did so, to be told to a user; none where none failed. No clause says it: the operating
    /// system gives the cause, and contracts see the count of faults alone.
    pub fn cause(&self) -> Option<Cause> {
        self.cause
    }
}

// Notes why a call failed, and counts it.
fn note<T>(
    outcome: Result<T, Cause>,
    cause: &mut Option<Cause>,
    faults: &mut u64,
) -> Result<T, Failed>
    ensures ok { IfOk result (λ x. outcome ≡ Ok x) }
    ensures counts_a_failure { OnErr result (faults.new ≡ next_count faults.old) }
    ensures counts_nothing_else { OnOk result (faults.new ≡ faults.old) }
    ensures faults_stay_counted { faults.old ≤ faults.new }
{
    match outcome {
        Ok(x) => Ok(x),
        Err(why) => {
            *cause = Some(why);
            *faults = faults.saturating_add(1);
            Err(Failed)
        }
    }
}

impl<R: rt::Files<File = File>> Disk for FileDisk<R> {
    ghost is_honest = { λ _. false };

    ghost contents = { λ _. [] };

    ghost images = { λ _ _. ⊥ };

    ghost moment = { λ _. 0 };

    ghost left_since = { λ _ _ _. ⊥ };

    ghost faults = { λ d. d };

    ghost contents_may_stay = { λ _ honest. Prim.cc };

    ghost counts_now = { λ _ _ _ _ now. now };

    ghost only_now = { λ _ _ left. left };

    /// The length that the system tells.
    fn len(&mut self) -> Result<u64, Failed> {
        let outcome = self.file.len();
        note(outcome, &mut self.cause, &mut self.faults)
    }

    /// One read of the system.
    fn read(&mut self, at: u64, buf: &mut [u8]) -> Result<usize, Failed> {
        let outcome = self.file.read(at, buf);
        note(outcome, &mut self.cause, &mut self.faults)
    }

    /// Writes of the system until the whole piece is written. A place past 2^63 - 1 is refused.
    fn write_at(&mut self, at: u64, piece: &[u8]) -> Result<(), Failed> {
        let outcome = self.file.write_at(at, piece);
        note(outcome, &mut self.cause, &mut self.faults)
    }

    /// Sets the length, unless it is shorter.
    fn cut(&mut self, len: u64) -> Result<(), Failed> {
        let outcome = self.file.cut(len);
        note(outcome, &mut self.cause, &mut self.faults)
    }

    /// Syncs bytes and length. After one that failed each later call fails too.
    fn sync(&mut self) -> Result<(), Failed> {
        let outcome = self.file.sync();
        note(outcome, &mut self.cause, &mut self.faults)
    }
}
