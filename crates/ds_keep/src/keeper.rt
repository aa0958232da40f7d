//! The keeper of a journal on a disk.
ghost use Rattle.std.specs.Prelude.{◌≡◌, ◌+◌, ◌≤◌, ℕ, All, Err, length, IfOk, IsTrue, MatchResult};
ghost use Rattle.ds_base.specs.Limits.{greatest_id, most_commits, most_writes};
ghost use Rattle.ds_io.specs.Faults.{Rose};
ghost use Rattle.ds_disk.specs.Crashes.{LeavesOnly, Only};
ghost use Rattle.ds_kept_file.specs.Files.{Kept, Batch, StandsFor, IsDamaged, with_batch};
ghost use Rattle.ds_kept_file.specs.Readings.{found};
ghost use Rattle.ds_keep.specs.Keepers.{KeeperParts, AllStandFor, IsClosedAt, IsHistory, TellsDamage, IsSettled};
ghost use Rattle.ds_keep.specs.Keepers.{IsBatchPut, MayAppend, StandsForEither, batch_of};

use crate::appending::put;
use crate::opening::close;
use crate::reading::read_disk;
use crate::refusals::{KeepRefused, Stopped, Unread};
use ds_base::limits::MAX_COMMITS;
use ds_disk::Disk;
use ds_kept_file::{FileRead, read_file, write_batch};
use ds_log::{Commits, Journal};
use std::alloc::Global;
use std::marker::Model;

/// The greatest place of a gate: a file with one behind it is refused as out of memory.
const MAX_PLACE: u64 = 1 << 62;

/// What an opened disk keeps, and its keeper.
#[derive(Drop)]
pub struct Opened {
    /// Appends to it.
    pub keeper: Keeper,
    /// All commits that are kept.
    pub journal: Journal,
    /// The kept id counter: the next id that is drawn, from 2^52 to 2^63 - 1.
    pub next: u64,
}

/// Appends commits to the journal that a disk keeps. Contracts see the place of the file's closed gate, the number of kept commits and the
/// kept id counter.
#[derive(Drop)]
pub struct Keeper {
    gate: u64,
    commits: u64,
    next: u64,
}

impl Model for Keeper {
    ghost use Rattle.std.specs.Prelude.{◌≤◌, ◌^◌};
    ghost use Rattle.ds_base.specs.Limits.{most_commits};
    ghost use Rattle.ds_keep.specs.Keepers.{KeeperParts};

    ghost Value = { KeeperParts };

    ghost view = { λ k. record { gate = k.gate; commits = k.commits; next = k.next } };

    ghost invariant = { λ k. (k.commits ≤ most_commits) × (k.gate ≤ 2 ^ 62) };
}

impl Keeper {
    /// Opens a disk that a crash may have left: reads what its file keeps, and closes the file behind its last batch. An empty file keeps
    /// the empty journal and the counter 2^52. The disk is synced first, and again after each change.
    ///
    /// `DiskFault` comes only where the disk's count of faults rose. `Damaged` comes exactly where the file is damaged, with the place of
    /// the first damage, and then the file is as it was. `NoMemory` means out of memory, or a journal of more than 2^48 commits. At every
    /// moment, also inside the call, a crash leaves an image that stands for what all images stood for. It is linear in the file.
    pub fn open<D: Disk>(alloc: Global, disk: &mut D) -> Result<Opened, KeepRefused>
        ensures settled { IfOk result (λ o. IsTrue (D.is_honest disk.old)
            → IsSettled D.is_honest D.contents D.images o.keeper (record { journal = o.journal; next = o.next }) disk.new) }
        ensures numbers { IfOk result (λ o. (o.keeper.commits ≡ length o.journal) × (o.keeper.next ≡ o.next)) }
        ensures history { IfOk result (λ o. IsHistory (record { journal = o.journal; next = o.next })) }
        ensures read { IfOk result (λ o. IsTrue (D.is_honest disk.old)
            → StandsFor (record { journal = o.journal; next = o.next }) (D.contents disk.old)) }

        // Where all images stand for one journal and counter, it finds these, and each moment leaves nothing else.
        ensures alone { (kept : Kept) → IsTrue (D.is_honest disk.old) → AllStandFor kept (D.images disk.old)
            → IfOk result (λ o. record { journal = o.journal; next = o.next } ≡ kept) }
        ensures any_moment { (kept : Kept) → IsTrue (D.is_honest disk.old) → AllStandFor kept (D.images disk.old)
            → LeavesOnly D.moment D.left_since disk.old disk.new (StandsFor kept) }
        ensures undamaged { (kept : Kept) (place : ℕ) → IsTrue (D.is_honest disk.old) → AllStandFor kept (D.images disk.old)
            → result ≡ Err (KeepRefused.Damaged place) → ⊥ }

        // A damaged file is told, and never changed.
        ensures tells_damage { (kept : Kept) (place : ℕ) → IsTrue (D.is_honest disk.old) → IsDamaged (D.contents disk.old) place kept
            → MatchResult result (λ _. ⊥) (TellsDamage place) }
        ensures damaged { (place : ℕ) → result ≡ Err (KeepRefused.Damaged place) → IsTrue (D.is_honest disk.old)
            → (kept : Kept) × IsDamaged (D.contents disk.old) place kept }
        ensures untouched { (place : ℕ) → result ≡ Err (KeepRefused.Damaged place) → IsTrue (D.is_honest disk.old)
            → (D.contents disk.new ≡ D.contents disk.old) × LeavesOnly D.moment D.left_since disk.old disk.new (D.images disk.old) }

        ensures failed_by_a_fault { result ≡ Err KeepRefused.DiskFault → Rose (D.faults disk.old) (D.faults disk.new) }
        ensures faults_stay_counted { D.faults disk.old ≤ D.faults disk.new }
        ensures honest { D.is_honest disk.new ≡ D.is_honest disk.old }
    {
        let file = match read_disk(alloc, disk) {
            Ok(file) => file,
            Err(Unread::DiskFault) => return Err(KeepRefused::DiskFault),
            Err(Unread::NoMemory) => return Err(KeepRefused::NoMemory),
        };
        let read = read_file(alloc, file.as_slice())?;
        if read.damaged {
            return Err(KeepRefused::Damaged { at: read.gate });
        }
        settle(disk, read)
    }

    /// Appends commits that continue the kept journal, and the id counter from then on, as one batch. At `Ok` they are kept: from then on
    /// each crash leaves an image that has them. At every moment of the call a crash leaves an image with all of them or with none.
    ///
    /// What it promises of images is of commits with which the kept journal is one serial history and whose written ids are below `next`.
    /// `DiskFault` comes only where the disk's count of faults rose in this call, and ends the keeper: the disk is to be opened again.
    /// `NoMemory` means out of memory, or a journal that would have more than 2^48 commits; it comes before the disk is touched, and hands
    /// the keeper back. It syncs twice, and is linear in the new commits.
    pub fn append<D: Disk>(
        self,
        alloc: Global,
        disk: &mut D,
        commits: &Commits,
        next: u64,
    ) -> Result<Keeper, Stopped>
        requires few { All (λ c. length c.writes ≤ most_writes) commits.now }
        requires rises { self.next ≤ next }
        requires bounded { next ≤ greatest_id }
        ensures numbers { IfOk result (λ k. (k.commits ≡ self.commits + length commits.now) × (k.next ≡ next)) }
        ensures settled { IfOk result (λ k. (kept : Kept) → IsSettled D.is_honest D.contents D.images self kept disk.old
            → MayAppend kept commits.now next
            → IsSettled D.is_honest D.contents D.images k (with_batch kept (batch_of commits.now next)) disk.new) }
        ensures any_moment { (kept : Kept) → IsSettled D.is_honest D.contents D.images self kept disk.old
            → MayAppend kept commits.now next
            → LeavesOnly D.moment D.left_since disk.old disk.new (StandsForEither kept (batch_of commits.now next)) }
        ensures memory { (k : KeeperParts) → result ≡ Err (Stopped.NoMemory k) → (k ≡ self) × (disk.new ≡ disk.old) }
        ensures failed_by_a_fault { result ≡ Err Stopped.DiskFault → Rose (D.faults disk.old) (D.faults disk.new) }
        ensures faults_stay_counted { D.faults disk.old ≤ D.faults disk.new }
        ensures honest { D.is_honest disk.new ≡ D.is_honest disk.old }
    {
        if commits.len() as u64 > MAX_COMMITS - self.commits {
            return Err(Stopped::NoMemory(self));
        }
        match write_batch(alloc, commits.as_slice(), self.commits + 1, next) {
            Err(_) => Err(Stopped::NoMemory(self)),
            Ok(written) => self.put_written(disk, written.bytes(), commits.len() as u64, next),
        }
    }

    /// Puts the batch of so many commits, of which this is what is written behind the closed gate.
    fn put_written<D: Disk>(
        self,
        disk: &mut D,
        written: &[u8],
        more: u64,
        next: u64,
    ) -> Result<Keeper, Stopped>
        requires { self.commits + more ≤ most_commits }
        ensures numbers { IfOk result (λ k. (k.commits ≡ self.commits + more) × (k.next ≡ next)) }
        ensures settled { IfOk result (λ k. (kept : Kept) (batch : Batch) → IsSettled D.is_honest D.contents D.images self kept disk.old
            → IsBatchPut kept batch more next written.now → IsSettled D.is_honest D.contents D.images k (with_batch kept batch) disk.new) }
        ensures any_moment { (kept : Kept) (batch : Batch) → IsSettled D.is_honest D.contents D.images self kept disk.old
            → IsBatchPut kept batch more next written.now
            → LeavesOnly D.moment D.left_since disk.old disk.new (StandsForEither kept batch) }
        ensures memory { (k : KeeperParts) → result ≡ Err (Stopped.NoMemory k) → (k ≡ self) × (disk.new ≡ disk.old) }
        ensures failed_by_a_fault { result ≡ Err Stopped.DiskFault → Rose (D.faults disk.old) (D.faults disk.new) }
        ensures faults_stay_counted { D.faults disk.old ≤ D.faults disk.new }
        ensures honest { D.is_honest disk.new ≡ D.is_honest disk.old }
    {
        if written.len() as u64 > MAX_PLACE - self.gate {
            return Err(Stopped::NoMemory(self));
        }
        match put(disk, self.gate, written) {
            Ok(()) => Ok(Keeper {
                gate: self.gate + written.len() as u64,
                commits: self.commits + more,
                next,
            }),
            Err(_) => Err(Stopped::DiskFault),
        }
    }

    /// The number of kept commits. It takes no memory.
    pub fn kept(&self) -> u64
        ensures { result ≡ self.now.commits }
    {
        self.commits
    }

    /// The kept id counter. It takes no memory.
    pub fn kept_next(&self) -> u64
        ensures { result ≡ self.now.next }
    {
        self.next
    }
}

/// Closes the file of a disk behind what was read of it, which isn't damaged.
fn settle<D: Disk>(disk: &mut D, read: FileRead) -> Result<Opened, KeepRefused>
    requires few { length read.journal ≤ most_commits }
    ensures settled { IfOk result (λ o. IsTrue (D.is_honest disk.old) → IsClosedAt read.gate (found read) (D.contents disk.old)
        → IsSettled D.is_honest D.contents D.images o.keeper (found read) disk.new) }
    ensures same { IfOk result (λ o. (o.journal ≡ read.journal) × (o.next ≡ read.next)) }
    ensures numbers { IfOk result (λ o. (o.keeper.commits ≡ length o.journal) × (o.keeper.next ≡ o.next)) }
    ensures any_moment { IsTrue (D.is_honest disk.old) → Only (D.contents disk.old) (D.images disk.old)
        → IsClosedAt read.gate (found read) (D.contents disk.old)
        → LeavesOnly D.moment D.left_since disk.old disk.new (StandsFor (found read)) }
    ensures undamaged { (place : ℕ) → result ≡ Err (KeepRefused.Damaged place) → ⊥ }
    ensures failed_by_a_fault { result ≡ Err KeepRefused.DiskFault → Rose (D.faults disk.old) (D.faults disk.new) }
    ensures faults_stay_counted { D.faults disk.old ≤ D.faults disk.new }
    ensures honest { D.is_honest disk.new ≡ D.is_honest disk.old }
{
    let FileRead {
        journal,
        next,
        gate,
        damaged: _damaged,
    } = read;
    if gate > MAX_PLACE {
        return Err(KeepRefused::NoMemory);
    }
    close(disk, gate)?;
    let commits = journal.len() as u64;
    Ok(Opened {
        keeper: Keeper {
            gate,
            commits,
            next,
        },
        journal,
        next,
    })
}
