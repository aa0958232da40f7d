//! A short run over a disk, and what a file opens as.
ghost use Rattle.std.specs.Prelude.{◌≤◌, All, IfOk, length};
ghost use Rattle.ds_base.specs.Limits.{most_writes};

use ds_base::limits::FIRST_DRAWN_ID;
use ds_base::{ByteString, NoMemory, Numbers};
use ds_disk::{Disk, MemoryDisk};
use ds_journal_text::{JournalRefused, read_journal};
use ds_keep::{KeepRefused, Keeper, Opened, Stopped};
use ds_log::{Commits, Journal};
use std::alloc::{AllocError, Global};

/// Three commits: a put, a delete of what was put, and a put under a drawn id.
pub(crate) const LINES: &str =
    r#"{"client":0,"commit":1,"touched":[],"writes":[{"put":{"key":[["T","a"]],"properties":{"v":1}}}]}
{"client":1,"commit":2,"touched":[],"writes":[{"delete":[["T","a"]]}]}
{"client":0,"commit":3,"touched":[[[["T","a"]],2]],"writes":[{"put":{"key":[["T",4503599627370500]],"properties":{}}}]}
"#;

/// The id counter behind them.
pub(crate) const NEXT: u64 = FIRST_DRAWN_ID + 5;

/// What a file opens as.
#[derive(Clone, Copy, PartialEq, Eq, Debug)]
pub(crate) enum Found {
    /// No commit, and the first counter.
    Empty,
    /// Three commits and their counter.
    Three,
    /// Another number of commits, or another counter.
    Other,
    /// A damaged file, first at this place.
    Damaged(u64),
    /// A call of the disk failed.
    Fault,
}

/// A disk that holds these bytes. One call fails, and all do after so many.
pub(crate) fn disk_of(
    alloc: Global,
    bytes: &[u8],
    failing: u64,
    stop: u64,
) -> Result<MemoryDisk, AllocError> {
    let fails = Numbers::from(Vec::from_slice(alloc, &[failing])?);
    MemoryDisk::make(alloc, ByteString::of(alloc, bytes)?, fails, 1_000_000, stop)
}

/// What a disk opens as.
pub(crate) fn opens<D: Disk>(alloc: Global, disk: &mut D) -> Result<Found, NoMemory> {
    match Keeper::open(alloc, disk) {
        Ok(opened) => Ok(is_found(&opened)),
        Err(KeepRefused::Damaged { at }) => Ok(Found::Damaged(at)),
        Err(KeepRefused::DiskFault) => Ok(Found::Fault),
        Err(KeepRefused::NoMemory) => Err(AllocError),
    }
}

fn is_found(opened: &Opened) -> Found {
    match (opened.journal.len(), opened.next) {
        (0, FIRST_DRAWN_ID) => Found::Empty,
        (3, NEXT) => Found::Three,
        _ => Found::Other,
    }
}

/// The three commits.
fn three(alloc: Global) -> Result<Commits, NoMemory>
    ensures { IfOk result (λ commits. All (λ c. length c.writes ≤ most_writes) commits) }
{
    match read_journal(alloc, LINES.as_bytes()) {
        Ok(journal) => Ok(journal),
        Err(JournalRefused::Line(_)) => Ok(Journal::new(alloc)),
        Err(JournalRefused::NoMemory) => Err(AllocError),
    }
}

/// Opens a disk and appends the three commits as one batch. False where a call of the disk failed, or where its counter is past theirs.
pub(crate) fn keeps_three<D: Disk>(alloc: Global, disk: &mut D) -> Result<bool, NoMemory> {
    let commits = three(alloc)?;
    let keeper = match Keeper::open(alloc, disk) {
        Ok(opened) => opened.keeper,
        Err(KeepRefused::NoMemory) => return Err(AllocError),
        Err(_) => return Ok(false),
    };
    if keeper.kept_next() > NEXT {
        return Ok(false);
    }
    match keeper.append(alloc, disk, &commits, NEXT) {
        Ok(keeper) => Ok(keeper.kept() == 3 && keeper.kept_next() == NEXT),
        Err(Stopped::DiskFault) => Ok(false),
        Err(Stopped::NoMemory(_)) => Err(AllocError),
    }
}
