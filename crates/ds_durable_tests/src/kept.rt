//! Runs over a disk, a source and a sink in memory, and how each is to end.
use ds_base::{ByteString, ByteStrings, Names, Numbers, TextString};
use ds_disk::MemoryDisk;
use ds_durable::{KeptRun, KeptStatus, Status, serve_kept};
use ds_io::{MemoryFiles, MemorySink, MemorySource, NoGate};
use std::alloc::{AllocError, Global};
use std::sync::Wait;
use std::thread::Threads;

/// The words of a run with one shard and no appliers.
pub(crate) const WORDS: [&str; 6] = ["--kept", "journal", "--shards", "1", "--appliers", "0"];

/// The same with an index file.
pub(crate) const INDEXED: [&str; 8] = [
    "--kept",
    "journal",
    "--shards",
    "1",
    "--appliers",
    "0",
    "--indexes",
    "index.yaml",
];

const INDEXES: &[u8] = br#"indexes:
- kind: T
  properties:
  - name: a
  - name: b
  - name: c
  - name: d
  - name: e
"#;

/// A run that ended well.
pub(crate) const DONE: KeptStatus = KeptStatus::Served(Status::Done);

/// A put, and the reply to it where it is the first commit.
pub(crate) const PUT_A: &[u8] = br#"{"op":"put","entity":{"key":[["T","a"]],"properties":{"v":1}}}
"#;

pub(crate) const PUT_A_REPLY: &[u8] =
    br#"{"client":0,"commit":1,"key":[["T","a"]],"line":1,"ok":"put"}
"#;

/// A run: its words and its input, and how it is to end.
#[derive(Clone, Copy)]
pub(crate) struct Planned<'a> {
    pub words: &'a [&'a str],
    pub text: &'a [u8],
    pub status: KeptStatus,
    /// How many commits are kept at its start.
    pub start: u64,
    /// How many its journal has, if it has one.
    pub commits: Option<usize>,
    /// The bytes that are written.
    pub replies: &'a [u8],
}

/// A run with one shard and no appliers that is to be done.
pub(crate) fn done<'a>(
    text: &'a [u8],
    start: u64,
    commits: usize,
    replies: &'a [u8],
) -> Planned<'a> {
    Planned {
        words: &WORDS,
        text,
        status: DONE,
        start,
        commits: Some(commits),
        replies,
    }
}

/// How a run ended, and the bytes that were taken.
#[derive(Drop)]
pub(crate) struct Ended {
    pub run: KeptRun,
    pub written: MemorySink,
}

fn words_of(alloc: Global, texts: &[&str]) -> Result<Vec<String>, AllocError> {
    let mut words = Vec::new(alloc);
    for word in texts {
        words.push(String::from_str(alloc, word)?)?;
    }
    Ok(words)
}

/// The index file.
fn index_file(alloc: Global) -> Result<MemoryFiles, AllocError> {
    let names = Names::of_one(alloc, TextString::of(alloc, "index.yaml")?)?;
    let contents = ByteStrings::of_one(alloc, ByteString::of(alloc, INDEXES)?)?;
    Ok(MemoryFiles::make(names, contents, Numbers::new(alloc)))
}

/// A disk that holds these bytes, of which one call fails, 0 for none.
pub(crate) fn disk_with(
    alloc: Global,
    bytes: &[u8],
    failing: u64,
) -> Result<MemoryDisk, AllocError> {
    let bytes = ByteString::of(alloc, bytes)?;
    let fails = Numbers::from(Vec::from_slice(alloc, &[failing])?);
    MemoryDisk::make(alloc, bytes, fails, 1_000_000, 1_000_000)
}

/// Serves a text over a disk.
pub(crate) fn served<R: Threads + Wait + Sync>(
    rt: &R,
    alloc: Global,
    disk: &mut MemoryDisk,
    words: &[&str],
    text: &[u8],
) -> Result<Ended, AllocError> {
    let words = words_of(alloc, words)?;
    let mut files = index_file(alloc)?;
    let text = ByteString::of(alloc, text)?;
    Ok(served_over(rt, alloc, disk, words.as_slice(), &mut files, text))
}

fn served_over<R: Threads + Wait + Sync>(
    rt: &R,
    alloc: Global,
    disk: &mut MemoryDisk,
    words: &[String],
    files: &mut MemoryFiles,
    text: ByteString,
) -> Ended {
    let mut input = MemorySource::make(text, 1_000_000, Numbers::new(alloc));
    let mut written = MemorySink::make(alloc, 1_000_000, Numbers::new(alloc));
    let run = serve_kept(
        rt,
        alloc,
        words,
        disk,
        files,
        &mut input,
        &mut written,
        &NoGate,
    );
    Ended { run, written }
}

/// How many commits the run's journal has, if it has one.
pub(crate) fn commits(ended: &Ended) -> Option<usize> {
    ended.run.journal.as_ref().map(|journal| journal.len())
}

/// Whether the run ended so, and these bytes were taken.
pub(crate) fn ends_with(ended: &Ended, status: KeptStatus, start: u64, text: &[u8]) -> bool {
    ended.run.status == status
        && ended.run.start == start
        && ended.written.written().bytes() == text
}

/// Whether a run over a disk ends as it is to.
fn ends_so<R: Threads + Wait + Sync>(
    rt: &R,
    alloc: Global,
    disk: &mut MemoryDisk,
    planned: Planned<'_>,
) -> Result<bool, AllocError> {
    let ended = served(rt, alloc, disk, planned.words, planned.text)?;
    Ok(
        ends_with(&ended, planned.status, planned.start, planned.replies)
            && commits(&ended) == planned.commits,
    )
}

/// Whether runs one behind another over a disk that held these bytes end as they are to.
pub(crate) fn all_end_so<R: Threads + Wait + Sync>(
    rt: &R,
    alloc: Global,
    bytes: &[u8],
    runs: &[Planned<'_>],
) -> Result<bool, AllocError> {
    let mut disk = disk_with(alloc, bytes, 0)?;
    let mut all = true;
    for planned in runs {
        all = ends_so(rt, alloc, &mut disk, *planned)? && all;
    }
    Ok(all)
}
