//! A run over a source and a sink in memory.
use ds_base::{ByteString, ByteStrings, Names, Numbers};
use ds_io::{Gate, MemoryFiles, MemorySink, MemorySource, Sink, Source};
use ds_serve::{Run, Status, serve};
use std::alloc::{AllocError, Global};
use std::sync::Wait;
use std::sync::atomic::{AtomicU64, Ordering};
use std::thread::Threads;

/// Three lines, the last one without a newline.
pub const FIRST: &[u8] =
    br#"{"op":"put","entity":{"key":[["Task","a"]],"properties":{"n":5,"s":"x"}}}
{"op":"settle"}
{"op":"query","kind":"Task"}"#;

/// The replies to them.
pub const REPLIES: &[u8] = br#"{"client":0,"commit":1,"key":[["Task","a"]],"line":1,"ok":"put"}
{"applied":[1],"client":0,"line":2,"ok":"settle","place":1}
{"applied":[1],"client":0,"line":3,"ok":"query","results":[{"key":[["Task","a"]],"properties":{"n":5,"s":"x"}}]}
"#;

/// The same lines as three rounds.
pub const ROUNDS: [&[u8]; 3] = [
    br#"{"op":"put","entity":{"key":[["Task","a"]],"properties":{"n":5,"s":"x"}}}

"#,
    br#"{"op":"settle"}

"#,
    br#"{"op":"query","kind":"Task"}"#,
];

/// The replies to each of them.
pub const ROUND_REPLIES: [&[u8]; 3] = [
    br#"{"client":0,"commit":1,"key":[["Task","a"]],"line":1,"ok":"put"}
"#,
    br#"{"applied":[1],"client":0,"line":3,"ok":"settle","place":1}
"#,
    br#"{"applied":[1],"client":0,"line":5,"ok":"query","results":[{"key":[["Task","a"]],"properties":{"n":5,"s":"x"}}]}
"#,
];

/// The first of the pieces, so many, one behind another.
pub(crate) fn joined(alloc: Global, pieces: &[&[u8]], count: usize) -> Result<Vec<u8>, AllocError> {
    let mut text = Vec::new(alloc);
    for piece in pieces.iter().take(count) {
        text.extend_from_slice(piece)?;
    }
    Ok(text)
}

/// How an input is given and an output taken: so many bytes a call, and which call fails, 0 for none.
#[derive(Clone, Copy)]
pub struct Outside {
    pub read: usize,
    pub failing_read: u64,
    pub written: usize,
    pub failing_write: u64,
}

/// Everything is given and taken in pieces of 1,000,000 bytes, and nothing fails.
pub const STEADY: Outside = Outside {
    read: 1_000_000,
    failing_read: 0,
    written: 1_000_000,
    failing_write: 0,
};

/// How a run ended, the bytes that were taken, and what the gate summed before and after the answers.
#[derive(Drop)]
pub struct Ended {
    pub run: Run,
    pub written: MemorySink,
    pub begun: u64,
    pub done: u64,
}

/// A gate that sums the lines that it is called for, and a thousand for each client's number.
#[derive(Drop)]
struct Summing {
    begun: AtomicU64,
    done: AtomicU64,
}

impl Gate for Summing {
    fn before(&self, client: u32, line: u64) {
        self.begun
            .fetch_add(summand(client, line), Ordering::SeqCst);
    }

    fn after(&self, client: u32, line: u64) {
        self.done.fetch_add(summand(client, line), Ordering::SeqCst);
    }
}

fn summand(client: u32, line: u64) -> u64 {
    u64::from(client).wrapping_mul(1000).wrapping_add(line)
}

/// The words for one shard and no appliers.
pub(crate) const ONE_SHARD: [&str; 4] = ["--shards", "1", "--appliers", "0"];

fn words_of(alloc: Global, texts: &[&str]) -> Result<Vec<String>, AllocError> {
    let mut words = Vec::new(alloc);
    for word in texts {
        words.push(String::from_str(alloc, word)?)?;
    }
    Ok(words)
}

fn no_files(alloc: Global) -> MemoryFiles {
    MemoryFiles::make(
        Names::new(alloc),
        ByteStrings::new(alloc),
        Numbers::new(alloc),
    )
}

/// Runs a server that is started with these words, over no files.
pub(crate) fn run_with<R: Threads + Wait + Sync, I: Source, O: Sink, G: Gate + Sync>(
    rt: &R,
    alloc: Global,
    texts: &[&str],
    input: &mut I,
    output: &mut O,
    gate: &G,
) -> Result<Run, AllocError> {
    let words = words_of(alloc, texts)?;
    let mut files = no_files(alloc);
    Ok(serve(rt, alloc, words.as_slice(), &mut files, input, output, gate))
}

fn only(alloc: Global, number: u64) -> Result<Numbers, AllocError> {
    Ok(Numbers::from(Vec::from_slice(alloc, &[number])?))
}

pub(crate) fn source(
    alloc: Global,
    text: &[u8],
    outside: Outside,
) -> Result<MemorySource, AllocError> {
    let failing = only(alloc, outside.failing_read)?;
    let bytes = ByteString::of(alloc, text)?;
    Ok(MemorySource::make(bytes, outside.read.max(1), failing))
}

pub(crate) fn sink(alloc: Global, outside: Outside) -> Result<MemorySink, AllocError> {
    let failing = only(alloc, outside.failing_write)?;
    Ok(MemorySink::make(alloc, outside.written, failing))
}

/// Serves a text with these words.
pub(crate) fn served_with<R: Threads + Wait + Sync>(
    rt: &R,
    alloc: Global,
    texts: &[&str],
    text: &[u8],
    outside: Outside,
) -> Result<Ended, AllocError> {
    let mut input = source(alloc, text, outside)?;
    let mut written = sink(alloc, outside)?;
    let gate = Summing {
        begun: AtomicU64::new(0),
        done: AtomicU64::new(0),
    };
    let run = run_with(rt, alloc, texts, &mut input, &mut written, &gate)?;
    Ok(Ended {
        run,
        written,
        begun: gate.begun.load(Ordering::SeqCst),
        done: gate.done.load(Ordering::SeqCst),
    })
}

/// Serves a text with one shard and no appliers.
pub(crate) fn served<R: Threads + Wait + Sync>(
    rt: &R,
    alloc: Global,
    text: &[u8],
    outside: Outside,
) -> Result<Ended, AllocError> {
    served_with(rt, alloc, &ONE_SHARD, text, outside)
}

/// Whether the taken bytes, followed by the unsent ones, are this text.
pub(crate) fn is_text(ended: &Ended, text: &[u8]) -> bool {
    let taken = ended.written.written().bytes();
    if !text.starts_with(taken) {
        return false;
    }
    let rest = &text[taken.len()..];
    if ended.run.unsent.len() != rest.len() {
        return false;
    }
    for (i, byte) in rest.iter().enumerate() {
        if ended.run.unsent.byte(i) != Some(*byte) {
            return false;
        }
    }
    true
}

/// Whether the run ended with this status, and the taken bytes, followed by the unsent ones, are this text.
pub(crate) fn ends_with(ended: &Ended, status: Status, text: &[u8]) -> bool {
    ended.run.status == status && is_text(ended, text)
}

/// How many commits the run's journal has.
pub(crate) fn commits(ended: &Ended) -> Option<usize> {
    ended.run.journal.as_ref().map(|journal| journal.len())
}
