//! Clients of a round, and an applier, at once.
ghost use Rattle.std.specs.Prelude.{None};

use crate::serving::{ONE_SHARD, STEADY, is_text, joined, run_with, served, sink, source};
use ds_io::{Failed, Gate, NoGate, Sink, Source};
use ds_serve::Status;
use std::alloc::{AllocError, Global};
use std::sync::Wait;
use std::sync::atomic::{AtomicBool, AtomicU64, Ordering};
use std::test::Fail;
use std::thread::{self, Threads};

/// How often the first client's gate looks whether the second client was answered.
const TURNS: u32 = 10_000_000;

/// Holds the answer to line 1, of client 0, until client 1 was answered or so many turns have passed.
#[derive(Drop)]
struct Holding {
    is_answered: AtomicBool,
    has_met: AtomicBool,
}

impl Gate for Holding {
    fn before(&self, client: u32, line: u64) {
        if client != 0 || line != 1 {
            return;
        }
        for _ in 0..TURNS {
            if self.is_answered.load(Ordering::SeqCst) {
                self.has_met.store(true, Ordering::SeqCst);
                return;
            }
            thread::yield_now();
        }
    }

    fn after(&self, client: u32, line: u64) {
        if client == 1 && line == 2 {
            self.is_answered.store(true, Ordering::SeqCst);
        }
    }
}

/// A get of either client.
const GETS: &[u8] =
    b"{\"op\":\"get\",\"key\":[[\"T\",\"a\"]]}\n{\"client\":1,\"op\":\"get\",\"key\":[[\"T\",\"a\"]]}\n";

/// Whether client 1 was answered while client 0 waited, in the same round.
fn meets<R: Threads + Wait + Sync>(rt: &R, alloc: Global) -> Result<bool, AllocError> {
    let mut input = source(alloc, GETS, STEADY)?;
    let mut output = sink(alloc, STEADY)?;
    let gate = Holding {
        is_answered: AtomicBool::new(false),
        has_met: AtomicBool::new(false),
    };
    let run = run_with(rt, alloc, &ONE_SHARD, &mut input, &mut output, &gate)?;
    Ok(run.status == Status::Done && gate.has_met.load(Ordering::SeqCst))
}

/// Holds each answer until so many clients are held at once, or so many turns have passed, and counts those that saw the others.
#[derive(Drop)]
struct Meeting {
    wanted: u64,
    held: AtomicU64,
    met: AtomicU64,
}

impl Gate for Meeting {
    fn before(&self, _client: u32, _line: u64) {
        self.held.fetch_add(1, Ordering::SeqCst);
        for _ in 0..TURNS {
            if self.held.load(Ordering::SeqCst) >= self.wanted {
                self.met.fetch_add(1, Ordering::SeqCst);
                return;
            }
            thread::yield_now();
        }
    }

    fn after(&self, _client: u32, _line: u64) {}
}

/// A line of each of sixteen clients.
const LINES: [&[u8]; 16] = [
    b"{\"op\":\"begin\"}\n",
    b"{\"op\":\"begin\",\"client\":1}\n",
    b"{\"op\":\"begin\",\"client\":2}\n",
    b"{\"op\":\"begin\",\"client\":3}\n",
    b"{\"op\":\"begin\",\"client\":4}\n",
    b"{\"op\":\"begin\",\"client\":5}\n",
    b"{\"op\":\"begin\",\"client\":6}\n",
    b"{\"op\":\"begin\",\"client\":7}\n",
    b"{\"op\":\"begin\",\"client\":8}\n",
    b"{\"op\":\"begin\",\"client\":9}\n",
    b"{\"op\":\"begin\",\"client\":10}\n",
    b"{\"op\":\"begin\",\"client\":11}\n",
    b"{\"op\":\"begin\",\"client\":12}\n",
    b"{\"op\":\"begin\",\"client\":13}\n",
    b"{\"op\":\"begin\",\"client\":14}\n",
    b"{\"op\":\"begin\",\"client\":15}\n",
];

/// Whether so many clients, each with a line of one round, are answered at once, with eight appliers beside them.
fn all_meet<R: Threads + Wait + Sync>(
    rt: &R,
    alloc: Global,
    clients: usize,
) -> Result<bool, AllocError> {
    let text = joined(alloc, &LINES, clients)?;
    let mut input = source(alloc, text.as_slice(), STEADY)?;
    let mut output = sink(alloc, STEADY)?;
    let wanted = clients as u64;
    let gate = Meeting {
        wanted,
        held: AtomicU64::new(0),
        met: AtomicU64::new(0),
    };
    let words = ["--shards", "4", "--appliers", "8"];
    let run = run_with(rt, alloc, &words, &mut input, &mut output, &gate)?;
    Ok(run.status == Status::Done && gate.met.load(Ordering::SeqCst) == wanted)
}

/// Two transactions that read and write one group, begun in one round and committed in the next.
const RIVALS: &[u8] = br#"{"op":"put","entity":{"key":[["T","a"]],"properties":{"v":0}}}

{"op":"begin"}
{"op":"get","key":[["T","a"]]}
{"op":"put","entity":{"key":[["T","a"]],"properties":{"v":1}}}
{"client":1,"op":"begin"}
{"client":1,"op":"get","key":[["T","a"]]}
{"client":1,"op":"put","entity":{"key":[["T","a"]],"properties":{"v":2}}}

{"op":"commit"}
{"client":1,"op":"commit"}
"#;

/// The replies where client 0 commits first.
const FIRST_COMMITS: &[u8] = br#"{"client":0,"commit":1,"key":[["T","a"]],"line":1,"ok":"put"}
{"client":0,"line":3,"ok":"begin"}
{"client":0,"entity":{"key":[["T","a"]],"properties":{"v":0}},"line":4,"ok":"get","place":1}
{"client":0,"key":[["T","a"]],"line":5,"ok":"put","place":1}
{"client":1,"line":6,"ok":"begin"}
{"client":1,"entity":{"key":[["T","a"]],"properties":{"v":0}},"line":7,"ok":"get","place":1}
{"client":1,"key":[["T","a"]],"line":8,"ok":"put","place":1}
{"client":0,"commit":2,"line":10,"ok":"commit"}
{"client":1,"commit":2,"error":13,"group":[["T","a"]],"line":11,"name":"Conflict","place":2}
"#;

/// The replies where client 1 commits first.
const SECOND_COMMITS: &[u8] = br#"{"client":0,"commit":1,"key":[["T","a"]],"line":1,"ok":"put"}
{"client":0,"line":3,"ok":"begin"}
{"client":0,"entity":{"key":[["T","a"]],"properties":{"v":0}},"line":4,"ok":"get","place":1}
{"client":0,"key":[["T","a"]],"line":5,"ok":"put","place":1}
{"client":1,"line":6,"ok":"begin"}
{"client":1,"entity":{"key":[["T","a"]],"properties":{"v":0}},"line":7,"ok":"get","place":1}
{"client":1,"key":[["T","a"]],"line":8,"ok":"put","place":1}
{"client":0,"commit":2,"error":13,"group":[["T","a"]],"line":10,"name":"Conflict","place":2}
{"client":1,"commit":2,"line":11,"ok":"commit"}
"#;

fn one_is_committed<R: Threads + Wait + Sync>(rt: &R, alloc: Global) -> Result<bool, AllocError> {
    let ended = served(rt, alloc, RIVALS, STEADY)?;
    Ok(is_text(&ended, FIRST_COMMITS) || is_text(&ended, SECOND_COMMITS))
}

/// Whether just one of the two commits, so many times.
fn one_commits<R: Threads + Wait + Sync>(
    rt: &R,
    alloc: Global,
    times: u32,
) -> Result<bool, AllocError> {
    for _ in 0..times {
        if !one_is_committed(rt, alloc)? {
            return Ok(false);
        }
    }
    Ok(true)
}

/// How many global queries are asked at most.
const QUERIES: u64 = 100_000;

/// The first round, a put, and each later one, a query.
const PUT: &[u8] = b"{\"op\":\"put\",\"entity\":{\"key\":[[\"T\",\"a\"]]}}\n\n";

const QUERY: &[u8] = b"{\"op\":\"query\",\"kind\":\"T\",\"select\":\"keys\"}\n\n";

/// Gives the put, and then queries until a reply counts an applied entry, or so many.
#[derive(Drop)]
struct Asking<'a> {
    asked: u64,
    counted: &'a AtomicU64,
}

impl Source for Asking<'_> {
    ghost left = { λ _. None };

    ghost faults = { λ _. 0 };

    fn read(&mut self, buf: &mut [u8]) -> Result<usize, Failed> {
        let piece = if self.asked == 0 { PUT } else { QUERY };
        if self.asked > QUERIES || self.counted.load(Ordering::SeqCst) != 0 {
            return Ok(0);
        }
        self.asked = self.asked.saturating_add(1);
        let n = piece.len().min(buf.len());
        buf[..n].copy_from_slice(&piece[..n]);
        Ok(n)
    }
}

/// Looks whether a reply counts an applied entry.
#[derive(Drop)]
struct Looking<'a> {
    counted: &'a AtomicU64,
}

impl Sink for Looking<'_> {
    ghost held = { λ _. None };

    ghost faults = { λ _. 0 };

    fn write(&mut self, piece: &[u8]) -> Result<usize, Failed> {
        if piece.starts_with(b"{\"applied\":[1]") {
            self.counted.store(1, Ordering::SeqCst);
        }
        Ok(piece.len())
    }

    fn flush(&mut self) -> Result<(), Failed> {
        Ok(())
    }
}

/// Whether an applier applies the put's entry while a client asks.
fn applies<R: Threads + Wait + Sync>(rt: &R, alloc: Global) -> Result<bool, AllocError> {
    let words = ["--shards", "1", "--appliers", "1"];
    let counted = AtomicU64::new(0);
    let mut input = Asking {
        asked: 0,
        counted: &counted,
    };
    let mut output = Looking { counted: &counted };
    let run = run_with(rt, alloc, &words, &mut input, &mut output, &NoGate)?;
    Ok(run.status == Status::Done && counted.load(Ordering::SeqCst) == 1)
}

#[test]
fn clients_and_an_applier_work_at_once(rt: HostRuntime) -> Result<(), Fail> {
    assert!(rt; meets(&rt, rt.alloc())?);
    for clients in [3_usize, 8, 16] {
        assert!(rt; all_meet(&rt, rt.alloc(), clients)?);
    }
    assert!(rt; one_commits(&rt, rt.alloc(), 200)?);
    assert!(rt; applies(&rt, rt.alloc())?);
    Ok(())
}
