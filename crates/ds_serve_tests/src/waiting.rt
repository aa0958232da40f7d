//! A source that gives its second round only once the sink has the replies to the first.
ghost use Rattle.std.specs.Prelude.{None};

use crate::serving::{ONE_SHARD, ROUND_REPLIES, ROUNDS, run_with};
use ds_io::{Failed, NoGate, Sink, Source};
use ds_serve::Status;
use std::alloc::{AllocError, Global};
use std::sync::Wait;
use std::sync::atomic::{AtomicU64, Ordering};
use std::test::Fail;
use std::thread::Threads;

/// Gives a round a call. A call fails whose round's replies to those before were not taken yet.
#[derive(Drop)]
struct Waiting<'a> {
    round: usize,
    taken: &'a AtomicU64,
    faults: u64,
}

impl Source for Waiting<'_> {
    ghost left = { λ _. None };

    ghost faults = { λ s. s.faults };

    fn read(&mut self, buf: &mut [u8]) -> Result<usize, Failed> {
        if self.taken.load(Ordering::SeqCst) < replies_before(self.round) {
            self.faults = self.faults.saturating_add(1);
            return Err(Failed);
        }
        let piece = ROUNDS.get(self.round).copied().unwrap_or(b"");
        self.round = self.round.saturating_add(1);
        let n = piece.len().min(buf.len());
        buf[..n].copy_from_slice(&piece[..n]);
        Ok(n)
    }
}

/// How many bytes the replies take to the rounds before this one, but for the last, whose end only the input's end tells.
fn replies_before(round: usize) -> u64 {
    match round {
        0 => 0,
        1 => ROUND_REPLIES[0].len() as u64,
        _ => (ROUND_REPLIES[0].len() + ROUND_REPLIES[1].len()) as u64,
    }
}

/// Counts the bytes that it takes, and how often it is flushed.
#[derive(Drop)]
struct Counting<'a> {
    taken: &'a AtomicU64,
    flushes: &'a AtomicU64,
}

impl Sink for Counting<'_> {
    ghost held = { λ _. None };

    ghost faults = { λ _. 0 };

    fn write(&mut self, piece: &[u8]) -> Result<usize, Failed> {
        self.taken.fetch_add(piece.len() as u64, Ordering::SeqCst);
        Ok(piece.len())
    }

    fn flush(&mut self) -> Result<(), Failed> {
        self.flushes.fetch_add(1, Ordering::SeqCst);
        Ok(())
    }
}

/// Whether no call of the source fails, all is taken, and the sink is flushed once a round.
fn waits<R: Threads + Wait + Sync>(rt: &R, alloc: Global) -> Result<bool, AllocError> {
    let taken = AtomicU64::new(0);
    let flushes = AtomicU64::new(0);
    let mut input = Waiting {
        round: 0,
        taken: &taken,
        faults: 0,
    };
    let mut output = Counting {
        taken: &taken,
        flushes: &flushes,
    };
    let run = run_with(rt, alloc, &ONE_SHARD, &mut input, &mut output, &NoGate)?;
    let counted = taken.load(Ordering::SeqCst) == 238 && flushes.load(Ordering::SeqCst) == 3;
    Ok(run.status == Status::Done && counted)
}

#[test]
fn writes_a_round_before_it_reads_the_next(rt: HostRuntime) -> Result<(), Fail> {
    assert!(rt; waits(&rt, rt.alloc())?);
    Ok(())
}
