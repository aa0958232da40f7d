//! Long lines and long rounds.
use crate::serving::{Ended, Outside, STEADY, ends_with, served};
use ds_base::limits::{MAX_LINE_BYTES, MAX_ROUND_LINES};
use ds_serve::Status;
use std::alloc::{AllocError, Global};
use std::sync::Wait;
use std::test::Fail;
use std::thread::Threads;

/// So many bytes between two others.
fn filled(alloc: Global, end: u8, filling: u8, bytes: usize) -> Result<Vec<u8>, AllocError> {
    let mut text = Vec::new(alloc);
    text.push(end)?;
    let between = vec![in alloc; filling; bytes]?;
    text.extend_from_slice(between.as_slice())?;
    text.push(end)?;
    Ok(text)
}

/// The byte at both ends of a line, the one between, how often that stands there, and the reply.
type Row = (u8, u8, usize, &'static [u8]);

/// A JSON text of the most bytes of a line, one of a byte more, and as many blanks, which are an empty line.
const LONG: [Row; 3] = [
    (
        b'"',
        b'a',
        MAX_LINE_BYTES - 2,
        br#"{"client":0,"error":3,"field":"line","line":1,"name":"BadRequest"}
"#,
    ),
    (
        b'"',
        b'a',
        MAX_LINE_BYTES - 1,
        br#"{"client":0,"error":2,"line":1,"name":"LineTooLong"}
"#,
    ),
    (b' ', b' ', MAX_LINE_BYTES - 1, b""),
];

fn is_answered<R: Threads + Wait + Sync>(
    rt: &R,
    alloc: Global,
    row: &Row,
) -> Result<bool, AllocError> {
    let line = filled(alloc, row.0, row.1, row.2)?;
    let ended = served(rt, alloc, line.as_slice(), STEADY)?;
    Ok(ends_with(&ended, Status::Done, row.3))
}

fn long_lines_are_answered<R: Threads + Wait + Sync>(
    rt: &R,
    alloc: Global,
) -> Result<bool, AllocError> {
    for row in &LONG {
        if !is_answered(rt, alloc, row)? {
            return Ok(false);
        }
    }
    Ok(true)
}

/// So many lines `{}`.
fn lines(alloc: Global, count: usize) -> Result<Vec<u8>, AllocError> {
    let mut text = Vec::new(alloc);
    for _ in 0..count {
        text.extend_from_slice(b"{}\n")?;
    }
    Ok(text)
}

/// A run over so many lines, of which the second write fails.
fn run_over<R: Threads + Wait + Sync>(
    rt: &R,
    alloc: Global,
    count: usize,
) -> Result<Ended, AllocError> {
    let text = lines(alloc, count)?;
    let outside = Outside {
        written: 1_000_000_000,
        failing_write: 2,
        ..STEADY
    };
    served(rt, alloc, text.as_slice(), outside)
}

fn ends_with_one_round<R: Threads + Wait + Sync>(
    rt: &R,
    alloc: Global,
) -> Result<bool, AllocError> {
    let ended = run_over(rt, alloc, MAX_ROUND_LINES)?;
    Ok(ended.run.status == Status::Done)
}

const LAST: &[u8] = br#"{"client":0,"error":3,"field":"op","line":65537,"name":"BadRequest"}
"#;

fn ends_in_a_second_round<R: Threads + Wait + Sync>(
    rt: &R,
    alloc: Global,
) -> Result<bool, AllocError> {
    let ended = run_over(rt, alloc, MAX_ROUND_LINES + 1)?;
    let unsent = ended.run.status == Status::WriteFault && ended.run.unsent.len() == LAST.len();
    Ok(unsent && ended.written.written().bytes().len() > 65_536 * 60)
}

#[test]
fn long_lines_and_rounds_are_answered(rt: HostRuntime) -> Result<(), Fail> {
    assert!(rt; long_lines_are_answered(&rt, rt.alloc())?);
    // The most lines of a round are written at once; with one more there is a second round, whose write is the second one.
    assert!(rt; ends_with_one_round(&rt, rt.alloc())?);
    assert!(rt; ends_in_a_second_round(&rt, rt.alloc())?);
    Ok(())
}
