//! Rounds of inputs, told as texts, and what is told of the bytes that an output didn't take.
ghost use Rattle.std.specs.Prelude.{◌<◌};

use ds_base::{ByteString, Numbers};
use ds_io::MemorySource;
use ds_rounds::{Chunk, Line, Lines, Round, RoundRefused, Rounds};
use std::alloc::{AllocError, Global};
use std::test::Fail;

/// A line that is longer than this is told by its length, and a round of more lines by their number.
const SHORT: usize = 9;

/// The longest line that isn't too long.
const LONGEST: usize = 2_097_152;

/// Puts what a round is behind a text: the number of its first line, and its lines.
fn tell_round(alloc: Global, round: Round, text: &mut Vec<u8>) -> Result<(), AllocError> {
    tell_number(alloc, round.first, text)?;
    tell_lines(alloc, round.lines, text)
}

fn tell_number(alloc: Global, first: u64, text: &mut Vec<u8>) -> Result<(), AllocError> {
    let number = format!(in alloc; "{first}:")?;
    text.extend_from_slice(number.as_bytes())
}

fn tell_lines(alloc: Global, lines: Lines, text: &mut Vec<u8>) -> Result<(), AllocError> {
    let count = lines.len();
    if count > SHORT {
        return tell_count(alloc, count, text);
    }
    let (chunks, last) = lines.into_chunks();
    tell_chunks(alloc, chunks.as_slice(), &last, text)
}

fn tell_count(alloc: Global, count: usize, text: &mut Vec<u8>) -> Result<(), AllocError> {
    let lines = format!(in alloc; "{count} lines")?;
    text.extend_from_slice(lines.as_bytes())
}

fn tell_chunks(
    alloc: Global,
    chunks: &[Chunk],
    last: &Chunk,
    text: &mut Vec<u8>,
) -> Result<(), AllocError> {
    for chunk in chunks {
        tell_chunk(alloc, chunk, text)?;
    }
    tell_chunk(alloc, last, text)
}

/// Puts the lines of a chunk behind a text.
fn tell_chunk(alloc: Global, chunk: &Chunk, text: &mut Vec<u8>) -> Result<(), AllocError> {
    for i in 0..chunk.len() {
        tell_line(alloc, chunk.get(i), text)?;
    }
    Ok(())
}

/// Puts a line behind a text, and a bar behind it.
fn tell_line(alloc: Global, line: Option<Line>, text: &mut Vec<u8>) -> Result<(), AllocError> {
    match line {
        Some(Line::Kept(bytes)) => tell_kept(alloc, bytes, text)?,
        Some(Line::TooLong) => text.extend_from_slice(b"too long")?,
        None => text.extend_from_slice(b"none")?,
    }
    text.extend_from_slice(b"|")
}

fn tell_kept(alloc: Global, bytes: &[u8], text: &mut Vec<u8>) -> Result<(), AllocError> {
    if bytes.len() <= SHORT {
        return text.extend_from_slice(bytes);
    }
    let length = format!(in alloc; "{} bytes", bytes.len())?;
    text.extend_from_slice(length.as_bytes())
}

/// Puts what the next call answers behind a text, and says whether there was something.
fn tell_next(
    alloc: Global,
    rounds: &mut Rounds,
    source: &mut MemorySource,
    text: &mut Vec<u8>,
) -> Result<bool, AllocError> {
    match rounds.next(source) {
        Ok(Some(round)) => tell_round(alloc, round, text)?,
        Ok(None) => return Ok(false),
        Err(RoundRefused::ReadFault) => text.extend_from_slice(b"fault")?,
        Err(RoundRefused::InputLimit) => text.extend_from_slice(b"limit")?,
        Err(RoundRefused::NoMemory) => text.extend_from_slice(b"no memory")?,
    }
    text.extend_from_slice(b" ")?;
    Ok(true)
}

/// Puts what the next calls answer behind a text, in turn, until one of them answers `None`, or there were six.
fn tell_six(
    alloc: Global,
    rounds: &mut Rounds,
    source: &mut MemorySource,
    text: &mut Vec<u8>,
) -> Result<(), AllocError> {
    for _ in 0..6 {
        if !tell_next(alloc, rounds, source, text)? {
            return Ok(());
        }
    }
    Ok(())
}

fn tell_rounds(
    alloc: Global,
    source: &mut MemorySource,
    text: &mut Vec<u8>,
) -> Result<(), AllocError> {
    let mut rounds = Rounds::make(alloc)?;
    tell_six(alloc, &mut rounds, source, text)
}

fn is_told(alloc: Global, source: &mut MemorySource, want: &[u8]) -> Result<bool, AllocError> {
    let mut text = Vec::new(alloc);
    tell_rounds(alloc, source, &mut text)?;
    Ok(text.as_slice() == want)
}

/// Whether the rounds of these bytes are told as this, where a read gives so many bytes at once, and none of these fails.
fn reads(
    alloc: Global,
    bytes: ByteString,
    most: usize,
    fails: Numbers,
    want: &[u8],
) -> Result<bool, AllocError>
    requires { 0 < most }
{
    let mut source = MemorySource::make(bytes, most, fails);
    is_told(alloc, &mut source, want)
}

/// Inputs, and how their rounds are told.
const INPUTS: [(&[u8], &[u8]); 9] = [
    (b"", b""),
    (b"\n", b""),
    (b" \t\r", b""),
    (b"a\nb\n\nc\n", b"1:a|b| 4:c| "),
    (b"a\nb", b"1:a|b| "),
    (b"\n\na\n", b"3:a| "),
    (b"a\n\n\nb\n\n", b"1:a| 4:b| "),
    (b"a\r\n \t\r\nb \r\n", b"1:a\r| 3:b \r| "),
    (b"a\n  ", b"1:a| "),
];

fn reads_all(alloc: Global, most: usize, rows: &[(&[u8], &[u8])]) -> Result<bool, AllocError>
    requires { 0 < most }
{
    for row in rows {
        let bytes = ByteString::of(alloc, row.0)?;
        if !reads(alloc, bytes, most, Numbers::new(alloc), row.1)? {
            return Ok(false);
        }
    }
    Ok(true)
}

#[test]
fn reads_rounds(rt: HostRuntime) -> Result<(), Fail> {
    let alloc = rt.alloc();
    assert!(rt; reads_all(alloc, 1, &INPUTS)?);
    assert!(rt; reads_all(alloc, 3, &INPUTS)?);
    assert!(rt; reads_all(alloc, 99, &INPUTS)?);
    assert!(rt; ends_a_round_at_its_bytes(alloc)?);
    assert!(rt; reads_a_round_in_several_chunks(alloc)?);
    Ok(())
}

/// So many times this piece, and then a rest.
fn repeated(
    alloc: Global,
    piece: &[u8],
    times: usize,
    rest: &[u8],
) -> Result<ByteString, AllocError> {
    let mut bytes = Vec::new(alloc);
    for _ in 0..times {
        bytes.extend_from_slice(piece)?;
    }
    bytes.extend_from_slice(rest)?;
    Ok(ByteString::from_vec(bytes))
}

fn reads_repeated(
    alloc: Global,
    piece: &[u8],
    times: usize,
    rest: &[u8],
    want: &[u8],
) -> Result<bool, AllocError> {
    let bytes = repeated(alloc, piece, times, rest)?;
    reads(alloc, bytes, 100_000, Numbers::new(alloc), want)
}

#[test]
fn reads_long_lines_and_rounds(rt: HostRuntime) -> Result<(), Fail> {
    let alloc = rt.alloc();
    assert!(rt; reads_repeated(alloc, b" ", LONGEST + 9, b"\na\n", b"2:a| ")?);
    assert!(rt; reads_repeated(alloc, b" ", LONGEST + 9, b"a\n", b"1:too long| ")?);
    assert!(rt; reads_repeated(alloc, b"a", LONGEST, b"\n", b"1:2097152 bytes| ")?);
    assert!(rt; reads_repeated(alloc, b"a", LONGEST + 1, b"\nb", b"1:too long|b| ")?);
    assert!(rt; reads_repeated(alloc, b"a\n", 65_537, b"", b"1:65536 lines 65537:a| ")?);
    Ok(())
}

fn ends_a_round_at_its_bytes(alloc: Global) -> Result<bool, AllocError> {
    let line = repeated(alloc, b"a", LONGEST, b"\n")?;
    let want = b"1:32 lines 33:2097152 bytes| ";
    reads_repeated(alloc, line.bytes(), 33, b"", want)
}

fn reads_a_round_in_several_chunks(alloc: Global) -> Result<bool, AllocError> {
    let line = repeated(alloc, b"a", 70_000, b"\nb\n")?;
    let want = b"1:70000 bytes|b|70000 bytes|b|70000 bytes|b| ";
    reads_repeated(alloc, line.bytes(), 3, b"", want)
}

/// Whether three lines are told as this where a call to read fails.
fn reads_where_one_fails(alloc: Global, failing: u64, want: &[u8]) -> Result<bool, AllocError> {
    let fails = Numbers::from(Vec::from_slice(alloc, &[failing])?);
    let bytes = ByteString::of(alloc, b"a\n\nb\ncd\n")?;
    reads(alloc, bytes, 3, fails, want)
}

const AT_ONCE: &[u8] = b"fault no memory no memory no memory no memory no memory ";

const AFTER_ONE: &[u8] = b"1:a| fault no memory no memory no memory no memory ";

#[test]
fn gives_a_round_before_it_reads_on(rt: HostRuntime) -> Result<(), Fail> {
    let alloc = rt.alloc();
    assert!(rt; reads_where_one_fails(alloc, 1, AT_ONCE)?);
    assert!(rt; reads_where_one_fails(alloc, 2, AFTER_ONE)?);
    assert!(rt; reads_where_one_fails(alloc, 3, AFTER_ONE)?);
    assert!(rt; reads_where_one_fails(alloc, 9, b"1:a| 3:b|cd| ")?);
    Ok(())
}
