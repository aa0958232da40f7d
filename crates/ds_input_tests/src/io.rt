//! The forms of the outside in memory and over std, each called once, where it succeeds and where it fails; and steps.
ghost use Rattle.std.specs.Prelude.{◌≡◌, ◌<◌};

use ds_base::limits::MAX_FILE_BYTES;
use ds_base::{ByteString, ByteStrings, Names, Numbers, TextString};
use ds_io::{
    Failed, Files, Gate, LoadFault, MemoryFiles, MemorySink, MemorySource, NoGate, Sink, Source,
    StdFiles, StdSink, StdSource, Steps,
};
use std::alloc::{AllocError, Global};
use std::fs::File;
use std::io::{ErrorKind, Read, Write};
use std::marker::Brand;
use std::sync::ledger::{Blank, Ledger};
use std::test::Fail;
use std::{fs, io};

/// Opens the ledger that the blank becomes, and counts this many steps on it.
fn count_steps<L: Ledger>(blank: Blank, times: u32)
    requires name { blank.name ≡ L.name }
    requires parts { blank.parts ≡ L.parts }
    requires some { 0 < blank.parts }
{
    let mut steps = Steps::<L>::new(blank);
    for _ in 0..times {
        steps.tick();
    }
}

#[test]
fn counts_steps(_rt: HostRuntime) {
    count_steps::<Brand>(Blank::new(1), 3);
}

// The list of this number.
fn only(alloc: Global, number: u64) -> Result<Numbers, AllocError> {
    Ok(Numbers::from(Vec::from_slice(alloc, &[number])?))
}

// Whether three reads of four bytes answer this, of a source that gives at most so many at once and fails at one call.
fn reads_in_turn(
    alloc: Global,
    most: usize,
    failing: u64,
    want: [Result<usize, Failed>; 3],
) -> Result<bool, AllocError>
    requires { 0 < most }
{
    let bytes = ByteString::of(alloc, b"abcdefg")?;
    let mut source = MemorySource::make(bytes, most, only(alloc, failing)?);
    let mut holds = true;
    for expected in want {
        holds = source.read(&mut [0; 4]) == expected && holds;
    }
    Ok(holds)
}

// Whether a sink that takes three bytes at once, and fails at its second call, takes six.
fn takes_six(sink: &mut MemorySink) -> bool {
    let first = sink.write(b"abcdefg") == Ok(3);
    let second = sink.write(b"defg") == Err(Failed);
    let third = sink.write(b"defg") == Ok(3);
    let last = sink.write(b"") == Ok(0) && sink.flush() == Ok(());
    first && second && third && last
}

fn six_are_written(alloc: Global) -> Result<bool, AllocError> {
    let mut sink = MemorySink::make(alloc, 3, only(alloc, 2)?);
    Ok(takes_six(&mut sink) && sink.written().bytes() == b"abcdef".as_slice())
}

// Whether a sink that takes nothing fails.
fn none_are_written(alloc: Global) -> bool {
    let mut full = MemorySink::make(alloc, 0, Numbers::new(alloc));
    full.write(b"a") == Err(Failed)
}

// Two files, of which the second call to load one fails.
fn two_files(alloc: Global) -> Result<MemoryFiles, AllocError> {
    let names = vec![in alloc; TextString::of(alloc, "a")?, TextString::of(alloc, "b")?]?;
    let contents = vec![in alloc;
        ByteString::of(alloc, b"first")?,
        ByteString::of(alloc, b"second")?,
    ]?;
    let failing = only(alloc, 2)?;
    Ok(MemoryFiles::make(Names::from(names), ByteStrings::from(contents), failing))
}

fn loads<F: Files>(files: &mut F, alloc: Global, name: &str, want: &[u8]) -> bool {
    match files.load(alloc, name) {
        Ok(bytes) => bytes.bytes() == want,
        Err(_) => false,
    }
}

fn fails_to_load<F: Files>(files: &mut F, alloc: Global, name: &str) -> bool {
    matches!(files.load(alloc, name), Err(LoadFault::Failed))
}

fn loads_in_turn(files: &mut MemoryFiles, alloc: Global) -> bool {
    let second = loads(files, alloc, "b", b"second");
    let failed = fails_to_load(files, alloc, "b");
    let missing = fails_to_load(files, alloc, "c");
    let first = loads(files, alloc, "a", b"first");
    second && failed && missing && first
}

#[test]
fn loads_in_memory(rt: HostRuntime) -> Result<(), Fail> {
    let alloc = rt.alloc();
    let mut files = two_files(alloc)?;
    assert!(rt; loads_in_turn(&mut files, alloc));
    Ok(())
}

// Fails each time.
#[derive(Drop)]
struct Broken;

impl Read for Broken {
    fn read(&mut self, _buf: &mut [u8]) -> io::Result<usize> {
        Err(io::Error::from(ErrorKind::BrokenPipe))
    }
}

// Takes nothing, and can't send it on.
#[derive(Drop)]
struct Stuck;

impl Write for Stuck {
    fn write(&mut self, _buf: &[u8]) -> io::Result<usize> {
        Ok(0)
    }

    fn flush(&mut self) -> io::Result<()> {
        Err(io::Error::from(ErrorKind::BrokenPipe))
    }
}

fn reads_over_std() -> bool {
    let mut buf = [0; 4];
    let mut source = StdSource::new(b"abcdefg".as_slice());
    let four = source.read(&mut buf) == Ok(4);
    let first = buf.as_slice() == b"abcd".as_slice();
    let three = source.read(&mut buf) == Ok(3);
    let end = source.read(&mut buf) == Ok(0);
    four && first && three && end && StdSource::new(Broken).read(&mut buf) == Err(Failed)
}

fn writes_over_std(written: &mut Vec<u8>) -> bool {
    let mut sink = StdSink::new(written);
    let all = sink.write(b"abc") == Ok(3);
    sink.flush() == Ok(()) && all
}

fn fails_over_std() -> bool {
    let write = StdSink::new(Stuck).write(b"abc") == Err(Failed);
    let nothing = StdSink::new(Stuck).write(b"") == Ok(0);
    StdSink::new(Stuck).flush() == Err(Failed) && write && nothing
}

#[test]
fn reads_and_writes_over_std(rt: HostRuntime) -> Result<(), Fail> {
    let mut written = Vec::new(rt.alloc());
    let holds = reads_over_std() && fails_over_std() && writes_over_std(&mut written);
    assert!(rt; holds && written.as_slice() == b"abc".as_slice());
    Ok(())
}

#[test]
fn loads_over_std(rt: HostRuntime) -> Result<(), Fail> {
    let alloc = rt.alloc();
    let name = "ds_input_tests_loads_over_std";
    fs::write(&rt, name, "all of it")?;
    let loaded = loads(&mut StdFiles::new(&rt), alloc, name, b"all of it");
    fs::remove_file(&rt, name)?;
    assert!(rt; loaded);
    assert!(rt;
        fails_to_load(&mut StdFiles::new(&rt), alloc, name),
        "missing"
    );

    File::create(&rt, name)?.set_len(MAX_FILE_BYTES as u64 + 1)?;
    let too_large = fails_to_load(&mut StdFiles::new(&rt), alloc, name);
    fs::remove_file(&rt, name)?;
    assert!(rt; too_large, "too large");
    NoGate.before(0, 1);
    NoGate.after(0, 1);
    Ok(())
}

#[test]
fn memory_is_read_and_written(rt: HostRuntime) -> Result<(), Fail> {
    let alloc = rt.alloc();
    assert!(rt; reads_in_turn(alloc, 1, 0, [Ok(1), Ok(1), Ok(1)])?);
    assert!(rt; reads_in_turn(alloc, 3, 2, [Ok(3), Err(Failed), Ok(3)])?);
    assert!(rt; reads_in_turn(alloc, 9, 4, [Ok(4), Ok(3), Ok(0)])?);
    assert!(rt; six_are_written(alloc)?);
    assert!(rt; none_are_written(alloc));
    Ok(())
}
