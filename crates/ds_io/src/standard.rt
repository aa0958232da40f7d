//! The forms over std: a reader, a writer, and the file system.
//!
//! They tell the bytes that std tells of their reader or writer: those of a slice or a vector, and none of a terminal or a
//! file. Each error of std is counted as a fault, in a count that stays at its last value. A `read`, `write` or `flush`
//! that a signal interrupts is a fault too, and not repeated: a program that installs no signal handler, as the server,
//! isn't interrupted. A load repeats what was interrupted.
ghost use Rattle.std.specs.Prelude.{◌≡◌, ◌≤◌, length, IfOk, None};
ghost use Rattle.ds_base.specs.Limits.{most_file_bytes};
ghost use Rattle.ds_io.specs.Standard.{Wrapped};

use crate::traits::{Failed, Files, LoadFault, Sink, Source};
use ds_base::ByteString;
use ds_base::limits::MAX_FILE_BYTES;
use std::alloc::Global;
use std::fs::{File, OpenFile};
use std::io::{ErrorKind, Read, Write};
use std::marker::Model;
use std::rt;

/// A source over a reader of std. Contracts see the reader and the count of faults.
#[derive(Drop)]
pub struct StdSource<R> {
    reader: R,
    faults: u64,
}

impl<R> Model for StdSource<R> {
    ghost use Rattle.ds_io.specs.Standard.{Wrapped};

    ghost Value = { Wrapped R };

    ghost view = { λ s. record { inner = s.reader; faults = s.faults } };
}

impl<R> StdSource<R> {
    /// A source over this reader, with no fault so far.
    pub fn new(reader: R) -> StdSource<R>
        ensures { result ≡ record { inner = reader; faults = 0 } }
    {
        StdSource { reader, faults: 0 }
    }
}

impl<R: Read> Source for StdSource<R> {
    ghost left = { λ s. R.remaining s.inner };

    ghost faults = { λ s. s.faults };

    /// One `read` of the reader.
    fn read(&mut self, buf: &mut [u8]) -> Result<usize, Failed> {
        match self.reader.read(buf) {
            Ok(n) => Ok(n),
            Err(_) => {
                self.faults = self.faults.saturating_add(1);
                Err(Failed)
            }
        }
    }
}

/// A sink over a writer of std. Contracts see the writer and the count of faults.
#[derive(Drop)]
pub struct StdSink<W> {
    writer: W,
    faults: u64,
}

impl<W> Model for StdSink<W> {
    ghost use Rattle.ds_io.specs.Standard.{Wrapped};

    ghost Value = { Wrapped W };

    ghost view = { λ s. record { inner = s.writer; faults = s.faults } };
}

impl<W> StdSink<W> {
    /// A sink over this writer, with no fault so far.
    pub fn new(writer: W) -> StdSink<W>
        ensures { result ≡ record { inner = writer; faults = 0 } }
    {
        StdSink { writer, faults: 0 }
    }
}

impl<W: Write> Sink for StdSink<W> {
    ghost held = { λ s. W.contents s.inner };

    ghost faults = { λ s. s.faults };

    /// One `write` of the writer.
    fn write(&mut self, piece: &[u8]) -> Result<usize, Failed> {
        match self.writer.write(piece) {
            Ok(n) if n > 0 || piece.is_empty() => Ok(n),
            _ => {
                self.faults = self.faults.saturating_add(1);
                Err(Failed)
            }
        }
    }

    /// One `flush` of the writer.
    fn flush(&mut self) -> Result<(), Failed> {
        match self.writer.flush() {
            Ok(()) => Ok(()),
            Err(_) => {
                self.faults = self.faults.saturating_add(1);
                Err(Failed)
            }
        }
    }
}

/// The files of a runtime. Contracts see its count of faults, which serves all names.
#[derive(Drop)]
pub struct StdFiles<R> {
    runtime: R,
    faults: u64,
}

impl<R> Model for StdFiles<R> {
    ghost use Rattle.std.specs.Prelude.{ℕ};

    ghost Value = { ℕ };

    ghost view = { λ s. s.faults };
}

impl<R> StdFiles<R> {
    /// The files of this runtime, with no fault so far.
    pub fn new(runtime: R) -> StdFiles<R>
        ensures { result ≡ 0 }
    {
        StdFiles { runtime, faults: 0 }
    }
}

// All bytes of a file. One that is too large is refused by its length before it is read; where the length is not
// known, as for a device, at most one byte more is read than is given, so that a file without an end ends too.
fn load_file<R: rt::Files>(runtime: &R, alloc: Global, name: &str) -> Result<ByteString, LoadFault>
    ensures { IfOk result (λ bytes. length bytes ≤ most_file_bytes) }
{
    let Ok(file) = File::open(runtime, name) else {
        return Err(LoadFault::Failed);
    };
    if let Ok(metadata) = file.metadata()
        && metadata.len() > MAX_FILE_BYTES as u64
    {
        return Err(LoadFault::Failed);
    }
    let mut bytes = Vec::new(alloc);
    match file.take(MAX_FILE_BYTES as u64 + 1).read_to_end(&mut bytes) {
        Ok(_) if bytes.len() <= MAX_FILE_BYTES => Ok(ByteString::from_vec(bytes)),
        Err(error) if error.kind() == ErrorKind::OutOfMemory => Err(LoadFault::NoMemory),
        _ => Err(LoadFault::Failed),
    }
}

impl<R: rt::Files> Files for StdFiles<R> {
    ghost content = { λ _ _. None };

    ghost faults = { λ s _. s };

    /// Opens the file and reads it to its end. Want of memory is no fault.
    fn load(&mut self, alloc: Global, name: &str) -> Result<ByteString, LoadFault> {
        let loaded = load_file(&self.runtime, alloc, name);
        if let Err(LoadFault::Failed) = loaded {
            self.faults = self.faults.saturating_add(1);
        }
        loaded
    }
}
