//! A file of the operating system that one server has to itself.
ghost use Rattle.std.specs.Prelude.{◌≤◌, length, IfOk};

use std::fmt::{self, Display, Formatter, Write};
use std::fs::{File, OpenOptions, TryLockError};
use std::io::{Error, ErrorKind};
use std::os::fd::AsRawFd;
use std::os::unix::fs::FileExt;
use std::rt;

// The last place that a file may have.
const LAST_PLACE: u64 = (1 << 63) - 1;

/// Why a call on a file failed.
#[derive(Clone, Copy, Debug)]
pub enum Cause {
    /// Another server, or another `FileDisk` of this one, has the file.
    InUse,
    /// What has the name is no regular file.
    NotAFile,
    /// No file has so high a place.
    TooFar,
    /// An earlier sync failed, after which the system may have lost what was written without saying so.
    Lost,
    /// The operating system refused it.
    System(Error),
}

impl Display for Cause {
    fn fmt<W: fmt::Write>(&self, f: &mut Formatter<W>) -> fmt::Result {
        match self {
            Cause::InUse => f.write_str("the file is in use by another server"),
            Cause::NotAFile => f.write_str("it is no regular file"),
            Cause::TooFar => f.write_str("the file is too large"),
            Cause::Lost => f.write_str("an earlier sync failed"),
            Cause::System(error) => Display::fmt(error, f),
        }
    }
}

impl From<Error> for Cause {
    fn from(error: Error) -> Cause {
        Cause::System(error)
    }
}

// The file, or why there is none.
#[derive(Drop)]
enum Link {
    Unopened,
    Open(File),
    Lost,
}

/// A file by its name. It is opened, locked and made at the first call. What its calls give is what the operating system
/// gives, which no clause can tell: they are trusted, and tried by tests.
#[derive(Drop)]
pub struct SystemFile<R> {
    runtime: R,
    name: String,
    link: Link,
}

impl<R> SystemFile<R> {
    /// The file of this name, which isn't opened yet.
    pub fn new(runtime: R, name: String) -> SystemFile<R> {
        SystemFile {
            runtime,
            name,
            link: Link::Unopened,
        }
    }
}

impl<R: rt::Files<File = File>> SystemFile<R> {
    /// Opens it, unless it is open.
    fn ready(&mut self) -> Result<(), Cause> {
        if let Link::Unopened = &self.link {
            self.link = Link::Open(open(&self.runtime, self.name.as_str())?);
        }
        Ok(())
    }

    /// The open file.
    fn file(&self) -> Result<&File, Cause> {
        match &self.link {
            Link::Open(file) => Ok(file),
            _ => Err(Cause::Lost),
        }
    }

    /// The number of bytes.
    pub fn len(&mut self) -> Result<u64, Cause> {
        self.ready()?;
        Ok(self.file()?.metadata()?.len())
    }

    /// One read at a place.
    pub fn read(&mut self, at: u64, buf: &mut [u8]) -> Result<usize, Cause>
        ensures { IfOk result (λ n. n ≤ length buf.new) }
    {
        self.ready()?;
        Ok(self.file()?.read_at(buf, at)?)
    }

    /// Writes the whole piece at a place.
    pub fn write_at(&mut self, at: u64, piece: &[u8]) -> Result<(), Cause> {
        if at > LAST_PLACE || piece.len() as u64 > LAST_PLACE - at {
            return Err(Cause::TooFar);
        }
        self.ready()?;
        Ok(self.file()?.write_all_at(piece, at)?)
    }

    /// Cuts it to a length, unless it is shorter.
    pub fn cut(&mut self, len: u64) -> Result<(), Cause> {
        self.ready()?;
        let file = self.file()?;
        if len < file.metadata()?.len() {
            file.set_len(len)?;
        }
        Ok(())
    }

    /// Syncs bytes and length. After a failure nothing more can be asked of this file: the system may drop what was written
    /// and let a later sync succeed all the same.
    pub fn sync(&mut self) -> Result<(), Cause> {
        self.ready()?;
        let synced = self.file()?.sync_all();
        if synced.is_err() {
            self.link = Link::Lost;
        }
        Ok(synced?)
    }
}

// Opens the file or makes it, locks it, and syncs it and its folder, so that a crash can't take away its name.
fn open<R: rt::Files<File = File>>(runtime: &R, name: &str) -> Result<File, Cause> {
    let file = lock(open_or_make(runtime, name)?)?;
    file.sync_all()?;
    File::open(runtime, folder_of(name))?.sync_all()?;
    Ok(file)
}

fn open_or_make<R: rt::Files<File = File>>(runtime: &R, name: &str) -> Result<File, Cause> {
    let file = OpenOptions::new()
        .read(true)
        .write(true)
        .create(true)
        .open(runtime, name)?;
    if !file.metadata()?.is_file() {
        return Err(Cause::NotAFile);
    }
    // What is meant for a standard stream that was closed must not be written into the file.
    if file.as_raw_fd() <= 2 {
        return Ok(file.try_clone()?);
    }
    Ok(file)
}

// Takes the lock of the file, which the system gives back where the process ends, also where it is killed.
fn lock(file: File) -> Result<File, Cause> {
    match file.try_lock() {
        Ok(()) => Ok(file),
        Err(TryLockError::WouldBlock) => Err(Cause::InUse),
        Err(TryLockError::Error(error)) => Err(Cause::System(error)),
    }
}

// The folder in which the name stands.
fn folder_of(name: &str) -> &str {
    match name.rsplit_once('/') {
        Some(("", _)) => "/",
        Some((folder, _)) => folder,
        None => ".",
    }
}
