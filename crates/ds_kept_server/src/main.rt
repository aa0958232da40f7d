//! The program: the real input, output, files and disk, and the top call of `ds_durable`, where the theorem of a kept journal stands.
//!
//! It takes the words `--kept FILE`, and behind them those of `ds_server`; FILE is opened at the first call of the disk, and made where it
//! isn't there. It ends with the number of the run's status, which it also names on standard error.
#![tactic(auto)]

use ds_disk::FileDisk;
use ds_durable::{KeptStatus, Status, kept_words, serve_kept};
use ds_io::{NoGate, StdFiles, StdSink, StdSource};
use std::alloc::AllocError;
use std::io::{ErrorKind, Write};
use std::mem::forget;
use std::process::ExitCode;
use std::{env, io};

fn main(rt: HostRuntime) -> ExitCode {
    let words = match words(&rt) {
        Ok(words) => words,
        Err(error) => return end(&rt, unread(&error)),
    };
    let name = match file_name(&rt, words.as_slice()) {
        Ok(name) => name,
        Err(_) => return end(&rt, KeptStatus::Served(Status::NoMemory)),
    };
    let mut disk = FileDisk::new(&rt, name);
    let mut files = StdFiles::new(&rt);
    let mut input = StdSource::new(rt.stdin());
    let mut output = StdSink::new(rt.stdout());
    let run = serve_kept(
        &rt,
        rt.alloc(),
        words.as_slice(),
        &mut disk,
        &mut files,
        &mut input,
        &mut output,
        &NoGate,
    );
    let status = run.status;
    // The system takes a process's memory back at once; the journal would be freed commit by commit.
    forget(run);
    tell_cause(&rt, status, &disk);
    end(&rt, status)
}

/// The words behind the program's name. An error of the kind `InvalidData` tells that one isn't UTF-8; any other is want of
/// memory.
fn words(rt: &HostRuntime) -> io::Result<Vec<String>> {
    Ok(env::args(rt)?.skip(1).collect(rt.alloc())?)
}

/// The name of the kept file; where the words leave their form no file is opened, and the name is empty.
fn file_name(rt: &HostRuntime, words: &[String]) -> Result<String, AllocError> {
    match kept_words(words) {
        Some(kept) => String::from_str(rt.alloc(), kept.file),
        None => Ok(String::new(rt.alloc())),
    }
}

/// How a run ends whose words could not be had: a word that isn't UTF-8 leaves the form of the words, as any other that does.
fn unread(error: &io::Error) -> KeptStatus {
    match error.kind() {
        ErrorKind::InvalidData => KeptStatus::Served(Status::Usage),
        _ => KeptStatus::Served(Status::NoMemory),
    }
}

/// Tells on standard error why the disk failed, where it did.
fn tell_cause(rt: &HostRuntime, status: KeptStatus, disk: &FileDisk<&HostRuntime>) {
    if status != KeptStatus::DiskFault {
        return;
    }
    if let Some(cause) = disk.cause() {
        let mut errors = rt.stderr();
        let told = writeln!(errors, "{cause}");
        // Where standard error is closed, the number alone tells it.
        let _ = told;
    }
}

/// Tells on standard error how the run ended, unless all went well, and gives the number of its status.
fn end(rt: &HostRuntime, status: KeptStatus) -> ExitCode {
    let mut errors = rt.stderr();
    let told = match status {
        KeptStatus::Served(Status::Done) => Ok(()),
        KeptStatus::Served(Status::Usage) => writeln!(errors, "usage"),
        KeptStatus::Served(Status::IndexFile { line }) => writeln!(
            errors,
            "index file: line {line}"
        ),
        KeptStatus::Served(Status::ReadFault) => writeln!(errors, "read fault"),
        KeptStatus::Served(Status::WriteFault) => writeln!(errors, "write fault"),
        KeptStatus::Served(Status::FileFault) => writeln!(errors, "file fault"),
        KeptStatus::Served(Status::NoMemory) => writeln!(errors, "no memory"),
        KeptStatus::Served(Status::InputLimit) => writeln!(errors, "input limit"),
        KeptStatus::DiskFault => writeln!(errors, "disk fault"),
        KeptStatus::Damaged { at } => writeln!(errors, "damaged: {at}"),
        KeptStatus::TooManyRows { commit, count: _ } => {
            writeln!(errors, "too many rows: commit {commit}")
        }
    };
    // Where standard error is closed, the number alone tells it.
    let _ = told;
    ExitCode::from(status.exit_number())
}
