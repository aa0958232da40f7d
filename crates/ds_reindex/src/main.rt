//! The program: the real input, output and files, and the top call of `ds_serve_cut`, where its theorem stands. It serves rounds 1 to N by
//! one index file, and later rounds by a second one.
//!
//! It passes on the words of the command line, and ends with the number of the run's status, which it also names on standard
//! error.
#![tactic(auto)]

use ds_io::{NoGate, StdFiles, StdSink, StdSource};
use ds_serve_cut::{CutStatus, serve_cut};
use ds_words::Status;
use std::io::{ErrorKind, Write};
use std::mem::forget;
use std::process::ExitCode;
use std::{env, io};

fn main(rt: HostRuntime) -> ExitCode {
    let words = match words(&rt) {
        Ok(words) => words,
        Err(error) => return end(&rt, CutStatus::Served(unread(&error))),
    };
    let mut files = StdFiles::new(&rt);
    let mut input = StdSource::new(rt.stdin());
    let mut output = StdSink::new(rt.stdout());
    let run = serve_cut(
        &rt,
        rt.alloc(),
        words.as_slice(),
        &mut files,
        &mut input,
        &mut output,
        &NoGate,
    );
    let status = run.status;
    // The system takes a process's memory back at once; the journal would be freed commit by commit.
    forget(run);
    end(&rt, status)
}

/// The words behind the program's name. An error of the kind `InvalidData` tells that one isn't UTF-8; any other is want of
/// memory.
fn words(rt: &HostRuntime) -> io::Result<Vec<String>> {
    Ok(env::args(rt)?.skip(1).collect(rt.alloc())?)
}

/// How a run ends whose words could not be had: a word that isn't UTF-8 leaves the form of the words, as any other that does.
fn unread(error: &io::Error) -> Status {
    match error.kind() {
        ErrorKind::InvalidData => Status::Usage,
        _ => Status::NoMemory,
    }
}

/// Tells on standard error how the run ended, unless all went well, and gives the number of its status.
fn end(rt: &HostRuntime, status: CutStatus) -> ExitCode {
    let mut errors = rt.stderr();
    let told = match status {
        CutStatus::Served(Status::Done) => Ok(()),
        CutStatus::Served(Status::Usage) => writeln!(errors, "usage"),
        CutStatus::Served(Status::IndexFile { line }) => {
            writeln!(errors, "index file: line {line}")
        }
        CutStatus::Served(Status::ReadFault) => writeln!(errors, "read fault"),
        CutStatus::Served(Status::WriteFault) => writeln!(errors, "write fault"),
        CutStatus::Served(Status::FileFault) => writeln!(errors, "file fault"),
        CutStatus::Served(Status::NoMemory) => writeln!(errors, "no memory"),
        CutStatus::Served(Status::InputLimit) => writeln!(errors, "input limit"),
        CutStatus::NextFile { line } => writeln!(errors, "next file: line {line}"),
        CutStatus::TooManyRows { commit, count: _ } => {
            writeln!(errors, "too many rows: commit {commit}")
        }
    };
    // Where standard error is closed, the number alone tells it.
    let _ = told;
    ExitCode::from(status.exit_number())
}
