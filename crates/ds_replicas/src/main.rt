//! The program: the real input and output, and the top call of `ds_replication`, where its theorem stands.
//!
//! It passes on the words of the command line, and ends with the number of the run's status, which it also names on standard error.
#![tactic(auto)]

use ds_io::{StdSink, StdSource};
use ds_replication::{ReplicaStatus, replicate};
use std::io::{ErrorKind, Write};
use std::process::ExitCode;
use std::{env, io};

fn main(rt: HostRuntime) -> ExitCode {
    let words = match words(&rt) {
        Ok(words) => words,
        Err(error) => return end(&rt, unread(&error)),
    };
    let mut input = StdSource::new(rt.stdin());
    let mut output = StdSink::new(rt.stdout());
    let status = replicate(rt.alloc(), words.as_slice(), &mut input, &mut output);
    end(&rt, status)
}

/// The words behind the program's name.
fn words(rt: &HostRuntime) -> io::Result<Vec<String>> {
    Ok(env::args(rt)?.skip(1).collect(rt.alloc())?)
}

/// How a run ends whose words could not be had: a word that isn't UTF-8 leaves their form, as any other that does.
fn unread(error: &io::Error) -> ReplicaStatus {
    match error.kind() {
        ErrorKind::InvalidData => ReplicaStatus::Usage,
        _ => ReplicaStatus::NoMemory,
    }
}

/// Tells on standard error how the run ended, unless all went well, and gives the number of its status.
fn end(rt: &HostRuntime, status: ReplicaStatus) -> ExitCode {
    let mut errors = rt.stderr();
    let told = match status {
        ReplicaStatus::Done => Ok(()),
        ReplicaStatus::Usage => writeln!(errors, "usage"),
        ReplicaStatus::Script { line } => writeln!(errors, "script: line {line}"),
        ReplicaStatus::ReadFault => writeln!(errors, "read fault"),
        ReplicaStatus::WriteFault => writeln!(errors, "write fault"),
        ReplicaStatus::NoMemory => writeln!(errors, "no memory"),
        ReplicaStatus::InputLimit => writeln!(errors, "input limit"),
    };
    // Where standard error is closed, the number alone tells it.
    let _ = told;
    ExitCode::from(status.exit_number())
}
