//! The program: the real files and output, and the audit of a run.
#![tactic(auto)]

mod auditing;
mod printing;
mod reading;
mod status;

use auditing::audit;
use ds_io::{StdFiles, StdSink};
use status::AuditStatus;
use std::io::{ErrorKind, Write};
use std::process::ExitCode;
use std::{env, io};

fn main(rt: HostRuntime) -> ExitCode {
    let words = match words(&rt) {
        Ok(words) => words,
        Err(error) => return end(&rt, unread(&error)),
    };
    let mut files = StdFiles::new(&rt);
    let mut output = StdSink::new(rt.stdout());
    let status = audit(rt.alloc(), words.as_slice(), &mut files, &mut output);
    end(&rt, status)
}

/// The words behind the program's name.
fn words(rt: &HostRuntime) -> io::Result<Vec<String>> {
    Ok(env::args(rt)?.skip(1).collect(rt.alloc())?)
}

/// How an audit ends whose words could not be had.
fn unread(error: &io::Error) -> AuditStatus {
    match error.kind() {
        ErrorKind::InvalidData => AuditStatus::Usage,
        _ => AuditStatus::NoMemory,
    }
}

/// Tells on standard error how the audit ended, unless a verdict was printed, and gives the number of its status.
fn end(rt: &HostRuntime, status: AuditStatus) -> ExitCode {
    let mut errors = rt.stderr();
    let told = match status {
        AuditStatus::Legal | AuditStatus::NotLegal => Ok(()),
        AuditStatus::Usage => writeln!(errors, "usage"),
        AuditStatus::IndexFile { line } => writeln!(errors, "index file: line {line}"),
        AuditStatus::Journal { line } => writeln!(errors, "journal: line {line}"),
        AuditStatus::WriteFault => writeln!(errors, "write fault"),
        AuditStatus::FileFault => writeln!(errors, "file fault"),
        AuditStatus::NoMemory => writeln!(errors, "no memory"),
    };
    let _ = told;
    ExitCode::from(status.exit_number())
}
